//! Adding the weights outside a grid to those at its nearer end.

ghost use Rattle.std.specs.Prelude.{◌≡◌, ◌*◌, ◌≤◌, ◌<◌, ◌^◌, length, All, unsigned_abs};
ghost use Rattle.spectral_tables.specs.WeightTable.{IsTriple, column_sum, total_of};
ghost use Rattle.spectral_tables.specs.Fold.{Covers, fold_of};

use crate::grid::{MOST_WAVES, WaveGrid};
use arrayvec::ArrayVec;

/// The sum of a column.
fn column_sum(triples: &[[i64; 3]], column: usize) -> i64
    requires column { column < 3 }
    requires few { length triples.now ≤ 60 }
    requires magnitudes { All IsTriple triples.now }
    ensures { result ≡ column_sum column triples.now }
{
    let mut sum = 0;
    for triple in triples {
        sum += triple[column];
    }
    sum
}

fn total(triples: &[[i64; 3]]) -> [i64; 3]
    requires few { length triples.now ≤ 60 }
    requires magnitudes { All IsTriple triples.now }
    ensures { result ≡ total_of triples.now }
{
    [
        column_sum(triples, 0),
        column_sum(triples, 1),
        column_sum(triples, 2),
    ]
}

/// The weights of a grid, from weights that begin at the wavelength `first` and have the steps of
/// the grid: those below its first wavelength are added to the weight there, and those above its
/// last one to the weight there.
#[tactic(auto, unfolding(crate::specs::Fold::fold_of), using(crate::proofs::GridFacts::splits))]
pub fn fold(grid: WaveGrid, first: u16, triples: &[[i64; 3]]) -> ArrayVec<[i64; 3], MOST_WAVES>
    requires run { Covers grid first (length triples.now) }
    requires magnitudes { All IsTriple triples.now }
    ensures { result.items ≡ fold_of grid first triples.now }
{
    let waves = grid.waves();
    let below = usize::from((waves.first - first) / waves.step);
    let (low, rest) = triples.split_at(below + 1);
    let (middle, high) = rest.split_at(waves.count - 2);
    let mut folded = ArrayVec::new();
    folded.push(total(low));
    for triple in middle {
        folded.push(*triple);
    }
    folded.push(total(high));
    folded
}
