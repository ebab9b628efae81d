//! The broken line of a dye.

ghost use Rattle.std.specs.Prelude.{◌≡◌, ◌*◌, ◌^◌, ◌<◌, ◌≤◌, ℕ, All, length};
ghost use Rattle.interval_specs.specs.Ranges.{UpTo};
ghost use Rattle.spectral_tables.specs.Spectrum.{ends_of};
ghost use Rattle.ks_curves.specs.Dye.{IsDyeing};
ghost use Rattle.ks_curves.specs.Calibration.{node_at, nodes_at};
ghost use Rattle.ks_curves.specs.Nodes.{KeepsLine, KeepsNodes};
ghost use Rattle.ks_curves.specs.StoredNode.{node_of};
ghost use Rattle.ks_curves.specs.Slope.{CanFit};
ghost use Rattle.spectral_tables.specs.Curve.{IsCurve};
ghost use Rattle.ks_curves.specs.BrokenLine.{broken_over};

use crate::calibration::{added, are_curves};
use crate::node::StoredNode;
use crate::nodes::{Inverses, Nodes};
use crate::reach::Reach;
use arrayvec::ArrayVec;
use fix_bounds::{Base, Iv, Quick, Scale};
use spectral_tables::{Curve, MOST_WAVES};

/// The nodes at each wavelength.
type NodeTable = ArrayVec<Nodes, MOST_WAVES>;

/// The nodes of a broken line at each wavelength, at both scales.
#[derive(Drop)]
pub(crate) struct BrokenLine {
    base: NodeTable,
    quick: NodeTable,
    inverses: Inverses,
}

/// The ends of a value, in parts of the scale.
fn stored_ends<S: Scale>(value: Iv<S>) -> (u64, u64)
    requires { UpTo (10 ^ 4 * S.unit) value }
    ensures { ends_of result ≡ value }
{
    (value.lo() as u64, value.hi() as u64)
}

/// The node of a dyeing at a wavelength.
fn node<S: Scale>(substrate: &Curve, units: u32, dyed: &Curve, wave: usize) -> StoredNode
    requires substrate { wave < length substrate.now }
    requires dyed { wave < length dyed.now }
    ensures { node_of result ≡ node_at S.unit substrate.now wave (units, dyed.now) }
{
    let (low, high) = stored_ends(added::<S>(substrate, dyed, wave).cut_low(0));
    StoredNode { units, low, high }
}

/// The nodes of the dyeings at a wavelength.
fn nodes<S: Scale>(substrate: &Curve, dyeings: &[(u32, Curve)], wave: usize) -> Nodes
    requires wave { wave < length substrate.now }
    requires few { length dyeings.now ≤ 8 }
    requires dyeings { All (IsDyeing (length substrate.now)) dyeings.now }
    ensures { result ≡ nodes_at S.unit substrate.now wave dyeings.now }
{
    let mut nodes = Nodes::default();
    for taken in 0..dyeings.len() {
        let (units, dyed) = &dyeings[dyeings.len() - 1 - taken];
        nodes.put(node::<S>(substrate, *units, dyed, wave));
    }
    nodes
}

/// The nodes of the dyeings at each wavelength.
fn table<S: Scale>(substrate: &Curve, dyeings: &[(u32, Curve)]) -> NodeTable
    requires few { length dyeings.now ≤ 8 }
    requires dyeings { All (IsDyeing (length substrate.now)) dyeings.now }
    ensures { KeepsNodes S.unit substrate.now dyeings.now result.items }
{
    let mut kept = ArrayVec::new();
    for wave in 0..substrate.waves() {
        kept.push(nodes::<S>(substrate, dyeings, wave));
    }
    kept
}

/// Guesses at 2^64 over the distances of the nodes, which are the same at each wavelength.
fn inverses(table: &[Nodes]) -> Inverses {
    match table.first() {
        Some(nodes) => nodes.inverses(),
        None => [0; 9],
    }
}

impl BrokenLine {
    /// The broken line through these dyeings of a cloth.
    pub(crate) fn of(substrate: &Curve, dyeings: &[(u32, Curve)]) -> BrokenLine
        requires few { length dyeings.now ≤ 8 }
        requires dyeings { All (IsDyeing (length substrate.now)) dyeings.now }
        ensures is { KeepsLine substrate.now dyeings.now result }
        ensures substrate { IsCurve substrate.now }
        ensures curves { All (λ d. IsCurve d.1) dyeings.now }
    {
        are_curves(substrate, dyeings);
        let base = table::<Base>(substrate, dyeings);
        let inverses = inverses(base.as_slice());
        BrokenLine {
            base,
            quick: table::<Quick>(substrate, dyeings),
            inverses,
        }
    }

    /// Guesses at the pieces on which `x0` and `x1` units lie, at any wavelength.
    pub(crate) fn reach(&self, x0: u32, x1: u32) -> Reach {
        match self.base.as_slice().first() {
            Some(nodes) => Reach {
                first: nodes.place(x0, &self.inverses),
                last: nodes.place(x1, &self.inverses),
            },
            None => Reach::default(),
        }
    }

    /// The ends of the values over units from `x0` to `x1` at a wavelength: of the nodes that are
    /// stored at both scales, and of computed ones at any other.
    #[inline(always)]
    fn ends_over<S: Scale>(
        &self,
        substrate: &Curve,
        dyeings: &[(u32, Curve)],
        x0: u32,
        x1: u32,
        wave: usize,
        reach: &Reach,
    ) -> (u128, u128)
        requires wave { wave < length substrate.now }
        requires dyeings { CanFit substrate.now dyeings.now }
        requires keeps { KeepsLine substrate.now dyeings.now self.now }
        requires ordered { x0 ≤ x1 }
        ensures { ends_of result
            ≡ broken_over (nodes_at S.unit substrate.now wave dyeings.now) x0 x1 }
    {
        if S::UNIT == Base::UNIT {
            self.base.as_slice()[wave].value_over(x0, x1, reach, &self.inverses)
        } else if S::UNIT == Quick::UNIT {
            self.quick.as_slice()[wave].value_over(x0, x1, reach, &self.inverses)
        } else {
            nodes::<S>(substrate, dyeings, wave).value_over(x0, x1, reach, &self.inverses)
        }
    }

    /// The values of the line over units from `x0` to `x1` at a wavelength. `reach` is a guess at the
    /// pieces on which both lie.
    #[inline(always)]
    pub(crate) fn value_over<S: Scale>(
        &self,
        substrate: &Curve,
        dyeings: &[(u32, Curve)],
        x0: u32,
        x1: u32,
        wave: usize,
        reach: &Reach,
    ) -> Iv<S>
        requires wave { wave < length substrate.now }
        requires dyeings { CanFit substrate.now dyeings.now }
        requires keeps { KeepsLine substrate.now dyeings.now self.now }
        requires ordered { x0 ≤ x1 }
        requires units { x1 ≤ 40000 }
        requires substrate { IsCurve substrate.now }
        requires curves { All (λ d. IsCurve d.1) dyeings.now }
        ensures is { result ≡ broken_over (nodes_at S.unit substrate.now wave dyeings.now) x0 x1 }
        ensures range { UpTo (4 * 10 ^ 8 * S.unit) result }
    {
        let (below, above) = self.ends_over::<S>(substrate, dyeings, x0, x1, wave, reach);
        Iv::of_ends(below as i128, above as i128)
    }
}
