ghost use Rattle.std.specs.Prelude.{IfSome};
ghost use Rattle.price_grid.specs.Limits.{FitGrid, limits_view};
ghost use Rattle.price_grid.specs.Grid.{IsRecipe};

use crate::{
    DyeCost, Grid, LimitNo, Limits, Steps, admits, compare, cost, excludes, key, read_steps,
};
use arrayvec::ArrayVec;
use std::cmp::Ordering;
use std::test::Fail;

// Two dyes with steps of 10 units, at 3 cost units a unit; the second one has a fee of 7.
fn two_dyes() -> Grid {
    let first = DyeCost {
        step: 10,
        least: 1,
        most: 1,
        price: 3,
        fee: 0,
    };
    let mut dyes = ArrayVec::new();
    dyes.push(first);
    dyes.push(DyeCost { fee: 7, ..first });
    Grid { dyes }
}

#[test]
fn reads_words(rt: HostRuntime) -> Result<(), Fail> {
    let grid = two_dyes();
    for (word, want) in [
        ("0,1", true),
        ("0000,0001", true),
        ("0,2", false),
        ("00000,1", false),
        ("0", false),
        ("0,1,0", false),
        ("0,1,", false),
        ("", false),
        ("+0,1", false),
        ("0, 1", false),
    ] {
        let read = read_steps(&grid, word.as_bytes());
        assert_eq!(rt; read.is_some(), want, "{word}");
    }
    Ok(())
}

// Limits that forbid only what the arguments say.
fn limits(
    grid: &Grid,
    max_dyes: u8,
    max_total: u32,
    max_cost: Option<u64>,
    bath: &str,
) -> Option<Limits>
    ensures { IfSome result (λ l. FitGrid grid.now (limits_view l)) }
{
    Some(Limits {
        max_dyes,
        max_total,
        max_cost,
        pairs: ArrayVec::new(),
        bath: read_steps(grid, bath.as_bytes())?,
    })
}

// Whether the limit of this number excludes the box of one recipe.
#[tactic(auto, using(crate::proofs::GridFacts::up_to_itself))]
fn is_excluded(grid: &Grid, limits: &Limits, number: u8, steps: &Steps) -> bool
    requires fit { FitGrid grid.now (limits_view limits.now) }
    requires recipe { IsRecipe grid.now steps.now.items }
{
    excludes(grid, limits, number, steps, steps)
}

#[test]
fn admits_recipes(rt: HostRuntime) -> Result<(), Fail> {
    let grid = two_dyes();
    for (max_dyes, max_total, max_cost, bath, word, want) in [
        (12, 240_000, None, "0,0", "1,1", None),
        (1, 240_000, None, "0,0", "1,1", Some(2)),
        (12, 5, None, "0,0", "0,1", Some(3)),
        (12, 240_000, Some(36), "0,0", "0,1", Some(5)),
        (12, 240_000, Some(37), "0,0", "0,1", None),
        (12, 240_000, None, "1,0", "1,0", Some(1)),
        (1, 5, Some(0), "1,0", "1,1", Some(1)),
    ] {
        if let Some(limits) = limits(&grid, max_dyes, max_total, max_cost, bath) {
            if let Some(steps) = read_steps(&grid, word.as_bytes()) {
                let answer = admits(&grid, &limits, &steps);
                let number = answer.err().map(|limit: LimitNo| limit.0);
                assert_eq!(rt; number, want, "{word}");
                let shut = is_excluded(&grid, &limits, want.unwrap_or(0), &steps);
                assert_eq!(rt; shut, want.is_some(), "{word}");
            }
        }
    }
    Ok(())
}

#[test]
fn orders_recipes(rt: HostRuntime) -> Result<(), Fail> {
    let grid = two_dyes();
    let words = ["0,0", "1,0", "0,1", "1,1"];
    for (word, want) in words.iter().zip([0, 30, 37, 67]) {
        if let Some(steps) = read_steps(&grid, word.as_bytes()) {
            assert_eq!(rt; cost(&grid, &steps), want, "{word}");
        }
    }
    if let (Some(a), Some(b)) = (read_steps(&grid, b"0,1"), read_steps(&grid, b"1,0")) {
        assert_eq!(rt;
            compare(&key(&grid, &a), &key(&grid, &b)),
            Ordering::Greater
        );
        assert_eq!(rt; key(&grid, &a) < key(&grid, &b), false);
    }
    Ok(())
}
