use crate::Ladder;
use box_core::{BoxR, CertLine, Claim, Evals, Fresh, Judged, Landscape, corner_key, halves, split};
use box_search::{End, search, search_several};
use price_grid::Steps;
use std::test::Fail;

// The box between two corners, if they are in order.
fn box_of(lo: [u16; 2], hi: [u16; 2]) -> Option<BoxR> {
    if lo[0] > hi[0] || lo[1] > hi[1] {
        return None;
    }
    let mut low = Steps::new();
    low.push(lo[0]);
    low.push(lo[1]);
    let mut high = Steps::new();
    high.push(hi[0]);
    high.push(hi[1]);
    Some(BoxR { lo: low, hi: high })
}

#[test]
fn splits_boxes(rt: HostRuntime) -> Result<(), Fail> {
    for (lo, hi, dye, mid, left, right) in [
        ([0, 0], [4, 4], 1, 0, [0, 4], [1, 0]),
        ([1, 0], [4, 0], 1, 2, [2, 0], [3, 0]),
        ([1, 1], [4, 4], 1, 2, [2, 4], [3, 1]),
        ([1, 1], [2, 4], 2, 2, [2, 2], [1, 3]),
    ] {
        if let Some(part) = box_of(lo, hi) {
            if !part.is_single() {
                let cut = split(&part);
                assert_eq!(rt; (cut.dye, cut.mid), (dye, mid));
                assert_eq!(rt; cut.left.lo.as_slice(), lo.as_slice());
                assert_eq!(rt; cut.left.hi.as_slice(), left.as_slice());
                assert_eq!(rt; cut.right.lo.as_slice(), right.as_slice());
                assert_eq!(rt; cut.right.hi.as_slice(), hi.as_slice());
            }
            assert!(rt; halves(&part, dye, mid).is_some());
            assert!(rt; halves(&part, 0, mid).is_none());
            assert!(rt; halves(&part, 3, mid).is_none());
            assert!(rt; halves(&part, dye, 4).is_none());
        }
    }
    Ok(())
}

// The judgement of the box of all recipes, the cost of its lower corner, and whether light 1 fails
// on it or limit 3 excludes it.
fn judge_top<L: Landscape>(land: &L, meter: &mut L::Meter) -> (Judged, u64, bool) {
    let top = land.top();
    let key = corner_key(land, &top);
    let fails = land.fails(1, &top, meter) || land.excludes(3, &top);
    (land.judge(&top, meter), key.cost, fails)
}

#[test]
fn judges_a_ladder(rt: HostRuntime) -> Result<(), Fail> {
    for (most, first, want) in [
        (4, 5, Judged::Fail(1)),
        (4, 3, Judged::StillOpen),
        (0, 0, Judged::Pass),
    ] {
        let land = Ladder {
            most,
            first,
            last: most,
        };
        let mut meter = Evals::default();
        let (judged, cost, fails) = judge_top(&land, &mut meter);
        assert_eq!(rt; judged, want);
        assert_eq!(rt; (cost, fails), (0, want == Judged::Fail(1)));
        assert_eq!(rt; (land.judged(&meter), land.fresh(&meter)), (2, 2));
        assert_eq!(rt; (land.dims(), land.lights()), (1, 1));
    }
    Ok(())
}

// The line that splits a box after `mid` steps of the first dye.
fn split_after(mid: u16) -> CertLine {
    CertLine::Split { dye: 1, mid }
}

#[test]
fn searches_a_ladder(rt: HostRuntime) -> Result<(), Fail> {
    let land = Ladder {
        most: 4,
        first: 3,
        last: 4,
    };
    let mut meter = Evals::default();
    let found = search(rt.alloc(), &land, 100, &mut meter)?;
    assert_eq!(rt; (found.boxes, meter.judged, meter.fresh), (6, 6, 1));
    assert!(rt; matches!(&found.cert.claim, Claim::Match(steps) if steps[0] == 3));
    assert_eq!(rt;
        found.cert.lines.as_slice(),
        [
            split_after(0),
            CertLine::Fail(1),
            split_after(2),
            CertLine::Fail(1),
            split_after(3),
            CertLine::Pass,
            CertLine::Dear,
        ]
        .as_slice()
    );
    let stopped = search(rt.alloc(), &land, 3, &mut meter)?;
    assert_eq!(rt; stopped.boxes, 3);
    assert!(rt; matches!(&stopped.cert.claim, Claim::Floor(1)));
    assert_eq!(rt;
        stopped.cert.lines.as_slice(),
        [
            split_after(0),
            CertLine::Fail(1),
            split_after(2),
            CertLine::Dear,
            CertLine::Dear,
        ]
        .as_slice()
    );
    Ok(())
}

// Two of the five recipes pass, and are found in their order.
#[test]
fn searches_for_several(rt: HostRuntime) -> Result<(), Fail> {
    let land = Ladder {
        most: 4,
        first: 3,
        last: 4,
    };
    let mut meter = Evals::default();
    let one = search_several(rt.alloc(), &land, 1, 100, &mut meter)?;
    assert_eq!(rt;
        (one.end, one.boxes, one.matched.len()),
        (End::Enough, 6, 1)
    );
    let two = search_several(rt.alloc(), &land, 2, 100, &mut meter)?;
    assert_eq!(rt;
        (two.end, two.boxes, two.matched.len()),
        (End::Enough, 7, 2)
    );
    for (i, steps) in two.matched.iter().enumerate() {
        assert_eq!(rt; steps.as_slice(), [3 + i as u16].as_slice());
    }
    assert_eq!(rt;
        two.lines.as_slice(),
        [
            split_after(0),
            CertLine::Fail(1),
            split_after(2),
            CertLine::Fail(1),
            split_after(3),
            CertLine::Pass,
            CertLine::Pass,
        ]
        .as_slice()
    );
    let three = search_several(rt.alloc(), &land, 3, 100, &mut meter)?;
    assert_eq!(rt;
        (three.end, three.boxes, three.matched.len()),
        (End::Exhausted, 7, 2)
    );
    let stopped = search_several(rt.alloc(), &land, 3, 6, &mut meter)?;
    assert_eq!(rt; (stopped.end, stopped.boxes), (End::Stopped(4), 6));
    assert_eq!(rt; (stopped.matched.len(), stopped.undecided.len()), (1, 0));
    Ok(())
}

// A landscape that carries nothing is searched alike, and each of its boxes is judged afresh.
#[test]
fn searches_afresh(rt: HostRuntime) -> Result<(), Fail> {
    let ladder = Ladder {
        most: 4,
        first: 3,
        last: 4,
    };
    let land = Fresh { land: &ladder };
    for (wanted, end, found) in [(2, End::Enough, 2), (3, End::Exhausted, 2)] {
        let mut meter = Evals::default();
        let several = search_several(rt.alloc(), &land, wanted, 100, &mut meter)?;
        assert_eq!(rt; (several.end, several.boxes), (end, 7));
        assert_eq!(rt; several.matched.len(), found);
        assert_eq!(rt; (meter.judged, meter.fresh), (7, 7));
        assert_eq!(rt; (land.judged(&meter), land.fresh(&meter)), (7, u64::MAX));
    }
    Ok(())
}
