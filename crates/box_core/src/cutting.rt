//! Where a box is split.

ghost use Rattle.std.specs.Prelude.{◌≡◌, ◌==◌, ◌&&◌, ◌<◌, ◌≤◌, nat_lt, if◌then◌else◌, IfSome, length};
ghost use Rattle.box_specs.specs.Span.{IsBox};
ghost use Rattle.box_specs.specs.Splits.{cut_of, first_optional, middle_of, widest};

/// Where a box is split: the index of a dye, and the last number of steps of it in the lower half.
#[derive(Clone, Copy)]
pub(crate) struct CutPoint {
    pub dye: usize,
    pub mid: u16,
}

/// Whether a range of steps has 0 and greater numbers.
fn is_optional(low: u16, high: u16) -> bool
    ensures { result ≡ (low == 0) && nat_lt 0 high }
{
    low == 0 && 0 < high
}

/// The first dye of which a box has recipes with none and recipes with some.
fn first_optional(low: &[u16], high: &[u16]) -> Option<usize>
    requires { length high.now ≡ length low.now }
    ensures is { result ≡ first_optional 0 low.now high.now }
    ensures inside { IfSome result (λ dye. dye < length low.now) }
{
    for (i, l) in low.iter().enumerate() {
        if is_optional(*l, high[i]) {
            return Some(i);
        }
    }
    None
}

/// The widest range so far: the index of its dye, and its width.
#[derive(Clone, Copy)]
struct WideRange {
    dye: usize,
    width: u16,
}

/// The widest range, once one more dye is looked at.
fn wider(best: WideRange, dye: usize, width: u16) -> WideRange
    ensures { result
        ≡ (if nat_lt best.width width then record { dye = dye; width = width } else best) }
{
    if best.width < width {
        WideRange { dye, width }
    } else {
        best
    }
}

/// The first dye with the widest range.
#[tactic(auto, using(crate::proofs::Splitting::widest_step))]
fn widest(low: &[u16], high: &[u16]) -> usize
    requires some { 1 ≤ length low.now }
    requires ordered { IsBox (record { lo = low.now; hi = high.now }) }
    ensures is { result ≡ widest 0 0 0 low.now high.now }
    ensures inside { result < length low.now }
{
    let mut best = WideRange { dye: 0, width: 0 };
    for (i, l) in low.iter().enumerate() {
        best = wider(best, i, high[i] - *l);
    }
    best.dye
}

/// Where the box between two corners is split.
pub(crate) fn cut_of(low: &[u16], high: &[u16]) -> CutPoint
    requires some { 1 ≤ length low.now }
    requires ordered { IsBox (record { lo = low.now; hi = high.now }) }
    ensures is { record { dye = result.dye; mid = result.mid }
        ≡ cut_of (record { lo = low.now; hi = high.now }) }
    ensures inside { result.dye < length low.now }
{
    match first_optional(low, high) {
        Some(dye) => CutPoint { dye, mid: 0 },
        None => {
            let dye = widest(low, high);
            let mid = (u32::from(low[dye]) + u32::from(high[dye])) / 2;
            CutPoint {
                dye,
                mid: mid as u16,
            }
        }
    }
}
