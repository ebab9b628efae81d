use super::*;
use crate::near_cube::near_cube_root;
use crate::near_square::near_square_root;

/// A wrong guess costs only time, so that no contract bounds how many there are; this test counts
/// them. For small numbers, and for whole squares and cubes, the guess may be one too small, and a
/// second guess corrects that.
#[test]
fn guesses_are_mostly_right(rt: HostRuntime) {
    let mut drawn: u128 = 1;
    let mut wrong = Wrong::default();
    for _ in 0..8000 {
        drawn = drawn
            .wrapping_mul(0x2360_ED05_1FC6_5DA4_4385_DF64_9FCC_F645)
            .wrapping_add(0x5851_F42D_4C95_7F2D);
        let x = drawn.wrapping_shr((drawn >> 100 & 0x7F) as u32);
        wrong.count(x >= 0x100_0000_0000, near_square_root(x), sqrt_floor(x));
        wrong.count(x >= 0x100_0000_0000, near_cube_root(x), cbrt_floor(x));
    }
    assert!(rt;
        wrong.large < 16,
        "{} of 11000 guesses for large numbers",
        wrong.large
    );
    assert!(rt;
        wrong.small < 400,
        "{} of 5000 guesses for small numbers",
        wrong.small
    );
    assert!(rt; wrong.twice < 16, "{} second guesses", wrong.twice);
}

#[derive(Default, Clone, Copy)]
struct Wrong {
    large: u32,
    small: u32,
    twice: u32,
}

impl Wrong {
    fn count(&mut self, large: bool, near: u64, root: u128) {
        if u128::from(near) == root {
            return;
        }
        if large {
            self.large = self.large.saturating_add(1);
        } else {
            self.small = self.small.saturating_add(1);
        }
        if u128::from(near.wrapping_add(1)) != root {
            self.twice = self.twice.saturating_add(1);
        }
    }
}
