//! The weights of the two lights.

ghost use Rattle.std.specs.Prelude.{◌≡◌, ◌≤◌, ◌<◌};
ghost use Rattle.demo_jobs.specs.WeightsText.{decimals_of, first_weights, weights_at, white_of};

use crate::cloths::triangle;

/// A light of a job.
#[derive(Debug, Clone, Copy)]
pub(crate) enum Light {
    /// Its weights are whole numbers.
    First,
    /// Its weights have one decimal place.
    Second,
}

/// The weights of the first light at a wavelength index, for X, Y and Z.
fn first_weights(index: u32) -> [u32; 3]
    ensures { result ≡ first_weights index }
{
    [
        triangle(8, 20, index) + triangle(3, 4, index),
        triangle(10, 15, index),
        2 * triangle(6, 5, index),
    ]
}

impl Light {
    /// How many decimal places the weights have.
    pub(crate) fn decimals(self) -> u8
        ensures is { result ≡ decimals_of self }
        ensures few { result ≤ 12 }
    {
        match self {
            Light::First => 0,
            Light::Second => 1,
        }
    }

    /// The weights at a wavelength index, in units of their last decimal place. As values, those of
    /// the second light are those of the first times `(10 + index) / 10`: as numbers of tenths,
    /// those of the first times `10 + index`.
    #[tactic(auto, unfolding(crate::specs::WeightsText::weights_at))]
    pub(crate) fn weights(self, index: u32) -> [u32; 3]
        requires { index < 31 }
        ensures { result ≡ weights_at self index }
    {
        match self {
            Light::First => first_weights(index),
            Light::Second => {
                let [x, y, z] = first_weights(index);
                let tenths = 10 + index;
                [x * tenths, y * tenths, z * tenths]
            }
        }
    }

    /// The white values, in units of their last decimal place: the sums of the weights.
    pub(crate) fn white(self) -> [u32; 3]
        ensures { result ≡ white_of self }
    {
        match self {
            Light::First => [73, 100, 72],
            Light::Second => [2046, 2500, 1080],
        }
    }
}
