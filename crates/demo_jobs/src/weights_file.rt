//! The text of a weights file.

ghost use Rattle.std.specs.Prelude.{◌≡◌, ◌++◌, IfOk, OnOk};
ghost use Rattle.demo_jobs.specs.Lines.{line};
ghost use Rattle.demo_jobs.specs.WeightsText.{weights_record, weights_text};

use crate::cloths::WAVES;
use crate::line::{number_field, push_field, wavelength_field};
use crate::weights::Light;
use std::alloc::{AllocError, Global};

/// Appends a record of a light: its first field, and its weights.
fn push_weights(
    text: &mut Vec<u8>,
    light: Light,
    first: &[u8],
    weights: &[u32],
) -> Result<(), AllocError>
    ensures { OnOk result (text.new.items
        ≡ text.old.items ++ line (weights_record light first.now weights.now)) }
{
    text.extend_from_slice(first)?;
    for weight in weights {
        push_field(text, &number_field(light.decimals(), *weight))?;
    }
    text.push(b'\n')?;
    Ok(())
}

/// The text of the weights file of a light.
#[tactic(auto, unfolding(crate::specs::WeightsText::weights_text))]
pub(crate) fn weights_text(alloc: Global, light: Light) -> Result<Vec<u8>, AllocError>
    ensures { IfOk result (λ text. text.items ≡ weights_text light) }
{
    let mut text = Vec::from_slice(alloc, b"nm,X,Y,Z\n")?;
    for index in 0..WAVES {
        let weights = light.weights(index);
        push_weights(&mut text, light, &wavelength_field(index), &weights)?;
    }
    push_weights(&mut text, light, b"white", &light.white())?;
    Ok(text)
}
