//! Finds the least scale with which a text of decimal numbers is written with integers.

ghost use Rattle.std.specs.Prelude.{◌≡◌, ◌≢◌, IfOk};
ghost use Rattle.mtxkit_matrices.specs.InnerScaleFailures.{next_scale};
ghost use Rattle.mtxkit_matrices.specs.ScaledTexts.{IsLeastTextScale};
ghost use Rattle.mtxkit_matrices.specs.declared.decimals.error.ScaleError.TheVariants.{OutOfMemory};

use crate::decimals::error::ScaleError;
use crate::decimals::text::scaled_text;
use std::alloc::{AllocError, Global};

/// Returns the least scale with which [`scaled_text`] writes a text, or `None` if it writes it with none.
///
/// Scales the text once for each number of places that exceeds those of the numbers above it; the memory is that of a
/// scaled text. Fails only if an allocation fails.
pub fn least_scale(alloc: Global, text: &[u8]) -> Result<Option<u32>, AllocError>
    ensures { IfOk result (IsLeastTextScale text.now) }
{
    let mut scale = 0;
    loop {
        let why = match scaled_text(alloc, scale, text) {
            Ok(_written) => return Ok(Some(scale)),
            Err(why) => why,
        };
        match next_scale(why)? {
            Some(next) => scale = next,
            None => return Ok(None),
        }
    }
}

// Returns the least scale of the value that is refused as a fraction, if one is and has one.
fn next_scale(why: ScaleError) -> Result<Option<u32>, AllocError>
    ensures next { IfOk result (λ next. next ≡ next_scale why) }
    ensures why { IfOk result (λ _. why ≢ OutOfMemory) }
{
    match why {
        ScaleError::Fraction(_, least) => Ok(least),
        ScaleError::OutOfMemory => Err(AllocError),
        _ => Ok(None),
    }
}
