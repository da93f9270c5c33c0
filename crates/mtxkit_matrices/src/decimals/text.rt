//! Writes a text of decimal numbers again, with integers.

ghost use Rattle.std.specs.Prelude.{IfOk, IfErr};
ghost use Rattle.mtxkit_matrices.specs.ScaleFailures.{IsScaleFailure};
ghost use Rattle.mtxkit_matrices.specs.ScaledTexts.{IsScaledText};

use crate::decimals::error::ScaleError;
use crate::decimals::stage::{Stage, push_bytes, push_line};
use sparse_faults::after_end;
use sparse_parser::lines::split_line;
use std::alloc::Global;

/// Returns a Matrix Market text of decimal numbers with each number multiplied by `10^scale`, as a text of integers.
///
/// The numbers are read exactly, whatever their number of digits. The sizes, the rows and columns of entries, the
/// symmetry, the format, the comments and the order of the lines are kept. Each line gets LF as its end, the words of
/// the header are in lower case after `%%MatrixMarket`, and those of the header and of a data line are separated by one
/// space. The field of the text is `real` or `integer`.
///
/// Linear in the text's length; the memory is the result's.
///
/// # Errors
///
/// The first line with a fault determines the error: `Header`, `Sizes` or `Entry` if it does not fit the grammar or the
/// header, `Field` if it is a header whose field is `complex` or `pattern`, and `Fraction` or `Range` if its scaled
/// value is not an integer, or not one of 128 bits. Returns `Ended` if there is no size line. Otherwise fails only if
/// an allocation fails. The number of entries and their rows and columns are not compared with the sizes; reading the
/// result does that.
pub fn scaled_text(alloc: Global, scale: u32, text: &[u8]) -> Result<Vec<u8>, ScaleError>
    ensures written { IfOk result (λ written. IsScaledText scale text.now written.items) }
    ensures refused { IfErr result (IsScaleFailure scale text.now) }
{
    let mut written = Vec::new(alloc);
    let mut stage = Stage::Head;
    let mut rest = text;
    let mut number = 1;
    while !rest.is_empty() {
        let (line, others) = split_line(rest);
        let next = match push_line(&mut written, scale, stage, number, line) {
            Ok(next) => next,
            Err(why) => return Err(why),
        };
        stage = match push_bytes(&mut written, next, b"\n") {
            Ok(next) => next,
            Err(why) => return Err(why),
        };
        rest = after_end(others);
        number += 1;
    }
    match stage {
        Stage::Entries(_) => Ok(written),
        Stage::Head => Err(ScaleError::Ended),
        Stage::Sizes(_) => Err(ScaleError::Ended),
    }
}
