//! The decimal text of indices.

ghost use Rattle.std.specs.Prelude.{◌≡◌, ◌+◌, ◌≤◌, ◌∷◌, [], ◌++◌, length, drop};
ghost use Rattle.std.specs.Fmt.{decimal};

use itoa::write_digits;

// The length of a number of at most 20 digits and the blank after it.
const FIELD: usize = 21;

// The length of the two indices of a triplet.
pub(super) const ROOM: usize = 2 * FIELD;

// Writes a number and a blank that end at the offset `end`. Returns the offset at which they start.
#[inline(always)]
fn write_field(number: usize, bytes: &mut [u8], end: usize) -> usize
    requires room { FIELD ≤ end }
    requires inside { end ≤ length bytes.old }
    ensures short { end ≤ result + FIELD }
    ensures before { result ≤ end }
    ensures written { drop result bytes.new ≡ decimal number ++ 32 ∷ drop end bytes.old }
{
    bytes[end - 1] = b' ';
    write_digits(number as u64, bytes, end - 1)
}

// The text of two indices, each with a blank after it.
#[inline(always)]
pub(super) fn format_indices(bytes: &mut [u8; ROOM], row: usize, col: usize) -> &str
    ensures { result.now ≡ decimal row ++ 32 ∷ (decimal col ++ 32 ∷ []) }
{
    let end = write_field(col, bytes, ROOM);
    let start = write_field(row, bytes, end);
    unsafe { std::str::from_utf8_unchecked(&bytes[start..]) }
}
