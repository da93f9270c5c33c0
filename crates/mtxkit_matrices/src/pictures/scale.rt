//! The size of a picture of a matrix.

ghost use Rattle.std.specs.Prelude.{◌≡◌, ◌<◌, ◌≤◌};
ghost use Rattle.mtxkit_matrices.specs.PictureSizes.{picture_sizes, scaled_side};

/// Returns the height and the width of a picture of a matrix, neither above `size`, which must not be 0.
///
/// If neither side of the matrix exceeds `size`, there is a cell for each row and column. Otherwise `size` cells stand
/// for the longer side; the other side is scaled by the same factor and rounded down, to at least one cell unless it is
/// 0.
pub fn scaled_sizes(nrows: usize, ncols: usize, size: usize) -> (usize, usize)
    requires some { 0 < size }
    ensures sizes { result ≡ picture_sizes nrows ncols size }
    ensures height { result.0 ≤ size }
    ensures width { result.1 ≤ size }
    ensures whole { nrows ≤ size → ncols ≤ size → result ≡ (nrows, ncols) }
    ensures rows { 0 < nrows → 0 < result.0 }
    ensures cols { 0 < ncols → 0 < result.1 }
    ensures no_rows { nrows ≡ 0 → result.0 ≡ 0 }
    ensures no_cols { ncols ≡ 0 → result.1 ≡ 0 }
{
    let longest = nrows.max(ncols);
    if longest <= size {
        return (nrows, ncols);
    }
    (scaled(nrows, longest, size), scaled(ncols, longest, size))
}

// Returns the number of cells for a side, if `size` cells stand for the longest side.
fn scaled(side: usize, longest: usize, size: usize) -> usize
    requires side { side ≤ longest }
    requires long { size < longest }
    requires some { 0 < size }
    ensures scaled { result ≡ scaled_side side longest size }
    ensures bound { result ≤ size }
    ensures some { 0 < side → 0 < result }
    ensures none { side ≡ 0 → result ≡ 0 }
{
    let length = (side as u128) * (size as u128) / (longest as u128);
    side.min(1).max(length as usize)
}
