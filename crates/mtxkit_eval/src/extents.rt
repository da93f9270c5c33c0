//! Bounds on the values of expressions.

ghost use Rattle.std.specs.Prelude.{◌≡◌, map, max};
ghost use Rattle.mtxkit_eval.specs.Extents.{capped, product_extent, sum_extent, transposed_extent};
ghost use Rattle.mtxkit_eval.specs.Extents.{extent_at, extent_of, greatest, magnitude, matrix_extent};

use sparse_algebra::scalar::W128;
use sparse_csr_csc::csr::CsrMatrix;
use sparse_expr::Expr;

/// The shape of a matrix, and a bound on the magnitudes of its values.
#[derive(Clone, Copy, Debug)]
pub(crate) struct Extent {
    pub(crate) rows: usize,
    pub(crate) cols: usize,
    // The bound, or the greatest number of 128 bits if it has more.
    pub(crate) largest: u128,
}

/// Returns the extent of the value of an expression over these matrices.
///
/// The magnitudes of a sum are at most the sum of the two bounds, and those of a product the product of the two bounds,
/// times the number of columns of the left operand.
pub(crate) fn expression_extent(expr: &Expr, inputs: &[CsrMatrix<W128>]) -> Extent
    ensures { result ≡ capped (extent_of (map matrix_extent inputs.now) expr.now) }
{
    match expr {
        Expr::Input(number) => input_extent(*number, inputs),
        Expr::Add(a, b) | Expr::Sub(a, b) => sum_extent(
            expression_extent(a, inputs),
            expression_extent(b, inputs),
        ),
        Expr::Mul(a, b) => product_extent(
            expression_extent(a, inputs),
            expression_extent(b, inputs),
        ),
        Expr::Transpose(a) => transposed_extent(expression_extent(a, inputs)),
        Expr::Neg(a) => expression_extent(a, inputs),
    }
}

// Returns the extent of the input with this number, counted from 1.
fn input_extent(number: usize, inputs: &[CsrMatrix<W128>]) -> Extent
    ensures { result ≡ capped (extent_at (map matrix_extent inputs.now) number) }
{
    if number == 0 || number > inputs.len() {
        return Extent {
            rows: 0,
            cols: 0,
            largest: 0,
        };
    }
    matrix_extent(&inputs[number - 1])
}

// Returns the shape of a matrix, and the greatest magnitude of its values.
fn matrix_extent(matrix: &CsrMatrix<W128>) -> Extent
    ensures { result ≡ capped (matrix_extent matrix.now) }
{
    Extent {
        rows: matrix.nrows(),
        cols: matrix.ncols(),
        largest: greatest(matrix.values()),
    }
}

// Returns the greatest magnitude of the values, or 0 if there are none.
fn greatest(values: &[W128]) -> u128
    ensures { result ≡ greatest (map magnitude values.now) }
{
    let mut greatest = 0;
    for value in values {
        greatest = larger(greatest, value.get().unsigned_abs());
    }
    greatest
}

// Returns the larger of two numbers.
fn larger(a: u128, b: u128) -> u128
    ensures { result ≡ max a b }
{
    if a < b { b } else { a }
}

// Returns the extent of the sum or the difference of two matrices.
fn sum_extent(a: Extent, b: Extent) -> Extent
    ensures { result ≡ capped (sum_extent a b) }
{
    Extent {
        rows: a.rows,
        cols: a.cols,
        largest: a.largest.saturating_add(b.largest),
    }
}

// Returns the extent of the product of two matrices.
fn product_extent(a: Extent, b: Extent) -> Extent
    ensures { result ≡ capped (product_extent a b) }
{
    let terms = a.largest.saturating_mul(b.largest);
    Extent {
        rows: a.rows,
        cols: b.cols,
        largest: terms.saturating_mul(a.cols as u128),
    }
}

// Returns the extent of the transpose of a matrix.
fn transposed_extent(a: Extent) -> Extent
    ensures { result ≡ transposed_extent a }
{
    Extent {
        rows: a.cols,
        cols: a.rows,
        largest: a.largest,
    }
}
