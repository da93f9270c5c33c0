//! A converter of Matrix Market texts: the text that it writes has the plain matrix of the text that it reads.

ghost use Rattle.std.specs.Prelude.{◌≡◌, ◌<◌, ◌^◌, IfOk, Ok, string_bytes};
ghost use Rattle.std.specs.Int.{w64};
ghost use Rattle.nalgebra_sparse.specs.Meaning.{Means, values_of};
ghost use Rattle.nalgebra_sparse.specs.Numbers.{w64_number};
ghost use Rattle.nalgebra_sparse.specs.ScalarTypes.{wrapping_scalar};
ghost use Rattle.examples_theorems.specs.ConvertedTexts.{MeanOnePlain};

use nalgebra_sparse::convert::serial::{convert_coo_csc, convert_coo_csr};
use nalgebra_sparse::io::{
    MatrixMarketError, MatrixMarketExport, load_coo_from_matrix_market_str,
    save_to_matrix_market_str,
};
use nalgebra_sparse::laws::texts::round_trip;
use nalgebra_sparse::scalar::W64;
use std::alloc::{AllocError, Global};

// Does nothing. Its contract says that a `usize` is below 2^64.
fn is_size(number: usize)
    ensures { number < 2 ^ 64 }
{}

// Returns the text of the matrix, which means its triplets in the order of its format.
fn written<S: MatrixMarketExport<W64>>(alloc: Global, matrix: &S) -> Result<String, AllocError>
    ensures { IfOk result (λ text. Means (wrapping_scalar w64) (string_bytes text)
        (Ok (values_of w64_number (S.exported matrix.now)))) }
{
    // These calls cost nothing: they tell the prover the law, and that the shape fits and the triplets lie within it.
    round_trip::<W64>();
    is_size(matrix.nrows());
    is_size(matrix.ncols());
    is_size(matrix.nnz());
    let _ = matrix.triplet_iter();
    let text = save_to_matrix_market_str(alloc, matrix)?;
    Ok(text)
}

// Returns the text of the same matrix with its entries row by row, each once.
fn by_rows(alloc: Global, text: &str) -> Result<String, MatrixMarketError>
    ensures { IfOk result (λ other. MeanOnePlain text.now (string_bytes other)) }
{
    let list = load_coo_from_matrix_market_str::<W64>(alloc, text)?;
    let matrix = convert_coo_csr(alloc, &list)?;
    let other = written(alloc, &matrix)?;
    Ok(other)
}

// Returns the text of the same matrix with its entries column by column, each once.
fn by_cols(alloc: Global, text: &str) -> Result<String, MatrixMarketError>
    ensures { IfOk result (λ other. MeanOnePlain text.now (string_bytes other)) }
{
    let list = load_coo_from_matrix_market_str::<W64>(alloc, text)?;
    let matrix = convert_coo_csc(alloc, &list)?;
    let other = written(alloc, &matrix)?;
    Ok(other)
}

// The two triplets at (2, 1) are added.
const TEXT: &str =
    "%%MatrixMarket matrix coordinate integer general\n2 2 4\n2 1 5\n1 2 3\n1 1 1\n2 1 4\n";

// Whether a text was written, and ends with these lines.
fn ends(written: Result<String, MatrixMarketError>, lines: &str) -> bool {
    match written {
        Ok(output) => output.as_str().ends_with(lines),
        Err(_error) => false,
    }
}

#[test]
fn texts_are_converted(rt: HostRuntime) {
    assert!(rt; ends(by_rows(rt.alloc(), TEXT), "\n2 2 3\n1 1 1\n1 2 3\n2 1 9\n"));
    assert!(rt; ends(by_cols(rt.alloc(), TEXT), "\n2 2 3\n1 1 1\n2 1 9\n1 2 3\n"));
}
