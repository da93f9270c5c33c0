//! Matrix Market files.

ghost use Rattle.std.specs.Prelude.{◌≡◌, ◌⊎◌, ℕ, List, IfOk, IfErr, IsErrAnd, IsTrue, Ok, Err};
ghost use Rattle.std.specs.Prelude.{string_bytes};
ghost use Rattle.sparse_parser.specs.declared.error.MatrixMarketErrorKind.TheVariants.{OutOfMemory};
ghost use Rattle.std.specs.Io.KnownBytes.{Appends};
ghost use Rattle.std.specs.IoError.{error_kind};
ghost use Rattle.sparse_parser.specs.Errors.{kind_of};
ghost use Rattle.sparse_parser.specs.Meaning.{Means, values_of};
ghost use Rattle.sparse_io.specs.Files.{file_fault, IsFileFault, IsReadFault};
ghost use Rattle.sparse_io.specs.Written.{text_with};

use crate::banner::Banner;
use crate::export::MatrixMarketExport;
use crate::out::Out;
use crate::reader::load_coo_from_matrix_market_str;
use crate::writer::save_to_matrix_market_with;
use sparse_coo_dense::coo::CooMatrix;
use sparse_market_scalar::MatrixMarketScalar;
use sparse_parser::error::MatrixMarketError;
use std::alloc::{AllocError, Global};
use std::fs::{self, File};
use std::io::{self, Write};
use std::rt::Files;

/// Reads a matrix from a file in Matrix Market format.
///
/// The text is read as [`load_coo_from_matrix_market_str`] reads it.
///
/// # Errors
///
/// Returns the errors of [`load_coo_from_matrix_market_str`]. Returns `IOError` with its kind if the file cannot be
/// opened or read, and `IOError(InvalidData)` if it is not UTF-8. Returns `OutOfMemory` if an allocation fails, in
/// opening and reading too.
///
/// No contract describes the contents of a file. It is proved that the matrix is the meaning of some text, and that an
/// error is the error of some text, `IOError` or `OutOfMemory`.
pub fn load_coo_from_matrix_market_file<T: MatrixMarketScalar>(
    rt: &(impl Files + AllocGlobal),
    path: &str,
) -> Result<CooMatrix<T>, MatrixMarketError>
    ensures ok { IfOk result
        (λ m. (text : List ℕ) × Means T.scalar text (Ok (values_of T.value m))) }
    ensures refused { IfErr result (λ e. IsReadFault (kind_of e)
        ⊎ ((text : List ℕ) × Means T.scalar text (Err (kind_of e)))) }
{
    load_read(rt.alloc(), fs::read_to_string(rt, path))
}

// Reads a matrix from the text of a file, if the file was read.
fn load_read<T: MatrixMarketScalar>(
    alloc: Global,
    read: io::Result<String>,
) -> Result<CooMatrix<T>, MatrixMarketError>
    ensures ok { IfOk read (λ text. IfOk result
        (λ m. Means T.scalar (string_bytes text) (Ok (values_of T.value m)))) }
    ensures refused { IfOk read (λ text. IfErr result (λ e. (kind_of e ≡ OutOfMemory)
        ⊎ Means T.scalar (string_bytes text) (Err (kind_of e)))) }
    ensures unread { IfErr read
        (λ fault. IsErrAnd result (λ e. kind_of e ≡ file_fault (error_kind fault))) }
{
    match read {
        Ok(text) => load_coo_from_matrix_market_str(alloc, text.as_str()),
        Err(fault) => Err(file_fault(fault)),
    }
}

/// Creates or truncates a file, writes a matrix to it and flushes it.
///
/// The text is that of [`save_to_matrix_market`].
///
/// # Errors
///
/// Returns `IOError` with its kind if the file cannot be created, written or flushed. Returns `OutOfMemory` if an
/// allocation fails. The file then holds a prefix of the text.
///
/// No contract describes the contents of a file. It is proved that every error is `IOError` or `OutOfMemory`.
pub fn save_to_matrix_market_file<T, S>(
    rt: &(impl Files + AllocGlobal),
    matrix: &S,
    path: &str,
) -> Result<(), MatrixMarketError>
where
    T: MatrixMarketScalar,
    S: MatrixMarketExport<T>,
    ensures { IfErr result (λ e. IsFileFault (kind_of e)) }
{
    save_to_matrix_market_file_with(rt, matrix, path, Banner::LowerCase)
}

/// Writes a matrix to a file as [`save_to_matrix_market_file`] does, with this first word. The errors are those of that
/// call.
pub fn save_to_matrix_market_file_with<T, S>(
    rt: &(impl Files + AllocGlobal),
    matrix: &S,
    path: &str,
    banner: Banner,
) -> Result<(), MatrixMarketError>
where
    T: MatrixMarketScalar,
    S: MatrixMarketExport<T>,
    ensures { IfErr result (λ e. IsFileFault (kind_of e)) }
{
    match save_created(rt.alloc(), File::create(rt, path), matrix, banner) {
        Ok(_flushed) => Ok(()),
        Err(error) => Err(error),
    }
}

// Writes the text of a matrix to a file, if it was created, and flushes it.
fn save_created<T, S, W>(
    alloc: Global,
    created: io::Result<W>,
    matrix: &S,
    banner: Banner,
) -> Result<Out<W>, MatrixMarketError>
where
    T: MatrixMarketScalar,
    S: MatrixMarketExport<T>,
    W: Write + Drop,
    ensures written { IfOk created (λ file. IfOk result
        (λ out. Appends (W.contents file) (W.contents out.inner)
        (text_with banner T.scalar.name (λ x. T.scalar.text (T.value x))
        (S.exported matrix.now)))) }
    ensures flushed { IfOk result (λ out. IsTrue out.flushed) }
    ensures refused { IfErr result (λ e. IsFileFault (kind_of e)) }
    ensures uncreated { IfErr created
        (λ fault. IsErrAnd result (λ e. kind_of e ≡ file_fault (error_kind fault))) }
{
    match created {
        Ok(file) => save_whole(alloc, file, matrix, banner),
        Err(fault) => Err(file_fault(fault)),
    }
}

// Writes the text of a matrix to a writer and flushes it.
fn save_whole<T, S, W>(
    alloc: Global,
    writer: W,
    matrix: &S,
    banner: Banner,
) -> Result<Out<W>, MatrixMarketError>
where
    T: MatrixMarketScalar,
    S: MatrixMarketExport<T>,
    W: Write + Drop,
    ensures written { IfOk result (λ out. Appends (W.contents writer) (W.contents out.inner)
        (text_with banner T.scalar.name (λ x. T.scalar.text (T.value x))
        (S.exported matrix.now))) }
    ensures flushed { IfOk result (λ out. IsTrue out.flushed) }
    ensures refused { IfErr result (λ e. IsFileFault (kind_of e)) }
{
    let mut out = Out::new(writer);
    save_to_matrix_market_with(alloc, &mut out, matrix, banner)?;
    out.flush()?;
    Ok(out)
}

// The error of a failure in opening, creating or reading a file.
fn file_fault(fault: io::Error) -> MatrixMarketError
    ensures { kind_of result ≡ file_fault (error_kind fault) }
{
    match fault.kind() {
        io::ErrorKind::OutOfMemory => AllocError.into(),
        kind => kind.into(),
    }
}
