//! Reads the files of a command.

ghost use Rattle.std.specs.Prelude.{◌≡◌, [], IfOk, IfErr, IsErrAnd, Ok, map, string_bytes};
ghost use Rattle.nalgebra_sparse.specs.Errors.{kind_of};
ghost use Rattle.nalgebra_sparse.specs.Files.{file_fault};
ghost use Rattle.nalgebra_sparse.specs.Meaning.{Means, values_of};
ghost use Rattle.nalgebra_sparse.specs.PostfixWords.{texts};
ghost use Rattle.nalgebra_sparse.specs.ScalarTypes.{pattern_scalar};
ghost use Rattle.file_readings.specs.Readings.{AreRead, IsRead};
ghost use Rattle.file_readings.specs.Readings as file;
ghost use Rattle.mtx_commands.specs.Inputs.{input_fault, unread_fault, IsUnread, IsMisread};
ghost use Rattle.mtx_commands.specs.declared.cli.Failure.TheVariants.{Refused};

use crate::cli::Failure;
use file_readings::{Record, Texts};
use nalgebra_sparse::CooMatrix;
use nalgebra_sparse::expr::ExprError;
use nalgebra_sparse::io::{
    MatrixMarketError, MatrixMarketErrorKind, load_coo_from_matrix_market_str,
};
use std::alloc::Global;
use std::rt::Files;
use std::{fs, io};

/// The files of the system. The record of the files that were read occupies no memory.
#[derive(Drop)]
pub(crate) struct Inputs<'a, R> {
    rt: &'a R,
    log: Record,
}

impl<'a, R> Inputs<'a, R> {
    /// Returns the files of `rt`, of which none was read.
    pub(crate) fn new(rt: &'a R) -> Inputs<'a, R>
        ensures { result.log.readings ≡ [] }
    {
        Inputs {
            rt,
            log: Record::new(),
        }
    }
}

impl<'a, R: Files + AllocGlobal> Texts for Inputs<'a, R> {
    ghost readings = { λ inputs. inputs.log.readings };

    /// Returns `InvalidData` if the file is not UTF-8.
    fn read(&mut self, path: &str) -> io::Result<String> {
        let read = fs::read_to_string(self.rt, path);
        self.log = self.log.with(path.as_bytes(), &read);
        read
    }
}

/// Returns the texts of the files, in order.
///
/// # Errors
///
/// Returns `Refused` with an `Input` for the first file that cannot be read; its number is counted from 1. Otherwise
/// fails only if an allocation fails.
pub(crate) fn read_all<T: Texts>(
    alloc: Global,
    inputs: &mut T,
    paths: &[&str],
) -> Result<Vec<String>, Failure>
    ensures read { IfOk result (λ contents. AreRead (texts paths.now)
        (map string_bytes contents.items) (T.readings inputs.old) (T.readings inputs.new)) }
    ensures unread { IfErr result
        (IsUnread (texts paths.now) (T.readings inputs.old) (T.readings inputs.new)) }
{
    let mut contents = Vec::with_capacity(alloc, paths.len())?;
    for (index, path) in paths.iter().enumerate() {
        let content = read_text(inputs, index + 1, path)?;
        contents.push(content)?;
    }
    Ok(contents)
}

/// Reads the file with this path. `number` is that of the file in the command, counted from 1.
pub(crate) fn read_text<T: Texts>(
    inputs: &mut T,
    number: usize,
    path: &str,
) -> Result<String, Failure>
    ensures read { IfOk result (λ text. IsRead path.now (T.readings inputs.old)
        (T.readings inputs.new) (string_bytes text)) }
    ensures unread { IfErr result (file.IsUnread unread_fault number path.now
        (T.readings inputs.old) (T.readings inputs.new)) }
{
    match inputs.read(path) {
        Ok(text) => Ok(text),
        Err(error) => Err(Failure::Refused(unreadable(number, error.kind()))),
    }
}

// Returns the error for the file with this number, counted from 1, which cannot be opened or read.
fn unreadable(number: usize, kind: io::ErrorKind) -> ExprError
    ensures { result ≡ input_fault number (file_fault kind) }
{
    match kind {
        io::ErrorKind::OutOfMemory => ExprError::OutOfMemory,
        kind => ExprError::Input(number, MatrixMarketErrorKind::IOError(kind)),
    }
}

/// Returns the list of triplets, whose values are `()`, of the matrix that the text of the command's only file means.
pub(crate) fn triplets_of(alloc: Global, text: String) -> Result<CooMatrix<()>, Failure>
    ensures meant { IfOk result
        (λ m. Means pattern_scalar (string_bytes text) (Ok (values_of (λ x. x) m))) }
    ensures misread { IfErr result (IsMisread (string_bytes text)) }
{
    listed(load_coo_from_matrix_market_str(alloc, text.as_str()))
}

// Returns the list that the text of the only file means, or the failure.
fn listed(read: Result<CooMatrix<()>, MatrixMarketError>) -> Result<CooMatrix<()>, Failure>
    ensures list { IfOk result (λ list. read ≡ Ok list) }
    ensures misread { IfErr result (λ failure. IsErrAnd read
        (λ e. failure ≡ Refused (input_fault 1 (kind_of e)))) }
{
    match read {
        Ok(list) => Ok(list),
        Err(error) => Err(Failure::Refused(misread(1, error.kind()))),
    }
}

// Returns the error for the file with this number, counted from 1, whose text is not that of a pattern.
fn misread(number: usize, kind: MatrixMarketErrorKind) -> ExprError
    ensures { result ≡ input_fault number kind }
{
    match kind {
        MatrixMarketErrorKind::OutOfMemory => ExprError::OutOfMemory,
        kind => ExprError::Input(number, kind),
    }
}
