//! Computes what commands write, from the texts of their files.

ghost use Rattle.std.specs.Prelude.{ℕ, Option, IfOk, IfErr, string_bytes};
ghost use Rattle.mtxkit_arguments.specs.Sizes.{IsSized};
ghost use Rattle.mtxkit_commands.specs.Answers.{IsAnswer, IsCheckAnswer, IsSolveAnswer};
ghost use Rattle.mtxkit_commands.specs.Failures.{HasNoAnswer, IsUnsolved, IsUnchecked};

use crate::command_error::CommandError;
use crate::evaluated::evaluated_of;
use crate::inputs::read_text;
use crate::one_file::{copied, described, pictured, rewritten, symmetrised};
use crate::orders::{filled_of, ordered_of, permuted_of};
use crate::scaled::scaled_of;
use file_readings::Texts;
use mtxkit_arguments::Command;
use mtxkit_matrices::EliminationOrder;
use mtxkit_systems::{check_text, solve_text};
use mtxkit_texts::Failure;
use std::alloc::Global;

/// Reads the files of a command in order, up to the first that cannot be read, and returns what the command writes.
///
/// The size of a picture must not be 0.
pub fn answer_of<T: Texts>(
    alloc: Global,
    command: Command<'_>,
    texts: &mut T,
) -> Result<Vec<u8>, CommandError>
    requires { IsSized command }
    ensures answer { IfOk result (λ answer. IsAnswer command.entry (T.readings texts.old)
        (T.readings texts.new) answer.items) }
    ensures failed { IfErr result
        (HasNoAnswer command.entry (T.readings texts.old) (T.readings texts.new)) }
{
    match command {
        Command::Info { file, form } => Ok(described(alloc, texts, file, form)?),
        Command::Spy { file, size, target } => Ok(pictured(alloc, texts, file, size, target)?),
        Command::Copy { file } => Ok(copied(alloc, texts, file)?),
        Command::Field { file, values } => Ok(rewritten(alloc, texts, file, values)?),
        Command::Integer { file, scale } => scaled_of(alloc, texts, file, scale),
        Command::Symmetric { file } => Ok(symmetrised(alloc, texts, file)?),
        Command::Order { file, method } => ordered_of(alloc, texts, file, method),
        Command::Permute { order, file } => permuted_of(alloc, texts, order, file),
        Command::Fill { file, order, form } => filled_of(alloc, texts, file, order, form),
        Command::Eval {
            modulus,
            order,
            words,
            files,
        } => evaluated_of(alloc, texts, modulus, order, words, files),
        Command::Solve {
            modulus,
            order,
            a,
            b,
        } => Ok(solution_of(alloc, texts, modulus, order, a, b)?.into_bytes()),
        Command::Check { modulus, a, x, b } => {
            Ok(check_of(alloc, texts, modulus, a, x, b)?.into_bytes())
        }
    }
}

// Reads the files of A and B, and returns the text of the matrix X for which A X = B. These are the files 1 and 2 of
// the command.
fn solution_of<T: Texts>(
    alloc: Global,
    texts: &mut T,
    modulus: Option<u64>,
    order: EliminationOrder,
    a: &str,
    b: &str,
) -> Result<String, Failure>
    ensures answer { IfOk result (λ answer. IsSolveAnswer modulus a.now b.now
        (T.readings texts.old) (T.readings texts.new) (string_bytes answer)) }
    ensures failed { IfErr result
        (IsUnsolved modulus order a.now b.now (T.readings texts.old) (T.readings texts.new)) }
{
    let first = read_text(texts, 1, a)?;
    let second = read_text(texts, 2, b)?;
    solve_text(alloc, modulus, order, first.as_str(), second.as_str())
}

// Reads the files of A, X and B, and returns the line that says that A X = B. These are the files 1, 2 and 3 of the
// command.
fn check_of<T: Texts>(
    alloc: Global,
    texts: &mut T,
    modulus: Option<u64>,
    a: &str,
    x: &str,
    b: &str,
) -> Result<String, Failure>
    ensures answer { IfOk result (λ answer. IsCheckAnswer modulus a.now x.now b.now
        (T.readings texts.old) (T.readings texts.new) (string_bytes answer)) }
    ensures failed { IfErr result
        (IsUnchecked modulus a.now x.now b.now (T.readings texts.old) (T.readings texts.new)) }
{
    let first = read_text(texts, 1, a)?;
    let second = read_text(texts, 2, x)?;
    let third = read_text(texts, 3, b)?;
    check_text(
        alloc,
        modulus,
        first.as_str(),
        second.as_str(),
        third.as_str(),
    )
}
