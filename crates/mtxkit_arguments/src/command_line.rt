//! The command line of `mtxkit`, as `clap` needs it: the commands with their arguments, and the help of each.

use crate::usage_words::{MATRIX_FILE, Word, argument};
use std::alloc::{AllocError, Global};

// The text of the file VERSION, as .ci/check_copies tests.
const VERSION: &str = "0.1.0";

const DECIMAL_FILE: &str = "A real or integer Matrix Market file, or - for standard input";

// A command, and its arguments in the order of the usage line.
struct Usage {
    name: &'static str,
    about: &'static str,
    words: &'static [Word],
}

const USAGES: [Usage; 12] = [
    Usage {
        name: "info",
        about: "Writes facts about a matrix",
        words: &[Word::Json, Word::File("FILE", MATRIX_FILE)],
    },
    Usage {
        name: "spy",
        about: "Writes a picture of a pattern: a cell is black where a place lies in it",
        words: &[
            Word::File("FILE", MATRIX_FILE),
            Word::Size,
            Word::Output,
            Word::Svg,
            Word::Text,
        ],
    },
    Usage {
        name: "copy",
        about: "Writes a matrix row by row, each entry once, in the form that other programs read",
        words: &[Word::File("FILE", MATRIX_FILE)],
    },
    Usage {
        name: "field",
        about: "Writes a matrix with integers, ones at the places of a pattern, or as a pattern",
        words: &[Word::Field, Word::File("FILE", MATRIX_FILE)],
    },
    Usage {
        name: "integer",
        about: "Writes a file of decimal numbers with integers: each number times 10^K, exactly",
        words: &[Word::Scale, Word::File("FILE", DECIMAL_FILE)],
    },
    Usage {
        name: "symmetric",
        about: "Expands a symmetric file, or writes the lower triangle of a symmetric matrix",
        words: &[Word::File("FILE", MATRIX_FILE)],
    },
    Usage {
        name: "order",
        about: "Writes an order of the rows and columns of a square matrix, for a factor with little fill",
        words: &[Word::Method, Word::File("FILE", MATRIX_FILE)],
    },
    Usage {
        name: "permute",
        about: "Writes a square matrix with its rows and columns in an order",
        words: &[
            Word::File("ORDER", "The order, as mtxkit order writes it"),
            Word::File("FILE", MATRIX_FILE),
        ],
    },
    Usage {
        name: "fill",
        about: "Writes facts about the factor L D L^T of a square matrix: its fill and its cost",
        words: &[Word::Order, Word::Json, Word::File("FILE", MATRIX_FILE)],
    },
    Usage {
        name: "eval",
        about: "Writes the value of an expression over matrices of integers, exactly",
        words: &[
            Word::Modulus,
            Word::Rows,
            Word::Columns,
            Word::Expression,
            Word::Files,
        ],
    },
    Usage {
        name: "solve",
        about: "Writes the matrix X with A X = B for a symmetric matrix A, exactly, by L D L^T",
        words: &[
            Word::Modulus,
            Word::Elimination,
            Word::File("A", "The symmetric matrix"),
            Word::File("B", "The right-hand sides"),
        ],
    },
    Usage {
        name: "check",
        about: "Multiplies back: says whether A X = B",
        words: &[
            Word::Modulus,
            Word::File("A", "The matrix"),
            Word::File("X", "The solutions"),
            Word::File("B", "The right-hand sides"),
        ],
    },
];

/// Returns the command line of the program.
pub(crate) fn command_line<'a>(alloc: Global) -> Result<clap::Command<'a>, AllocError> {
    let mut line = clap::Command::new(alloc, "mtxkit")
        .about("Describes, shows and rewrites Matrix Market files, and solves symmetric systems")
        .version(VERSION)
        .subcommand_required(true)
        .arg_required_else_help(true);
    for usage in USAGES.as_slice() {
        line = line.subcommand(command_used(alloc, usage)?)?;
    }
    Ok(line)
}

// Returns a command as `clap` needs it.
fn command_used<'a>(alloc: Global, usage: &Usage) -> Result<clap::Command<'a>, AllocError> {
    let mut command = clap::Command::new(alloc, usage.name)
        .about(usage.about)
        .allow_missing_positional(begins_with_optional(usage.words));
    for word in usage.words {
        command = command.arg(argument(alloc, *word)?)?;
    }
    Ok(command)
}

// Whether the first argument may be left out, although required ones follow.
fn begins_with_optional(words: &[Word]) -> bool {
    match words.first() {
        Some(Word::Method) => true,
        _ => false,
    }
}
