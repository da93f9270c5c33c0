//! The arguments of the commands, as `clap` needs them, with the help of each.

use clap::{Arg, ArgAction, value_parser};
use std::alloc::{AllocError, Global};

// The moduli for which the program solves systems.
const MODULI: [&str; 11] = [
    "2",
    "3",
    "5",
    "7",
    "11",
    "13",
    "101",
    "65537",
    "998244353",
    "1000000007",
    "2305843009213693951",
];

const FIELDS: [&str; 2] = ["integer", "pattern"];

const METHODS: [&str; 2] = ["amd", "rcm"];

const ELIMINATIONS: [&str; 3] = ["natural", "amd", "rcm"];

/// The help of a file that is a matrix.
pub(crate) const MATRIX_FILE: &str = "A Matrix Market file, or - for standard input";

const EXPRESSION: &str =
    "Words in postfix order: the numbers of files from 1, +, -, *, t (transpose) and n (negative)";

/// An argument of a command.
#[derive(Clone, Copy)]
pub(crate) enum Word {
    /// A required file: its name in the usage line, and its help.
    File(&'static str, &'static str),
    Columns,
    Elimination,
    Expression,
    Field,
    Files,
    Json,
    Method,
    Modulus,
    Order,
    Output,
    Rows,
    Scale,
    Size,
    Svg,
    Text,
}

/// Returns an argument as `clap` needs it.
pub(crate) fn argument<'a>(alloc: Global, word: Word) -> Result<Arg<'a>, AllocError> {
    match word {
        Word::File(name, help) => Ok(file_word(alloc, name, help)),
        Word::Columns => columns_word(alloc),
        Word::Elimination => Ok(elimination_word(alloc)),
        Word::Expression => Ok(file_word(alloc, "EXPR", EXPRESSION)),
        Word::Field => Ok(field_word(alloc)),
        Word::Files => Ok(files_word(alloc)),
        Word::Json => Ok(json_word(alloc)),
        Word::Method => Ok(method_word(alloc)),
        Word::Modulus => Ok(modulus_word(alloc)),
        Word::Order => Ok(order_word(alloc)),
        Word::Output => output_word(alloc),
        Word::Rows => Ok(rows_word(alloc)),
        Word::Scale => Ok(scale_word(alloc)),
        Word::Size => Ok(size_word(alloc)),
        Word::Svg => svg_word(alloc),
        Word::Text => Ok(text_word(alloc)),
    }
}

// Returns a required argument.
fn file_word<'a>(alloc: Global, name: &'a str, help: &'a str) -> Arg<'a> {
    Arg::new(alloc, name)
        .required(true)
        .action(ArgAction::Set)
        .help(help)
}

fn field_word<'a>(alloc: Global) -> Arg<'a> {
    file_word(alloc, "FIELD", "The field to write").value_parser(FIELDS.as_slice())
}

fn files_word<'a>(alloc: Global) -> Arg<'a> {
    file_word(alloc, "FILE", MATRIX_FILE).num_args(1..)
}

fn json_word<'a>(alloc: Global) -> Arg<'a> {
    Arg::new(alloc, "json")
        .long("json")
        .action(ArgAction::SetTrue)
        .help("Write an object in JSON")
}

fn rows_word<'a>(alloc: Global) -> Arg<'a> {
    Arg::new(alloc, "rows")
        .long("rows")
        .action(ArgAction::SetTrue)
        .help("Write the entries row by row, as without this word")
}

fn columns_word<'a>(alloc: Global) -> Result<Arg<'a>, AllocError> {
    Arg::new(alloc, "columns")
        .long("columns")
        .action(ArgAction::SetTrue)
        .help("Write the entries column by column")
        .conflicts_with("rows")
}

fn size_word<'a>(alloc: Global) -> Arg<'a> {
    Arg::new(alloc, "size")
        .long("size")
        .value_name("N")
        .value_parser(value_parser!(usize).range(1..))
        .help("The most cells of a side; 512, 128 with --svg, and 64 with --text")
}

fn scale_word<'a>(alloc: Global) -> Arg<'a> {
    Arg::new(alloc, "scale")
        .long("scale")
        .value_name("K")
        .value_parser(value_parser!(i64).range(0..=4294967295))
        .allow_negative_numbers(true)
        .help("The power of ten; 0 unless given")
}

fn output_word<'a>(alloc: Global) -> Result<Arg<'a>, AllocError> {
    Arg::new(alloc, "output")
        .short('o')
        .value_name("OUT.pbm")
        .help("Write the portable bitmap to this file, or to standard output if it is -")
        .conflicts_with("text")
}

fn svg_word<'a>(alloc: Global) -> Result<Arg<'a>, AllocError> {
    Arg::new(alloc, "svg")
        .long("svg")
        .action(ArgAction::SetTrue)
        .help("Write SVG for a browser, the darker the more places lie in a cell")
        .conflicts_with("text")?
        .conflicts_with("output")
}

fn text_word<'a>(alloc: Global) -> Arg<'a> {
    Arg::new(alloc, "text")
        .long("text")
        .action(ArgAction::SetTrue)
        .help("Write block characters for a terminal")
}

fn method_word<'a>(alloc: Global) -> Arg<'a> {
    Arg::new(alloc, "METHOD")
        .value_parser(METHODS.as_slice())
        .help("amd, minimum degree, unless given; rcm, reverse Cuthill-McKee")
}

fn order_word<'a>(alloc: Global) -> Arg<'a> {
    Arg::new(alloc, "order")
        .long("order")
        .value_name("ORDER")
        .help("natural unless given, amd, rcm, or the file of an order")
}

fn modulus_word<'a>(alloc: Global) -> Arg<'a> {
    Arg::new(alloc, "mod")
        .long("mod")
        .value_name("P")
        .value_parser(MODULI.as_slice())
        .help("Take the integers modulo P")
}

fn elimination_word<'a>(alloc: Global) -> Arg<'a> {
    Arg::new(alloc, "order")
        .long("order")
        .value_name("ORDER")
        .value_parser(ELIMINATIONS.as_slice())
        .help("Eliminate in this order: amd, minimum degree, unless given; natural; rcm")
}
