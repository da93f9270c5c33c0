//! The commands of `mtxkit`, with their arguments and their files.

ghost use Rattle.std.specs.Prelude.{◌≡◌, is_some};
ghost use Rattle.std.specs.Option.{option_map};
ghost use Rattle.mtxkit_arguments.specs.Files.{first_file, second_file, third_file, file_of};
ghost use Rattle.mtxkit_arguments.specs.Files.{first_path, named_file, path_at, paths};
ghost use Rattle.mtxkit_arguments.specs.Files.{is_saved, saved_file};

use crate::options::{FillOrder, Target, Values};
use mtxkit_facts::ReportFormat;
use mtxkit_matrices::EliminationOrder;
use mtxkit_patterns::Method;
use sparse_expr::Form;

/// A command. Its files are given by their paths, and `-` is standard input.
#[derive(Clone, Copy, Debug)]
pub enum Command<'a> {
    /// `info`: writes facts about a matrix.
    Info {
        /// The file.
        file: &'a str,
        /// How the facts are written.
        form: ReportFormat,
    },
    /// `spy`: writes a picture of a pattern, whose sides have at most `size` cells.
    Spy {
        /// The file.
        file: &'a str,
        /// The largest number of cells of a side.
        size: usize,
        /// The format of the picture, and the file that it is written to.
        target: Target<'a>,
    },
    /// `copy`: writes a matrix with its own field, row by row.
    Copy {
        /// The file.
        file: &'a str,
    },
    /// `field`: writes a matrix with another field.
    Field {
        /// The file.
        file: &'a str,
        /// Whether the values are written.
        values: Values,
    },
    /// `integer`: writes a text of decimal numbers with integers.
    Integer {
        /// The file.
        file: &'a str,
        /// K, where the numbers are multiplied by 10^K.
        scale: u32,
    },
    /// `symmetric`: expands a text with a symmetry, or writes the lower triangle of a symmetric matrix.
    Symmetric {
        /// The file.
        file: &'a str,
    },
    /// `order`: writes an order of the rows and columns of a square matrix.
    Order {
        /// The file.
        file: &'a str,
        /// How the order is computed.
        method: Method,
    },
    /// `permute`: writes a matrix with its rows and columns in an order.
    Permute {
        /// The file of the order.
        order: &'a str,
        /// The file.
        file: &'a str,
    },
    /// `fill`: writes facts about the fill of the factor of a square matrix.
    Fill {
        /// The file.
        file: &'a str,
        /// The order of the rows and columns.
        order: FillOrder<'a>,
        /// How the facts are written.
        form: ReportFormat,
    },
    /// `eval`: writes the value of an expression over matrices of integers.
    Eval {
        /// The modulus; without one the integers are exact.
        modulus: Option<u64>,
        /// The order in which the entries are written.
        order: Form,
        /// The words of the expression, in postfix order.
        words: &'a str,
        /// The files.
        files: &'a [&'a str],
    },
    /// `solve`: writes the matrix X for which A X = B.
    Solve {
        /// The modulus; without one the integers are those modulo 2^64.
        modulus: Option<u64>,
        /// The order in which the rows and columns of A are eliminated.
        order: EliminationOrder,
        /// The file of A.
        a: &'a str,
        /// The file of B.
        b: &'a str,
    },
    /// `check`: says whether A X = B.
    Check {
        /// The modulus; without one the integers are those modulo 2^64.
        modulus: Option<u64>,
        /// The file of A.
        a: &'a str,
        /// The file of X.
        x: &'a str,
        /// The file of B.
        b: &'a str,
    },
}

impl<'a> Command<'a> {
    /// Returns the path of the output file, if the command names one.
    pub fn path(self) -> Option<&'a str>
        ensures saved { is_some result ≡ is_saved self.entry }
        ensures path { option_map (λ path. path.now) result ≡ saved_file self.entry }
    {
        match self {
            Command::Spy {
                file: _,
                size: _,
                target,
            } => target.path(),
            _ => None,
        }
    }

    /// Returns the path of the file with this number, counted from 1, if the command has one.
    pub fn file(self, number: usize) -> Option<&'a str>
        ensures { option_map (λ path. path.now) result ≡ file_of self.entry number }
    {
        match self {
            Command::Eval { files, .. } => file_among(files, number),
            _ => self.named_file(number),
        }
    }

    // Returns the path of the file with this number, for a command whose files have names.
    fn named_file(self, number: usize) -> Option<&'a str>
        ensures { option_map (λ path. path.now) result ≡ named_file self.entry number }
    {
        match number {
            1 => Some(self.first_file()),
            2 => self.second_file(),
            3 => self.third_file(),
            _ => None,
        }
    }

    /// Returns the path of the first file.
    pub fn first_file(self) -> &'a str
        ensures { result.now ≡ first_file self.entry }
    {
        match self {
            Command::Info { file, .. }
            | Command::Spy { file, .. }
            | Command::Copy { file }
            | Command::Field { file, .. }
            | Command::Integer { file, .. }
            | Command::Symmetric { file }
            | Command::Order { file, .. } => file,
            Command::Permute { order, .. } => order,
            Command::Fill { file, order, .. } => order.first(file),
            Command::Eval { files, .. } => first_among(files),
            Command::Solve { a, .. } | Command::Check { a, .. } => a,
        }
    }

    /// Returns the path of the second file, if there is one.
    pub fn second_file(self) -> Option<&'a str>
        ensures { option_map (λ path. path.now) result ≡ second_file self.entry }
    {
        match self {
            Command::Permute { file, .. } => Some(file),
            Command::Fill { file, order, .. } => order.second(file),
            Command::Solve { b, .. } => Some(b),
            Command::Check { x, .. } => Some(x),
            _ => None,
        }
    }

    /// Returns the path of the third file, if there is one.
    pub fn third_file(self) -> Option<&'a str>
        ensures { option_map (λ path. path.now) result ≡ third_file self.entry }
    {
        match self {
            Command::Check { b, .. } => Some(b),
            _ => None,
        }
    }
}

// Returns the path with this number, counted from 1, if there is one.
fn file_among<'a>(files: &'a [&'a str], number: usize) -> Option<&'a str>
    ensures { option_map (λ path. path.now) result ≡ path_at (paths files.now) number }
{
    if number == 0 {
        return None;
    }
    files.get(number - 1).copied()
}

// Returns the first path, or an empty one if there is none.
fn first_among<'a>(files: &'a [&'a str]) -> &'a str
    ensures { result.now ≡ first_path (paths files.now) }
{
    match files.first() {
        Some(file) => file,
        None => "",
    }
}
