//! The commands of `mtxkit` over files.

ghost use Rattle.mtxkit_arguments.specs.Sizes.{IsSized};

use crate::outcome::{Outcome, checksum_of_bytes};
use crate::page::Page;
use case_words::turn::Turn;
use mtxkit_arguments::{Command, FillOrder, Target, Values};
use mtxkit_commands::{Inputs, Outputs, run as run_command};
use mtxkit_facts::ReportFormat;
use mtxkit_matrices::EliminationOrder;
use mtxkit_patterns::Method;
use mtxkit_texts::Screen;
use nalgebra_sparse::expr::Form;
use nalgebra_sparse::io::Out;
use std::fs;

// The files of A, X and B, where A X = B.
const A: &str = "matrix.mtx";

const X: &str = "solution.mtx";

const B: &str = "sides.mtx";

// A file whose values are not read.
const R: &str = "real.mtx";

// An order of the rows and columns of A.
const ORDER: &str = "order.mtx";

const FILES: &[(&str, &str)] = &[
    (
        A,
        "%%MatrixMarket matrix coordinate integer symmetric\n2 2 3\n1 1 1\n2 1 2\n2 2 3\n",
    ),
    (
        X,
        "%%MatrixMarket matrix coordinate integer general\n2 1 1\n1 1 1\n",
    ),
    (
        B,
        "%%MatrixMarket matrix coordinate integer general\n2 1 2\n1 1 1\n2 1 2\n",
    ),
    (
        R,
        "%%MatrixMarket matrix coordinate real symmetric\n2 2 2\n1 1 0.5\n2 1 1e6\n",
    ),
    (
        ORDER,
        "%%MatrixMarket matrix array integer general\n2 1\n2\n1\n",
    ),
];

/// Returns the outcome of a command.
pub fn run(rt: &HostRuntime, turn: &mut Turn, case: &str) -> Outcome {
    let modulus = Some(7);
    match case {
        "info" => run_args(rt, turn, info(A, ReportFormat::Lines)),
        "info json" => run_args(rt, turn, info(A, ReportFormat::Json)),
        "info real" => run_args(rt, turn, info(R, ReportFormat::Lines)),
        "spy" => run_args(rt, turn, picture(Target::Bitmap)),
        "spy svg" => run_args(rt, turn, picture(Target::Svg)),
        "spy text" => run_args(rt, turn, picture(Target::Blocks)),
        "copy" => run_args(rt, turn, Command::Copy { file: A }),
        "field" => {
            let values = Values::Pattern;
            run_args(rt, turn, Command::Field { file: A, values })
        }
        "integer" => {
            let scale = 2;
            run_args(rt, turn, Command::Integer { file: A, scale })
        }
        "symmetric" => run_args(rt, turn, Command::Symmetric { file: A }),
        "order" => {
            let method = Method::MinimumDegree;
            run_args(rt, turn, Command::Order { file: A, method })
        }
        "permute" => {
            let order = ORDER;
            run_args(rt, turn, Command::Permute { order, file: A })
        }
        "fill" => run_args(rt, turn, fill(FillOrder::File(ORDER), ReportFormat::Lines)),
        "fill json" => run_args(rt, turn, fill(FillOrder::Natural, ReportFormat::Json)),
        "eval" => run_args(rt, turn, square()),
        "solve" => run_args(rt, turn, solve(None)),
        "solve modulo" => run_args(rt, turn, solve(modulus)),
        "check" => {
            let (a, x, b) = (A, X, B);
            run_args(rt, turn, Command::Check { modulus, a, x, b })
        }
        _ => Outcome::Unknown,
    }
}

// Facts about a file.
fn info(file: &'static str, form: ReportFormat) -> Command<'static>
    ensures { IsSized result }
{
    Command::Info { file, form }
}

// Facts about the fill of A.
fn fill(order: FillOrder<'static>, form: ReportFormat) -> Command<'static>
    ensures { IsSized result }
{
    Command::Fill {
        file: A,
        order,
        form,
    }
}

// The square of A.
fn square() -> Command<'static>
    ensures { IsSized result }
{
    Command::Eval {
        modulus: None,
        order: Form::Cols,
        words: "1 1 *",
        files: &[A],
    }
}

// The solution of A X = B.
fn solve(modulus: Option<u64>) -> Command<'static>
    ensures { IsSized result }
{
    Command::Solve {
        modulus,
        order: EliminationOrder::MinimumDegree,
        a: A,
        b: B,
    }
}

// A picture of A.
fn picture(target: Target<'static>) -> Command<'static>
    ensures { IsSized result }
{
    Command::Spy {
        file: A,
        size: 64,
        target,
    }
}

// Runs a command twice. The first answer is the wanted one.
fn run_args(rt: &HostRuntime, turn: &mut Turn, command: Command<'static>) -> Outcome
    requires { IsSized command }
{
    for (path, text) in FILES {
        if fs::write(rt, *path, text.as_bytes()).is_err() {
            return Outcome::Unready;
        }
    }
    let mut stdin: &[u8] = &[];
    let mut screen = Screen::none();
    let mut inputs = Inputs::new(rt, &mut stdin, &mut screen);
    let mut files = Outputs::new(rt);
    let alloc = rt.alloc();
    let mut whole = Out::new(Page::new());
    let mut errors = Out::new(Page::new());
    if run_command(
        alloc,
        command,
        &mut inputs,
        &mut files,
        &mut whole,
        &mut errors,
    ) != 0
    {
        return Outcome::Unready;
    }
    let (mut out, mut err) = (Out::new(Page::new()), Out::new(Page::new()));
    turn.begin();
    let status = turn.end(run_command(alloc, command, &mut inputs, &mut files, &mut out, &mut err));
    answered(status, &out.into_inner(), &err.into_inner())
}

// The outcome of a command: a text and status 0, or the line of an allocation failure and status 1. A command writes
// its answer whole.
fn answered(status: u8, out: &Page, err: &Page) -> Outcome {
    match (status, err.taken()) {
        (0, b"") => Outcome::Answered(checksum_of_bytes(out.taken())),
        (1, b"mtxkit: out of memory\n") => Outcome::Refused.leaving(out.taken().is_empty()),
        _ => Outcome::Failed,
    }
}
