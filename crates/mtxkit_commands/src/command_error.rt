//! Why a command fails: the errors of all commands.

use mtxkit_eval::EvalError;
use mtxkit_matrices::ScaleError;
use mtxkit_patterns::OrderError;
use mtxkit_texts::Failure;
use std::io::ErrorKind;

/// Why a command fails.
#[derive(Clone, Copy, Debug)]
pub enum CommandError {
    /// A failure that several commands have.
    Failed(Failure),
    /// The numbers of the file of `mtxkit integer` are not scaled. The least scale with which all are, if one was found.
    Unscaled(ScaleError, Option<u32>),
    /// An order, or the matrix that it is for, is at fault.
    Misordered(OrderError),
    /// The expression of `mtxkit eval` has no value that is written.
    Unevaluated(EvalError),
    /// A write to the output failed, with an error of this kind.
    Unwritten(ErrorKind),
}

impl From<Failure> for CommandError {
    ghost use Rattle.std.specs.Prelude.{◌≡◌};
    ghost use Rattle.mtxkit_commands.specs.declared.command_error.CommandError.TheVariants.{Failed};

    ghost from_gives = { λ failure e. e ≡ Failed failure };

    fn from(failure: Failure) -> CommandError {
        CommandError::Failed(failure)
    }
}

impl From<OrderError> for CommandError {
    ghost use Rattle.std.specs.Prelude.{◌≡◌};
    ghost use Rattle.mtxkit_commands.specs.CommandFaults.{order_fault};

    ghost from_gives = { λ error e. e ≡ order_fault error };

    fn from(error: OrderError) -> CommandError {
        match error {
            OrderError::Failed(failure) => CommandError::Failed(failure),
            error => CommandError::Misordered(error),
        }
    }
}

impl From<EvalError> for CommandError {
    ghost use Rattle.std.specs.Prelude.{◌≡◌};
    ghost use Rattle.mtxkit_commands.specs.CommandFaults.{eval_fault};

    ghost from_gives = { λ error e. e ≡ eval_fault error };

    fn from(error: EvalError) -> CommandError {
        match error {
            EvalError::Failed(failure) => CommandError::Failed(failure),
            error => CommandError::Unevaluated(error),
        }
    }
}
