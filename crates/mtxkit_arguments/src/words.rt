//! The command that the arguments give.

ghost use Rattle.clap.specs.Matches.{found_of};
ghost use Rattle.std.specs.Prelude.{◌≡◌, IfNone, IfSome, codes};
ghost use Rattle.mtxkit_arguments.specs.Sizes.{IsSized};
ghost use Rattle.mtxkit_arguments.specs.Words.{command_name, GiveNone, GivesCommand, IsGiven};
ghost use Rattle.mtxkit_arguments.specs.declared.commands.Command.{Command};

use crate::choices::{
    elimination_order, fill_order, form_of, method_of, modulus_of, report_format, scale_of,
    size_of, target_of, values_of,
};
use crate::commands::Command;
use clap::ArgMatches;

/// Returns the command that `clap` matched, or `None` if its arguments give none. The size of a picture is not 0.
pub fn command_of<'m, 'a>(matches: &'m ArgMatches<'a>) -> Option<Command<'m>>
    ensures sized { IfSome result IsSized }
    ensures given { IfSome result (IsGiven matches.now) }
    ensures none { IfNone result ((command : Command) → ¬ IsGiven matches.now command) }
{
    let (name, words) = matches.subcommand()?;
    named_command(name, words)
}

// Returns the command with this name and these arguments.
fn named_command<'m, 'a>(name: &str, words: &'m ArgMatches<'a>) -> Option<Command<'m>>
    ensures sized { IfSome result IsSized }
    ensures named { IfSome result (λ command. name.now ≡ command_name command) }
    ensures given { IfSome result (GivesCommand (found_of words.now)) }
    ensures none { IfNone result (GiveNone (found_of words.now) name.now) }
{
    match name {
        "info" => info_of(words),
        "spy" => spy_of(words),
        "copy" => copy_of(words),
        "field" => field_of(words),
        "integer" => integer_of(words),
        "symmetric" => symmetric_of(words),
        "order" => order_of(words),
        "permute" => permute_of(words),
        "fill" => fill_of(words),
        "eval" => eval_of(words),
        "solve" => solve_of(words),
        "check" => check_of(words),
        _ => None,
    }
}

fn info_of<'a>(words: &ArgMatches<'a>) -> Option<Command<'a>>
    ensures sized { IfSome result IsSized }
    ensures named { IfSome result (λ command. command_name command ≡ codes "info") }
    ensures given { IfSome result (GivesCommand (found_of words.now)) }
    ensures none { IfNone result (GiveNone (found_of words.now) (codes "info")) }
{
    let file = words.get_str("FILE")?;
    let form = report_format(words);
    Some(Command::Info { file, form })
}

fn spy_of<'a>(words: &ArgMatches<'a>) -> Option<Command<'a>>
    ensures sized { IfSome result IsSized }
    ensures named { IfSome result (λ command. command_name command ≡ codes "spy") }
    ensures given { IfSome result (GivesCommand (found_of words.now)) }
    ensures none { IfNone result (GiveNone (found_of words.now) (codes "spy")) }
{
    let file = words.get_str("FILE")?;
    let target = target_of(words);
    let size = size_of(words, target);
    Some(Command::Spy { file, size, target })
}

fn copy_of<'a>(words: &ArgMatches<'a>) -> Option<Command<'a>>
    ensures sized { IfSome result IsSized }
    ensures named { IfSome result (λ command. command_name command ≡ codes "copy") }
    ensures given { IfSome result (GivesCommand (found_of words.now)) }
    ensures none { IfNone result (GiveNone (found_of words.now) (codes "copy")) }
{
    let file = words.get_str("FILE")?;
    Some(Command::Copy { file })
}

fn field_of<'a>(words: &ArgMatches<'a>) -> Option<Command<'a>>
    ensures sized { IfSome result IsSized }
    ensures named { IfSome result (λ command. command_name command ≡ codes "field") }
    ensures given { IfSome result (GivesCommand (found_of words.now)) }
    ensures none { IfNone result (GiveNone (found_of words.now) (codes "field")) }
{
    let file = words.get_str("FILE")?;
    let values = values_of(words.get_str("FIELD")?)?;
    Some(Command::Field { file, values })
}

// Without a scale the numbers have to be integers.
fn integer_of<'a>(words: &ArgMatches<'a>) -> Option<Command<'a>>
    ensures sized { IfSome result IsSized }
    ensures named { IfSome result (λ command. command_name command ≡ codes "integer") }
    ensures given { IfSome result (GivesCommand (found_of words.now)) }
    ensures none { IfNone result (GiveNone (found_of words.now) (codes "integer")) }
{
    let file = words.get_str("FILE")?;
    let scale = scale_of(words);
    Some(Command::Integer { file, scale })
}

fn symmetric_of<'a>(words: &ArgMatches<'a>) -> Option<Command<'a>>
    ensures sized { IfSome result IsSized }
    ensures named { IfSome result (λ command. command_name command ≡ codes "symmetric") }
    ensures given { IfSome result (GivesCommand (found_of words.now)) }
    ensures none { IfNone result (GiveNone (found_of words.now) (codes "symmetric")) }
{
    let file = words.get_str("FILE")?;
    Some(Command::Symmetric { file })
}

fn order_of<'a>(words: &ArgMatches<'a>) -> Option<Command<'a>>
    ensures sized { IfSome result IsSized }
    ensures named { IfSome result (λ command. command_name command ≡ codes "order") }
    ensures given { IfSome result (GivesCommand (found_of words.now)) }
    ensures none { IfNone result (GiveNone (found_of words.now) (codes "order")) }
{
    let file = words.get_str("FILE")?;
    let method = method_of(words.get_str("METHOD"))?;
    Some(Command::Order { file, method })
}

fn permute_of<'a>(words: &ArgMatches<'a>) -> Option<Command<'a>>
    ensures sized { IfSome result IsSized }
    ensures named { IfSome result (λ command. command_name command ≡ codes "permute") }
    ensures given { IfSome result (GivesCommand (found_of words.now)) }
    ensures none { IfNone result (GiveNone (found_of words.now) (codes "permute")) }
{
    let order = words.get_str("ORDER")?;
    let file = words.get_str("FILE")?;
    Some(Command::Permute { order, file })
}

fn fill_of<'a>(words: &ArgMatches<'a>) -> Option<Command<'a>>
    ensures sized { IfSome result IsSized }
    ensures named { IfSome result (λ command. command_name command ≡ codes "fill") }
    ensures given { IfSome result (GivesCommand (found_of words.now)) }
    ensures none { IfNone result (GiveNone (found_of words.now) (codes "fill")) }
{
    let file = words.get_str("FILE")?;
    let order = fill_order(words.get_str("order"));
    let form = report_format(words);
    Some(Command::Fill { file, order, form })
}

fn eval_of<'m, 'a>(words: &'m ArgMatches<'a>) -> Option<Command<'m>>
    ensures sized { IfSome result IsSized }
    ensures named { IfSome result (λ command. command_name command ≡ codes "eval") }
    ensures given { IfSome result (GivesCommand (found_of words.now)) }
    ensures none { IfNone result (GiveNone (found_of words.now) (codes "eval")) }
{
    let files = words.get_strs("FILE")?;
    Some(Command::Eval {
        modulus: modulus_of(words),
        order: form_of(words),
        words: words.get_str("EXPR")?,
        files,
    })
}

fn solve_of<'a>(words: &ArgMatches<'a>) -> Option<Command<'a>>
    ensures sized { IfSome result IsSized }
    ensures named { IfSome result (λ command. command_name command ≡ codes "solve") }
    ensures given { IfSome result (GivesCommand (found_of words.now)) }
    ensures none { IfNone result (GiveNone (found_of words.now) (codes "solve")) }
{
    let modulus = modulus_of(words);
    let order = elimination_order(words.get_str("order"))?;
    let a = words.get_str("A")?;
    let b = words.get_str("B")?;
    Some(Command::Solve {
        modulus,
        order,
        a,
        b,
    })
}

fn check_of<'a>(words: &ArgMatches<'a>) -> Option<Command<'a>>
    ensures sized { IfSome result IsSized }
    ensures named { IfSome result (λ command. command_name command ≡ codes "check") }
    ensures given { IfSome result (GivesCommand (found_of words.now)) }
    ensures none { IfNone result (GiveNone (found_of words.now) (codes "check")) }
{
    let modulus = modulus_of(words);
    let a = words.get_str("A")?;
    let x = words.get_str("X")?;
    let b = words.get_str("B")?;
    Some(Command::Check { modulus, a, x, b })
}
