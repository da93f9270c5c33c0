//! The choices that arguments make: targets, sizes, orders and forms.

ghost use Rattle.clap.specs.Matches.{found_of, first_value};
ghost use Rattle.std.specs.Prelude.{◌≡◌, ◌≢◌, ◌<◌, IfNone, IfSome, codes};
ghost use Rattle.std.specs.Option.{option_map};
ghost use Rattle.mtxkit_arguments.specs.Optional.{GivesFlag};
ghost use Rattle.mtxkit_arguments.specs.Sizes.{size_given};
ghost use Rattle.mtxkit_arguments.specs.Words.{field_name, shown_on, IsTargetOf};
ghost use Rattle.mtxkit_arguments.specs.Words.{GivesElimination, GivesReportFormat, GivesMethod, GivesModulus};
ghost use Rattle.mtxkit_arguments.specs.Words.{GivesOrder, GivesForm, GivesScale, GivesSize};
ghost use Rattle.mtxkit_arguments.specs.declared.options.Values.{Values};
ghost use Rattle.mtxkit_matrices.specs.declared.orders.EliminationOrder.{EliminationOrder};
ghost use Rattle.mtxkit_patterns.specs.declared.square.Method.{Method};

use crate::options::{FillOrder, Target, Values};
use clap::ArgMatches;
use mtxkit_facts::ReportFormat;
use mtxkit_matrices::EliminationOrder;
use mtxkit_patterns::Method;
use sparse_expr::Form;

/// Returns how facts are written.
pub(crate) fn report_format(words: &ArgMatches<'_>) -> ReportFormat
    ensures { GivesReportFormat (found_of words.now) result }
{
    if flag(words, "json") {
        ReportFormat::Json
    } else {
        ReportFormat::Lines
    }
}

/// Returns the target of a picture: the output file that is named, or else block characters, SVG or a bitmap. The name
/// `-` is that of the standard output.
pub(crate) fn target_of<'a>(words: &ArgMatches<'a>) -> Target<'a>
    ensures { IsTargetOf (found_of words.now) (first_value (found_of words.now) (codes "output"))
        result }
{
    match words.get_str("output") {
        Some("-") => Target::Bitmap,
        Some(path) => Target::File(path),
        None => shown_on(flag(words, "text"), flag(words, "svg")),
    }
}

// Returns the target of a picture without an output file, by the flags for block characters and for SVG.
fn shown_on<'a>(text: bool, svg: bool) -> Target<'a>
    ensures { result ≡ shown_on text svg }
{
    match (text, svg) {
        (true, _) => Target::Blocks,
        (false, true) => Target::Svg,
        (false, false) => Target::Bitmap,
    }
}

/// Returns the size of a picture, which is not 0.
pub(crate) fn size_of(words: &ArgMatches<'_>, target: Target<'_>) -> usize
    ensures some { 0 < result }
    ensures given { GivesSize (found_of words.now) target.entry result }
{
    size_given(words.get_one::<usize>("size"), target)
}

// Returns the size that was given, if it is not 0, or else one that fits a terminal or a page.
fn size_given(given: Option<usize>, target: Target<'_>) -> usize
    ensures some { 0 < result }
    ensures given { result ≡ size_given given target.entry }
{
    match (given, target) {
        (Some(size), _) if size > 0 => size,
        (_, Target::Blocks) => 64,
        (_, Target::Svg) => 128,
        (_, _) => 512,
    }
}

/// Returns the power of ten by which numbers are multiplied, 0 unless one is given.
pub(crate) fn scale_of(words: &ArgMatches<'_>) -> u32
    ensures { GivesScale (found_of words.now) result }
{
    words.get_one::<u32>("scale").unwrap_or(0)
}

/// Returns the modulus, if one is given.
pub(crate) fn modulus_of(words: &ArgMatches<'_>) -> Option<u64>
    ensures { GivesModulus (found_of words.now) result }
{
    words.get_one::<u64>("mod")
}

/// Returns whether this field is written with values.
pub(crate) fn values_of(field: &str) -> Option<Values>
    ensures named { IfSome result (λ values. field.now ≡ field_name values) }
    ensures none { IfNone result ((values : Values) → field.now ≢ field_name values) }
{
    match field {
        "integer" => Some(Values::Integers),
        "pattern" => Some(Values::Pattern),
        _ => None,
    }
}

/// Returns the method with this name, and minimum degree if none is given.
pub(crate) fn method_of(name: Option<&str>) -> Option<Method>
    ensures given { IfSome result (GivesMethod (option_map (λ name. name.now) name.entry)) }
    ensures none { IfNone result
        ((method : Method) → ¬ GivesMethod (option_map (λ name. name.now) name.entry) method) }
{
    let Some(name) = name else {
        return Some(Method::MinimumDegree);
    };
    match name {
        "amd" => Some(Method::MinimumDegree),
        "rcm" => Some(Method::ReverseCuthillMckee),
        _ => None,
    }
}

/// Returns the order with this name, or that of the file with this path, and the natural one if none is given.
pub(crate) fn fill_order<'a>(name: Option<&'a str>) -> FillOrder<'a>
    ensures { GivesOrder (option_map (λ name. name.now) name.entry) result }
{
    let Some(name) = name else {
        return FillOrder::Natural;
    };
    match name {
        "natural" => FillOrder::Natural,
        "amd" => FillOrder::Computed(Method::MinimumDegree),
        "rcm" => FillOrder::Computed(Method::ReverseCuthillMckee),
        path => FillOrder::File(path),
    }
}

/// Returns the order in which entries are written.
pub(crate) fn form_of(words: &ArgMatches<'_>) -> Form
    ensures { GivesForm (found_of words.now) result }
{
    if flag(words, "columns") {
        Form::Cols
    } else {
        Form::Rows
    }
}

/// Returns the order with this name, and minimum degree if none is given.
pub(crate) fn elimination_order(name: Option<&str>) -> Option<EliminationOrder>
    ensures given { IfSome result (GivesElimination (option_map (λ name. name.now) name.entry)) }
    ensures none { IfNone result ((order : EliminationOrder)
        → ¬ GivesElimination (option_map (λ name. name.now) name.entry) order) }
{
    let Some(name) = name else {
        return Some(EliminationOrder::MinimumDegree);
    };
    match name {
        "natural" => Some(EliminationOrder::Natural),
        "amd" => Some(EliminationOrder::MinimumDegree),
        "rcm" => Some(EliminationOrder::ReverseCuthillMckee),
        _ => None,
    }
}

// Returns whether a flag is given.
fn flag(words: &ArgMatches<'_>, name: &str) -> bool
    ensures { GivesFlag (found_of words.now) name.now result }
{
    words.get_flag(name)
}
