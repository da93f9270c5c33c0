//! Writes the lines of `mtxkit info` about a matrix.

ghost use Rattle.std.specs.Prelude.{◌≡◌, ◌++◌, ◌*◌, OnOk, string_bytes, replicate};
ghost use Rattle.mtxkit_matrices.specs.FactLines.{line, count_line, answer, count_lines};
ghost use Rattle.mtxkit_matrices.specs.FactLines.{symmetry_lines, histogram_lines};
ghost use Rattle.mtxkit_matrices.specs.FactLines.{bar, bar_line, bar_lines, bar_title};

use crate::facts::info::Info;
use crate::facts::lanes::Histogram;
use std::alloc::{AllocError, Global};

// The length of the bar for all rows.
const BAR: u128 = 40;

/// Appends the lines of the facts about a matrix with this number of rows.
///
/// Fails only if an allocation fails.
pub fn push_facts(
    alloc: Global,
    lines: &mut String,
    facts: &Info,
    nrows: usize,
) -> Result<(), AllocError>
    ensures { OnOk result (string_bytes lines.new ≡ string_bytes lines.old
        ++ (count_lines facts.now ++ (symmetry_lines facts.now
        ++ histogram_lines facts.now.rows.width facts.now.rows.counts.items nrows))) }
{
    push_counts(alloc, lines, facts)?;
    push_symmetries(lines, facts)?;
    push_histogram(alloc, lines, &facts.rows, nrows)
}

// Appends the lines of the facts that are numbers.
fn push_counts(alloc: Global, lines: &mut String, facts: &Info) -> Result<(), AllocError>
    ensures { OnOk result
        (string_bytes lines.new ≡ string_bytes lines.old ++ count_lines facts.now) }
{
    push_count(alloc, lines, "places", facts.places)?;
    push_count(alloc, lines, "stored zeros", facts.stored_zeros)?;
    push_count(alloc, lines, "empty rows", facts.empty_rows)?;
    push_count(alloc, lines, "empty columns", facts.empty_cols)?;
    push_count(alloc, lines, "bandwidth", facts.bandwidth)
}

// Appends the lines that say whether the pattern and the values are symmetric.
fn push_symmetries(lines: &mut String, facts: &Info) -> Result<(), AllocError>
    ensures { OnOk result
        (string_bytes lines.new ≡ string_bytes lines.old ++ symmetry_lines facts.now) }
{
    let pattern = answer(facts.has_symmetric_pattern);
    let values = answer(facts.has_symmetric_values);
    push_line(lines, "symmetric pattern", pattern)?;
    push_line(lines, "symmetric values", values)
}

/// Appends the histogram of the rows by their numbers of entries.
///
/// Fails only if an allocation fails.
pub fn push_histogram(
    alloc: Global,
    lines: &mut String,
    rows: &Histogram,
    nrows: usize,
) -> Result<(), AllocError>
    ensures { OnOk result (string_bytes lines.new ≡ string_bytes lines.old
        ++ histogram_lines rows.now.width rows.now.counts.items nrows) }
{
    push_title(lines)?;
    push_bars(alloc, lines, rows, nrows)
}

// Appends the title of the histogram.
#[tactic(auto, unfolding(crate::specs::FactLines::bar_title))]
fn push_title(lines: &mut String) -> Result<(), AllocError>
    ensures { OnOk result (string_bytes lines.new ≡ string_bytes lines.old ++ bar_title) }
{
    lines.push_str("rows by their places:\n")
}

// Appends a line for each count of the histogram.
fn push_bars(
    alloc: Global,
    lines: &mut String,
    rows: &Histogram,
    nrows: usize,
) -> Result<(), AllocError>
    ensures { OnOk result (string_bytes lines.new ≡ string_bytes lines.old
        ++ bar_lines rows.now.width rows.now.counts.items nrows) }
{
    for line in 0..rows.counts.len() {
        let from = times(line, rows.width);
        let to = times(line + 1, rows.width).saturating_sub(1);
        push_bar_line(alloc, lines, from, to, rows.counts[line], nrows)?;
    }
    Ok(())
}

// Returns the product of two numbers, which fits in 128 bits.
fn times(a: usize, b: usize) -> u128
    ensures { result ≡ a * b }
{
    (a as u128) * (b as u128)
}

// Appends the line for the rows with `from` to `to` entries.
#[tactic(auto, unfolding(crate::specs::FactLines::bar_line))]
fn push_bar_line(
    alloc: Global,
    lines: &mut String,
    from: u128,
    to: u128,
    count: usize,
    nrows: usize,
) -> Result<(), AllocError>
    ensures { OnOk result
        (string_bytes lines.new ≡ string_bytes lines.old ++ bar_line from to count nrows) }
{
    let head = format!(in alloc; "  {from} to {to}: {count}")?;
    lines.push_str(head.as_str())?;
    push_bar(lines, count, nrows)?;
    lines.push_str("\n")
}

// Appends the bar for `count` of `nrows` rows.
fn push_bar(lines: &mut String, count: usize, nrows: usize) -> Result<(), AllocError>
    ensures { OnOk result
        (string_bytes lines.new ≡ string_bytes lines.old ++ bar count nrows) }
{
    let marks = (count as u128) * BAR / (nrows.max(1) as u128);
    if marks == 0 {
        return Ok(());
    }
    lines.push_str(" ")?;
    push_marks(lines, marks)
}

// Appends the marks of a bar.
fn push_marks(lines: &mut String, count: u128) -> Result<(), AllocError>
    ensures { OnOk result
        (string_bytes lines.new ≡ string_bytes lines.old ++ replicate count 35) }
{
    for _ in 0..count {
        lines.push_str("#")?;
    }
    Ok(())
}

/// Appends a line with a name and a number.
///
/// Fails only if an allocation fails.
pub fn push_count(
    alloc: Global,
    lines: &mut String,
    name: &str,
    count: usize,
) -> Result<(), AllocError>
    ensures { OnOk result
        (string_bytes lines.new ≡ string_bytes lines.old ++ count_line name.now count) }
{
    let number = format!(in alloc; "{count}")?;
    push_line(lines, name, number.as_str())
}

/// Appends a line with a name and a value.
///
/// Fails only if an allocation fails.
#[tactic(auto, unfolding(crate::specs::FactLines::line))]
pub fn push_line(lines: &mut String, name: &str, value: &str) -> Result<(), AllocError>
    ensures { OnOk result
        (string_bytes lines.new ≡ string_bytes lines.old ++ line name.now value.now) }
{
    lines.push_str(name)?;
    lines.push_str(": ")?;
    lines.push_str(value)?;
    lines.push_str("\n")
}

/// Returns "yes" or "no".
pub fn answer(yes: bool) -> &'static str
    ensures { result.now ≡ answer yes }
{
    if yes { "yes" } else { "no" }
}
