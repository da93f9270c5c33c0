//! Writes the lines of `mtxkit fill`.

ghost use Rattle.std.specs.Prelude.{◌≡◌, ◌++◌, ◌-◌, IfOk, OnOk, codes, string_bytes};
ghost use Rattle.mtxkit_matrices.specs.FactLines.{count_line};
ghost use Rattle.mtxkit_patterns.specs.Fills.{cost_lines, fill_lines, hundredths, place_lines, ratio};

use crate::counts::FillCounts;
use mtxkit_matrices::{push_count, push_line};
use std::alloc::{AllocError, Global};

/// Returns the lines for these counts.
///
/// Fails only if an allocation fails.
pub(crate) fn lines_of(alloc: Global, counts: FillCounts) -> Result<String, AllocError>
    ensures { IfOk result (λ lines. string_bytes lines ≡ fill_lines counts) }
{
    let mut lines = String::new(alloc);
    push_places(alloc, &mut lines, counts)?;
    push_count(alloc, &mut lines, "fill", fill_of(counts))?;
    let ratio = ratio_text(alloc, counts.factor, counts.lower)?;
    push_line(&mut lines, "factor to lower triangle", ratio.as_str())?;
    push_costs(alloc, &mut lines, counts)?;
    Ok(lines)
}

// Appends the lines of the places.
fn push_places(alloc: Global, lines: &mut String, counts: FillCounts) -> Result<(), AllocError>
    ensures { OnOk result
        (string_bytes lines.new ≡ string_bytes lines.old ++ place_lines counts) }
{
    push_count(alloc, lines, "places", counts.places)?;
    push_count(alloc, lines, "places of the lower triangle", counts.lower)?;
    push_count(alloc, lines, "places of the factor", counts.factor)?;
    Ok(())
}

/// Returns the number of places of the factor that are fill.
pub(crate) fn fill_of(counts: FillCounts) -> usize
    ensures { result ≡ counts.factor - counts.lower }
{
    if counts.factor < counts.lower {
        0
    } else {
        counts.factor - counts.lower
    }
}

// Appends the lines of the multiplications, the longest column and the elimination tree.
fn push_costs(alloc: Global, lines: &mut String, counts: FillCounts) -> Result<(), AllocError>
    ensures { OnOk result
        (string_bytes lines.new ≡ string_bytes lines.old ++ cost_lines counts) }
{
    push_products(alloc, lines, counts.products)?;
    push_count(alloc, lines, "longest column", counts.longest)?;
    push_count(
        alloc,
        lines,
        "height of the elimination tree",
        counts.height,
    )
}

/// Returns the quotient of two numbers with two decimals, rounded down, or 1.00 if the divisor is 0.
///
/// Fails only if an allocation fails.
#[tactic(auto, unfolding(crate::specs::Fills::ratio))]
pub(crate) fn ratio_text(alloc: Global, a: usize, b: usize) -> Result<String, AllocError>
    ensures { IfOk result (λ text. string_bytes text ≡ ratio a b) }
{
    let parts = hundredths(a, b);
    let (whole, tenth, hundredth) = (parts / 100, parts / 10 % 10, parts % 10);
    Ok(format!(in alloc; "{whole}.{tenth}{hundredth}")?)
}

// Returns a hundred times the quotient of two numbers, rounded down, or 100 if the divisor is 0.
fn hundredths(a: usize, b: usize) -> u128
    ensures { result ≡ hundredths a b }
{
    if b == 0 {
        100
    } else {
        (a as u128) * 100 / (b as u128)
    }
}

// Appends the line of the number of multiplications.
fn push_products(alloc: Global, lines: &mut String, products: u128) -> Result<(), AllocError>
    ensures { OnOk result (string_bytes lines.new
        ≡ string_bytes lines.old ++ count_line (codes "multiplications") products) }
{
    let number = format!(in alloc; "{products}")?;
    push_line(lines, "multiplications", number.as_str())
}
