//! Writes the facts of `mtxkit info` in JSON.

ghost use Rattle.std.specs.Prelude.{◌≡◌, ◌++◌, ◌*◌, IfOk, None, OnOk, Some, string_bytes};
ghost use Rattle.mtxkit_facts.specs.FactJson.{info_json, json_bar, json_bars, json_comma, json_names};
ghost use Rattle.mtxkit_facts.specs.FactJson.{json_places, json_rows, json_sizes, json_values};

use crate::facts::TextFacts;
use crate::json::{push_end, push_first, push_flag, push_member, push_number, quoted};
use mtxkit_matrices::{Histogram, Info};
use mtxkit_texts::{field_name, format_name, symmetry_name};
use sparse_parser::header::Header;
use std::alloc::{AllocError, Global};

/// Returns the object of facts.
///
/// Fails only if an allocation fails.
pub(crate) fn json_of(alloc: Global, facts: &TextFacts) -> Result<String, AllocError>
    ensures { IfOk result (λ json. string_bytes json ≡ info_json facts.now) }
{
    let mut json = String::new(alloc);
    push_header(alloc, &mut json, facts.header)?;
    push_sizes(alloc, &mut json, facts)?;
    push_matrix(alloc, &mut json, facts)?;
    Ok(json)
}

// Appends the members for the header.
fn push_header(alloc: Global, json: &mut String, header: Option<Header>) -> Result<(), AllocError>
    ensures { OnOk result
        (string_bytes json.new ≡ string_bytes json.old ++ json_names header) }
{
    match header {
        Some(header) => push_names(alloc, json, header),
        None => push_nulls(json),
    }
}

// Appends the members for a header.
fn push_names(alloc: Global, json: &mut String, header: Header) -> Result<(), AllocError>
    ensures { OnOk result
        (string_bytes json.new ≡ string_bytes json.old ++ json_names (Some header)) }
{
    let format = quoted(alloc, format_name(header.format))?;
    push_first(json, "format", format.as_str())?;
    let field = quoted(alloc, field_name(header.field))?;
    push_member(json, "field", field.as_str())?;
    let symmetry = quoted(alloc, symmetry_name(header.symmetry))?;
    push_member(json, "symmetry", symmetry.as_str())
}

// Appends the members of a text without a header.
fn push_nulls(json: &mut String) -> Result<(), AllocError>
    ensures { OnOk result
        (string_bytes json.new ≡ string_bytes json.old ++ json_names None) }
{
    push_first(json, "format", "null")?;
    push_member(json, "field", "null")?;
    push_member(json, "symmetry", "null")
}

// Appends the members for the shape and the number of entries.
fn push_sizes(alloc: Global, json: &mut String, facts: &TextFacts) -> Result<(), AllocError>
    ensures { OnOk result (string_bytes json.new ≡ string_bytes json.old
        ++ json_sizes facts.now.rows facts.now.cols facts.now.entries) }
{
    push_number(alloc, json, "rows", facts.rows as u128)?;
    push_number(alloc, json, "columns", facts.cols as u128)?;
    push_number(alloc, json, "entries", facts.entries as u128)
}

// Appends the members for the matrix, and the end of the object.
fn push_matrix(alloc: Global, json: &mut String, facts: &TextFacts) -> Result<(), AllocError>
    ensures { OnOk result (string_bytes json.new ≡ string_bytes json.old
        ++ (json_places facts.now.matrix ++ (json_values facts.now.has_values facts.now.matrix
        ++ json_rows facts.now.matrix.rows.width facts.now.matrix.rows.counts.items))) }
{
    push_places(alloc, json, &facts.matrix)?;
    push_values(alloc, json, facts.has_values, &facts.matrix)?;
    push_rows(alloc, json, &facts.matrix.rows)
}

// Appends the members for the places of the matrix.
fn push_places(alloc: Global, json: &mut String, facts: &Info) -> Result<(), AllocError>
    ensures { OnOk result
        (string_bytes json.new ≡ string_bytes json.old ++ json_places facts.now) }
{
    push_number(alloc, json, "places", facts.places as u128)?;
    push_number(alloc, json, "empty_rows", facts.empty_rows as u128)?;
    push_number(alloc, json, "empty_columns", facts.empty_cols as u128)?;
    push_number(alloc, json, "bandwidth", facts.bandwidth as u128)?;
    push_flag(json, "symmetric_pattern", facts.has_symmetric_pattern)
}

// Appends the members for the values of the matrix, if they are known.
fn push_values(
    alloc: Global,
    json: &mut String,
    known: bool,
    facts: &Info,
) -> Result<(), AllocError>
    ensures { OnOk result
        (string_bytes json.new ≡ string_bytes json.old ++ json_values known facts.now) }
{
    if !known {
        return Ok(());
    }
    push_number(alloc, json, "stored_zeros", facts.stored_zeros as u128)?;
    push_flag(json, "symmetric_values", facts.has_symmetric_values)
}

// Appends the histogram of the rows, and the end of the object.
#[tactic(auto, unfolding(crate::specs::FactJson::json_rows))]
fn push_rows(alloc: Global, json: &mut String, rows: &Histogram) -> Result<(), AllocError>
    ensures { OnOk result (string_bytes json.new
        ≡ string_bytes json.old ++ json_rows rows.now.width rows.now.counts.items) }
{
    json.push_str(",\"rows_by_their_places\":[")?;
    push_bars(alloc, json, rows)?;
    json.push_str("]")?;
    push_end(json)?;
    Ok(())
}

// Appends an object for each count of the histogram.
fn push_bars(alloc: Global, json: &mut String, rows: &Histogram) -> Result<(), AllocError>
    ensures { OnOk result (string_bytes json.new
        ≡ string_bytes json.old ++ json_bars rows.now.width rows.now.counts.items) }
{
    for line in 0..rows.counts.len() {
        let from = times(line, rows.width);
        let to = times(line + 1, rows.width).saturating_sub(1);
        push_element(alloc, json, line, from, to, rows.counts[line])?;
    }
    Ok(())
}

// Appends the element of the histogram with this index.
fn push_element(
    alloc: Global,
    json: &mut String,
    index: usize,
    from: u128,
    to: u128,
    count: usize,
) -> Result<(), AllocError>
    ensures { OnOk result (string_bytes json.new
        ≡ string_bytes json.old ++ (json_comma index ++ json_bar from to count)) }
{
    json.push_str(comma(index))?;
    push_bar(alloc, json, from, to, count)
}

// Returns what precedes an element of an array: nothing before the first one.
fn comma(index: usize) -> &'static str
    ensures { result.now ≡ json_comma index }
{
    if index == 0 { "" } else { "," }
}

// Returns the product of two numbers, which fits in 128 bits.
fn times(a: usize, b: usize) -> u128
    ensures { result ≡ a * b }
{
    (a as u128) * (b as u128)
}

// Appends the object for the rows with `from` to `to` places.
#[tactic(auto, unfolding(crate::specs::FactJson::json_bar))]
fn push_bar(
    alloc: Global,
    json: &mut String,
    from: u128,
    to: u128,
    count: usize,
) -> Result<(), AllocError>
    ensures { OnOk result
        (string_bytes json.new ≡ string_bytes json.old ++ json_bar from to count) }
{
    let bar = format!(in alloc; "{{\"from\":{from},\"to\":{to},\"rows\":{count}}}")?;
    json.push_str(bar.as_str())
}
