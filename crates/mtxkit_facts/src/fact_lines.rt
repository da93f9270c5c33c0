//! The text that `mtxkit info` writes.

ghost use Rattle.std.specs.Prelude.{◌≡◌, ◌++◌, IfOk, IfErr, OnOk, codes, string_bytes};
ghost use Rattle.mtxkit_facts.specs.HeaderLines.{header_lines, size_lines};
ghost use Rattle.mtxkit_facts.specs.Facts.{IsInfoFailure, WritesInfo};
ghost use Rattle.mtxkit_facts.specs.Facts.{info_in, info_lines, matrix_lines, place_lines};

use crate::fact_json::json_of;
use crate::facts::{ReportFormat, TextFacts, facts_of};
use mtxkit_matrices::{Info, answer, push_count, push_facts, push_histogram, push_line};
use mtxkit_texts::{Failure, field_name, format_name, symmetry_name};
use sparse_parser::header::Header;
use std::alloc::{AllocError, Global};

/// Returns what `mtxkit info` writes about a text: its header, its shape, its number of entries, and the facts about
/// its matrix. If its values are real or complex, the facts about values are left out.
///
/// Returns the errors of [`facts_of`](crate::facts_of).
pub fn info_text(alloc: Global, form: ReportFormat, text: &str) -> Result<String, Failure>
    ensures written { IfOk result
        (λ written. WritesInfo form text.now (string_bytes written)) }
    ensures refused { IfErr result (IsInfoFailure text.now) }
{
    let facts = facts_of(alloc, text)?;
    Ok(written_in(alloc, form, &facts)?)
}

// Returns facts in this form.
fn written_in(alloc: Global, form: ReportFormat, facts: &TextFacts) -> Result<String, AllocError>
    ensures { IfOk result (λ written. string_bytes written ≡ info_in form facts.now) }
{
    match form {
        ReportFormat::Lines => lines_of(alloc, facts),
        ReportFormat::Json => json_of(alloc, facts),
    }
}

// Returns the lines of facts.
fn lines_of(alloc: Global, facts: &TextFacts) -> Result<String, AllocError>
    ensures { IfOk result (λ lines. string_bytes lines ≡ info_lines facts.now) }
{
    let mut lines = String::new(alloc);
    push_header(&mut lines, facts.header)?;
    push_sizes(alloc, &mut lines, facts)?;
    push_matrix(alloc, &mut lines, facts)?;
    Ok(lines)
}

// Appends the lines for the matrix.
fn push_matrix(alloc: Global, lines: &mut String, facts: &TextFacts) -> Result<(), AllocError>
    ensures { OnOk result (string_bytes lines.new ≡ string_bytes lines.old
        ++ matrix_lines facts.now.has_values facts.now.matrix facts.now.rows) }
{
    if facts.has_values {
        push_facts(alloc, lines, &facts.matrix, facts.rows)
    } else {
        push_places(alloc, lines, &facts.matrix)?;
        push_histogram(alloc, lines, &facts.matrix.rows, facts.rows)
    }
}

// Appends the lines for the places of the matrix.
fn push_places(alloc: Global, lines: &mut String, facts: &Info) -> Result<(), AllocError>
    ensures { OnOk result
        (string_bytes lines.new ≡ string_bytes lines.old ++ place_lines facts.now) }
{
    push_count(alloc, lines, "places", facts.places)?;
    push_count(alloc, lines, "empty rows", facts.empty_rows)?;
    push_count(alloc, lines, "empty columns", facts.empty_cols)?;
    push_count(alloc, lines, "bandwidth", facts.bandwidth)?;
    push_line(
        lines,
        "symmetric pattern",
        answer(facts.has_symmetric_pattern),
    )
}

// Appends the lines for the header.
fn push_header(lines: &mut String, header: Option<Header>) -> Result<(), AllocError>
    ensures { OnOk result
        (string_bytes lines.new ≡ string_bytes lines.old ++ header_lines header) }
{
    let Some(header) = header else {
        return Ok(());
    };
    push_line(lines, "format", format_name(header.format))?;
    push_line(lines, "field", field_name(header.field))?;
    push_line(lines, "symmetry", symmetry_name(header.symmetry))
}

// Appends the lines for the shape and the number of entries.
fn push_sizes(alloc: Global, lines: &mut String, facts: &TextFacts) -> Result<(), AllocError>
    ensures { OnOk result (string_bytes lines.new ≡ string_bytes lines.old
        ++ size_lines facts.now.rows facts.now.cols facts.now.entries) }
{
    push_count(alloc, lines, "rows", facts.rows)?;
    push_count(alloc, lines, "columns", facts.cols)?;
    push_count(alloc, lines, "entries", facts.entries)
}
