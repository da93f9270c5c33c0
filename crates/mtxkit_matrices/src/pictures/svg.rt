//! The texts of pictures as scalable vector graphics (SVG).

ghost use Rattle.std.specs.Prelude.{◌≡◌, ◌++◌, ◌<◌, ◌≤◌, IfOk, OnOk, length, string_bytes};
ghost use Rattle.std.specs.List.{flat_map};
ghost use Rattle.sparse_algebra.specs.Plain.{below};
ghost use Rattle.mtxkit_matrices.specs.LargestCounts.{largest};
ghost use Rattle.mtxkit_matrices.specs.SvgTexts.{svg_view, svg_title, white, svg_text, squares_of_row};
ghost use Rattle.mtxkit_matrices.specs.SvgTexts.{cell_square, square, shade};

use crate::pictures::picture::Picture;
use sparse_pattern::pattern::SparsityPattern;
use std::alloc::{AllocError, Global};

// The greatest grey of a cell with entries. White is 255.
const LIGHTEST: u128 = 224;

/// Returns the text of a picture of a pattern as SVG, which browsers show: a square for each cell with entries, the
/// darker the more there are, on white. The title has the shape of the pattern, whose lanes are rows, and its number of
/// entries.
///
/// Linear in the number of cells. Fails only if an allocation fails.
pub fn svg_text(
    alloc: Global,
    picture: &Picture,
    pattern: &SparsityPattern,
) -> Result<String, AllocError>
    ensures { IfOk result (λ text. string_bytes text
        ≡ svg_text (svg_title pattern.now.major_dim pattern.now.minor_dim
        (length pattern.now.indices)) picture.now) }
{
    let mut text = view(alloc, picture.width(), picture.height())?;
    text.push_str(title(alloc, pattern)?.as_str())?;
    push_white(&mut text)?;
    push_squares(alloc, &mut text, picture)?;
    text.push_str("</svg>\n")?;
    Ok(text)
}

// Returns the first line, a view of all cells.
#[tactic(auto, unfolding(crate::specs::SvgTexts::svg_view))]
fn view(alloc: Global, width: usize, height: usize) -> Result<String, AllocError>
    ensures { IfOk result (λ text. string_bytes text ≡ svg_view width height) }
{
    format!(in alloc;
        "<svg xmlns=\"http://www.w3.org/2000/svg\" viewBox=\"0 0 {width} {height}\" shape-rendering=\"crispEdges\">\n"
    )
}

// Returns the title.
#[tactic(auto, unfolding(crate::specs::SvgTexts::svg_title))]
fn title(alloc: Global, pattern: &SparsityPattern) -> Result<String, AllocError>
    ensures { IfOk result (λ text. string_bytes text
        ≡ svg_title pattern.now.major_dim pattern.now.minor_dim (length pattern.now.indices)) }
{
    let (rows, cols, entries) = (pattern.major_dim(), pattern.minor_dim(), pattern.nnz());
    format!(in alloc; "<title>{rows} by {cols}, {entries} places</title>\n")
}

// Appends a white rectangle.
#[tactic(auto, unfolding(crate::specs::SvgTexts::white))]
fn push_white(text: &mut String) -> Result<(), AllocError>
    ensures { OnOk result (string_bytes text.new ≡ string_bytes text.old ++ white) }
{
    text.push_str("<rect width=\"100%\" height=\"100%\" fill=\"white\"/>\n")
}

// Appends the squares of all cells with entries.
fn push_squares(alloc: Global, text: &mut String, picture: &Picture) -> Result<(), AllocError>
    ensures { OnOk result (string_bytes text.new ≡ string_bytes text.old
        ++ flat_map (squares_of_row picture.now (largest picture.now.counts))
        (below picture.now.height)) }
{
    let most = picture.largest_count();
    for row in 0..picture.height() {
        push_row(alloc, text, picture, most, row)?;
    }
    Ok(())
}

// Appends the squares of a row of cells.
fn push_row(
    alloc: Global,
    text: &mut String,
    picture: &Picture,
    most: usize,
    row: usize,
) -> Result<(), AllocError>
    requires { row < picture.now.height }
    ensures { OnOk result (string_bytes text.new
        ≡ string_bytes text.old ++ squares_of_row picture.now most row) }
{
    for col in 0..picture.width() {
        push_cell(alloc, text, picture, most, row, col)?;
    }
    Ok(())
}

// Appends the square of a cell, or nothing if no entry lies in it.
#[tactic(auto, unfolding(crate::specs::SvgTexts::cell_square))]
fn push_cell(
    alloc: Global,
    text: &mut String,
    picture: &Picture,
    most: usize,
    row: usize,
    col: usize,
) -> Result<(), AllocError>
    requires row { row < picture.now.height }
    requires col { col < picture.now.width }
    ensures { OnOk result (string_bytes text.new
        ≡ string_bytes text.old ++ cell_square picture.now most row col) }
{
    let count = picture.count(row, col);
    if count == 0 {
        return Ok(());
    }
    text.push_str(square(alloc, row, col, shade(count, most))?.as_str())
}

// Returns the grey of a cell with `count` entries, if no cell has more than `most`.
fn shade(count: usize, most: usize) -> usize
    ensures { result ≡ shade count most }
{
    let part = (count as u128) * LIGHTEST / (most.max(1) as u128);
    LIGHTEST.saturating_sub(part) as usize
}

// Returns a square in this grey.
#[tactic(auto, unfolding(crate::specs::SvgTexts::square))]
fn square(alloc: Global, row: usize, col: usize, grey: usize) -> Result<String, AllocError>
    ensures { IfOk result (λ text. string_bytes text ≡ square row col grey) }
{
    format!(in alloc;
        "<rect x=\"{col}\" y=\"{row}\" width=\"1\" height=\"1\" fill=\"rgb({grey},{grey},{grey})\"/>\n"
    )
}
