//! Draws the patterns of texts.

ghost use Rattle.std.specs.Prelude.{◌<◌, IfErr, IfOk, string_bytes};
ghost use Rattle.mtxkit_texts.specs.AnyField.{IsPlacesFailure};
ghost use Rattle.mtxkit_texts.specs.Shown.{IsDrawing, IsPictureOf, ShowsBitmap};
ghost use Rattle.mtxkit_texts.specs.Shown.{ShowsBlocks, ShowsSvg};

use crate::any_field::load_places;
use crate::failure::Failure;
use mtxkit_matrices::{Picture, bitmap_text, block_text, draw, scaled_sizes, svg_text};
use sparse_pattern::pattern::SparsityPattern;
use std::alloc::{AllocError, Global};

/// Returns the picture of a text's pattern as a portable bitmap, whose sides have at most `size` cells. A cell is black
/// exactly if an entry lies in it. `size` must not be 0.
///
/// Returns the errors of [`load_places`](crate::load_places).
pub fn spy_bitmap(alloc: Global, text: &str, size: usize) -> Result<String, Failure>
    requires { 0 < size }
    ensures shown { IfOk result (λ shown. ShowsBitmap text.now size (string_bytes shown)) }
    ensures refused { IfErr result (IsPlacesFailure 1 text.now) }
{
    let picture = spy(alloc, text, size)?;
    Ok(bitmap_text(alloc, &picture)?)
}

/// Returns the picture of a text's pattern in block characters, whose sides have at most `size` cells. A cell is black
/// exactly if an entry lies in it. `size` must not be 0.
///
/// Returns the errors of [`load_places`](crate::load_places).
pub fn spy_blocks(alloc: Global, text: &str, size: usize) -> Result<String, Failure>
    requires { 0 < size }
    ensures shown { IfOk result (λ shown. ShowsBlocks text.now size (string_bytes shown)) }
    ensures refused { IfErr result (IsPlacesFailure 1 text.now) }
{
    let picture = spy(alloc, text, size)?;
    Ok(block_text(alloc, &picture)?)
}

/// Returns the picture of a text's pattern as SVG, whose sides have at most `size` cells. A cell is the darker the more
/// entries lie in it. `size` must not be 0.
///
/// Returns the errors of [`load_places`](crate::load_places).
pub fn spy_svg(alloc: Global, text: &str, size: usize) -> Result<String, Failure>
    requires { 0 < size }
    ensures shown { IfOk result (λ shown. ShowsSvg text.now size (string_bytes shown)) }
    ensures refused { IfErr result (IsPlacesFailure 1 text.now) }
{
    let loaded = load_places(alloc, 1, text)?;
    let pattern = loaded.matrix.pattern();
    let picture = drawn(alloc, pattern, size)?;
    Ok(svg_text(alloc, &picture, pattern)?)
}

// Returns the picture of a text's pattern.
fn spy(alloc: Global, text: &str, size: usize) -> Result<Picture, Failure>
    requires { 0 < size }
    ensures picture { IfOk result (IsPictureOf text.now size) }
    ensures refused { IfErr result (IsPlacesFailure 1 text.now) }
{
    let loaded = load_places(alloc, 1, text)?;
    Ok(drawn(alloc, loaded.matrix.pattern(), size)?)
}

// Returns the picture of a pattern.
fn drawn(alloc: Global, pattern: &SparsityPattern, size: usize) -> Result<Picture, AllocError>
    requires { 0 < size }
    ensures { IfOk result (IsDrawing pattern.now size) }
{
    let (height, width) = scaled_sizes(pattern.major_dim(), pattern.minor_dim(), size);
    Ok(draw(alloc, pattern, height, width)?)
}
