//! The texts of pictures: portable bitmaps, and lines of block characters.

ghost use Rattle.std.specs.Prelude.{◌≡◌, ◌++◌, ◌+◌, ◌*◌, ◌<◌, IfOk, OnOk, string_bytes};
ghost use Rattle.mtxkit_matrices.specs.Pictures.{is_black};
ghost use Rattle.mtxkit_matrices.specs.PictureTexts.{bitmap_text, block_text, row_text};
ghost use Rattle.mtxkit_matrices.specs.PictureTexts.{block_row_text, pair_text, lower_cell};

use crate::pictures::picture::Picture;
use std::alloc::{AllocError, Global};

/// Returns the text of a picture as a portable bitmap (PBM, format `P1`): a line for each row of cells.
///
/// Linear in the number of cells. Fails only if an allocation fails.
pub fn bitmap_text(alloc: Global, picture: &Picture) -> Result<String, AllocError>
    ensures { IfOk result (λ text. string_bytes text ≡ bitmap_text picture.now) }
{
    let mut text = format!(in alloc; "P1\n{} {}\n", picture.width(), picture.height())?;
    for row in 0..picture.height() {
        push_row(&mut text, picture, row)?;
    }
    Ok(text)
}

// Appends the line of a row of cells.
fn push_row(text: &mut String, picture: &Picture, row: usize) -> Result<(), AllocError>
    requires { row < picture.now.height }
    ensures { OnOk result
        (string_bytes text.new ≡ string_bytes text.old ++ row_text picture.now row) }
{
    for col in 0..picture.width() {
        let cell = if picture.is_black(row, col) { "1" } else { "0" };
        text.push_str(cell)?;
    }
    text.push_str("\n")
}

/// Returns the text of a picture in block characters: each line shows two rows of cells, one above the other.
///
/// Linear in the number of cells. Fails only if an allocation fails.
pub fn block_text(alloc: Global, picture: &Picture) -> Result<String, AllocError>
    ensures { IfOk result (λ text. string_bytes text ≡ block_text picture.now) }
{
    let height = picture.height();
    let mut text = String::new(alloc);
    for line in 0..height / 2 + height % 2 {
        push_blocks(&mut text, picture, line * 2)?;
    }
    Ok(text)
}

// Appends the line that shows a row of cells and the row below it, which counts as white if there is none.
fn push_blocks(text: &mut String, picture: &Picture, row: usize) -> Result<(), AllocError>
    requires { row < picture.now.height }
    ensures { OnOk result
        (string_bytes text.new ≡ string_bytes text.old ++ block_row_text picture.now row) }
{
    for col in 0..picture.width() {
        let upper = picture.is_black(row, col);
        let lower = is_lower_black(picture, row, col);
        text.push_str(pair_text(upper, lower))?;
    }
    text.push_str("\n")
}

// Returns whether there is a cell below this one and it is black.
fn is_lower_black(picture: &Picture, row: usize, col: usize) -> bool
    requires row { row < picture.now.height }
    requires col { col < picture.now.width }
    ensures { result ≡ lower_cell picture.now row col }
{
    let height = picture.height();
    row + 1 < height && picture.is_black(row + 1, col)
}

// Returns the character that shows two cells, one above the other.
fn pair_text(upper: bool, lower: bool) -> &'static str
    ensures { result.now ≡ pair_text upper lower }
{
    match (upper, lower) {
        (true, true) => "█",
        (true, false) => "▀",
        (false, true) => "▄",
        (false, false) => " ",
    }
}
