//! Pictures of patterns.

ghost use Rattle.std.specs.Prelude.{◌≡◌, ℕ, ◌+◌, ◌*◌, ◌<◌, ◌≤◌, ◌↔◌, IfOk, IsTrue, length, slice_index};
ghost use Rattle.mtxkit_matrices.specs.Pictures.{cell_of, count_at, is_black, entries_in, HasEntryIn};
ghost use Rattle.mtxkit_matrices.specs.LargestCounts.{largest};

use sparse_algebra::recall;
use sparse_pattern::pattern::SparsityPattern;
use std::alloc::{AllocError, Global};
use std::marker::Model;

/// A picture of a pattern: rows of cells, each with the number of entries that lie in it.
#[derive(Debug, Drop)]
pub struct Picture {
    height: usize,
    width: usize,
    counts: Vec<usize>,
}

impl Model for Picture {
    ghost use Rattle.std.specs.Prelude.{◌≡◌, ◌*◌, length};
    ghost use Rattle.mtxkit_matrices.specs.Pictures.{CellCounts, cell_counts};

    ghost Value = { CellCounts };

    ghost view = { λ p. cell_counts p.height p.width p.counts.items };

    ghost invariant = { λ p. length p.counts.items ≡ p.height * p.width };
}

impl Picture {
    /// Returns the number of rows of cells.
    pub fn height(&self) -> usize
        ensures { result ≡ self.now.height }
    {
        self.height
    }

    /// Returns the number of cells of a row.
    pub fn width(&self) -> usize
        ensures { result ≡ self.now.width }
    {
        self.width
    }

    /// Returns the number of entries in a cell. `row` must be less than `height()`, and `col` less than `width()`.
    pub fn count(&self, row: usize, col: usize) -> usize
        requires row { row < self.now.height }
        requires col { col < self.now.width }
        ensures { result ≡ count_at self.now row col }
    {
        self.counts[row * self.width + col]
    }

    /// Returns whether a cell is black, that is, whether an entry lies in it. `row` must be less than `height()`, and
    /// `col` less than `width()`.
    #[tactic(auto, unfolding(crate::specs::Pictures::is_black))]
    pub fn is_black(&self, row: usize, col: usize) -> bool
        requires row { row < self.now.height }
        requires col { col < self.now.width }
        ensures { result ≡ is_black self.now row col }
    {
        self.count(row, col) > 0
    }

    /// Returns the largest number of entries in a cell, or 0 if there is no cell.
    pub fn largest_count(&self) -> usize
        ensures { result ≡ largest self.now.counts }
    {
        let mut most = 0;
        for count in &self.counts {
            most = most.max(*count);
        }
        most
    }
}

/// Returns a picture of the pattern, `height` cells high and `width` cells wide.
///
/// An entry in lane i with minor index j lies in row i * height / major_dim and column j * width / minor_dim, both
/// rounded down. Linear in the numbers of entries and cells. Fails only if an allocation fails.
pub fn draw(
    alloc: Global,
    pattern: &SparsityPattern,
    height: usize,
    width: usize,
) -> Result<Picture, AllocError>
    ensures height { IfOk result (λ p. p.height ≡ height) }
    ensures width { IfOk result (λ p. p.width ≡ width) }
    ensures cells { IfOk result (λ p. length p.counts ≡ height * width) }
    ensures counts { IfOk result (λ p. (r c : ℕ) → r < height → c < width
        → count_at p r c ≡ entries_in pattern.now height width r c) }
    ensures black { IfOk result (λ p. (r c : ℕ) → r < height → c < width
        → IsTrue (is_black p r c) ↔ HasEntryIn pattern.now height width r c) }
{
    recall(pattern.major_offsets());
    let count = height.checked_mul(width).ok_or(AllocError)?;
    let mut counts = vec![in alloc; 0; count]?;
    count_entries(&mut counts, pattern, height, width);
    Ok(Picture {
        height,
        width,
        counts,
    })
}

// Counts the entries in each cell. All counts must be 0.
fn count_entries(counts: &mut [usize], pattern: &SparsityPattern, height: usize, width: usize)
    requires cells { length counts.old ≡ height * width }
    requires zeros { (q : ℕ) → slice_index counts.old q ≡ 0 }
    ensures cells { length counts.new ≡ length counts.old }
    ensures counted { (r c : ℕ) → r < height → c < width → slice_index counts.new (r * width + c)
        ≡ entries_in pattern.now height width r c }
{
    recall(pattern.major_offsets());
    recall(pattern.nnz());
    for (lane, index) in pattern.entries() {
        let row = cell_of(lane, pattern.major_dim(), height);
        let col = cell_of(index, pattern.minor_dim(), width);
        if row < height && col < width {
            counts[row * width + col] += 1;
        }
    }
}

// Returns the number of the cell in which an index below `size` lies, if `cells` cells stand for `size` indices.
fn cell_of(index: usize, size: usize, cells: usize) -> usize
    requires { index < size }
    ensures { result ≡ cell_of size cells index }
{
    let cell = (index as u128) * (cells as u128) / (size as u128);
    cell as usize
}
