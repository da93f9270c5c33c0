//! Symbolic factorisations.

ghost use Rattle.std.specs.Prelude.{◌≡◌, ℕ, ◌+◌, ◌≤◌, ◌↔◌, List, length, IfOk, OnOk, IsTrue};
ghost use Rattle.sparse_pattern.specs.Raw.{IsValid, IsEntry, nnz_of, HasSameEntries};
ghost use Rattle.sparse_factor.specs.Fill.{InFill, UpperBase, LowerBase, TriangleBase};
ghost use Rattle.sparse_factor.specs.Fill.{StoresByColumns, ListsFill};
ghost use Rattle.sparse_factor.specs.Symbolic.{Symbolic, symbolic_eq, IsFactorOf};
ghost use Rattle.sparse_factor.specs.declared.factorization.Triangle.{Triangle};
ghost use Rattle.sparse_factor.specs.FillPaths.{StoresFillPaths, StoresDiagonal};
ghost use Rattle.sparse_factor.specs.Fill.{Filled};

use sparse_algebra::recall;
use sparse_coo_dense::steps::Steps;
use sparse_pattern::counting::Count;
use sparse_pattern::pattern::SparsityPattern;
use sparse_sums::spadd_pattern;
use std::alloc::{AllocError, Global};
use std::marker::Model;

mod columns;

use columns::merged_columns;

// The largest number of columns for which scratch arrays use 32-bit numbers.
const MAX_32_BITS: usize = u32::MAX as usize;

/// The triangle of a square pattern that a symbolic factorisation starts from.
#[derive(Clone, Copy, Debug, PartialEq, Eq)]
pub enum Triangle {
    /// The entries on and above the diagonal.
    Upper,
    /// The entries on and below the diagonal.
    Lower,
    /// All entries.
    Both,
}

/// The symbolic Cholesky factorisation of a square pattern, stored by columns: the pattern itself and the pattern of
/// its factor L.
///
/// # Examples
///
/// ```rust
/// fn a_factor_fills_in(alloc: Global) -> Result<bool, Fail> {
///     let offsets = Vec::from_slice(alloc, &[0, 1, 3, 5])?;
///     let indices = Vec::from_slice(alloc, &[0, 0, 1, 0, 2])?;
///     let pattern = SparsityPattern::try_from_offsets_and_indices(3, 3, offsets, indices)?;
///     let factor = CscSymbolicCholesky::factor(alloc, pattern)?;
///     Ok(factor.l_pattern().minor_indices() == [0, 1, 2, 1, 2, 2].as_slice())
/// }
/// ```
#[derive(Debug, Drop)]
pub struct CscSymbolicCholesky {
    pattern: SparsityPattern,
    l_pattern: SparsityPattern,
}

impl Model for CscSymbolicCholesky {
    ghost use Rattle.sparse_factor.specs.Symbolic.{Symbolic, symbolic_of};

    ghost Value = { Symbolic };

    ghost view = { λ s. symbolic_of s.pattern s.l_pattern };
}

impl CscSymbolicCholesky {
    /// Returns the symbolic factorisation of a square pattern, read by columns.
    ///
    /// `pattern.major_dim()` must equal `pattern.minor_dim()`. All entries are read, but only those on and above the
    /// diagonal have an effect, so the pattern need not be symmetric, and its diagonal need not be stored. The pattern
    /// of the factor is the smallest set of pairs (row, column) that contains (c, r) for each stored row `r <= c` of
    /// each column c, and that contains (i, j) whenever it contains (i, k) and (j, k) with `k < j <= i`.
    ///
    /// Each column is merged from its own entries and from its children in the elimination tree (left-looking; Rose,
    /// Tarjan and Lueker 1976, George and Liu 1981, Davis 2006). Time is linear in the number of columns and in the
    /// numbers of entries of the pattern and of the factor, except that in each column the rows that come from the
    /// pattern and from all children but the longest are sorted, each row once. Scratch memory is one transpose of the
    /// pattern, three counters for each column, and room for at most two columns. Fails only if an allocation fails.
    pub fn factor(alloc: Global, pattern: SparsityPattern) -> Result<Self, AllocError>
        requires square { pattern.major_dim ≡ pattern.minor_dim }
        ensures input { IfOk result (λ s. s.input ≡ pattern) }
        ensures rows { IfOk result (λ s. s.factor.minor_dim ≡ pattern.minor_dim) }
        ensures columns { IfOk result (λ s. s.factor.major_dim ≡ pattern.major_dim) }
        ensures fill { IfOk result (λ s. StoresByColumns (InFill (UpperBase pattern)) s.factor) }
        ensures fill_paths { IfOk result (λ s. StoresFillPaths (UpperBase pattern) s.factor) }
        ensures diagonal { IfOk result (λ s. StoresDiagonal (UpperBase pattern) s.factor) }
        ensures valid { IfOk result (λ s. IsValid s.factor) }
    {
        Self::factor_triangle(alloc, pattern, Triangle::Upper)
    }

    /// Returns the symbolic factorisation that starts from the given triangle of a square pattern, read by columns.
    ///
    /// `pattern.major_dim()` must equal `pattern.minor_dim()`. The pattern of the factor is the smallest set of pairs
    /// (row, column) that contains the base of the triangle, and that contains (i, j) whenever it contains (i, k) and
    /// (j, k) with `k < j <= i`. The base of the upper triangle is (c, r) for each stored row `r <= c` of each column
    /// c, that of the lower triangle is (r, c) for each stored row `r >= c`, and that of both is their union.
    ///
    /// [`CscSymbolicCholesky::factor`] starts from the upper triangle, and has the same cost and errors. The lower
    /// triangle needs no scratch memory for a transpose of the pattern; both triangles need the union of the pattern
    /// and its transpose as well.
    ///
    /// # Examples
    ///
    /// ```rust
    /// fn a_lower_triangle_fills_in(alloc: Global) -> Result<bool, Fail> {
    ///     let offsets = Vec::from_slice(alloc, &[0, 3, 4, 5])?;
    ///     let indices = Vec::from_slice(alloc, &[0, 1, 2, 1, 2])?;
    ///     let pattern = SparsityPattern::try_from_offsets_and_indices(3, 3, offsets, indices)?;
    ///     let factor = CscSymbolicCholesky::factor_triangle(alloc, pattern, Triangle::Lower)?;
    ///     Ok(factor.l_pattern().minor_indices() == [0, 1, 2, 1, 2, 2].as_slice())
    /// }
    /// ```
    pub fn factor_triangle(
        alloc: Global,
        pattern: SparsityPattern,
        triangle: Triangle,
    ) -> Result<Self, AllocError>
        requires square { pattern.major_dim ≡ pattern.minor_dim }
        ensures input { IfOk result (λ s. s.input ≡ pattern) }
        ensures rows { IfOk result (λ s. s.factor.minor_dim ≡ pattern.minor_dim) }
        ensures columns { IfOk result (λ s. s.factor.major_dim ≡ pattern.major_dim) }
        ensures fill { IfOk result (λ s.
            StoresByColumns (InFill (TriangleBase triangle pattern)) s.factor) }
        ensures fill_paths { IfOk result (λ s. StoresFillPaths (TriangleBase triangle pattern) s.factor) }
        ensures diagonal { IfOk result (λ s.
            StoresDiagonal (TriangleBase triangle pattern) s.factor) }
        ensures valid { IfOk result (λ s. IsValid s.factor) }
    {
        let l_pattern = fill_of(alloc, &pattern, triangle)?;
        Ok(CscSymbolicCholesky { pattern, l_pattern })
    }

    /// Does the same as [`CscSymbolicCholesky::factor`] and counts the steps: one for each entry of the pattern, and
    /// one for each entry of a finished column that is merged into the column's parent in the elimination tree.
    ///
    /// The count grows by at most the number of entries of the pattern plus that of the factor, even if an allocation
    /// fails. Fails only if an allocation fails.
    pub fn factor_counted(
        alloc: Global,
        pattern: SparsityPattern,
        steps: &mut Steps,
    ) -> Result<Self, AllocError>
        requires square { pattern.major_dim ≡ pattern.minor_dim }
        ensures input { IfOk result (λ s. s.input ≡ pattern) }
        ensures rows { IfOk result (λ s. s.factor.minor_dim ≡ pattern.minor_dim) }
        ensures columns { IfOk result (λ s. s.factor.major_dim ≡ pattern.major_dim) }
        ensures fill { IfOk result (λ s. StoresByColumns (InFill (UpperBase pattern)) s.factor) }
        ensures fill_paths { IfOk result (λ s. StoresFillPaths (UpperBase pattern) s.factor) }
        ensures diagonal { IfOk result (λ s. StoresDiagonal (UpperBase pattern) s.factor) }
        ensures valid { IfOk result (λ s. IsValid s.factor) }
        ensures all_read { OnOk result (steps.old + nnz_of pattern ≤ steps.new) }
        ensures no_more { (fill : List (ℕ × ℕ)) → ListsFill (UpperBase pattern) fill
            → steps.new ≤ steps.old + nnz_of pattern + length fill }
    {
        let l_pattern = fill_of_upper(alloc, &pattern, steps)?;
        Ok(CscSymbolicCholesky { pattern, l_pattern })
    }

    /// Returns the pattern of the factor, stored by columns.
    pub fn l_pattern(&self) -> &SparsityPattern
        ensures { result.now ≡ self.now.factor }
    {
        &self.l_pattern
    }

    /// Returns the pattern of the factor, and drops the pattern that was factored.
    ///
    /// # Examples
    ///
    /// ```rust
    /// fn a_factor_is_taken_out(alloc: Global) -> Result<bool, Fail> {
    ///     let pattern = SparsityPattern::zeros(alloc, 2, 2)?;
    ///     let l_pattern = CscSymbolicCholesky::factor(alloc, pattern)?.into_l_pattern();
    ///     Ok(l_pattern.major_offsets() == [0, 0, 0].as_slice())
    /// }
    /// ```
    pub fn into_l_pattern(self) -> SparsityPattern
        ensures { result ≡ self.factor }
    {
        self.l_pattern
    }

    /// Returns a copy of the pattern and of the factor. Fails only if an allocation fails.
    pub fn clone(&self, alloc: Global) -> Result<Self, AllocError>
        ensures { IfOk result (λ s. s ≡ self.now) }
    {
        Ok(CscSymbolicCholesky {
            pattern: self.pattern.clone(alloc)?,
            l_pattern: self.l_pattern.clone(alloc)?,
        })
    }
}

// Returns the fill of the given triangle of a pattern.
fn fill_of(
    alloc: Global,
    pattern: &SparsityPattern,
    triangle: Triangle,
) -> Result<SparsityPattern, AllocError>
    requires square { pattern.now.major_dim ≡ pattern.now.minor_dim }
    ensures rows { IfOk result (λ l. l.minor_dim ≡ pattern.now.minor_dim) }
    ensures columns { IfOk result (λ l. l.major_dim ≡ pattern.now.major_dim) }
    ensures entries { IfOk result (λ l. (i j : ℕ)
        → IsEntry l j i ↔ Filled (TriangleBase triangle pattern.now) i j) }
    ensures valid { IfOk result IsValid }
{
    match triangle {
        Triangle::Upper => fill_of_upper(alloc, pattern, &mut Steps::new()),
        Triangle::Lower => fill_below(alloc, pattern, &mut Steps::new()),
        Triangle::Both => {
            let both = spadd_pattern(alloc, pattern, &pattern.transpose(alloc)?)?;
            fill_below(alloc, &both, &mut Steps::new())
        }
    }
}

// Returns the fill of the upper triangle of a pattern, which is the lower triangle of the transpose. Counts a step for
// each entry of the pattern, and for each entry of a finished column that is merged into the column's parent.
fn fill_of_upper(
    alloc: Global,
    pattern: &SparsityPattern,
    steps: &mut Steps,
) -> Result<SparsityPattern, AllocError>
    requires square { pattern.now.major_dim ≡ pattern.now.minor_dim }
    ensures rows { IfOk result (λ l. l.minor_dim ≡ pattern.now.minor_dim) }
    ensures columns { IfOk result (λ l. l.major_dim ≡ pattern.now.major_dim) }
    ensures entries { IfOk result (λ l. (i j : ℕ)
        → IsEntry l j i ↔ Filled (UpperBase pattern.now) i j) }
    ensures valid { IfOk result IsValid }
    ensures all_read { OnOk result (steps.old + nnz_of pattern.now ≤ steps.new) }
    ensures no_more { (fill : List (ℕ × ℕ)) → ListsFill (UpperBase pattern.now) fill
        → steps.new ≤ steps.old + nnz_of pattern.now + length fill }
{
    // Tells the prover that the pattern is valid.
    recall(pattern.major_offsets());
    let mirrored = pattern.transpose(alloc)?;
    fill_below(alloc, &mirrored, steps)
}

// Returns the fill of the lower triangle of `base`. The scratch arrays have 32-bit elements if the number of columns
// fits.
fn fill_below(
    alloc: Global,
    base: &SparsityPattern,
    steps: &mut Steps,
) -> Result<SparsityPattern, AllocError>
    requires square { base.now.major_dim ≡ base.now.minor_dim }
    ensures rows { IfOk result (λ l. l.minor_dim ≡ base.now.minor_dim) }
    ensures columns { IfOk result (λ l. l.major_dim ≡ base.now.major_dim) }
    ensures entries { IfOk result (λ l. (i j : ℕ)
        → IsEntry l j i ↔ Filled (LowerBase base.now) i j) }
    ensures valid { IfOk result IsValid }
    ensures all_read { OnOk result (steps.old + nnz_of base.now ≤ steps.new) }
    ensures no_more { (fill : List (ℕ × ℕ)) → ListsFill (LowerBase base.now) fill
        → steps.new ≤ steps.old + nnz_of base.now + length fill }
{
    if MAX_32_BITS < base.major_dim() {
        merged_columns::<usize>(alloc, base, steps)
    } else {
        merged_columns::<u32>(alloc, base, steps)
    }
}

/// Two symbolic factorisations of the same pattern from the same triangle are `==`.
///
/// So `factor_triangle(alloc, pattern, Triangle::Upper)` is `==` to `factor(alloc, pattern)`.
pub fn one_factor()
    ensures { (triangle : Triangle) (s t : Symbolic) → s.input ≡ t.input → IsFactorOf triangle s
        → IsFactorOf triangle t → IsTrue (symbolic_eq s t) }
{}

impl PartialEq for CscSymbolicCholesky {
    ghost use Rattle.std.specs.Cmp.Rules.{comparing};
    ghost use Rattle.std.proofs.Common.{rules};
    ghost use Rattle.sparse_factor.specs.Symbolic.{symbolic_eq};

    ghost eq = { symbolic_eq };

    ghost laws = { Prim.search (comparing, rules) };

    fn eq(&self, other: &Self) -> bool
        ensures value { result ≡ symbolic_eq self.now other.now }
        ensures entries { IsTrue result ↔ (HasSameEntries self.now.input other.now.input
            × HasSameEntries self.now.factor other.now.factor) }
    {
        self.pattern == other.pattern && self.l_pattern == other.l_pattern
    }
}

impl Eq for CscSymbolicCholesky {
    ghost use Rattle.std.specs.Cmp.Rules.{comparing};
    ghost use Rattle.std.proofs.Common.{rules};

    ghost laws = { Prim.search (comparing, rules) };
}
