//! The product row by row: the terms of a row are added in a scratch row and its column indices are collected in a bit
//! set, from which they are read in increasing order.

ghost use Rattle.std.specs.Prelude.{◌≡◌, ℕ, ◌<◌, ◌≤◌, ◌+◌, ◌↔◌, ◌++◌, [], ◌∷◌, length, drop, map};
ghost use Rattle.std.specs.Prelude.{All, IfOk, OnOk, slice_index_or, vec_len, vec_capacity};
ghost use Rattle.std.specs.List.Sorted.{IsStrictlyIncreasing};
ghost use Rattle.sparse_pattern.specs.InnerGainedLanes.{GainsLane};
ghost use Rattle.sparse_compressed.specs.Compressed.{IsSound, arrays_of};
ghost use Rattle.sparse_compressed.specs.PlainOfLanes.{plain_of_rows};
ghost use Rattle.sparse_products.specs.InnerIndexSets.{HasRoom, IsEmptyIndexSet};
ghost use Rattle.sparse_products.specs.InnerBits.{HasBit};
ghost use Rattle.sparse_products.specs.InnerOperands.{CanMultiply, product_of};
ghost use Rattle.sparse_products.specs.InnerProducts.{GainsExtracted, IsInRow, IsExtracted, IsZeroRow};

use super::accumulate::add_product_row;
use super::index_set::{IndexSet, push_lane};
use super::multiplicands::Matrices;
use super::scatter::zero_row;
use sparse_algebra::recall;
use sparse_algebra::scalar::Ring;
use sparse_compressed::CsMatrix;
use sparse_coo_dense::steps::Steps;
use sparse_pattern::pattern::SparsityPattern;
use std::alloc::{AllocError, Global};

// The number of entries of a product is estimated from about 64 rows, and from at most one row in 16.
const SAMPLED_ROWS: usize = 64;

const ROWS_FOR_A_SAMPLE: usize = 16;

// The first rows of a product, as the arrays of a compressed matrix.
#[derive(Drop)]
struct Rows<T> {
    offsets: Vec<usize>,
    indices: Vec<usize>,
    values: Vec<T>,
}

// Returns the product `a * b` of two matrices whose lanes are rows.
#[tactic(auto, using(sparse_algebra::proofs::EarlyReturns::early_return))]
pub(super) fn multiply_rows<T: Ring>(
    alloc: Global,
    matrices: Matrices<'_, T>,
) -> Result<CsMatrix<T>, AllocError>
    requires { CanMultiply matrices }
    ensures { IfOk result
        (λ m. plain_of_rows T.ring T.value m ≡ product_of T.ring T.value matrices.entry) }
{
    let (first, second) = (matrices.a.pattern(), matrices.b.pattern());
    let mut set = IndexSet::new(alloc, second.minor_dim())?;
    let mut row = zero_row(alloc, second.minor_dim())?;
    let room = estimate_nnz(alloc, first, second, &mut set)?;
    let mut rows = empty_rows(alloc, first.major_dim(), room)?;
    for i in 0..first.major_dim() {
        push_row(matrices, i, &mut set, &mut row, &mut rows)?;
    }
    Ok(into_matrix(rows, first.major_dim(), second.minor_dim()))
}

// Returns arrays of no rows, with capacity for `room` entries, or without capacity if that memory can't be had.
#[tactic(auto, using(sparse_algebra::proofs::EarlyReturns::early_return))]
fn empty_rows<T: Ring>(alloc: Global, major_dim: usize, room: usize) -> Result<Rows<T>, AllocError>
    ensures offsets { IfOk result (λ rows. rows.offsets.items ≡ 0 ∷ []) }
    ensures indices { IfOk result (λ rows. rows.indices.items ≡ []) }
    ensures values { IfOk result (λ rows. rows.values.items ≡ []) }
{
    let mut offsets = Vec::with_capacity(alloc, major_dim.saturating_add(1))?;
    offsets.push(0)?;
    Ok(Rows {
        offsets,
        indices: empty_with_capacity(alloc, room),
        values: empty_with_capacity(alloc, room),
    })
}

// Returns an empty vector with capacity for `room` elements, or without capacity if that memory can't be had.
fn empty_with_capacity<T>(alloc: Global, room: usize) -> Vec<T>
    ensures { result.items ≡ [] }
{
    let mut vector = Vec::new(alloc);
    let _ = vector.reserve_exact(room);
    vector
}

// Estimates the number of entries of the product: extrapolates from about 64 evenly spaced rows by the number of
// triples (i, k, j), adds an eighth, and returns at most one for each pair (i, j).
fn estimate_nnz(
    alloc: Global,
    a: &SparsityPattern,
    b: &SparsityPattern,
    set: &mut IndexSet,
) -> Result<usize, AllocError>
    requires inner { a.now.minor_dim ≡ b.now.major_dim }
    requires empty { IsEmptyIndexSet b.now.minor_dim set.old }
    ensures { OnOk result (IsEmptyIndexSet b.now.minor_dim set.new) }
{
    let all = count_indices(a.minor_indices(), b);
    let step = (a.major_dim() / SAMPLED_ROWS).max(ROWS_FOR_A_SAMPLE);
    let mut places = Vec::new(alloc);
    let mut triples = 0usize;
    let mut i = step / 2;
    while i < a.major_dim() {
        triples = triples.saturating_add(count_indices(a.lane(i), b));
        push_lane(a.lane(i), b, set, &mut places)?;
        i = i.saturating_add(step);
    }
    let times = all / triples.max(1);
    let guess = times.saturating_add(times / 8).saturating_mul(places.len());
    Ok(guess.min(a.major_dim().saturating_mul(b.minor_dim())))
}

// Returns the sum of the lengths of lane k of `b` for each k in `lane`.
fn count_indices(lane: &[usize], b: &SparsityPattern) -> usize
    requires { All (λ k. k < b.now.major_dim) lane.now }
{
    let offsets = b.major_offsets();
    let mut count = 0usize;
    for k in lane {
        count = count.saturating_add(offsets[*k + 1] - offsets[*k]);
    }
    count
}

// Appends row i of the product. The scratch set is empty and the scratch row is zero before and after. Inlined:
// otherwise calls take half of the time for short rows.
#[tactic(auto, using(sparse_algebra::proofs::EarlyReturns::early_return))]
#[inline(always)]
fn push_row<T: Ring>(
    matrices: Matrices<'_, T>,
    i: usize,
    set: &mut IndexSet,
    row: &mut [T],
    rows: &mut Rows<T>,
) -> Result<(), AllocError>
    requires inner { CanMultiply matrices }
    requires lane { i < matrices.a.now.pattern.major_dim }
    requires empty { IsEmptyIndexSet matrices.b.now.pattern.minor_dim set.old }
    requires width { length row.old ≡ matrices.b.now.pattern.minor_dim }
    requires zero { IsZeroRow T.ring T.value T.zero_value row.old }
    ensures empty { OnOk result (IsEmptyIndexSet matrices.entry.b.now.pattern.minor_dim set.new) }
    ensures zero { OnOk result (IsZeroRow T.ring T.value T.zero_value row.new) }
    ensures lane { OnOk result (GainsLane rows.old.indices.items rows.new.indices.items
        (IsInRow matrices.entry i)) }
    ensures offset { OnOk result (rows.new.offsets.items
        ≡ rows.old.offsets.items ++ length rows.new.indices.items ∷ []) }
    ensures values { OnOk result (GainsExtracted T.ring T.value T.zero_value
        rows.old.values.items rows.new.values.items
        (drop (length rows.old.indices.items) rows.new.indices.items)
        ((product_of T.ring T.value matrices.entry).value i)) }
{
    recall(matrices.a.values());
    recall(matrices.b.values());
    let begin = rows.indices.len();
    add_row(matrices, i, set, row);
    set.drain_into(&mut rows.indices)?;
    rows.offsets.push(rows.indices.len())?;
    let indices = &rows.indices[begin..];
    rows.values.reserve(indices.len())?;
    extract_values(indices, row, &mut rows.values);
    Ok(())
}

// Computes row i of the product in a scratch row of zeros, and collects its column indices in an empty set.
#[inline(always)]
fn add_row<T: Ring>(matrices: Matrices<'_, T>, i: usize, set: &mut IndexSet, row: &mut [T])
    requires inner { CanMultiply matrices }
    requires lane { i < matrices.a.now.pattern.major_dim }
    requires empty { IsEmptyIndexSet matrices.b.now.pattern.minor_dim set.old }
    requires width { length row.old ≡ matrices.b.now.pattern.minor_dim }
    requires zero { IsZeroRow T.ring T.value T.zero_value row.old }
    ensures room { (j : ℕ) → HasRoom set.old j → HasRoom set.new j }
    ensures met { (j : ℕ) → HasBit set.new.words.items j ↔ IsInRow matrices.entry i j }
    ensures added { (j : ℕ) → j < length row.old
        → T.value (slice_index_or row.new j T.zero_value)
        ≡ (product_of T.ring T.value matrices.entry).value i j }
    ensures bounded { (j : ℕ) → IsInRow matrices.entry i j → j < length row.old }
{
    recall(matrices.b.values());
    add_product_row(T::one(), matrices, i, set, row, &mut Steps::new());
}

// Appends the elements of the row at `indices` to `values`, which has capacity for them, and sets them to zero in the
// row.
fn extract_values<T: Ring>(indices: &[usize], row: &mut [T], values: &mut Vec<T>)
    requires rising { IsStrictlyIncreasing indices.now }
    requires inside { All (λ j. j < length row.old) indices.now }
    requires room { vec_len values.old + length indices.now ≤ vec_capacity values.old }
    ensures extracted { IsExtracted T.zero_value indices.now row.old row.new }
    ensures pushed { values.new.items ≡ values.old.items
        ++ map (λ j. slice_index_or row.old j T.zero_value) indices.now }
{
    for j in indices {
        values.push_reserved(row[*j]);
        row[*j] = T::zero();
    }
}

// Returns the matrix of the rows, and releases unused capacity.
fn into_matrix<T: Ring>(rows: Rows<T>, major_dim: usize, minor_dim: usize) -> CsMatrix<T>
    requires { IsSound (arrays_of major_dim minor_dim rows.offsets.items rows.indices.items
        rows.values.items) }
    ensures { result ≡ arrays_of major_dim minor_dim rows.offsets.items rows.indices.items
        rows.values.items }
{
    let Rows {
        offsets,
        mut indices,
        mut values,
    } = rows;
    indices.shrink_to_fit();
    values.shrink_to_fit();
    let pattern = SparsityPattern::from_offset_and_indices_unchecked(
        major_dim, minor_dim, offsets, indices,
    );
    CsMatrix::from_pattern_and_values(pattern, values)
}
