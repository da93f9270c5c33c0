//! The approximate minimum degree order.

ghost use Rattle.std.specs.Prelude.{◌≡◌, length, IfOk};

use crate::adjacency::Adjacency;
use crate::degree_lists::DegreeLists;
use crate::postorder::{AssemblyTree, postorder};
use crate::tested_order::tested_order;
use crate::words::{Word, fits_in_32_bits};
use sparse_pattern::pattern::SparsityPattern;
use sparse_permutation::permutation::Permutation;
use std::alloc::{AllocError, Global};

mod compaction;
mod element;
mod hash_buckets;
mod indistinguishable;
mod quotient_graph;
mod update;

use compaction::make_room;
use element::{finish_element, form_element};
use hash_buckets::HashBuckets;
use indistinguishable::merge_indistinguishable;
use quotient_graph::QuotientGraph;
use update::{measure_elements, update_degrees};

/// Returns an order of the rows and columns of a square pattern in which its Cholesky factor has little fill.
///
/// The first index of its order is that of the row and column to eliminate first. `major_dim()` must equal
/// `minor_dim()`. A pattern that is not symmetric is ordered as the union of itself and its transpose. Entries on the
/// diagonal make no difference.
///
/// Approximate minimum degree on the quotient graph (Amestoy, Davis and Duff, "An Approximate Minimum Degree Ordering
/// Algorithm", 1996), with aggressive absorption, mass elimination and indistinguishable variables found by hashing.
/// Rows with more than max(16, 10 √n) entries come last. Among the variables of least degree, the one whose degree was
/// computed last comes first, so the order depends on the pattern alone. It is a postorder of the assembly tree.
///
/// Memory is linear in the numbers of rows and entries. Time is close to linear in them on most patterns; no better
/// bound than their product is known. Fails only if an allocation fails.
///
/// # Examples
///
/// ```rust
/// fn the_hub_comes_last(alloc: Global) -> Result<bool, Fail> {
///     let offsets = Vec::from_slice(alloc, &[0, 3, 3, 3, 3])?;
///     let indices = Vec::from_slice(alloc, &[1, 2, 3])?;
///     let star = SparsityPattern::try_from_offsets_and_indices(4, 4, offsets, indices)?;
///     let order = minimum_degree(alloc, &star)?;
///     Ok(order.order() == [3, 2, 1, 0].as_slice())
/// }
/// ```
pub fn minimum_degree(alloc: Global, pattern: &SparsityPattern) -> Result<Permutation, AllocError>
    requires square { pattern.now.major_dim ≡ pattern.now.minor_dim }
    ensures { IfOk result (λ p. length p ≡ pattern.now.major_dim) }
{
    tested_order(
        alloc,
        least_degree_indices(alloc, pattern)?,
        pattern.major_dim(),
    )
}

/// Returns the indices in the order of [`minimum_degree`], before it is tested that the list is a permutation.
///
/// Fails only if an allocation fails.
pub fn least_degree_indices(
    alloc: Global,
    pattern: &SparsityPattern,
) -> Result<Vec<usize>, AllocError>
    requires square { pattern.now.major_dim ≡ pattern.now.minor_dim }
{
    let elbow_room = (pattern.nnz() / 5).saturating_add(pattern.major_dim());
    if fits_in_32_bits(pattern) {
        eliminate_all::<u32>(alloc, pattern, elbow_room)
    } else {
        eliminate_all::<usize>(alloc, pattern, elbow_room)
    }
}

/// Eliminates all variables, and returns them in a postorder of the assembly tree.
///
/// The lists of the quotient graph have room for `elbow_room` more elements than at the beginning. It should be at least
/// the number of rows. Fails only if an allocation fails.
pub fn eliminate_all<W: Word>(
    alloc: Global,
    pattern: &SparsityPattern,
    elbow_room: usize,
) -> Result<Vec<usize>, AllocError>
    requires square { pattern.now.major_dim ≡ pattern.now.minor_dim }
{
    let size = pattern.major_dim();
    let adjacency = Adjacency::<W>::new(alloc, pattern, elbow_room)?;
    let mut graph = QuotientGraph::new(alloc, adjacency, elbow_room)?;
    let mut lists = DegreeLists::new(alloc, size)?;
    let mut buckets = HashBuckets::new(alloc, size)?;
    graph.list_variables(&mut lists);
    for _ in 0..size {
        match lists.take_least(&mut graph.vertices) {
            Some(variable) => eliminate(&mut graph, &mut lists, &mut buckets, variable),
            None => break,
        }
    }
    let tree = AssemblyTree {
        parents: &graph.parents,
        vertices: &graph.vertices,
    };
    postorder(alloc, &tree)
}

// Eliminates a variable, which becomes an element.
fn eliminate<W: Word>(
    graph: &mut QuotientGraph<W>,
    lists: &mut DegreeLists<W>,
    buckets: &mut HashBuckets<W>,
    variable: usize,
) {
    make_room(graph, variable);
    let mut pivot = form_element(graph, lists, variable);
    measure_elements(graph, &pivot);
    update_degrees(graph, buckets, &mut pivot);
    merge_indistinguishable(graph, buckets, &pivot);
    finish_element(graph, lists, &pivot);
}
