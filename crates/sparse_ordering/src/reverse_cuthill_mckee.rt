//! The reverse Cuthill-McKee order.

ghost use Rattle.std.specs.Prelude.{◌≡◌, length, IfOk};

use crate::adjacency::Adjacency;
use crate::breadth_first::BreadthFirst;
use crate::tested_order::tested_order;
use crate::words::{Word, fits_in_32_bits};
use sparse_pattern::pattern::SparsityPattern;
use sparse_permutation::permutation::Permutation;
use std::alloc::{AllocError, Global};

/// Returns an order of the rows and columns of a square pattern that brings its entries close to the diagonal.
///
/// The first index of its order is that of the row and column that comes first. `major_dim()` must equal
/// `minor_dim()`. A pattern that is not symmetric is ordered as the union of itself and its transpose. Entries on the
/// diagonal make no difference.
///
/// Each connected component, in order of its least index, is searched breadth first from a pseudo-peripheral vertex
/// (George and Liu, "An Implementation of a Pseudoperipheral Node Finder", 1979), neighbours by increasing degree and
/// those of one degree by index (Cuthill and McKee, "Reducing the Bandwidth of Sparse Symmetric Matrices", 1969). The
/// order is the reverse of that (George, "Computer Implementation of the Finite Element Method", 1971).
///
/// Memory is linear in the numbers of rows and entries, and so is the time of a search of all components. A component
/// is searched at least twice, mostly a few times, and at most once more than it has vertices. Fails only if an
/// allocation fails.
///
/// # Examples
///
/// ```rust
/// fn a_path_is_straightened(alloc: Global) -> Result<bool, Fail> {
///     // The path 0 - 2 - 1 - 3.
///     let offsets = Vec::from_slice(alloc, &[0, 1, 2, 3, 3])?;
///     let indices = Vec::from_slice(alloc, &[2, 3, 1])?;
///     let path = SparsityPattern::try_from_offsets_and_indices(4, 4, offsets, indices)?;
///     let order = reverse_cuthill_mckee(alloc, &path)?;
///     Ok(order.order() == [0, 2, 1, 3].as_slice())
/// }
/// ```
pub fn reverse_cuthill_mckee(
    alloc: Global,
    pattern: &SparsityPattern,
) -> Result<Permutation, AllocError>
    requires square { pattern.now.major_dim ≡ pattern.now.minor_dim }
    ensures { IfOk result (λ p. length p ≡ pattern.now.major_dim) }
{
    tested_order(alloc, narrow_indices(alloc, pattern)?, pattern.major_dim())
}

/// Returns the indices in the order of [`reverse_cuthill_mckee`], before it is tested that the list is a permutation.
///
/// Fails only if an allocation fails.
pub fn narrow_indices(alloc: Global, pattern: &SparsityPattern) -> Result<Vec<usize>, AllocError>
    requires square { pattern.now.major_dim ≡ pattern.now.minor_dim }
{
    if fits_in_32_bits(pattern) {
        search_all::<u32>(alloc, pattern)
    } else {
        search_all::<usize>(alloc, pattern)
    }
}

// Searches all components.
fn search_all<W: Word>(alloc: Global, pattern: &SparsityPattern) -> Result<Vec<usize>, AllocError>
    requires square { pattern.now.major_dim ≡ pattern.now.minor_dim }
{
    let size = pattern.major_dim();
    let graph = Adjacency::<W>::new(alloc, pattern, 0)?.sorted_by_degree(alloc)?;
    let mut search = BreadthFirst::new(alloc, size)?;
    for vertex in 0..size {
        if !search.has_visited(vertex) {
            search_component(&graph, &mut search, vertex);
            search.finish_component();
        }
    }
    search.reversed(alloc)
}

// Searches the component of a vertex from a pseudo-peripheral one: each search begins at the vertex of least degree in
// the last level of the search before, until the number of levels does not grow.
fn search_component<W: Word>(graph: &Adjacency<W>, search: &mut BreadthFirst<W>, vertex: usize) {
    let mut levels = search.search_from(graph, vertex);
    for _ in 0..graph.size() {
        let far = search.least_of(graph, levels);
        let found = search.search_from(graph, far);
        if found.height <= levels.height {
            break;
        }
        levels = found;
    }
}
