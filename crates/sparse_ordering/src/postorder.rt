//! A postorder of a forest.

use crate::vertices::Vertices;
use crate::words::{Word, at, filled, set};
use std::alloc::{AllocError, Global};

// A forest on the vertices below a number, as a tree whose root is that number. The children of each vertex are a
// linked list, which that number ends.
#[derive(Drop)]
struct Forest<W: Word> {
    vertex_count: usize,
    // The first child of each vertex that was not yet visited.
    heads: Vec<W>,
    nexts: Vec<W>,
}

// What the vertices of an assembly tree are. A vertex of weight 0 is a variable that was merged into its parent. Any
// other one is an element: it stands for `weight` columns of the factor, and `degree` rows are below these.
#[derive(Drop)]
pub(crate) struct AssemblyTree<'a, W: Word> {
    pub(crate) parents: &'a [W],
    pub(crate) vertices: &'a Vertices<W>,
}

// Returns the vertices of an assembly tree in postorder: each vertex comes after its children, and among the children
// of one vertex the elements come before the variables, the one of the largest front last.
//
// The parent of a root must be the number of vertices. Time is linear in that number. Fails only if an allocation
// fails.
pub(crate) fn postorder<W: Word>(
    alloc: Global,
    tree: &AssemblyTree<'_, W>,
) -> Result<Vec<usize>, AllocError> {
    let vertex_count = tree.parents.len();
    let largest = largest_children(alloc, tree)?;
    let mut forest = Forest {
        vertex_count,
        heads: filled(alloc, vertex_count.saturating_add(1), vertex_count)?,
        nexts: filled(alloc, vertex_count, vertex_count)?,
    };
    // A vertex is linked in front of those that were linked before.
    forest.link_variables(tree);
    forest.link_elements(tree, &largest, true);
    forest.link_elements(tree, &largest, false);
    forest.walk(alloc, tree.parents)
}

// Returns for each vertex its child element whose front is the largest, the last one of these. A front has a row for
// each column of the element and each row below.
fn largest_children<W: Word>(
    alloc: Global,
    tree: &AssemblyTree<'_, W>,
) -> Result<Vec<W>, AllocError> {
    let vertex_count = tree.parents.len();
    let mut largest = filled(alloc, vertex_count.saturating_add(1), vertex_count)?;
    for vertex in 0..vertex_count {
        let parent = at(tree.parents, vertex);
        if front(tree, at::<W>(&largest, parent)) <= front(tree, vertex) {
            set(&mut largest, parent, vertex);
        }
    }
    Ok(largest)
}

// Returns the number of rows of the front of a vertex; 0 for a variable, and for the root above the roots.
fn front<W: Word>(tree: &AssemblyTree<'_, W>, vertex: usize) -> usize {
    let vertex = tree.vertices.get(vertex);
    match vertex.weight {
        0 => 0,
        weight => weight.saturating_add(vertex.degree),
    }
}

impl<W: Word> Forest<W> {
    fn link(&mut self, vertex: usize, parent: usize) {
        set(&mut self.nexts, vertex, at(&self.heads, parent));
        set(&mut self.heads, parent, vertex);
    }

    fn link_variables(&mut self, tree: &AssemblyTree<'_, W>) {
        for vertex in (0..self.vertex_count).rev() {
            if tree.vertices.get(vertex).weight == 0 {
                self.link(vertex, at(tree.parents, vertex));
            }
        }
    }

    // Links the elements that are the largest child of their parent, or the others.
    fn link_elements(&mut self, tree: &AssemblyTree<'_, W>, largest: &[W], is_largest: bool) {
        for vertex in (0..self.vertex_count).rev() {
            let parent = at(tree.parents, vertex);
            if tree.vertices.get(vertex).weight != 0
                && (at(largest, parent) == vertex) == is_largest
            {
                self.link(vertex, parent);
            }
        }
    }

    // Returns the vertices in postorder. Each vertex is entered once and left once.
    fn walk(mut self, alloc: Global, parents: &[W]) -> Result<Vec<usize>, AllocError> {
        let mut order = Vec::with_capacity(alloc, self.vertex_count)?;
        let mut vertex = self.vertex_count;
        for _ in 0..self.vertex_count.saturating_mul(2) {
            let child = at(&self.heads, vertex);
            if child < self.vertex_count {
                set(&mut self.heads, vertex, at(&self.nexts, child));
                vertex = child;
            } else {
                order.push(vertex)?;
                vertex = at(parents, vertex);
            }
        }
        Ok(order)
    }
}
