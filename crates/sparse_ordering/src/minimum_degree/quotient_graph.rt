//! The quotient graph: what is left of a graph after the elimination of some vertices.

use crate::adjacency::Adjacency;
use crate::degree_lists::DegreeLists;
use crate::vertices::{Vertex, Vertices};
use crate::words::{Word, filled, set};
use std::alloc::{AllocError, Global};

// A vertex is a variable until it is eliminated; then it is an element, which stands for a clique of its variables. So
// two variables are adjacent if one lists the other or if both list the same element.
//
// A variable stands for `weight` indistinguishable ones, which were merged into it or are itself. A merged one has the
// weight 0, and so has a dense one, which is set aside. A variable of the element that is being formed has its weight
// plus `size`.
#[derive(Drop)]
pub(super) struct QuotientGraph<W: Word> {
    // The number of vertices.
    pub(super) size: usize,
    // The number of variables that are neither eliminated nor set aside, by weight.
    pub(super) remaining: usize,
    // The list of each variable, first elements and then variables, and the variables of each element.
    pub(super) lists: Vec<W>,
    // The end of the used part of `lists`.
    pub(super) used: usize,
    // The stamp of an absorbed element is 0, and that of any other vertex at least 1. The list of an absorbed element
    // or of a merged variable is empty.
    pub(super) vertices: Vertices<W>,
    // Greater than each stamp between two steps. What greater stamps mean depends on the step.
    pub(super) stamp: usize,
    // The greatest degree of an element so far.
    pub(super) largest_degree: usize,
    // The element that absorbed each element, the vertex into which each variable was merged, or `size`.
    pub(super) parents: Vec<W>,
}

impl<W: Word> QuotientGraph<W> {
    // Returns the quotient graph in which all vertices are variables, with room for `elbow_room` further elements of
    // lists.
    pub(super) fn new(
        alloc: Global,
        adjacency: Adjacency<W>,
        elbow_room: usize,
    ) -> Result<QuotientGraph<W>, AllocError> {
        let vertices = Vertices::new(alloc, &adjacency)?;
        let Adjacency {
            neighbours: mut lists,
            ..
        } = adjacency;
        let (size, used) = (vertices.count(), lists.len());
        lists.resize(used.saturating_add(elbow_room), W::of(0))?;
        Ok(QuotientGraph {
            size,
            remaining: size,
            lists,
            used,
            vertices,
            stamp: 2,
            largest_degree: 0,
            parents: filled(alloc, size, size)?,
        })
    }

    // Lists each variable by its degree. One without neighbours is eliminated at once, and a dense one is set aside.
    pub(super) fn list_variables(&mut self, lists: &mut DegreeLists<W>) {
        let dense = self.size.saturating_mul(100).isqrt().max(16);
        for variable in 0..self.size {
            let degree = self.vertex(variable).degree;
            if degree == 0 {
                self.vertices.set_stamp(variable, 0);
                self.remaining = self.remaining.wrapping_sub(1);
            } else if dense < degree {
                self.drop_variable(variable, self.size);
                self.remaining = self.remaining.wrapping_sub(1);
            } else {
                lists.insert(&mut self.vertices, variable, degree);
            }
        }
    }

    #[inline(always)]
    pub(super) fn vertex(&self, vertex: usize) -> Vertex {
        self.vertices.get(vertex)
    }

    // Returns whether a variable of this weight is neither merged nor in the element that is being formed.
    #[inline(always)]
    pub(super) fn is_outside(&self, weight: usize) -> bool {
        weight.wrapping_sub(1) < self.size
    }

    // Returns the weight of a variable of the element that is being formed.
    #[inline(always)]
    pub(super) fn inner_weight(&self, variable: usize) -> usize {
        self.vertex(variable).weight.wrapping_sub(self.size)
    }

    // Merges a variable of the element that is being formed into another one.
    pub(super) fn merge_variable(&mut self, variable: usize, into: usize) {
        let weight = self.vertex(into).weight;
        let sum = weight.wrapping_add(self.inner_weight(variable));
        self.vertices.set_weight(into, sum);
        self.drop_variable(variable, into);
    }

    // Removes a variable, which is merged into `parent`.
    pub(super) fn drop_variable(&mut self, variable: usize, parent: usize) {
        set(&mut self.parents, variable, parent);
        self.vertices.set_weight(variable, 0);
        self.vertices.set_length(variable, 0);
    }

    // Removes an element, which `parent` absorbs.
    #[inline(always)]
    pub(super) fn absorb_element(&mut self, element: usize, parent: usize) {
        set(&mut self.parents, element, parent);
        self.vertices.set_stamp(element, 0);
        self.vertices.set_length(element, 0);
    }

    // Makes `stamp` greater than all stamps, with room for those of one pivot above it.
    pub(super) fn renew_stamps(&mut self) {
        if W::greatest().saturating_sub(self.stamp) < self.size.saturating_mul(3) {
            self.stamp = 2;
            self.reset_stamps();
        }
    }

    fn reset_stamps(&mut self) {
        for vertex in 0..self.size {
            let stamp = self.vertex(vertex).stamp;
            self.vertices.set_stamp(vertex, stamp.min(1));
        }
    }
}
