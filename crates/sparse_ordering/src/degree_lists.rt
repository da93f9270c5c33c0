//! Vertices listed by their degrees.

use crate::vertices::Vertices;
use crate::words::{Word, at, filled, set};
use std::alloc::{AllocError, Global};

// A doubly linked list of vertices for each degree below the number of vertices. That number ends a list.
#[derive(Drop)]
pub(crate) struct DegreeLists<W: Word> {
    vertex_count: usize,
    // The first vertex of each degree.
    heads: Vec<W>,
    // No vertex of a smaller degree is listed.
    least: usize,
}

impl<W: Word> DegreeLists<W> {
    // Returns empty lists.
    pub(crate) fn new(alloc: Global, vertex_count: usize) -> Result<DegreeLists<W>, AllocError> {
        Ok(DegreeLists {
            vertex_count,
            heads: filled(alloc, vertex_count, vertex_count)?,
            least: vertex_count,
        })
    }

    // Lists a vertex, in front of the others of its degree.
    pub(crate) fn insert(&mut self, vertices: &mut Vertices<W>, vertex: usize, degree: usize) {
        let next = at(&self.heads, degree);
        vertices.set_previous(next, vertex);
        vertices.set_next(vertex, next);
        vertices.set_previous(vertex, self.vertex_count);
        set(&mut self.heads, degree, vertex);
        self.least = self.least.min(degree);
    }

    // Removes a vertex, which must be listed with this degree.
    #[inline(always)]
    pub(crate) fn remove(&mut self, vertices: &mut Vertices<W>, vertex: usize, degree: usize) {
        let links = vertices.get(vertex);
        vertices.set_previous(links.next, links.previous);
        if links.previous < self.vertex_count {
            vertices.set_next(links.previous, links.next);
        } else {
            set(&mut self.heads, degree, links.next);
        }
    }

    // Removes and returns the vertex of least degree that was listed last, or `None` if the lists are empty.
    pub(crate) fn take_least(&mut self, vertices: &mut Vertices<W>) -> Option<usize> {
        for degree in self.least..self.vertex_count {
            let vertex = at(&self.heads, degree);
            if vertex < self.vertex_count {
                self.least = degree;
                self.remove(vertices, vertex, degree);
                return Some(vertex);
            }
        }
        None
    }
}
