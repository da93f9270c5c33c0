//! Breadth-first search, one component after another.

use crate::adjacency::Adjacency;
use crate::words::{Word, at, filled, run_of, set};
use std::alloc::{AllocError, Global};

// A search visits the vertices of a component level by level. The queue holds the finished components and then the
// component that is searched.
#[derive(Drop)]
pub(crate) struct BreadthFirst<W: Word> {
    // The vertices in the order in which they are visited, from `begin` on those of the last search.
    queue: Vec<W>,
    begin: usize,
    end: usize,
    // The number of the search that visited each vertex last, or 0.
    visits: Vec<W>,
    search: usize,
}

// The levels of a search: their number less one, and where the last one begins in the queue.
#[derive(Clone, Copy)]
pub(crate) struct Levels {
    pub(crate) height: usize,
    pub(crate) last: usize,
}

impl<W: Word> BreadthFirst<W> {
    pub(crate) fn new(alloc: Global, vertex_count: usize) -> Result<BreadthFirst<W>, AllocError> {
        Ok(BreadthFirst {
            queue: filled(alloc, vertex_count, 0)?,
            begin: 0,
            end: 0,
            visits: filled(alloc, vertex_count, 0)?,
            search: 0,
        })
    }

    // Returns whether a search has visited the vertex.
    pub(crate) fn has_visited(&self, vertex: usize) -> bool {
        at(&self.visits, vertex) != 0
    }

    // Visits the component of a vertex. The neighbours of each vertex are visited in the order of its list.
    pub(crate) fn search_from(&mut self, graph: &Adjacency<W>, root: usize) -> Levels {
        self.search = self.search.wrapping_add(1);
        self.end = self.begin;
        self.visit(root);
        let mut levels = Levels {
            height: 0,
            last: self.begin,
        };
        let mut next_level = self.end;
        for offset in self.begin..self.queue.len() {
            if offset == self.end {
                break;
            }
            if offset == next_level {
                levels.height = levels.height.wrapping_add(1);
                levels.last = offset;
                next_level = self.end;
            }
            let vertex = at(&self.queue, offset);
            self.visit_neighbours(graph, vertex);
        }
        levels
    }

    // Appends a vertex to the queue, unless this search has visited it.
    fn visit(&mut self, vertex: usize) {
        if at(&self.visits, vertex) != self.search {
            set(&mut self.visits, vertex, self.search);
            set(&mut self.queue, self.end, vertex);
            self.end = self.end.wrapping_add(1);
        }
    }

    fn visit_neighbours(&mut self, graph: &Adjacency<W>, vertex: usize) {
        for word in graph.neighbours_of(vertex) {
            self.visit(word.get());
        }
    }

    // Returns the vertex of least degree in the last level, the first one of these by index.
    pub(crate) fn least_of(&self, graph: &Adjacency<W>, levels: Levels) -> usize {
        let mut least = at(&self.queue, levels.last);
        for word in run_of(&self.queue, levels.last, self.end.wrapping_sub(levels.last)) {
            let vertex = word.get();
            let (degree, least_degree) = (graph.degree_of(vertex), graph.degree_of(least));
            if (degree, vertex) < (least_degree, least) {
                least = vertex;
            }
        }
        least
    }

    // Keeps the component that was searched last, in the order of the search.
    pub(crate) fn finish_component(&mut self) {
        self.begin = self.end;
    }

    // Returns all vertices of finished components, the last one first.
    pub(crate) fn reversed(&self, alloc: Global) -> Result<Vec<usize>, AllocError> {
        let mut order = Vec::with_capacity(alloc, self.queue.len())?;
        for word in self.queue.iter().rev() {
            order.push(word.get())?;
        }
        Ok(order)
    }
}
