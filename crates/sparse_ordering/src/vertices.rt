//! The vertices of a quotient graph.

use crate::adjacency::Adjacency;
use crate::words::{Word, at};
use std::alloc::{AllocError, Global};

// What is known of a vertex. A vertex is a variable until it is eliminated; then it is an element.
#[derive(Clone, Copy)]
pub(crate) struct Vertex {
    // The number of indistinguishable variables that a variable stands for, or of those that were eliminated with an
    // element.
    pub(crate) weight: usize,
    // Where its list begins.
    pub(crate) begin: usize,
    // The length of its list.
    pub(crate) length: usize,
    // The number of elements in the list of a variable.
    pub(crate) element_count: usize,
    // The weight of the variables of an element, or an upper bound of that of the neighbours of a variable.
    pub(crate) degree: usize,
    // What a step of the algorithm notes about it.
    pub(crate) stamp: usize,
    // The vertices before and after it in a linked list.
    pub(crate) previous: usize,
    pub(crate) next: usize,
}

// A vertex in memory. What is read together is together, so that it is mostly in one line of the cache.
#[derive(Clone, Copy)]
struct Record<W: Word> {
    weight: W,
    begin: W,
    length: W,
    element_count: W,
    degree: W,
    stamp: W,
    previous: W,
    next: W,
}

#[derive(Drop)]
pub(crate) struct Vertices<W: Word> {
    records: Vec<Record<W>>,
}

impl<W: Word> Vertices<W> {
    // Returns the vertices of a graph, as variables of weight 1 whose lists are their neighbours.
    pub(crate) fn new(alloc: Global, graph: &Adjacency<W>) -> Result<Vertices<W>, AllocError> {
        let (zero, one, end) = (W::of(0), W::of(1), W::of(graph.size()));
        let mut records = Vec::with_capacity(alloc, graph.size())?;
        for vertex in 0..graph.size() {
            let degree = W::of(graph.degree_of(vertex));
            records.push(Record {
                weight: one,
                begin: W::of(at(&graph.begins, vertex)),
                length: degree,
                element_count: zero,
                degree,
                stamp: one,
                previous: end,
                next: end,
            })?;
        }
        Ok(Vertices { records })
    }

    pub(crate) fn count(&self) -> usize {
        self.records.len()
    }

    // Returns a vertex, or one of zeros if there is none of that number.
    #[inline(always)]
    pub(crate) fn get(&self, vertex: usize) -> Vertex {
        if vertex < self.records.len() {
            let record = &self.records[vertex];
            Vertex {
                weight: record.weight.get(),
                begin: record.begin.get(),
                length: record.length.get(),
                element_count: record.element_count.get(),
                degree: record.degree.get(),
                stamp: record.stamp.get(),
                previous: record.previous.get(),
                next: record.next.get(),
            }
        } else {
            Vertex {
                weight: 0,
                begin: 0,
                length: 0,
                element_count: 0,
                degree: 0,
                stamp: 0,
                previous: 0,
                next: 0,
            }
        }
    }

    #[inline(always)]
    pub(crate) fn set_weight(&mut self, vertex: usize, weight: usize) {
        if vertex < self.records.len() {
            let record = &mut self.records[vertex];
            record.weight = W::of(weight);
        }
    }

    #[inline(always)]
    pub(crate) fn set_begin(&mut self, vertex: usize, begin: usize) {
        if vertex < self.records.len() {
            let record = &mut self.records[vertex];
            record.begin = W::of(begin);
        }
    }

    #[inline(always)]
    pub(crate) fn set_length(&mut self, vertex: usize, length: usize) {
        if vertex < self.records.len() {
            let record = &mut self.records[vertex];
            record.length = W::of(length);
        }
    }

    #[inline(always)]
    pub(crate) fn set_element_count(&mut self, vertex: usize, element_count: usize) {
        if vertex < self.records.len() {
            let record = &mut self.records[vertex];
            record.element_count = W::of(element_count);
        }
    }

    #[inline(always)]
    pub(crate) fn set_degree(&mut self, vertex: usize, degree: usize) {
        if vertex < self.records.len() {
            let record = &mut self.records[vertex];
            record.degree = W::of(degree);
        }
    }

    #[inline(always)]
    pub(crate) fn set_stamp(&mut self, vertex: usize, stamp: usize) {
        if vertex < self.records.len() {
            let record = &mut self.records[vertex];
            record.stamp = W::of(stamp);
        }
    }

    #[inline(always)]
    pub(crate) fn set_previous(&mut self, vertex: usize, previous: usize) {
        if vertex < self.records.len() {
            let record = &mut self.records[vertex];
            record.previous = W::of(previous);
        }
    }

    #[inline(always)]
    pub(crate) fn set_next(&mut self, vertex: usize, next: usize) {
        if vertex < self.records.len() {
            let record = &mut self.records[vertex];
            record.next = W::of(next);
        }
    }
}
