//! The degrees of the variables of a new element.

use super::element::Pivot;
use super::hash_buckets::HashBuckets;
use super::quotient_graph::QuotientGraph;
use crate::vertices::Vertex;
use crate::words::{Word, at, set};

// Computes for each element that shares a variable with the pivot the weight of its variables outside of the pivot.
// The stamp of the element is then `stamp` plus that weight.
pub(super) fn measure_elements<W: Word>(graph: &mut QuotientGraph<W>, pivot: &Pivot) {
    graph.renew_stamps();
    for offset in pivot.begin..pivot.end {
        let variable = at(&graph.lists, offset);
        subtract_weight(graph, variable);
    }
}

// Subtracts the weight of a variable of the pivot from the weight of each of its elements.
fn subtract_weight<W: Word>(graph: &mut QuotientGraph<W>, variable: usize) {
    let weight = graph.inner_weight(variable);
    let Vertex {
        begin,
        element_count,
        ..
    } = graph.vertex(variable);
    for offset in begin..begin.saturating_add(element_count) {
        let element = at(&graph.lists, offset);
        let Vertex { stamp, degree, .. } = graph.vertex(element);
        if graph.stamp <= stamp {
            graph
                .vertices
                .set_stamp(element, stamp.wrapping_sub(weight));
        } else if stamp != 0 {
            let whole = graph.stamp.wrapping_add(degree);
            graph
                .vertices
                .set_stamp(element, whole.wrapping_sub(weight));
        }
    }
}

// What is kept of the list of a variable: where it ends, the weight of its neighbours outside of the pivot, and the sum
// of its elements and variables.
#[derive(Drop)]
struct Kept {
    end: usize,
    degree: usize,
    hash: usize,
}

// Updates the list and the degree of each variable of the pivot, puts the variable into the bucket of its hash, or
// eliminates it with the pivot if it has no other neighbours.
pub(super) fn update_degrees<W: Word>(
    graph: &mut QuotientGraph<W>,
    buckets: &mut HashBuckets<W>,
    pivot: &mut Pivot,
) {
    for offset in pivot.begin..pivot.end {
        let variable = at(&graph.lists, offset);
        let mut kept = keep_elements(graph, variable, pivot.vertex);
        let elements_end = kept.end;
        keep_variables(graph, variable, &mut kept);
        if kept.degree == 0 {
            eliminate_with(graph, pivot, variable);
        } else {
            buckets.insert(&mut graph.vertices, variable, kept.hash);
            add_element(graph, variable, pivot.vertex, elements_end, &kept);
        }
    }
    graph.vertices.set_degree(pivot.vertex, pivot.degree);
    graph.largest_degree = graph.largest_degree.max(pivot.degree);
    graph.stamp = graph.stamp.wrapping_add(graph.largest_degree);
}

impl Kept {
    // Keeps a vertex of the list, which stands for `weight` neighbours.
    #[inline(always)]
    fn push<W: Word>(&mut self, lists: &mut [W], vertex: usize, weight: usize) {
        set(lists, self.end, vertex);
        self.end = self.end.wrapping_add(1);
        self.degree = self.degree.wrapping_add(weight);
        self.hash = self.hash.wrapping_add(vertex);
    }
}

// Keeps the elements of a variable that have variables outside of the pivot. The pivot absorbs the others (aggressive
// absorption).
fn keep_elements<W: Word>(graph: &mut QuotientGraph<W>, variable: usize, pivot: usize) -> Kept {
    let Vertex {
        begin,
        element_count,
        ..
    } = graph.vertex(variable);
    let mut kept = Kept {
        end: begin,
        degree: 0,
        hash: 0,
    };
    for offset in begin..begin.saturating_add(element_count) {
        let element = at(&graph.lists, offset);
        let stamp = graph.vertex(element).stamp;
        if stamp == graph.stamp {
            graph.absorb_element(element, pivot);
        } else if stamp != 0 {
            kept.push(&mut graph.lists, element, stamp.wrapping_sub(graph.stamp));
        }
    }
    kept
}

// Keeps the variables of a variable that are outside of the pivot.
fn keep_variables<W: Word>(graph: &mut QuotientGraph<W>, variable: usize, kept: &mut Kept) {
    let Vertex {
        begin,
        length,
        element_count,
        ..
    } = graph.vertex(variable);
    for offset in begin.saturating_add(element_count)..begin.saturating_add(length) {
        let neighbour = at(&graph.lists, offset);
        let weight = graph.vertex(neighbour).weight;
        if graph.is_outside(weight) {
            kept.push(&mut graph.lists, neighbour, weight);
        }
    }
}

// Mass elimination: eliminates a variable together with the pivot.
fn eliminate_with<W: Word>(graph: &mut QuotientGraph<W>, pivot: &mut Pivot, variable: usize) {
    let weight = graph.inner_weight(variable);
    pivot.weight = pivot.weight.wrapping_add(weight);
    pivot.degree = pivot.degree.wrapping_sub(weight);
    graph.remaining = graph.remaining.wrapping_sub(weight);
    graph.drop_variable(variable, pivot.vertex);
}

// Adds the pivot to the elements of a variable, in front of them: the first element moves to their end, and the first
// variable to the end of the list. The update of the list has removed the pivot, or an element of it, so there is room.
fn add_element<W: Word>(
    graph: &mut QuotientGraph<W>,
    variable: usize,
    pivot: usize,
    elements_end: usize,
    kept: &Kept,
) {
    let Vertex { begin, degree, .. } = graph.vertex(variable);
    let (first_element, first_variable) = (at(&graph.lists, begin), at(&graph.lists, elements_end));
    set(&mut graph.lists, kept.end, first_variable);
    set(&mut graph.lists, elements_end, first_element);
    set(&mut graph.lists, begin, pivot);
    let element_count = elements_end.wrapping_sub(begin).wrapping_add(1);
    graph.vertices.set_element_count(variable, element_count);
    let length = kept.end.wrapping_sub(begin).wrapping_add(1);
    graph.vertices.set_length(variable, length);
    graph.vertices.set_degree(variable, degree.min(kept.degree));
}
