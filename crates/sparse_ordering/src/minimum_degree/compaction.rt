//! The collection of unused memory in the lists of a quotient graph.

use super::quotient_graph::QuotientGraph;
use crate::vertices::Vertex;
use crate::words::{Word, at, set};

// Makes room for the variables of the element that the elimination of a variable forms: at most as many as its degree.
pub(super) fn make_room<W: Word>(graph: &mut QuotientGraph<W>, variable: usize) {
    let Vertex {
        degree,
        element_count,
        ..
    } = graph.vertex(variable);
    if element_count != 0 && graph.lists.len() < graph.used.saturating_add(degree) {
        mark_heads(graph);
        move_lists(graph);
    }
}

// Replaces the first element of the list of each vertex by the vertex plus `size`, and stores the element in the field
// that says where the list begins.
fn mark_heads<W: Word>(graph: &mut QuotientGraph<W>) {
    for vertex in 0..graph.size {
        let Vertex { begin, length, .. } = graph.vertex(vertex);
        if length != 0 {
            graph.vertices.set_begin(vertex, at(&graph.lists, begin));
            set(&mut graph.lists, begin, vertex.wrapping_add(graph.size));
        }
    }
}

// Moves all lists to the front of the memory, in the order in which they are there. `left` elements of the list that
// was begun last are still to be moved.
fn move_lists<W: Word>(graph: &mut QuotientGraph<W>) {
    let (mut used, mut left) = (0_usize, 0_usize);
    for offset in 0..graph.used {
        let word = at(&graph.lists, offset);
        if graph.size <= word {
            let vertex = word.wrapping_sub(graph.size);
            let Vertex { begin, length, .. } = graph.vertex(vertex);
            set(&mut graph.lists, used, begin);
            graph.vertices.set_begin(vertex, used);
            used = used.wrapping_add(1);
            left = length.wrapping_sub(1);
        } else if left != 0 {
            set(&mut graph.lists, used, word);
            used = used.wrapping_add(1);
            left = left.wrapping_sub(1);
        }
    }
    graph.used = used;
}
