//! The element that the elimination of a variable forms.

use super::quotient_graph::QuotientGraph;
use crate::degree_lists::DegreeLists;
use crate::vertices::Vertex;
use crate::words::{Word, at, set};

// The element that is being formed.
#[derive(Drop)]
pub(super) struct Pivot {
    // The variable that is eliminated.
    pub(super) vertex: usize,
    // The number of variables that are eliminated with it, itself included.
    pub(super) weight: usize,
    // Where its variables begin and end in the lists of the graph.
    pub(super) begin: usize,
    pub(super) end: usize,
    // The weight of its variables.
    pub(super) degree: usize,
    // Whether its variables are at the end of the used part of the lists, and not where those of the variable were.
    pub(super) is_appended: bool,
}

// Forms the element: the variables that the pivot or one of its elements lists. They leave the lists of degrees, and
// the pivot absorbs its elements.
pub(super) fn form_element<W: Word>(
    graph: &mut QuotientGraph<W>,
    lists: &mut DegreeLists<W>,
    vertex: usize,
) -> Pivot {
    let Vertex {
        begin,
        length,
        element_count,
        ..
    } = graph.vertex(vertex);
    let first_variable = begin.wrapping_add(element_count);
    let variable_count = length.wrapping_sub(element_count);
    let mut pivot = start_element(graph, vertex, begin, element_count != 0);
    take_elements(graph, lists, &mut pivot, begin, element_count);
    take_variables(graph, lists, &mut pivot, first_variable, variable_count);
    close_element(graph, &pivot);
    pivot
}

// Begins an element that has no variables yet, at `list` or at the end of the used part of the lists.
fn start_element<W: Word>(
    graph: &mut QuotientGraph<W>,
    vertex: usize,
    list: usize,
    is_appended: bool,
) -> Pivot {
    let weight = graph.vertex(vertex).weight;
    // The pivot is no variable of the element.
    graph.vertices.set_weight(vertex, 0);
    graph.remaining = graph.remaining.wrapping_sub(weight);
    let begin = if is_appended { graph.used } else { list };
    Pivot {
        vertex,
        weight,
        begin,
        end: begin,
        degree: 0,
        is_appended,
    }
}

// Takes the variables of each element in a part of the lists, and absorbs it.
fn take_elements<W: Word>(
    graph: &mut QuotientGraph<W>,
    lists: &mut DegreeLists<W>,
    pivot: &mut Pivot,
    begin: usize,
    count: usize,
) {
    for offset in begin..begin.saturating_add(count) {
        let element = at(&graph.lists, offset);
        let Vertex { begin, length, .. } = graph.vertex(element);
        take_variables(graph, lists, pivot, begin, length);
        graph.absorb_element(element, pivot.vertex);
    }
}

// Appends the variables in a part of the lists to the element, each one once.
fn take_variables<W: Word>(
    graph: &mut QuotientGraph<W>,
    lists: &mut DegreeLists<W>,
    pivot: &mut Pivot,
    begin: usize,
    count: usize,
) {
    for offset in begin..begin.saturating_add(count) {
        let variable = at(&graph.lists, offset);
        let Vertex { weight, degree, .. } = graph.vertex(variable);
        if graph.is_outside(weight) {
            graph
                .vertices
                .set_weight(variable, weight.wrapping_add(graph.size));
            set(&mut graph.lists, pivot.end, variable);
            pivot.end = pivot.end.wrapping_add(1);
            pivot.degree = pivot.degree.wrapping_add(weight);
            lists.remove(&mut graph.vertices, variable, degree);
        }
    }
}

// Records where the variables of the element are.
fn close_element<W: Word>(graph: &mut QuotientGraph<W>, pivot: &Pivot) {
    graph.vertices.set_begin(pivot.vertex, pivot.begin);
    graph
        .vertices
        .set_length(pivot.vertex, pivot.end.wrapping_sub(pivot.begin));
    if pivot.is_appended {
        graph.used = pivot.end;
    }
}

// Lists the variables of the element by their new degrees, without those that were merged.
pub(super) fn finish_element<W: Word>(
    graph: &mut QuotientGraph<W>,
    lists: &mut DegreeLists<W>,
    pivot: &Pivot,
) {
    let mut end = pivot.begin;
    for offset in pivot.begin..pivot.end {
        let variable = at(&graph.lists, offset);
        if graph.size < graph.vertex(variable).weight {
            release_variable(graph, lists, variable, pivot.degree);
            set(&mut graph.lists, end, variable);
            end = end.wrapping_add(1);
        }
    }
    graph.vertices.set_weight(pivot.vertex, pivot.weight);
    graph
        .vertices
        .set_length(pivot.vertex, end.wrapping_sub(pivot.begin));
    if pivot.is_appended {
        graph.used = end;
    }
}

// Restores the weight of a variable, and lists it by its degree: that outside of the element, which is known, and that
// within.
fn release_variable<W: Word>(
    graph: &mut QuotientGraph<W>,
    lists: &mut DegreeLists<W>,
    variable: usize,
    element_degree: usize,
) {
    let weight = graph.inner_weight(variable);
    let within = element_degree.wrapping_sub(weight);
    let degree = graph.vertex(variable).degree.saturating_add(within);
    let most = graph.remaining.wrapping_sub(weight);
    let bound = degree.min(most);
    graph.vertices.set_weight(variable, weight);
    graph.vertices.set_degree(variable, bound);
    lists.insert(&mut graph.vertices, variable, bound);
}
