//! Indistinguishable variables: those with the same neighbours and themselves.

use super::element::Pivot;
use super::hash_buckets::HashBuckets;
use super::quotient_graph::QuotientGraph;
use crate::vertices::Vertex;
use crate::words::{Word, at};

// Merges the variables of the pivot whose lists are equal as sets. Only variables with the same hash are compared.
pub(super) fn merge_indistinguishable<W: Word>(
    graph: &mut QuotientGraph<W>,
    buckets: &mut HashBuckets<W>,
    pivot: &Pivot,
) {
    for offset in pivot.begin..pivot.end {
        let variable = graph.vertex(at(&graph.lists, offset));
        if graph.size < variable.weight {
            let first = buckets.take(variable.previous);
            merge_bucket(graph, first);
        }
    }
}

// Compares each variable of a bucket, from `first` on, with those after it.
fn merge_bucket<W: Word>(graph: &mut QuotientGraph<W>, first: usize) {
    let mut variable = first;
    for _ in 0..graph.size {
        let next = graph.vertex(variable).next;
        if graph.size <= variable.max(next) {
            break;
        }
        stamp_list(graph, variable);
        merge_equal(graph, variable);
        graph.stamp = graph.stamp.wrapping_add(1);
        variable = graph.vertex(variable).next;
    }
}

// Stamps each element and variable in the list of a variable. The first one is the pivot, which all lists begin with.
fn stamp_list<W: Word>(graph: &mut QuotientGraph<W>, variable: usize) {
    let Vertex { begin, length, .. } = graph.vertex(variable);
    let stamp = graph.stamp;
    for offset in begin.saturating_add(1)..begin.saturating_add(length) {
        let listed = at(&graph.lists, offset);
        graph.vertices.set_stamp(listed, stamp);
    }
}

// Merges into a variable, whose list is stamped, those after it in its bucket that have the same list.
fn merge_equal<W: Word>(graph: &mut QuotientGraph<W>, variable: usize) {
    let (mut last, mut other) = (variable, graph.vertex(variable).next);
    for _ in 0..graph.size {
        if graph.size <= other {
            break;
        }
        let next = graph.vertex(other).next;
        if have_equal_lists(graph, variable, other) {
            graph.merge_variable(other, variable);
            graph.vertices.set_next(last, next);
        } else {
            last = other;
        }
        other = next;
    }
}

// Returns whether two variables have the same list, given that the list of the first one is stamped.
fn have_equal_lists<W: Word>(graph: &QuotientGraph<W>, variable: usize, other: usize) -> bool {
    let (first, second) = (graph.vertex(variable), graph.vertex(other));
    first.length == second.length
        && first.element_count == second.element_count
        && is_stamped(graph, other)
}

// Returns whether the list of a variable is stamped after its first element.
fn is_stamped<W: Word>(graph: &QuotientGraph<W>, variable: usize) -> bool {
    let Vertex { begin, length, .. } = graph.vertex(variable);
    for offset in begin.saturating_add(1)..begin.saturating_add(length) {
        let listed = at(&graph.lists, offset);
        if graph.vertex(listed).stamp != graph.stamp {
            return false;
        }
    }
    true
}
