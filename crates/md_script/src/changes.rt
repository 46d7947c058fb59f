//! Which edits can be applied to a graph, and what they change.
ghost use Rattle.std.specs.Prelude.{◌≡◌, ◌*◌, None, not, find};
ghost use Rattle.std.specs.FinSet as set;
ghost use Rattle.md_script.specs.Edit.{HasNamesBelow, reason_of, ends_reason, after};

use crate::{Edit, EditReason};
use md_graph::{GraphOf, Set};

/// Why an edit can't be applied to a graph: the first reason that holds, in the order of
/// `reason_of`. `None` exactly where it can.
pub fn reason<const W: usize>(graph: &GraphOf<W>, edit: &Edit) -> Option<EditReason>
    ensures { result ≡ reason_of graph.now edit.now }
{
    match edit {
        Edit::AddEdge { u, v } => {
            let there = graph.has_edge(*u, *v);
            reason_for_ends(graph, *u, *v).or(there.then_some(EditReason::EdgeThere))
        }
        Edit::DelEdge { u, v } => {
            let there = graph.has_edge(*u, *v);
            reason_for_ends(graph, *u, *v).or((!there).then_some(EditReason::EdgeAbsent))
        }
        Edit::AddVertex { x, neighbours } => {
            let taken = graph.has_vertex(*x);
            first_absent(graph, neighbours.as_slice())
                .map(EditReason::NoVertex)
                .or(taken.then_some(EditReason::NameTaken(*x)))
        }
        Edit::DelVertex { x } => (!graph.has_vertex(*x)).then_some(EditReason::NoVertex(*x)),
    }
}

// Why u and v can't be the ends of an edge.
fn reason_for_ends<const W: usize>(graph: &GraphOf<W>, u: u32, v: u32) -> Option<EditReason>
    ensures { result ≡ ends_reason graph.now u v }
{
    if u == v {
        return Some(EditReason::Same);
    }
    if !graph.has_vertex(u) {
        return Some(EditReason::NoVertex(u));
    }
    if !graph.has_vertex(v) {
        return Some(EditReason::NoVertex(v));
    }
    None
}

// The first name in a list that is no vertex.
fn first_absent<const W: usize>(graph: &GraphOf<W>, names: &[u32]) -> Option<u32>
    ensures { result ≡ find (λ v. not (set.contains graph.now.vertices v)) names.now }
{
    names.iter().copied().find(
        |v|
            ensures { result ≡ not (set.contains graph.entry.now.vertices v.now) }
        { !graph.has_vertex(*v) },
    )
}

/// Applies an edit to a graph. Condition: no reason speaks against it, and its names are below
/// `64 * W`.
pub fn apply<const W: usize>(graph: &mut GraphOf<W>, edit: &Edit)
    requires applies { reason_of graph.old edit.now ≡ None }
    requires names { HasNamesBelow (64 * W) edit.now }
    ensures { graph.new ≡ after graph.old edit.now }
{
    let _vertices = graph.vertices();
    match edit {
        Edit::AddEdge { u, v } => graph.add_edge(*u, *v),
        Edit::DelEdge { u, v } => graph.remove_edge(*u, *v),
        Edit::AddVertex { x, neighbours } => {
            graph.add_vertex(*x);
            graph.add_edges(*x, &Set::from_list(neighbours.as_slice()));
        }
        Edit::DelVertex { x } => graph.remove_vertex(*x),
    }
}
