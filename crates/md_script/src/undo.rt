//! Taking edits back, in place.
ghost use Rattle.std.specs.Prelude.{◌≡◌, ◌*◌, None};
ghost use Rattle.md_graph.specs.PlainGraph.{IsGraph};
ghost use Rattle.md_script.specs.Edit.{HasNamesBelow, reason_of, after};
ghost use Rattle.md_script.specs.Pasts.{inverse_of, as_edit, TakesBack};

use crate::{Edit, PastOf};
use md_graph::GraphOf;

/// The edit that gives the graph again once this one is applied. It takes no memory; of a vertex
/// that is left out the row is kept. Conditions: no reason speaks against the edit, and its names
/// are below `64 * W`.
pub fn inverse<const W: usize>(graph: &GraphOf<W>, edit: &Edit) -> PastOf<W>
    requires applies { reason_of graph.now edit.now ≡ None }
    requires names { HasNamesBelow (64 * W) edit.now }
    ensures inverse { as_edit result ≡ inverse_of graph.now edit.now }
    ensures back { TakesBack (64 * W) graph.now edit.now (as_edit result) }
    ensures graph { IsGraph graph.now }
{
    let _vertices = graph.vertices();
    match edit {
        Edit::AddEdge { u, v } => PastOf::DelEdge { u: *u, v: *v },
        Edit::DelEdge { u, v } => PastOf::AddEdge { u: *u, v: *v },
        Edit::AddVertex { x, .. } => PastOf::DelVertex { x: *x },
        Edit::DelVertex { x } => PastOf::AddVertex {
            x: *x,
            neighbours: graph.row(*x).copy(),
        },
    }
}

/// The edit that gives the graph again once the edit by which an earlier one is taken back is
/// applied. It takes no memory. Conditions: no reason speaks against that edit, and its names are
/// below `64 * W`.
pub fn again<const W: usize>(graph: &GraphOf<W>, past: &PastOf<W>) -> PastOf<W>
    requires applies { reason_of graph.now (as_edit past.now) ≡ None }
    requires names { HasNamesBelow (64 * W) (as_edit past.now) }
    ensures inverse { as_edit result ≡ inverse_of graph.now (as_edit past.now) }
    ensures back { TakesBack (64 * W) graph.now (as_edit past.now) (as_edit result) }
{
    let _vertices = graph.vertices();
    match past {
        PastOf::AddEdge { u, v } => PastOf::DelEdge { u: *u, v: *v },
        PastOf::DelEdge { u, v } => PastOf::AddEdge { u: *u, v: *v },
        PastOf::AddVertex { x, .. } => PastOf::DelVertex { x: *x },
        PastOf::DelVertex { x } => PastOf::AddVertex {
            x: *x,
            neighbours: graph.row(*x).copy(),
        },
    }
}

/// Applies the edit that an earlier one is taken back by. It takes no memory. Conditions: no
/// reason speaks against it, and its names are below `64 * W`.
pub fn take_back<const W: usize>(graph: &mut GraphOf<W>, past: &PastOf<W>)
    requires applies { reason_of graph.old (as_edit past.now) ≡ None }
    requires names { HasNamesBelow (64 * W) (as_edit past.now) }
    ensures { graph.new ≡ after graph.old (as_edit past.now) }
{
    let _vertices = graph.vertices();
    match past {
        PastOf::AddEdge { u, v } => graph.add_edge(*u, *v),
        PastOf::DelEdge { u, v } => graph.remove_edge(*u, *v),
        PastOf::AddVertex { x, neighbours } => {
            let _members = neighbours.members();
            graph.add_vertex(*x);
            graph.add_edges(*x, neighbours);
        }
        PastOf::DelVertex { x } => graph.remove_vertex(*x),
    }
}
