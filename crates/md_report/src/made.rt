//! The induced P4s that an edit makes.
ghost use Rattle.std.specs.Prelude.{◌*◌, IfSome, IfNone};
ghost use Rattle.md_graph.specs.PlainGraph.{PlainGraph};
ghost use Rattle.md_script.specs.Pasts.{Led};
ghost use Rattle.md_report.specs.Cographs.{IsP4Of, IsCograph};
ghost use Rattle.md_report.specs.Made.{HasChange, HoldsChange, HasNoneMade};

use md_graph::GraphOf;
use md_modules::{P4, find_p4_with, find_p4_with_both};
use md_script::Edit;

/// An induced P4 that holds both ends of the edge of an edit, or its new vertex; `None` exactly
/// where there is none. A cograph from which the edit led to the graph then gave a cograph. It
/// takes no memory, and a few row operations; for a new vertex those of `find_p4_with`. Condition:
/// the graph has both ends of the edge, or the new vertex.
pub fn made_p4<const W: usize>(graph: &GraphOf<W>, edit: &Edit) -> Option<P4>
    requires { HasChange graph.now edit.now }
    ensures found { IfSome result (λ p.
        IsP4Of graph.now p × HoldsChange edit.now p.a p.b p.c p.d) }
    ensures none { IfNone result (HasNoneMade graph.now edit.now) }
    ensures cograph { (g : PlainGraph) → Led (64 * W) g edit.now graph.now
        → IsCograph g → IfNone result (IsCograph graph.now) }
{
    let _vertices = graph.vertices();
    match edit {
        Edit::AddEdge { u, v } => find_p4_with_both(graph, *u, *v),
        Edit::DelEdge { u, v } => find_p4_with_both(graph, *u, *v),
        Edit::AddVertex { x, .. } => find_p4_with(graph, *x),
        Edit::DelVertex { .. } => None,
    }
}
