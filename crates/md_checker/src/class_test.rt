//! Whether an edit made a bar of a class of graphs.
ghost use Rattle.std.specs.Prelude.{◌*◌, IsTrue};
ghost use Rattle.md_graph.specs.PlainGraph.{PlainGraph};
ghost use Rattle.md_script.specs.Pasts.{Led};
ghost use Rattle.md_report.specs.Classes.{IsAllowedIn};

use md_bar_tree::{Class, has_bar_at};
use md_graph::GraphOf;
use md_report::made_p4;
use md_script::Edit;

// Whether the graph, to which the edit led, has a bar of the class: an induced P4 that the edit
// made, or else one end of the edge, or the new vertex, lies in a bar of another kind. It takes no
// memory. Condition: the graph before was of the class.
pub(crate) fn makes_bar<const W: usize>(graph: &GraphOf<W>, class: Class, edit: &Edit) -> bool
    requires { (g : PlainGraph) × Led (64 * W) g edit.now graph.now × IsAllowedIn class g }
    ensures barred { IsTrue result → IsAllowedIn class graph.now → ⊥ }
    ensures allowed { ¬ IsTrue result → IsAllowedIn class graph.now }
{
    let _vertices = graph.vertices();
    if made_p4(graph, edit).is_some() {
        return true;
    }
    match edit {
        Edit::AddEdge { u, v: _ } => has_bar_at(graph, class, *u),
        Edit::DelEdge { u, v: _ } => has_bar_at(graph, class, *u),
        Edit::AddVertex { x, .. } => has_bar_at(graph, class, *x),
        Edit::DelVertex { .. } => false,
    }
}
