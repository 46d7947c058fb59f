//! An induced P4 of a graph, looked for where the outline of its tree says.
ghost use Rattle.std.specs.Prelude.{◌≡◌, ◌≤◌, IfSome, IfNone};
ghost use Rattle.md_graph.specs.PlainGraph.{adjacent};
ghost use Rattle.md_modules.specs.InducedPaths.{HasInducedPath};
ghost use Rattle.md_report.specs.Cographs.{IsP4Of};

use md_graph::GraphOf;
use md_modules::{P4, find_p4, find_p4_with};
use md_outline::OutlinePart;
use md_tree::Kind;

/// An induced P4 of a graph; none exactly where it has none. The parts only say where to look: in a
/// prime node at most one child has no name in a P4, so that two searches suffice where they are
/// the outline of the graph's tree and have such a node. No call nests as deep as the tree.
pub fn any_p4<const W: usize>(graph: &GraphOf<W>, parts: &[OutlinePart<Kind>]) -> Option<P4>
    ensures found { IfSome result (IsP4Of graph.now) }
    ensures none { IfNone result (HasInducedPath (adjacent graph.now) graph.now.vertices → ⊥) }
{
    match p4_through(graph, behind_prime(parts)) {
        Some(p) => Some(p),
        None => find_p4(graph),
    }
}

// The parts behind the first prime node, whose children come first among them; none where no node
// is prime.
fn behind_prime(parts: &[OutlinePart<Kind>]) -> &[OutlinePart<Kind>] {
    for i in 0..parts.len() {
        if let OutlinePart::Node(Kind::Prime, _) = parts[i] {
            return &parts[i + 1..];
        }
    }
    &[]
}

// An induced P4 through the first name of a tree, the first tree that gives one of those that are
// outlined one behind the other.
fn p4_through<const W: usize>(graph: &GraphOf<W>, row: &[OutlinePart<Kind>]) -> Option<P4>
    ensures { IfSome result (IsP4Of graph.now) }
{
    // How many subtrees of the tree that was begun last are still to come, and whether it is named.
    let mut due = 0_u64;
    let mut named = false;
    for part in row {
        named = named && due > 0;
        due = due.saturating_sub(1);
        match part {
            OutlinePart::Node(_, count) => due = due.saturating_add(*count as u64),
            OutlinePart::Name(x) => {
                if !named {
                    named = true;
                    if let Some(p) = p4_at(graph, *x) {
                        return Some(p);
                    }
                }
            }
        }
    }
    None
}

// An induced P4 through a name; none where it is no vertex.
fn p4_at<const W: usize>(graph: &GraphOf<W>, x: u32) -> Option<P4>
    ensures { IfSome result (IsP4Of graph.now) }
{
    if graph.has_vertex(x) {
        find_p4_with(graph, x)
    } else {
        None
    }
}
