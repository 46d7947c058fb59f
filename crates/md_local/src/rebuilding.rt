//! The tree of a graph after an edit of one edge.
ghost use Rattle.std.specs.Prelude.{◌≡◌, ◌≢◌, ◌≤◌, ◌+◌, IfOk};
ghost use Rattle.std.specs.FinSet.{len};
ghost use Rattle.md_graph.specs.PlainGraph.{PlainGraph, adjacent};
ghost use Rattle.md_graph.specs.Sets.{NameSet, Has};
ghost use Rattle.md_tree.specs.Plain.{plain};
ghost use Rattle.md_tree.specs.StrongTrees.{IsTreeOf};
ghost use Rattle.md_local.specs.Changes.{IsLeastStrong};
ghost use Rattle.md_local.specs.Edits.{IsEdited};

use crate::growing::{open_node, take_turn, whole_tree};
use crate::walking::Turn;
use md_graph::{GraphOf, Memory, Steps};
use md_tree::Tree;
use std::alloc::Global;
use std::sync::ledger::Ledger;

/// The tree of a graph in which the edge between u and v has come or gone, from the tree of the
/// graph before. Of the least strong module that held both only u and v are decomposed, and one
/// name of each subtree that hangs off the paths to them: each of these names is one step. Those
/// subtrees are moved to the leaves of their names, and all else is copied as it comes by; what
/// can't stand below its node is merged into it. No call nests as deep as the tree. Condition: u
/// and v are two vertices, and the tree is that of the graph before. Errors: want of memory.
pub fn rebuild<L: Ledger, const W: usize>(
    alloc: Global,
    graph: &GraphOf<W>,
    tree: &Tree,
    u: u32,
    v: u32,
    work: &mut Steps<L>,
) -> Result<Tree, Memory>
    requires differ { u ≢ v }
    requires left { Has graph.now.vertices u }
    requires right { Has graph.now.vertices v }
    requires tree { (before : PlainGraph) × IsEdited before graph.now u v
        × IsTreeOf (adjacent before) before.vertices (plain tree.now) }
    ensures tree { IfOk result (λ new.
        IsTreeOf (adjacent graph.now) graph.now.vertices (plain new)) }
    ensures work { (before : PlainGraph) (w : NameSet) → IsEdited before graph.now u v
        → IsTreeOf (adjacent before) before.vertices (plain tree.now)
        → IsLeastStrong (adjacent before) before.vertices u v w → work.new ≤ work.old + len w }
{
    let _vertices = graph.vertices();
    let mut path = Vec::new(alloc);
    let mut current = open_node(alloc, tree)?;
    loop {
        match take_turn(alloc, graph, current, &mut path, u, v, work)? {
            Turn::Onward(next) => current = next,
            Turn::End(grown) => return Ok(whole_tree(grown)),
        }
    }
}
