//! What comes of an item, and what is told of the graph behind it.
ghost use Rattle.std.specs.Prelude.{◌*◌, IfOk};
ghost use Rattle.md_graph.specs.PlainGraph.{PlainGraph};
ghost use Rattle.md_cotree.specs.Cotrees.{Denotes};
ghost use Rattle.md_class.specs.ItemAnswers.{IsToldOf};

use md_bar::ClassLine;
use md_cotree::Cotree;
use md_graph::Memory;
use md_outline::OutlinePart;
use md_tree::{Kind, Tree};
use std::alloc::Global;

/// What comes of an item, for callers that write its line from the outline of a tree.
#[derive(Drop)]
pub enum ClassAnswer {
    /// The item was applied, and this is the outline of the tree of the graph behind it, without
    /// parts exactly where that has no vertices.
    Applied(Vec<OutlinePart<Kind>>),
    /// The item was refused with this line, and the graph stays.
    Refused(ClassLine),
}

// What is told of a graph: its tree of strong modules, or the outline of that.
#[derive(Drop)]
pub(crate) enum Told {
    Tree(Option<Tree>),
    Outline(Vec<OutlinePart<Kind>>),
}

// What comes of an item.
#[derive(Drop)]
pub(crate) enum ItemAnswer {
    // The item was applied, and this is told of the graph behind it.
    Applied(Told),
    // The item was refused with this line, and the graph stays.
    Refused(ClassLine),
}

// What is told of the graph of a cotree: its tree where `whole`, else the outline of that.
// Condition: there is such a graph. Errors: want of memory.
pub(crate) fn told_of(alloc: Global, tree: &Cotree, whole: bool) -> Result<Told, Memory>
    requires { (g : PlainGraph) × Denotes tree.now g }
    ensures { IfOk result (λ told. (g : PlainGraph) → Denotes tree.now g
        → IsToldOf whole g told) }
{
    if whole {
        return Ok(Told::Tree(tree.to_tree(alloc)?));
    }
    Ok(Told::Outline(tree.outline(alloc)?))
}
