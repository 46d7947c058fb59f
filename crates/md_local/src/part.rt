//! The tree of a part of a graph, and the parts of a tree.
ghost use Rattle.std.specs.Prelude.{◌≡◌, ◌+◌, ◌++◌, ◌∷◌, [], map, IfOk};
ghost use Rattle.std.specs.FinSet.{len};
ghost use Rattle.md_graph.specs.PlainGraph.{adjacent};
ghost use Rattle.md_graph.specs.Sets.{Within};
ghost use Rattle.md_tree.specs.Plain.{plain, plain_option};
ghost use Rattle.md_tree.specs.Parts.{below_node, part_of, parts_of, plain_part};
ghost use Rattle.md_tree.specs.StrongTrees.{IsTree};

use md_decompose::decompose_within;
use md_graph::{GraphOf, Memory, Set, Steps};
use md_tree::{Part, QuotientEdges, Tree};
use std::alloc::Global;
use std::mem;
use std::sync::ledger::Ledger;

/// The tree of the strong modules of the graph on a set of its vertices, none exactly for the set
/// without members. Each name that is handed to `decompose_within` is one step. Condition: the
/// names are vertices. Errors: want of memory; the steps are taken then too.
pub fn decompose_part<L: Ledger, const W: usize>(
    alloc: Global,
    graph: &GraphOf<W>,
    names: &Set<W>,
    work: &mut Steps<L>,
) -> Result<Option<Tree>, Memory>
    requires { Within names.now graph.now.vertices }
    ensures tree { IfOk result (λ tree.
        IsTree (adjacent graph.now) names.now (plain_option tree)) }
    ensures work { work.new ≡ work.old + len names.now }
{
    for _ in 0..names.count() {
        work.tick();
    }
    decompose_within(alloc, graph, names)
}

// Equal pairs. `from_clones` goes over them with several in each turn, `from_slice` one by one.
pub(crate) fn copied_pairs(alloc: Global, edges: &QuotientEdges) -> Result<QuotientEdges, Memory>
    ensures { IfOk result (λ copy. copy.list.items ≡ edges.now.list.items) }
{
    let list = Vec::from_clones(alloc, &edges.list)?;
    Ok(QuotientEdges { list })
}

// The parts of a tree, which is taken apart: each node before its children, and these from the last
// to the first. Room for `room` of them is taken at once.
pub(crate) fn parts_of_tree(alloc: Global, tree: Tree, room: usize) -> Result<Vec<Part>, Memory>
    ensures { IfOk result (λ parts. map plain_part parts.items ≡ parts_of (plain tree)) }
{
    let mut parts = Vec::with_capacity(alloc, room)?;
    let mut waiting = Vec::with_capacity(alloc, room)?;
    waiting.push(tree)?;
    while let Some(next) = waiting.pop() {
        take_apart(alloc, next, &mut parts, &mut waiting)?;
    }
    Ok(parts)
}

// The part that is the root of a tree comes behind the parts, and its children behind what waits.
fn take_apart(
    alloc: Global,
    tree: Tree,
    parts: &mut Vec<Part>,
    waiting: &mut Vec<Tree>,
) -> Result<(), Memory>
    ensures part { IfOk result (λ _. map plain_part parts.new.items
        ≡ map plain_part parts.old.items ++ part_of (plain tree) ∷ []) }
    ensures waiting { IfOk result (λ _. map plain waiting.new.items
        ≡ map plain waiting.old.items ++ below_node (plain tree)) }
{
    let mut tree = tree;
    match &mut tree {
        Tree::Leaf(name) => {
            parts.push(Part::Leaf(*name))?;
            return Ok(());
        }
        Tree::Node(kind, children, edges) => {
            let list = mem::replace(&mut edges.list, Vec::new(alloc));
            parts.push(Part::Node(*kind, children.len(), QuotientEdges { list }))?;
            waiting.append(&mut children.list)?;
            return Ok(());
        }
    }
}
