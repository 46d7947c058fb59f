//! The tree of a directed graph: the sets that are still to be taken apart are taken from the end
//! of a vector, one node each turn.
ghost use Rattle.std.specs.Prelude.{◌≡◌, ℕ, List, ◌++◌, map, IfOk};
ghost use Rattle.md_graph.specs.Sets.{Within, HasSome};
ghost use Rattle.md_digraph.specs.PlainDigraph.{has_arc_to};
ghost use Rattle.md_tree.specs.Plain.{plain_option};
ghost use Rattle.md_tree.specs.Parts.{plain_part, parts_of};
ghost use Rattle.md_dtree.specs.DirectedTrees.{PlainDTree, IsDirectedTreeOf, IsDirectedTree};
ghost use Rattle.md_ddecompose.specs.Children.{DiffersFrom};
ghost use Rattle.md_ddecompose.specs.Turns.{open_below, IsTakenApart};

use crate::children::children;
use md_digraph::DigraphOf;
use md_dtree::{DKind, DPair, DTree};
use md_graph::{Memory, Set};
use md_modules::CompactSet;
use md_tree::{PartOf, build};
use std::alloc::Global;

// A set of vertices whose tree is to come, and the kind of the node above it.
#[derive(Drop)]
struct Open<const W: usize> {
    names: CompactSet<W>,
    parent: Option<DKind>,
}

/// The tree of the strong modules of a directed graph, none exactly for the one without vertices:
/// the leaf sets of its nodes are exactly the strong modules, each once, each node has the kind of
/// its leaf set, all arcs between children of an order node run from earlier to later ones, other
/// children stand in ascending order of their least names, and a prime node lists exactly the pairs
/// of children with arcs from the first to the second. Errors: want of memory.
pub fn decompose_directed<const W: usize>(
    alloc: Global,
    graph: &DigraphOf<W>,
) -> Result<Option<DTree>, Memory>
    ensures tree { IfOk result (λ tree.
        IsDirectedTree (has_arc_to graph.now) graph.now.vertices (plain_option tree)) }
{
    let names = graph.vertices();
    let Some(_) = names.first_from(0) else {
        return Ok(None);
    };
    let parts = parts(alloc, graph)?;
    Ok(Some(build(alloc, parts)?))
}

// The parts of the tree of the directed graph. A prime graph has one more than vertices; room for
// so many is taken at once, and for as many that wait.
fn parts<const W: usize>(
    alloc: Global,
    graph: &DigraphOf<W>,
) -> Result<Vec<PartOf<DKind, DPair>>, Memory>
    requires { HasSome graph.now.vertices }
    ensures { IfOk result (λ parts. (t : PlainDTree)
        × IsDirectedTreeOf (has_arc_to graph.now) graph.now.vertices t
        × (map plain_part parts.items ≡ parts_of t)) }
{
    let names = graph.vertices();
    let mut parts = Vec::with_capacity(alloc, names.count() as usize + 1)?;
    let mut waiting = Vec::with_capacity(alloc, names.count() as usize + 1)?;
    waiting.push(Open {
        names: CompactSet::of(alloc, names)?,
        parent: None,
    })?;
    let mut places = Vec::new(alloc);
    while let Some(next) = waiting.pop() {
        take_apart(alloc, graph, next, &mut parts, &mut waiting, &mut places)?;
    }
    Ok(parts)
}

// The part of what waited comes behind the parts so far, and its children behind what waits.
fn take_apart<const W: usize>(
    alloc: Global,
    graph: &DigraphOf<W>,
    next: Open<W>,
    parts: &mut Vec<PartOf<DKind, DPair>>,
    waiting: &mut Vec<Open<W>>,
    places: &mut Vec<u32>,
) -> Result<(), Memory>
    requires some { HasSome next.names }
    requires inside { Within next.names graph.now.vertices }
    requires below { DiffersFrom (has_arc_to graph.now) next.names next.parent }
    ensures { IfOk result (λ _. IsTakenApart (has_arc_to graph.now) next.entry.names
        (map plain_part parts.old.items) waiting.old.items
        (map plain_part parts.new.items) waiting.new.items) }
{
    let Open { names, parent } = next;
    if let Some(name) = names.alone() {
        parts.push(PartOf::Leaf(name))?;
        return Ok(());
    }
    let mut room = None;
    let set = names.set_in(&mut room);
    let (kind, sets, pairs) = children(alloc, graph, set, parent, places)?;
    parts.push(PartOf::Node(kind, sets.len() as u64, pairs))?;
    push_open(waiting, kind, sets)
}

// The children's sets in order, so that the last one is taken apart first.
fn push_open<const W: usize>(
    waiting: &mut Vec<Open<W>>,
    kind: DKind,
    sets: Vec<CompactSet<W>>,
) -> Result<(), Memory>
    ensures { IfOk result (λ _. waiting.new.items
        ≡ waiting.old.items ++ map (open_below kind) sets.entry.items) }
{
    for names in sets {
        waiting.push(Open {
            names,
            parent: Some(kind),
        })?;
    }
    Ok(())
}
