//! The tree of a graph: the sets that are still to be taken apart are taken from the end of a
//! vector, one node each turn.
ghost use Rattle.std.specs.Prelude.{◌≡◌, ◌<◌, ◌≤◌, ℕ, List, [], ◌∷◌, ◌++◌, length, map, None, IfOk, IfSome, IfNone};
ghost use Rattle.md_graph.specs.PlainGraph.{adjacent};
ghost use Rattle.md_graph.specs.Sets.{Within, HasSome, HasTwo, only_name};
ghost use Rattle.md_tree.specs.Trees.{PlainTree};
ghost use Rattle.md_tree.specs.StrongTrees.{IsTreeOf, IsTree};
ghost use Rattle.md_tree.specs.TreeGraph.{graph_of_tree};
ghost use Rattle.md_tree.specs.WellFormed.{IsWellFormed};
ghost use Rattle.md_tree.specs.Plain.{plain_option};
ghost use Rattle.md_decompose.specs.Children.{FitsBelow};
ghost use Rattle.md_tree.specs.Parts.{plain_part, parts_of};
ghost use Rattle.md_decompose.specs.Turns.{open_names, IsNoVertexAlone, IsUnder, FitsOpen, HasChain, HasNoChain, IsOpenOf, AreOpen, IsPartOf, TakesApart};
ghost use Rattle.md_decompose.specs.Chains.{IsChainOf, step_at};
ghost use Rattle.md_decompose.specs.declared.decomposition.Open.{Open};

use crate::children::children;
use crate::nested_modules::Nested;
use md_graph::{GraphOf, Memory, Set};
use md_modules::CompactSet;
use md_tree::{Kind, Part, Tree, build};
use std::alloc::Global;

// What waits to be taken apart: a vertex alone, or a set of vertices.
#[derive(Drop)]
pub(crate) enum Open<const W: usize> {
    One(u32),
    Several(OpenSet<W>),
}

// A set of two vertices or more whose tree is to come, the kind of the node above it, and modules
// of the set that hold its least name.
#[derive(Drop)]
pub(crate) struct OpenSet<const W: usize> {
    pub(crate) names: CompactSet<W>,
    pub(crate) parent: Option<Kind>,
    pub(crate) chain: Nested,
}

/// The tree of the strong modules of a graph, none exactly for the graph without vertices: the leaf
/// sets of its nodes are exactly the strong modules, each once, each node has the kind of its leaf
/// set, children stand in ascending order of their least names, and a prime node lists exactly the
/// pairs of children between which edges run. Errors: want of memory.
pub fn decompose<const W: usize>(alloc: Global, graph: &GraphOf<W>) -> Result<Option<Tree>, Memory>
    ensures tree { IfOk result (λ tree.
        IsTree (adjacent graph.now) graph.now.vertices (plain_option tree)) }
    ensures well_formed { IfOk result (λ tree. IsWellFormed (plain_option tree)) }
    ensures denotes { IfOk result (λ tree. graph_of_tree (plain_option tree) ≡ graph.now) }
{
    decompose_within(alloc, graph, graph.vertices())
}

/// The tree of the strong modules of the graph on a set of its vertices, none exactly for the set
/// without members; no graph is made for it. Condition: the names are vertices. Errors: want of
/// memory.
pub fn decompose_within<const W: usize>(
    alloc: Global,
    graph: &GraphOf<W>,
    names: &Set<W>,
) -> Result<Option<Tree>, Memory>
    requires { Within names.now graph.now.vertices }
    ensures tree { IfOk result (λ tree.
        IsTree (adjacent graph.now) names.now (plain_option tree)) }
{
    let Some(_) = names.first_from(0) else {
        return Ok(None);
    };
    let parts = parts(alloc, graph, names)?;
    Ok(Some(build(alloc, parts)?))
}

// The parts of the tree of the graph on the names, of which there is one. A prime graph has one
// more than vertices; room for so many is taken at once, and for as many that wait.
fn parts<const W: usize>(
    alloc: Global,
    graph: &GraphOf<W>,
    names: &Set<W>,
) -> Result<Vec<Part>, Memory>
    requires some { HasSome names.now }
    requires inside { Within names.now graph.now.vertices }
    ensures { IfOk result (λ parts. (t : PlainTree)
        × IsTreeOf (adjacent graph.now) names.now t
        × (map plain_part parts.items ≡ parts_of t)) }
{
    let _vertices = graph.vertices();
    let mut parts = Vec::with_capacity(alloc, names.count() as usize + 1)?;
    let mut waiting = first_open(alloc, names)?;
    let mut places = Vec::new(alloc);
    while let Some(next) = waiting.pop() {
        take_apart(alloc, graph, next, &mut parts, &mut waiting, &mut places)?;
    }
    Ok(parts)
}

// What waits at first: all the names. Room is taken for one more than there are.
pub(crate) fn first_open<const W: usize>(
    alloc: Global,
    names: &Set<W>,
) -> Result<Vec<Open<W>>, Memory>
    ensures { IfOk result (λ waiting. (o : Open W) × (waiting.items ≡ o ∷ [])
        × (open_names o ≡ names.now) × IsUnder None o × HasNoChain o) }
{
    let mut waiting = Vec::with_capacity(alloc, names.count() as usize + 1)?;
    let whole = CompactSet::of(alloc, names)?;
    waiting.push(open_set(whole, None, Nested::none(alloc)))?;
    Ok(waiting)
}

// The part of what waited comes behind the parts so far, and its children behind what waits.
fn take_apart<const W: usize>(
    alloc: Global,
    graph: &GraphOf<W>,
    next: Open<W>,
    parts: &mut Vec<Part>,
    waiting: &mut Vec<Open<W>>,
    places: &mut Vec<u32>,
) -> Result<(), Memory>
    requires two { IsNoVertexAlone next }
    requires inside { Within (open_names next) graph.now.vertices }
    requires below { FitsOpen (adjacent graph.now) next }
    requires chain { HasChain (adjacent graph.now) next }
    ensures { IfOk result (λ _. TakesApart (IsPartOf (adjacent graph.now) (open_names next.entry))
        (map plain_part parts.old.items) waiting.old.items
        (map plain_part parts.new.items) waiting.new.items) }
{
    match next {
        Open::One(name) => {
            parts.push(Part::Leaf(name))?;
            Ok(())
        }
        Open::Several(set) => take_set_apart(alloc, graph, set, parts, waiting, places),
    }
}

// The same of a set.
fn take_set_apart<const W: usize>(
    alloc: Global,
    graph: &GraphOf<W>,
    set: OpenSet<W>,
    parts: &mut Vec<Part>,
    waiting: &mut Vec<Open<W>>,
    places: &mut Vec<u32>,
) -> Result<(), Memory>
    requires two { HasTwo set.names }
    requires inside { Within set.names graph.now.vertices }
    requires below { FitsBelow (adjacent graph.now) set.names set.parent }
    requires chain { IsChainOf (adjacent graph.now) set.names set.chain }
    ensures { IfOk result (λ _. TakesApart (IsPartOf (adjacent graph.now) set.entry.names)
        (map plain_part parts.old.items) waiting.old.items
        (map plain_part parts.new.items) waiting.new.items) }
{
    let OpenSet {
        names,
        parent,
        mut chain,
    } = set;
    let mut room = None;
    let set = names.set_in(&mut room);
    let (kind, sets, edges) = children(alloc, graph, set, parent, &mut chain, places)?;
    parts.push(Part::Node(kind, sets.len() as u64, edges))?;
    push_open(alloc, waiting, kind, sets, &chain)
}

// A set that is to be taken apart, with its chain.
#[inline(always)]
pub(crate) fn open_set<const W: usize>(
    names: CompactSet<W>,
    parent: Option<Kind>,
    chain: Nested,
) -> Open<W>
    ensures { IsOpenOf names.entry parent chain result }
{
    if let Some(vertex) = names.alone() {
        return Open::One(vertex);
    }
    Open::Several(OpenSet {
        names,
        parent,
        chain,
    })
}

// The children's sets in order, so that the last one is taken apart first. The first one gets the
// modules of the chain that lie in it.
fn push_open<const W: usize>(
    alloc: Global,
    waiting: &mut Vec<Open<W>>,
    kind: Kind,
    sets: Vec<CompactSet<W>>,
    chain: &Nested,
) -> Result<(), Memory>
    requires { (k : ℕ) → k < length chain.now.steps.items
        → (step_at chain.now.steps.items k).to ≤ length chain.now.taken.items }
    ensures { IfOk result (λ _. (os : List (Open W))
        × (waiting.new.items ≡ waiting.old.items ++ os)
        × AreOpen kind sets.entry.items chain.now os) }
{
    waiting.reserve(sets.len())?;
    let mut rest = sets.into_iter();
    let Some(first) = rest.next() else {
        return Ok(());
    };
    let chain = chain.within(alloc, first.count() as usize)?;
    let next = open_set(first, Some(kind), chain);
    waiting.push_reserved(next);
    for names in rest {
        let next = open_set(names, Some(kind), Nested::none(alloc));
        waiting.push_reserved(next);
    }
    Ok(())
}
