//! The outline of the tree of a graph: a node each turn, with those of its first children that are
//! names alone, and the first of the others next. No pairs of children are looked for.
ghost use Rattle.std.specs.Prelude.{◌≡◌, ◌<◌, ◌≤◌, ℕ, List, [], ◌∷◌, ◌++◌, reverse, length, vec_len, vec_capacity, Option, Some, IfOk};
ghost use Rattle.md_graph.specs.PlainGraph.{adjacent};
ghost use Rattle.md_graph.specs.Sets.{NameSet, Within, HasSome, HasTwo};
ghost use Rattle.md_tree.specs.Trees.{PlainTree};
ghost use Rattle.md_tree.specs.StrongTrees.{IsTreeOf, IsTree};
ghost use Rattle.md_outline.specs.Outlines.{outline_of, outline_option};
ghost use Rattle.md_decompose.specs.Children.{FitsBelow};
ghost use Rattle.md_decompose.specs.Turns.{open_names, IsNoVertexAlone, IsUnder, FitsOpen, HasChain, HasNoChain, IsFirstOpen, AreOpenFrom, IsOutlinePartOf, AreNamesPushed, TakesOutlined};
ghost use Rattle.md_decompose.specs.Chains.{IsChainOf, step_at};
ghost use Rattle.md_decompose.specs.declared.decomposition.Open.{Open};

use crate::children::kind_and_sets;
use crate::decomposition::{Open, OpenSet, first_open, open_set};
use crate::nested_modules::Nested;
use md_graph::{GraphOf, Memory, Set};
use md_modules::CompactSet;
use md_outline::OutlinePart;
use md_tree::Kind;
use std::alloc::Global;

/// The outline of the tree of strong modules of a graph, without parts exactly for the graph
/// without vertices: each node before those below it, and children in ascending order of their
/// least names. Errors: want of memory.
pub fn graph_outline<const W: usize>(
    alloc: Global,
    graph: &GraphOf<W>,
) -> Result<Vec<OutlinePart<Kind>>, Memory>
    ensures outline { IfOk result (λ parts. (t : Option PlainTree)
        × IsTree (adjacent graph.now) graph.now.vertices t × (parts.items ≡ outline_option t)) }
{
    let mut parts = Vec::new(alloc);
    fill_outline(alloc, graph, &mut parts)?;
    Ok(parts)
}

/// The same in place of the parts that are handed in, whose memory is kept. Errors: want of memory;
/// some parts are left then.
pub fn fill_outline<const W: usize>(
    alloc: Global,
    graph: &GraphOf<W>,
    parts: &mut Vec<OutlinePart<Kind>>,
) -> Result<(), Memory>
    ensures outline { IfOk result (λ _. (t : Option PlainTree)
        × IsTree (adjacent graph.now) graph.now.vertices t
        × (parts.new.items ≡ outline_option t)) }
{
    parts.clear();
    let names = graph.vertices();
    let Some(_) = names.first_from(0) else {
        return Ok(());
    };
    lay_parts(alloc, graph, names, parts)
}

// The outline of the tree of the graph on the names, of which there is one, where there are no
// parts yet. A prime graph has one part more than vertices; room for so many is taken at once.
fn lay_parts<const W: usize>(
    alloc: Global,
    graph: &GraphOf<W>,
    names: &Set<W>,
    parts: &mut Vec<OutlinePart<Kind>>,
) -> Result<(), Memory>
    requires some { HasSome names.now }
    requires inside { Within names.now graph.now.vertices }
    requires none { parts.old.items ≡ [] }
    ensures { IfOk result (λ _. (t : PlainTree)
        × IsTreeOf (adjacent graph.now) names.now t × (parts.new.items ≡ outline_of t)) }
{
    let _vertices = graph.vertices();
    parts.reserve(names.count() as usize + 1)?;
    let mut waiting = first_open(alloc, names)?;
    while let Some(next) = waiting.pop() {
        outline_apart(alloc, graph, next, parts, &mut waiting)?;
    }
    Ok(())
}

// The part of what waited comes behind the parts so far, then its first children as long as they
// are names alone, and the others come behind what waits.
fn outline_apart<const W: usize>(
    alloc: Global,
    graph: &GraphOf<W>,
    next: Open<W>,
    parts: &mut Vec<OutlinePart<Kind>>,
    waiting: &mut Vec<Open<W>>,
) -> Result<(), Memory>
    requires two { IsNoVertexAlone next }
    requires inside { Within (open_names next) graph.now.vertices }
    requires below { FitsOpen (adjacent graph.now) next }
    requires chain { HasChain (adjacent graph.now) next }
    ensures { IfOk result (λ _. TakesOutlined
        (IsOutlinePartOf (adjacent graph.now) (open_names next.entry))
        parts.old.items waiting.old.items parts.new.items waiting.new.items) }
{
    match next {
        Open::One(name) => {
            parts.push(OutlinePart::Name(name))?;
            Ok(())
        }
        Open::Several(set) => outline_set_apart(alloc, graph, set, parts, waiting),
    }
}

// The same of a set.
fn outline_set_apart<const W: usize>(
    alloc: Global,
    graph: &GraphOf<W>,
    set: OpenSet<W>,
    parts: &mut Vec<OutlinePart<Kind>>,
    waiting: &mut Vec<Open<W>>,
) -> Result<(), Memory>
    requires two { HasTwo set.names }
    requires inside { Within set.names graph.now.vertices }
    requires below { FitsBelow (adjacent graph.now) set.names set.parent }
    requires chain { IsChainOf (adjacent graph.now) set.names set.chain }
    ensures { IfOk result (λ _. TakesOutlined (IsOutlinePartOf (adjacent graph.now) set.entry.names)
        parts.old.items waiting.old.items parts.new.items waiting.new.items) }
{
    let _vertices = graph.vertices();
    let OpenSet {
        names,
        parent,
        mut chain,
    } = set;
    let mut room = None;
    let set = names.set_in(&mut room);
    let (kind, sets) = kind_and_sets(alloc, graph, set, parent, &mut chain)?;
    parts.push(OutlinePart::Node(kind, sets.len() as u32))?;
    let count = push_names(parts, &sets)?;
    push_backward(alloc, waiting, kind, sets, count, &chain)
}

// The parts of the first sets, as long as they are names alone. Answers how many they are.
fn push_names<const W: usize>(
    parts: &mut Vec<OutlinePart<Kind>>,
    sets: &[CompactSet<W>],
) -> Result<usize, Memory>
    ensures { IfOk result (λ count. AreNamesPushed count sets.now parts.old.items parts.new.items) }
{
    for (place, set) in sets.iter().enumerate() {
        let Some(name) = set.alone() else {
            return Ok(place);
        };
        parts.push(OutlinePart::Name(name))?;
    }
    Ok(sets.len())
}

// The sets from a place on, from the last to the first, so that the first one is taken apart next.
// The first of all gets the modules of the chain that lie in it.
fn push_backward<const W: usize>(
    alloc: Global,
    waiting: &mut Vec<Open<W>>,
    kind: Kind,
    sets: Vec<CompactSet<W>>,
    from: usize,
    chain: &Nested,
) -> Result<(), Memory>
    requires from { from ≤ length sets.items }
    requires chain { (k : ℕ) → k < length chain.now.steps.items
        → (step_at chain.now.steps.items k).to ≤ length chain.now.taken.items }
    ensures { IfOk result (λ _. (os : List (Open W))
        × (waiting.new.items ≡ waiting.old.items ++ reverse os)
        × AreOpenFrom kind from sets.entry.items chain.now os) }
{
    waiting.reserve(sets.len())?;
    let mut left = sets;
    let others = from.max(1);
    while left.len() > others {
        push_last(alloc, waiting, kind, &mut left);
    }
    if from > 0 {
        return Ok(());
    }
    push_first(alloc, waiting, kind, left, chain)
}

// The last of the sets goes behind what waits, with no module.
fn push_last<const W: usize>(
    alloc: Global,
    waiting: &mut Vec<Open<W>>,
    kind: Kind,
    left: &mut Vec<CompactSet<W>>,
)
    requires some { 0 < vec_len left.old }
    requires room { vec_len waiting.old < vec_capacity waiting.old }
    ensures moved { (c : NameSet) × (o : Open W) × (left.old.items ≡ left.new.items ++ c ∷ [])
        × (waiting.new.items ≡ waiting.old.items ++ o ∷ [])
        × (open_names o ≡ c) × IsUnder (Some kind) o × HasNoChain o }
    ensures room { vec_capacity waiting.new ≡ vec_capacity waiting.old }
{
    if let Some(names) = left.pop() {
        waiting.push_reserved(open_set(names, Some(kind), Nested::none(alloc)));
    }
}

// The first child's set, if it is left, goes behind what waits, with the modules of the chain that
// lie in it.
fn push_first<const W: usize>(
    alloc: Global,
    waiting: &mut Vec<Open<W>>,
    kind: Kind,
    left: Vec<CompactSet<W>>,
    chain: &Nested,
) -> Result<(), Memory>
    requires { (k : ℕ) → k < length chain.now.steps.items
        → (step_at chain.now.steps.items k).to ≤ length chain.now.taken.items }
    ensures { IfOk result (λ _. ((c : NameSet) (cs : List NameSet)
        → left.entry.items ≡ cs ++ c ∷ []
        → (o : Open W) × (waiting.new.items ≡ waiting.old.items ++ o ∷ [])
        × IsFirstOpen kind c chain.now o)
        × (left.entry.items ≡ [] → waiting.new.items ≡ waiting.old.items)) }
{
    let mut left = left;
    let Some(first) = left.pop() else {
        return Ok(());
    };
    let chain = chain.within(alloc, first.count() as usize)?;
    waiting.push(open_set(first, Some(kind), chain))?;
    Ok(())
}
