//! The pairs of children that a prime node lists: the edges of its quotient.
ghost use Rattle.std.specs.Prelude.{◌*◌, ◌≡◌, ◌<◌, ◌≤◌, ◌++◌, ℕ, IfOk, AllPairs, length, map};
ghost use Rattle.std.specs.FinSet.{intersection};
ghost use Rattle.md_graph.specs.NameSet.{ascending};
ghost use Rattle.md_graph.specs.PlainGraph.{adjacent};
ghost use Rattle.md_graph.specs.Sets.{Has, Within, HasSome};
ghost use Rattle.md_modules.specs.Kinds.{IsPrime};
ghost use Rattle.md_tree.specs.Spellings.{graph_pairs};
ghost use Rattle.md_tree.specs.StrongTrees.{IsBefore};
ghost use Rattle.md_decompose.specs.Children.{AreChildren, ListsPairs, set_at};
ghost use Rattle.md_decompose.specs.Heads.{AreNear, HoldsHeads, RisesOn, pair_at, ListsHeadPairs};

use md_graph::{GraphOf, Memory, NAMES, Set, WORDS};
use md_modules::CompactSet;
use md_tree::{Pair, Paired, QuotientEdges};
use std::alloc::Global;

// So many heads are few.
const FEW: usize = 16;

// The pairs of children of a prime set between which an edge runs, by their positions. The first
// names of two children are adjacent exactly where an edge runs between them. `places` is where the
// positions are kept meanwhile, whatever it has: one for all nodes.
pub(crate) fn quotient_edges<const W: usize>(
    alloc: Global,
    graph: &GraphOf<W>,
    set: &Set<W>,
    sets: &[CompactSet<W>],
    places: &mut Vec<u32>,
) -> Result<QuotientEdges, Memory>
    requires inside { Within set.now graph.now.vertices }
    requires prime { IsPrime (adjacent graph.now) set.now }
    requires children { AreChildren (adjacent graph.now) set.now sets.now }
    ensures { IfOk result (λ edges. ListsPairs (adjacent graph.now) sets.now edges.list.items) }
{
    make_room(places, set)?;
    pairs_by_places(alloc, graph, set, sets, places)
}

/// Makes room in `places` for a place at each name of the set. Errors: want of memory.
#[inline]
pub fn make_room<const W: usize>(places: &mut Vec<u32>, set: &Set<W>) -> Result<(), Memory>
    ensures room { IfOk result (λ _. (v : ℕ) → Has set.now v → v < length places.new.items) }
{
    let Some(last) = set.last() else {
        return Ok(());
    };
    lengthen(places, last as usize + 1)
}

fn lengthen(places: &mut Vec<u32>, size: usize) -> Result<(), Memory>
    ensures { IfOk result (λ _. size ≤ length places.new.items) }
{
    if places.len() < size {
        places.resize(size, 0)?;
    }
    Ok(())
}

// The same, with room for a place at each name of the set.
fn pairs_by_places<const W: usize>(
    alloc: Global,
    graph: &GraphOf<W>,
    set: &Set<W>,
    sets: &[CompactSet<W>],
    places: &mut [u32],
) -> Result<QuotientEdges, Memory>
    requires inside { Within set.now graph.now.vertices }
    requires prime { IsPrime (adjacent graph.now) set.now }
    requires children { AreChildren (adjacent graph.now) set.now sets.now }
    requires room { (v : ℕ) → Has set.now v → v < length places.old }
    ensures { IfOk result (λ edges. ListsPairs (adjacent graph.now) sets.now edges.list.items) }
{
    let _vertices = graph.vertices();
    let heads = heads_of(sets, places);
    let list = head_pairs(alloc, graph, &heads, places)?;
    Ok(QuotientEdges { list })
}

/// The least name of each set, and in `places` at each of them the position of its set. Conditions:
/// `W` is at most `WORDS`, no set is empty, each has a name below all of those behind it, and there
/// is room for a place at each name.
#[inline]
pub fn heads_of<const W: usize>(sets: &[CompactSet<W>], places: &mut [u32]) -> Set<W>
    requires limit { W ≤ WORDS }
    requires room { (k v : ℕ) → k < length sets.now → Has (set_at sets.now k) v
        → v < length places.old }
    requires some { (k : ℕ) → k < length sets.now → HasSome (set_at sets.now k) }
    requires order { AllPairs IsBefore sets.now }
    ensures heads { HoldsHeads sets.now (length sets.now) result places.new }
    ensures size { length places.new ≡ length places.old }
{
    let mut heads = Set::none();
    for (place, set) in sets.iter().enumerate() {
        let Some(head) = set.first() else {
            return heads;
        };
        heads.insert(head);
        places[head as usize] = place as u32;
    }
    heads
}

// The pairs of adjacent heads, by their places. Room is taken for all of them at once.
fn head_pairs<const W: usize>(
    alloc: Global,
    graph: &GraphOf<W>,
    heads: &Set<W>,
    places: &[u32],
) -> Result<Vec<Pair>, Memory>
    requires inside { Within heads.now graph.now.vertices }
    requires room { (v : ℕ) → Has heads.now v → v < length places.now }
    requires rising { RisesOn heads.now places.now }
    ensures { IfOk result (λ edges. ListsHeadPairs graph_pairs
        (AreNear (adjacent graph.now) heads.now) places.now NAMES 0 edges.items) }
{
    let _vertices = graph.vertices();
    let mut edges = Vec::with_capacity(alloc, pair_room(graph, heads))?;
    let mut later = heads.copy();
    for head in heads.members() {
        later.remove(head);
        push_near(graph.neighbours(head), &later, places, head, &mut edges)?;
    }
    Ok(edges)
}

// Room for the pairs of adjacent heads: for as many as there are, or for all pairs of a few heads,
// which is little and needs no count.
fn pair_room<const W: usize>(graph: &GraphOf<W>, heads: &Set<W>) -> usize {
    let count = heads.count() as usize;
    if count <= FEW {
        return FEW * (FEW - 1) / 2;
    }
    let others = graph.vertices().minus(heads);
    let mut near = Set::none();
    let mut ends: usize = 0;
    for head in heads.members() {
        near.set_to_difference(graph.row(head), &others, &others);
        ends = ends.wrapping_add(near.count() as usize);
    }
    ends / 2
}

/// Puts behind `pairs` those of `head` and each one of `among` that `row` has, by their places, in
/// ascending order of these names. Condition: there is a place at each of the names. Errors: want
/// of memory.
#[inline(always)]
pub fn push_near<P: Paired, const W: usize>(
    row: &Set<W>,
    among: &Set<W>,
    places: &[u32],
    head: u32,
    pairs: &mut Vec<P>,
) -> Result<(), Memory>
    requires own { head < length places.now }
    requires room { (v : ℕ) → Has among.now v → v < length places.now }
    ensures pairs { IfOk result (λ _. pairs.new.items ≡ pairs.old.items
        ++ map (pair_at P.rules places.now head) (ascending (intersection row.now among.now))) }
{
    let first = places[head as usize];
    let near = row.and(among);
    pairs.reserve(near.count() as usize)?;
    for other in near.members() {
        pairs.push_reserved(P::pair(first, places[other as usize]));
    }
    Ok(())
}
