//! The children of a set that splits with all arcs from one part to the other and none back.
//!
//! The balance of a name is the number of arcs from it to names of the set, less those to it. Each
//! name of a first part has a greater balance than each name behind the part; and some names are a
//! first part exactly where their balances sum to the number of pairs of one of them and one of the
//! others. So the names are ranked by their balance, and the set is cut wherever the sums agree. A
//! few looks before that mostly see that a set which doesn't split so has no such part.
ghost use Rattle.std.specs.Prelude.{◌≡◌, ◌≤◌, ◌+◌, ◌-◌, ◌*◌, ◌⊎◌, ◌↔◌, ◌++◌, ◌∷◌, [], false, IfOk, IsTrue, MatchOption};
ghost use Rattle.std.specs.FinSet.{empty};
ghost use Rattle.md_graph.specs.Sets.{Within, HasSome};
ghost use Rattle.md_digraph.specs.PlainDigraph.{has_arc_to};
ghost use Rattle.md_dtree.specs.DirectedTrees.{arc_forth, SplitsWith};
ghost use Rattle.md_dtree.specs.declared.DKind.TheVariants.{Order};
ghost use Rattle.md_ddecompose.specs.Children.{AreDirectedChildren};
ghost use Rattle.md_ddecompose.specs.Ranks.{AreRanked, AreUncutSegments};

use crate::order_search::may_split;
use md_digraph::{DIRECTED_NAMES, DigraphOf};
use md_graph::{Memory, Set};
use md_modules::CompactSet;
use std::alloc::Global;

// A name of a set, and how far the arcs to it outweigh those from it, counted from a number below
// all of these.
#[derive(Clone, Copy)]
struct Ranked {
    name: u32,
    lag: u32,
}

// The children of a set in their order, where it splits with all arcs from one part to the other
// and none back; none where it doesn't, which isn't searched where it is known (`whole`).
pub(crate) fn order_parts<const W: usize>(
    alloc: Global,
    graph: &DigraphOf<W>,
    set: &Set<W>,
    whole: bool,
) -> Result<Option<Vec<CompactSet<W>>>, Memory>
    requires inside { Within set.now graph.now.vertices }
    requires some { HasSome set.now }
    requires known { IsTrue whole → SplitsWith (has_arc_to graph.now) set.now arc_forth → ⊥ }
    ensures { IfOk result (λ found.
        MatchOption found (SplitsWith (has_arc_to graph.now) set.now arc_forth → ⊥)
        (λ sets. SplitsWith (has_arc_to graph.now) set.now arc_forth
        × AreDirectedChildren (has_arc_to graph.now) set.now Order sets.items)) }
{
    if whole {
        return Ok(None);
    }
    if !may_split(graph, set) {
        return Ok(None);
    }
    let ranks = ranks(alloc, graph, set)?;
    let parts = cut_ranks(alloc, graph, set, ranks)?;
    let count = parts.len();
    if count < 2 {
        return Ok(None);
    }
    Ok(Some(parts))
}

// The names of a set, those with the greatest balance first.
fn ranks<const W: usize>(
    alloc: Global,
    graph: &DigraphOf<W>,
    set: &Set<W>,
) -> Result<Vec<Ranked>, Memory>
    requires inside { Within set.now graph.now.vertices }
    ensures { IfOk result (λ ranks. AreRanked (has_arc_to graph.now) set.now ranks.items) }
{
    let _vertices = graph.vertices();
    let mut ranks = Vec::with_capacity(alloc, set.count() as usize)?;
    for name in set.members() {
        let out = graph.successors(name).and(set);
        let into = graph.predecessors(name).and(set);
        let (from, to) = (out.count(), into.count());
        let lag = to + DIRECTED_NAMES - from;
        ranks.push(Ranked { name, lag })?;
    }
    ranks.sort_unstable_by_key(|ranked| ranked.lag);
    Ok(ranks)
}

// The parts that the ranked names of a set are cut into, in order.
fn cut_ranks<const W: usize>(
    alloc: Global,
    graph: &DigraphOf<W>,
    set: &Set<W>,
    ranks: Vec<Ranked>,
) -> Result<Vec<CompactSet<W>>, Memory>
    requires inside { Within set.now graph.now.vertices }
    requires ranked { AreRanked (has_arc_to graph.now) set.now ranks.items }
    ensures { IfOk result (λ parts. AreUncutSegments (has_arc_to graph.now) set.now parts.items) }
{
    let _vertices = graph.vertices();
    set.within_limit();
    let count = ranks.len() as u64;
    let (mut first, mut lags) = (0, 0);
    let mut part = Set::none();
    let mut parts = Vec::new(alloc);
    for ranked in ranks {
        part.insert(ranked.name);
        first += 1;
        lags += ranked.lag as u64;
        let cut = is_cut(lags, first, count);
        end_part(alloc, cut, &mut part, &mut parts)?;
    }
    Ok(parts)
}

// A part goes to the list of parts, where it is cut off there.
fn end_part<const W: usize>(
    alloc: Global,
    cut: bool,
    part: &mut Set<W>,
    parts: &mut Vec<CompactSet<W>>,
) -> Result<(), Memory>
    ensures cut { IfOk result (λ _. IsTrue cut
        → (part.new ≡ empty) × (parts.new.items ≡ parts.old.items ++ part.old ∷ [])) }
    ensures uncut { IfOk result (λ _. cut ≡ false
        → (part.new ≡ part.old) × (parts.new.items ≡ parts.old.items)) }
{
    if !cut {
        return Ok(());
    }
    parts.push(CompactSet::of(alloc, part)?)?;
    part.clear();
    Ok(())
}

// Whether the first names of `count` ranked ones, whose lags sum to `lags`, are all of them or have
// balances that sum to the number of pairs of one of them and one of the others.
fn is_cut(lags: u64, first: u64, count: u64) -> bool
    requires lags { lags ≤ first * (2 * DIRECTED_NAMES) }
    requires first { first ≤ count }
    requires count { count ≤ DIRECTED_NAMES }
    ensures { IsTrue result
        ↔ ((first ≡ count) ⊎ (lags + first * (count - first) ≡ first * DIRECTED_NAMES)) }
{
    if first == count {
        return true;
    }
    let across = first * (count - first);
    lags + across == first * (DIRECTED_NAMES as u64)
}
