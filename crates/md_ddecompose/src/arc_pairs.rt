//! The pairs of children that a prime node lists: the arcs of its quotient.
ghost use Rattle.std.specs.Prelude.{◌≡◌, ℕ, ◌<◌, IfOk, length};
ghost use Rattle.md_graph.specs.Sets.{Has, Within};
ghost use Rattle.md_digraph.specs.PlainDigraph.{has_arc_to};
ghost use Rattle.md_digraph.specs.ArcColours.{between};
ghost use Rattle.md_tree.specs.StrongTrees.{ListsExactly};
ghost use Rattle.md_decompose.specs.Children.{AreChildren};
ghost use Rattle.md_decompose.specs.Heads.{RisesOn, ListsHeadPairs};
ghost use Rattle.md_dtree.specs.DirectedSpelling.{directed_pairs};
ghost use Rattle.md_ddecompose.specs.Children.{IsArcOfSets};
ghost use Rattle.md_ddecompose.specs.Heads.{IsHeadArc};

use md_decompose::{heads_of, make_room, push_near};
use md_digraph::DigraphOf;
use md_dtree::{DPair, DPairs};
use md_graph::{Memory, NAMES, Set};
use md_modules::CompactSet;
use std::alloc::Global;

// The pairs of children of a set with arcs from the one to the other, by their positions. An arc
// runs from the least name of one child to that of another exactly where arcs run between these.
// `places` is where the positions are kept meanwhile, whatever it has: one for all nodes.
pub(crate) fn arc_pairs<const W: usize>(
    alloc: Global,
    graph: &DigraphOf<W>,
    set: &Set<W>,
    sets: &[CompactSet<W>],
    places: &mut Vec<u32>,
) -> Result<DPairs, Memory>
    requires inside { Within set.now graph.now.vertices }
    requires children { AreChildren (between (has_arc_to graph.now)) set.now sets.now }
    ensures { IfOk result (λ pairs. ListsExactly directed_pairs
        (IsArcOfSets (has_arc_to graph.now) sets.now) pairs.list.items) }
{
    make_room(places, set)?;
    pairs_by_places(alloc, graph, set, sets, places)
}

// The same, with room for a place at each name of the set.
fn pairs_by_places<const W: usize>(
    alloc: Global,
    graph: &DigraphOf<W>,
    set: &Set<W>,
    sets: &[CompactSet<W>],
    places: &mut [u32],
) -> Result<DPairs, Memory>
    requires inside { Within set.now graph.now.vertices }
    requires children { AreChildren (between (has_arc_to graph.now)) set.now sets.now }
    requires room { (v : ℕ) → Has set.now v → v < length places.old }
    ensures { IfOk result (λ pairs. ListsExactly directed_pairs
        (IsArcOfSets (has_arc_to graph.now) sets.now) pairs.list.items) }
{
    let _vertices = graph.vertices();
    set.within_limit();
    let heads = heads_of(sets, places);
    let list = head_arcs(alloc, graph, &heads, places)?;
    Ok(DPairs { list })
}

// The pairs of heads with an arc from the one to the other, by their places.
fn head_arcs<const W: usize>(
    alloc: Global,
    graph: &DigraphOf<W>,
    heads: &Set<W>,
    places: &[u32],
) -> Result<Vec<DPair>, Memory>
    requires inside { Within heads.now graph.now.vertices }
    requires room { (v : ℕ) → Has heads.now v → v < length places.now }
    requires rising { RisesOn heads.now places.now }
    ensures { IfOk result (λ list. ListsHeadPairs directed_pairs
        (IsHeadArc (has_arc_to graph.now) heads.now) places.now NAMES 0 list.items) }
{
    let _vertices = graph.vertices();
    let mut list = Vec::new(alloc);
    for head in heads.members() {
        let row = graph.successors(head);
        push_near(row, heads, places, head, &mut list)?;
    }
    Ok(list)
}
