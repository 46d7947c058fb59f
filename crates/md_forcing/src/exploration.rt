//! The exploration of a class.
ghost use Rattle.std.specs.Prelude.{◌≡◌, ◌++◌, ℕ, ◌<◌, ◌≤◌, ◌^◌, length, map, IfOk, OnOk};
ghost use Rattle.std.specs.Map.{keys_of};
ghost use Rattle.md_graph.specs.Sets.{Has};
ghost use Rattle.md_graph.specs.NameSet.{ascending};
ghost use Rattle.md_graph.specs.PlainGraph.{adjacent};
ghost use Rattle.md_forcing.specs.declared.arc.Arc.{Arc};
ghost use Rattle.md_forcing.specs.Lists.{Holds};
ghost use Rattle.md_forcing.specs.Forcing.{arc, IsArc};
ghost use Rattle.md_forcing.specs.Sides.{adjacent_on};
ghost use Rattle.md_forcing.specs.ArcSet.{HasArc, IsForcingClosed};
ghost use Rattle.md_forcing.specs.Classes.{IsClass, TakesClass};
ghost use Rattle.md_forcing.specs.Turns.{TakesForced, tail_entry, head_entry};

use crate::{Arc, ArcSetOf, Class, ForcingTree, Side};
use md_graph::{GraphOf, Memory, Set};
use std::alloc::Global;

/// What explorations of a graph, one after the other, have seen, and the trail of the last of them.
#[derive(Drop)]
pub struct Explored<const W: usize> {
    pub seen: ArcSetOf<W>,
    pub trail: ForcingTree,
}

// What a turn finds, kept from turn to turn: the heads and the tails of new arcs.
#[derive(Drop)]
struct Found<const W: usize> {
    heads: Set<W>,
    tails: Set<W>,
}

/// The class of `first`: the arcs that it reaches by direct forcings. Condition: it is an arc of
/// the graph. Errors: want of memory.
pub fn close<const W: usize>(alloc: Global, graph: &GraphOf<W>, first: Arc) -> Result<Class, Memory>
    requires { IsArc (adjacent graph.now) first }
    ensures { IfOk result (IsClass (adjacent graph.now) first) }
{
    let trail = trail_of(alloc, graph, first)?;
    Class::from_trail(alloc, &trail)
}

/// The same class as the trail of its exploration, in which the arcs stand by how far they are from
/// the first. Condition: it is an arc of the graph. Errors: want of memory.
pub fn trail_of<const W: usize>(
    alloc: Global,
    graph: &GraphOf<W>,
    first: Arc,
) -> Result<ForcingTree, Memory>
    requires { IsArc (adjacent graph.now) first }
    ensures class { IfOk result (IsClass (adjacent graph.now) first) }
{
    let _vertices = graph.vertices();
    let seen = ArcSetOf::with_size(alloc, graph.bound())?;
    let mut explored = Explored {
        seen,
        trail: ForcingTree::new(alloc),
    };
    explore(graph, Side::Edges, first, &mut explored)?;
    Ok(explored.trail)
}

/// Makes the trail that of `first` in the graph or in its complement: the arcs of its class, which
/// join the seen arcs. The trail takes the memory. Conditions: `first` is an arc of this side that
/// isn't seen; the seen arcs have room for the vertices, and with an arc all that it forces are
/// seen. One that forces none makes no set. Errors: want of memory; the seen arcs and the trail are
/// of no use then, and keep their room.
// Never inlined, so that its turns have the registers to themselves.
#[inline(never)]
pub fn explore<const W: usize>(
    graph: &GraphOf<W>,
    side: Side,
    first: Arc,
    explored: &mut Explored<W>,
) -> Result<(), Memory>
    requires room { (v : ℕ) → Has graph.now.vertices v → v < length explored.old.seen }
    requires is_arc { IsArc (adjacent_on side graph.now) first }
    requires fresh { HasArc explored.old.seen first → ⊥ }
    requires closed { IsForcingClosed (adjacent_on side graph.now) explored.old.seen }
    ensures class { OnOk result (IsClass (adjacent_on side graph.now) first explored.new.trail) }
    ensures taken { OnOk result
        (TakesClass explored.old.seen explored.new.trail explored.new.seen) }
    ensures closed { OnOk result
        (IsForcingClosed (adjacent_on side graph.now) explored.new.seen) }
    ensures room { length explored.new.seen ≡ length explored.old.seen }
{
    let _vertices = graph.vertices();
    explored.trail.clear();
    explored.trail.push(first, 0)?;
    explored.seen.put(first);
    if explored.seen.has_forced_by(graph, side, first) {
        return Ok(());
    }
    let mut found = Found {
        heads: Set::none(),
        tails: Set::none(),
    };
    let mut at = 0usize;
    while (at as u64) < explored.trail.len() {
        turn(graph, side, at, explored, &mut found)?;
        at += 1;
    }
    Ok(())
}

// Takes in the arcs that the arc at a place forces directly and that aren't seen. Condition: the
// arcs of the trail are seen, and are arcs of this side; the seen arcs have room for the vertices.
fn turn<const W: usize>(
    graph: &GraphOf<W>,
    side: Side,
    at: usize,
    explored: &mut Explored<W>,
    found: &mut Found<W>,
) -> Result<(), Memory>
    requires room { (v : ℕ) → Has graph.now.vertices v → v < length explored.old.seen }
    requires more { at < length explored.old.trail }
    requires few { at < 2 ^ 32 }
    requires arcs { (a : Arc) → Holds (keys_of explored.old.trail) a
        → IsArc (adjacent_on side graph.now) a }
    requires seen { (a : Arc) → Holds (keys_of explored.old.trail) a
        → HasArc explored.old.seen a }
    ensures taken { OnOk result (TakesForced (adjacent_on side graph.now) at
        explored.old.seen explored.old.trail explored.new.seen explored.new.trail) }
    ensures room { length explored.new.seen ≡ length explored.old.seen }
{
    let _vertices = graph.vertices();
    let (by, _) = explored.trail.entry(at);
    let place = at as u32;
    let Explored { seen, trail } = explored;
    seen.unseen_heads(graph, side, by, &mut found.heads);
    seen.unseen_tails(graph, side, by, &mut found.tails);
    // Most arcs force none that isn't seen.
    if found.heads.is_empty() && found.tails.is_empty() {
        return Ok(());
    }
    seen.take_heads(by.tail, &found.heads);
    seen.take_tails(&found.tails, by.head);
    push_heads(trail, by.tail, &found.heads, place)?;
    push_tails(trail, &found.tails, by.head, place)?;
    Ok(())
}

// Takes in the arcs from `tail` to each of `heads`, ascending, with a place.
fn push_heads<const W: usize>(
    trail: &mut ForcingTree,
    tail: u32,
    heads: &Set<W>,
    place: u32,
) -> Result<(), Memory>
    ensures { OnOk result
        (trail.new ≡ trail.old ++ map (tail_entry tail place) (ascending heads.now)) }
{
    for head in heads.members() {
        trail.push(Arc { tail, head }, place)?;
    }
    Ok(())
}

// Takes in the arcs from each of `tails`, ascending, to `head`, with a place.
fn push_tails<const W: usize>(
    trail: &mut ForcingTree,
    tails: &Set<W>,
    head: u32,
    place: u32,
) -> Result<(), Memory>
    ensures { OnOk result
        (trail.new ≡ trail.old ++ map (head_entry head place) (ascending tails.now)) }
{
    for tail in tails.members() {
        trail.push(Arc { tail, head }, place)?;
    }
    Ok(())
}
