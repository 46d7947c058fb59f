//! The walk through the edges of a graph.
ghost use Rattle.std.specs.Prelude.{◌≡◌, ℕ, ◌+◌, ◌*◌, ◌<◌, ◌↔◌, true, false, length, IfOk};
ghost use Rattle.md_graph.specs.Sets.{Has};
ghost use Rattle.md_forcing.specs.Forcing.{IsArc};
ghost use Rattle.md_forcing.specs.Sides.{adjacent_on};
ghost use Rattle.md_comparability.specs.Walking.{HasArcOf, JoinsAlso, IsWalked, IsStopped, IsClassOrChosen, HasArcRoom};

use md_forcing::{Arc, ArcSetOf, Explored, ForcingTree, Side, explore};
use md_graph::{GraphOf, Memory, Set};
use std::alloc::Global;

/// Where a walk ends: at a class that holds the reverse of its first arc, with its trail, or with
/// the chosen arcs.
#[derive(Drop)]
pub enum ClassOrChosen<const W: usize> {
    Stopped(ForcingTree),
    Whole(ArcSetOf<W>),
}

/// Walks through the edges of a graph or of its complement, smaller ends first: to the first edge
/// that reaches its own reverse, with its trail; or, where there is none, through all edges, with
/// the arcs of the least-edge orientation. Each arc is explored once. Errors: want of memory.
pub fn orient_classes<const W: usize>(
    alloc: Global,
    graph: &GraphOf<W>,
    side: Side,
) -> Result<ClassOrChosen<W>, Memory>
    ensures ending { IfOk result (IsClassOrChosen (adjacent_on side graph.now)) }
    ensures room { IfOk result (HasArcRoom graph.now.vertices) }
{
    let _vertices = graph.vertices();
    let chosen = ArcSetOf::with_size(alloc, graph.bound())?;
    let mut explored = Explored {
        seen: chosen,
        trail: ForcingTree::new(alloc),
    };
    for u in 0..explored.seen.size() {
        if orient_classes_at(graph, side, u, &mut explored)? {
            return Ok(ClassOrChosen::Stopped(explored.trail));
        }
    }
    Ok(ClassOrChosen::Whole(explored.seen))
}

// Walks through the edges whose smaller end is `u`. Says whether it stopped, at the class of the
// trail; the seen arcs are the chosen ones.
fn orient_classes_at<const W: usize>(
    graph: &GraphOf<W>,
    side: Side,
    u: u32,
    explored: &mut Explored<W>,
) -> Result<bool, Memory>
    requires name { u < 64 * W }
    requires size { u < length explored.old.seen }
    requires room { (v : ℕ) → Has graph.now.vertices v → v < length explored.old.seen }
    requires walked { IsWalked (adjacent_on side graph.now) u explored.old.seen }
    ensures stopped { IfOk result (λ stopped. stopped ≡ true
        → IsStopped (adjacent_on side graph.now) explored.new.trail) }
    ensures walked { IfOk result (λ stopped. stopped ≡ false
        → IsWalked (adjacent_on side graph.now) (u + 1) explored.new.seen) }
    ensures room { length explored.new.seen ≡ length explored.old.seen }
{
    let _vertices = graph.vertices();
    let left = unoriented_neighbours(graph, side, u, &explored.seen);
    for v in left.members() {
        let first = Arc { tail: u, head: v };
        if orient_class_of(graph, side, first, explored)? {
            return Ok(true);
        }
    }
    Ok(false)
}

// Explores the class of an arc, unless its edge has a chosen arc. Says whether the class holds the
// reverse of the arc. Condition: the edges that are less are walked through.
fn orient_class_of<const W: usize>(
    graph: &GraphOf<W>,
    side: Side,
    first: Arc,
    explored: &mut Explored<W>,
) -> Result<bool, Memory>
    requires is_arc { IsArc (adjacent_on side graph.now) first }
    requires room { (v : ℕ) → Has graph.now.vertices v → v < length explored.old.seen }
    requires walked { IsWalked (adjacent_on side graph.now) first.tail explored.old.seen }
    requires passed { (y : ℕ) → adjacent_on side graph.now first.tail y ≡ true → y < first.head
        → HasArcOf explored.old.seen first.tail y }
    ensures stopped { IfOk result (λ stopped. stopped ≡ true
        → IsStopped (adjacent_on side graph.now) explored.new.trail) }
    ensures walked { IfOk result (λ stopped. stopped ≡ false
        → IsWalked (adjacent_on side graph.now) first.tail explored.new.seen) }
    ensures joined { IfOk result (λ stopped. stopped ≡ false
        → JoinsAlso first.tail first.head explored.old.seen explored.new.seen) }
    ensures room { length explored.new.seen ≡ length explored.old.seen }
{
    let _vertices = graph.vertices();
    let back = Arc {
        tail: first.head,
        head: first.tail,
    };
    if explored.seen.has(first) || explored.seen.has(back) {
        return Ok(false);
    }
    explore(graph, side, first, explored)?;
    let stopped = explored.seen.has(back);
    Ok(stopped)
}

// The names that `u` is adjacent to on this side by edges of which no arc is in the set.
fn unoriented_neighbours<const W: usize>(
    graph: &GraphOf<W>,
    side: Side,
    u: u32,
    arcs: &ArcSetOf<W>,
) -> Set<W>
    requires name { u < 64 * W }
    requires size { u < length arcs.now }
    ensures { (v : ℕ) → Has result v
        ↔ ((adjacent_on side graph.now u v ≡ true) × (HasArcOf arcs.now u v → ⊥)) }
{
    let near = neighbours_on(graph, side, u);
    let mut left = Set::none();
    left.set_to_difference(&near, arcs.heads(u), arcs.tails(u));
    left
}

// The names that `u` is adjacent to on this side.
fn neighbours_on<const W: usize>(graph: &GraphOf<W>, side: Side, u: u32) -> Set<W>
    requires { u < 64 * W }
    ensures { (v : ℕ) → Has result v ↔ (adjacent_on side graph.now u v ≡ true) }
{
    let _vertices = graph.vertices();
    match side {
        Side::Edges => graph.row(u).copy(),
        Side::NonEdges => graph.complement_row(u),
    }
}
