//! Permutation models.
ghost use Rattle.std.specs.Prelude.{◌≡◌, ◌<◌, length, IfOk};
ghost use Rattle.md_graph.specs.Sets.{NameSet};
ghost use Rattle.md_graph.specs.PlainGraph.{adjacent};
ghost use Rattle.md_comparability.specs.Orders.{IsLinear, place_in};
ghost use Rattle.md_comparability.specs.Walking.{IsWholeOrientation, HasArcRoom};
ghost use Rattle.md_comparability.specs.declared.edge_walk.ClassOrChosen.TheVariants.{Whole};
ghost use Rattle.md_orient.specs.Models.{IsModel, AreSides, ArePlaced, comes_before};

use crate::orientation::chain_along;
use md_comparability::{ClassOrChosen, Order, orient_classes};
use md_forcing::{ArcSetOf, Chain, Side};
use md_graph::{GraphOf, Memory};
use std::alloc::Global;

/// Two orders that realise a graph, or a forcing chain of it or of its complement.
#[derive(Drop)]
pub enum PermVerdict {
    Orders(Order, Order),
    ForcedIn(Chain),
    ForcedInComplement(Chain),
}

/// A shortest forcing chain of the graph, if it has one; else one of its complement, if that has
/// one; else two orders that realise the graph. The three exclude each other: a chain of the
/// complement comes only where the graph has none, and two orders realise a graph exactly where
/// neither it nor its complement has a chain (`md_comparability::laws::orders_if_no_chain`).
/// Errors: want of memory.
pub fn model<const W: usize>(alloc: Global, graph: &GraphOf<W>) -> Result<PermVerdict, Memory>
    ensures { IfOk result (IsModel graph.now) }
{
    let _vertices = graph.vertices();
    match orient_classes(alloc, graph, Side::Edges)? {
        ClassOrChosen::Stopped(trail) => {
            let chain = chain_along(alloc, &trail)?;
            Ok(PermVerdict::ForcedIn(chain))
        }
        ClassOrChosen::Whole(edges) => model_of_oriented(alloc, graph, &edges),
    }
}

// The answer on a graph by its least-edge orientation. Condition: it has one, and these are its
// arcs.
fn model_of_oriented<const W: usize>(
    alloc: Global,
    graph: &GraphOf<W>,
    edges: &ArcSetOf<W>,
) -> Result<PermVerdict, Memory>
    requires whole { IsWholeOrientation (adjacent graph.now) edges.now }
    requires room { HasArcRoom {w = W} graph.now.vertices (Whole edges.now) }
    ensures { IfOk result (IsModel graph.now) }
{
    let _vertices = graph.vertices();
    match orient_classes(alloc, graph, Side::NonEdges)? {
        ClassOrChosen::Stopped(trail) => {
            let chain = chain_along(alloc, &trail)?;
            Ok(PermVerdict::ForcedInComplement(chain))
        }
        ClassOrChosen::Whole(others) => {
            let first = in_order(alloc, graph, edges, &others, false)?;
            let second = in_order(alloc, graph, edges, &others, true)?;
            Ok(PermVerdict::Orders(first, second))
        }
    }
}

// The vertices in the order of the arcs of two sets, those of the first one turned or not.
// Condition: this is a linear order.
fn in_order<const W: usize>(
    alloc: Global,
    graph: &GraphOf<W>,
    edges: &ArcSetOf<W>,
    others: &ArcSetOf<W>,
    turned: bool,
) -> Result<Order, Memory>
    requires sides { AreSides graph.now.vertices edges.now others.now }
    requires linear { IsLinear (comes_before edges.now others.now turned) graph.now.vertices }
    ensures { IfOk result (ArePlaced (comes_before edges.now others.now turned)
        graph.now.vertices) }
{
    let vertices = graph.vertices();
    let mut list = vec![in alloc; 0; vertices.count() as usize]?;
    for v in vertices.members() {
        let place = place_of(edges, others, turned, v);
        list[place] = v;
    }
    Ok(Order::from_list(list))
}

// The number of names that come before `v`: those with an arc to it, where the arcs of the first
// set are turned or not.
fn place_of<const W: usize>(
    edges: &ArcSetOf<W>,
    others: &ArcSetOf<W>,
    turned: bool,
    v: u32,
) -> usize
    requires room { v < length edges.now }
    requires other_room { v < length others.now }
    ensures { (s : NameSet) → AreSides s edges.now others.now
        → result ≡ place_in (comes_before edges.now others.now turned) s v }
{
    let _size = edges.size();
    let others_before = others.tails(v).count() as usize;
    if turned {
        edges.heads(v).count() as usize + others_before
    } else {
        edges.tails(v).count() as usize + others_before
    }
}
