//! One node of the tree: its kind, its children, and the pairs of them that it lists.
ghost use Rattle.std.specs.Prelude.{◌≡◌, ℕ, [], IfOk};
ghost use Rattle.md_graph.specs.Sets.{Within, HasTwo};
ghost use Rattle.md_digraph.specs.PlainDigraph.{has_arc_to};
ghost use Rattle.md_dtree.specs.DirectedTrees.{HasDirectedKind};
ghost use Rattle.md_ddecompose.specs.Children.{AreDirectedChildren, DiffersFrom, ListsArcsFor};

use crate::arc_pairs::arc_pairs;
use crate::components::components;
use crate::order_parts::order_parts;
use crate::prime::prime_children;
use md_digraph::DigraphOf;
use md_dtree::{DKind, DPairs};
use md_graph::{Memory, Set};
use md_modules::CompactSet;
use std::alloc::Global;

// The kind of a set of two vertices or more, the leaf sets of its children, in their order, and the
// pairs of them that it lists. `parent` is the kind of the node above, if there is one: below a
// parallel, a series or an order node nothing is of that kind. `places` is where positions are kept
// meanwhile, whatever it has.
pub(crate) fn children<const W: usize>(
    alloc: Global,
    graph: &DigraphOf<W>,
    set: &Set<W>,
    parent: Option<DKind>,
    places: &mut Vec<u32>,
) -> Result<(DKind, Vec<CompactSet<W>>, DPairs), Memory>
    requires inside { Within set.now graph.now.vertices }
    requires two { HasTwo set.now }
    requires below { DiffersFrom (has_arc_to graph.now) set.now parent }
    ensures kind { IfOk result (λ r. HasDirectedKind (has_arc_to graph.now) set.now r.0) }
    ensures sets { IfOk result (λ r.
        AreDirectedChildren (has_arc_to graph.now) set.now r.0 r.1.items) }
    ensures pairs { IfOk result (λ r.
        ListsArcsFor (has_arc_to graph.now) r.0 r.1.items r.2.list.items) }
{
    let below_parallel = matches!(parent, Some(DKind::Parallel));
    if let Some(sets) = components(alloc, graph, set, below_parallel, false)? {
        return Ok((DKind::Parallel, sets, no_pairs(alloc)));
    }
    let below_series = matches!(parent, Some(DKind::Series));
    if let Some(sets) = components(alloc, graph, set, below_series, true)? {
        return Ok((DKind::Series, sets, no_pairs(alloc)));
    }
    let below_order = matches!(parent, Some(DKind::Order));
    if let Some(sets) = order_parts(alloc, graph, set, below_order)? {
        return Ok((DKind::Order, sets, no_pairs(alloc)));
    }
    let sets = prime_children(alloc, graph, set)?;
    let pairs = arc_pairs(alloc, graph, set, &sets, places)?;
    Ok((DKind::Prime, sets, pairs))
}

fn no_pairs(alloc: Global) -> DPairs
    ensures { result.list.items ≡ [] }
{
    DPairs {
        list: Vec::new(alloc),
    }
}
