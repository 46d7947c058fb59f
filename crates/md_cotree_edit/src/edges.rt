//! Edges of the graph that a cotree denotes, added and deleted in place.
ghost use Rattle.std.specs.Prelude.{◌≡◌, ◌≢◌, ◌+◌, ◌≤◌, ◌↔◌, Bool, true, false, Some, IsSome, IsErr, OnOk, OnErr};
ghost use Rattle.md_graph.specs.PlainGraph.{PlainGraph, adjacent, with_edge, without_edge};
ghost use Rattle.md_graph.specs.Sets.{Has};
ghost use Rattle.md_modules.specs.InducedPaths.{HasInducedPath};
ghost use Rattle.md_cotree.specs.Cotrees.{place_at, Denotes};
ghost use Rattle.md_cotree_edit.specs.Turns.{turned_graph};

use crate::ends::{turn_both, turn_one};
use crate::finding::{Meeting, meeting_of};
use md_cotree::Cotree;
use md_graph::Steps;
use std::sync::ledger::Ledger;

/// The edit would leave a graph that is no cograph.
#[derive(Clone, Copy, Debug, PartialEq, Eq)]
pub struct NotCograph;

/// Adds an edge between two vertices. Condition: they are there and different, and no edge is
/// between them. Errors: the graph with the edge is no cograph; the cotree is as it was then.
pub fn add_edge<L: Ledger>(
    tree: &mut Cotree,
    u: u32,
    v: u32,
    steps: &mut Steps<L>,
) -> Result<(), NotCograph>
    requires { (g : PlainGraph) × Denotes tree.old g × Has g.vertices u × Has g.vertices v × (u ≢ v)
        × (adjacent g u v ≡ false) }
    ensures done { (g : PlainGraph) → Denotes tree.old g →
        OnOk result (Denotes tree.new (with_edge g u v)) }
    ensures refused { (g : PlainGraph) → Denotes tree.old g →
        IsErr result ↔
        HasInducedPath (adjacent (with_edge g u v)) (with_edge g u v).vertices }
    ensures same { OnErr result (tree.new ≡ tree.old) }
    ensures bound { steps.new ≤ steps.old + 21 }
{
    turn(tree, u, v, false, steps)
}

/// Deletes the edge between two vertices. Condition: there is one. Errors: the graph without the
/// edge is no cograph; the cotree is as it was then.
pub fn del_edge<L: Ledger>(
    tree: &mut Cotree,
    u: u32,
    v: u32,
    steps: &mut Steps<L>,
) -> Result<(), NotCograph>
    requires { (g : PlainGraph) × Denotes tree.old g × Has g.vertices u × Has g.vertices v × (u ≢ v)
        × (adjacent g u v ≡ true) }
    ensures done { (g : PlainGraph) → Denotes tree.old g →
        OnOk result (Denotes tree.new (without_edge g u v)) }
    ensures refused { (g : PlainGraph) → Denotes tree.old g →
        IsErr result ↔
        HasInducedPath (adjacent (without_edge g u v)) (without_edge g u v).vertices }
    ensures same { OnErr result (tree.new ≡ tree.old) }
    ensures bound { steps.new ≤ steps.old + 21 }
{
    turn(tree, u, v, true, steps)
}

// Adds the edge between two vertices, or deletes it where there is one. Condition: they are there
// and different. Errors: the graph then is no cograph; the cotree is as it was.
fn turn<L: Ledger>(
    tree: &mut Cotree,
    u: u32,
    v: u32,
    series: bool,
    steps: &mut Steps<L>,
) -> Result<(), NotCograph>
    requires { (g : PlainGraph) × Denotes tree.old g × Has g.vertices u × Has g.vertices v × (u ≢ v)
        × (adjacent g u v ≡ series) }
    ensures done { (g : PlainGraph) → Denotes tree.old g →
        OnOk result (Denotes tree.new (turned_graph series g u v)) }
    ensures refused { (g : PlainGraph) → Denotes tree.old g →
        IsErr result ↔ HasInducedPath (adjacent (turned_graph series g u v))
        (turned_graph series g u v).vertices }
    ensures same { OnErr result (tree.new ≡ tree.old) }
    ensures bound { steps.new ≤ steps.old + 21 }
{
    let _spare = tree.lists.spare();
    let left = leaf_of(tree, u);
    let right = leaf_of(tree, v);
    match meeting_of(&tree.lists, left, right, steps) {
        Meeting::Both(place) => turn_both(&mut tree.lists, place, left, right, series, steps),
        Meeting::First(place, child) => {
            turn_one(&mut tree.lists, place, left, child, right, series, steps)
        }
        Meeting::Second(place, child) => {
            turn_one(&mut tree.lists, place, right, child, left, series, steps)
        }
        Meeting::Apart => return Err(NotCograph),
    }
    Ok(())
}

// The place of the leaf of a name. Condition: there is one.
fn leaf_of(tree: &Cotree, name: u32) -> u32
    requires { IsSome (place_at tree.now name) }
    ensures { place_at tree.now name ≡ Some result }
{
    match tree.places[name as usize] {
        Some(place) => place,
        None => unreachable!(),
    }
}
