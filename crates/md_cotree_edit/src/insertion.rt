//! A vertex of the graph that a cotree denotes, added in place with its edges.
ghost use Rattle.std.specs.Prelude.{◌≡◌, ◌≢◌, ℕ, ◌+◌, ◌*◌, ◌<◌, ◌≤◌, ◌↔◌, List, [], length, Some, None, IfSome, IsTrue, IsErr, OnOk, OnErr};
ghost use Rattle.std.specs.FinSet as set;
ghost use Rattle.std.specs.List.{All};
ghost use Rattle.std.specs.List.Sorted.{IsStrictlyIncreasing};
ghost use Rattle.md_graph.specs.declared.TheConstants.{NAMES};
ghost use Rattle.md_graph.specs.PlainGraph.{PlainGraph, adjacent, empty_graph, joined_graph};
ghost use Rattle.md_graph.specs.Sets.{Has, Lacks};
ghost use Rattle.md_modules.specs.InducedPaths.{HasInducedPath};
ghost use Rattle.md_graph.specs.Linked.{times};
ghost use Rattle.md_lists.specs.Links.{AreLinks, spare_count};
ghost use Rattle.md_tree.specs.TreeGraph.{graph_of_tree};
ghost use Rattle.md_cotree.specs.PlaceTrees.{PlaceTree, tip, no_more, then, place_of, shape};
ghost use Rattle.md_cotree.specs.Cotrees.{IsKeptAs, Denotes};
ghost use Rattle.md_cotree_edit.specs.Contexts.{AreTreesKept};
ghost use Rattle.md_cotree_edit.specs.Turns.{IsBeside};
ghost use Rattle.md_cotree_edit.specs.Marks.{ClimbView, CanLinkIn, CanTakeIn, CanGrow, CanTake, IsLinkedIn, AreStill, hits_in};

use crate::climbing::{climb, lowest};
use crate::edges::NotCograph;
use crate::lifting::join;
use crate::marking::{clear, mark_all};
use crate::relinking::relink;
use md_cotree::{Cotree, keep_place};
use md_graph::Steps;
use md_lists::{Lists, PlaceKind};
use std::sync::ledger::Ledger;

/// Adds the vertex `x` and an edge between it and each of the neighbours. Conditions: `x` is a name
/// and isn't there; the neighbours are there, in ascending order, and none stands twice. Errors:
/// the graph with the vertex is no cograph; the cotree is as it was then.
pub fn add_vertex<L: Ledger>(
    tree: &mut Cotree,
    x: u32,
    neighbours: &[u32],
    steps: &mut Steps<L>,
) -> Result<(), NotCograph>
    requires { (g : PlainGraph) × Denotes tree.old g × (x < NAMES) × Lacks g.vertices x
        × All (Has g.vertices) neighbours.now × IsStrictlyIncreasing neighbours.now }
    ensures done { (g : PlainGraph) → Denotes tree.old g →
        OnOk result (Denotes tree.new (joined_graph g x neighbours.now)) }
    ensures refused { (g : PlainGraph) → Denotes tree.old g →
        IsErr result ↔ HasInducedPath (adjacent (joined_graph g x neighbours.now))
        (joined_graph g x neighbours.now).vertices }
    ensures same { OnErr result (tree.new ≡ tree.old) }
    ensures bound { steps.new ≤ steps.old + 23 + 74 * length neighbours.now }
    ensures bound_all { (g : PlainGraph) → Denotes tree.old g →
        length neighbours.now ≡ set.len g.vertices → steps.new ≤ steps.old + 6 }
{
    match tree.root {
        None => {
            plant(tree, x, steps);
            Ok(())
        }
        Some(top) => grow(tree, top, x, neighbours, steps),
    }
}

// The first vertex. Condition: there is none, and so no neighbour.
fn plant<L: Ledger>(tree: &mut Cotree, x: u32, steps: &mut Steps<L>)
    requires { IsKeptAs tree.old None × (x < NAMES) }
    ensures done { Denotes tree.new (joined_graph empty_graph x []) }
    ensures steps { steps.new ≡ steps.old + 1 }
{
    let _spare = tree.lists.spare();
    let leaf = tree.lists.make(PlaceKind::Leaf(x), steps);
    tree.root = Some(leaf);
    keep_place(&mut tree.places, x, leaf);
    tree.leaves += 1;
}

// Adds a vertex to those that there are.
fn grow<L: Ledger>(
    tree: &mut Cotree,
    top: u32,
    x: u32,
    neighbours: &[u32],
    steps: &mut Steps<L>,
) -> Result<(), NotCograph>
    requires tree { (t : PlaceTree) × CanGrow tree.old x neighbours.now t }
    requires top { tree.old.root ≡ Some top }
    ensures done { (t : PlaceTree) → CanGrow tree.old x neighbours.now t →
        OnOk result (Denotes tree.new
        (joined_graph (graph_of_tree (Some (shape t))) x neighbours.now)) }
    ensures refused { (t : PlaceTree) → CanGrow tree.old x neighbours.now t →
        IsErr result → CanTake (λ v. times v neighbours.now) t → ⊥ }
    ensures same { OnErr result (tree.new ≡ tree.old) }
    ensures bound { steps.new ≤ steps.old + 23 + 74 * length neighbours.now }
    ensures bound_all { length neighbours.now ≡ tree.old.leaves → steps.new ≤ steps.old + 6 }
{
    if neighbours.len() == tree.leaves as usize {
        join_all(tree, top, x, steps);
        return Ok(());
    }
    join_listed(tree, top, x, neighbours, steps)
}

// Adds a vertex joined to all that there are. No name is marked for that.
fn join_all<L: Ledger>(tree: &mut Cotree, top: u32, x: u32, steps: &mut Steps<L>)
    requires tree { (ns : List ℕ) × (t : PlaceTree) × CanGrow tree.old x ns t
        × (length ns ≡ tree.old.leaves) }
    requires top { tree.old.root ≡ Some top }
    ensures done { (ns : List ℕ) (t : PlaceTree) → CanGrow tree.old x ns t →
        length ns ≡ tree.old.leaves →
        Denotes tree.new (joined_graph (graph_of_tree (Some (shape t))) x ns) }
    ensures steps { steps.new ≤ steps.old + 6 }
{
    let _spare = tree.lists.spare();
    let leaf = over_root(&mut tree.lists, &mut tree.root, top, x, true, steps);
    keep_place(&mut tree.places, x, leaf);
    tree.leaves += 1;
}

// Adds a vertex joined to some of those that there are, or to none.
fn join_listed<L: Ledger>(
    tree: &mut Cotree,
    top: u32,
    x: u32,
    neighbours: &[u32],
    steps: &mut Steps<L>,
) -> Result<(), NotCograph>
    requires tree { (t : PlaceTree) × CanGrow tree.old x neighbours.now t }
    requires top { tree.old.root ≡ Some top }
    requires not_all { length neighbours.now ≢ tree.old.leaves }
    ensures done { (t : PlaceTree) → CanGrow tree.old x neighbours.now t →
        OnOk result (Denotes tree.new
        (joined_graph (graph_of_tree (Some (shape t))) x neighbours.now)) }
    ensures refused { (t : PlaceTree) → CanGrow tree.old x neighbours.now t →
        IsErr result → CanTake (λ v. times v neighbours.now) t → ⊥ }
    ensures same { OnErr result (tree.new ≡ tree.old) }
    ensures bound { steps.new ≤ steps.old + 23 + 74 * length neighbours.now }
{
    let _spare = tree.lists.spare();
    mark_all(&mut tree.lists, &tree.places, neighbours, steps);
    let none = neighbours.is_empty();
    let Some(leaf) = take_in(&mut tree.lists, &mut tree.root, top, x, none, steps) else {
        return Err(NotCograph);
    };
    keep_place(&mut tree.places, x, leaf);
    tree.leaves += 1;
    Ok(())
}

// A new leaf, joined to the marked names: beside the whole tree where none is marked, else below
// the lowest mixed node; none where the tree can't take it in, and then it stays. Nothing is marked
// then. Condition: not all names are marked.
fn take_in<L: Ledger>(
    lists: &mut Lists,
    root: &mut Option<u32>,
    top: u32,
    x: u32,
    none: bool,
    steps: &mut Steps<L>,
) -> Option<u32>
    requires links { AreLinks lists.old }
    requires room { 3 < spare_count lists.old }
    requires tree { (d : ClimbView) × CanTakeIn lists.old root.old x d
        × (IsTrue none ↔ (hits_in d.marks d.tree ≡ 0)) }
    requires top { root.old ≡ Some top }
    ensures taken { (d : ClimbView) → CanTakeIn lists.old root.old x d →
        (IsTrue none ↔ (hits_in d.marks d.tree ≡ 0)) →
        IfSome result (λ leaf. IsLinkedIn lists.new root.new d.marks x leaf d.tree) }
    ensures can_take { (d : ClimbView) → CanTakeIn lists.old root.old x d →
        (IsTrue none ↔ (hits_in d.marks d.tree ≡ 0)) →
        result ≡ None → CanTake d.marks d.tree → ⊥ }
    ensures still { result ≡ None → AreStill lists.old lists.new }
    ensures root { result ≡ None → root.new ≡ root.old }
    ensures unmarked { lists.new.marked ≡ [] }
    ensures steps { (d : ClimbView) → CanTakeIn lists.old root.old x d →
        (IsTrue none ↔ (hits_in d.marks d.tree ≡ 0)) →
        steps.new ≤ steps.old + 23 + 64 * hits_in d.marks d.tree }
    ensures links { AreLinks lists.new }
{
    if none {
        return Some(over_root(lists, root, top, x, false, steps));
    }
    settle(lists, root, x, steps)
}

// A new leaf below the lowest mixed node, joined to the marked names; none where the tree can't
// take it in, and then it stays. Nothing is marked then.
fn settle<L: Ledger>(
    lists: &mut Lists,
    root: &mut Option<u32>,
    x: u32,
    steps: &mut Steps<L>,
) -> Option<u32>
    requires links { AreLinks lists.old }
    requires room { 3 < spare_count lists.old }
    requires tree { (d : ClimbView) × CanLinkIn lists.old root.old x d }
    ensures taken { (d : ClimbView) → CanLinkIn lists.old root.old x d →
        IfSome result (λ leaf. IsLinkedIn lists.new root.new d.marks x leaf d.tree) }
    ensures can_take { (d : ClimbView) → CanLinkIn lists.old root.old x d →
        result ≡ None → CanTake d.marks d.tree → ⊥ }
    ensures still { result ≡ None → AreStill lists.old lists.new }
    ensures root { result ≡ None → root.new ≡ root.old }
    ensures unmarked { lists.new.marked ≡ [] }
    ensures steps { (d : ClimbView) → CanLinkIn lists.old root.old x d →
        steps.new ≤ steps.old + 22 + 64 * hits_in d.marks d.tree }
    ensures links { AreLinks lists.new }
{
    let _spare = lists.spare();
    if !climb(lists, steps) {
        clear(lists, steps);
        return None;
    }
    let place = lowest(lists, steps);
    Some(relink(lists, root, place, x, steps))
}

// A new leaf beside the whole tree below one node of a kind; nothing is marked then.
fn over_root<L: Ledger>(
    lists: &mut Lists,
    root: &mut Option<u32>,
    top: u32,
    x: u32,
    series: bool,
    steps: &mut Steps<L>,
) -> u32
    requires links { AreLinks lists.old }
    requires room { 2 < spare_count lists.old }
    requires tree { (t : PlaceTree) × AreTreesKept lists.old (then t no_more) × (place_of t ≡ top) }
    ensures tree { (t : PlaceTree) → AreTreesKept lists.old (then t no_more) → place_of t ≡ top →
        (s : PlaceTree) × AreTreesKept lists.new (then s no_more) × (root.new ≡ Some (place_of s))
        × IsBeside series t (tip result x) s }
    ensures unmarked { lists.new.marked ≡ [] }
    ensures steps { steps.new ≤ steps.old + 6 + length lists.old.marked }
    ensures links { AreLinks lists.new }
{
    clear(lists, steps);
    let leaf = lists.make(PlaceKind::Leaf(x), steps);
    let node = join(lists, top, leaf, series, steps);
    *root = Some(node);
    leaf
}
