//! A vertex of the graph that a cotree denotes, deleted in place.
ghost use Rattle.std.specs.Prelude.{◌≡◌, ℕ, ◌+◌, ◌*◌, ◌≤◌, min, length, [], Some, None, IsSome, slice_index_or, slice_set};
ghost use Rattle.std.specs.FinSet as set;
ghost use Rattle.md_graph.specs.PlainGraph.{PlainGraph, neighbours, without_vertex};
ghost use Rattle.md_graph.specs.Sets.{Has};
ghost use Rattle.md_lists.specs.Links.{AreLinks, children_at};
ghost use Rattle.md_cotree.specs.Cotrees.{AreEntries, Denotes};
ghost use Rattle.md_cotree.specs.PlaceTrees.{inner, no_more, then, place_of, row_length};
ghost use Rattle.md_cotree_edit.specs.Contexts.{AreTreesKept, plug};
ghost use Rattle.md_cotree_edit.specs.Deletions.{PassView, CanPass, two_trees, MoveView, CanMove, AreAllMoved, PlaceView, CanReplace, IsKeptFrom, MergeView, CanMerge, IsMerged, SettleView, CanSettle, IsSettled, below_count, beside_count, CloseView, CanClose, open_tree, IsNodeClosed, PruneView, CanPrune, IsPruned, leaf_tree, HasFew};

use md_cotree::Cotree;
use md_graph::Steps;
use md_lists::{Lists, PlaceKind};
use std::sync::ledger::Ledger;

/// Deletes a vertex. Condition: it is there. The graph without it is a cograph too.
pub fn del_vertex<L: Ledger>(tree: &mut Cotree, x: u32, steps: &mut Steps<L>)
    requires { (g : PlainGraph) × Denotes tree.old g × Has g.vertices x }
    ensures done { (g : PlainGraph) → Denotes tree.old g →
        Denotes tree.new (without_vertex g x) }
    ensures bound { (g : PlainGraph) → Denotes tree.old g →
        steps.new ≤ steps.old + 17 + 3 * set.len (neighbours g x) }
{
    let _spare = tree.lists.spare();
    let leaf = take_place(&mut tree.places, x);
    tree.leaves -= 1;
    tree.root = prune(&mut tree.lists, tree.root, leaf, steps);
}

// Takes the place off that is kept for a name. Condition: there is one.
fn take_place(places: &mut Vec<Option<u32>>, name: u32) -> u32
    requires { IsSome (slice_index_or places.old.items name None) }
    ensures place { slice_index_or places.old.items name None ≡ Some result }
    ensures taken { places.new.items ≡ slice_set places.old.items name None }
    ensures entries { AreEntries places.old → AreEntries places.new }
{
    match places[name as usize] {
        Some(place) => {
            places[name as usize] = None;
            place
        }
        None => unreachable!(),
    }
}

// The root of the tree when a leaf has left it, or none. A node that has one child left then goes.
// Condition: nothing is marked.
fn prune<L: Ledger>(
    lists: &mut Lists,
    root: Option<u32>,
    leaf: u32,
    steps: &mut Steps<L>,
) -> Option<u32>
    requires links { AreLinks lists.old }
    requires unmarked { lists.old.marked ≡ [] }
    requires tree { (d : PruneView) × CanPrune lists.old root leaf d }
    ensures tree { (d : PruneView) → CanPrune lists.old root leaf d →
        IsPruned lists.new result leaf d }
    ensures links { AreLinks lists.new }
    ensures unmarked { lists.new.marked ≡ [] }
    ensures steps { (d : PruneView) (n : ℕ) → CanPrune lists.old root leaf d →
        HasFew n d.name (leaf_tree leaf d) → steps.new ≤ steps.old + 17 + 3 * n }
{
    let Some(above) = lists.parent(leaf, steps) else {
        lists.free(leaf, steps);
        return None;
    };
    lists.detach(leaf, steps);
    lists.free(leaf, steps);
    if lists.child_count(above, steps) != 1 {
        return root;
    }
    close_up(lists, root, above, steps)
}

// A node of one child goes, and the child comes in its place, or its children where it is of the
// kind of the node that it comes below; the root of the tree then. Condition: nothing is marked.
fn close_up<L: Ledger>(
    lists: &mut Lists,
    root: Option<u32>,
    above: u32,
    steps: &mut Steps<L>,
) -> Option<u32>
    requires links { AreLinks lists.old }
    requires unmarked { lists.old.marked ≡ [] }
    requires tree { (d : CloseView) × CanClose lists.old root above d }
    ensures tree { (d : CloseView) → CanClose lists.old root above d →
        IsNodeClosed lists.new result (open_tree above d) }
    ensures links { AreLinks lists.new }
    ensures unmarked { lists.new.marked ≡ [] }
    ensures steps { (d : CloseView) → CanClose lists.old root above d →
        steps.new ≤ steps.old + 13 + 3 * min (below_count d.child) (beside_count d.frames) }
{
    let child = only_child(lists, above, steps);
    match lists.parent(above, steps) {
        None => {
            lists.free(above, steps);
            Some(child)
        }
        Some(top) => {
            lists.detach(above, steps);
            lists.free(above, steps);
            settle(lists, root, top, child, steps)
        }
    }
}

// The child of a node, which leaves it. Condition: there is one alone.
fn only_child<L: Ledger>(lists: &mut Lists, above: u32, steps: &mut Steps<L>) -> u32
    requires links { AreLinks lists.old }
    requires tree { (d : CloseView) × AreTreesKept lists.old (then (open_tree above d) no_more) }
    ensures tree { (d : CloseView) → AreTreesKept lists.old (then (open_tree above d) no_more) →
        AreTreesKept lists.new
        (then (plug d.frames (inner above d.series no_more)) (then d.child no_more))
        × (place_of d.child ≡ result) }
    ensures links { AreLinks lists.new }
    ensures marked { lists.new.marked ≡ lists.old.marked }
    ensures steps { steps.new ≡ steps.old + 2 }
{
    match lists.first_child(above, steps) {
        Some(child) => {
            lists.detach(child, steps);
            child
        }
        None => unreachable!(),
    }
}

// A loose tree comes below a node, or its children do where it is a node too, of the same kind; the
// root of the tree then. Condition: nothing is marked.
fn settle<L: Ledger>(
    lists: &mut Lists,
    root: Option<u32>,
    top: u32,
    child: u32,
    steps: &mut Steps<L>,
) -> Option<u32>
    requires links { AreLinks lists.old }
    requires unmarked { lists.old.marked ≡ [] }
    requires tree { (d : SettleView) × CanSettle lists.old root top child d }
    ensures tree { (d : SettleView) → CanSettle lists.old root top child d →
        IsSettled lists.new result d }
    ensures links { AreLinks lists.new }
    ensures unmarked { lists.new.marked ≡ [] }
    ensures steps { (d : SettleView) → CanSettle lists.old root top child d →
        steps.new ≤ steps.old + 8 + 3 * min (below_count d.child) (row_length d.others) }
{
    match lists.kind(child, steps) {
        PlaceKind::Leaf(_) => {
            lists.attach(top, child, steps);
            root
        }
        _ => merge(lists, root, top, child, steps),
    }
}

// A loose node and one of its kind become one: the children of the one that has fewer move to the
// other, which stands in the place of the second; the root of the tree then. Condition: nothing is
// marked.
fn merge<L: Ledger>(
    lists: &mut Lists,
    root: Option<u32>,
    top: u32,
    child: u32,
    steps: &mut Steps<L>,
) -> Option<u32>
    requires links { AreLinks lists.old }
    requires unmarked { lists.old.marked ≡ [] }
    requires tree { (d : MergeView) × CanMerge lists.old root top child d }
    ensures tree { (d : MergeView) → CanMerge lists.old root top child d →
        IsMerged lists.new result d }
    ensures links { AreLinks lists.new }
    ensures unmarked { lists.new.marked ≡ [] }
    ensures steps { (d : MergeView) → CanMerge lists.old root top child d →
        steps.new ≤ steps.old + 7 + 3 * min (row_length d.below) (row_length d.others) }
{
    if lists.child_count(child, steps) <= lists.child_count(top, steps) {
        move_all(lists, child, top, steps);
        lists.free(child, steps);
        return root;
    }
    move_all(lists, top, child, steps);
    replace(lists, root, top, child, steps)
}

// A loose tree comes in the place of a node without children, which goes; the root of the tree
// then. Condition: nothing is marked.
fn replace<L: Ledger>(
    lists: &mut Lists,
    root: Option<u32>,
    old: u32,
    child: u32,
    steps: &mut Steps<L>,
) -> Option<u32>
    requires links { AreLinks lists.old }
    requires unmarked { lists.old.marked ≡ [] }
    requires tree { (d : PlaceView) × CanReplace lists.old root old child d }
    ensures tree { (d : PlaceView) → CanReplace lists.old root old child d →
        IsKeptFrom lists.new result (plug d.frames d.child) }
    ensures links { AreLinks lists.new }
    ensures unmarked { lists.new.marked ≡ [] }
    ensures steps { steps.new ≤ steps.old + 4 }
{
    match lists.parent(old, steps) {
        None => {
            lists.free(old, steps);
            Some(child)
        }
        Some(above) => {
            lists.detach(old, steps);
            lists.free(old, steps);
            lists.attach(above, child, steps);
            root
        }
    }
}

// All children of a node become children of another in another tree.
fn move_all<L: Ledger>(lists: &mut Lists, from: u32, to: u32, steps: &mut Steps<L>)
    requires links { AreLinks lists.old }
    requires trees { (d : MoveView) × CanMove lists.old from to d }
    ensures trees { (d : MoveView) → CanMove lists.old from to d → AreAllMoved lists.new from to d }
    ensures links { AreLinks lists.new }
    ensures marked { lists.new.marked ≡ lists.old.marked }
    ensures steps { steps.new ≤ steps.old + 1 + 3 * length (children_at lists.old from) }
{
    while let Some(child) = lists.first_child(from, steps) {
        pass(lists, from, child, to, steps);
    }
}

// A child of a node becomes a child of another in another tree.
fn pass<L: Ledger>(lists: &mut Lists, from: u32, child: u32, to: u32, steps: &mut Steps<L>)
    requires links { AreLinks lists.old }
    requires trees { (d : PassView) × CanPass lists.old from child to d }
    ensures trees { (d : PassView) → CanPass lists.old from child to d →
        AreTreesKept lists.new (two_trees d.around_from d.around_to d.series from d.left to
        (then d.child d.there)) }
    ensures links { AreLinks lists.new }
    ensures marked { lists.new.marked ≡ lists.old.marked }
    ensures steps { steps.new ≡ steps.old + 2 }
{
    lists.detach(child, steps);
    lists.attach(to, child, steps);
}
