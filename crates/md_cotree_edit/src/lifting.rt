//! Two trees that come below a node of the other kind.
ghost use Rattle.std.specs.Prelude.{◌≡◌, ◌≢◌, ℕ, ◌+◌, ◌<◌, ◌≤◌, ◌↔◌, Bool, IsTrue, Some, not, []};
ghost use Rattle.md_lists.specs.Links.{kind_at, IsLive, AreLinks, spare_count};
ghost use Rattle.md_cotree.specs.PlaceTrees.{PlaceTree, PlaceTrees, inner, then, place_of, place_kind, row_length};
ghost use Rattle.md_cotree_edit.specs.Counts.{crossing};
ghost use Rattle.md_cotree_edit.specs.Contexts.{AreTreesKept};
ghost use Rattle.md_cotree_edit.specs.Turns.{AdoptView, CanAdopt, adopted, LiftView, CanLift, IsLifted, with_both, IsTidied, IsBeside};

use md_graph::Steps;
use md_lists::{Lists, PlaceKind};
use std::sync::ledger::Ledger;

// The kind of a node.
pub(crate) fn node_kind(series: bool) -> PlaceKind
    ensures { result ≡ place_kind series }
{
    if series {
        PlaceKind::Series
    } else {
        PlaceKind::Parallel
    }
}

// Two loose trees become children of a node of another tree.
pub(crate) fn adopt<L: Ledger>(
    lists: &mut Lists,
    parent: u32,
    first: u32,
    second: u32,
    steps: &mut Steps<L>,
)
    requires links { AreLinks lists.old }
    requires trees { (d : AdoptView) × CanAdopt lists.old parent first second d }
    ensures trees { (d : AdoptView) → CanAdopt lists.old parent first second d →
        AreTreesKept lists.new (adopted parent d) }
    ensures links { AreLinks lists.new }
    ensures kinds { lists.new.kinds ≡ lists.old.kinds }
    ensures marked { lists.new.marked ≡ lists.old.marked }
    ensures steps { steps.new ≡ steps.old + 2 }
{
    lists.attach(parent, first, steps);
    lists.attach(parent, second, steps);
}

// Two loose trees come below a node of the other kind below `place`. Where it has no other child,
// they come in its place: it turns its kind where it is the root, and goes where it has a parent,
// which is of the other kind then. Condition: there is room, and nothing is marked.
pub(crate) fn lift<L: Ledger>(
    lists: &mut Lists,
    place: u32,
    first: u32,
    second: u32,
    series: bool,
    steps: &mut Steps<L>,
)
    requires links { AreLinks lists.old }
    requires room { 0 < spare_count lists.old }
    requires unmarked { lists.old.marked ≡ [] }
    requires trees { (d : LiftView) × CanLift lists.old place first second series d }
    ensures trees { (d : LiftView) → CanLift lists.old place first second series d →
        IsLifted lists.new (with_both place series d) series (crossing d.first d.second) }
    ensures links { AreLinks lists.new }
    ensures unmarked { lists.new.marked ≡ [] }
    ensures steps { steps.new ≤ steps.old + 6 }
{
    if lists.child_count(place, steps) != 0 {
        let node = lists.make(node_kind(!series), steps);
        adopt(lists, node, first, second, steps);
        lists.attach(place, node, steps);
        return;
    }
    match lists.parent(place, steps) {
        None => {
            lists.set_kind(place, node_kind(!series), steps);
            adopt(lists, place, first, second, steps);
        }
        Some(above) => {
            adopt(lists, above, first, second, steps);
            lists.detach(place, steps);
            lists.free(place, steps);
        }
    }
}

// A loose node, or its child where it has one alone; the node goes then. Condition: it has a child,
// and nothing is marked.
pub(crate) fn tidy<L: Ledger>(lists: &mut Lists, node: u32, steps: &mut Steps<L>) -> u32
    requires links { AreLinks lists.old }
    requires unmarked { lists.old.marked ≡ [] }
    requires trees { (k : Bool) × (ys us : PlaceTrees) ×
        AreTreesKept lists.old (then (inner node k ys) us) × (0 < row_length ys) }
    ensures trees { (k : Bool) (ys us : PlaceTrees) →
        AreTreesKept lists.old (then (inner node k ys) us) → 0 < row_length ys →
        (y : PlaceTree) × AreTreesKept lists.new (then y us) × (place_of y ≡ result)
        × IsTidied ys k node y }
    ensures links { AreLinks lists.new }
    ensures unmarked { lists.new.marked ≡ [] }
    ensures room { spare_count lists.old ≤ spare_count lists.new }
    ensures steps { steps.new ≤ steps.old + 4 }
{
    if lists.child_count(node, steps) != 1 {
        return node;
    }
    match lists.first_child(node, steps) {
        Some(child) => {
            lists.detach(child, steps);
            lists.free(node, steps);
            child
        }
        None => unreachable!(),
    }
}

// Two loose trees below one node of a kind: the root of the first where it is of the kind, else a
// new node. Condition: there is room for two nodes, so that there is room for one then.
pub(crate) fn join<L: Ledger>(
    lists: &mut Lists,
    first: u32,
    second: u32,
    series: bool,
    steps: &mut Steps<L>,
) -> u32
    requires links { AreLinks lists.old }
    requires room { 1 < spare_count lists.old }
    requires trees { (y a : PlaceTree) × (us : PlaceTrees) ×
        AreTreesKept lists.old (then y (then a us)) × (place_of y ≡ first) × (place_of a ≡ second) }
    ensures trees { (y a : PlaceTree) (us : PlaceTrees) →
        AreTreesKept lists.old (then y (then a us)) → place_of y ≡ first → place_of a ≡ second →
        (r : PlaceTree) × AreTreesKept lists.new (then r us) × (place_of r ≡ result)
        × IsBeside series y a r }
    ensures links { AreLinks lists.new }
    ensures marked { lists.new.marked ≡ lists.old.marked }
    ensures room { 0 < spare_count lists.new }
    ensures steps { steps.new ≤ steps.old + 4 }
{
    if is_of(lists, first, series, steps) {
        lists.attach(first, second, steps);
        return first;
    }
    let node = lists.make(node_kind(series), steps);
    adopt(lists, node, first, second, steps);
    node
}

// Whether a place is a node of a kind.
pub(crate) fn is_of<L: Ledger>(
    lists: &Lists,
    place: u32,
    series: bool,
    steps: &mut Steps<L>,
) -> bool
    requires live { IsLive lists.now place }
    ensures kind { IsTrue result ↔ (kind_at lists.now place ≡ Some (place_kind series)) }
    ensures steps { steps.new ≡ steps.old + 1 }
{
    match lists.kind(place, steps) {
        PlaceKind::Series => series,
        PlaceKind::Parallel => !series,
        PlaceKind::Leaf(_) => false,
    }
}
