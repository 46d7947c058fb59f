//! A new leaf comes into a tree beside its lowest mixed node.
ghost use Rattle.std.specs.Prelude.{◌≡◌, ◌≢◌, ◌+◌, ◌*◌, ◌<◌, ◌≤◌, [], length, Option, Some};
ghost use Rattle.md_lists.specs.Links.{IsLive, AreLinks, spare_count};
ghost use Rattle.md_cotree.specs.PlaceTrees.{Alternates};
ghost use Rattle.md_cotree_edit.specs.Marks.{LowestView, whole, IsLowest, CanRelink, IsLinkedIn};
ghost use Rattle.md_cotree_edit.specs.Relinks.{moved_if, CanPart, IsParted, PutView, CanPut, IsTreePut, PairView, CanPair, IsPaired};

use crate::lifting::{is_of, join, node_kind, tidy};
use crate::marking::{FULL, clear};
use md_graph::Steps;
use md_lists::{Lists, PlaceKind};
use std::sync::ledger::Ledger;

// A new leaf comes into the tree, joined to the marked names, and nothing is marked any more. Its
// full children leave the lowest mixed node for a new node of its kind. Below a parallel node, the
// leaf is joined to them; below a series node, the leaf comes beside what stays, and the new node
// in the place of the lowest one. Condition: `place` is the lowest mixed node, and there is room.
pub(crate) fn relink<L: Ledger>(
    lists: &mut Lists,
    root: &mut Option<u32>,
    place: u32,
    x: u32,
    steps: &mut Steps<L>,
) -> u32
    requires links { AreLinks lists.old }
    requires room { 3 < spare_count lists.old }
    requires tree { (d : LowestView) × CanRelink lists.old root.old x d × (place ≡ d.place) }
    ensures tree { (d : LowestView) → CanRelink lists.old root.old x d → place ≡ d.place →
        IsLinkedIn lists.new root.new d.marks x result (whole d) }
    ensures unmarked { lists.new.marked ≡ [] }
    ensures steps { steps.new ≤ steps.old + 20 + 6 * length lists.old.marked }
    ensures links { AreLinks lists.new }
{
    let series = is_of(lists, place, true, steps);
    let node = part(lists, place, series, steps);
    let leaf = lists.make(PlaceKind::Leaf(x), steps);
    if series {
        put(lists, root, place, node, steps);
        pair_up(lists, node, place, leaf, false, steps);
        return leaf;
    }
    pair_up(lists, place, node, leaf, true, steps);
    leaf
}

// A new node of the kind of `from`, the lowest mixed node, whose full children move there; nothing
// is marked then. Condition: there is room for it.
fn part<L: Ledger>(lists: &mut Lists, from: u32, series: bool, steps: &mut Steps<L>) -> u32
    requires links { AreLinks lists.old }
    requires room { 0 < spare_count lists.old }
    requires tree { (d : LowestView) × IsLowest lists.old d × Alternates (whole d)
        × (from ≡ d.place) × (series ≡ d.series) }
    ensures tree { (d : LowestView) → IsLowest lists.old d → Alternates (whole d) →
        from ≡ d.place → series ≡ d.series → IsParted lists.new result d }
    ensures unmarked { lists.new.marked ≡ [] }
    ensures room { spare_count lists.old ≤ spare_count lists.new + 1 }
    ensures steps { steps.new ≤ steps.old + 3 + 6 * length lists.old.marked }
    ensures links { AreLinks lists.new }
{
    let node = lists.make(node_kind(series), steps);
    move_full(lists, from, node, steps);
    clear(lists, steps);
    node
}

// The full children of the lowest mixed node move to another node of its kind.
fn move_full<L: Ledger>(lists: &mut Lists, from: u32, to: u32, steps: &mut Steps<L>)
    requires links { AreLinks lists.old }
    requires tree { (d : LowestView) × CanPart lists.old to d × (from ≡ d.place) }
    ensures tree { (d : LowestView) → CanPart lists.old to d → from ≡ d.place →
        IsParted lists.new to d }
    ensures marked { lists.new.marked ≡ lists.old.marked }
    ensures kinds { lists.new.kinds ≡ lists.old.kinds }
    ensures steps { steps.new ≤ steps.old + 1 + 5 * length lists.old.marked }
    ensures links { AreLinks lists.new }
{
    let mut next = lists.first_marked(steps);
    while let Some(place) = next {
        move_if_full(lists, place, from, to, steps);
        next = lists.next_marked(place, steps);
    }
}

// A place moves from one node to another, if it is noted as full and is a child of the one.
// Condition: the other is another place than this one.
fn move_if_full<L: Ledger>(lists: &mut Lists, place: u32, from: u32, to: u32, steps: &mut Steps<L>)
    requires links { AreLinks lists.old }
    requires place { IsLive lists.old place }
    requires to { IsLive lists.old to }
    requires differ { to ≢ place }
    ensures moved { lists.new ≡ moved_if lists.old place from to }
    ensures more { steps.old ≤ steps.new }
    ensures steps { steps.new ≤ steps.old + 4 }
    ensures links { AreLinks lists.new }
{
    if lists.note(place, steps) != FULL {
        return;
    }
    let Some(above) = lists.parent(place, steps) else {
        return;
    };
    if above != from {
        return;
    }
    lists.detach(place, steps);
    lists.attach(to, place, steps);
}

// A loose node comes where a place stands, which is loose then.
fn put<L: Ledger>(
    lists: &mut Lists,
    root: &mut Option<u32>,
    place: u32,
    node: u32,
    steps: &mut Steps<L>,
)
    requires links { AreLinks lists.old }
    requires trees { (d : PutView) × CanPut lists.old root.old place node d }
    ensures trees { (d : PutView) → CanPut lists.old root.old place node d →
        IsTreePut lists.new root.new d }
    ensures marked { lists.new.marked ≡ lists.old.marked }
    ensures kinds { lists.new.kinds ≡ lists.old.kinds }
    ensures steps { steps.new ≤ steps.old + 3 }
    ensures links { AreLinks lists.new }
{
    let Some(above) = lists.parent(place, steps) else {
        *root = Some(node);
        return;
    };
    lists.detach(place, steps);
    lists.attach(above, node, steps);
}

// What stays of a loose node, and the leaf, come below a node of a kind, which comes below a node
// that stays. Condition: there is room, and nothing is marked.
fn pair_up<L: Ledger>(
    lists: &mut Lists,
    stay: u32,
    loose: u32,
    leaf: u32,
    series: bool,
    steps: &mut Steps<L>,
)
    requires links { AreLinks lists.old }
    requires room { 1 < spare_count lists.old }
    requires unmarked { lists.old.marked ≡ [] }
    requires trees { (d : PairView) × CanPair lists.old stay loose leaf d }
    ensures trees { (d : PairView) → CanPair lists.old stay loose leaf d →
        IsPaired lists.new stay loose leaf series d }
    ensures unmarked { lists.new.marked ≡ [] }
    ensures steps { steps.new ≤ steps.old + 9 }
    ensures links { AreLinks lists.new }
{
    let rest = tidy(lists, loose, steps);
    let pair = join(lists, rest, leaf, series, steps);
    lists.attach(stay, pair, steps);
}
