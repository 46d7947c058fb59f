//! Names of a cotree are marked, and the nodes that are full then.
ghost use Rattle.std.specs.Prelude.{◌≡◌, ℕ, ◌+◌, ◌*◌, ◌≤◌, List, [], length, Option};
ghost use Rattle.md_graph.specs.Linked.{times};
ghost use Rattle.md_lists.specs.Links.{AreLinks};
ghost use Rattle.md_cotree.specs.PlaceTrees.{PlaceTree, PlaceTrees};
ghost use Rattle.md_cotree_edit.specs.Contexts.{AreTreesKept};
ghost use Rattle.md_cotree_edit.specs.Marks.{MarkView, CanMark, CanMarkAll, TellMarks, AreStill, full_nodes, more, none_walked};

use md_graph::Steps;
use md_lists::Lists;
use std::sync::ledger::Ledger;

// The note of a node all of whose names are marked.
pub(crate) const FULL: u32 = 1;

// Marks the leaf of a name, and notes each node that is full then; the tally of a node is the
// number of its children that are full. Condition: the name wasn't marked.
fn mark<L: Ledger>(lists: &mut Lists, leaf: u32, steps: &mut Steps<L>)
    requires links { AreLinks lists.old }
    requires tree { (d : MarkView) × CanMark lists.old leaf d }
    ensures told { (d : MarkView) → CanMark lists.old leaf d →
        TellMarks lists.new (more d.marks d.name) none_walked d.tree }
    ensures steps { (d : MarkView) → CanMark lists.old leaf d →
        steps.new + 5 * full_nodes d.marks d.tree ≤
        steps.old + 5 + 5 * full_nodes (more d.marks d.name) d.tree }
    ensures still { AreStill lists.old lists.new }
    ensures links { AreLinks lists.new }
{
    lists.set_note(leaf, FULL, steps);
    let mut place = leaf;
    while let Some(above) = lists.parent(place, steps) {
        lists.raise(above, steps);
        if lists.tally(above, steps) != lists.child_count(above, steps) {
            return;
        }
        lists.set_note(above, FULL, steps);
        place = above;
    }
}

// Marks names. Condition: nothing is marked, each name stands in the tree, and none stands twice
// among them.
pub(crate) fn mark_all<L: Ledger>(
    lists: &mut Lists,
    places: &[Option<u32>],
    names: &[u32],
    steps: &mut Steps<L>,
)
    requires links { AreLinks lists.old }
    requires tree { (t : PlaceTree) × CanMarkAll lists.old places.now names.now t }
    ensures told { (t : PlaceTree) → CanMarkAll lists.old places.now names.now t →
        TellMarks lists.new (λ v. times v names.now) none_walked t }
    ensures steps { steps.new ≤ steps.old + 10 * length names.now }
    ensures still { AreStill lists.old lists.new }
    ensures links { AreLinks lists.new }
{
    for name in names {
        match places[*name as usize] {
            Some(leaf) => mark(lists, leaf, steps),
            None => unreachable!(),
        }
    }
}

// No place is marked any more.
pub(crate) fn clear<L: Ledger>(lists: &mut Lists, steps: &mut Steps<L>)
    requires links { AreLinks lists.old }
    ensures unmarked { lists.new.marked ≡ [] }
    ensures still { AreStill lists.old lists.new }
    ensures steps { steps.new ≡ steps.old + length lists.old.marked + 1 }
    ensures links { AreLinks lists.new }
{
    while let Some(_place) = lists.unmark(steps) {}
}
