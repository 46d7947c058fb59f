//! The marked places are walked over: whether a new vertex can be taken in, and where.
ghost use Rattle.std.specs.Prelude.{◌≡◌, ℕ, ◌+◌, ◌*◌, ◌≤◌, ◌++◌, ◌↔◌, IsTrue, IsFalse, Bool, List, [], length, Some};
ghost use Rattle.md_lists.specs.Links.{kind_at, tally_at, children_at, IsMarked, AreLinks};
ghost use Rattle.md_cotree.specs.PlaceTrees.{place_kind, Alternates};
ghost use Rattle.md_cotree_edit.specs.Marks.{WalkView, CanWalk, AreWalkedOver, walked_on, ClimbView, CanClimb, CanTake, LowestView, IsLowest, whole, TellMarks, AreStill, Passes, hits_in, marked_walked};

use crate::marking::FULL;
use md_graph::Steps;
use md_lists::{Lists, PlaceKind};
use std::sync::ledger::Ledger;

// The note of a node that has a child with marked names and others.
const PATH: u32 = 2;

// Whether a node may have a mixed child: all its other children are full, if it is series; if it is
// parallel none is full.
fn passes<L: Ledger>(lists: &Lists, place: u32, steps: &mut Steps<L>) -> bool
    requires kind { (k : Bool) × (kind_at lists.now place ≡ Some (place_kind k)) }
    ensures passes { (k : Bool) → kind_at lists.now place ≡ Some (place_kind k) →
        IsTrue result ↔ Passes k (tally_at lists.now place) (length (children_at lists.now place)) }
    ensures steps { steps.new ≤ steps.old + 3 }
{
    let full = lists.tally(place, steps);
    match lists.kind(place, steps) {
        PlaceKind::Series => u64::from(full) + 1 == u64::from(lists.child_count(place, steps)),
        _ => full == 0,
    }
}

// Notes at the parent of a marked place that isn't full that one of its children is mixed. False
// where a new vertex can't be taken in: another child of it is mixed too, or it may have none.
// Condition: the place is marked, and wasn't walked over.
fn note_parent<L: Ledger>(lists: &mut Lists, place: u32, steps: &mut Steps<L>) -> bool
    requires links { AreLinks lists.old }
    requires marked { IsMarked lists.old place }
    requires tree { (d : WalkView) × CanWalk lists.old place d }
    ensures walked { (d : WalkView) → CanWalk lists.old place d → IsTrue result →
        AreWalkedOver lists.new (walked_on d place) }
    ensures breach { (d : WalkView) → CanWalk lists.old place d → IsFalse result →
        CanTake d.marks d.tree → ⊥ }
    ensures same { IsFalse result → lists.new ≡ lists.old }
    ensures longer { (rest : List ℕ) × (lists.new.marked ≡ lists.old.marked ++ rest) }
    ensures still { AreStill lists.old lists.new }
    ensures links { AreLinks lists.new }
    ensures steps { steps.new ≤ steps.old + 7 }
{
    if lists.note(place, steps) == FULL {
        return true;
    }
    let Some(above) = lists.parent(place, steps) else {
        return true;
    };
    if lists.note(above, steps) == PATH {
        return false;
    }
    if !passes(lists, above, steps) {
        return false;
    }
    lists.set_note(above, PATH, steps);
    true
}

// Whether a new vertex can be taken in. Each marked place that isn't full is noted at its parent,
// which comes onto the marked places then, if it wasn't among them.
pub(crate) fn climb<L: Ledger>(lists: &mut Lists, steps: &mut Steps<L>) -> bool
    requires links { AreLinks lists.old }
    requires tree { (d : ClimbView) × CanClimb lists.old d }
    ensures can_take { (d : ClimbView) → CanClimb lists.old d →
        IsTrue result ↔ CanTake d.marks d.tree }
    ensures told { (d : ClimbView) → CanClimb lists.old d → IsTrue result →
        TellMarks lists.new d.marks (marked_walked lists.new) d.tree }
    ensures count { (d : ClimbView) → CanClimb lists.old d →
        length lists.new.marked ≤ 4 * hits_in d.marks d.tree }
    ensures steps { steps.new ≤ steps.old + 1 + 8 * length lists.new.marked }
    ensures still { AreStill lists.old lists.new }
    ensures links { AreLinks lists.new }
{
    let mut next = lists.first_marked(steps);
    while let Some(place) = next {
        if !note_parent(lists, place, steps) {
            return false;
        }
        next = lists.next_marked(place, steps);
    }
    true
}

// The lowest mixed node: the marked place without a note. Condition: kinds alternate.
pub(crate) fn lowest<L: Ledger>(lists: &Lists, steps: &mut Steps<L>) -> u32
    requires links { AreLinks lists.now }
    requires tree { (d : LowestView) × IsLowest lists.now d × Alternates (whole d) }
    ensures lowest { (d : LowestView) → IsLowest lists.now d → Alternates (whole d) →
        result ≡ d.place }
    ensures steps { steps.new ≤ steps.old + 1 + 2 * length lists.now.marked }
{
    let mut next = lists.first_marked(steps);
    while let Some(place) = next {
        if lists.note(place, steps) == 0 {
            return place;
        }
        next = lists.next_marked(place, steps);
    }
    unreachable!()
}
