//! Where the ways up from the two leaves of an edge meet.
ghost use Rattle.std.specs.Prelude.{◌≡◌, ◌≢◌, ℕ, ◌+◌, ◌≤◌, ◌↔◌, IsTrue, Some};
ghost use Rattle.md_lists.specs.Links.{parent_at, IsLive, AreLinks};
ghost use Rattle.md_cotree_edit.specs.Turns.{IsMeetingOf};

use md_cotree::parent_of;
use md_graph::Steps;
use md_lists::Lists;
use std::sync::ledger::Ledger;

// Where two leaves stand below the place where their ways up meet: both as its children, the first
// as a child and the second as a grandchild, the other way round, or further apart.
#[derive(Clone, Copy)]
pub(crate) enum Meeting {
    Both(u32),
    First(u32, u32),
    Second(u32, u32),
    Apart,
}

// Where two leaves meet. Condition: they have parents.
pub(crate) fn meeting_of<L: Ledger>(lists: &Lists, a: u32, b: u32, steps: &mut Steps<L>) -> Meeting
    requires left { (p : ℕ) × (parent_at lists.now a ≡ Some p) }
    requires right { (p : ℕ) × (parent_at lists.now b ≡ Some p) }
    ensures meeting { IsMeetingOf lists.now a b result }
    ensures links { AreLinks lists.now }
    ensures steps { steps.new ≤ steps.old + 4 }
{
    let _spare = lists.spare();
    let left = parent_of(lists, a, steps);
    let right = parent_of(lists, b, steps);
    if left == right {
        return Meeting::Both(left);
    }
    if has_parent(lists, right, left, steps) {
        return Meeting::First(left, right);
    }
    if has_parent(lists, left, right, steps) {
        return Meeting::Second(right, left);
    }
    Meeting::Apart
}

// Whether a place is a child of another.
fn has_parent<L: Ledger>(lists: &Lists, p: u32, q: u32, steps: &mut Steps<L>) -> bool
    requires live { IsLive lists.now p }
    ensures parent { IsTrue result ↔ (parent_at lists.now p ≡ Some q) }
    ensures steps { steps.new ≡ steps.old + 1 }
{
    match lists.parent(p, steps) {
        Some(parent) => parent == q,
        None => false,
    }
}
