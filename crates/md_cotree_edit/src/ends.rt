//! Two leaves that come below a node of the other kind.
ghost use Rattle.std.specs.Prelude.{◌≡◌, ◌+◌, ◌<◌, ◌≤◌, []};
ghost use Rattle.md_lists.specs.Links.{AreLinks, spare_count};
ghost use Rattle.md_cotree.specs.PlaceTrees.{tip};
ghost use Rattle.md_cotree_edit.specs.Counts.{crossing};
ghost use Rattle.md_cotree_edit.specs.Turns.{BothView, both_tree, OneView, one_tree, IsAlternating, IsLifted};

use crate::lifting::{join, lift, tidy};
use md_graph::Steps;
use md_lists::Lists;
use std::sync::ledger::Ledger;

// Two leaves that are children of one place are joined there, or parted where it is series.
pub(crate) fn turn_both<L: Ledger>(
    lists: &mut Lists,
    place: u32,
    left: u32,
    right: u32,
    series: bool,
    steps: &mut Steps<L>,
)
    requires links { AreLinks lists.old }
    requires room { 0 < spare_count lists.old }
    requires unmarked { lists.old.marked ≡ [] }
    requires tree { (d : BothView) × IsAlternating lists.old (both_tree place left right series d) }
    ensures tree { (d : BothView) →
        IsAlternating lists.old (both_tree place left right series d) →
        IsLifted lists.new (both_tree place left right series d) series
        (crossing (tip left d.left) (tip right d.right)) }
    ensures links { AreLinks lists.new }
    ensures unmarked { lists.new.marked ≡ [] }
    ensures steps { steps.new ≤ steps.old + 8 }
{
    lists.detach(left, steps);
    lists.detach(right, steps);
    lift(lists, place, left, right, series, steps);
}

// A leaf that is a child of a place, and one that is a child of a child of it, are joined there, or
// parted where it is series: what stays of the child comes below one node with the first leaf.
pub(crate) fn turn_one<L: Ledger>(
    lists: &mut Lists,
    place: u32,
    left: u32,
    child: u32,
    right: u32,
    series: bool,
    steps: &mut Steps<L>,
)
    requires links { AreLinks lists.old }
    requires room { 1 < spare_count lists.old }
    requires unmarked { lists.old.marked ≡ [] }
    requires tree { (d : OneView) ×
        IsAlternating lists.old (one_tree place left child right series d) }
    ensures tree { (d : OneView) →
        IsAlternating lists.old (one_tree place left child right series d) →
        IsLifted lists.new (one_tree place left child right series d) series
        (crossing (tip left d.left) (tip right d.right)) }
    ensures links { AreLinks lists.new }
    ensures unmarked { lists.new.marked ≡ [] }
    ensures steps { steps.new ≤ steps.old + 17 }
{
    lists.detach(left, steps);
    lists.detach(right, steps);
    lists.detach(child, steps);
    let rest = tidy(lists, child, steps);
    let node = join(lists, rest, left, series, steps);
    lift(lists, place, node, right, series, steps);
}
