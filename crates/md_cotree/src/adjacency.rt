//! Whether two names are adjacent, told by the places above their leaves.
ghost use Rattle.std.specs.Prelude.{◌≡◌, ◌≢◌, ℕ, ◌+◌, ◌<◌, Bool, None, Some, slice_index_or};
ghost use Rattle.md_lists.specs.Links.{kind_at, parent_at, IsLive, AreLinks};
ghost use Rattle.std.specs.FinSet as set;
ghost use Rattle.md_graph.specs.PlainGraph.{PlainGraph, adjacent, neighbours};
ghost use Rattle.md_graph.specs.Sets.{Has};
ghost use Rattle.md_cotree.specs.Climbs.{Climbs, Meet, Meets};
ghost use Rattle.md_cotree.specs.Cotrees.{place_at, IsSoundCotree, Denotes};
ghost use Rattle.md_cotree.specs.PlaceTrees.{place_kind};

use crate::Cotree;
use md_graph::{NAMES, Names, Steps};
use md_lists::{Lists, PLACES, PlaceKind};
use std::marker::Brand;
use std::sync::ledger::{Blank, Ledger};

impl Cotree {
    /// Whether two names are adjacent in the graph that the cotree denotes: the place where the
    /// ways up from their leaves meet is series. Names that aren't there are adjacent to none.
    /// Condition: the cotree is sound.
    pub fn adjacent(&self, u: u32, v: u32) -> bool
        requires { IsSoundCotree self.now }
        ensures { (g : PlainGraph) → Denotes self.now g → result ≡ adjacent g u v }
    {
        if u == v {
            return false;
        }
        let _spare = self.lists.spare();
        match (self.place(u), self.place(v)) {
            (Some(p), Some(q)) => meets_at_series::<Brand>(&self.lists, p, q, Blank::new(1)),
            _ => false,
        }
    }

    /// The number of neighbours of `v` in the graph that the cotree denotes. Condition: the cotree
    /// is sound, and `v` is there.
    pub fn degree(&self, v: u32) -> u32
        requires sound { IsSoundCotree self.now }
        requires live { (g : PlainGraph) × Denotes self.now g × Has g.vertices v }
        ensures { (g : PlainGraph) → Denotes self.now g → result ≡ set.len (neighbours g v) }
    {
        let mut joined = Names::none();
        for name in 0..NAMES {
            if self.adjacent(v, name) {
                joined.insert(name);
            }
        }
        joined.count()
    }

    // The place of the leaf of a name, or none.
    fn place(&self, name: u32) -> Option<u32>
        ensures { result ≡ place_at self.now name }
    {
        if (name as usize) < self.places.len() {
            self.places[name as usize]
        } else {
            None
        }
    }
}

/// The parent of a place. Condition: it has one.
pub fn parent_of<L: Ledger>(lists: &Lists, place: u32, steps: &mut Steps<L>) -> u32
    requires links { AreLinks lists.now }
    requires parent { (q : ℕ) × (parent_at lists.now place ≡ Some q) }
    ensures parent { parent_at lists.now place ≡ Some result }
    ensures live { IsLive lists.now result }
    ensures steps { steps.new ≡ steps.old + 1 }
{
    match lists.parent(place, steps) {
        Some(parent) => parent,
        None => unreachable!(),
    }
}

// Whether the place where the ways up from two places meet is series.
fn meets_at_series<L: Ledger>(lists: &Lists, p: u32, q: u32, blank: Blank) -> bool
    requires name { blank.name ≡ L.name }
    requires parts { blank.parts ≡ L.parts }
    requires some { 0 < blank.parts }
    requires left { IsLive lists.now p }
    requires right { IsLive lists.now q }
    requires ways { (b : Bool) × Meets lists.now p q b }
    ensures { (b : Bool) → Meets lists.now p q b → result ≡ b }
{
    let mut steps = Steps::<L>::new(blank);
    let left = depth(lists, p, &mut steps);
    let right = depth(lists, q, &mut steps);
    let a = ancestor(lists, p, left.saturating_sub(right), &mut steps);
    let b = ancestor(lists, q, right.saturating_sub(left), &mut steps);
    meet_at_series(lists, a, b, left, &mut steps)
}

// How many steps lead up from a place to one without a parent.
fn depth<L: Ledger>(lists: &Lists, p: u32, steps: &mut Steps<L>) -> u32
    requires live { IsLive lists.now p }
    requires way { (n r : ℕ) × Climbs lists.now n p r × (parent_at lists.now r ≡ None)
        × (n < PLACES) }
    ensures depth { (n r : ℕ) → Climbs lists.now n p r → parent_at lists.now r ≡ None →
        result ≡ n }
    ensures links { AreLinks lists.now }
{
    let mut place = p;
    let mut depth = 0;
    while let Some(parent) = lists.parent(place, steps) {
        place = parent;
        depth += 1;
    }
    depth
}

// The place that as many steps up lead to.
fn ancestor<L: Ledger>(lists: &Lists, p: u32, count: u32, steps: &mut Steps<L>) -> u32
    requires links { AreLinks lists.now }
    requires way { (a : ℕ) × Climbs lists.now count p a }
    ensures { (a : ℕ) → Climbs lists.now count p a → result ≡ a }
{
    let mut place = p;
    for _step in 0..count {
        place = parent_of(lists, place, steps);
    }
    place
}

// Whether the place where the ways up from two places meet is series. Condition: they meet after as
// many steps from the one as from the other, fewer than `limit`.
fn meet_at_series<L: Ledger>(
    lists: &Lists,
    p: u32,
    q: u32,
    limit: u32,
    steps: &mut Steps<L>,
) -> bool
    requires links { AreLinks lists.now }
    requires ways { (n : ℕ) × (b : Bool) × Meet lists.now p q n n b × (n < limit) }
    ensures { (n : ℕ) (b : Bool) → Meet lists.now p q n n b → result ≡ b }
{
    let (mut left, mut right) = (p, q);
    for _step in 0..limit {
        let x = parent_of(lists, left, steps);
        let y = parent_of(lists, right, steps);
        if x == y {
            return is_series(lists, x, steps);
        }
        (left, right) = (x, y);
    }
    false
}

// Whether a place is series. Condition: it is a node.
fn is_series<L: Ledger>(lists: &Lists, p: u32, steps: &mut Steps<L>) -> bool
    requires { (b : Bool) × (kind_at lists.now p ≡ Some (place_kind b)) }
    ensures { (b : Bool) → kind_at lists.now p ≡ Some (place_kind b) → result ≡ b }
{
    matches!(lists.kind(p, steps), PlaceKind::Series)
}
