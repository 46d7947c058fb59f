//! Linked lists in place.
ghost use Rattle.std.specs.Prelude.{◌≡◌, ◌≢◌, ℕ, ◌+◌, ◌<◌, ◌≤◌, List, [], ◌∷◌, ◌++◌, length, IfOk, IsSome, vec_len, vec_capacity, IfSome, ◌^◌, Some, None, slice_set, ◌==◌, if◌then◌else◌};
ghost use Rattle.md_lists.specs.Words.{behind};
ghost use Rattle.md_graph.specs.Linked.{first_or};
ghost use Rattle.md_lists.specs.Links.{kind_at, parent_at, children_at, tally_at, note_at, IsLive, IsMarked, IsBare, AreLinks, spare_count, siblings, all_free, with_kind, attached, detached, replaced, raised, noted, unmarked};
ghost use Rattle.md_lists.specs.Spans.{span_of, linked};

use crate::span::{Span, link};
use crate::{PLACES, PlaceKind};
use md_graph::{Memory, Steps};
use std::alloc::Global;
use std::marker::Model;
use std::sync::ledger::Ledger;

/// `PLACES` places, each free or live. A live place has a kind, a parent or none, an ordered list
/// of children, a tally and a note; a place is marked exactly where its tally or its note isn't 0,
/// and the marked places are a list in the order in which they came onto it. That no place is below
/// itself is for the caller to keep.
///
/// All memory is taken when the lists are made: room for all places, each of which is made when it
/// is first asked for. Each call but `new` and `spare` is one step on the counter that it is lent,
/// and reads or changes a bounded number of places.
#[derive(Drop)]
pub struct Lists {
    kinds: Vec<Option<PlaceKind>>,
    parents: Vec<Option<u32>>,
    spans: Vec<Span>,
    nexts: Vec<Option<u32>>,
    previous: Vec<Option<u32>>,
    tallies: Vec<u32>,
    notes: Vec<u32>,
    marks: Span,
    mark_nexts: Vec<Option<u32>>,
    // The free ones of the places that were made; all others are free too.
    free: Vec<u32>,
}

impl Model for Lists {
    ghost use Rattle.md_lists.specs.Links.{Links};

    ghost Value = { Links };

    ghost use Rattle.md_lists.specs.Kept.{links_kept, IsKept};

    ghost view = { links_kept };

    ghost invariant = { IsKept };
}

impl Lists {
    /// All places are free. Errors: want of memory.
    pub fn new(alloc: Global) -> Result<Lists, Memory>
        ensures free { IfOk result (λ lists. lists ≡ all_free) }
        ensures links { IfOk result AreLinks }
    {
        Ok(Lists {
            kinds: Vec::with_capacity(alloc, PLACES as usize)?,
            parents: Vec::with_capacity(alloc, PLACES as usize)?,
            spans: Vec::with_capacity(alloc, PLACES as usize)?,
            nexts: Vec::with_capacity(alloc, PLACES as usize)?,
            previous: Vec::with_capacity(alloc, PLACES as usize)?,
            tallies: Vec::with_capacity(alloc, PLACES as usize)?,
            notes: Vec::with_capacity(alloc, PLACES as usize)?,
            marks: Span::empty(),
            mark_nexts: Vec::with_capacity(alloc, PLACES as usize)?,
            free: Vec::with_capacity(alloc, PLACES as usize)?,
        })
    }

    /// The number of free places.
    pub fn spare(&self) -> u32
        ensures spare { result ≡ spare_count self.now }
        ensures links { AreLinks self.now }
    {
        self.free.len() as u32 + (PLACES - self.kinds.len() as u32)
    }

    /// A place that was free, now live, without parent, children and marks. Condition: a place is
    /// free.
    pub fn make<L: Ledger>(&mut self, kind: PlaceKind, steps: &mut Steps<L>) -> u32
        requires { 0 < spare_count self.old }
        ensures place { kind_at self.old result ≡ None }
        ensures inside { result < PLACES }
        ensures made { self.new ≡ with_kind self.old result (Some kind) }
        ensures bare { IsBare self.new result }
        ensures links { AreLinks self.new }
        ensures step { steps.new ≡ steps.old + 1 }
    {
        steps.tick();
        if let Some(place) = self.free.pop() {
            self.kinds[place as usize] = Some(kind);
            return place;
        }
        let place = self.kinds.len() as u32;
        self.kinds.push_reserved(Some(kind));
        self.parents.push_reserved(None);
        self.spans.push_reserved(Span::empty());
        self.nexts.push_reserved(None);
        self.previous.push_reserved(None);
        self.tallies.push_reserved(0);
        self.notes.push_reserved(0);
        self.mark_nexts.push_reserved(None);
        place
    }

    /// The place is free again. Condition: it is live, without parent, children and marks.
    pub fn free<L: Ledger>(&mut self, p: u32, steps: &mut Steps<L>)
        requires live { IsLive self.old p }
        requires bare { IsBare self.old p }
        ensures freed { self.new ≡ with_kind self.old p None }
        ensures links { AreLinks self.new }
        ensures step { steps.new ≡ steps.old + 1 }
    {
        steps.tick();
        self.kinds[p as usize] = None;
        self.free.push_reserved(p);
    }

    /// A place becomes the last child of another. Condition: both are live and different, and the
    /// child has no parent.
    pub fn attach<L: Ledger>(&mut self, parent: u32, child: u32, steps: &mut Steps<L>)
        requires parent { IsLive self.old parent }
        requires child { IsLive self.old child }
        requires differ { parent ≢ child }
        requires loose { parent_at self.old child ≡ None }
        ensures attached { self.new ≡ attached self.old parent child }
        ensures links { AreLinks self.new }
        ensures step { steps.new ≡ steps.old + 1 }
    {
        steps.tick();
        let span = self.spans[parent as usize];
        link(&mut self.nexts, span.last, Some(child));
        link(&mut self.previous, Some(child), span.last);
        self.spans[parent as usize] = span.with_last(child);
        self.parents[child as usize] = Some(parent);
    }

    /// A place leaves its parent, and has none. Condition: it has one.
    pub fn detach<L: Ledger>(&mut self, child: u32, steps: &mut Steps<L>)
        requires { IsSome (parent_at self.old child) }
        ensures detached { (q : ℕ) → parent_at self.old child ≡ Some q →
            self.new ≡ detached self.old q child }
        ensures links { AreLinks self.new }
        ensures step { steps.new ≡ steps.old + 1 }
    {
        steps.tick();
        let (previous, next) = (self.previous[child as usize], self.nexts[child as usize]);
        match self.parents[child as usize] {
            Some(parent) => {
                let span = self.spans[parent as usize];
                link(&mut self.nexts, previous, next);
                link(&mut self.nexts, Some(child), None);
                link(&mut self.previous, next, previous);
                self.spans[parent as usize] = span.without(previous, next);
                self.parents[child as usize] = None;
            }
            None => unreachable!(),
        }
    }

    /// A place stands where another stood among the children of its parent; the other has no parent
    /// then. Condition: both are live and different, `old` has a parent other than `new`, `new` has
    /// none.
    pub fn replace<L: Ledger>(&mut self, old: u32, new: u32, steps: &mut Steps<L>)
        requires old { IsLive self.old old }
        requires new { IsLive self.old new }
        requires differ { old ≢ new }
        requires parent { (q : ℕ) × (parent_at self.old old ≡ Some q) × (q ≢ new) }
        requires loose { parent_at self.old new ≡ None }
        ensures replaced { (q : ℕ) → parent_at self.old old ≡ Some q →
            self.new ≡ replaced self.old q old new }
        ensures links { AreLinks self.new }
        ensures step { steps.new ≡ steps.old + 1 }
    {
        steps.tick();
        let (previous, next) = (self.previous[old as usize], self.nexts[old as usize]);
        match self.parents[old as usize] {
            Some(parent) => {
                let span = self.spans[parent as usize];
                link(&mut self.nexts, previous, Some(new));
                link(&mut self.nexts, Some(new), next);
                link(&mut self.nexts, Some(old), None);
                link(&mut self.previous, next, Some(new));
                link(&mut self.previous, Some(new), previous);
                self.spans[parent as usize] = span.with_other(previous, next, new);
                link(&mut self.parents, Some(old), None);
                link(&mut self.parents, Some(new), Some(parent));
            }
            None => unreachable!(),
        }
    }

    /// The kind of a place. Condition: it is live.
    pub fn kind<L: Ledger>(&self, p: u32, steps: &mut Steps<L>) -> PlaceKind
        requires { IsLive self.now p }
        ensures kind { kind_at self.now p ≡ Some result }
        ensures links { AreLinks self.now }
        ensures step { steps.new ≡ steps.old + 1 }
    {
        steps.tick();
        match self.kinds[p as usize] {
            Some(kind) => kind,
            None => unreachable!(),
        }
    }

    /// The place has another kind. Condition: it is live.
    pub fn set_kind<L: Ledger>(&mut self, p: u32, kind: PlaceKind, steps: &mut Steps<L>)
        requires { IsLive self.old p }
        ensures kind { self.new ≡ with_kind self.old p (Some kind) }
        ensures links { AreLinks self.new }
        ensures step { steps.new ≡ steps.old + 1 }
    {
        steps.tick();
        self.kinds[p as usize] = Some(kind);
    }

    /// The parent of a place, or none. Condition: it is live.
    pub fn parent<L: Ledger>(&self, p: u32, steps: &mut Steps<L>) -> Option<u32>
        requires { IsLive self.now p }
        ensures parent { result ≡ parent_at self.now p }
        ensures links { AreLinks self.now }
        ensures step { steps.new ≡ steps.old + 1 }
    {
        steps.tick();
        self.parents[p as usize]
    }

    /// The first child of a place; none exactly where it has no children. Condition: it is live.
    pub fn first_child<L: Ledger>(&self, p: u32, steps: &mut Steps<L>) -> Option<u32>
        requires { IsLive self.now p }
        ensures first { result ≡ first_or (children_at self.now p) None }
        ensures links { AreLinks self.now }
        ensures step { steps.new ≡ steps.old + 1 }
    {
        steps.tick();
        self.spans[p as usize].first
    }

    /// The place behind another among the children of its parent; none exactly at their end, or
    /// where it has no parent. Condition: it is live.
    pub fn next_sibling<L: Ledger>(&self, p: u32, steps: &mut Steps<L>) -> Option<u32>
        requires { IsLive self.now p }
        ensures next { result ≡ behind p (siblings self.now (parent_at self.now p)) }
        ensures links { AreLinks self.now }
        ensures step { steps.new ≡ steps.old + 1 }
    {
        steps.tick();
        self.nexts[p as usize]
    }

    /// The number of the children of a place. Condition: it is live.
    pub fn child_count<L: Ledger>(&self, p: u32, steps: &mut Steps<L>) -> u32
        requires { IsLive self.now p }
        ensures count { result ≡ length (children_at self.now p) }
        ensures links { AreLinks self.now }
        ensures step { steps.new ≡ steps.old + 1 }
    {
        steps.tick();
        self.spans[p as usize].count
    }

    /// The tally of a place. Condition: it is live.
    pub fn tally<L: Ledger>(&self, p: u32, steps: &mut Steps<L>) -> u32
        requires { IsLive self.now p }
        ensures tally { result ≡ tally_at self.now p }
        ensures links { AreLinks self.now }
        ensures step { steps.new ≡ steps.old + 1 }
    {
        steps.tick();
        self.tallies[p as usize]
    }

    /// The note of a place. Condition: it is live.
    pub fn note<L: Ledger>(&self, p: u32, steps: &mut Steps<L>) -> u32
        requires { IsLive self.now p }
        ensures note { result ≡ note_at self.now p }
        ensures links { AreLinks self.now }
        ensures step { steps.new ≡ steps.old + 1 }
    {
        steps.tick();
        self.notes[p as usize]
    }

    /// The tally of a place is one more; the place joins the end of the marked places if it wasn't
    /// among them. Condition: it is live, and its tally is below `PLACES`.
    pub fn raise<L: Ledger>(&mut self, p: u32, steps: &mut Steps<L>)
        requires live { IsLive self.old p }
        requires room { tally_at self.old p < PLACES }
        ensures raised { self.new ≡ raised self.old p }
        ensures links { AreLinks self.new }
        ensures step { steps.new ≡ steps.old + 1 }
    {
        steps.tick();
        let tally = self.tallies[p as usize];
        let note = self.notes[p as usize];
        self.marks = join(self.marks, &mut self.mark_nexts, p, tally, note);
        self.tallies[p as usize] = tally + 1;
    }

    /// The place has another note, and joins the end of the marked places if it wasn't among them.
    /// Condition: it is live, and the note isn't 0.
    pub fn set_note<L: Ledger>(&mut self, p: u32, value: u32, steps: &mut Steps<L>)
        requires live { IsLive self.old p }
        requires some { value ≢ 0 }
        ensures noted { self.new ≡ noted self.old p value }
        ensures links { AreLinks self.new }
        ensures step { steps.new ≡ steps.old + 1 }
    {
        steps.tick();
        let (tally, note) = (self.tallies[p as usize], self.notes[p as usize]);
        self.marks = join(self.marks, &mut self.mark_nexts, p, tally, note);
        self.notes[p as usize] = value;
    }

    /// The first marked place; none exactly where no place is marked.
    pub fn first_marked<L: Ledger>(&self, steps: &mut Steps<L>) -> Option<u32>
        ensures first { result ≡ first_or self.now.marked None }
        ensures links { AreLinks self.now }
        ensures step { steps.new ≡ steps.old + 1 }
    {
        steps.tick();
        self.marks.first
    }

    /// The marked place behind another; none exactly at the end. Condition: the other is marked.
    pub fn next_marked<L: Ledger>(&self, p: u32, steps: &mut Steps<L>) -> Option<u32>
        requires { IsMarked self.now p }
        ensures next { result ≡ behind p self.now.marked }
        ensures links { AreLinks self.now }
        ensures step { steps.new ≡ steps.old + 1 }
    {
        steps.tick();
        self.mark_nexts[p as usize]
    }

    /// Takes the first marked place off, whose tally and note become 0; none exactly where no place
    /// is marked.
    pub fn unmark<L: Ledger>(&mut self, steps: &mut Steps<L>) -> Option<u32>
        ensures first { result ≡ first_or self.old.marked None }
        ensures unmarked { self.new ≡ unmarked self.old }
        ensures links { AreLinks self.new }
        ensures step { steps.new ≡ steps.old + 1 }
    {
        steps.tick();
        match self.marks.first {
            Some(first) => {
                let next = self.mark_nexts[first as usize];
                self.marks = self.marks.without(None, next);
                self.tallies[first as usize] = 0;
                self.notes[first as usize] = 0;
                Some(first)
            }
            None => None,
        }
    }
}

// The marks with a place at their end, unless its tally or its note says that it is marked already.
// Condition: the last marked place and this one have a link, and the number of marks fits.
fn join(marks: Span, nexts: &mut Vec<Option<u32>>, place: u32, tally: u32, note: u32) -> Span
    requires last { IfSome marks.last (λ p. p < vec_len nexts.old) }
    requires place { place < vec_len nexts.old }
    requires count { marks.count + 1 < 2 ^ 32 }
    ensures span { (xs : List ℕ) → marks ≡ span_of xs →
        result ≡ span_of (if tally + note == 0 then xs ++ place ∷ [] else xs) }
    ensures nexts { nexts.new.items ≡ (if tally + note == 0
        then slice_set (linked nexts.old.items marks.last (Some place)) place None
        else nexts.old.items) }
    ensures len { vec_len nexts.new ≡ vec_len nexts.old }
    ensures capacity { vec_capacity nexts.new ≡ vec_capacity nexts.old }
{
    if tally != 0 || note != 0 {
        return marks;
    }
    link(nexts, marks.last, Some(place));
    link(nexts, Some(place), None);
    marks.with_last(place)
}
