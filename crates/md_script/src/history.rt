//! What the items that were applied are taken back by.
ghost use Rattle.std.specs.Prelude.{◌≡◌, ℕ, ◌+◌, ◌<◌, ◌≤◌, List, [], ◌∷◌, ◌++◌, length, map, reverse, vec_len, vec_capacity, slice_get, Some, OnOk, IfOk, IfSome, IfNone};
ghost use Rattle.md_script.specs.declared.edit.Edit.{Edit};
ghost use Rattle.md_script.specs.declared.history.KeptEdit.{KeptEdit};
ghost use Rattle.md_script.specs.Pasts.{as_edit};
ghost use Rattle.md_script.specs.Histories.{past_in, NameRowsInOrder, HasRow};

use crate::PastOf;
use md_graph::{Memory, Set, WORDS};
use std::alloc::Global;
use std::marker::Model;

/// What the items that were applied are taken back by: a list of items, of each the edits that take
/// back its own, in the order in which they were applied; contracts see the last item first. It
/// has room for `spare` more edits and items, which takes no memory.
#[derive(Drop)]
pub struct HistoryOf<const W: usize> {
    // The edits of all items, those of the first one first.
    edits: Vec<KeptEdit>,
    // The neighbours of the vertices that these take in.
    rows: Vec<Set<W>>,
    // Where the edits of each item begin.
    starts: Vec<usize>,
    // For how many more of each there is room.
    spare: u64,
}

// An edit by which another is taken back. The neighbours of a vertex stand apart, so that an edit
// of an edge takes no room for them.
#[derive(Clone, Copy, Drop)]
enum KeptEdit {
    // Takes in the edge between `u` and `v`.
    AddEdge { u: u32, v: u32 },
    // Leaves out the edge between `u` and `v`.
    DelEdge { u: u32, v: u32 },
    // Takes in the vertex `x` and an edge between it and each member of the row.
    AddVertex { x: u32, row: usize },
    // Leaves out the vertex `x` and the edges at it.
    DelVertex { x: u32 },
}

/// What the items that were applied are taken back by, on all names.
pub type History = HistoryOf<WORDS>;

impl<const W: usize> Model for HistoryOf<W> {
    ghost use Rattle.std.specs.Prelude.{◌+◌, ◌≤◌, length, reverse, map, vec_len, vec_capacity};
    ghost use Rattle.md_script.specs.Histories.{PlainHistory, history_code, history_kept, past_in, AreStarts, NameRowsInOrder};

    ghost Value = { PlainHistory };

    ghost coded = { history_code };

    ghost view = { λ h. history_kept (map (past_in {w = W} h.rows.items) h.edits.items)
        h.starts.items h.spare };

    ghost use Rattle.std.specs.Prelude.{◌*◌};

    ghost invariant = { λ h. AreStarts (length h.edits.items) (reverse h.starts.items)
        × NameRowsInOrder 0 h.edits.items (length h.rows.items)
        × (vec_len h.edits + h.spare ≤ vec_capacity h.edits)
        × (vec_len h.rows + h.spare ≤ vec_capacity h.rows)
        × (vec_len h.starts + h.spare ≤ vec_capacity h.starts) };
}

impl<const W: usize> HistoryOf<W> {
    /// No item. Errors: want of memory.
    pub fn new(alloc: Global) -> Result<HistoryOf<W>, Memory>
        ensures { IfOk result (λ h. h.items ≡ []) }
    {
        Ok(HistoryOf {
            edits: Vec::new(alloc),
            rows: Vec::new(alloc),
            starts: Vec::new(alloc),
            spare: 0,
        })
    }

    /// Makes room for so many more edits and items. Errors: want of memory.
    pub fn reserve(&mut self, _alloc: Global, room: u64) -> Result<(), Memory>
        ensures items { self.new.items ≡ self.old.items }
        ensures spare { self.old.spare ≤ self.new.spare }
        ensures room { OnOk result (room ≤ self.new.spare) }
    {
        if self.spare >= room {
            return Ok(());
        }
        self.edits.reserve(room as usize)?;
        self.rows.reserve(room as usize)?;
        self.starts.reserve(room as usize)?;
        self.spare = room;
        Ok(())
    }

    /// For how many more edits and items there is room.
    pub fn spare(&self) -> u64
        ensures { result ≡ self.now.spare }
    {
        self.spare
    }

    /// The number of items.
    pub fn items(&self) -> u64
        ensures { result ≡ length self.now.items }
    {
        self.starts.len() as u64
    }

    /// A new last item without edits. Condition: there is room for it.
    pub fn open_item(&mut self)
        requires { 1 ≤ self.old.spare }
        ensures items { self.new.items ≡ [] ∷ self.old.items }
        ensures spare { self.new.spare + 1 ≡ self.old.spare }
    {
        self.starts.push_reserved(self.edits.len());
        self.spare -= 1;
    }

    /// Appends an edit to the last item. Conditions: an item stands, and there is room.
    pub fn push(&mut self, past: PastOf<W>)
        requires item { 0 < length self.old.items }
        requires room { 1 ≤ self.old.spare }
        ensures items { (last : List Edit) (others : List (List Edit)) →
            self.old.items ≡ last ∷ others →
            self.new.items ≡ (last ++ as_edit past.entry ∷ []) ∷ others }
        ensures spare { self.new.spare + 1 ≡ self.old.spare }
    {
        let kept = keep(&mut self.rows, past);
        self.edits.push_reserved(kept);
        self.spare -= 1;
    }

    /// Takes the last edit off the last item; none where that has none. Condition: an item stands.
    pub fn pop(&mut self) -> Option<PastOf<W>>
        requires { 0 < length self.old.items }
        ensures some { IfSome result (λ past. (last : List Edit) × (others : List (List Edit)) ×
            (self.old.items ≡ (last ++ as_edit past ∷ []) ∷ others) ×
            (self.new.items ≡ last ∷ others)) }
        ensures none { IfNone result ((others : List (List Edit)) ×
            (self.old.items ≡ [] ∷ others) × (self.new.items ≡ self.old.items)) }
        ensures spare { self.old.spare ≤ self.new.spare }
    {
        if self.last_len() == 0 {
            return None;
        }
        match self.edits.pop() {
            Some(kept) => Some(give(&mut self.rows, kept)),
            None => unreachable!(),
        }
    }

    /// Leaves out the last item. Condition: an item stands, and the last one has no edit.
    pub fn drop_item(&mut self)
        requires { (others : List (List Edit)) × (self.old.items ≡ [] ∷ others) }
        ensures items { self.old.items ≡ [] ∷ self.new.items }
        ensures spare { self.old.spare ≤ self.new.spare }
    {
        self.starts.pop();
    }

    /// Leaves out all items.
    pub fn forget(&mut self)
        ensures items { self.new.items ≡ [] }
        ensures spare { self.old.spare ≤ self.new.spare }
    {
        self.edits.clear();
        self.rows.clear();
        self.starts.clear();
    }

    /// The number of edits of the last item. Condition: an item stands.
    pub fn last_len(&self) -> u64
        requires { 0 < length self.now.items }
        ensures { (last : List Edit) (others : List (List Edit)) →
            self.now.items ≡ last ∷ others → result ≡ length last }
    {
        (self.edits.len() - last_start(&self.starts)) as u64
    }

    /// The edit at a place of the last item, counted from 0. Conditions: an item stands, and it
    /// has more edits.
    pub fn last_edit(&self, i: u64) -> PastOf<W>
        requires { (last : List Edit) × (others : List (List Edit)) ×
            (self.now.items ≡ last ∷ others) × (i < length last) }
        ensures { (last : List Edit) (others : List (List Edit)) →
            self.now.items ≡ last ∷ others → slice_get last i ≡ Some (as_edit result) }
    {
        past_of(
            &self.rows,
            self.edits[last_start(&self.starts) + i as usize],
        )
    }
}

// Keeps an edit; its neighbours, if it has them, come behind the rows. Condition: there is room for
// one more row.
fn keep<const W: usize>(rows: &mut Vec<Set<W>>, past: PastOf<W>) -> KeptEdit
    requires { vec_len rows.old < vec_capacity rows.old }
    ensures past { past_in {w = W} rows.new.items result ≡ past.entry }
    ensures rows { (edits : List KeptEdit) → NameRowsInOrder 0 edits (length rows.old.items) →
        NameRowsInOrder 0 (edits ++ result ∷ []) (length rows.new.items) }
    ensures others { (edits : List KeptEdit) → NameRowsInOrder 0 edits (length rows.old.items) →
        map (past_in {w = W} rows.new.items) edits ≡ map (past_in {w = W} rows.old.items) edits }
    ensures room { vec_len rows.new ≤ vec_len rows.old + 1 }
    ensures capacity { vec_capacity rows.new ≡ vec_capacity rows.old }
{
    match past {
        PastOf::AddEdge { u, v } => KeptEdit::AddEdge { u, v },
        PastOf::DelEdge { u, v } => KeptEdit::DelEdge { u, v },
        PastOf::AddVertex { x, neighbours } => {
            let row = rows.len();
            rows.push_reserved(neighbours);
            KeptEdit::AddVertex { x, row }
        }
        PastOf::DelVertex { x } => KeptEdit::DelVertex { x },
    }
}

// The edit that was kept last; its neighbours, if it has them, are taken off the rows. Condition:
// the rows are those of edits of which it is the last.
fn give<const W: usize>(rows: &mut Vec<Set<W>>, kept: KeptEdit) -> PastOf<W>
    requires { (edits : List KeptEdit)
        × NameRowsInOrder 0 (edits ++ kept ∷ []) (length rows.old.items) }
    ensures past { result ≡ past_in {w = W} rows.old.items kept }
    ensures rows { (edits : List KeptEdit)
        → NameRowsInOrder 0 (edits ++ kept ∷ []) (length rows.old.items)
        → NameRowsInOrder 0 edits (length rows.new.items)
        × (map (past_in {w = W} rows.new.items) edits
        ≡ map (past_in {w = W} rows.old.items) edits) }
    ensures room { vec_len rows.new ≤ vec_len rows.old }
    ensures capacity { vec_capacity rows.new ≡ vec_capacity rows.old }
{
    match kept {
        KeptEdit::AddEdge { u, v } => PastOf::AddEdge { u, v },
        KeptEdit::DelEdge { u, v } => PastOf::DelEdge { u, v },
        KeptEdit::AddVertex { x, .. } => match rows.pop() {
            Some(neighbours) => PastOf::AddVertex { x, neighbours },
            None => unreachable!(),
        },
        KeptEdit::DelVertex { x } => PastOf::DelVertex { x },
    }
}

// The edit that is kept. Condition: its row is there, if it has one.
fn past_of<const W: usize>(rows: &[Set<W>], kept: KeptEdit) -> PastOf<W>
    requires { HasRow (length rows.now) kept }
    ensures { result ≡ past_in {w = W} rows.now kept }
{
    match kept {
        KeptEdit::AddEdge { u, v } => PastOf::AddEdge { u, v },
        KeptEdit::DelEdge { u, v } => PastOf::DelEdge { u, v },
        KeptEdit::AddVertex { x, row } => PastOf::AddVertex {
            x,
            neighbours: rows[row].copy(),
        },
        KeptEdit::DelVertex { x } => PastOf::DelVertex { x },
    }
}

// The last of the places where items begin. Condition: there is one.
fn last_start(starts: &[usize]) -> usize
    requires { 0 < length starts.now }
    ensures { (before : List ℕ) × (reverse starts.now ≡ result ∷ before) }
{
    starts[starts.len() - 1]
}
