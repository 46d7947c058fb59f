//! Sets of arcs, as rows of heads and rows of tails.
ghost use Rattle.std.specs.Prelude.{◌≡◌, ℕ, ◌*◌, ◌<◌, ◌≤◌, ◌⊎◌, ◌↔◌, true, false, length, IfOk};
ghost use Rattle.std.specs.FinSet as set;
ghost use Rattle.md_graph.specs.Sets.{Has};
ghost use Rattle.md_graph.specs.Rows.{row_of};
ghost use Rattle.md_forcing.specs.declared.arc.Arc.{Arc};
ghost use Rattle.md_forcing.specs.Forcing.{arc, IsArc, ForceAtTail, ForceAtHead, ForcesDirectly};
ghost use Rattle.md_forcing.specs.Sides.{adjacent_on};
ghost use Rattle.md_forcing.specs.ArcSet.{HasArc};

use crate::Arc;
use md_graph::{GraphOf, Memory, NAMES, Set, WORDS, empty_rows, insert_in_rows};
use std::alloc::Global;
use std::marker::Model;

/// Which pairs of vertices are adjacent: those with an edge, or, in the complement, those without.
#[derive(Clone, Copy, Debug, PartialEq, Eq)]
pub enum Side {
    Edges,
    NonEdges,
}

/// A set of arcs on the names below some number, which is at most `64 * W`, as the heads of the
/// arcs with each tail, and the tails of those with each head.
#[derive(Drop)]
pub struct ArcSetOf<const W: usize> {
    by_tail: Vec<Set<W>>,
    by_head: Vec<Set<W>>,
}

/// A set of arcs on names.
pub type ArcSet = ArcSetOf<WORDS>;

impl<const W: usize> Model for ArcSetOf<W> {
    ghost use Rattle.std.specs.Prelude.{List};
    ghost use Rattle.md_graph.specs.Sets.{NameSet};

    ghost Value = { List NameSet };

    ghost use Rattle.std.specs.FinSet as set;
    ghost use Rattle.std.specs.Coded.{coded_list, coded_ℕ};

    ghost coded = { coded_list (set.code coded_ℕ) };

    ghost use Rattle.std.specs.Prelude.{◌*◌};
    ghost use Rattle.md_forcing.specs.ArcSet.{AreTransposed};

    ghost view = { λ s. s.by_tail.items };

    ghost invariant = { λ s. AreTransposed (64 * W) s.by_tail.items s.by_head.items };
}

impl<const W: usize> ArcSetOf<W> {
    /// No arc, with room for the arcs on the names below `size`. Conditions: `size` is at most
    /// `64 * W`, and `W` at most `WORDS`. Errors: want of memory.
    // Never inlined, so that the set stays in memory, and a walk has the registers to itself.
    #[inline(never)]
    pub fn with_size(alloc: Global, size: u32) -> Result<ArcSetOf<W>, Memory>
        requires size { size ≤ 64 * W }
        requires limit { W ≤ WORDS }
        ensures room { IfOk result (λ s. length s ≡ size) }
        ensures none { IfOk result (λ s. (v : ℕ) → row_of s v ≡ set.empty) }
    {
        Ok(ArcSetOf {
            by_tail: empty_rows(alloc, size)?,
            by_head: empty_rows(alloc, size)?,
        })
    }

    /// Whether the arc is in the set. Condition: its tail has room; its head may be any number.
    pub fn has(&self, by: Arc) -> bool
        requires { by.tail < length self.now }
        ensures { result ≡ set.contains (row_of self.now by.tail) by.head }
    {
        self.by_tail[by.tail as usize].has(by.head)
    }

    /// The heads of the arcs from `tail`. Condition: it has room.
    pub fn heads(&self, tail: u32) -> &Set<W>
        requires { tail < length self.now }
        ensures { result.now ≡ row_of self.now tail }
    {
        &self.by_tail[tail as usize]
    }

    /// The tails of the arcs to `head`. Condition: it has room.
    pub fn tails(&self, head: u32) -> &Set<W>
        requires { head < length self.now }
        ensures { (u : ℕ) → set.contains result.now u ≡ set.contains (row_of self.now u) head }
    {
        &self.by_head[head as usize]
    }

    /// The number below which the ends of arcs are: a name has room where it is below it.
    pub fn size(&self) -> u32
        ensures size { result ≡ length self.now }
        ensures few { result ≤ NAMES }
        ensures within { result ≤ 64 * W }
        ensures limit { W ≤ WORDS }
    {
        self.by_tail.len() as u32
    }

    /// Takes in one arc. Condition: both ends have room.
    pub fn put(&mut self, by: Arc)
        requires tail { by.tail < length self.old }
        requires head { by.head < length self.old }
        ensures room { length self.new ≡ length self.old }
        ensures taken { (a : Arc) → HasArc self.new a ↔ (HasArc self.old a ⊎ (a ≡ by)) }
    {
        self.by_tail[by.tail as usize].insert(by.head);
        self.by_head[by.head as usize].insert(by.tail);
    }

    // Takes in the arcs from `tail` to each of `heads`. Condition: all these ends have room.
    pub(crate) fn take_heads(&mut self, tail: u32, heads: &Set<W>)
        requires room { tail < length self.old }
        requires heads_room { (w : ℕ) → Has heads.now w → w < length self.old }
        ensures room { length self.new ≡ length self.old }
        ensures taken { (a : Arc) → HasArc self.new a
            ↔ (HasArc self.old a ⊎ ((a.tail ≡ tail) × Has heads.now a.head)) }
    {
        self.by_tail[tail as usize].union_with(heads);
        insert_in_rows(&mut self.by_head, heads, tail);
    }

    // Takes in the arcs from each of `tails` to `head`. Condition: all these ends have room.
    pub(crate) fn take_tails(&mut self, tails: &Set<W>, head: u32)
        requires room { head < length self.old }
        requires tails_room { (w : ℕ) → Has tails.now w → w < length self.old }
        ensures room { length self.new ≡ length self.old }
        ensures taken { (a : Arc) → HasArc self.new a
            ↔ (HasArc self.old a ⊎ ((a.head ≡ head) × Has tails.now a.tail)) }
    {
        self.by_head[head as usize].union_with(tails);
        insert_in_rows(&mut self.by_tail, tails, head);
    }

    // Puts into `into` the heads of the arcs that `by` forces directly at its tail and that aren't
    // in the set. Condition: `by` is an arc of this side, and in the set.
    pub(crate) fn unseen_heads(&self, graph: &GraphOf<W>, side: Side, by: Arc, into: &mut Set<W>)
        requires is_arc { IsArc (adjacent_on side graph.now) by }
        requires seen { HasArc self.now by }
        ensures { (w : ℕ) → Has into.new w ↔ (IsArc (adjacent_on side graph.now) (arc by.tail w)
            × ForceAtTail (adjacent_on side graph.now) by (arc by.tail w)
            × (HasArc self.now (arc by.tail w) → ⊥)) }
    {
        apart(graph, side, by.tail, by.head, self.heads(by.tail), into);
    }

    // Puts into `into` the tails of the arcs that `by` forces directly at its head and that aren't
    // in the set. Condition: `by` is an arc of this side, and in the set.
    pub(crate) fn unseen_tails(&self, graph: &GraphOf<W>, side: Side, by: Arc, into: &mut Set<W>)
        requires is_arc { IsArc (adjacent_on side graph.now) by }
        requires seen { HasArc self.now by }
        ensures { (w : ℕ) → Has into.new w ↔ (IsArc (adjacent_on side graph.now) (arc w by.head)
            × ForceAtHead (adjacent_on side graph.now) by (arc w by.head)
            × (HasArc self.now (arc w by.head) → ⊥)) }
    {
        let _rows = &self.by_head;
        apart(graph, side, by.head, by.tail, self.tails(by.head), into);
    }

    // Whether the set has all arcs that `by` forces directly. Condition: `by` is an arc of this
    // side, and in the set.
    pub(crate) fn has_forced_by(&self, graph: &GraphOf<W>, side: Side, by: Arc) -> bool
        requires is_arc { IsArc (adjacent_on side graph.now) by }
        requires seen { HasArc self.now by }
        ensures { result ≡ true → (b : Arc) → IsArc (adjacent_on side graph.now) b
            → ForcesDirectly (adjacent_on side graph.now) by b → HasArc self.now b }
    {
        let _vertices = graph.vertices();
        let _rows = &self.by_head;
        let near = graph.neighbours(by.tail);
        let far = graph.neighbours(by.head);
        let heads = self.heads(by.tail);
        let tails = self.tails(by.head);
        match side {
            Side::Edges => near.is_apart_as_known(heads, far, tails),
            Side::NonEdges => far.is_apart_as_known(heads, near, tails),
        }
    }
}

// Puts into `into` the names outside `known` that, on this side, `here` is adjacent to and `there`
// isn't. Conditions: `here` and `there` are adjacent, and `there` is known.
fn apart<const W: usize>(
    graph: &GraphOf<W>,
    side: Side,
    here: u32,
    there: u32,
    known: &Set<W>,
    into: &mut Set<W>,
)
    requires adjacent { adjacent_on side graph.now here there ≡ true }
    requires known { Has known.now there }
    ensures { (w : ℕ) → Has into.new w ↔ ((adjacent_on side graph.now here w ≡ true)
        × (adjacent_on side graph.now there w ≡ false) × (set.contains known.now w ≡ false)) }
{
    let _vertices = graph.vertices();
    let near = graph.neighbours(here);
    let far = graph.neighbours(there);
    match side {
        Side::Edges => into.set_to_difference(near, far, known),
        Side::NonEdges => into.set_to_difference(far, near, known),
    }
}
