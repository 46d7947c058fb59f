//! Undirected graphs without loops and parallel edges.
ghost use Rattle.std.specs.Prelude.{◌≡◌, ℕ, ◌+◌, ◌*◌, ◌<◌, ◌≤◌, ◌≢◌, true, false, IfOk, IfSome, IfNone, length, vec_len, vec_capacity, if◌then◌else◌, ◌/◌, ◌%◌, ◌==◌, ◌&&◌, ◌||◌};
ghost use Rattle.std.specs.Int.{bit_at};
ghost use Rattle.std.specs.FinSet as set;
ghost use Rattle.md_graph.specs.Sets.{Has, Lacks};
ghost use Rattle.md_graph.specs.NameSet.{IsLeastFrom, NoneFrom, AllBelow};
ghost use Rattle.md_graph.specs.PlainGraph.{adjacent, neighbours, IsGraph, empty_graph, with_vertex, with_range, with_edge, with_edges, complement, induced, without_vertex, without_edge};
ghost use Rattle.md_graph.specs.Rows.{row_of};
ghost use Rattle.md_graph.specs.Blocks.{in_block, IsWithBlock};

use crate::transposition::transposed;
use crate::words::are_all_zero;
use crate::{Memory, NAMES, Set, WORDS};
use std::alloc::Global;
use std::marker::Model;

/// A graph on names below `64 * W`: each of these names has a row, the set of its neighbours, which
/// is empty for a name that is no vertex. Room for all rows is taken when the graph is made; the
/// rows themselves are made when a vertex comes, so that what no vertex has reached costs nothing.
/// Its value is a plain graph whatever `W`, which is at most `WORDS`.
#[derive(Drop)]
pub struct GraphOf<const W: usize> {
    live: Set<W>,
    // The rows of the names below some bound that no vertex has reached.
    rows: Vec<Set<W>>,
    // The row of each other name.
    none: Set<W>,
}

/// A graph on names.
pub type Graph = GraphOf<WORDS>;

impl<const W: usize> Model for GraphOf<W> {
    ghost use Rattle.md_graph.specs.PlainGraph.{PlainGraph, graph_code};

    ghost Value = { PlainGraph };

    ghost coded = { graph_code };

    ghost use Rattle.std.specs.Prelude.{◌*◌, vec_len, vec_capacity};
    ghost use Rattle.md_graph.specs.Rows.{graph_of, AreRows, HasRoom};

    ghost view = { λ g. graph_of g.live g.rows.items };

    ghost invariant = { λ g. AreRows (vec_len g.rows) g.live g.rows.items
        × HasRoom (64 * W) (vec_len g.rows) (vec_capacity g.rows) g.none };
}

impl<const W: usize> GraphOf<W> {
    /// The graph without vertices. Condition: `W` is at most `WORDS`. Errors: want of memory.
    pub fn new(alloc: Global) -> Result<GraphOf<W>, Memory>
        requires limit { W ≤ WORDS }
        ensures made { IfOk result (λ g. g ≡ empty_graph) }
    {
        Ok(GraphOf {
            live: Set::none(),
            rows: Vec::with_capacity(alloc, 64 * W)?,
            none: Set::none(),
        })
    }

    /// Whether `v`, any number, is a vertex.
    pub fn has_vertex(&self, v: u32) -> bool
        ensures value { result ≡ set.contains self.now.vertices v }
    {
        self.live.has(v)
    }

    /// Whether an edge runs between `u` and `v`, any numbers.
    pub fn has_edge(&self, u: u32, v: u32) -> bool
        ensures value { result ≡ adjacent self.now u v }
    {
        let row = u as usize;
        row < self.rows.len() && self.rows[row].has(v)
    }

    /// The number of neighbours of `v`. Condition: it is a vertex.
    pub fn degree(&self, v: u32) -> u32
        requires vertex { Has self.now.vertices v }
        ensures value { result ≡ set.len (neighbours self.now v) }
    {
        let row = &self.rows[v as usize];
        row.count()
    }

    /// The number of vertices.
    pub fn count(&self) -> u32
        ensures value { result ≡ set.len self.now.vertices }
    {
        self.live.count()
    }

    /// The number of edges.
    pub fn edge_count(&self) -> u32
        ensures value { result ≡ set.len self.now.edges }
    {
        let mut ends = 0;
        for v in self.live.members() {
            ends += self.rows[v as usize].count();
        }
        ends / 2
    }

    /// The vertices.
    pub fn vertices(&self) -> &Set<W>
        ensures set { result.now ≡ self.now.vertices }
        ensures graph { IsGraph self.now }
        ensures below { AllBelow self.now.vertices (64 * W) }
        ensures limit { W ≤ WORDS }
    {
        &self.live
    }

    /// The least number above all vertices: one more than the greatest, or 0 where there is none.
    pub fn bound(&self) -> u32
        ensures above { (v : ℕ) → Has self.now.vertices v → v < result }
        ensures least { (n : ℕ) → ((v : ℕ) → Has self.now.vertices v → v < n) → result ≤ n }
        ensures few { result ≤ NAMES }
        ensures within { result ≤ 64 * W }
    {
        match self.live.last() {
            Some(last) => last + 1,
            None => 0,
        }
    }

    /// The least vertex at or above `from`, any number; `None` exactly where there is none.
    pub fn next_vertex(&self, from: u32) -> Option<u32>
        ensures found { IfSome result (IsLeastFrom self.now.vertices from) }
        ensures none { IfNone result (NoneFrom self.now.vertices from) }
        ensures name { IfSome result (λ v. v < NAMES) }
        ensures below { IfSome result (λ v. v < 64 * W) }
    {
        self.live.first_from(from)
    }

    /// The neighbours of `v`. Condition: it is a vertex.
    pub fn neighbours(&self, v: u32) -> &Set<W>
        requires vertex { Has self.now.vertices v }
        ensures set { result.now ≡ neighbours self.now v }
        ensures graph { IsGraph self.now }
    {
        &self.rows[v as usize]
    }

    /// The neighbours of `v`: none for a name that is no vertex. Condition: `v` is a name below
    /// `64 * W`.
    pub fn row(&self, v: u32) -> &Set<W>
        requires name { v < 64 * W }
        ensures set { result.now ≡ neighbours self.now v }
        ensures graph { IsGraph self.now }
    {
        let at = v as usize;
        if self.rows.len() <= at {
            return &self.none;
        }
        &self.rows[at]
    }

    /// Takes in the vertex `v`, without edges. Condition: it is a name below `64 * W` and no vertex
    /// yet.
    pub fn add_vertex(&mut self, v: u32)
        requires name { v < 64 * W }
        requires absent { Lacks self.old.vertices v }
        ensures changed { self.new ≡ with_vertex self.old v }
    {
        grow_rows(&mut self.rows, v as usize + 1);
        self.live.insert(v);
    }

    /// Takes in the `count` vertices from `from` on, without edges. Condition: they are names below
    /// `64 * W`, and none is a vertex yet.
    pub fn add_range(&mut self, from: u32, count: u32)
        requires names { from + count ≤ 64 * W }
        requires absent { (v : ℕ) → from ≤ v → v < from + count → Lacks self.old.vertices v }
        ensures changed { self.new ≡ with_range self.old from count }
    {
        grow_rows(&mut self.rows, (from + count) as usize);
        self.live.insert_range(from, count);
    }

    /// Takes in the edge between `u` and `v`. Condition: both are vertices and differ, and the edge
    /// is absent.
    pub fn add_edge(&mut self, u: u32, v: u32)
        requires first { Has self.old.vertices u }
        requires second { Has self.old.vertices v }
        requires differ { u ≢ v }
        requires absent { adjacent self.old u v ≡ false }
        ensures changed { self.new ≡ with_edge self.old u v }
    {
        self.rows[u as usize].insert(v);
        self.rows[v as usize].insert(u);
    }

    /// Takes in the edges between `v` and each member of `others`. Condition: all are vertices, and
    /// `v` is no member. An edge that is there already stays.
    pub fn add_edges(&mut self, v: u32, others: &Set<W>)
        requires vertex { Has self.old.vertices v }
        requires vertices { (u : ℕ) → Has others.now u → Has self.old.vertices u }
        requires differ { Lacks others.now v }
        ensures changed { self.new ≡ with_edges self.old v others.now }
    {
        self.rows[v as usize].union_with(others);
        insert_in_rows(&mut self.rows, others, v);
    }

    /// Takes in 64 by 64 edges at once, for readers: one between `high + r` and `low + k` for each
    /// bit k of word r that is 1. Condition: `low` and `high` are names below `64 * W` and
    /// multiples of 64, and the ends of each such edge are vertices and differ. An edge that is
    /// there already stays.
    pub fn add_block(&mut self, low: u32, high: u32, block: &[u64; 64])
        requires low { low < 64 * W }
        requires low_aligned { low % 64 ≡ 0 }
        requires high { high < 64 * W }
        requires high_aligned { high % 64 ≡ 0 }
        requires ends { (u v : ℕ) → in_block block.now high low u v ≡ true
            → Has self.old.vertices u × Has self.old.vertices v × (u ≢ v) }
        ensures block { IsWithBlock self.old high low block.now self.new }
    {
        grow_rows(&mut self.rows, low.max(high) as usize + 64);
        join_block(&mut self.rows, low, high, block);
    }

    /// Leaves out the vertex `v` and the edges at it. Condition: it is a vertex.
    pub fn remove_vertex(&mut self, v: u32)
        requires vertex { Has self.old.vertices v }
        ensures changed { self.new ≡ without_vertex self.old v }
    {
        let others = self.rows[v as usize].copy();
        remove_from_rows(&mut self.rows, &others, v);
        self.rows[v as usize].clear();
        self.live.remove(v);
    }

    /// Leaves out the edge between `u` and `v`. Condition: it is there.
    pub fn remove_edge(&mut self, u: u32, v: u32)
        requires edge { adjacent self.old u v ≡ true }
        ensures changed { self.new ≡ without_edge self.old u v }
    {
        self.rows[u as usize].remove(v);
        self.rows[v as usize].remove(u);
    }

    /// All vertices and edges go. It passes over the rows of the vertices alone.
    pub fn clear(&mut self)
        ensures changed { self.new ≡ empty_graph }
    {
        clear_rows(&mut self.rows, &self.live);
        self.live.clear();
    }

    /// An equal graph. Errors: want of memory.
    pub fn copy(&self, alloc: Global) -> Result<GraphOf<W>, Memory>
        ensures made { IfOk result (λ g. g ≡ self.now) }
    {
        let live = &self.live;
        let mut rows = Vec::with_capacity(alloc, 64 * W)?;
        for v in 0..self.rows.len() {
            rows.push_reserved(self.rows[v].copy());
        }
        Ok(GraphOf {
            live: live.copy(),
            rows,
            none: self.none.copy(),
        })
    }

    /// The complement: the same vertices, and an edge between two of them where this graph has
    /// none. Errors: want of memory.
    pub fn complement(&self, alloc: Global) -> Result<GraphOf<W>, Memory>
        ensures made { IfOk result (λ g. g ≡ complement self.now) }
    {
        let live = &self.live;
        let mut rows = Vec::with_capacity(alloc, 64 * W)?;
        for v in 0..self.rows.len() as u32 {
            rows.push_reserved(self.complement_row(v));
        }
        Ok(GraphOf {
            live: live.copy(),
            rows,
            none: self.none.copy(),
        })
    }

    /// The graph that this graph induces on `names`: the vertices among them, and the edges between
    /// these. Errors: want of memory.
    pub fn induced(&self, alloc: Global, names: &Set<W>) -> Result<GraphOf<W>, Memory>
        ensures made { IfOk result (λ g. g ≡ induced self.now names.now) }
    {
        let live = &self.live;
        let mut rows = Vec::with_capacity(alloc, 64 * W)?;
        for v in 0..self.rows.len() as u32 {
            rows.push_reserved(self.induced_row(v, names));
        }
        Ok(GraphOf {
            live: live.and(names),
            rows,
            none: self.none.copy(),
        })
    }

    /// The neighbours of `v` in the complement: none for a name that is no vertex. Condition: `v`
    /// is a name below `64 * W`.
    pub fn complement_row(&self, v: u32) -> Set<W>
        requires name { v < 64 * W }
        ensures value { result ≡ neighbours (complement self.now) v }
    {
        if !self.live.has(v) {
            return self.none.copy();
        }
        let mut others = self.live.minus(&self.rows[v as usize]);
        others.remove(v);
        others
    }

    // The row of `v` in the graph that this graph induces on `names`.
    fn induced_row(&self, v: u32, names: &Set<W>) -> Set<W>
        requires { v < 64 * W }
        ensures { result ≡ neighbours (induced self.now names.now) v }
    {
        let row = self.row(v);
        if !names.has(v) {
            return self.none.copy();
        }
        row.and(names)
    }
}

// Makes the rows of all names below `size`. Condition: there is room for them.
#[inline]
fn grow_rows<const W: usize>(rows: &mut Vec<Set<W>>, size: usize)
    requires limit { W ≤ WORDS }
    requires room { size ≤ vec_capacity rows.old }
    ensures same { (v : ℕ) → row_of rows.new.items v ≡ row_of rows.old.items v }
    ensures enough { size ≤ vec_len rows.new }
    ensures more { vec_len rows.old ≤ vec_len rows.new }
    ensures few { (most : ℕ) → vec_len rows.old ≤ most → size ≤ most → vec_len rows.new ≤ most }
    ensures capacity { vec_capacity rows.new ≡ vec_capacity rows.old }
{
    for _ in rows.len()..size {
        rows.push_reserved(Set::none());
    }
}

// Takes a block into the rows of both ends of its edges.
fn join_block<const W: usize>(rows: &mut [Set<W>], low: u32, high: u32, block: &[u64; 64])
    requires limit { W ≤ WORDS }
    requires low { low < 64 * W }
    requires low_aligned { low % 64 ≡ 0 }
    requires low_rows { low + 64 ≤ length rows.old }
    requires high { high < 64 * W }
    requires high_aligned { high % 64 ≡ 0 }
    requires high_rows { high + 64 ≤ length rows.old }
    ensures { (u v : ℕ) → set.contains (row_of rows.new u) v ≡ (set.contains (row_of rows.old u) v
        || (in_block block.now high low u v || in_block block.now high low v u)) }
{
    if are_all_zero(block, 64) {
        return;
    }
    join_rows(rows, high, low, block);
    join_rows(rows, low, high, &transposed(block));
}

// Takes the names from `first` on whose bits are 1 in word r of the block into the row of `from +
// r`.
fn join_rows<const W: usize>(rows: &mut [Set<W>], from: u32, first: u32, block: &[u64; 64])
    requires limit { W ≤ WORDS }
    requires from_aligned { from % 64 ≡ 0 }
    requires from_rows { from + 64 ≤ length rows.old }
    requires first { first < 64 * W }
    requires first_aligned { first % 64 ≡ 0 }
    ensures { (u v : ℕ) → set.contains (row_of rows.new u) v
        ≡ (set.contains (row_of rows.old u) v || in_block block.now from first u v) }
{
    for r in 0..64 {
        join_row(rows, from as usize + r, first, block[r]);
    }
}

// Takes the names from `first` on whose bits are 1 into the row of `at`.
#[inline]
fn join_row<const W: usize>(rows: &mut [Set<W>], at: usize, first: u32, bits: u64)
    requires limit { W ≤ WORDS }
    requires inside { at < length rows.old }
    requires first { first < 64 * W }
    requires aligned { first % 64 ≡ 0 }
    ensures { (u v : ℕ) → set.contains (row_of rows.new u) v ≡ (set.contains (row_of rows.old u) v
        || ((u == at) && ((v / 64 == first / 64) && (bit_at bits (v % 64) == 1)))) }
{
    if bits == 0 {
        return;
    }
    rows[at].insert_block(first, bits);
}

/// As many rows without members. Condition: `W` is at most `WORDS`. Errors: want of memory.
pub fn empty_rows<const W: usize>(alloc: Global, size: u32) -> Result<Vec<Set<W>>, Memory>
    requires limit { W ≤ WORDS }
    ensures size { IfOk result (λ rows. length rows.items ≡ size) }
    ensures none { IfOk result (λ rows. (v : ℕ) → row_of rows.items v ≡ set.empty) }
{
    let mut rows = Vec::with_capacity(alloc, size as usize)?;
    for _ in 0..size {
        rows.push(Set::none())?;
    }
    Ok(rows)
}

/// Takes `v` into the row of each member of `names`. Conditions: `v` is a name below `64 * W`, and
/// the members have rows.
pub fn insert_in_rows<const W: usize>(rows: &mut [Set<W>], names: &Set<W>, v: u32)
    requires name { v < 64 * W }
    requires in_rows { (u : ℕ) → Has names.now u → u < length rows.old }
    ensures rows { (u : ℕ) → row_of rows.new u
        ≡ (if set.contains names.now u
        then set.insert (row_of rows.old u) v
        else row_of rows.old u) }
{
    names.within_limit();
    for u in names.members() {
        rows[u as usize].insert(v);
    }
}

// Leaves `v` out of the row of each member of `names`.
fn remove_from_rows<const W: usize>(rows: &mut [Set<W>], names: &Set<W>, v: u32)
    requires name { v < 64 * W }
    requires in_rows { (u : ℕ) → Has names.now u → u < length rows.old }
    ensures { (u : ℕ) → row_of rows.new u
        ≡ (if set.contains names.now u
        then set.remove (row_of rows.old u) v
        else row_of rows.old u) }
{
    names.within_limit();
    for u in names.members() {
        rows[u as usize].remove(v);
    }
}

// All members of the row of each member of `names` go.
fn clear_rows<const W: usize>(rows: &mut [Set<W>], names: &Set<W>)
    requires { (u : ℕ) → Has names.now u → u < length rows.old }
    ensures { (u : ℕ) → row_of rows.new u
        ≡ (if set.contains names.now u then set.empty else row_of rows.old u) }
{
    names.within_limit();
    for u in names.members() {
        rows[u as usize].clear();
    }
}
