//! Directed graphs without loops and parallel arcs.
ghost use Rattle.std.specs.Prelude.{◌≡◌, ℕ, ◌*◌, ◌<◌, ◌≤◌, ◌≢◌, false, IfOk, length, vec_len, vec_capacity, if◌then◌else◌};
ghost use Rattle.std.specs.FinSet as set;
ghost use Rattle.md_graph.specs.Sets.{Has, Lacks};
ghost use Rattle.md_graph.specs.NameSet.{AllBelow};
ghost use Rattle.md_graph.specs.Rows.{row_of};
ghost use Rattle.md_digraph.specs.PlainDigraph.{has_arc_to, successors, predecessors, IsDigraph, empty_digraph, digraph_with_vertex, with_arc};

use crate::{DIRECTED_NAMES, DIRECTED_WORDS};
use md_graph::{Memory, Set};
use std::alloc::Global;
use std::marker::Model;

/// A directed graph on names below `64 * W`: each of these names has two rows, the set of its
/// successors and that of its predecessors, which are empty for a name that is no vertex. Room for
/// all rows is taken when the graph is made; the rows themselves are made when a vertex comes, so
/// that what no vertex has reached costs nothing. Its value is a plain directed graph whatever `W`,
/// which is at most `DIRECTED_WORDS`.
#[derive(Drop)]
pub struct DigraphOf<const W: usize> {
    live: Set<W>,
    // The rows of the names below some bound that no vertex has reached: the successors.
    out: Vec<Set<W>>,
    // As many rows of predecessors.
    into: Vec<Set<W>>,
}

/// A directed graph on names.
pub type Digraph = DigraphOf<DIRECTED_WORDS>;

impl<const W: usize> Model for DigraphOf<W> {
    ghost use Rattle.md_digraph.specs.PlainDigraph.{PlainDigraph, digraph_code};

    ghost Value = { PlainDigraph };

    ghost coded = { digraph_code };

    ghost use Rattle.std.specs.Prelude.{vec_len, vec_capacity};
    ghost use Rattle.md_digraph.specs.ArcRows.{digraph_of, AreArcRows, HasRoomForArcs};

    ghost view = { λ g. digraph_of g.live g.out.items };

    ghost invariant = { λ g. AreArcRows (vec_len g.out) g.live g.out.items g.into.items
        × HasRoomForArcs W (vec_len g.out) (vec_capacity g.out) (vec_capacity g.into) };
}

impl<const W: usize> DigraphOf<W> {
    /// The directed graph without vertices. Condition: `W` is at most `DIRECTED_WORDS`. Errors:
    /// want of memory.
    pub fn new(alloc: Global) -> Result<DigraphOf<W>, Memory>
        requires { W ≤ DIRECTED_WORDS }
        ensures made { IfOk result (λ g. g ≡ empty_digraph) }
    {
        Ok(DigraphOf {
            live: Set::none(),
            out: Vec::with_capacity(alloc, 64 * W)?,
            into: Vec::with_capacity(alloc, 64 * W)?,
        })
    }

    /// Whether `v`, any number, is a vertex.
    pub fn has_vertex(&self, v: u32) -> bool
        ensures value { result ≡ set.contains self.now.vertices v }
    {
        self.live.has(v)
    }

    /// Whether an arc runs from `u` to `v`, any numbers.
    pub fn has_arc(&self, u: u32, v: u32) -> bool
        ensures value { result ≡ has_arc_to self.now u v }
    {
        let row = u as usize;
        row < self.out.len() && self.out[row].has(v)
    }

    /// The number of vertices.
    pub fn count(&self) -> u32
        ensures value { result ≡ set.len self.now.vertices }
    {
        self.live.count()
    }

    /// The vertices.
    pub fn vertices(&self) -> &Set<W>
        ensures set { result.now ≡ self.now.vertices }
        ensures digraph { IsDigraph self.now }
        ensures below { AllBelow self.now.vertices (64 * W) }
        ensures limit { W ≤ DIRECTED_WORDS }
    {
        &self.live
    }

    /// The vertices that the arcs from `v` enter. Condition: it is a vertex.
    pub fn successors(&self, v: u32) -> &Set<W>
        requires { Has self.now.vertices v }
        ensures set { result.now ≡ successors self.now v }
        ensures digraph { IsDigraph self.now }
    {
        &self.out[v as usize]
    }

    /// The vertices that the arcs to `v` leave. Condition: it is a vertex.
    pub fn predecessors(&self, v: u32) -> &Set<W>
        requires { Has self.now.vertices v }
        ensures set { result.now ≡ predecessors self.now v }
        ensures digraph { IsDigraph self.now }
    {
        &self.into[v as usize]
    }

    /// Takes in the vertex `v`, without arcs. Condition: it is a name below `64 * W` and no vertex
    /// yet.
    pub fn add_vertex(&mut self, v: u32)
        requires name { v < 64 * W }
        requires absent { Lacks self.old.vertices v }
        ensures changed { self.new ≡ digraph_with_vertex self.old v }
    {
        grow_rows(&mut self.out, &mut self.into, v as usize + 1);
        self.live.insert(v);
    }

    /// Takes in the arc from `u` to `v`. Condition: both are vertices and differ, and the arc is
    /// absent.
    pub fn add_arc(&mut self, u: u32, v: u32)
        requires tail { Has self.old.vertices u }
        requires head { Has self.old.vertices v }
        requires differ { u ≢ v }
        requires absent { has_arc_to self.old u v ≡ false }
        ensures changed { self.new ≡ with_arc self.old u v }
    {
        self.out[u as usize].insert(v);
        self.into[v as usize].insert(u);
    }

    /// All vertices and arcs go. It passes over the rows of the vertices alone.
    pub fn clear(&mut self)
        ensures changed { self.new ≡ empty_digraph }
    {
        clear_rows(&mut self.out, &mut self.into, &self.live);
        self.live.clear();
    }
}

// Makes the rows of all names below `size`. Condition: there is room for them.
#[inline]
fn grow_rows<const W: usize>(out: &mut Vec<Set<W>>, into: &mut Vec<Set<W>>, size: usize)
    requires limit { W ≤ DIRECTED_WORDS }
    requires alike { vec_len into.old ≡ vec_len out.old }
    requires out_room { size ≤ vec_capacity out.old }
    requires into_room { size ≤ vec_capacity into.old }
    ensures out_same { (v : ℕ) → row_of out.new.items v ≡ row_of out.old.items v }
    ensures into_same { (v : ℕ) → row_of into.new.items v ≡ row_of into.old.items v }
    ensures alike { vec_len into.new ≡ vec_len out.new }
    ensures enough { size ≤ vec_len out.new }
    ensures more { vec_len out.old ≤ vec_len out.new }
    ensures few { (most : ℕ) → vec_len out.old ≤ most → size ≤ most → vec_len out.new ≤ most }
    ensures out_capacity { vec_capacity out.new ≡ vec_capacity out.old }
    ensures into_capacity { vec_capacity into.new ≡ vec_capacity into.old }
{
    for _ in out.len()..size {
        out.push_reserved(Set::none());
        into.push_reserved(Set::none());
    }
}

// All members of both rows of each member of `names` go.
fn clear_rows<const W: usize>(out: &mut [Set<W>], into: &mut [Set<W>], names: &Set<W>)
    requires out_rows { (u : ℕ) → Has names.now u → u < length out.old }
    requires into_rows { (u : ℕ) → Has names.now u → u < length into.old }
    ensures out { (u : ℕ) → row_of out.new u
        ≡ (if set.contains names.now u then set.empty else row_of out.old u) }
    ensures into { (u : ℕ) → row_of into.new u
        ≡ (if set.contains names.now u then set.empty else row_of into.old u) }
{
    names.within_limit();
    for u in names.members() {
        out[u as usize].clear();
        into[u as usize].clear();
    }
}
