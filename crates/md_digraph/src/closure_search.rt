//! The search for the least module of a directed graph that holds a set. It keeps what it hasn't
//! taken yet and what it took and hasn't looked at, and needs no memory: a fixed number of
//! operations on rows for each name that it takes, twice those of an undirected graph.
ghost use Rattle.std.specs.Prelude.{◌≡◌, ◌*◌, ℕ, ◌<◌};
ghost use Rattle.std.specs.FinSet.{union, difference};
ghost use Rattle.md_graph.specs.Sets.{Has, Lacks, Within};
ghost use Rattle.md_modules.specs.Modules.{IsLeastModule, IsLeastModuleOver};
ghost use Rattle.md_digraph.specs.PlainDigraph.{has_arc_to};
ghost use Rattle.md_digraph.specs.ArcColours.{between};
ghost use Rattle.md_digraph.specs.ArcsSeen.{told_apart};

use crate::DigraphOf;
use crate::shared::next;
use md_graph::Set;

/// Puts into `into` the least module of the directed graph that holds `u` and `v`: `u` alone where
/// they are equal. Condition: both are vertices.
pub fn directed_closure<const W: usize>(graph: &DigraphOf<W>, u: u32, v: u32, into: &mut Set<W>)
    requires first { Has graph.now.vertices u }
    requires second { Has graph.now.vertices v }
    ensures least { IsLeastModule (between (has_arc_to graph.now)) graph.now.vertices u v into.new }
{
    directed_closure_in(graph, graph.vertices(), u, v, into);
}

/// Puts into `into` the least module of the directed graph on `within` that holds `u` and `v`: `u`
/// alone where they are equal. Condition: `within` is a set of vertices, and both are members.
pub fn directed_closure_in<const W: usize>(
    graph: &DigraphOf<W>,
    within: &Set<W>,
    u: u32,
    v: u32,
    into: &mut Set<W>,
)
    requires inside { Within within.now graph.now.vertices }
    requires first { Has within.now u }
    requires second { Has within.now v }
    ensures least { IsLeastModule (between (has_arc_to graph.now)) within.now u v into.new }
{
    let _vertices = graph.vertices();
    into.clear();
    into.insert(u);
    if u == v {
        return;
    }
    into.insert(v);
    let mut todo = Set::none();
    todo.insert(v);
    directed_grow(graph, within, u, into, todo);
}

/// Grows `into` to the least module of the directed graph on `within` that holds it. Condition:
/// `within` is a set of vertices, `into` a part of it that holds `v`, and `todo` a part of `into`;
/// each member of `into` outside `todo` has with each name of `within` outside `into` the arcs that
/// `v` has with it.
pub fn directed_grow<const W: usize>(
    graph: &DigraphOf<W>,
    within: &Set<W>,
    v: u32,
    into: &mut Set<W>,
    todo: Set<W>,
)
    requires inside { Within within.now graph.now.vertices }
    requires part { Within into.old within.now }
    requires fixed { Has into.old v }
    requires among { Within todo into.old }
    requires seen { (w : ℕ) → Has into.old w → Lacks todo w
        → (y : ℕ) → Has within.now y → Lacks into.old y
        → between (has_arc_to graph.now) v y ≡ between (has_arc_to graph.now) w y }
    ensures least { IsLeastModuleOver (between (has_arc_to graph.now)) within.now into.old
        into.new }
{
    not_grown(graph, within, v, into, todo);
    into.symmetric_difference_with(within);
}

// Puts into `left`, in place of its members, what the least module that holds them leaves of
// `within`.
fn not_grown<const W: usize>(
    graph: &DigraphOf<W>,
    within: &Set<W>,
    v: u32,
    left: &mut Set<W>,
    mut todo: Set<W>,
)
    requires inside { Within within.now graph.now.vertices }
    requires part { Within left.old within.now }
    requires fixed { Has left.old v }
    requires among { Within todo left.old }
    requires seen { (w : ℕ) → Has left.old w → Lacks todo w
        → (y : ℕ) → Has within.now y → Lacks left.old y
        → between (has_arc_to graph.now) v y ≡ between (has_arc_to graph.now) w y }
    ensures part { Within left.new within.now }
    ensures grown { IsLeastModuleOver (between (has_arc_to graph.now)) within.now left.old
        (difference within.now left.new) }
{
    let _vertices = graph.vertices();
    left.symmetric_difference_with(within);
    let mut from_end = false;
    while let Some(w) = next(left, &todo, from_end) {
        todo.remove(w);
        move_apart(graph, v, w, left, &mut todo);
        from_end = !from_end;
    }
}

// Moves the members of `left` that `v` and `w` have different arcs with to `todo`.
fn move_apart<const W: usize>(
    graph: &DigraphOf<W>,
    v: u32,
    w: u32,
    left: &mut Set<W>,
    todo: &mut Set<W>,
)
    requires first { Has graph.now.vertices v }
    requires second { Has graph.now.vertices w }
    ensures left { left.new ≡ difference left.old (told_apart graph.now v w left.old) }
    ensures todo { todo.new ≡ union todo.old (told_apart graph.now v w left.old) }
{
    left.move_symmetric_difference(graph.successors(v), graph.successors(w), todo);
    left.move_symmetric_difference(graph.predecessors(v), graph.predecessors(w), todo);
}
