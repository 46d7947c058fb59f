//! The search for the names that no smaller module of a directed graph holds with one. It keeps
//! what it hasn't taken yet and what it took and hasn't looked at, and needs no memory: a fixed
//! number of operations on rows for each name that it takes.
ghost use Rattle.std.specs.Prelude.{◌≡◌, ◌*◌, ◌≢◌, ℕ, ◌<◌, ◌↔◌};
ghost use Rattle.std.specs.FinSet.{union, difference};
ghost use Rattle.md_graph.specs.Sets.{Has, Lacks, Within};
ghost use Rattle.md_modules.specs.Modules.{IsModule, IsLeastModule};
ghost use Rattle.md_digraph.specs.PlainDigraph.{has_arc_to};
ghost use Rattle.md_digraph.specs.ArcColours.{between};
ghost use Rattle.md_digraph.specs.ArcsSeen.{valued, told_from};

use crate::DigraphOf;
use crate::shared::next;
use md_graph::Set;

/// Puts into `into` the names of `within` other than `v` that no module of the directed graph on
/// `within` holds with `v` but `within` itself; the rest of `within` is a module that holds `v`.
/// Condition: `within` is a set of vertices, `v` and `j` are different members, and the least
/// module that holds both is `within`.
pub fn directed_back<const W: usize>(
    graph: &DigraphOf<W>,
    within: &Set<W>,
    v: u32,
    j: u32,
    into: &mut Set<W>,
)
    requires inside { Within within.now graph.now.vertices }
    requires differ { v ≢ j }
    requires whole { IsLeastModule (between (has_arc_to graph.now)) within.now v j within.now }
    ensures names { (i : ℕ) → Has into.new i
        ↔ (Has within.now i × (i ≢ v)
        × IsLeastModule (between (has_arc_to graph.now)) within.now v i within.now) }
    ensures rest { IsModule (between (has_arc_to graph.now)) within.now
        (difference within.now into.new) }
    ensures fixed { Has (difference within.now into.new) v }
{
    not_back(graph, within, v, j, into);
    into.symmetric_difference_with(within);
}

// Puts into `left` the names of `within` that a module smaller than `within` holds with `v`, and
// `v`.
fn not_back<const W: usize>(
    graph: &DigraphOf<W>,
    within: &Set<W>,
    v: u32,
    j: u32,
    left: &mut Set<W>,
)
    requires inside { Within within.now graph.now.vertices }
    requires differ { v ≢ j }
    requires whole { IsLeastModule (between (has_arc_to graph.now)) within.now v j within.now }
    ensures part { Within left.new within.now }
    ensures names { (i : ℕ) → Has within.now i → Lacks left.new i
        ↔ ((i ≢ v) × IsLeastModule (between (has_arc_to graph.now)) within.now v i within.now) }
    ensures rest { IsModule (between (has_arc_to graph.now)) within.now left.new }
    ensures fixed { Has left.new v }
{
    let _vertices = graph.vertices();
    left.clear();
    left.union_with(within);
    left.remove(j);
    // Without `v`, so that the search ends where nothing else is left.
    left.remove(v);
    let mut todo = Set::none();
    todo.insert(j);
    let mut from_end = false;
    while let Some(b) = next(left, &todo, from_end) {
        todo.remove(b);
        move_told(graph, b, v, left, &mut todo);
        from_end = !from_end;
    }
    left.insert(v);
}

// Moves the members of `left` with which `b` has other arcs than with `v` to `todo`.
fn move_told<const W: usize>(
    graph: &DigraphOf<W>,
    b: u32,
    v: u32,
    left: &mut Set<W>,
    todo: &mut Set<W>,
)
    requires { Has graph.now.vertices b }
    ensures left { left.new ≡ difference left.old (told_from graph.now b v left.old) }
    ensures todo { todo.new ≡ union todo.old (told_from graph.now b v left.old) }
{
    move_valued(graph.successors(b), !graph.has_arc(b, v), left, todo);
    move_valued(graph.predecessors(b), !graph.has_arc(v, b), left, todo);
}

// Moves the members of `left` that `row` has (`value` is true), or that it lacks (`value` is
// false), to `todo`.
fn move_valued<const W: usize>(row: &Set<W>, value: bool, left: &mut Set<W>, todo: &mut Set<W>)
    ensures left { left.new ≡ difference left.old (valued row.now value left.old) }
    ensures todo { todo.new ≡ union todo.old (valued row.now value left.old) }
{
    if value {
        left.move_shared(row, todo);
    } else {
        left.move_unshared(row, todo);
    }
}
