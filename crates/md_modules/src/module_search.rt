//! The search for the least module that holds a set, and for the names that no smaller module holds
//! with one. It keeps what it hasn't taken yet and what it took and hasn't looked at, and needs no
//! memory: a fixed number of operations on rows for each name that it takes.
ghost use Rattle.std.specs.Prelude.{◌≡◌, ◌*◌, ◌≢◌, ℕ, ◌<◌, ◌↔◌, IsTrue, true, false};
ghost use Rattle.std.specs.FinSet.{difference};
ghost use Rattle.md_graph.specs.PlainGraph.{adjacent};
ghost use Rattle.md_graph.specs.Sets.{Has, Lacks, Within};
ghost use Rattle.md_modules.specs.Modules.{IsModule, IsLeastModule, IsLeastModuleOver};

use crate::shared::{move_seen, next};
use md_graph::{GraphOf, NAMES, Set};

/// Whether `names` is a module of the graph: a nonempty set of vertices, to all of which or to none
/// of which each other vertex is adjacent. It is false for the empty set, and for a set with a name
/// that is no vertex.
pub fn is_module<const W: usize>(graph: &GraphOf<W>, names: &Set<W>) -> bool
    ensures exactly { IsTrue result ↔ IsModule (adjacent graph.now) graph.now.vertices names.now }
{
    let vertices = graph.vertices();
    let Some(v) = names.first_from(0) else {
        return false;
    };
    if !names.is_subset(vertices) {
        return false;
    }
    are_alike(graph, v, names, &vertices.minus(names))
}

/// Puts into `into` the least module of the graph that holds `u` and `v`: `u` alone where they are
/// equal. Condition: both are vertices.
pub fn closure<const W: usize>(graph: &GraphOf<W>, u: u32, v: u32, into: &mut Set<W>)
    requires first { Has graph.now.vertices u }
    requires second { Has graph.now.vertices v }
    ensures least { IsLeastModule (adjacent graph.now) graph.now.vertices u v into.new }
{
    closure_in(graph, graph.vertices(), u, v, into);
}

/// Puts into `into` the least module of the graph on `within` that holds `u` and `v`: `u` alone
/// where they are equal. Condition: `within` is a set of vertices, and both are members.
pub fn closure_in<const W: usize>(
    graph: &GraphOf<W>,
    within: &Set<W>,
    u: u32,
    v: u32,
    into: &mut Set<W>,
)
    requires inside { Within within.now graph.now.vertices }
    requires first { Has within.now u }
    requires second { Has within.now v }
    ensures least { IsLeastModule (adjacent graph.now) within.now u v into.new }
{
    let _vertices = graph.vertices();
    into.clear();
    into.insert(u);
    if u == v {
        return;
    }
    into.insert(v);
    let mut todo = Set::none();
    todo.insert(v);
    grow(graph, within, u, into, todo);
}

/// Grows `into` to the least module of the graph on `within` that holds it. Condition: `within` is
/// a set of vertices, `into` a part of it that holds `v`, and `todo` a part of `into`; for each
/// member of `into` outside `todo`, each name of `within` outside `into` is adjacent to both that
/// member and `v` or to neither.
pub fn grow<const W: usize>(
    graph: &GraphOf<W>,
    within: &Set<W>,
    v: u32,
    into: &mut Set<W>,
    todo: Set<W>,
)
    requires inside { Within within.now graph.now.vertices }
    requires part { Within into.old within.now }
    requires fixed { Has into.old v }
    requires among { Within todo into.old }
    requires seen { (w : ℕ) → Has into.old w → Lacks todo w
        → (y : ℕ) → Has within.now y → Lacks into.old y
        → adjacent graph.now v y ≡ adjacent graph.now w y }
    ensures least { IsLeastModuleOver (adjacent graph.now) within.now into.old into.new }
{
    not_grown(graph, within, v, into, todo);
    into.symmetric_difference_with(within);
}

/// Puts into `into` the names of `within` other than `v` that no module holds with `v` but `within`
/// itself; the rest of `within` is a module that holds `v`. Condition: `within` is a set of
/// vertices, `v` and `j` are different members, and the least module of the graph on `within` that
/// holds both is `within`.
pub fn back<const W: usize>(graph: &GraphOf<W>, within: &Set<W>, v: u32, j: u32, into: &mut Set<W>)
    requires inside { Within within.now graph.now.vertices }
    requires differ { v ≢ j }
    requires whole { IsLeastModule (adjacent graph.now) within.now v j within.now }
    ensures names { (i : ℕ) → Has into.new i
        ↔ (Has within.now i × (i ≢ v)
        × IsLeastModule (adjacent graph.now) within.now v i within.now) }
    ensures rest { IsModule (adjacent graph.now) within.now (difference within.now into.new) }
    ensures fixed { Has (difference within.now into.new) v }
{
    not_back(graph, within, v, j, into);
    into.symmetric_difference_with(within);
}

// Whether each of `others` is adjacent to `v` and to all of `names`, or to none of these.
fn are_alike<const W: usize>(graph: &GraphOf<W>, v: u32, names: &Set<W>, others: &Set<W>) -> bool
    requires { v < 64 * W }
    ensures { IsTrue result ↔ ((w : ℕ) → Has names.now w → (y : ℕ) → Has others.now y
        → adjacent graph.now v y ≡ adjacent graph.now w y) }
{
    for w in names.members() {
        if !see_alike(graph, v, w, others) {
            return false;
        }
    }
    true
}

// Whether each of `others` is adjacent to both `v` and `w` or to neither.
fn see_alike<const W: usize>(graph: &GraphOf<W>, v: u32, w: u32, others: &Set<W>) -> bool
    requires left { v < 64 * W }
    requires right { w < 64 * W }
    ensures { IsTrue result ↔ ((y : ℕ) → Has others.now y
        → adjacent graph.now v y ≡ adjacent graph.now w y) }
{
    others
        .first_in_symmetric_difference(graph.row(v), graph.row(w))
        .is_none()
}

// Puts into `left`, in place of its members, what the least module that holds them leaves of
// `within`.
fn not_grown<const W: usize>(
    graph: &GraphOf<W>,
    within: &Set<W>,
    v: u32,
    left: &mut Set<W>,
    mut todo: Set<W>,
)
    requires inside { Within within.now graph.now.vertices }
    requires part { Within left.old within.now }
    requires fixed { Has left.old v }
    requires among { Within todo left.old }
    requires seen { (w : ℕ) → Has left.old w → Lacks todo w
        → (y : ℕ) → Has within.now y → Lacks left.old y
        → adjacent graph.now v y ≡ adjacent graph.now w y }
    ensures part { Within left.new within.now }
    ensures grown { IsLeastModuleOver (adjacent graph.now) within.now left.old
        (difference within.now left.new) }
{
    let _vertices = graph.vertices();
    left.symmetric_difference_with(within);
    let mut from_end = false;
    while let Some(w) = next(left, &todo, from_end) {
        todo.remove(w);
        left.move_symmetric_difference(graph.neighbours(v), graph.neighbours(w), &mut todo);
        from_end = !from_end;
    }
}

// Puts into `left` the names of `within` that a module smaller than `within` holds with `v`, and
// `v`.
fn not_back<const W: usize>(graph: &GraphOf<W>, within: &Set<W>, v: u32, j: u32, left: &mut Set<W>)
    requires inside { Within within.now graph.now.vertices }
    requires differ { v ≢ j }
    requires whole { IsLeastModule (adjacent graph.now) within.now v j within.now }
    ensures part { Within left.new within.now }
    ensures names { (i : ℕ) → Has within.now i → Lacks left.new i
        ↔ ((i ≢ v) × IsLeastModule (adjacent graph.now) within.now v i within.now) }
    ensures rest { IsModule (adjacent graph.now) within.now left.new }
    ensures fixed { Has left.new v }
{
    let _vertices = graph.vertices();
    left.clear();
    left.union_with(within);
    left.remove(j);
    // Without `v`, so that the search ends where nothing else is left.
    left.remove(v);
    let mut todo = Set::none();
    todo.insert(j);
    let mut from_end = false;
    while let Some(b) = next(left, &todo, from_end) {
        todo.remove(b);
        move_seen(graph, b, !graph.has_edge(b, v), left, &mut todo);
        from_end = !from_end;
    }
    left.insert(v);
}
