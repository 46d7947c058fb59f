//! The search for a component of a directed graph: by some arc between two names, where the parts
//! of a parallel set are sought, or by the lack of one of the two arcs, where those of a series set
//! are. It keeps what it hasn't taken yet and what it took and hasn't looked at, and needs no
//! memory: a fixed number of operations on rows for each name that it takes.
ghost use Rattle.std.specs.Prelude.{◌≡◌, ◌≢◌, ◌*◌, ℕ, ◌<◌, ◌≤◌, ◌+◌, ◌↔◌, IsTrue, true, false};
ghost use Rattle.std.specs.FinSet.{contains, union, difference, len};
ghost use Rattle.md_graph.specs.Sets.{Has, Within, Disjoint};
ghost use Rattle.md_modules.specs.Components.{IsComponent};
ghost use Rattle.md_modules.specs.Searches.{IsReaching};
ghost use Rattle.md_digraph.specs.PlainDigraph.{has_arc_to};
ghost use Rattle.md_digraph.specs.ArcColours.{between, no_arc, both_arcs};
ghost use Rattle.md_digraph.specs.ArcsSeen.{with_other_arcs};

use crate::DigraphOf;
use crate::shared::next;
use md_graph::Set;

/// Puts into `into` the component of `x` in the directed graph on `within`, by arcs in either
/// direction: the least part with `x` that no arc leaves or enters. Condition: `within` is a set of
/// vertices, and `x` a member.
pub fn parallel_component<const W: usize>(
    graph: &DigraphOf<W>,
    within: &Set<W>,
    x: u32,
    into: &mut Set<W>,
)
    requires inside { Within within.now graph.now.vertices }
    requires member { Has within.now x }
    ensures component { IsComponent (between (has_arc_to graph.now)) within.now x into.new no_arc }
{
    rest_of_component(graph, within, x, false, into);
    into.symmetric_difference_with(within);
}

/// Puts into `into` the component of `x` in the directed graph on `within`, by pairs that lack an
/// arc: the least part with `x` of which each name has both arcs with each name of the rest.
/// Condition: `within` is a set of vertices, and `x` a member.
pub fn series_component<const W: usize>(
    graph: &DigraphOf<W>,
    within: &Set<W>,
    x: u32,
    into: &mut Set<W>,
)
    requires inside { Within within.now graph.now.vertices }
    requires member { Has within.now x }
    ensures component { IsComponent (between (has_arc_to graph.now)) within.now x into.new
        both_arcs }
{
    rest_of_component(graph, within, x, true, into);
    into.symmetric_difference_with(within);
}

// Puts into `left` what the component of `x` leaves of `within`: all pairs across have no arc
// (`both` is false) or both arcs (`both` is true).
fn rest_of_component<const W: usize>(
    graph: &DigraphOf<W>,
    within: &Set<W>,
    x: u32,
    both: bool,
    left: &mut Set<W>,
)
    requires inside { Within within.now graph.now.vertices }
    requires member { Has within.now x }
    ensures part { Within left.new within.now }
    ensures taken { IsComponent (between (has_arc_to graph.now)) within.now x
        (difference within.now left.new) (both, both) }
{
    let _vertices = graph.vertices();
    left.clear();
    left.union_with(within);
    left.remove(x);
    let mut todo = Set::none();
    todo.insert(x);
    // Each name is taken once. Then a turn looks at it, at some six operations on rows; or a look
    // back, which costs two for each name left, saves the turns of as many names or more. So a
    // search of k names costs some 8k operations on rows at most.
    let mut from_end = false;
    while let Some(w) = next(left, &todo, from_end) {
        turn(graph, within, both, w, left, &mut todo);
        from_end = !from_end;
    }
}

// One turn of the search for a component: what is left and has other arcs with `w` is taken. Where
// nothing is, the search looks back, unless more names are left than are to be looked at.
fn turn<const W: usize>(
    graph: &DigraphOf<W>,
    within: &Set<W>,
    both: bool,
    w: u32,
    left: &mut Set<W>,
    todo: &mut Set<W>,
)
    requires member { Has todo.old w }
    requires vertex { Has graph.now.vertices w }
    requires part { Within left.old graph.now.vertices }
    ensures kept { (x : ℕ) → IsReaching (between (has_arc_to graph.now)) within.now (both, both) x
        left.old todo.old
        → IsReaching (between (has_arc_to graph.now)) within.now (both, both) x left.new todo.new }
    ensures fewer { len left.new + len todo.new < len left.old + len todo.old }
{
    let _vertices = graph.vertices();
    let before = left.count();
    todo.remove(w);
    move_others(graph, w, both, left, todo);
    if left.count() == before && before <= todo.count() {
        look_back(graph, within, both, left, todo);
    }
}

// What is left and has other arcs with a name taken is taken, and nothing else is to be looked at:
// no name taken before has other arcs with one that is still left.
fn look_back<const W: usize>(
    graph: &DigraphOf<W>,
    within: &Set<W>,
    both: bool,
    left: &mut Set<W>,
    todo: &mut Set<W>,
)
    requires part { Within left.old graph.now.vertices }
    ensures kept { (x : ℕ) → IsReaching (between (has_arc_to graph.now)) within.now (both, both) x
        left.old todo.old
        → IsReaching (between (has_arc_to graph.now)) within.now (both, both) x left.new todo.new }
    ensures fewer { len left.new + len todo.new ≤ len left.old }
{
    let _vertices = graph.vertices();
    let taken = within.minus(left);
    let new = having_others(graph, both, left, &taken);
    todo.clear();
    left.move_shared(&new, todo);
}

// The members of `left` that have with one of `taken` another arc than none (`both` is false), or
// not both (`both` is true).
fn having_others<const W: usize>(
    graph: &DigraphOf<W>,
    both: bool,
    left: &Set<W>,
    taken: &Set<W>,
) -> Set<W>
    requires apart { Disjoint taken.now left.now }
    requires part { Within left.now graph.now.vertices }
    ensures { (y : ℕ) → Has result y ↔ (Has left.now y × ((t : ℕ) × Has taken.now t
        × (between (has_arc_to graph.now) y t ≢ (both, both)))) }
{
    let _vertices = graph.vertices();
    let mut new = Set::none();
    for y in left.members() {
        if has_others(graph, y, both, taken, left) {
            new.insert(y);
        }
    }
    new
}

// Whether `w` has an arc with one of `among` (`both` is false), or lacks one of the two with one
// (`both` is true). Conditions: `w` is a vertex, and `apart` is a set without a member of `among`.
fn has_others<const W: usize>(
    graph: &DigraphOf<W>,
    w: u32,
    both: bool,
    among: &Set<W>,
    apart: &Set<W>,
) -> bool
    requires vertex { Has graph.now.vertices w }
    requires apart { Disjoint among.now apart.now }
    ensures { IsTrue result
        ↔ ((t : ℕ) × Has among.now t × (between (has_arc_to graph.now) w t ≢ (both, both))) }
{
    differs(graph.successors(w), both, among, apart)
        || differs(graph.predecessors(w), both, among, apart)
}

// Whether `row` has one of `among` (`value` is false), or lacks one (`value` is true). Condition:
// `apart` is a set without a member of `among`.
fn differs<const W: usize>(row: &Set<W>, value: bool, among: &Set<W>, apart: &Set<W>) -> bool
    requires { Disjoint among.now apart.now }
    ensures { IsTrue result ↔ ((t : ℕ) × Has among.now t × (contains row.now t ≢ value)) }
{
    if value {
        return among.first_in_symmetric_difference(row, among).is_some();
    }
    among.first_in_symmetric_difference(row, apart).is_some()
}

// Moves the members of `left` that `w` has an arc with (`both` is false), or lacks one of the two
// with (`both` is true), to `todo`.
fn move_others<const W: usize>(
    graph: &DigraphOf<W>,
    w: u32,
    both: bool,
    left: &mut Set<W>,
    todo: &mut Set<W>,
)
    requires { Has graph.now.vertices w }
    ensures left { left.new ≡ difference left.old (with_other_arcs graph.now w both left.old) }
    ensures todo { todo.new ≡ union todo.old (with_other_arcs graph.now w both left.old) }
{
    let (out, into) = (graph.successors(w), graph.predecessors(w));
    if both {
        left.move_unshared(out, todo);
        left.move_unshared(into, todo);
    } else {
        left.move_shared(out, todo);
        left.move_shared(into, todo);
    }
}
