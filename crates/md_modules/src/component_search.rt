//! The search for a component, of a graph or of its complement. It keeps what it hasn't taken yet
//! and what it took and hasn't looked at, and needs no memory: a fixed number of operations on rows
//! for each name that it takes.
ghost use Rattle.std.specs.Prelude.{◌≡◌, ◌*◌, ℕ, ◌<◌, ◌≤◌, ◌+◌, ◌↔◌, IsTrue, true, false};
ghost use Rattle.std.specs.FinSet.{difference, len};
ghost use Rattle.md_graph.specs.PlainGraph.{adjacent};
ghost use Rattle.md_graph.specs.Sets.{NameSet, Has, Within, Disjoint};
ghost use Rattle.md_modules.specs.Kinds.{IsSplit, IsConnected, IsCoConnected};
ghost use Rattle.md_modules.specs.Components.{IsComponent};
ghost use Rattle.md_modules.specs.Searches.{IsReaching};

use crate::shared::{move_seen, next};
use md_graph::{GraphOf, NAMES, Set};

/// Whether the graph is connected, as it is with no vertex or one.
pub fn connected<const W: usize>(graph: &GraphOf<W>) -> bool
    ensures exactly { IsTrue result ↔ IsConnected (adjacent graph.now) graph.now.vertices }
{
    is_whole(graph, false)
}

/// Whether the complement of the graph is connected, as it is with no vertex or one.
pub fn co_connected<const W: usize>(graph: &GraphOf<W>) -> bool
    ensures exactly { IsTrue result ↔ IsCoConnected (adjacent graph.now) graph.now.vertices }
{
    is_whole(graph, true)
}

/// Puts into `into` the component of `x` in the graph on `within`. Condition: `within` is a set of
/// vertices, and `x` a member.
pub fn component<const W: usize>(graph: &GraphOf<W>, within: &Set<W>, x: u32, into: &mut Set<W>)
    requires inside { Within within.now graph.now.vertices }
    requires member { Has within.now x }
    ensures component { IsComponent (adjacent graph.now) within.now x into.new false }
{
    rest_of_component(graph, within, x, false, into);
    into.symmetric_difference_with(within);
}

/// Puts into `into` the component of `x` in the complement of the graph on `within`. Condition:
/// `within` is a set of vertices, and `x` a member.
pub fn co_component<const W: usize>(graph: &GraphOf<W>, within: &Set<W>, x: u32, into: &mut Set<W>)
    requires inside { Within within.now graph.now.vertices }
    requires member { Has within.now x }
    ensures component { IsComponent (adjacent graph.now) within.now x into.new true }
{
    rest_of_component(graph, within, x, true, into);
    into.symmetric_difference_with(within);
}

// Whether `w` is adjacent to one of `among` (`value` is true), or not adjacent to one (`value` is
// false). Conditions: `w` is a vertex, and `apart` is a set without a member of `among`.
pub(crate) fn sees<const W: usize>(
    graph: &GraphOf<W>,
    w: u32,
    value: bool,
    among: &Set<W>,
    apart: &Set<W>,
) -> bool
    requires vertex { Has graph.now.vertices w }
    requires apart { Disjoint among.now apart.now }
    ensures { IsTrue result ↔ ((t : ℕ) × Has among.now t × (adjacent graph.now w t ≡ value)) }
{
    let row = graph.neighbours(w);
    if value {
        return among.first_in_symmetric_difference(row, apart).is_some();
    }
    among.first_in_symmetric_difference(row, among).is_some()
}

// Whether the graph (`value` is false) or its complement (`value` is true) is connected.
fn is_whole<const W: usize>(graph: &GraphOf<W>, value: bool) -> bool
    ensures { IsTrue result
        ↔ (((part : NameSet) × IsSplit (adjacent graph.now) graph.now.vertices part value) → ⊥) }
{
    let vertices = graph.vertices();
    let Some(x) = vertices.first_from(0) else {
        return true;
    };
    let mut left = Set::none();
    rest_of_component(graph, vertices, x, value, &mut left);
    left.is_empty()
}

// Puts into `left` what the component of `x` leaves of `within`, in the graph (`value` is false) or
// its complement (`value` is true).
fn rest_of_component<const W: usize>(
    graph: &GraphOf<W>,
    within: &Set<W>,
    x: u32,
    value: bool,
    left: &mut Set<W>,
)
    requires inside { Within within.now graph.now.vertices }
    requires member { Has within.now x }
    ensures part { Within left.new within.now }
    ensures taken { IsComponent (adjacent graph.now) within.now x
        (difference within.now left.new) value }
{
    let _vertices = graph.vertices();
    left.clear();
    left.union_with(within);
    left.remove(x);
    let mut todo = Set::none();
    todo.insert(x);
    // Each name is taken once. Then a turn looks at it, at some six operations on rows beside those
    // at the names left in a look back; or a look back, which costs one for each name left, saves
    // the turns of as many names or more. So a search of k names costs some 6k + 4 operations on
    // rows: ten for one name. The searches of one node take each name of its set once, and a search
    // that finds one component alone once more. The nodes of one depth share no name, and n
    // vertices leave room for n depths, whose sets shrink by a name at least. So the searches for
    // components take some n² names and 6n² operations at most, where n is large; what `grow`,
    // `back` and `maximal_modules` cost at prime nodes comes beside.
    let mut from_end = false;
    while let Some(w) = next(left, &todo, from_end) {
        turn(graph, within, value, w, left, &mut todo);
        from_end = !from_end;
    }
}

// One turn of the search for a component: what is left and adjacent to `w` is taken. Where nothing
// is, the search looks back, unless more names are left than are to be looked at.
fn turn<const W: usize>(
    graph: &GraphOf<W>,
    within: &Set<W>,
    value: bool,
    w: u32,
    left: &mut Set<W>,
    todo: &mut Set<W>,
)
    requires member { Has todo.old w }
    requires vertex { Has graph.now.vertices w }
    requires apart { Disjoint left.old todo.old }
    requires part { Within left.old graph.now.vertices }
    ensures kept { (x : ℕ) → IsReaching (adjacent graph.now) within.now value x left.old todo.old
        → IsReaching (adjacent graph.now) within.now value x left.new todo.new }
    ensures fewer { len left.new + len todo.new < len left.old + len todo.old }
{
    let _vertices = graph.vertices();
    todo.remove(w);
    if sees(graph, w, !value, left, todo) {
        move_seen(graph, w, !value, left, todo);
        return;
    }
    if left.count() <= todo.count() {
        look_back(graph, within, value, left, todo);
    }
}

// What is left and adjacent to a name taken is taken, and nothing else is to be looked at: no name
// taken before is adjacent to one that is still left.
fn look_back<const W: usize>(
    graph: &GraphOf<W>,
    within: &Set<W>,
    value: bool,
    left: &mut Set<W>,
    todo: &mut Set<W>,
)
    requires part { Within left.old graph.now.vertices }
    ensures kept { (x : ℕ) → IsReaching (adjacent graph.now) within.now value x left.old todo.old
        → IsReaching (adjacent graph.now) within.now value x left.new todo.new }
    ensures fewer { len left.new + len todo.new ≤ len left.old }
{
    let _vertices = graph.vertices();
    let taken = within.minus(left);
    let new = seeing(graph, !value, left, &taken);
    todo.clear();
    left.move_shared(&new, todo);
}

// The members of `left` that are adjacent to one of `taken` (`value` is true), or that aren't
// (`value` is false).
fn seeing<const W: usize>(graph: &GraphOf<W>, value: bool, left: &Set<W>, taken: &Set<W>) -> Set<W>
    requires apart { Disjoint taken.now left.now }
    requires part { Within left.now graph.now.vertices }
    ensures { (y : ℕ) → Has result y ↔ (Has left.now y
        × ((t : ℕ) × Has taken.now t × (adjacent graph.now y t ≡ value))) }
{
    let _vertices = graph.vertices();
    let mut new = Set::none();
    for y in left.members() {
        if sees(graph, y, value, taken, left) {
            new.insert(y);
        }
    }
    new
}
