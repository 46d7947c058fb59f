//! Induced paths on four vertices.
ghost use Rattle.std.specs.Prelude.{◌≡◌, ◌*◌, ℕ, ◌<◌, ◌↔◌, true, false, not, IsTrue, IfSome, IfNone};
ghost use Rattle.md_graph.specs.Sets.{NameSet, Has, Within, HasSome};
ghost use Rattle.md_graph.specs.PlainGraph.{adjacent, IsGraph};
ghost use Rattle.md_modules.specs.Kinds.{IsSplit};
ghost use Rattle.md_modules.specs.Components.{IsComponent};
ghost use Rattle.md_modules.specs.InducedPaths.{IsInducedPath, HasInducedPath, HasPathEdges, IsInducedPathWith};
ghost use Rattle.md_modules.specs.PathSearch.{ToldApart, IsPathOf, IsSide, IsMet};

use crate::refinement::splitter_of_few;
use crate::shared::move_seen;
use crate::{co_component, component};
use md_graph::{GraphOf, Set};

/// Four vertices in the order of a path on them, as an induced path of a graph with `a < d`.
#[derive(Clone, Copy, Debug, PartialEq, Eq)]
pub struct P4 {
    pub a: u32,
    pub b: u32,
    pub c: u32,
    pub d: u32,
}

/// Whether `p`, any four numbers, is an induced path of the graph: four different vertices, the
/// edges among them exactly a-b, b-c and c-d, and `a < d`.
pub fn is_p4<const W: usize>(graph: &GraphOf<W>, p: &P4) -> bool
    ensures exactly { IsTrue result
        ↔ IsInducedPath (adjacent graph.now) graph.now.vertices p.now.a p.now.b p.now.c p.now.d }
{
    let vertices = graph.vertices();
    p.a < p.d && vertices.has(p.a) && has_path_edges(graph, p.a, p.b, p.c, p.d)
}

/// An induced path on four vertices that holds `x`; `None` exactly where there is none. It takes no
/// memory, and at most a fixed number of row operations for each vertex: some for each vertex of
/// the smaller side, those that `x` sees or the others, and of the other side for each in a part
/// that one of the smaller side meets. Condition: `x` is a vertex.
pub fn find_p4_with<const W: usize>(graph: &GraphOf<W>, x: u32) -> Option<P4>
    requires vertex { Has graph.now.vertices x }
    ensures found { IfSome result (λ p.
        IsInducedPathWith (adjacent graph.now) graph.now.vertices x p.a p.b p.c p.d) }
    ensures none { IfNone result ((a b c d : ℕ)
        → IsInducedPathWith (adjacent graph.now) graph.now.vertices x a b c d
        → ⊥) }
{
    let vertices = graph.vertices();
    let near = graph.row(x);
    let mut far = vertices.minus(near);
    far.remove(x);
    if near.count() < far.count() {
        return path_by_sides(graph, x, near, &far, true);
    }
    path_by_sides(graph, x, &far, near, false)
}

/// An induced path on four vertices; `None` exactly where there is none, for cographs. It takes no
/// memory, and for each vertex that lies in none as many row operations as `find_p4_with`: where a
/// tree is at hand, `md_tree::is_cotree` says sooner that there is none.
pub fn find_p4<const W: usize>(graph: &GraphOf<W>) -> Option<P4>
    ensures found { IfSome result (λ p.
        IsInducedPath (adjacent graph.now) graph.now.vertices p.a p.b p.c p.d) }
    ensures none { IfNone result (HasInducedPath (adjacent graph.now) graph.now.vertices → ⊥) }
{
    let vertices = graph.vertices();
    for x in vertices.members() {
        if let Some(p) = find_p4_with(graph, x) {
            return Some(p);
        }
    }
    None
}

// Whether the edges among `a`, `b`, `c` and `d`, any numbers, are exactly a-b, b-c and c-d.
fn has_path_edges<const W: usize>(graph: &GraphOf<W>, a: u32, b: u32, c: u32, d: u32) -> bool
    ensures { IsTrue result ↔ HasPathEdges (adjacent graph.now) a b c d }
{
    let edges = graph.has_edge(a, b) && graph.has_edge(b, c) && graph.has_edge(c, d);
    let chords = graph.has_edge(a, c) || graph.has_edge(a, d) || graph.has_edge(b, d);
    edges && !chords
}

// An induced path with `x`: two of it lie on one side of `x`, in one part, and one on the other
// side. `x` sees all of `first` and none of `second` (`value` is true), or the other way round.
fn path_by_sides<const W: usize>(
    graph: &GraphOf<W>,
    x: u32,
    first: &Set<W>,
    second: &Set<W>,
    value: bool,
) -> Option<P4>
    requires graph { IsGraph graph.now }
    requires first { IsSide graph.now x value first.now }
    requires second { IsSide graph.now x (not value) second.now }
    ensures found { IfSome result (λ p.
        IsInducedPathWith (adjacent graph.now) graph.now.vertices x p.a p.b p.c p.d) }
    ensures none { IfNone result ((a b c d : ℕ)
        → IsInducedPathWith (adjacent graph.now) graph.now.vertices x a b c d
        → ⊥) }
{
    if let Some(p) = path_by_parts(graph, x, first, second, value) {
        return Some(p);
    }
    path_by_parts(graph, x, second, first, !value)
}

// An induced path with `x`, one of `others`, and two of one part of `names`, of which the one of
// `others` sees only one. The parts are the components of `names`, none of which `x` sees (`value`
// is false), or the components of its complement, all of which `x` sees (`value` is true); `x` sees
// all of `others`, or none.
fn path_by_parts<const W: usize>(
    graph: &GraphOf<W>,
    x: u32,
    names: &Set<W>,
    others: &Set<W>,
    value: bool,
) -> Option<P4>
    requires graph { IsGraph graph.now }
    requires inside { Within names.now graph.now.vertices }
    requires alike { (z : ℕ) → Has names.now z → adjacent graph.now x z ≡ value }
    requires others { Within others.now graph.now.vertices }
    requires across { (o : ℕ) → Has others.now o → adjacent graph.now x o ≡ not value }
    ensures found { IfSome result (λ p.
        IsInducedPathWith (adjacent graph.now) graph.now.vertices x p.a p.b p.c p.d) }
    ensures none { IfNone result ((o m z : ℕ) → Has others.now o → Has names.now m → Has names.now z
        → adjacent graph.now m z ≡ not value → ToldApart graph.now o m z → ⊥) }
{
    let _vertices = graph.vertices();
    let mut left = to_begin_from(graph, names, others, value);
    let mut part = Set::none();
    while let Some(y) = left.first_from(0) {
        part_of(graph, names, y, value, &mut part);
        if let Some(p) = path_by_part(graph, x, &part, others, value) {
            return Some(p);
        }
        left = left.minus(&part);
    }
    None
}

// Names of `names` to begin parts from: a part without one has no name that one of `others` meets,
// so that none of `others` tells two of the part apart. All of `names`, where `others` is no
// smaller.
fn to_begin_from<const W: usize>(
    graph: &GraphOf<W>,
    names: &Set<W>,
    others: &Set<W>,
    value: bool,
) -> Set<W>
    requires graph { IsGraph graph.now }
    requires others { Within others.now graph.now.vertices }
    ensures inside { Within result names.now }
    ensures met { (z : ℕ) → IsMet graph.now names.now others.now value z → Has result z }
{
    if others.count() < names.count() {
        return met_by(graph, names, others, value);
    }
    names.copy()
}

// The names of `names` that one of `others` sees (`value` is false), or doesn't see (`value` is
// true).
fn met_by<const W: usize>(
    graph: &GraphOf<W>,
    names: &Set<W>,
    others: &Set<W>,
    value: bool,
) -> Set<W>
    requires graph { IsGraph graph.now }
    requires others { Within others.now graph.now.vertices }
    ensures { (z : ℕ) → Has result z ↔ IsMet graph.now names.now others.now value z }
{
    let _vertices = graph.vertices();
    let mut left = names.copy();
    let mut met = Set::none();
    for o in others.members() {
        move_seen(graph, o, !value, &mut left, &mut met);
    }
    met
}

// The component of `y` in the graph on `within` (`value` is false), or in its complement (`value`
// is true).
fn part_of<const W: usize>(
    graph: &GraphOf<W>,
    within: &Set<W>,
    y: u32,
    value: bool,
    into: &mut Set<W>,
)
    requires inside { Within within.now graph.now.vertices }
    requires member { Has within.now y }
    ensures { IsComponent (adjacent graph.now) within.now y into.new value }
{
    if value {
        co_component(graph, within, y, into);
    } else {
        component(graph, within, y, into);
    }
}

// An induced path with `x`, one of `others` and two of `part`. Conditions: `part` has a name, and
// doesn't split.
fn path_by_part<const W: usize>(
    graph: &GraphOf<W>,
    x: u32,
    part: &Set<W>,
    others: &Set<W>,
    value: bool,
) -> Option<P4>
    requires graph { IsGraph graph.now }
    requires inside { Within part.now graph.now.vertices }
    requires some { HasSome part.now }
    requires whole { (a : NameSet) → IsSplit (adjacent graph.now) part.now a value → ⊥ }
    requires alike { (z : ℕ) → Has part.now z → adjacent graph.now x z ≡ value }
    requires across { (o : ℕ) → Has others.now o → adjacent graph.now x o ≡ not value }
    ensures found { IfSome result (λ p.
        IsInducedPathWith (adjacent graph.now) graph.now.vertices x p.a p.b p.c p.d) }
    ensures none { IfNone result ((o m z : ℕ) → Has others.now o → Has part.now m → Has part.now z
        → ToldApart graph.now o m z → ⊥) }
{
    if let Some(o) = splitter_of_few(graph, part, others) {
        return path_over(graph, x, o, part, value);
    }
    None
}

// An induced path with `x`, `o` and two of `part`, of which `o` sees only one.
fn path_over<const W: usize>(
    graph: &GraphOf<W>,
    x: u32,
    o: u32,
    part: &Set<W>,
    value: bool,
) -> Option<P4>
    requires name { o < 64 * W }
    requires alike { (z : ℕ) → Has part.now z → adjacent graph.now x z ≡ value }
    requires across { adjacent graph.now x o ≡ not value }
    ensures found { IfSome result (λ p.
        IsInducedPathWith (adjacent graph.now) graph.now.vertices x p.a p.b p.c p.d) }
    ensures none { IfNone result ((m z : ℕ) → Has part.now m → Has part.now z
        → adjacent graph.now m z ≡ not value → ToldApart graph.now o m z → ⊥) }
{
    let row = graph.row(o);
    let seen = part.and(row);
    let rest = part.minus(row);
    for m in seen.members() {
        if let Some(z) = first_across(graph, m, &rest, value) {
            return Some(path_through(x, o, m, z, value));
        }
    }
    None
}

// The first of `rest` that isn't to `m` as `value` says.
pub(crate) fn first_across<const W: usize>(
    graph: &GraphOf<W>,
    m: u32,
    rest: &Set<W>,
    value: bool,
) -> Option<u32>
    requires { m < 64 * W }
    ensures found { IfSome result (λ z. Has rest.now z × (adjacent graph.now m z ≡ not value)) }
    ensures none { IfNone result ((z : ℕ) → Has rest.now z
        → adjacent graph.now m z ≡ not value → ⊥) }
{
    let row = graph.row(m);
    if value {
        return rest.minus(row).first_from(0);
    }
    rest.and(row).first_from(0)
}

// The path from `x` over `o` and `m` to `z` (`value` is false), or from `z` over `x` and `m` to `o`
// (`value` is true).
fn path_through(x: u32, o: u32, m: u32, z: u32, value: bool) -> P4
    ensures begun { value ≡ false → IsPathOf result x o m z }
    ensures passed { value ≡ true → IsPathOf result z x m o }
{
    if value {
        return ascending(z, x, m, o);
    }
    ascending(x, o, m, z)
}

// The four in this order, or turned round where `d` is the smaller end.
pub(crate) fn ascending(a: u32, b: u32, c: u32, d: u32) -> P4
    ensures { IsPathOf result a b c d }
{
    if a < d {
        P4 { a, b, c, d }
    } else {
        P4 {
            a: d,
            b: c,
            c: b,
            d: a,
        }
    }
}
