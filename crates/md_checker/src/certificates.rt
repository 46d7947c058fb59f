//! Whether a chain, an orientation or two orders are what a report may say of a graph.
ghost use Rattle.std.specs.Prelude.{◌≡◌, ℕ, List, ◌∷◌, ◌*◌, ◌<◌, ◌≤◌, ◌↔◌, ◌⊎◌, ◌++◌, length, take, map, IfOk, IfSome, IfNone, IsTrue};
ghost use Rattle.std.specs.FinSet as set;
ghost use Rattle.md_graph.specs.NameSet.{ascending};
ghost use Rattle.md_graph.specs.PlainGraph.{adjacent, neighbours, complement};
ghost use Rattle.md_graph.specs.Rows.{row_of};
ghost use Rattle.md_graph.specs.Sets.{Has};
ghost use Rattle.md_forcing.specs.declared.arc.Arc.{Arc};
ghost use Rattle.md_forcing.specs.Forcing.{arc, IsArc, ForcesDirectly, IsListToReverse};
ghost use Rattle.md_forcing.specs.Lists.{Holds, NoRepeats};
ghost use Rattle.md_forcing.specs.ArcSet.{HasArc};
ghost use Rattle.md_forcing.specs.Sides.{adjacent_on};
ghost use Rattle.md_comparability.specs.Chains.{IsForcingChain};
ghost use Rattle.md_comparability.specs.Orientations.{HasTransitiveOrientation, IsLeastEdgeOrientation};
ghost use Rattle.md_comparability.specs.Listed.{arcs_below};
ghost use Rattle.md_comparability.specs.Orders.{IsOrder, Realise};
ghost use Rattle.md_report.specs.Lines.{arcs_text};
ghost use Rattle.md_checker.specs.Flips.{AreFlipped};

use crate::arc_text::spells_arcs;
use md_comparability::{ClassOrChosen, orient_classes};
use md_forcing::{Arc, ArcSetOf, Arcs, Chain, Side};
use md_graph::{GraphOf, Memory, Set, WORDS, empty_rows};
use md_report::Order;
use std::alloc::Global;

/// Whether the list is a forcing chain of the graph, or of its complement. Errors: want of memory.
pub fn is_forcing_chain<const W: usize>(
    alloc: Global,
    graph: &GraphOf<W>,
    side: Side,
    chain: &Chain,
) -> Result<bool, Memory>
    ensures { IfOk result (λ is. IsTrue is
        ↔ IsForcingChain (adjacent_on side graph.now) chain.now) }
{
    let _vertices = graph.vertices();
    match orient_classes(alloc, graph, side)? {
        ClassOrChosen::Whole(_) => Ok(false),
        ClassOrChosen::Stopped(trail) => {
            let (first, _) = trail.entry(0);
            let list = chain.as_slice();
            if !begins_with(list, first) {
                return Ok(false);
            }
            let back = leads_back(alloc, graph, side, first, &list[1..])?;
            Ok(back)
        }
    }
}

// Whether the list begins with the arc.
fn begins_with(list: &[Arc], first: Arc) -> bool
    ensures { IsTrue result ↔ ((rest : List Arc) × (list.now ≡ first ∷ rest)) }
{
    !list.is_empty() && list[0] == first
}

// Whether an arc and those behind it lead to its reverse, without repeats. Condition: it is an arc
// of this side.
fn leads_back<const W: usize>(
    alloc: Global,
    graph: &GraphOf<W>,
    side: Side,
    first: Arc,
    rest: &[Arc],
) -> Result<bool, Memory>
    requires { IsArc (adjacent_on side graph.now) first }
    ensures { IfOk result (λ is. IsTrue is
        ↔ IsListToReverse (adjacent_on side graph.now) first (first ∷ rest.now)) }
{
    let _vertices = graph.vertices();
    let mut rows = empty_rows(alloc, graph.bound())?;
    Ok(leads_on(graph, side, first, rest, &mut rows))
}

// The same with rows in which the arcs are put down, by their tails. Condition: there is no arc
// yet.
fn leads_on<const W: usize>(
    graph: &GraphOf<W>,
    side: Side,
    first: Arc,
    rest: &[Arc],
    rows: &mut [Set<W>],
) -> bool
    requires arc { IsArc (adjacent_on side graph.now) first }
    requires room { (v : ℕ) → Has graph.now.vertices v → v < length rows.old }
    requires none { (v : ℕ) → row_of rows.old v ≡ set.empty }
    ensures { IsTrue result
        ↔ IsListToReverse (adjacent_on side graph.now) first (first ∷ rest.now) }
{
    let _vertices = graph.vertices();
    put_arc(rows, first);
    let mut last = first;
    for next in rest {
        if !is_forced(graph, side, last, *next) || has_arc(rows, *next) {
            return false;
        }
        put_arc(rows, *next);
        last = *next;
    }
    let back = Arc {
        tail: first.head,
        head: first.tail,
    };
    last == back
}

// Puts an arc down in the row of its tail.
fn put_arc<const W: usize>(rows: &mut [Set<W>], by: Arc)
    requires limit { W ≤ WORDS }
    requires tail { by.tail < length rows.old }
    requires head { by.head < 64 * W }
    ensures room { length rows.new ≡ length rows.old }
    ensures taken { (a : Arc) → HasArc rows.new a ↔ (HasArc rows.old a ⊎ (a ≡ by)) }
{
    rows[by.tail as usize].insert(by.head);
}

// Whether an arc is put down.
fn has_arc<const W: usize>(rows: &[Set<W>], by: Arc) -> bool
    requires limit { W ≤ WORDS }
    requires tail { by.tail < length rows.now }
    ensures { result ≡ set.contains (row_of rows.now by.tail) by.head }
{
    rows[by.tail as usize].has(by.head)
}

// Whether `next` is an arc of this side that `last` forces directly.
fn is_forced<const W: usize>(graph: &GraphOf<W>, side: Side, last: Arc, next: Arc) -> bool
    ensures { IsTrue result ↔ (IsArc (adjacent_on side graph.now) next
        × ForcesDirectly (adjacent_on side graph.now) last next) }
{
    if !are_adjacent(graph, side, next.tail, next.head) {
        return false;
    }
    if last.tail == next.tail {
        last.head != next.head && !are_adjacent(graph, side, last.head, next.head)
    } else {
        last.head == next.head && !are_adjacent(graph, side, last.tail, next.tail)
    }
}

// Whether two names, any numbers, are adjacent on this side.
fn are_adjacent<const W: usize>(graph: &GraphOf<W>, side: Side, u: u32, v: u32) -> bool
    ensures { result ≡ adjacent_on side graph.now u v }
{
    let _vertices = graph.vertices();
    match side {
        Side::Edges => graph.has_edge(u, v),
        Side::NonEdges => are_apart(graph, u, v),
    }
}

// Whether two names, any numbers, are different vertices without an edge between them.
fn are_apart<const W: usize>(graph: &GraphOf<W>, u: u32, v: u32) -> bool
    ensures { result ≡ adjacent (complement graph.now) u v }
{
    let _vertices = graph.vertices();
    if u == v {
        return false;
    }
    if graph.has_edge(u, v) {
        return false;
    }
    graph.has_vertex(u) && graph.has_vertex(v)
}

/// Whether the graph has a transitive orientation, and the list is the least-edge one, in ascending
/// order. Errors: want of memory.
pub fn is_least_edge_orientation<const W: usize>(
    alloc: Global,
    graph: &GraphOf<W>,
    arcs: &Arcs,
) -> Result<bool, Memory>
    ensures { IfOk result (λ is. IsTrue is ↔ (HasTransitiveOrientation (adjacent graph.now)
        × IsLeastEdgeOrientation (adjacent graph.now) arcs.now)) }
{
    let _vertices = graph.vertices();
    match orient_classes(alloc, graph, Side::Edges)? {
        ClassOrChosen::Stopped(_) => Ok(false),
        ClassOrChosen::Whole(chosen) => Ok(are_listed(&chosen, arcs.as_slice())),
    }
}

// Whether the text is a word and behind it the arcs of the least-edge orientation of a graph that
// has a transitive one; a false says nothing. Errors: want of memory.
pub(crate) fn is_word_and_orientation<const W: usize>(
    alloc: Global,
    graph: &GraphOf<W>,
    word: &[u8],
    text: &[u8],
) -> Result<bool, Memory>
    ensures { IfOk result (λ is. IsTrue is → (arcs : List Arc)
        × HasTransitiveOrientation (adjacent graph.now)
        × IsLeastEdgeOrientation (adjacent graph.now) arcs
        × (text.now ≡ word.now ++ arcs_text arcs)) }
{
    let _vertices = graph.vertices();
    let Some(behind) = text.strip_prefix(word) else {
        return Ok(false);
    };
    match orient_classes(alloc, graph, Side::Edges)? {
        ClassOrChosen::Stopped(_) => Ok(false),
        ClassOrChosen::Whole(chosen) => spells_arcs(alloc, &chosen, behind),
    }
}

// Whether the list has the arcs of the set in ascending order of tail, then head, and nothing else.
fn are_listed<const W: usize>(set: &ArcSetOf<W>, list: &[Arc]) -> bool
    ensures { IsTrue result ↔ (list.now ≡ arcs_below set.now (length set.now)) }
{
    let mut at = 0;
    for tail in 0..set.size() {
        let Some(next) = behind_row(list, at, tail, set.heads(tail)) else {
            return false;
        };
        at = next;
    }
    at == list.len()
}

// The place behind the arcs from `tail` to each of `heads`, ascending, where these stand in the
// list from the place `at` on.
fn behind_row<const W: usize>(list: &[Arc], at: usize, tail: u32, heads: &Set<W>) -> Option<usize>
    requires { at ≤ length list.now }
    ensures within { IfSome result (λ next. next ≤ length list.now) }
    ensures found { IfSome result (λ next. take next list.now
        ≡ take at list.now ++ map (arc tail) (ascending heads.now)) }
    ensures none { IfNone result ((rest : List Arc) → list.now
        ≡ (take at list.now ++ map (arc tail) (ascending heads.now)) ++ rest → ⊥) }
{
    let mut next = at;
    for head in heads.members() {
        if next == list.len() {
            return None;
        }
        if list[next] != (Arc { tail, head }) {
            return None;
        }
        next += 1;
    }
    Some(next)
}

/// Whether the two orders realise the graph. Errors: want of memory.
pub fn realise<const W: usize>(
    alloc: Global,
    graph: &GraphOf<W>,
    first: &Order,
    second: &Order,
) -> Result<bool, Memory>
    ensures { IfOk result (λ is. IsTrue is
        ↔ Realise (adjacent graph.now) graph.now.vertices first.now second.now) }
{
    let _vertices = graph.vertices();
    if !is_order(graph, first.as_slice()) || !is_order(graph, second.as_slice()) {
        return Ok(false);
    }
    let mut rows = empty_rows(alloc, graph.bound())?;
    flip_before(&mut rows, first.as_slice());
    flip_before(&mut rows, second.as_slice());
    Ok(are_neighbours(graph, &rows))
}

// Whether the list holds each vertex once, and nothing else.
fn is_order<const W: usize>(graph: &GraphOf<W>, list: &[u32]) -> bool
    ensures { IsTrue result ↔ IsOrder graph.now.vertices list.now }
{
    let vertices = graph.vertices();
    let mut seen = Set::none();
    for v in list {
        if !vertices.has(*v) || seen.has(*v) {
            return false;
        }
        seen.insert(*v);
    }
    seen.is_same(vertices)
}

// Flips, in the row of each name of the list, the names that stand before it. Condition: no name
// stands there twice.
fn flip_before<const W: usize>(rows: &mut [Set<W>], list: &[u32])
    requires limit { W ≤ WORDS }
    requires names { (v : ℕ) → Holds list.now v → v < 64 * W }
    requires room { (v : ℕ) → Holds list.now v → v < length rows.old }
    requires once { NoRepeats list.now }
    ensures room { length rows.new ≡ length rows.old }
    ensures flipped { AreFlipped list.now rows.old rows.new }
{
    let mut before = Set::none();
    for v in list {
        rows[*v as usize].symmetric_difference_with(&before);
        before.insert(*v);
    }
}

// Whether the row of each vertex has its neighbours, and nothing else.
fn are_neighbours<const W: usize>(graph: &GraphOf<W>, rows: &[Set<W>]) -> bool
    requires { (v : ℕ) → Has graph.now.vertices v → v < length rows.now }
    ensures { IsTrue result ↔ ((v : ℕ) → Has graph.now.vertices v
        → row_of rows.now v ≡ neighbours graph.now v) }
{
    for v in graph.vertices().members() {
        if !rows[v as usize].is_same(graph.row(v)) {
            return false;
        }
    }
    true
}
