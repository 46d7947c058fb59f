//! Whether four numbers are a bar of a graph.
ghost use Rattle.std.specs.Prelude.{◌<◌, ◌↔◌, IsTrue};
ghost use Rattle.md_graph.specs.PlainGraph.{adjacent};
ghost use Rattle.md_bar_tree.specs.Bars.{IsInducedCycle, AreTwoEdges, Bars, IsBarOfKind, IsBar};
ghost use Rattle.md_bar_tree.specs.Edges.{HasCycleEdges, HasTwoEdges, IsCycleOrder, IsPairOrder};

use crate::{Bar, BarKind, Class};
use md_graph::GraphOf;
use md_modules::{P4, is_p4};

/// Whether a bar, of any four numbers, is one of a class in the graph.
pub fn is_bar<const W: usize>(graph: &GraphOf<W>, class: Class, bar: &Bar) -> bool
    ensures exactly { IsTrue result
        ↔ IsBar class (adjacent graph.now) graph.now.vertices bar.now }
{
    bars(bar.kind, class) && is_of_kind(graph, bar)
}

// Whether bars of a kind bar a graph from a class.
fn bars(kind: BarKind, class: Class) -> bool
    ensures { IsTrue result ↔ Bars kind class }
{
    match kind {
        BarKind::P4 => true,
        BarKind::C4 => true,
        BarKind::TwoK2 => match class {
            Class::Threshold => true,
            Class::Trivial => false,
        },
    }
}

fn is_of_kind<const W: usize>(graph: &GraphOf<W>, bar: &Bar) -> bool
    ensures { IsTrue result ↔ IsBarOfKind bar.now.kind (adjacent graph.now) graph.now.vertices
        bar.now.a bar.now.b bar.now.c bar.now.d }
{
    let Bar { kind, a, b, c, d } = *bar;
    match kind {
        BarKind::P4 => is_p4(graph, &P4 { a, b, c, d }),
        BarKind::C4 => is_cycle(graph, a, b, c, d),
        BarKind::TwoK2 => are_two_edges(graph, a, b, c, d),
    }
}

fn is_cycle<const W: usize>(graph: &GraphOf<W>, a: u32, b: u32, c: u32, d: u32) -> bool
    ensures { IsTrue result ↔ IsInducedCycle (adjacent graph.now) graph.now.vertices a b c d }
{
    let _vertices = graph.vertices();
    in_cycle_order(a, b, c, d) && has_cycle_edges(graph, a, b, c, d)
}

fn are_two_edges<const W: usize>(graph: &GraphOf<W>, a: u32, b: u32, c: u32, d: u32) -> bool
    ensures { IsTrue result ↔ AreTwoEdges (adjacent graph.now) graph.now.vertices a b c d }
{
    let _vertices = graph.vertices();
    in_pair_order(a, b, c, d) && has_two_edges(graph, a, b, c, d)
}

/// Whether four names stand in the order of a cycle: the first is the least, and the second is
/// below the last.
pub fn in_cycle_order(a: u32, b: u32, c: u32, d: u32) -> bool
    ensures exactly { IsTrue result ↔ IsCycleOrder a b c d }
{
    a < b && a < c && a < d && b < d
}

/// Whether four names stand in the order of two edges: the smaller end of each comes first, and
/// that of the first edge is below that of the second.
pub fn in_pair_order(a: u32, b: u32, c: u32, d: u32) -> bool
    ensures exactly { IsTrue result ↔ IsPairOrder a b c d }
{
    a < b && c < d && a < c
}

// Whether the edges among `a`, `b`, `c` and `d`, any numbers, are exactly a-b, b-c, c-d and d-a.
fn has_cycle_edges<const W: usize>(graph: &GraphOf<W>, a: u32, b: u32, c: u32, d: u32) -> bool
    ensures { IsTrue result ↔ HasCycleEdges (adjacent graph.now) a b c d }
{
    let near = graph.has_edge(a, b) && graph.has_edge(b, c);
    let far = graph.has_edge(c, d) && graph.has_edge(d, a);
    let chords = graph.has_edge(a, c) || graph.has_edge(b, d);
    near && far && !chords
}

// Whether the edges among them are exactly a-b and c-d.
fn has_two_edges<const W: usize>(graph: &GraphOf<W>, a: u32, b: u32, c: u32, d: u32) -> bool
    ensures { IsTrue result ↔ HasTwoEdges (adjacent graph.now) a b c d }
{
    let edges = graph.has_edge(a, b) && graph.has_edge(c, d);
    let first = graph.has_edge(a, c) || graph.has_edge(a, d);
    let second = graph.has_edge(b, c) || graph.has_edge(b, d);
    edges && !first && !second
}
