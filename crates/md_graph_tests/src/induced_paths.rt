//! Induced paths on four vertices.
use md_graph::{Graph, GraphOf, Memory};
use md_modules::{P4, find_p4, find_p4_with, is_p4};
use std::alloc::Global;
use std::process::Abort;
use std::test::Fail;

// The graph with the vertices 0 to 4 and these edges.
fn graph_of(rt: &impl Abort, alloc: Global, edges: &[(u32, u32)]) -> Result<Graph, Memory> {
    Ok(Graph::from_edges(alloc, 5, edges)?.expect(rt, "edges"))
}

// Sees that the path with `x` is this one, or that there is none.
fn expect(rt: &impl Abort, g: &Graph, x: u32, want: Option<(u32, u32, u32, u32)>) {
    assert!(rt; g.has_vertex(x));
    let found = find_p4_with(g, x).map(|p| (p.a, p.b, p.c, p.d));
    assert_eq!(rt; found, want);
}

#[test]
fn known_graphs(rt: HostRuntime) -> Result<(), Fail> {
    let spider = graph_of(&rt, rt.alloc(), &[(0, 1), (1, 2), (2, 3), (1, 4)])?;
    expect(&rt, &spider, 4, Some((3, 2, 1, 4)));
    expect(&rt, &spider, 0, Some((0, 1, 2, 3)));
    let three = graph_of(&rt, rt.alloc(), &[(1, 2), (2, 3)])?;
    expect(&rt, &three, 1, None);
    expect(&rt, &three, 0, None);
    let five = graph_of(&rt, rt.alloc(), &[(0, 1), (1, 2), (2, 3), (3, 4)])?;
    expect(&rt, &five, 0, Some((0, 1, 2, 3)));
    expect(&rt, &five, 4, Some((1, 2, 3, 4)));
    let cycle = graph_of(&rt, rt.alloc(), &[(0, 1), (1, 2), (2, 3), (3, 4), (0, 4)])?;
    assert!(rt; cycle.has_vertex(2));
    assert!(rt; find_p4_with(&cycle, 2).is_some());
    Ok(())
}

// Four names, and whether they are an induced path of the bull in this order.
static FOURS: [(u32, u32, u32, u32, bool); 7] = [
    (0, 1, 2, 3, true),
    (3, 2, 1, 0, false),
    (0, 1, 4, 3, false),
    (0, 1, 2, 4, false),
    (0, 1, 0, 1, false),
    (0, 1, 2, 9, false),
    (0, 1, 2, u32::MAX, false),
];

// Sees whether four names are an induced path in this order.
fn expect_four(rt: &impl Abort, g: &Graph, names: (u32, u32, u32, u32), want: bool) {
    let (a, b, c, d) = names;
    assert_eq!(rt; is_p4(g, &P4 { a, b, c, d }), want, "{a} {b} {c} {d}");
}

#[test]
fn bull(rt: HostRuntime) -> Result<(), Fail> {
    let bull = graph_of(&rt, rt.alloc(), &[(0, 1), (1, 2), (2, 3), (1, 4), (2, 4)])?;
    expect(&rt, &bull, 4, None);
    expect(&rt, &bull, 0, Some((0, 1, 2, 3)));
    expect(&rt, &bull, 2, Some((0, 1, 2, 3)));
    assert_eq!(rt; find_p4(&bull).map(|p| p.a), Some(0));
    for (a, b, c, d, want) in &FOURS {
        expect_four(&rt, &bull, (*a, *b, *c, *d), *want);
    }
    Ok(())
}

// With rows of one word.
#[test]
fn narrow_path(rt: HostRuntime) -> Result<(), Fail> {
    let edges = [(0, 1), (1, 2), (2, 3)];
    let path = GraphOf::<1>::from_edges(rt.alloc(), 4, &edges)?.expect(&rt, "edges");
    let found = find_p4(&path).expect(&rt, "a path");
    assert!(rt; is_p4(&path, &found));
    assert!(rt; path.has_vertex(2));
    assert!(rt; find_p4_with(&path, 2).is_some());
    Ok(())
}
