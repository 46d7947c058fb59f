//! Graphs: their changes, and the graphs derived from them.
use md_graph::{Graph, Memory, NAMES, Names, WORDS, empty_rows};
use std::alloc::Global;
use std::process::Abort;
use std::test::Fail;

// The graph with these vertices and edges.
fn graph_of(
    rt: &impl Abort,
    alloc: Global,
    names: &[u32],
    edges: &[(u32, u32)],
) -> Result<Graph, Memory> {
    let mut g = Graph::new(alloc)?;
    for v in names {
        assert!(rt; *v < NAMES && !g.has_vertex(*v));
        g.add_vertex(*v);
    }
    for (u, v) in edges {
        join(rt, &mut g, *u, *v);
    }
    Ok(g)
}

fn join(rt: &impl Abort, g: &mut Graph, u: u32, v: u32) {
    assert!(rt; u != v);
    assert!(rt; g.has_vertex(u));
    assert!(rt; g.has_vertex(v));
    assert!(rt; !g.has_edge(u, v));
    g.add_edge(u, v);
}

fn part(rt: &impl Abort, g: &mut Graph, u: u32, v: u32) {
    assert!(rt; g.has_edge(u, v));
    g.remove_edge(u, v);
}

fn star(rt: &impl Abort, g: &mut Graph, v: u32, others: &Names) {
    assert!(rt; g.has_vertex(v));
    assert!(rt; !others.has(v));
    let strange = others.minus(g.vertices());
    assert!(rt; strange.is_empty());
    g.add_edges(v, others);
}

// Sees that the graph has these vertices and edges, and no others.
fn expect(rt: &impl Abort, g: &Graph, names: &[u32], edges: &[(u32, u32)]) {
    assert_eq!(rt; g.count() as usize, names.len());
    assert_eq!(rt; g.edge_count() as usize, edges.len());
    for v in names {
        assert!(rt; g.has_vertex(*v), "vertex {v}");
    }
    for (u, v) in edges {
        assert!(rt; g.has_edge(*u, *v) && g.has_edge(*v, *u), "edge {u} {v}");
    }
}

#[test]
fn derived_graphs(rt: HostRuntime) -> Result<(), Fail> {
    let path = graph_of(&rt, rt.alloc(), &[0, 1, 2], &[(0, 1), (1, 2)])?;
    expect(&rt, &path, &[0, 1, 2], &[(0, 1), (1, 2)]);
    let mut copy = path.copy(rt.alloc())?;
    expect(&rt, &copy, &[0, 1, 2], &[(0, 1), (1, 2)]);
    let last = NAMES - 1;
    assert!(rt; copy.row(last).is_empty() && !copy.has_edge(last, 0) && !copy.has_vertex(last));
    copy.add_vertex(last);
    join(&rt, &mut copy, 0, last);
    expect(&rt, &copy, &[0, 1, 2, last], &[(0, 1), (1, 2), (0, last)]);
    let complement = path.complement(rt.alloc())?;
    expect(&rt, &complement, &[0, 1, 2], &[(0, 2)]);
    let mut ends = Names::none();
    ends.insert(0);
    ends.insert(2);
    ends.insert(9);
    let apart = path.induced(rt.alloc(), &ends)?;
    expect(&rt, &apart, &[0, 2], &[]);
    Ok(())
}

// Names, and their numbers of neighbours.
static DEGREES: [(u32, u32); 4] = [(5, 1), (64, 2), (200, 3), (NAMES - 1, 2)];

static NO_EDGES: [(u32, u32); 6] = [
    (5, 64),
    (64, 64),
    (200, 200),
    (NAMES, 64),
    (64, u32::MAX),
    (7, 8),
];

// Sees the rows of the graph on 5, 64, 200 and the last name where 200 is joined to the others, and
// 64 to the last.
fn expect_rows(rt: &impl Abort, g: &Graph) {
    for (v, degree) in &DEGREES {
        assert!(rt; g.has_vertex(*v));
        assert_eq!(rt; g.degree(*v), *degree, "degree of {v}");
    }
    for (u, v) in &NO_EDGES {
        assert!(rt; !g.has_edge(*u, *v), "no edge {u} {v}");
    }
    assert!(rt; g.has_vertex(64));
    assert!(rt; g.neighbours(64).count() == 2 && g.neighbours(64).has(200));
    assert!(rt; g.row(64).count() == 2 && g.row(7).is_empty());
}

// Sees which vertices of that graph come next.
fn expect_next(rt: &impl Abort, g: &Graph) {
    let last = NAMES - 1;
    assert_eq!(rt; g.vertices().count(), 4);
    assert_eq!(rt; g.next_vertex(6), Some(64));
    assert_eq!(rt; g.next_vertex(last), Some(last));
    assert_eq!(rt; g.next_vertex(NAMES), None);
}

#[test]
fn changes(rt: HostRuntime) -> Result<(), Fail> {
    let last = NAMES - 1;
    let mut g = graph_of(&rt, rt.alloc(), &[5, 64, 200, last], &[(64, last)])?;
    let mut others = Names::none();
    others.insert(5);
    others.insert(64);
    others.insert(last);
    star(&rt, &mut g, 200, &others);
    expect(
        &rt,
        &g,
        &[5, 64, 200, last],
        &[(64, last), (200, 5), (200, 64), (200, last)],
    );
    expect_rows(&rt, &g);
    expect_next(&rt, &g);
    part(&rt, &mut g, 64, 200);
    expect(
        &rt,
        &g,
        &[5, 64, 200, last],
        &[(64, last), (200, 5), (200, last)],
    );
    assert!(rt; g.has_vertex(last));
    g.remove_vertex(last);
    expect(&rt, &g, &[5, 64, 200], &[(200, 5)]);
    assert_eq!(rt; g.bound(), 201);
    g.clear();
    expect(&rt, &g, &[], &[]);
    assert_eq!(rt; g.bound(), 0);
    assert!(rt; !g.has_vertex(5) && g.row(200).is_empty());
    Ok(())
}

#[test]
fn rows_of_no_names(rt: HostRuntime) -> Result<(), Fail> {
    let rows = empty_rows::<WORDS>(rt.alloc(), 3)?;
    assert_eq!(rt; rows.len(), 3);
    for row in &rows {
        assert!(rt; row.is_empty());
    }
    Ok(())
}
