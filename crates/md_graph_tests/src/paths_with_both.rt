//! Induced paths on four vertices that hold two given vertices.
use md_graph::{Graph, GraphOf};
use md_modules::find_p4_with_both;
use std::process::Abort;
use std::test::Fail;

// Sees that the path with both, in either order, is this one, or that there is none.
fn expect(rt: &impl Abort, g: &Graph, u: u32, v: u32, want: Option<(u32, u32, u32, u32)>) {
    assert!(rt; u != v && g.has_vertex(u));
    assert!(rt; g.has_vertex(v));
    let found = find_p4_with_both(g, u, v).map(|p| (p.a, p.b, p.c, p.d));
    assert_eq!(rt; found, want, "{u} and {v}");
    let turned = find_p4_with_both(g, v, u).map(|p| (p.a, p.b, p.c, p.d));
    assert_eq!(rt; turned, want, "{v} and {u}");
}

static BULL: [(u32, u32); 5] = [(0, 1), (1, 2), (2, 3), (1, 4), (2, 4)];

static PATH_OF_FIVE: [(u32, u32); 4] = [(0, 1), (1, 2), (2, 3), (3, 4)];

static PAIRS: [(u32, u32); 6] = [(0, 1), (0, 2), (0, 3), (1, 2), (1, 3), (2, 3)];

#[test]
fn each_two_of_a_path(rt: HostRuntime) -> Result<(), Fail> {
    let path = Some((0, 1, 2, 3));
    let bull = Graph::from_edges(rt.alloc(), 5, &BULL)?.expect(&rt, "edges");
    for (u, v) in &PAIRS {
        expect(&rt, &bull, *u, *v, path);
    }
    for u in 0..4 {
        expect(&rt, &bull, u, 4, None);
    }
    let five = Graph::from_edges(rt.alloc(), 5, &PATH_OF_FIVE)?.expect(&rt, "edges");
    expect(&rt, &five, 0, 3, path);
    expect(&rt, &five, 1, 4, Some((1, 2, 3, 4)));
    expect(&rt, &five, 0, 4, None);
    let narrow = [(0, 1), (1, 2), (2, 3)];
    let narrow = GraphOf::<1>::from_edges(rt.alloc(), 4, &narrow)?.expect(&rt, "edges");
    assert!(rt; narrow.has_vertex(0) && narrow.has_vertex(3));
    assert!(rt; find_p4_with_both(&narrow, 0, 3).is_some());
    Ok(())
}
