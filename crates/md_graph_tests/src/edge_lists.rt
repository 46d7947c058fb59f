//! Graphs from lists of edges.
use md_graph::{Graph, Memory};
use std::alloc::Global;
use std::process::Abort;
use std::test::Fail;

// Sees how many edges the graph on four vertices has that the list makes, or that it makes
// none.
fn counts(
    rt: &impl Abort,
    alloc: Global,
    edges: &[(u32, u32)],
    count: Option<u32>,
) -> Result<(), Memory> {
    let made = Graph::from_edges(alloc, 4, edges)?;
    let found = made.as_ref().map(|graph| graph.edge_count());
    assert_eq!(rt; found, count);
    if let Some(graph) = made {
        assert_eq!(rt; graph.count(), 4);
        for (u, v) in edges {
            assert!(rt; graph.has_edge(*u, *v), "edge {u} {v}");
        }
    }
    Ok(())
}

#[test]
fn lists_make_graphs(rt: HostRuntime) -> Result<(), Fail> {
    let a = rt.alloc();
    counts(&rt, a, &[], Some(0))?;
    counts(&rt, a, &[(0, 1), (3, 1), (1, 0)], Some(2))?;
    counts(&rt, a, &[(0, 1), (2, 2)], None)?;
    counts(&rt, a, &[(0, 4), (0, 1)], None)?;
    counts(&rt, a, &[(4, 0)], None)?;
    Ok(())
}
