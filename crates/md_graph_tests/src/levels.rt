//! Levels of forcing classes.
use md_forcing::Arc;
use md_graph::{GraphOf, Memory};
use md_levels::levels_from;
use std::alloc::Global;
use std::process::Abort;
use std::test::Fail;

// Sees that the levels of 0>1 have so many arcs of the graph, and that the last has 1>0 alone.
fn expect(
    rt: &impl Abort,
    alloc: Global,
    edges: &[(u32, u32)],
    sizes: &[u32],
) -> Result<(), Memory> {
    let graph: GraphOf<1> = GraphOf::from_edges(alloc, 6, edges)?.expect(rt, "edges");
    assert!(rt; graph.has_edge(0, 1));
    let levels = levels_from(alloc, &graph, Arc { tail: 0, head: 1 })?;
    for k in 0..sizes.len() {
        let mut count = 0u32;
        for tail in 0..6 {
            for head in 0..6 {
                if levels.level_of(Arc { tail, head }) == Some(k as u64) {
                    count = count.wrapping_add(1);
                }
            }
        }
        assert_eq!(rt; count, sizes[k], "level {k}");
    }
    Ok(())
}

const CYCLE: [(u32, u32); 5] = [(0, 1), (1, 2), (2, 3), (3, 4), (0, 4)];

// Edges, and the sizes of the levels on them.
type Sizes<'a> = (&'a [(u32, u32)], &'a [u32]);

static SIZES: [Sizes<'_>; 3] = [
    (&CYCLE, &[1, 2, 2, 2, 2, 1, 0]),
    (&[(0, 1), (1, 2), (2, 3)], &[1, 1, 1, 0]),
    (&[(0, 1), (1, 2), (0, 2)], &[1, 0]),
];

#[test]
fn levels_of_cycles_and_paths(rt: HostRuntime) -> Result<(), Fail> {
    for (edges, sizes) in &SIZES {
        expect(&rt, rt.alloc(), *edges, *sizes)?;
    }
    let graph: GraphOf<1> = GraphOf::from_edges(rt.alloc(), 5, &CYCLE)?.expect(&rt, "edges");
    assert!(rt; graph.has_edge(0, 1));
    let levels = levels_from(rt.alloc(), &graph, Arc { tail: 0, head: 1 })?;
    assert_eq!(rt; levels.level_of(Arc { tail: 0, head: 1 }), Some(0));
    assert_eq!(rt; levels.level_of(Arc { tail: 1, head: 0 }), Some(5));
    assert_eq!(rt; levels.level_of(Arc { tail: 0, head: 2 }), None);
    Ok(())
}
