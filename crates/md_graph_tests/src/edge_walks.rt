//! The walk through the edges of a graph, and of its complement.
use md_comparability::{ClassOrChosen, orient_classes};
use md_forcing::{Arc, ArcSetOf, Side};
use md_graph::{GraphOf, Memory, WORDS};
use std::alloc::Global;
use std::process::Abort;
use std::test::Fail;

// Sees whether the walk stops, how many arcs its class has, or how many it chooses, and that
// these are the listed ones.
fn expect<const W: usize>(
    rt: &impl Abort,
    alloc: Global,
    n: u32,
    edges: &[(u32, u32)],
    side: Side,
    stopped: u64,
    arcs: &[(u32, u32)],
) -> Result<(), Memory> {
    assert!(rt; W <= WORDS && n as usize <= 64 * W);
    let graph: GraphOf<W> = GraphOf::from_edges(alloc, n, edges)?.expect(rt, "edges");
    match orient_classes(alloc, &graph, side)? {
        ClassOrChosen::Stopped(trail) => assert_eq!(rt; trail.len(), stopped),
        ClassOrChosen::Whole(chosen) => {
            assert_eq!(rt; stopped, 0);
            expect_chosen(rt, &chosen, arcs);
        }
    }
    Ok(())
}

// Sees that these arcs were chosen, and no others.
fn expect_chosen<const W: usize>(rt: &impl Abort, chosen: &ArcSetOf<W>, arcs: &[(u32, u32)]) {
    let mut count = 0u64;
    for tail in 0..chosen.size() {
        let here = chosen.heads(tail).count() as u64;
        assert!(rt; here < 10 && count < 10);
        count += here;
    }
    assert_eq!(rt; count, arcs.len() as u64);
    for (tail, head) in arcs {
        assert!(rt; *tail < chosen.size() && *head < chosen.size());
        assert!(rt;
            chosen.has(Arc {
                tail: *tail,
                head: *head
            })
        );
        assert!(rt; chosen.tails(*head).has(*tail));
    }
}

static PATH: [(u32, u32); 3] = [(0, 1), (1, 2), (2, 3)];

static TRIANGLE: [(u32, u32); 3] = [(0, 1), (1, 2), (0, 2)];

static CYCLE: [(u32, u32); 5] = [(0, 1), (1, 2), (2, 3), (3, 4), (0, 4)];

static CHOSEN: [(u32, u32); 3] = [(0, 1), (2, 1), (2, 3)];

static OTHERS: [(u32, u32); 3] = [(0, 2), (0, 3), (1, 3)];

static ORDERED: [(u32, u32); 3] = [(0, 1), (0, 2), (1, 2)];

#[test]
fn both_sides(rt: HostRuntime) -> Result<(), Fail> {
    expect::<WORDS>(&rt, rt.alloc(), 4, &PATH, Side::Edges, 0, &CHOSEN)?;
    expect::<WORDS>(&rt, rt.alloc(), 4, &PATH, Side::NonEdges, 0, &OTHERS)?;
    expect::<WORDS>(&rt, rt.alloc(), 3, &TRIANGLE, Side::Edges, 0, &ORDERED)?;
    expect::<WORDS>(&rt, rt.alloc(), 3, &TRIANGLE, Side::NonEdges, 0, &[])?;
    expect::<WORDS>(&rt, rt.alloc(), 5, &CYCLE, Side::Edges, 10, &[])?;
    expect::<WORDS>(&rt, rt.alloc(), 5, &CYCLE, Side::NonEdges, 10, &[])?;
    expect::<WORDS>(&rt, rt.alloc(), 0, &[], Side::Edges, 0, &[])?;
    Ok(())
}

#[test]
fn both_sides_over_few_words(rt: HostRuntime) -> Result<(), Fail> {
    expect::<1>(&rt, rt.alloc(), 4, &PATH, Side::Edges, 0, &CHOSEN)?;
    expect::<1>(&rt, rt.alloc(), 4, &PATH, Side::NonEdges, 0, &OTHERS)?;
    expect::<1>(&rt, rt.alloc(), 5, &CYCLE, Side::NonEdges, 10, &[])?;
    expect::<16>(&rt, rt.alloc(), 4, &PATH, Side::Edges, 0, &CHOSEN)?;
    expect::<16>(&rt, rt.alloc(), 4, &PATH, Side::NonEdges, 0, &OTHERS)?;
    expect::<16>(&rt, rt.alloc(), 5, &CYCLE, Side::Edges, 10, &[])?;
    Ok(())
}
