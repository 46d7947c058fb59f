//! Transitive orientations and forcing chains.
use md_forcing::{Arc, Arcs};
use md_graph::{Graph, GraphOf, Memory, WORDS};
use md_orient::{Verdict, orient};
use std::alloc::Global;
use std::process::Abort;
use std::test::Fail;

// Sees that these are the listed arcs, in this order.
fn expect_list(rt: &impl Abort, found: &[Arc], arcs: &[(u32, u32)]) {
    assert!(rt; found.len() == arcs.len());
    for i in 0..arcs.len() {
        let (tail, head) = arcs[i];
        assert_eq!(rt; found[i], Arc { tail, head });
    }
}

// Sees that these are the arcs of the orientation, in this order, or those of the chain.
fn expect<const W: usize>(
    rt: &impl Abort,
    alloc: Global,
    n: u32,
    edges: &[(u32, u32)],
    forced: bool,
    arcs: &[(u32, u32)],
) -> Result<(), Memory> {
    assert!(rt; W <= WORDS && n as usize <= 64 * W);
    let graph: GraphOf<W> = GraphOf::from_edges(alloc, n, edges)?.expect(rt, "edges");
    match orient(alloc, &graph)? {
        Verdict::Transitive(list) => {
            assert!(rt; !forced);
            expect_list(rt, list.as_slice(), arcs);
        }
        Verdict::Forced(chain) => {
            assert!(rt; forced);
            expect_list(rt, chain.as_slice(), arcs);
        }
    }
    Ok(())
}

// Whether a set of the ten pairs of the names below five has this pair.
fn has_pair(pairs: u32, u: u32, v: u32) -> bool {
    let low = u.min(v);
    let place = match u.max(v) {
        1 => low,
        2 => low.wrapping_add(1),
        3 => low.wrapping_add(3),
        4 => low.wrapping_add(6),
        _ => 31,
    };
    u != v && (pairs >> (place % 32)) & 1 == 1
}

// Whether the graph has this edge, and the choice directs it from `u` to `v`: upwards where it
// has the pair.
fn directs(edges: u32, choice: u32, u: u32, v: u32) -> bool {
    has_pair(edges, u, v) && has_pair(choice, u, v) == (u < v)
}

fn is_transitive(edges: u32, choice: u32) -> bool {
    for u in 0..5 {
        for v in 0..5 {
            for w in 0..5 {
                let on = directs(edges, choice, u, v) && directs(edges, choice, v, w);
                if on && !directs(edges, choice, u, w) {
                    return false;
                }
            }
        }
    }
    true
}

// Tries each choice of directions.
fn has_orientation(edges: u32) -> bool {
    for choice in 0..1024 {
        if choice & edges == choice && is_transitive(edges, choice) {
            return true;
        }
    }
    false
}

fn fill(rt: &impl Abort, graph: &mut Graph, edges: u32) {
    for v in 0..5 {
        assert!(rt; !graph.has_vertex(v));
        graph.add_vertex(v);
    }
    for u in 0..5 {
        for v in 0..u {
            if has_pair(edges, u, v) {
                assert!(rt; graph.has_vertex(u));
                assert!(rt; graph.has_vertex(v));
                assert!(rt; !graph.has_edge(u, v));
                graph.add_edge(u, v);
            }
        }
    }
}

fn has_arc(list: &Arcs, tail: u32, head: u32) -> bool {
    for i in 0..list.len() {
        if list.get(i) == (Arc { tail, head }) {
            return true;
        }
    }
    false
}

// Sees that the arcs are one of each edge, and transitive.
fn expect_orientation(rt: &impl Abort, edges: u32, list: &Arcs) {
    for u in 0..5 {
        for v in 0..5 {
            let here = has_arc(list, u, v);
            assert_eq!(rt;
                here != has_arc(list, v, u),
                has_pair(edges, u, v),
                "{edges} {u} {v}"
            );
            for w in 0..5 {
                assert!(rt;
                    !(here && has_arc(list, v, w)) || has_arc(list, u, w),
                    "{edges} {u} {v} {w}"
                );
            }
        }
    }
}

#[test]
fn all_graphs_on_five_names(rt: HostRuntime) -> Result<(), Fail> {
    let mut graph = Graph::new(rt.alloc())?;
    for edges in 0..1024 {
        graph.clear();
        fill(&rt, &mut graph, edges);
        let forced = match orient(rt.alloc(), &graph)? {
            Verdict::Transitive(list) => {
                expect_orientation(&rt, edges, &list);
                false
            }
            Verdict::Forced(_) => true,
        };
        assert_eq!(rt; forced, !has_orientation(edges), "{edges}");
    }
    Ok(())
}

static PATH: [(u32, u32); 3] = [(0, 1), (1, 2), (2, 3)];

static TRIANGLE: [(u32, u32); 3] = [(0, 1), (1, 2), (0, 2)];

static CYCLE: [(u32, u32); 5] = [(0, 1), (1, 2), (2, 3), (3, 4), (0, 4)];

static CHOSEN: [(u32, u32); 3] = [(0, 1), (2, 1), (2, 3)];

static ORDERED: [(u32, u32); 3] = [(0, 1), (0, 2), (1, 2)];

static CHAIN: [(u32, u32); 6] = [(0, 1), (0, 4), (3, 4), (3, 2), (1, 2), (1, 0)];

#[test]
fn orientations_and_chains(rt: HostRuntime) -> Result<(), Fail> {
    expect::<WORDS>(&rt, rt.alloc(), 4, &PATH, false, &CHOSEN)?;
    expect::<WORDS>(&rt, rt.alloc(), 3, &TRIANGLE, false, &ORDERED)?;
    expect::<WORDS>(&rt, rt.alloc(), 0, &[], false, &[])?;
    expect::<WORDS>(&rt, rt.alloc(), 5, &CYCLE, true, &CHAIN)?;
    expect::<1>(&rt, rt.alloc(), 4, &PATH, false, &CHOSEN)?;
    expect::<1>(&rt, rt.alloc(), 5, &CYCLE, true, &CHAIN)?;
    expect::<16>(&rt, rt.alloc(), 4, &PATH, false, &CHOSEN)?;
    expect::<16>(&rt, rt.alloc(), 5, &CYCLE, true, &CHAIN)?;
    Ok(())
}
