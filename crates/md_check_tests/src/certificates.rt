//! Orders, chains and orientations, and what is said of them.
use md_checker::{is_forcing_chain, is_least_edge_orientation, realise};
use md_forcing::{Arc, Arcs, Chain, Side};
use md_graph::{Graph, GraphOf, Memory, WORDS};
use md_report::Order;
use std::alloc::Global;
use std::process::Abort;
use std::test::Fail;

const PATH: [(u32, u32); 3] = [(0, 1), (1, 2), (2, 3)];

const CYCLE: [(u32, u32); 5] = [(0, 1), (1, 2), (2, 3), (3, 4), (0, 4)];

fn graph_of<const W: usize>(
    rt: &impl Abort,
    alloc: Global,
    n: u32,
    edges: &[(u32, u32)],
) -> Result<GraphOf<W>, Memory> {
    assert!(rt; W <= WORDS && n as usize <= 64 * W);
    Ok(GraphOf::from_edges(alloc, n, edges)?.expect(rt, "edges"))
}

pub(super) fn arcs_of(alloc: Global, pairs: &[(u32, u32)]) -> Result<Vec<Arc>, Memory> {
    let mut list = Vec::new(alloc);
    for (tail, head) in pairs {
        list.push(Arc {
            tail: *tail,
            head: *head,
        })?;
    }
    Ok(list)
}

// Sees whether two orders realise a path.
fn check_orders(
    rt: &impl Abort,
    alloc: Global,
    path: &Graph,
    first: &[u32],
    second: &[u32],
    want: bool,
) -> Result<(), Memory> {
    let first = Order::new(alloc, first)?;
    let second = Order::new(alloc, second)?;
    assert_eq!(rt; realise(alloc, path, &first, &second)?, want);
    Ok(())
}

static ORDERS: [(&[u32], &[u32], bool); 7] = [
    (&[0, 2, 1, 3], &[1, 0, 3, 2], true),
    (&[1, 0, 3, 2], &[0, 2, 1, 3], true),
    (&[0, 1, 2, 3], &[0, 1, 2, 3], false),
    (&[0, 2, 1, 3], &[2, 3, 0, 1], false),
    (&[0, 2, 1], &[1, 0, 3, 2], false),
    (&[0, 2, 1, 3, 3], &[1, 0, 3, 2], false),
    (&[0, 2, 1, 4], &[1, 0, 3, 2], false),
];

#[test]
fn orders(rt: HostRuntime) -> Result<(), Fail> {
    let path: Graph = graph_of(&rt, rt.alloc(), 4, &PATH)?;
    for (first, second, want) in &ORDERS {
        check_orders(&rt, rt.alloc(), &path, *first, *second, *want)?;
    }
    Ok(())
}

// Sees whether the arcs of these pairs are a forcing chain.
fn check_chain(
    rt: &impl Abort,
    alloc: Global,
    cycle: &Graph,
    side: Side,
    pairs: &[(u32, u32)],
    want: bool,
) -> Result<(), Memory> {
    let chain = Chain::from_list(arcs_of(alloc, pairs)?);
    assert_eq!(rt; is_forcing_chain(alloc, cycle, side, &chain)?, want);
    Ok(())
}

static CHAINS: [(&[(u32, u32)], Side, bool); 6] = [
    (
        &[(0, 1), (0, 4), (3, 4), (3, 2), (1, 2), (1, 0)],
        Side::Edges,
        true,
    ),
    (
        &[(0, 1), (0, 4), (3, 4), (3, 2), (1, 2), (1, 0)],
        Side::NonEdges,
        false,
    ),
    (
        &[(0, 4), (3, 4), (3, 2), (1, 2), (1, 0)],
        Side::Edges,
        false,
    ),
    (
        &[(0, 1), (0, 4), (3, 4), (3, 2), (1, 2)],
        Side::Edges,
        false,
    ),
    (
        &[(1, 2), (1, 0), (4, 0), (4, 3), (2, 3), (2, 1)],
        Side::Edges,
        false,
    ),
    (&[], Side::Edges, false),
];

#[test]
fn chains(rt: HostRuntime) -> Result<(), Fail> {
    let cycle: Graph = graph_of(&rt, rt.alloc(), 5, &CYCLE)?;
    for (pairs, side, want) in &CHAINS {
        check_chain(&rt, rt.alloc(), &cycle, *side, *pairs, *want)?;
    }
    Ok(())
}

// Sees whether the arcs of these pairs are the least-edge orientation of a graph.
fn check_arcs(
    rt: &impl Abort,
    alloc: Global,
    graph: &Graph,
    pairs: &[(u32, u32)],
    want: bool,
) -> Result<(), Memory> {
    let arcs = Arcs::from_list(arcs_of(alloc, pairs)?);
    assert_eq!(rt; is_least_edge_orientation(alloc, graph, &arcs)?, want);
    Ok(())
}

#[test]
fn orientations(rt: HostRuntime) -> Result<(), Fail> {
    let alloc = rt.alloc();
    let path: Graph = graph_of(&rt, alloc, 4, &PATH)?;
    check_arcs(&rt, alloc, &path, &[(0, 1), (2, 1), (2, 3)], true)?;
    check_arcs(&rt, alloc, &path, &[(1, 0), (1, 2), (3, 2)], false)?;
    check_arcs(&rt, alloc, &path, &[(0, 1), (2, 1)], false)?;
    check_arcs(&rt, alloc, &path, &[(2, 1), (0, 1), (2, 3)], false)?;
    let cycle: Graph = graph_of(&rt, alloc, 5, &CYCLE)?;
    let arcs = [(0, 1), (0, 4), (2, 1), (2, 3), (4, 3)];
    check_arcs(&rt, alloc, &cycle, &arcs, false)?;
    check_arcs(&rt, alloc, &cycle, &[], false)?;
    Ok(())
}

// Sees what is said of a path, whatever the width of its rows.
fn expect_path<const W: usize>(
    rt: &impl Abort,
    alloc: Global,
    path: &GraphOf<W>,
) -> Result<(), Memory> {
    let first = Order::new(alloc, &[0, 2, 1, 3])?;
    let second = Order::new(alloc, &[1, 0, 3, 2])?;
    assert!(rt; realise(alloc, path, &first, &second)?);
    assert!(rt; !realise(alloc, path, &first, &first)?);
    let arcs = Arcs::from_list(arcs_of(alloc, &[(0, 1), (2, 1), (2, 3)])?);
    assert!(rt; is_least_edge_orientation(alloc, path, &arcs)?);
    Ok(())
}

// Sees what is said of a cycle, whatever the width of its rows.
fn expect_cycle<const W: usize>(
    rt: &impl Abort,
    alloc: Global,
    cycle: &GraphOf<W>,
) -> Result<(), Memory> {
    let list = arcs_of(alloc, &[(0, 1), (0, 4), (3, 4), (3, 2), (1, 2), (1, 0)])?;
    let chain = Chain::from_list(list);
    assert!(rt; is_forcing_chain(alloc, cycle, Side::Edges, &chain)?);
    assert!(rt; !is_forcing_chain(alloc, cycle, Side::NonEdges, &chain)?);
    Ok(())
}

#[test]
fn certificates_over_few_words(rt: HostRuntime) -> Result<(), Fail> {
    let alloc = rt.alloc();
    let path: GraphOf<1> = graph_of(&rt, alloc, 4, &PATH)?;
    expect_path(&rt, alloc, &path)?;
    let path: GraphOf<16> = graph_of(&rt, alloc, 4, &PATH)?;
    expect_path(&rt, alloc, &path)?;
    let cycle: GraphOf<1> = graph_of(&rt, alloc, 5, &CYCLE)?;
    expect_cycle(&rt, alloc, &cycle)?;
    let cycle: GraphOf<16> = graph_of(&rt, alloc, 5, &CYCLE)?;
    expect_cycle(&rt, alloc, &cycle)?;
    Ok(())
}
