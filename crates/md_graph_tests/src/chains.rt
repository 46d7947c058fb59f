//! Classes of arcs, the chains to their reverses, and lists of arcs.
use md_forcing::{Arc, Arcs, Chain, chain_to_reverse, close};
use md_graph::{GraphOf, Memory, WORDS};
use std::alloc::Global;
use std::process::Abort;
use std::test::Fail;

// Sees how many arcs 0>1 reaches, what the second of them is, and how long the list to 1>0 is:
// 0 where there is none.
fn expect<const W: usize>(
    rt: &impl Abort,
    alloc: Global,
    edges: &[(u32, u32)],
    arcs: u64,
    second: Arc,
    steps: u64,
) -> Result<(), Memory> {
    assert!(rt; 0 < W && W <= WORDS);
    let graph: GraphOf<W> = GraphOf::from_edges(alloc, 6, edges)?.expect(rt, "edges");
    assert!(rt; graph.has_edge(0, 1));
    let first = Arc { tail: 0, head: 1 };
    let class = close(alloc, &graph, first)?;
    assert_eq!(rt; class.len(), arcs);
    if arcs > 1 {
        assert_eq!(rt; class.get(1), second);
    }
    let found = chain_to_reverse(alloc, &graph, &class)?;
    expect_chain(rt, found, steps);
    Ok(())
}

// Sees that the list leads from 0>1 to 1>0 and is so long, or that there is none.
fn expect_chain(rt: &impl Abort, found: Option<Chain>, steps: u64) {
    match found {
        Some(chain) => {
            assert_eq!(rt; chain.len(), steps);
            assert!(rt; steps > 0);
            assert_eq!(rt; chain.get(0), Arc { tail: 0, head: 1 });
            assert_eq!(rt; chain.get(steps - 1), Arc { tail: 1, head: 0 });
        }
        None => assert_eq!(rt; steps, 0),
    }
}

static PATH: [(u32, u32); 2] = [(0, 1), (1, 2)];

static TRIANGLE: [(u32, u32); 3] = [(0, 1), (1, 2), (0, 2)];

static CYCLE: [(u32, u32); 5] = [(0, 1), (1, 2), (2, 3), (3, 4), (0, 4)];

static TAIL: [(u32, u32); 6] = [(0, 2), (2, 4), (4, 5), (3, 5), (0, 3), (0, 1)];

#[test]
fn classes_and_chains(rt: HostRuntime) -> Result<(), Fail> {
    let none = Arc { tail: 0, head: 0 };
    expect::<WORDS>(&rt, rt.alloc(), &PATH, 2, Arc { tail: 2, head: 1 }, 0)?;
    expect::<WORDS>(&rt, rt.alloc(), &TRIANGLE, 1, none, 0)?;
    expect::<WORDS>(&rt, rt.alloc(), &CYCLE, 10, Arc { tail: 0, head: 4 }, 6)?;
    expect::<WORDS>(&rt, rt.alloc(), &TAIL, 12, Arc { tail: 0, head: 2 }, 7)?;
    Ok(())
}

#[test]
fn classes_and_chains_over_few_words(rt: HostRuntime) -> Result<(), Fail> {
    expect::<1>(&rt, rt.alloc(), &PATH, 2, Arc { tail: 2, head: 1 }, 0)?;
    expect::<1>(&rt, rt.alloc(), &CYCLE, 10, Arc { tail: 0, head: 4 }, 6)?;
    expect::<16>(&rt, rt.alloc(), &PATH, 2, Arc { tail: 2, head: 1 }, 0)?;
    expect::<16>(&rt, rt.alloc(), &CYCLE, 10, Arc { tail: 0, head: 4 }, 6)?;
    Ok(())
}

#[test]
fn lists_of_arcs(rt: HostRuntime) -> Result<(), Fail> {
    let a = Arc { tail: 0, head: 1 };
    let b = Arc { tail: 2, head: 1 };
    let arcs = Arcs::from_list(vec![in rt.alloc(); a, b]?);
    assert_eq!(rt; arcs.len(), 2);
    assert_eq!(rt; arcs.get(1), b);
    assert!(rt; arcs.as_slice() == [a, b].as_slice());
    let chain = Chain::from_list(vec![in rt.alloc(); b, a]?);
    assert_eq!(rt; chain.len(), 2);
    assert_eq!(rt; chain.get(1), a);
    assert!(rt; chain.as_slice() == [b, a].as_slice());
    Ok(())
}
