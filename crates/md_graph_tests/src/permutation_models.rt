//! Permutation models, and the chains that stand for none.
use md_comparability::Order;
use md_forcing::{Arc, Chain};
use md_graph::{Graph, GraphOf, Memory, NAMES, WORDS};
use md_orient::{PermVerdict, Verdict, model, orient};
use std::alloc::Global;
use std::process::Abort;
use std::test::Fail;

// The answer on the graph of these edges.
fn answer<const W: usize>(
    rt: &impl Abort,
    alloc: Global,
    n: u32,
    edges: &[(u32, u32)],
) -> Result<PermVerdict, Memory> {
    assert!(rt; W <= WORDS && n as usize <= 64 * W);
    let graph: GraphOf<W> = GraphOf::from_edges(alloc, n, edges)?.expect(rt, "edges");
    model(alloc, &graph)
}

// Sees that the answer is these orders.
fn expect_two(rt: &impl Abort, answer: PermVerdict, first: &[u32], second: &[u32]) {
    match answer {
        PermVerdict::Orders(a, b) => {
            assert!(rt; a.as_slice() == first && b.as_slice() == second);
        }
        PermVerdict::ForcedIn(_chain) => assert!(rt; false),
        PermVerdict::ForcedInComplement(_chain) => assert!(rt; false),
    }
}

// Sees that these are the arcs of a chain.
fn expect_list(rt: &impl Abort, chain: &Chain, arcs: &[(u32, u32)]) {
    assert!(rt; chain.len() == arcs.len() as u64);
    for i in 0..arcs.len() {
        let (tail, head) = arcs[i];
        assert_eq!(rt; chain.get(i as u64), Arc { tail, head });
    }
}

// Sees that the answer is a chain of these arcs, in the graph or in its complement.
fn expect_arcs(rt: &impl Abort, answer: PermVerdict, edges: bool, arcs: &[(u32, u32)]) {
    match answer {
        PermVerdict::Orders(_first, _second) => assert!(rt; false),
        PermVerdict::ForcedIn(chain) => {
            assert!(rt; edges);
            expect_list(rt, &chain, arcs);
        }
        PermVerdict::ForcedInComplement(chain) => {
            assert!(rt; !edges);
            expect_list(rt, &chain, arcs);
        }
    }
}

static PATH: [(u32, u32); 3] = [(0, 1), (1, 2), (2, 3)];

static FIVE: [(u32, u32); 5] = [(0, 1), (1, 2), (2, 3), (3, 4), (0, 4)];

static SIX: [(u32, u32); 6] = [(0, 1), (1, 2), (2, 3), (3, 4), (4, 5), (0, 5)];

static PRISM: [(u32, u32); 9] = [
    (0, 2),
    (0, 3),
    (0, 4),
    (1, 3),
    (1, 4),
    (1, 5),
    (2, 4),
    (2, 5),
    (3, 5),
];

static AROUND: [(u32, u32); 6] = [(0, 1), (0, 4), (3, 4), (3, 2), (1, 2), (1, 0)];

static BESIDE: [(u32, u32); 7] = [(0, 2), (0, 3), (0, 4), (1, 4), (1, 5), (2, 5), (2, 0)];

#[test]
fn orders_and_chains(rt: HostRuntime) -> Result<(), Fail> {
    let alloc = rt.alloc();
    expect_two(
        &rt,
        answer::<WORDS>(&rt, alloc, 4, &PATH)?,
        &[0, 2, 1, 3],
        &[1, 0, 3, 2],
    );
    expect_two(&rt, answer::<WORDS>(&rt, alloc, 0, &[])?, &[], &[]);
    expect_two(&rt, answer::<WORDS>(&rt, alloc, 1, &[])?, &[0], &[0]);
    expect_arcs(&rt, answer::<WORDS>(&rt, alloc, 5, &FIVE)?, true, &AROUND);
    expect_arcs(&rt, answer::<WORDS>(&rt, alloc, 6, &SIX)?, false, &BESIDE);
    expect_arcs(&rt, answer::<WORDS>(&rt, alloc, 6, &PRISM)?, true, &BESIDE);
    Ok(())
}

#[test]
fn orders_and_chains_over_few_words(rt: HostRuntime) -> Result<(), Fail> {
    let alloc = rt.alloc();
    let narrow = answer::<1>(&rt, alloc, 4, &PATH)?;
    expect_two(&rt, narrow, &[0, 2, 1, 3], &[1, 0, 3, 2]);
    expect_arcs(&rt, answer::<1>(&rt, alloc, 6, &SIX)?, false, &BESIDE);
    let wider = answer::<16>(&rt, alloc, 4, &PATH)?;
    expect_two(&rt, wider, &[0, 2, 1, 3], &[1, 0, 3, 2]);
    expect_arcs(&rt, answer::<16>(&rt, alloc, 6, &SIX)?, false, &BESIDE);
    Ok(())
}

// Puts the vertices below `n` and the edges of these pairs into an empty graph.
fn fill(rt: &impl Abort, graph: &mut Graph, n: u32, pairs: u32) {
    let mut left = pairs;
    for v in 0..n {
        assert!(rt; v < NAMES && !graph.has_vertex(v));
        graph.add_vertex(v);
        for u in 0..v {
            if left & 1 == 1 {
                assert!(rt; graph.has_vertex(u) && graph.has_vertex(v));
                assert!(rt; !graph.has_edge(v, u));
                graph.add_edge(v, u);
            }
            left = left >> 1;
        }
    }
}

// The place of a name in an order, or its length.
fn place(order: &Order, v: u32) -> u64 {
    for i in 0..order.len() {
        if order.get(i) == v {
            return i;
        }
    }
    order.len()
}

// Sees that the orders hold the names below `n`, and disagree exactly on the edges.
fn expect_orders(rt: &impl Abort, graph: &Graph, n: u32, first: &Order, second: &Order) {
    let count = n as u64;
    assert!(rt; first.len() == count && second.len() == count);
    for u in 0..n {
        assert!(rt; place(first, u) < count && place(second, u) < count);
        for v in 0..u {
            let ahead = place(first, u) < place(first, v);
            let ahead_too = place(second, u) < place(second, v);
            assert_eq!(rt; ahead != ahead_too, graph.has_edge(u, v), "{u} {v}");
        }
    }
}

// Whether two different names are adjacent, or, where `edges` is false, aren't.
fn are_joined(graph: &Graph, edges: bool, u: u32, v: u32) -> bool {
    u != v && graph.has_edge(u, v) == edges
}

fn forces(graph: &Graph, edges: bool, a: Arc, b: Arc) -> bool {
    let at_tail = a.tail == b.tail && a.head != b.head && !are_joined(graph, edges, a.head, b.head);
    let at_head = a.head == b.head && a.tail != b.tail && !are_joined(graph, edges, a.tail, b.tail);
    at_tail || at_head
}

// Sees that the arcs of one side lead from an arc to its reverse, each once.
fn expect_chain(rt: &impl Abort, graph: &Graph, edges: bool, chain: &Chain) {
    assert!(rt; chain.len() > 1);
    let first = chain.get(0);
    let mut last = first;
    assert!(rt; first.tail < first.head);
    for i in 0..chain.len() {
        let by = chain.get(i);
        assert!(rt; are_joined(graph, edges, by.tail, by.head));
        assert!(rt; i == 0 || forces(graph, edges, last, by));
        for j in 0..i {
            assert!(rt; chain.get(j) != by);
        }
        last = by;
    }
    assert!(rt; last.tail == first.head && last.head == first.tail);
}

fn is_forced(alloc: Global, graph: &Graph) -> Result<bool, Memory> {
    match orient(alloc, graph)? {
        Verdict::Transitive(_) => Ok(false),
        Verdict::Forced(_) => Ok(true),
    }
}

// Sees that the answer is one of the graph, and of the kind that the orientations of both sides
// ask for.
fn expect_answer(rt: &impl Abort, alloc: Global, graph: &Graph, n: u32) -> Result<(), Fail> {
    let forced = is_forced(alloc, graph)?;
    let complement = graph.complement(alloc)?;
    let complement_forced = is_forced(alloc, &complement)?;
    match model(alloc, graph)? {
        PermVerdict::Orders(first, second) => {
            assert!(rt; !forced && !complement_forced);
            expect_orders(rt, graph, n, &first, &second);
        }
        PermVerdict::ForcedIn(chain) => {
            assert!(rt; forced);
            expect_chain(rt, graph, true, &chain);
        }
        PermVerdict::ForcedInComplement(chain) => {
            assert!(rt; !forced && complement_forced);
            expect_chain(rt, graph, false, &chain);
        }
    }
    Ok(())
}

#[test]
fn all_graphs_on_up_to_five_names(rt: HostRuntime) -> Result<(), Fail> {
    let mut graph = Graph::new(rt.alloc())?;
    for (n, graphs) in [(0, 1), (1, 1), (2, 2), (3, 8), (4, 64), (5, 1024)] {
        for pairs in 0..graphs {
            graph.clear();
            fill(&rt, &mut graph, n, pairs);
            expect_answer(&rt, rt.alloc(), &graph, n)?;
        }
    }
    Ok(())
}
