//! Trees of small directed graphs, each found from the definitions by going through all sets of
//! names.
use md_ddecompose::decompose_directed;
use md_digraph::{DIRECTED_NAMES, DigraphOf};
use md_dtree::text_directed;
use md_graph::Memory;
use std::alloc::Global;
use std::process::Abort;
use std::test::Fail;

// The directed graph on the names below `count` with these arcs.
fn digraph_of<const W: usize>(
    rt: &impl Abort,
    alloc: Global,
    count: u32,
    arcs: &[(u32, u32)],
) -> Result<DigraphOf<W>, Memory> {
    assert!(rt; 0 < W && W <= 64);
    let mut graph = DigraphOf::new(alloc)?;
    for v in 0..count {
        assert!(rt; v < 64 && !graph.has_vertex(v));
        graph.add_vertex(v);
    }
    for (u, v) in arcs {
        lead(rt, &mut graph, *u, *v);
    }
    Ok(graph)
}

fn lead<const W: usize>(rt: &impl Abort, graph: &mut DigraphOf<W>, u: u32, v: u32) {
    assert!(rt; u != v);
    assert!(rt; graph.has_vertex(u));
    assert!(rt; graph.has_vertex(v));
    assert!(rt; !graph.has_arc(u, v));
    graph.add_arc(u, v);
}

// Sees that the directed graph has the tree with this text.
fn check(
    rt: &impl Abort,
    alloc: Global,
    count: u32,
    arcs: &[(u32, u32)],
    expected: &[u8],
) -> Result<(), Memory> {
    let small: DigraphOf<1> = digraph_of(rt, alloc, count, arcs)?;
    let tree = decompose_directed(alloc, &small)?;
    let written = text_directed(alloc, &tree)?;
    assert_eq!(rt; written.as_slice(), expected);
    let large: DigraphOf<3> = digraph_of(rt, alloc, count, arcs)?;
    let tree = decompose_directed(alloc, &large)?;
    let written = text_directed(alloc, &tree)?;
    assert_eq!(rt; written.as_slice(), expected);
    Ok(())
}

static TREES: [(u32, &[(u32, u32)], &[u8]); 13] = [
    (0, &[], b"empty"),
    (1, &[], b"0"),
    (2, &[], b"P(0,1)"),
    (2, &[(0, 1)], b"O(0,1)"),
    (2, &[(0, 1), (1, 0)], b"S(0,1)"),
    (3, &[(0, 1), (1, 2)], b"R(0,1,2;0>1,1>2)"),
    (3, &[(0, 1), (1, 2), (2, 0)], b"R(0,1,2;0>1,1>2,2>0)"),
    (3, &[(1, 0), (2, 0), (2, 1)], b"O(2,1,0)"),
    (3, &[(1, 0)], b"P(O(1,0),2)"),
    (
        4,
        &[(0, 1), (1, 0), (2, 0), (2, 1), (3, 0), (3, 1)],
        b"O(P(2,3),S(0,1))",
    ),
    (
        4,
        &[(0, 2), (1, 0), (1, 2), (2, 3)],
        b"R(O(1,0),2,3;0>1,1>2)",
    ),
    (
        4,
        &[(0, 1), (1, 0), (1, 2), (2, 1), (2, 3), (3, 2)],
        b"R(0,1,2,3;0>1,1>0,1>2,2>1,2>3,3>2)",
    ),
    (
        5,
        &[(0, 2), (0, 4), (3, 1), (3, 4)],
        b"R(0,1,2,3,4;0>2,0>4,3>1,3>4)",
    ),
];

#[test]
fn trees(rt: HostRuntime) -> Result<(), Fail> {
    for (count, arcs, text) in &TREES {
        check(&rt, rt.alloc(), *count, *arcs, *text)?;
    }
    Ok(())
}

#[test]
fn larger_trees(rt: HostRuntime) -> Result<(), Fail> {
    let mut order = Vec::new(rt.alloc());
    for u in 0..6 {
        for v in 0..u {
            order.push((u, v))?;
        }
    }
    check(&rt, rt.alloc(), 6, &order, b"O(5,4,3,2,1,0)")?;
    check(
        &rt,
        rt.alloc(),
        5,
        &[
            (0, 2),
            (0, 4),
            (1, 0),
            (1, 2),
            (1, 4),
            (2, 3),
            (2, 4),
            (3, 0),
            (3, 1),
            (3, 4),
            (4, 0),
            (4, 1),
            (4, 2),
            (4, 3),
        ],
        b"S(R(O(1,0),2,3;0>1,1>2,2>0),4)",
    )?;
    check(
        &rt,
        rt.alloc(),
        5,
        &[
            (0, 1),
            (0, 3),
            (1, 2),
            (1, 3),
            (2, 0),
            (2, 3),
            (4, 0),
            (4, 1),
            (4, 2),
            (4, 3),
        ],
        b"O(4,R(0,1,2;0>1,1>2,2>0),3)",
    )?;
    check(
        &rt,
        rt.alloc(),
        5,
        &[
            (0, 1),
            (0, 2),
            (1, 2),
            (1, 3),
            (2, 3),
            (2, 4),
            (3, 0),
            (3, 4),
            (4, 0),
            (4, 1),
        ],
        b"R(0,1,2,3,4;0>1,0>2,1>2,1>3,2>3,2>4,3>0,3>4,4>0,4>1)",
    )?;
    Ok(())
}

// Sees that the four directed graphs on three names whose arcs are the bits of the numbers from
// `first` on have the trees with these texts.
fn check_four(rt: &impl Abort, alloc: Global, first: u32, expected: &[u8]) -> Result<(), Memory> {
    let mut written = Vec::new(alloc);
    for bits in first..first.saturating_add(4) {
        let graph = of_bits(rt, alloc, bits)?;
        let tree = decompose_directed(alloc, &graph)?;
        let text = text_directed(alloc, &tree)?;
        written.extend_from_slice(text.as_slice())?;
        written.push(b' ')?;
    }
    assert_eq!(rt; written.as_slice(), expected);
    Ok(())
}

// The directed graph on three names whose arcs, in order, are the bits of a number.
fn of_bits(rt: &impl Abort, alloc: Global, bits: u32) -> Result<DigraphOf<1>, Memory> {
    let mut graph = digraph_of(rt, alloc, 3, &[])?;
    let mut left = bits;
    for (u, v) in [(0, 1), (0, 2), (1, 0), (1, 2), (2, 0), (2, 1)] {
        if left % 2 == 1 {
            lead(rt, &mut graph, u, v);
        }
        left /= 2;
    }
    Ok(graph)
}

// The trees of all of them, four in a row.
static OF_THREE: [&[u8]; 16] = [
    b"P(0,1,2) P(O(0,1),2) P(O(0,2),1) O(0,P(1,2)) ",
    b"P(O(1,0),2) P(S(0,1),2) R(0,1,2;0>2,1>0) R(0,1,2;0>1,0>2,1>0) ",
    b"P(0,O(1,2)) R(0,1,2;0>1,1>2) O(P(0,1),2) O(0,1,2) ",
    b"O(1,P(0,2)) R(0,1,2;0>1,1>0,1>2) O(1,0,2) O(S(0,1),2) ",
    b"P(O(2,0),1) R(0,1,2;0>1,2>0) P(S(0,2),1) R(0,1,2;0>1,0>2,2>0) ",
    b"O(P(1,2),0) R(0,1,2;0>1,1>0,2>0) R(0,1,2;0>2,1>0,2>0) S(0,P(1,2)) ",
    b"R(0,1,2;1>2,2>0) R(0,1,2;0>1,1>2,2>0) R(0,1,2;0>2,1>2,2>0) R(0,1,2;0>1,0>2,1>2,2>0) ",
    b"O(1,2,0) R(0,1,2;0>1,1>0,1>2,2>0) O(1,S(0,2)) S(0,O(1,2)) ",
    b"P(0,O(2,1)) O(P(0,2),1) R(0,1,2;0>2,2>1) O(0,2,1) ",
    b"R(0,1,2;1>0,2>1) R(0,1,2;0>1,1>0,2>1) R(0,1,2;0>2,1>0,2>1) R(0,1,2;0>1,0>2,1>0,2>1) ",
    b"P(0,S(1,2)) R(0,1,2;0>1,1>2,2>1) R(0,1,2;0>2,1>2,2>1) O(0,S(1,2)) ",
    b"R(0,1,2;1>0,1>2,2>1) S(P(0,2),1) R(0,1,2;0>2,1>0,1>2,2>1) S(O(0,2),1) ",
    b"O(2,P(0,1)) O(2,0,1) R(0,1,2;0>2,2>0,2>1) O(S(0,2),1) ",
    b"O(2,1,0) O(2,S(0,1)) R(0,1,2;0>2,1>0,2>0,2>1) S(0,O(2,1)) ",
    b"R(0,1,2;1>2,2>0,2>1) R(0,1,2;0>1,1>2,2>0,2>1) S(P(0,1),2) S(O(0,1),2) ",
    b"O(S(1,2),0) S(O(2,0),1) S(O(1,0),2) S(0,1,2) ",
];

#[test]
fn three_names(rt: HostRuntime) -> Result<(), Fail> {
    let mut first = 0;
    for row in &OF_THREE {
        check_four(&rt, rt.alloc(), first, *row)?;
        first = first.saturating_add(4);
    }
    Ok(())
}
