//! sparse6 lines. Where nothing else is said, the lines are what nauty writes for these graphs.
use crate::graph6_lines::{Wanted, all_refuse, all_spell};
use md_graph::{Graph, GraphOf, NAMES};
use md_graph6::{G6Fault, G6Kind, Lines, scan};
use std::test::Fail;

static WRITTEN: [(&[u8], &[Wanted]); 11] = [
    (b":?\n", &[(0, &[])]),
    (b":@\n", &[(1, &[])]),
    (b":A\n", &[(2, &[])]),
    (b":An\n", &[(2, &[(0, 1)])]),
    (b":Bo\n", &[(3, &[(0, 2)])]),
    (b":Bf\n", &[(3, &[(0, 1)])]),
    (b":Cd\n", &[(4, &[(0, 1), (1, 2)])]),
    (b":Cf\n", &[(4, &[(0, 1)])]),
    (b":Cy\n", &[(4, &[(2, 3)])]),
    (b":CwN\n", &[(4, &[(0, 3), (1, 3)])]),
    (b":Fa@x^\n", &[(7, &[(0, 1), (0, 2), (1, 2), (5, 6)])]),
];

#[test]
fn sparse_lines_spell(rt: HostRuntime) -> Result<(), Fail> {
    let mut graph = Graph::new(rt.alloc())?;
    all_spell(&rt, &mut graph, &WRITTEN);
    Ok(())
}

// Of 8, 16 and 64 vertices, with the last ones isolated and not: there the padding is special.
static POWERS: [(&[u8], &[Wanted]); 11] = [
    (b":GwF\n", &[(8, &[(0, 6)])]),
    (b":G{N\n", &[(8, &[(0, 7)])]),
    (b":GxV\n", &[(8, &[(5, 6)])]),
    (b":Gba\n", &[(8, &[(0, 1), (2, 6)])]),
    (b":O{B\n", &[(16, &[(0, 14)])]),
    (b":O}B\n", &[(16, &[(0, 15)])]),
    (b":OmNr^\n", &[(16, &[(3, 7), (13, 14)])]),
    (b":~?@?\n", &[(64, &[])]),
    (b":~?@?~?N\n", &[(64, &[(0, 62)])]),
    (b":~?@?~_N\n", &[(64, &[(0, 63)])]),
    (b":~?@?`?^rv\n", &[(64, &[(1, 2), (61, 62)])]),
];

#[test]
fn powers_of_two(rt: HostRuntime) -> Result<(), Fail> {
    let mut graph = Graph::new(rt.alloc())?;
    all_spell(&rt, &mut graph, &POWERS);
    Ok(())
}

// Either header stands before lines of both formats.
static MIXED: [(&[u8], &[Wanted]); 3] = [
    (b">>sparse6<<", &[]),
    (
        b">>sparse6<<:An\n:A\nA_\n",
        &[(2, &[(0, 1)]), (2, &[]), (2, &[(0, 1)])],
    ),
    (
        b">>graph6<<:An\r\n\r\nA?\r\n:Bo",
        &[(2, &[(0, 1)]), (2, &[]), (3, &[(0, 2)])],
    ),
];

static MIXED_HEADERS: [(&[u8], G6Kind, u64); 4] = [
    (b">>sparse6<<>>graph6<<A_\n", G6Kind::BadByte, 1),
    (b">>graph6<<>>sparse6<<:An\n", G6Kind::BadByte, 1),
    (b">>sparse6<<>>sparse6<<:An\n", G6Kind::BadByte, 1),
    (b">>sparse6<:An\n", G6Kind::BadByte, 1),
];

#[test]
fn files_mix_lines(rt: HostRuntime) -> Result<(), Fail> {
    let mut graph = Graph::new(rt.alloc())?;
    all_spell(&rt, &mut graph, &MIXED);
    all_refuse(&rt, &MIXED_HEADERS);
    Ok(())
}

// What nauty doesn't write: the pairs were taken from the bits by hand.
static ODD: [(&[u8], &[Wanted]); 7] = [
    // (1, 0), (0, 0), (1, 0): the edge 0-1 twice, and an edge with an end of 2
    (b":Aa\n", &[(2, &[(0, 1)])]),
    // (1, 0), and two bits of a pair that would be an edge
    (b":Ga\n", &[(8, &[(0, 1)])]),
    // (1, 3), (0, 0): an edge with an end of 3
    (b":Bw\n", &[(3, &[])]),
    // (1, 3), (0, 3): its ends are equal, and it is left out
    (b":Bz\n", &[(3, &[])]),
    // six of seven bits of a pair
    (b":~?@?~\n", &[(64, &[])]),
    // of at most one vertex, whatever stands behind
    (b":?~~\n", &[(0, &[])]),
    (b":@?N~\n", &[(1, &[])]),
];

#[test]
fn odd_lines_spell(rt: HostRuntime) -> Result<(), Fail> {
    let mut graph = Graph::new(rt.alloc())?;
    all_spell(&rt, &mut graph, &ODD);
    Ok(())
}

static REFUSED: [(&[u8], G6Kind, u64); 13] = [
    (b":\n", G6Kind::Truncated, 1),
    (b":AN\n", G6Kind::Loop, 1),
    (b":An\n\nA_\n:A~\n", G6Kind::Loop, 4),
    (b":~?\n", G6Kind::Truncated, 1),
    (b":~~?\n", G6Kind::Truncated, 1),
    (b":~??}\n", G6Kind::BadSize, 1),
    (b":~~??????\n", G6Kind::BadSize, 1),
    (b":~C?@\n", G6Kind::TooManyVertices, 1),
    (b":~~~~~~~~\n", G6Kind::TooManyVertices, 1),
    (b":~C?@!\n", G6Kind::BadByte, 1),
    (b":!\n", G6Kind::BadByte, 1),
    (b"::An\n", G6Kind::BadByte, 1),
    (b":An\r\r\n", G6Kind::BadByte, 1),
];

#[test]
fn sparse_faults_are_named(rt: HostRuntime) {
    all_refuse(&rt, &REFUSED);
}

// A limit of the number of vertices comes before a loop.
#[test]
fn sparse_limits(rt: HostRuntime) {
    let many = G6Fault {
        kind: G6Kind::TooManyVertices,
        line: 1,
    };
    assert_eq!(&rt; scan(b":~?@?\n", 64), Ok(1));
    assert_eq!(&rt; scan(b":~?@?\n", 63), Err(many));
    assert_eq!(&rt; scan(b":AN\n", 1), Err(many));
    assert_eq!(&rt; scan(b":~C??\n", NAMES), Ok(1));
}

#[test]
fn sparse_lines_come_into_narrow_rows(rt: HostRuntime) -> Result<(), Fail> {
    let bytes = b"\n:GxV\n:~?@?~_N\n";
    let Ok(_) = scan(bytes, NAMES) else {
        panic!(&rt; "a fault");
    };
    let mut graph: GraphOf<1> = GraphOf::new(rt.alloc())?;
    let mut lines = Lines::new(bytes);
    assert_eq!(&rt; lines.next_bound(), 8);
    assert!(&rt; lines.take_first(&mut graph));
    assert!(&rt; graph.has_edge(5, 6));
    graph.clear();
    assert_eq!(&rt; lines.next_bound(), 64);
    assert!(&rt; lines.take_first(&mut graph));
    assert!(&rt; graph.has_edge(0, 63));
    assert_eq!(&rt; lines.next_bound(), 0);
    Ok(())
}
