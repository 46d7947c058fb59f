//! Trees of small graphs, each found from the definitions by going through all sets of names, and a
//! tree as deep as one can be.
mod by_closures;
mod nested;

use md_decompose::{decompose, decompose_within};
use md_graph::{Graph, Memory, NAMES, Names};
use md_tree::{graph_of, text};
use std::alloc::{AllocError, Global};
use std::process::Abort;
use std::test::Fail;

fn graph_with(
    rt: &impl Abort,
    alloc: Global,
    names: &[u32],
    edges: &[(u32, u32)],
) -> Result<Graph, Memory> {
    let mut graph = Graph::new(alloc)?;
    for v in names {
        assert!(rt; *v < NAMES && !graph.has_vertex(*v));
        graph.add_vertex(*v);
    }
    for (u, v) in edges {
        join(rt, &mut graph, *u, *v);
    }
    Ok(graph)
}

fn join(rt: &impl Abort, graph: &mut Graph, u: u32, v: u32) {
    assert!(rt; u != v);
    assert!(rt; graph.has_vertex(u));
    assert!(rt; graph.has_vertex(v));
    assert!(rt; !graph.has_edge(u, v));
    graph.add_edge(u, v);
}

fn is_same_set(left: &Names, right: &Names) -> bool {
    left.minus(right).is_empty() && right.minus(left).is_empty()
}

// Sees that the graph has the tree with this text, and that the tree denotes the graph.
fn check(rt: &impl Abort, alloc: Global, graph: &Graph, expected: &[u8]) -> Result<(), Memory> {
    let tree = decompose(alloc, graph)?;
    let written = text(alloc, &tree)?;
    assert_eq!(rt; written.as_slice(), expected);
    let mut again = Graph::new(alloc)?;
    let vertices = graph.vertices();
    graph_of(&tree, &mut again);
    assert!(rt; is_same_set(vertices, again.vertices()));
    for v in 0..NAMES {
        assert!(rt; is_same_set(graph.row(v), again.row(v)), "row {v}");
    }
    Ok(())
}

fn check_made(
    rt: &impl Abort,
    alloc: Global,
    names: &[u32],
    edges: &[(u32, u32)],
    expected: &[u8],
) -> Result<(), Memory> {
    let graph = graph_with(rt, alloc, names, edges)?;
    check(rt, alloc, &graph, expected)
}

#[test]
fn small_graphs(rt: HostRuntime) -> Result<(), Fail> {
    let a = rt.alloc();
    check_made(&rt, a, &[], &[], b"empty")?;
    check_made(&rt, a, &[7], &[], b"7")?;
    check_made(&rt, a, &[200, 64, 0], &[], b"P(0,64,200)")?;
    let triangle = [(0, 1), (0, 2), (1, 2)];
    check_made(&rt, a, &[0, 1, 2], &triangle, b"S(0,1,2)")?;
    let square = [(0, 1), (1, 2), (2, 3), (0, 3)];
    check_made(&rt, a, &[0, 1, 2, 3], &square, b"S(P(0,2),P(1,3))")?;
    Ok(())
}

#[test]
fn prime_graphs(rt: HostRuntime) -> Result<(), Fail> {
    let a = rt.alloc();
    let path = [(0, 1), (1, 2), (2, 3)];
    let text = b"R(0,1,2,3;0-1,1-2,2-3)";
    check_made(&rt, a, &[0, 1, 2, 3], &path, text)?;
    let other_names = [(7, 3), (3, 9), (9, 1)];
    let text = b"R(1,3,7,9;0-3,1-2,1-3)";
    check_made(&rt, a, &[1, 3, 7, 9], &other_names, text)?;
    let two_ends = [(0, 1), (1, 2), (2, 3), (1, 4)];
    let text = b"R(P(0,4),1,2,3;0-1,1-2,2-3)";
    check_made(&rt, a, &[0, 1, 2, 3, 4], &two_ends, text)?;
    let bull = [(0, 1), (1, 2), (2, 3), (1, 4), (2, 4)];
    let text = b"R(0,1,2,3,4;0-1,1-2,1-4,2-3,2-4)";
    check_made(&rt, a, &[0, 1, 2, 3, 4], &bull, text)?;
    let two_twins = [(3, 0), (4, 0), (0, 1), (0, 5), (1, 2), (5, 2)];
    let text = b"R(0,P(1,5),2,P(3,4);0-1,0-3,1-2)";
    check_made(&rt, a, &[0, 1, 2, 3, 4, 5], &two_twins, text)?;
    Ok(())
}

#[test]
fn prime_graphs_below(rt: HostRuntime) -> Result<(), Fail> {
    let a = rt.alloc();
    let names = [0, 1, 2, 3, 4, 5, 6, 7];
    let two_paths = [(0, 1), (1, 2), (2, 3), (4, 5), (5, 6)];
    let text = b"P(R(0,1,2,3;0-1,1-2,2-3),S(P(4,6),5),7)";
    check_made(&rt, a, &names, &two_paths, text)?;
    let path_in_place_of_an_end = [
        (0, 1),
        (1, 2),
        (2, 3),
        (0, 4),
        (1, 4),
        (2, 4),
        (3, 4),
        (4, 5),
        (4, 6),
        (5, 6),
        (5, 7),
        (6, 7),
    ];
    let text = b"R(R(0,1,2,3;0-1,1-2,2-3),4,S(5,6),7;0-1,1-2,2-3)";
    check_made(&rt, a, &names, &path_in_place_of_an_end, text)?;
    Ok(())
}

// Sees that the graph on the names has the tree with this text.
fn check_within(
    rt: &impl Abort,
    alloc: Global,
    graph: &Graph,
    names: &[u32],
    expected: &[u8],
) -> Result<(), Memory> {
    let mut listed = Names::none();
    for v in names {
        assert!(rt; *v < NAMES);
        listed.insert(*v);
    }
    let set = graph.vertices().and(&listed);
    let tree = decompose_within(alloc, graph, &set)?;
    let written = text(alloc, &tree)?;
    assert_eq!(rt; written.as_slice(), expected);
    Ok(())
}

static PARTS: [(&[u32], &[u8]); 7] = [
    (&[], b"empty"),
    (&[3], b"3"),
    (&[0, 4], b"P(0,4)"),
    (&[0, 2, 3], b"P(0,S(2,3))"),
    (&[0, 1, 2, 4], b"S(P(0,2,4),1)"),
    (&[1, 2, 3, 4], b"R(1,2,3,4;0-1,0-3,1-2)"),
    (&[0, 1, 2, 3, 4], b"R(P(0,4),1,2,3;0-1,1-2,2-3)"),
];

#[test]
fn parts_of_a_prime_graph(rt: HostRuntime) -> Result<(), Fail> {
    let a = rt.alloc();
    let edges = [(0, 1), (1, 2), (2, 3), (1, 4)];
    let graph = graph_with(&rt, a, &[0, 1, 2, 3, 4], &edges)?;
    for (names, expected) in &PARTS {
        check_within(&rt, a, &graph, *names, *expected)?;
    }
    Ok(())
}

#[test]
fn parts_of_a_cograph(rt: HostRuntime) -> Result<(), Fail> {
    let a = rt.alloc();
    let square = [(0, 1), (1, 2), (2, 3), (0, 3)];
    let graph = graph_with(&rt, a, &[0, 1, 2, 3], &square)?;
    check_within(&rt, a, &graph, &[0, 2], b"P(0,2)")?;
    check_within(&rt, a, &graph, &[1, 2], b"S(1,2)")?;
    check_within(&rt, a, &graph, &[0, 1, 3], b"S(0,P(1,3))")?;
    check_within(&rt, a, &graph, &[3, 2, 1, 0], b"S(P(0,2),P(1,3))")?;
    Ok(())
}

// Each vertex with an even name is adjacent to all lower ones, and each other vertex to none of
// them.
fn threshold(rt: &impl Abort, alloc: Global) -> Result<Graph, Memory> {
    let mut graph = Graph::new(alloc)?;
    for v in 0..NAMES {
        assert!(rt; !graph.has_vertex(v));
        graph.add_vertex(v);
        if v % 2 == 0 {
            join_lower(rt, &mut graph, v);
        }
    }
    Ok(graph)
}

fn join_lower(rt: &impl Abort, graph: &mut Graph, v: u32) {
    for u in 0..v {
        join(rt, graph, u, v);
    }
}

// The text of its tree: a node for each vertex but the lowest, with all lower vertices below it.
fn threshold_text(alloc: Global) -> Result<String, AllocError> {
    let mut text = String::new(alloc);
    for v in (1..NAMES).rev() {
        text.push_str(if v % 2 == 0 { "S(" } else { "P(" })?;
    }
    text.push('0')?;
    for v in 1..NAMES {
        let behind = format!(in alloc; ",{v})")?;
        text.push_str(behind.as_str())?;
    }
    Ok(text)
}

#[test]
fn deepest_tree(rt: HostRuntime) -> Result<(), Fail> {
    let graph = threshold(&rt, rt.alloc())?;
    let text = threshold_text(rt.alloc())?;
    check(&rt, rt.alloc(), &graph, text.as_bytes())?;
    Ok(())
}
