//! Where an induced P4 is found.
use crate::graphs::graph_of;
use md_cograph::any_p4;
use md_modules::P4;
use md_outline::OutlinePart;
use md_outline::OutlinePart::{Name, Node};
use md_tree::Kind;
use std::alloc::Global;
use std::process::Abort;
use std::test::Fail;

// Sees which induced P4 of a graph is found with this outline.
fn check(
    rt: &impl Abort,
    alloc: Global,
    n: u32,
    edges: &[(u32, u32)],
    parts: &[OutlinePart<Kind>],
    expected: Option<P4>,
) -> Result<(), Fail> {
    let graph = graph_of(rt, alloc, n, edges)?;
    assert_eq!(rt; any_p4(&graph, parts), expected);
    Ok(())
}

static PATH: [(u32, u32); 3] = [(0, 1), (1, 2), (2, 3)];

static STAR: [(u32, u32); 3] = [(0, 1), (0, 2), (0, 3)];

const FOUND: P4 = P4 {
    a: 0,
    b: 1,
    c: 2,
    d: 3,
};

static OWN: [OutlinePart<Kind>; 7] = [
    Node(Kind::Parallel, 2),
    Node(Kind::Prime, 4),
    Name(0),
    Name(1),
    Name(2),
    Name(3),
    Name(4),
];

static OTHER: [OutlinePart<Kind>; 3] = [Node(Kind::Prime, 2), Name(4), Name(5)];

// A path with the outline of its tree, the same path with an outline that says to look elsewhere,
// and a star.
#[test]
fn paths(rt: HostRuntime) -> Result<(), Fail> {
    check(&rt, rt.alloc(), 5, &PATH, &OWN, Some(FOUND))?;
    check(&rt, rt.alloc(), 5, &PATH, &OTHER, Some(FOUND))?;
    check(&rt, rt.alloc(), 4, &STAR, &[], None)
}
