//! Trees and texts of trees, right ones and altered ones.
use md_checker::{fits, is_text_by_rows};
use md_graph::{Graph, Memory, NAMES, WORDS};
use md_tree::{Kind, Pair, read_tree};
use std::alloc::Global;
use std::process::Abort;
use std::test::Fail;

const PATH: [(u32, u32); 3] = [(0, 1), (1, 2), (2, 3)];

// The path on four names, with a twin of its first end.
const TWINS: [(u32, u32); 4] = [(0, 1), (1, 2), (1, 4), (2, 3)];

const CYCLE: [(u32, u32); 5] = [(0, 1), (1, 2), (2, 3), (3, 4), (0, 4)];

fn check_fit(
    rt: &impl Abort,
    alloc: Global,
    graph: (u32, &[(u32, u32)]),
    text: &[u8],
    want: bool,
) -> Result<(), Memory> {
    let (n, edges) = graph;
    assert!(rt; n <= NAMES);
    let graph = Graph::from_edges(alloc, n, edges)?.expect(rt, "edges");
    let Ok(tree) = read_tree(alloc, text) else {
        panic!(rt; "not read");
    };
    assert_eq!(rt; fits(alloc, &graph, &tree)?, want);
    Ok(())
}

static TREES: [(u32, &[(u32, u32)], &[u8], bool); 17] = [
    (0, &[], b"empty", true),
    (1, &[], b"empty", false),
    (1, &[], b"0", true),
    (1, &[], b"1", false),
    (2, &[], b"0", false),
    (2, &[(0, 1)], b"S(0,1)", true),
    (2, &[], b"S(0,1)", false),
    (2, &[(0, 1)], b"P(0,1)", false),
    (3, &[(1, 2)], b"P(0,S(1,2))", true),
    (3, &[(0, 1)], b"P(0,S(1,2))", false),
    (3, &[(0, 1), (1, 2)], b"P(0,S(1,2))", false),
    (4, &PATH, b"R(0,1,2,3;0-1,1-2,2-3)", true),
    (4, &PATH, b"R(0,1,2,3;0-1,1-2)", false),
    (5, &TWINS, b"R(P(0,4),1,2,3;0-1,1-2,2-3)", true),
    // The twins are a module that this tree leaves out.
    (5, &TWINS, b"R(0,1,2,3,4;0-1,1-2,1-4,2-3)", false),
    (5, &CYCLE, b"R(0,1,2,3,4;0-1,0-4,1-2,2-3,3-4)", true),
    (5, &CYCLE, b"R(0,1,2,3;0-1,1-2,2-3)", false),
];

#[test]
fn trees(rt: HostRuntime) -> Result<(), Fail> {
    let alloc = rt.alloc();
    for (n, edges, text, want) in &TREES {
        check_fit(&rt, alloc, (*n, *edges), *text, *want)?;
    }
    Ok(())
}

// A path whose ends are the last two names that are left after nine.
const LONG: [(u32, u32); 10] = [
    (0, 1),
    (1, 2),
    (2, 3),
    (3, 4),
    (4, 5),
    (5, 6),
    (6, 7),
    (7, 8),
    (8, 9),
    (9, 10),
];

fn check_text(
    rt: &impl Abort,
    alloc: Global,
    graph: (u32, &[(u32, u32)]),
    text: &[u8],
    want: bool,
) -> Result<(), Memory> {
    let (n, edges) = graph;
    assert!(rt; n <= NAMES);
    let graph = Graph::from_edges(alloc, n, edges)?.expect(rt, "edges");
    let fit = is_text_by_rows::<Kind, Pair, Graph, WORDS>(alloc, &graph, text)?;
    assert_eq!(rt; fit, want);
    Ok(())
}

static TEXTS: [(u32, &[(u32, u32)], &[u8], bool); 22] = [
    (0, &[], b"empty", false),
    (1, &[], b"0", true),
    (1, &[], b"1", false),
    (1, &[], b"00", false),
    (2, &[(0, 1)], b"S(0,1)", true),
    (2, &[(0, 1)], b"S(0,1", false),
    (2, &[(0, 1)], b"S(0,1))", false),
    (2, &[(0, 1)], b"S(1,0)", false),
    (2, &[(0, 1)], b"P(0,1)", false),
    (3, &[(1, 2)], b"P(0,S(1,2))", true),
    (3, &[], b"P(0,P(1,2))", false),
    (3, &[(0, 1), (1, 2)], b"S(P(0,2),1)", true),
    (4, &PATH, b"R(0,1,2,3;0-1,1-2,2-3)", true),
    (4, &PATH, b"R(0,1,2,3;0-1,1-2)", false),
    (4, &PATH, b"R(0,1,2,3;0-1,1-2,2-3,2-3)", false),
    (4, &PATH, b"R(0,1,2,3;0-1,1+2,2-3)", false),
    (4, &PATH, b"R(0,1,2,3,0-1,1-2,2-3)", false),
    (5, &TWINS, b"R(P(0,4),1,2,3;0-1,1-2,2-3)", true),
    // The twins are a module that this tree leaves out.
    (5, &TWINS, b"R(0,1,2,3,4;0-1,1-2,1-4,2-3)", false),
    (6, &TWINS, b"P(R(P(0,4),1,2,3;0-1,1-2,2-3),5)", true),
    (
        11,
        &LONG,
        b"R(0,1,2,3,4,5,6,7,8,9,10;0-1,1-2,2-3,3-4,4-5,5-6,6-7,7-8,8-9,9-10)",
        true,
    ),
    (
        11,
        &LONG,
        b"R(0,1,2,3,4,5,6,7,8,9,10;0-1,1-2,2-3,3-4,4-5,5-6,6-7,7-8,8-9,9-1)",
        false,
    ),
];

#[test]
fn texts(rt: HostRuntime) -> Result<(), Fail> {
    let alloc = rt.alloc();
    for (n, edges, text, want) in &TEXTS {
        check_text(&rt, alloc, (*n, *edges), *text, *want)?;
    }
    Ok(())
}
