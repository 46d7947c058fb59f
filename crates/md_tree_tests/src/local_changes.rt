//! The trees of parts of small graphs, copies of them and of a deep tree, and the trees of graphs
//! after edits of edges.
ghost use Rattle.std.specs.Prelude.{◌≡◌, ◌≢◌, ◌<◌};
ghost use Rattle.md_graph.specs.Sets.{Has};
ghost use Rattle.md_local.specs.Edits.{IsEdited};

use md_decompose::decompose_within;
use md_graph::{GraphOf, Memory, Set, Steps};
use md_local::{copy_tree, decompose_part, rebuild};
use md_tree::{Tree, read_tree, text};
use std::alloc::{AllocError, Global};
use std::marker::Brand;
use std::process::Abort;
use std::sync::ledger::{Blank, Ledger};
use std::test::Fail;

// How many vertices the deep tree has: its nodes are nested one less deep.
const DEEP: u32 = 4096;

fn text_is(
    rt: &impl Abort,
    alloc: Global,
    tree: &Option<Tree>,
    expected: &[u8],
) -> Result<(), Memory> {
    let written = text(alloc, tree)?;
    assert_eq!(rt; written.as_slice(), expected);
    Ok(())
}

// Sees that the graph on the names has the tree with this text, and that a copy of it has it too.
fn part_is<L: Ledger>(
    rt: &impl Abort,
    alloc: Global,
    graph: &GraphOf<1>,
    names: &[u32],
    expected: &[u8],
    blank: Blank,
) -> Result<(), Memory>
    requires name { blank.name ≡ L.name }
    requires parts { blank.parts ≡ L.parts }
    requires some { 0 < blank.parts }
{
    let mut listed = Set::none();
    for v in names {
        assert!(rt; *v < 64);
        listed.insert(*v);
    }
    let set = graph.vertices().and(&listed);
    let mut work = Steps::<L>::new(blank);
    let tree = decompose_part(alloc, graph, &set, &mut work)?;
    text_is(rt, alloc, &tree, expected)?;
    let Some(tree) = tree else {
        return Ok(());
    };
    let copy = copy_tree(alloc, &tree)?;
    text_is(rt, alloc, &Some(copy), expected)
}

static PARTS: [(&[u32], &[u8]); 6] = [
    (&[], b"empty"),
    (&[3], b"3"),
    (&[0, 4], b"P(0,4)"),
    (&[0, 2, 3], b"P(0,S(2,3))"),
    (&[1, 2, 3, 4], b"R(1,2,3,4;0-1,0-3,1-2)"),
    (&[0, 1, 2, 3, 4], b"R(P(0,4),1,2,3;0-1,1-2,2-3)"),
];

#[test]
fn parts_and_copies(rt: HostRuntime) -> Result<(), Fail> {
    let a = rt.alloc();
    let edges = [(0, 1), (1, 2), (2, 3), (1, 4)];
    let graph = GraphOf::<1>::from_edges(a, 5, &edges)?.expect(&rt, "edges");
    for (names, expected) in &PARTS {
        part_is::<Brand>(&rt, a, &graph, *names, *expected, Blank::new(1))?;
    }
    Ok(())
}

// A tree with a node for each vertex but the lowest, with all lower vertices below it.
fn deep_text(alloc: Global) -> Result<String, AllocError> {
    let mut text = String::new(alloc);
    for v in (1..DEEP).rev() {
        text.push_str(if v % 2 == 0 { "S(" } else { "P(" })?;
    }
    text.push('0')?;
    for v in 1..DEEP {
        let behind = format!(in alloc; ",{v})")?;
        text.push_str(behind.as_str())?;
    }
    Ok(text)
}

#[test]
fn copy_of_a_deep_tree(rt: HostRuntime) -> Result<(), Fail> {
    let a = rt.alloc();
    let deep = deep_text(a)?;
    let Ok(Some(tree)) = read_tree(a, deep.as_bytes()) else {
        panic!(&rt; "no tree");
    };
    let copy = copy_tree(a, &tree)?;
    text_is(&rt, a, &Some(copy), deep.as_bytes())?;
    Ok(())
}

// The edge between two vertices goes where it is there, and else comes.
fn toggle(graph: &mut GraphOf<1>, u: u32, v: u32)
    requires differ { u ≢ v }
    requires left { Has graph.old.vertices u }
    requires right { Has graph.old.vertices v }
    ensures { IsEdited graph.old graph.new u v }
{
    let _vertices = graph.vertices();
    if graph.has_edge(u, v) {
        graph.remove_edge(u, v);
        return;
    }
    graph.add_edge(u, v);
}

// Sees that the tree is rebuilt to that of the graph where the edge between u and v comes or goes,
// and gives its text.
fn rebuild_text<L: Ledger>(
    rt: &impl Abort,
    alloc: Global,
    graph: &mut GraphOf<1>,
    u: u32,
    v: u32,
    work: &mut Steps<L>,
) -> Result<Vec<u8>, Memory>
    requires differ { u ≢ v }
    requires left { Has graph.old.vertices u }
    requires right { Has graph.old.vertices v }
{
    let Some(old) = decompose_within(alloc, graph, graph.vertices())? else {
        panic!(rt; "no tree");
    };
    toggle(graph, u, v);
    let new = rebuild(alloc, graph, &old, u, v, work)?;
    let anew = decompose_within(alloc, graph, graph.vertices())?;
    let expected = text(alloc, &anew)?;
    text_is(rt, alloc, &Some(new), &expected)?;
    Ok(expected)
}

// The same of any two numbers, which are two vertices.
fn edit<L: Ledger>(
    rt: &impl Abort,
    alloc: Global,
    graph: &mut GraphOf<1>,
    ends: (u32, u32),
    work: &mut Steps<L>,
) -> Result<Vec<u8>, Memory> {
    let (u, v) = ends;
    assert!(rt; u != v);
    assert!(rt; graph.has_vertex(u));
    assert!(rt; graph.has_vertex(v));
    rebuild_text(rt, alloc, graph, u, v, work)
}

// Sees that the graph on the names below a number with these edges has the tree with this text
// after an edit.
fn edit_of<L: Ledger>(
    rt: &impl Abort,
    alloc: Global,
    graph: (u32, &[(u32, u32)]),
    ends: (u32, u32),
    expected: &[u8],
    work: &mut Steps<L>,
) -> Result<(), Memory> {
    let (n, edges) = graph;
    assert!(rt; n <= 64);
    let mut graph = GraphOf::<1>::from_edges(alloc, n, edges)?.expect(rt, "edges");
    let written = edit(rt, alloc, &mut graph, ends, work)?;
    assert_eq!(rt; written.as_slice(), expected);
    Ok(())
}

// How many names a graph has, its edges, the ends of the edit, and the text of the tree behind it.
static EDITS: [(u32, &[(u32, u32)], (u32, u32), &[u8]); 10] = [
    (
        5,
        &[(0, 1), (2, 3), (2, 4), (3, 4)],
        (0, 1),
        b"P(0,1,S(2,3,4))",
    ),
    (
        5,
        &[(0, 1), (1, 2), (2, 3), (1, 4)],
        (0, 4),
        b"R(S(0,4),1,2,3;0-1,1-2,2-3)",
    ),
    (3, &[(0, 2), (1, 2)], (0, 1), b"S(0,1,2)"),
    (
        4,
        &[(0, 1), (0, 2), (1, 2), (1, 3), (2, 3)],
        (0, 3),
        b"S(0,1,2,3)",
    ),
    (5, &[(0, 1), (1, 2), (2, 3)], (1, 2), b"P(S(0,1),S(2,3),4)"),
    (4, &[(0, 1), (1, 2), (2, 3)], (0, 3), b"S(P(0,2),P(1,3))"),
    (6, &[(0, 2), (0, 5)], (0, 4), b"P(S(0,P(2,4,5)),1,3)"),
    (
        8,
        &[(0, 3), (0, 4), (0, 5), (1, 2), (1, 6), (4, 5)],
        (0, 1),
        b"P(R(0,1,P(2,6),P(3,S(4,5));0-1,0-3,1-2),7)",
    ),
    (2, &[], (0, 1), b"S(0,1)"),
    (2, &[(0, 1)], (0, 1), b"P(0,1)"),
];

fn edits_of_edges<L: Ledger>(rt: &impl Abort, alloc: Global, blank: Blank) -> Result<(), Memory>
    requires name { blank.name ≡ L.name }
    requires parts { blank.parts ≡ L.parts }
    requires some { 0 < blank.parts }
{
    let mut work = Steps::<L>::new(blank);
    for (n, edges, ends, expected) in &EDITS {
        edit_of(rt, alloc, (*n, *edges), *ends, *expected, &mut work)?;
    }
    Ok(())
}

#[test]
fn trees_after_edits(rt: HostRuntime) -> Result<(), Fail> {
    edits_of_edges::<Brand>(&rt, rt.alloc(), Blank::new(1))?;
    Ok(())
}

// Each graph on the vertices whose edges are among the pairs, one pair after the other, and of each
// graph each edit of one of them.
fn all_edits<L: Ledger>(
    rt: &impl Abort,
    alloc: Global,
    vertices: u32,
    pairs: &[(u32, u32)],
    blank: Blank,
) -> Result<(), Memory>
    requires name { blank.name ≡ L.name }
    requires parts { blank.parts ≡ L.parts }
    requires some { 0 < blank.parts }
{
    let mut work = Steps::<L>::new(blank);
    assert!(rt; vertices <= 64);
    let mut graph = GraphOf::<1>::from_edges(alloc, vertices, &[])?.expect(rt, "vertices");
    for number in 1..1024_u32 {
        let Some(pair) = pairs.get(number.trailing_zeros() as usize) else {
            return Ok(());
        };
        for ends in pairs {
            edit(rt, alloc, &mut graph, *ends, &mut work)?;
            edit(rt, alloc, &mut graph, *ends, &mut work)?;
        }
        edit(rt, alloc, &mut graph, *pair, &mut work)?;
    }
    Ok(())
}

#[test]
fn all_edits_of_small_graphs(rt: HostRuntime) -> Result<(), Fail> {
    let pairs = [
        (0, 1),
        (0, 2),
        (1, 2),
        (0, 3),
        (1, 3),
        (2, 3),
        (0, 4),
        (1, 4),
        (2, 4),
        (3, 4),
    ];
    for (vertices, count) in [(2, 1), (3, 3), (4, 6), (5, 10)] {
        all_edits::<Brand>(&rt, rt.alloc(), vertices, &pairs[..count], Blank::new(1))?;
    }
    Ok(())
}
