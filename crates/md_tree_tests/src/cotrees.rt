//! Trees without prime nodes there and back, and what their cotrees say of their graphs.
ghost use Rattle.std.specs.Prelude.{IfOk};
ghost use Rattle.md_tree.specs.Plain.{plain_option};
ghost use Rattle.md_tree.specs.WellFormed.{IsWellFormed};
ghost use Rattle.md_tree.specs.NoPrimes.{HasNoPrime};
ghost use Rattle.md_cotree.specs.Cotrees.{Denotes};

use crate::outlines::outline_by_tree;
use md_cotree::{Cotree, from_outline, from_tree};
use md_graph::{Graph, Memory, NAMES};
use md_outline::{OutlinePart, has_no_prime_part, tree_outline};
use md_text::push_number;
use md_tree::{Kind, Tree, graph_of, is_cotree, read_tree, text};
use std::alloc::{AllocError, Global};
use std::process::Abort;
use std::test::Fail;

// The tree with this text, which has no prime node.
fn read(rt: &impl Abort, alloc: Global, bytes: &[u8]) -> Option<Tree>
    ensures { IsWellFormed (plain_option result) × HasNoPrime (plain_option result) }
{
    let tree = read_tree(alloc, bytes).ok().expect(rt, "text");
    if let Some(inner) = &tree {
        assert!(rt; is_cotree(inner));
    }
    tree
}

// Sees that the cotree of the tree with this text gives the tree back, and its outline.
fn there_and_back(rt: &impl Abort, alloc: Global, bytes: &[u8]) -> Result<(), Fail> {
    let tree = read(rt, alloc, bytes);
    let cotree = from_tree(alloc, &tree)?;
    let back = cotree.to_tree(alloc)?;
    let written = text(alloc, &back)?;
    assert!(rt; written.as_slice() == bytes);
    let outline = cotree.outline(alloc)?;
    let expected = outline_by_tree(alloc, &back)?;
    assert_eq!(rt; outline.as_slice(), expected.as_slice());
    Ok(())
}

// Sees that a tree has this outline, and so has the cotree that is made from it.
fn outline_and_back(
    rt: &impl Abort,
    alloc: Global,
    tree: &Option<Tree>,
    parts: &[OutlinePart<Kind>],
) -> Result<(), Memory>
    requires well_formed { IsWellFormed (plain_option tree.now) }
    requires no_prime { HasNoPrime (plain_option tree.now) }
{
    let Some(root) = tree else {
        panic!(rt; "no tree");
    };
    let made = tree_outline(alloc, root)?;
    assert_eq!(rt; made.as_slice(), parts);
    let cotree = from_outline(alloc, &made)?;
    let back = cotree.outline(alloc)?;
    assert_eq!(rt; back.as_slice(), parts);
    Ok(())
}

// The text of a tree of depth `last` in which each node has a leaf and the next node, kinds in
// turn.
fn deep(alloc: Global, last: u32) -> Result<Vec<u8>, AllocError> {
    let mut bytes = Vec::new(alloc);
    for v in 0..last {
        bytes.extend_from_slice(if v % 2 == 0 { b"P(" } else { b"S(" })?;
        push_number(&mut bytes, u64::from(v))?;
        bytes.push(b',')?;
    }
    push_number(&mut bytes, u64::from(last))?;
    for _ in 0..last {
        bytes.push(b')')?;
    }
    Ok(bytes)
}

// How many neighbours a vertex has in the graph that the cotree denotes; none for another name.
fn degree_of(cotree: &Cotree, graph: &Graph, v: u32) -> Option<u32>
    requires { Denotes cotree.now graph.now }
{
    if graph.has_vertex(v) {
        return Some(cotree.degree(v));
    }
    None
}

#[test]
fn trees_and_back(rt: HostRuntime) -> Result<(), Fail> {
    let alloc = rt.alloc();
    let table = [
        "empty",
        "4095",
        "P(S(0,1),2,3)",
        "P(S(0,1),S(2,3))",
        "S(P(S(0,3),1),2)",
        "S(P(0,7),P(1,S(2,P(3,6)),5),4)",
    ];
    for bytes in &table {
        there_and_back(&rt, alloc, bytes.as_bytes())?;
    }
    there_and_back(&rt, alloc, &deep(alloc, 999)?)?;
    there_and_back(&rt, alloc, &deep(alloc, 4_095)?)?;
    Ok(())
}

#[test]
fn outlines_and_back(rt: HostRuntime) -> Result<(), Fail> {
    let alloc = rt.alloc();
    let tree = read(&rt, alloc, b"S(P(0,4),1,P(2,3))");
    let mut parts = [
        OutlinePart::Node(Kind::Series, 3),
        OutlinePart::Node(Kind::Parallel, 2),
        OutlinePart::Name(0),
        OutlinePart::Name(4),
        OutlinePart::Name(1),
        OutlinePart::Node(Kind::Parallel, 2),
        OutlinePart::Name(2),
        OutlinePart::Name(3),
    ];
    outline_and_back(&rt, alloc, &tree, &parts)?;
    assert!(rt; has_no_prime_part(&parts));
    parts[1] = OutlinePart::Node(Kind::Prime, 4);
    assert!(rt; !has_no_prime_part(&parts));
    Ok(())
}

#[test]
fn adjacency_and_degrees(rt: HostRuntime) -> Result<(), Fail> {
    let alloc = rt.alloc();
    let tree = read(&rt, alloc, b"P(S(0,P(1,2)),3)");
    let mut graph = Graph::new(alloc)?;
    graph_of(&tree, &mut graph);
    let cotree = from_tree(alloc, &tree)?;
    let edges = [(0, 1), (0, 2)];
    for u in 0..6 {
        for v in 0..6 {
            let mut joined = false;
            for (x, y) in &edges {
                joined = joined || *x == u && *y == v || *x == v && *y == u;
            }
            assert_eq!(rt; cotree.adjacent(u, v), joined, "{u} {v}");
        }
    }
    assert!(rt; !cotree.adjacent(0, NAMES) && !cotree.adjacent(u32::MAX, 0));
    assert_eq!(rt; degree_of(&cotree, &graph, 4), None);
    for (v, degree) in &[(0, 2), (1, 1), (2, 1), (3, 0)] {
        assert_eq!(rt; degree_of(&cotree, &graph, *v), Some(*degree), "{v}");
    }
    Ok(())
}

#[test]
fn three_names(rt: HostRuntime) -> Result<(), Fail> {
    let alloc = rt.alloc();
    let tree = read(&rt, alloc, b"S(P(0,2),1)");
    let mut graph = Graph::new(alloc)?;
    graph_of(&tree, &mut graph);
    let cotree = from_tree(alloc, &tree)?;
    assert_eq!(rt; cotree.node_count(), 5);
    assert_eq!(rt; degree_of(&cotree, &graph, 1), Some(2));
    assert!(rt; !cotree.adjacent(0, 2) && !cotree.adjacent(0, 9));
    Ok(())
}

#[test]
fn no_vertex(rt: HostRuntime) -> Result<(), Fail> {
    let cotree = Cotree::new(rt.alloc())?;
    assert_eq!(rt; cotree.node_count(), 0);
    assert_eq!(rt; cotree.leaves, 0);
    assert_eq!(rt; cotree.root, None);
    let back = cotree.to_tree(rt.alloc())?;
    assert!(rt; matches!(&back, None));
    Ok(())
}

#[test]
fn one_vertex(rt: HostRuntime) -> Result<(), Fail> {
    let alloc = rt.alloc();
    let cotree = from_tree(alloc, &Some(Tree::Leaf(7)))?;
    assert_eq!(rt; cotree.node_count(), 1);
    assert_eq!(rt; cotree.adjacent(7, 7), false);
    let back = cotree.to_tree(alloc)?;
    assert!(rt; matches!(&back, Some(Tree::Leaf(7))));
    Ok(())
}
