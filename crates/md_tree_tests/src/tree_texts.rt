//! Texts of trees as the format and its worked examples give them, and the smallest graphs of
//! trees.
use md_graph::Graph;
use md_tree::{Children, Kind, Pair, QuotientEdges, Tree, graph_of, text};
use std::alloc::{AllocError, Global};
use std::process::Abort;
use std::test::Fail;

fn pairs(alloc: Global, all: &[Pair]) -> Result<QuotientEdges, AllocError> {
    let mut list = Vec::new(alloc);
    for pair in all {
        list.push(*pair)?;
    }
    Ok(QuotientEdges { list })
}

fn leaves(alloc: Global, names: &[u32]) -> Result<Children, AllocError> {
    let mut list = Vec::new(alloc);
    for name in names {
        list.push(Tree::Leaf(*name))?;
    }
    Ok(Children { list })
}

// P(0,4),1,2,3
fn nested_children(alloc: Global) -> Result<Children, AllocError> {
    let inner = Tree::Node(Kind::Parallel, leaves(alloc, &[0, 4])?, pairs(alloc, &[])?);
    let mut list = Vec::new(alloc);
    list.push(inner)?;
    list.push(Tree::Leaf(1))?;
    list.push(Tree::Leaf(2))?;
    list.push(Tree::Leaf(3))?;
    Ok(Children { list })
}

fn check_text(rt: &impl Abort, alloc: Global, tree: Option<Tree>, expected: &[u8]) {
    match text(alloc, &tree) {
        Ok(written) => assert_eq!(rt; written.as_slice(), expected),
        Err(_) => panic!(rt; "want of memory"),
    }
}

#[test]
fn graph_without_vertices(rt: HostRuntime) -> Result<(), Fail> {
    let Ok(mut graph) = Graph::new(rt.alloc()) else {
        panic!(&rt; "want of memory");
    };
    graph_of(&None, &mut graph);
    assert_eq!(&rt; graph.count(), 0);
    Ok(())
}

// The pairs of position 0 and each other one below n, and that of 1 and 2.
fn star(alloc: Global, n: u32) -> Result<QuotientEdges, AllocError> {
    let mut list = Vec::new(alloc);
    for high in 1..n {
        list.push(Pair { low: 0, high })?;
    }
    list.push(Pair { low: 1, high: 2 })?;
    Ok(QuotientEdges { list })
}

#[test]
fn runs_of_pairs(rt: HostRuntime) -> Result<(), Fail> {
    let alloc = rt.alloc();
    let row = leaves(alloc, &[0, 1, 2, 3, 4, 5, 6, 7, 8, 9, 10, 11])?;
    check_text(
        &rt,
        alloc,
        Some(Tree::Node(Kind::Prime, row, star(alloc, 12)?)),
        b"R(0,1,2,3,4,5,6,7,8,9,10,11;0-1,0-2,0-3,0-4,0-5,0-6,0-7,0-8,0-9,0-10,0-11,1-2)",
    );
    Ok(())
}

#[test]
fn texts(rt: HostRuntime) -> Result<(), Fail> {
    let alloc = rt.alloc();
    check_text(&rt, alloc, None, b"empty");
    check_text(&rt, alloc, Some(Tree::Leaf(0)), b"0");
    check_text(&rt, alloc, Some(Tree::Leaf(u32::MAX)), b"4294967295");
    let none = pairs(alloc, &[])?;
    let row = leaves(alloc, &[10, 11, 120])?;
    assert_eq!(&rt; row.len(), 3);
    if row.len() == 3 {
        assert!(&rt; matches!(row.get(2), Tree::Leaf(120)));
    }
    check_text(
        &rt,
        alloc,
        Some(Tree::Node(Kind::Series, row, none)),
        b"S(10,11,120)",
    );
    let edges = [
        Pair { low: 0, high: 1 },
        Pair { low: 1, high: 2 },
        Pair { low: 2, high: 3 },
    ];
    let path = pairs(alloc, &edges)?;
    assert_eq!(&rt; path.len(), 3);
    if path.len() == 3 {
        assert_eq!(&rt; *path.get(1), Pair { low: 1, high: 2 });
    }
    let children = nested_children(alloc)?;
    check_text(
        &rt,
        alloc,
        Some(Tree::Node(Kind::Prime, children, path)),
        b"R(P(0,4),1,2,3;0-1,1-2,2-3)",
    );
    Ok(())
}
