//! Vertices that are added to small cographs, and deleted.
ghost use Rattle.std.specs.Prelude.{◌≡◌, ◌<◌, IsTrue};
ghost use Rattle.std.specs.List.{All};
ghost use Rattle.std.specs.List.Sorted.{IsStrictlyIncreasing};
ghost use Rattle.md_graph.specs.Sets.{Has};
ghost use Rattle.md_cotree.specs.Cotrees.{IsSoundCotree, Denotes};

use crate::edge_edits::{plain, read};
use crate::vertex_deletions::delete_in_text;
use md_cotree::{Cotree, from_tree};
use md_cotree_edit::{add_edge, add_vertex};
use md_graph::{Graph, NAMES, Steps};
use md_modules::find_p4;
use md_tree::{graph_of, text};
use std::alloc::Global;
use std::marker::Brand;
use std::process::Abort;
use std::sync::ledger::{Blank, Ledger};
use std::test::Fail;

// Whether all names are vertices.
fn are_there(graph: &Graph, names: &[u32]) -> bool
    ensures { IsTrue result → All (Has graph.now.vertices) names.now }
{
    for name in names {
        if !graph.has_vertex(*name) {
            return false;
        }
    }
    true
}

// Whether each name is less than the next.
fn ascend(names: &[u32]) -> bool
    ensures { IsTrue result → IsStrictlyIncreasing names.now }
{
    for i in 1..names.len() {
        if names[i - 1] >= names[i] {
            return false;
        }
    }
    true
}

// Adds a vertex to those that there are; whether that was done.
pub(crate) fn insert_vertex<L: Ledger>(
    cotree: &mut Cotree,
    graph: &Graph,
    x: u32,
    names: &[u32],
    blank: Blank,
) -> bool
    requires name { blank.name ≡ L.name }
    requires parts { blank.parts ≡ L.parts }
    requires some { 0 < blank.parts }
    requires denotes { Denotes cotree.old graph.now }
    ensures { IsSoundCotree cotree.new }
{
    let mut steps = Steps::<L>::new(blank);
    if x >= NAMES || graph.has_vertex(x) || !are_there(graph, names) || !ascend(names) {
        return false;
    }
    add_vertex(cotree, x, names, &mut steps).is_ok()
}

// Whether a vertex was added to the tree with this text, and the text of the tree then.
fn insert_in_text(
    rt: &impl Abort,
    alloc: Global,
    before: &[u8],
    x: u32,
    names: &[u32],
) -> Result<(bool, Vec<u8>), Fail> {
    let tree = read(rt, alloc, before);
    let mut graph = Graph::new(alloc)?;
    graph_of(&tree, &mut graph);
    let mut cotree = from_tree(alloc, &tree)?;
    let done = insert_vertex::<Brand>(&mut cotree, &graph, x, names, Blank::new(1));
    let back = cotree.to_tree(alloc)?;
    let after = text(alloc, &back)?;
    Ok((done, after))
}

#[test]
fn vertices_come(rt: HostRuntime) -> Result<(), Fail> {
    let alloc = rt.alloc();
    let names: [u32; 6] = [0, 1, 2, 3, 0, 2];
    let table = [
        ("empty", 7, 0, 0, true, "7"),
        ("0", 1, 0, 1, true, "S(0,1)"),
        ("S(0,1)", 2, 0, 0, true, "P(S(0,1),2)"),
        ("P(0,1,2)", 3, 0, 2, true, "P(S(P(0,1),3),2)"),
        ("P(0,1,2)", 3, 0, 3, true, "S(P(0,1,2),3)"),
        ("P(0,1,2)", 3, 2, 3, true, "P(0,1,S(2,3))"),
        ("S(0,1,2)", 3, 0, 2, true, "S(0,1,P(2,3))"),
        ("S(0,1,2)", 3, 2, 3, true, "S(P(S(0,1),3),2)"),
        ("S(0,P(1,2))", 3, 0, 2, true, "S(0,P(S(1,3),2))"),
        ("P(S(0,1),S(2,3))", 4, 0, 2, true, "P(S(0,1,4),S(2,3))"),
        ("P(S(0,1),S(2,3))", 4, 1, 3, false, "P(S(0,1),S(2,3))"),
        ("P(S(0,2),S(1,3))", 4, 0, 2, false, "P(S(0,2),S(1,3))"),
        ("S(P(0,1),2)", 3, 4, 6, true, "S(P(S(0,3),1),2)"),
        ("S(P(0,1),2)", 3, 0, 1, false, "S(P(0,1),2)"),
    ];
    for (before, x, from, to, done, after) in &table {
        let (is_done, text) = insert_in_text(
            &rt,
            alloc,
            before.as_bytes(),
            *x,
            &names[*from..*to],
        )?;
        assert_eq!(rt; is_done, *done);
        assert!(rt; text.as_slice() == after.as_bytes());
    }
    Ok(())
}

// Adds a vertex and edges between it and names to the graph.
fn join(rt: &impl Abort, graph: &mut Graph, x: u32, names: &[u32]) {
    assert!(rt; x < NAMES);
    assert!(rt; !graph.has_vertex(x));
    graph.add_vertex(x);
    for name in names {
        assert!(rt; *name != x);
        assert!(rt; graph.has_vertex(x));
        assert!(rt; graph.has_vertex(*name));
        assert!(rt; !graph.has_edge(x, *name));
        graph.add_edge(x, *name);
    }
}

// Sees that two graphs on the first names are equal.
fn are_same(rt: &impl Abort, first: &Graph, second: &Graph) {
    assert!(rt; first.vertices().is_same(second.vertices()));
    for w in 0..5 {
        assert!(rt; first.row(w).is_same(second.row(w)));
    }
}

// Sees that adding a vertex came to what the plain change of the graph tells: it is done exactly
// where the changed graph is a cograph, and the tree is then of that graph; else the tree stays.
fn see_grown(
    rt: &impl Abort,
    alloc: Global,
    before: &[u8],
    x: u32,
    names: &[u32],
) -> Result<Option<Vec<u8>>, Fail> {
    let (done, after) = insert_in_text(rt, alloc, before, x, names)?;
    let mut graph = plain(rt, alloc, before)?;
    join(rt, &mut graph, x, names);
    if find_p4(&graph).is_some() {
        assert!(rt; !done);
        assert!(rt; before == after.as_slice());
        return Ok(None);
    }
    assert!(rt; done);
    let other = plain(rt, alloc, &after)?;
    are_same(rt, &graph, &other);
    Ok(Some(after))
}

// Sees that deleting a vertex came to what the plain change of the graph tells.
fn see_left(rt: &impl Abort, alloc: Global, before: &[u8], x: u32) -> Result<(), Fail> {
    let after = delete_in_text(rt, alloc, before, x)?;
    let mut graph = plain(rt, alloc, before)?;
    assert!(rt; graph.has_vertex(x));
    graph.remove_vertex(x);
    let other = plain(rt, alloc, &after)?;
    are_same(rt, &graph, &other);
    Ok(())
}

// The names below `x` whose bits are set.
fn set_of(alloc: Global, x: u32, bits: u32) -> Result<Vec<u32>, Fail> {
    let mut names = Vec::new(alloc);
    let mut left = bits;
    for name in 0..x {
        if left % 2 == 1 {
            names.push(name)?;
        }
        left /= 2;
    }
    Ok(names)
}

// The trees of all cographs on the names up to `x`, from those on the names below it: each is come
// to by one insertion. Each vertex of each of them is deleted too.
fn next_cographs(
    rt: &impl Abort,
    alloc: Global,
    trees: &[Vec<u8>],
    x: u32,
    sets: u32,
) -> Result<Vec<Vec<u8>>, Fail> {
    let mut next = Vec::new(alloc);
    for before in trees {
        for bits in 0..sets {
            let names = set_of(alloc, x, bits)?;
            if let Some(after) = see_grown(rt, alloc, before, x, &names)? {
                for name in 0..x {
                    see_left(rt, alloc, &after, name)?;
                }
                see_left(rt, alloc, &after, x)?;
                next.push(after)?;
            }
        }
    }
    Ok(next)
}

#[test]
fn vertices_of_all_cographs(rt: HostRuntime) -> Result<(), Fail> {
    let alloc = rt.alloc();
    let mut none = Vec::new(alloc);
    none.extend_from_slice(b"empty")?;
    let mut trees = Vec::new(alloc);
    trees.push(none)?;
    for (x, sets, number) in &[(0, 1, 1), (1, 2, 2), (2, 4, 8), (3, 8, 52), (4, 16, 472)] {
        trees = next_cographs(&rt, alloc, &trees, *x, *sets)?;
        assert_eq!(rt; trees.len(), *number);
    }
    Ok(())
}
