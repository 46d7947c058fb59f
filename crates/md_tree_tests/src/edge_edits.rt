//! Edges of small cographs that are turned.
ghost use Rattle.std.specs.Prelude.{◌≡◌, ◌<◌};
ghost use Rattle.md_tree.specs.Plain.{plain_option};
ghost use Rattle.md_tree.specs.WellFormed.{IsWellFormed};
ghost use Rattle.md_tree.specs.NoPrimes.{HasNoPrime};
ghost use Rattle.md_cotree.specs.Cotrees.{IsSoundCotree, Denotes};

use md_cotree::{Cotree, from_tree};
use md_cotree_edit::{add_edge, del_edge};
use md_graph::{Graph, Steps};
use md_modules::find_p4;
use md_tree::{Tree, graph_of, is_cotree, read_tree, text};
use std::alloc::Global;
use std::marker::Brand;
use std::process::Abort;
use std::sync::ledger::{Blank, Ledger};
use std::test::Fail;

// The tree with this text, which has no prime node.
pub(crate) fn read(rt: &impl Abort, alloc: Global, bytes: &[u8]) -> Option<Tree>
    ensures { IsWellFormed (plain_option result) × HasNoPrime (plain_option result) }
{
    let tree = read_tree(alloc, bytes).ok().expect(rt, "text");
    if let Some(inner) = &tree {
        assert!(rt; is_cotree(inner));
    }
    tree
}

// Deletes the edge between two different vertices, or adds it where there is none; whether that was
// done.
pub(crate) fn toggle_edge<L: Ledger>(
    cotree: &mut Cotree,
    graph: &Graph,
    u: u32,
    v: u32,
    blank: Blank,
) -> bool
    requires name { blank.name ≡ L.name }
    requires parts { blank.parts ≡ L.parts }
    requires some { 0 < blank.parts }
    requires denotes { Denotes cotree.old graph.now }
    ensures { IsSoundCotree cotree.new }
{
    let mut steps = Steps::<L>::new(blank);
    if u == v || !graph.has_vertex(u) || !graph.has_vertex(v) {
        return false;
    }
    if graph.has_edge(u, v) {
        return del_edge(cotree, u, v, &mut steps).is_ok();
    }
    add_edge(cotree, u, v, &mut steps).is_ok()
}

#[test]
fn edges_turn(rt: HostRuntime) -> Result<(), Fail> {
    let alloc = rt.alloc();
    let table = [
        ("S(P(0,1),2)", 0, 1, true, "S(0,1,2)"),
        ("S(0,1,2)", 0, 1, true, "S(P(0,1),2)"),
        ("P(S(0,2),1)", 0, 2, true, "P(0,1,2)"),
        ("P(S(0,P(1,2)),3)", 0, 3, true, "S(0,P(1,2,3))"),
        ("P(S(0,P(1,2)),3)", 3, 0, true, "S(0,P(1,2,3))"),
        ("P(S(0,1),2,3)", 0, 2, true, "P(S(0,P(1,2)),3)"),
        ("S(P(0,1,2),3)", 3, 0, true, "P(0,S(P(1,2),3))"),
        ("P(0,1)", 0, 1, true, "S(0,1)"),
        ("S(0,1)", 1, 0, true, "P(0,1)"),
        ("S(P(0,1),P(2,3))", 0, 2, false, "S(P(0,1),P(2,3))"),
        ("P(S(0,1),S(2,3))", 0, 2, false, "P(S(0,1),S(2,3))"),
        (
            "P(S(0,P(1,S(2,3))),4)",
            4,
            2,
            false,
            "P(S(0,P(1,S(2,3))),4)",
        ),
    ];
    for (before, u, v, done, after) in &table {
        let (is_done, text) = toggle_in_text(&rt, alloc, before.as_bytes(), *u, *v)?;
        assert_eq!(rt; is_done, *done);
        assert!(rt; text.as_slice() == after.as_bytes());
    }
    Ok(())
}

// What comes of turning an edge of the cotree of this tree: whether it was done, and the tree then.
fn toggle_in_text(
    rt: &impl Abort,
    alloc: Global,
    before: &[u8],
    u: u32,
    v: u32,
) -> Result<(bool, Vec<u8>), Fail> {
    let tree = read(rt, alloc, before);
    let mut graph = Graph::new(alloc)?;
    graph_of(&tree, &mut graph);
    let mut cotree = from_tree(alloc, &tree)?;
    let done = toggle_edge::<Brand>(&mut cotree, &graph, u, v, Blank::new(1));
    let back = cotree.to_tree(alloc)?;
    let after = text(alloc, &back)?;
    Ok((done, after))
}

// The graph of the tree with this text.
pub(crate) fn plain(rt: &impl Abort, alloc: Global, bytes: &[u8]) -> Result<Graph, Fail> {
    let tree = read(rt, alloc, bytes);
    let mut graph = Graph::new(alloc)?;
    graph_of(&tree, &mut graph);
    Ok(graph)
}

// Deletes the edge between two vertices, or adds it where there is none.
fn toggle(rt: &impl Abort, graph: &mut Graph, u: u32, v: u32) {
    assert!(rt; u != v);
    assert!(rt; graph.has_vertex(u));
    assert!(rt; graph.has_vertex(v));
    if graph.has_edge(u, v) {
        graph.remove_edge(u, v);
    } else {
        graph.add_edge(u, v);
    }
}

// Sees that turning an edge came to what the plain change of the graph tells: it is done exactly
// where the changed graph is a cograph, and the tree is then of that graph; else the tree stays.
fn compare(
    rt: &impl Abort,
    alloc: Global,
    before: &[u8],
    edge: (u32, u32),
    done: bool,
    after: &[u8],
) -> Result<(), Fail> {
    let mut graph = plain(rt, alloc, before)?;
    toggle(rt, &mut graph, edge.0, edge.1);
    let other = plain(rt, alloc, after)?;
    if find_p4(&graph).is_some() {
        assert!(rt; !done);
        assert!(rt; before == after);
        return Ok(());
    }
    assert!(rt; done);
    assert!(rt; graph.vertices().is_same(other.vertices()));
    for w in 0..5 {
        assert!(rt; graph.row(w).is_same(other.row(w)));
    }
    Ok(())
}

// The pairs of the first five names, each with a bit of its own.
const PAIRS: [(u32, u32, usize); 10] = [
    (0, 1, 1),
    (0, 2, 2),
    (1, 2, 4),
    (0, 3, 8),
    (1, 3, 16),
    (2, 3, 32),
    (0, 4, 64),
    (1, 4, 128),
    (2, 4, 256),
    (3, 4, 512),
];

// The sets of these pairs that are the edges of a tree that was come to, and the trees whose edges
// are still to be turned, each with its set.
#[derive(Drop)]
struct Walk {
    seen: [bool; 1024],
    waiting: Vec<(usize, Vec<u8>)>,
}

// Turns each of the pairs in the tree, and compares.
fn turn_each(
    rt: &impl Abort,
    alloc: Global,
    mask: usize,
    before: &[u8],
    pairs: &[(u32, u32, usize)],
    walk: &mut Walk,
) -> Result<(), Fail> {
    for (u, v, bit) in pairs {
        let (done, after) = toggle_in_text(rt, alloc, before, *u, *v)?;
        compare(rt, alloc, before, (*u, *v), done, &after)?;
        let next = (mask ^ *bit) % 1024;
        if done && !walk.seen[next] {
            walk.seen[next] = true;
            walk.waiting.push((next, after))?;
        }
    }
    Ok(())
}

// How many cographs turning edges leads to, from the one without edges.
fn number_of_cographs(
    rt: &impl Abort,
    alloc: Global,
    first: &[u8],
    pairs: &[(u32, u32, usize)],
) -> Result<u32, Fail> {
    let mut walk = Walk {
        seen: [false; 1024],
        waiting: Vec::new(alloc),
    };
    let mut start = Vec::new(alloc);
    start.extend_from_slice(first)?;
    walk.seen[0] = true;
    walk.waiting.push((0, start))?;
    let mut number: u32 = 0;
    for _ in 0..1024 {
        let Some((mask, before)) = walk.waiting.pop() else {
            return Ok(number);
        };
        turn_each(rt, alloc, mask, &before, pairs, &mut walk)?;
        number = number.saturating_add(1);
    }
    Ok(number)
}

#[test]
fn edges_of_all_cographs_turn(rt: HostRuntime) -> Result<(), Fail> {
    let alloc = rt.alloc();
    assert_eq!(rt; number_of_cographs(&rt, alloc, b"P(0,1)", &PAIRS[..1])?, 2);
    assert_eq!(rt;
        number_of_cographs(&rt, alloc, b"P(0,1,2)", &PAIRS[..3])?,
        8
    );
    assert_eq!(rt;
        number_of_cographs(&rt, alloc, b"P(0,1,2,3)", &PAIRS[..6])?,
        52
    );
    assert_eq!(rt;
        number_of_cographs(&rt, alloc, b"P(0,1,2,3,4)", &PAIRS)?,
        472
    );
    Ok(())
}
