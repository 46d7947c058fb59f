//! Vertices of small cographs that are deleted.
ghost use Rattle.std.specs.Prelude.{◌≡◌, ◌<◌};
ghost use Rattle.md_cotree.specs.Cotrees.{IsSoundCotree, Denotes};

use crate::edge_edits::read;
use md_cotree::{Cotree, from_tree};
use md_cotree_edit::del_vertex;
use md_graph::{Graph, Steps};
use md_tree::{graph_of, text};
use std::alloc::Global;
use std::marker::Brand;
use std::process::Abort;
use std::sync::ledger::{Blank, Ledger};
use std::test::Fail;

// Deletes a vertex, where it is there.
pub(crate) fn delete_vertex<L: Ledger>(cotree: &mut Cotree, graph: &Graph, x: u32, blank: Blank)
    requires name { blank.name ≡ L.name }
    requires parts { blank.parts ≡ L.parts }
    requires some { 0 < blank.parts }
    requires denotes { Denotes cotree.old graph.now }
    ensures { IsSoundCotree cotree.new }
{
    let mut steps = Steps::<L>::new(blank);
    if graph.has_vertex(x) {
        del_vertex(cotree, x, &mut steps);
    }
}

// The tree with this text when a vertex is deleted.
pub(crate) fn delete_in_text(
    rt: &impl Abort,
    alloc: Global,
    before: &[u8],
    x: u32,
) -> Result<Vec<u8>, Fail> {
    let tree = read(rt, alloc, before);
    let mut graph = Graph::new(alloc)?;
    graph_of(&tree, &mut graph);
    let mut cotree = from_tree(alloc, &tree)?;
    delete_vertex::<Brand>(&mut cotree, &graph, x, Blank::new(1));
    let back = cotree.to_tree(alloc)?;
    let after = text(alloc, &back)?;
    Ok(after)
}

#[test]
fn vertices_go(rt: HostRuntime) -> Result<(), Fail> {
    let alloc = rt.alloc();
    let table = [
        ("0", 0, "empty"),
        ("P(0,1)", 0, "1"),
        ("S(0,1,2)", 1, "S(0,2)"),
        ("P(0,S(1,2))", 0, "S(1,2)"),
        ("P(S(0,1),2)", 2, "S(0,1)"),
        ("S(P(S(0,1),2),3)", 2, "S(0,1,3)"),
        ("P(0,S(1,2),3)", 0, "P(S(1,2),3)"),
        ("S(0,P(1,2))", 1, "S(0,2)"),
        ("P(0,S(1,P(2,3)))", 2, "P(0,S(1,3))"),
        ("S(0,P(1,S(2,3)))", 1, "S(0,2,3)"),
        ("S(0,P(1,S(2,P(3,4))))", 1, "S(0,2,P(3,4))"),
        ("S(0,1,2,P(3,S(4,5)))", 3, "S(0,1,2,4,5)"),
        ("S(0,P(1,S(2,3,4,5)))", 1, "S(0,2,3,4,5)"),
        ("P(S(0,1,P(2,S(3,4))),5)", 2, "P(S(0,1,3,4),5)"),
        ("P(S(0,P(1,S(2,3,4))),5)", 1, "P(S(0,2,3,4),5)"),
    ];
    for (before, x, after) in &table {
        let text = delete_in_text(&rt, alloc, before.as_bytes(), *x)?;
        assert!(rt; text.as_slice() == after.as_bytes());
    }
    Ok(())
}
