//! Edits of one cotree, one after another.
ghost use Rattle.std.specs.Prelude.{IfOk};
ghost use Rattle.md_cotree.specs.Cotrees.{IsSoundCotree, Denotes};

use crate::edge_edits::toggle_edge;
use crate::vertex_deletions::delete_vertex;
use crate::vertex_insertions::insert_vertex;
use md_cotree::Cotree;
use md_graph::{Graph, Memory};
use md_tree::{graph_of, text};
use std::alloc::Global;
use std::marker::Brand;
use std::process::Abort;
use std::sync::ledger::Blank;
use std::test::Fail;

// A vertex comes, joined to the names of `LISTS` from one place to another; an edge is turned; a
// vertex goes.
#[derive(Clone, Copy)]
enum Step {
    Insert(u32, usize, usize),
    Turn(u32, u32),
    Delete(u32),
}

// Names in ascending runs.
const LISTS: [u32; 6] = [0, 1, 2, 0, 1, 3];

// The graph that a cotree denotes.
fn graph_denoted(alloc: Global, cotree: &Cotree) -> Result<Graph, Memory>
    requires { IsSoundCotree cotree.now }
    ensures { IfOk result (λ graph. Denotes cotree.now graph) }
{
    let tree = cotree.to_tree(alloc)?;
    let mut graph = Graph::new(alloc)?;
    graph_of(&tree, &mut graph);
    Ok(graph)
}

// Makes an edit, if it can be made; whether it was.
fn edit(alloc: Global, cotree: &mut Cotree, step: &Step) -> Result<bool, Memory>
    requires { IsSoundCotree cotree.old }
    ensures { IfOk result (λ _. IsSoundCotree cotree.new) }
{
    let graph = graph_denoted(alloc, cotree)?;
    match step {
        Step::Insert(x, from, to) => {
            if *from > *to || *to > 6 {
                return Ok(false);
            }
            let names = &LISTS[*from..*to];
            Ok(insert_vertex::<Brand>(cotree, &graph, *x, names, Blank::new(1)))
        }
        Step::Turn(u, v) => Ok(toggle_edge::<Brand>(cotree, &graph, *u, *v, Blank::new(1))),
        Step::Delete(x) => {
            delete_vertex::<Brand>(cotree, &graph, *x, Blank::new(1));
            Ok(graph.has_vertex(*x))
        }
    }
}

// Sees that an edit is made or not, and that the cotree has this tree then, and no place beside it.
fn see(
    rt: &impl Abort,
    alloc: Global,
    cotree: &mut Cotree,
    step: &Step,
    after: (bool, &str, u64),
) -> Result<(), Fail>
    requires { IsSoundCotree cotree.old }
    ensures { IfOk result (λ _. IsSoundCotree cotree.new) }
{
    let done = edit(alloc, cotree, step)?;
    assert_eq!(rt; done, after.0);
    let back = cotree.to_tree(alloc)?;
    let written = text(alloc, &back)?;
    assert!(rt; written.as_slice() == after.1.as_bytes());
    assert_eq!(rt; cotree.node_count(), after.2);
    Ok(())
}

#[test]
fn edits_of_one_cotree(rt: HostRuntime) -> Result<(), Fail> {
    let alloc = rt.alloc();
    let mut cotree = Cotree::new(alloc)?;
    let table = [
        (Step::Insert(0, 0, 0), true, "0", 1),
        (Step::Delete(0), true, "empty", 0),
        (Step::Insert(0, 0, 0), true, "0", 1),
        (Step::Insert(1, 0, 0), true, "P(0,1)", 3),
        (Step::Insert(2, 0, 0), true, "P(0,1,2)", 4),
        (Step::Turn(0, 2), true, "P(S(0,2),1)", 5),
        (Step::Insert(3, 0, 1), true, "P(S(0,P(2,3)),1)", 7),
        (Step::Turn(1, 2), false, "P(S(0,P(2,3)),1)", 7),
        (Step::Delete(0), true, "P(1,2,3)", 4),
        (Step::Insert(0, 1, 3), true, "P(S(0,P(1,2)),3)", 7),
        (Step::Turn(0, 1), true, "P(S(0,2),1,3)", 6),
        (Step::Delete(2), true, "P(0,1,3)", 4),
        (Step::Insert(2, 3, 6), true, "S(P(0,1,3),2)", 6),
    ];
    for (step, done, after, nodes) in &table {
        see(&rt, alloc, &mut cotree, step, (*done, *after, *nodes))?;
    }
    Ok(())
}
