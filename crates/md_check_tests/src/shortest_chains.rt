//! Shortest forcing chains, and checks of reports of them.
use md_checker::CheckAnswer;
use md_graph::{GraphOf, Memory};
use md_input::Format;
use md_shortchain::{check_shortest, is_shortest, shortest_chain};
use std::alloc::Global;
use std::process::Abort;
use std::test::Fail;

// The number of arcs of a shortest chain of the graph on six names; 0 where there is none.
fn arcs_of(rt: &impl Abort, alloc: Global, edges: &[(u32, u32)]) -> Result<u64, Memory> {
    let graph: GraphOf<1> = GraphOf::from_edges(alloc, 6, edges)?.expect(rt, "edges");
    match shortest_chain(alloc, &graph)? {
        Some(chain) => {
            assert!(rt; is_shortest(alloc, &graph, &chain)?);
            Ok(chain.len())
        }
        None => Ok(0),
    }
}

// The numbers are those of a breadth-first search by another program (`bench/shortest.py`).
#[test]
fn chains_of_small_graphs(rt: HostRuntime) -> Result<(), Fail> {
    let alloc = rt.alloc();
    let triangle = [(0, 1), (1, 2), (0, 2)];
    let cycle = [(0, 1), (1, 2), (2, 3), (3, 4), (0, 4)];
    let twin = [(0, 1), (1, 2), (2, 3), (3, 4), (0, 4), (0, 5), (2, 5)];
    assert_eq!(rt; arcs_of(&rt, alloc, &triangle)?, 0);
    assert_eq!(rt; arcs_of(&rt, alloc, &cycle)?, 6);
    assert_eq!(rt; arcs_of(&rt, alloc, &twin)?, 6);
    Ok(())
}

#[test]
fn checks_of_reports(rt: HostRuntime) -> Result<(), Fail> {
    let alloc = rt.alloc();
    let six = b"mdt compare\nno 0>1 2>1 2>3 4>3 4>0 1>0\nend\n";
    let seven = b"mdt compare\nno 0>1 0>5 2>5 2>3 4>3 4>0 1>0\nend\n";
    match check_shortest(alloc, Format::G6, b"Ehe_\n", six) {
        Ok(answer) => assert_eq!(rt; answer, CheckAnswer::Accepted),
        Err(_) => assert!(rt; false),
    }
    match check_shortest(alloc, Format::G6, b"Ehe_\n", seven) {
        Ok(answer) => assert_eq!(rt; answer, CheckAnswer::Rejected(2)),
        Err(_) => assert!(rt; false),
    }
    Ok(())
}
