//! Paths on four vertices nested in one another, taken apart by both programs: the graph so far
//! stands in the place of one vertex of a path whose other three are new. The names of the vertices
//! rise with their age, fall, or are shuffled.
use super::by_closures::compare;
use super::join;
use md_graph::{Graph, Memory, NAMES};
use std::alloc::Global;
use std::process::Abort;
use std::test::Fail;

#[derive(Clone, Copy)]
enum Order {
    Rising,
    Falling,
    Shuffled,
}

const SHUFFLED: [u32; 40] = [
    5, 35, 12, 19, 15, 10, 30, 21, 8, 11, 39, 0, 28, 14, 38, 18, 22, 31, 27, 24, 17, 32, 7, 26, 37,
    13, 2, 1, 33, 16, 29, 36, 23, 6, 34, 4, 3, 25, 9, 20,
];

// The name of the vertex that came at a place.
fn name_at(rt: &impl Abort, order: Order, place: u32) -> u32 {
    assert!(rt; place < 40);
    match order {
        Order::Rising => place,
        Order::Falling => 39 - place,
        Order::Shuffled => SHUFFLED[place as usize],
    }
}

fn add(rt: &impl Abort, graph: &mut Graph, v: u32) {
    assert!(rt; v < NAMES && !graph.has_vertex(v));
    graph.add_vertex(v);
}

fn join_places(rt: &impl Abort, graph: &mut Graph, order: Order, u: u32, v: u32) {
    join(rt, graph, name_at(rt, order, u), name_at(rt, order, v));
}

// Puts the first `count` vertices in the place of an end of a path, or of one in its middle.
fn put_in_path(rt: &impl Abort, graph: &mut Graph, order: Order, count: u32, middle: bool) {
    assert!(rt; count < 40);
    for place in count..count + 3 {
        add(rt, graph, name_at(rt, order, place));
    }
    join_to_first(rt, graph, order, count, count);
    if middle {
        join_to_first(rt, graph, order, count, count + 1);
    } else {
        join_places(rt, graph, order, count, count + 1);
    }
    join_places(rt, graph, order, count + 1, count + 2);
}

// Joins the first `count` vertices to the one that came at a place.
fn join_to_first(rt: &impl Abort, graph: &mut Graph, order: Order, count: u32, place: u32) {
    for other in 0..count {
        join_places(rt, graph, order, other, place);
    }
}

// Paths nested so many times, always at an end or in the middle, or in both in turn.
fn nest_paths(
    rt: &impl Abort,
    alloc: Global,
    order: Order,
    times: u32,
    first: bool,
    turned: bool,
) -> Result<Graph, Memory> {
    let mut graph = Graph::new(alloc)?;
    add(rt, &mut graph, name_at(rt, order, 0));
    let mut middle = first;
    for level in 0..times {
        assert!(rt; level < 13);
        put_in_path(rt, &mut graph, order, 3 * level + 1, middle);
        middle ^= turned;
    }
    Ok(graph)
}

// Nested paths of each size.
fn compare_nested(
    rt: &impl Abort,
    alloc: Global,
    order: Order,
    first: bool,
    turned: bool,
) -> Result<(), Memory> {
    for times in 1..14 {
        let graph = nest_paths(rt, alloc, order, times, first, turned)?;
        compare(rt, alloc, &graph)?;
    }
    Ok(())
}

#[test]
fn nested_paths(rt: HostRuntime) -> Result<(), Fail> {
    for order in [Order::Rising, Order::Falling, Order::Shuffled] {
        compare_nested(&rt, rt.alloc(), order, false, false)?;
        compare_nested(&rt, rt.alloc(), order, true, false)?;
        compare_nested(&rt, rt.alloc(), order, false, true)?;
    }
    Ok(())
}
