//! The searches for modules and components on small graphs.
use md_graph::{Graph, Memory, NAMES, Names, WORDS};
use md_modules::{
    CompactSet, back, closure, closure_in, co_component, co_connected, component, connected,
    cut_classes, is_module, maximal_modules, one_class,
};
use std::alloc::Global;
use std::process::Abort;
use std::test::Fail;

fn set(rt: &impl Abort, list: &[u32]) -> Names {
    let mut names = Names::none();
    for v in list {
        assert!(rt; *v < NAMES);
        names.insert(*v);
    }
    names
}

// Sees that the set has these members, and no others.
fn expect(rt: &impl Abort, names: &Names, list: &[u32]) {
    assert_eq!(rt; names.count() as usize, list.len());
    for v in list {
        assert!(rt; names.has(*v), "member {v}");
    }
}

// Sees what the least module of `u` and `v` is.
fn sees_least_module(rt: &impl Abort, g: &Graph, u: u32, v: u32, list: &[u32]) {
    assert!(rt; g.has_vertex(u));
    assert!(rt; g.has_vertex(v));
    let mut into = Names::none();
    closure(g, u, v, &mut into);
    expect(rt, &into, list);
}

// Sees what the component of `x`, that of the complement, and the least module of `x` and `y` in a
// part are.
fn sees_components(rt: &impl Abort, g: &Graph, part: &[u32], x: u32, y: u32, lists: [&[u32]; 3]) {
    let within = set(rt, part).and(g.vertices());
    assert!(rt; within.has(x));
    assert!(rt; within.has(y));
    let mut into = Names::none();
    component(g, &within, x, &mut into);
    expect(rt, &into, lists[0]);
    co_component(g, &within, x, &mut into);
    expect(rt, &into, lists[1]);
    closure_in(g, &within, x, y, &mut into);
    expect(rt, &into, lists[2]);
}

// Sees which names no smaller module holds with `v`, in a part that is the least module of `v` and
// `j`.
fn sees_apart_names(rt: &impl Abort, g: &Graph, part: &[u32], v: u32, j: u32, list: &[u32]) {
    let within = set(rt, part).and(g.vertices());
    assert!(rt; v != j);
    assert!(rt; within.has(v));
    assert!(rt; within.has(j));
    let mut least = Names::none();
    closure_in(g, &within, v, j, &mut least);
    let rest = within.minus(&least);
    assert!(rt; rest.is_empty());
    let mut into = Names::none();
    back(g, &within, v, j, &mut into);
    expect(rt, &into, list);
}

// Sees what the maximal ones among the modules of the graph inside a part with `x` are.
fn sees_maximal_modules(
    rt: &impl Abort,
    alloc: Global,
    g: &Graph,
    part: &[u32],
    x: u32,
    lists: [&[u32]; 2],
) -> Result<(), Memory> {
    let rest = set(rt, part);
    assert!(rt; rest.is_subset(g.vertices()));
    assert!(rt; rest.has(x));
    expect_classes(rt, maximal_modules(alloc, g, g.vertices(), &rest)?, lists);
    let begun = cut_classes(alloc, g, g.vertices(), &rest, one_class(alloc, &rest)?, 1)?;
    assert_eq!(rt; begun.len(), 1);
    let classes = cut_classes(alloc, g, g.vertices(), &rest, begun, 3)?;
    expect_classes(rt, classes, lists);
    Ok(())
}

// Sees that the classes are these, in this order.
fn expect_classes(rt: &impl Abort, classes: Vec<CompactSet<WORDS>>, lists: [&[u32]; 2]) {
    assert_eq!(rt; classes.len(), 2);
    for (class, list) in classes.into_iter().zip(lists) {
        assert_eq!(rt; class.count() as usize, list.len());
        assert_eq!(rt; class.alone().is_some(), list.len() == 1);
        assert_eq!(rt; class.first(), list.first().copied());
        let mut room = None;
        expect(rt, class.set_in(&mut room), list);
    }
}

// Sees what a block is once names were taken in.
fn sees_insertions(
    rt: &impl Abort,
    alloc: Global,
    names: [u32; 4],
    list: &[u32],
) -> Result<(), Memory> {
    assert!(rt; names[0] < NAMES);
    let mut block = CompactSet::<WORDS>::one(names[0]);
    for name in names {
        assert!(rt; name < NAMES);
        block.insert(alloc, name)?;
    }
    let mut room = None;
    expect(rt, block.set_in(&mut room), list);
    Ok(())
}

// The path 0-1-2-3, with 4 beside 0.
static EDGES: [(u32, u32); 4] = [(0, 1), (1, 2), (2, 3), (1, 4)];

// Two vertices, and the least module that holds both.
static CLOSURES: [(u32, u32, &[u32]); 3] = [
    (0, 4, &[0, 4]),
    (1, 2, &[0, 1, 2, 3, 4]),
    (3, 3, &[3]),
];

// Names, and whether they are a module.
static SETS: [(&[u32], bool); 6] = [
    (&[0, 4], true),
    (&[0, 1, 2, 3, 4], true),
    (&[0, 1], false),
    (&[], false),
    (&[9], false),
    (&[0, 1, 2, 3, 4, 9], false),
];

#[test]
fn modules(rt: HostRuntime) -> Result<(), Fail> {
    let g = Graph::from_edges(rt.alloc(), 5, &EDGES)?.expect(&rt, "edges");
    for (u, v, list) in &CLOSURES {
        sees_least_module(&rt, &g, *u, *v, *list);
    }
    for (list, whether) in &SETS {
        assert_eq!(rt; is_module(&g, &set(&rt, *list)), *whether);
    }
    Ok(())
}

// A part, two of its names, both components of the first, and the least module of the two.
type Part<'a> = (&'a [u32], u32, u32, [&'a [u32]; 3]);

static PARTS: [Part<'_>; 3] = [
    (&[0, 2, 3, 9], 2, 3, [&[2, 3], &[0, 2, 3], &[2, 3]]),
    (
        &[0, 1, 2, 3],
        1,
        2,
        [&[0, 1, 2, 3], &[0, 1, 2, 3], &[0, 1, 2, 3]],
    ),
    (&[0, 1, 4], 0, 4, [&[0, 1, 4], &[0, 4], &[0, 4]]),
];

#[test]
fn parts(rt: HostRuntime) -> Result<(), Fail> {
    let g = Graph::from_edges(rt.alloc(), 5, &EDGES)?.expect(&rt, "edges");
    for (part, x, y, lists) in &PARTS {
        sees_components(&rt, &g, *part, *x, *y, *lists);
    }
    sees_apart_names(&rt, &g, &[0, 1, 2, 3, 4], 0, 1, &[1, 2, 3]);
    sees_apart_names(&rt, &g, &[0, 3], 3, 0, &[0]);
    Ok(())
}

#[test]
fn classes(rt: HostRuntime) -> Result<(), Fail> {
    let g = Graph::from_edges(rt.alloc(), 5, &EDGES)?.expect(&rt, "edges");
    sees_maximal_modules(&rt, rt.alloc(), &g, &[0, 3, 4], 3, [&[0, 4], &[3]])?;
    sees_insertions(&rt, rt.alloc(), [5, 5, 5, 5], &[5])?;
    sees_insertions(&rt, rt.alloc(), [5, 70, 5, 4], &[4, 5, 70])?;
    Ok(())
}

// Sees whether a graph and its complement are connected.
fn expect_connected(
    rt: &impl Abort,
    alloc: Global,
    count: u32,
    edges: &[(u32, u32)],
    wanted: (bool, bool),
) -> Result<(), Memory> {
    assert!(rt; count <= NAMES);
    let g = Graph::from_edges(alloc, count, edges)?.expect(rt, "edges");
    assert_eq!(rt;
        (connected(&g), co_connected(&g)),
        wanted,
        "{count} vertices"
    );
    Ok(())
}

// A number of vertices, edges, and whether the graph and its complement are connected.
static GRAPHS: [(u32, &[(u32, u32)], bool, bool); 6] = [
    (0, &[], true, true),
    (1, &[], true, true),
    (2, &[], false, true),
    (3, &[(0, 1), (1, 2), (0, 2)], true, false),
    (4, &[(0, 1), (1, 2), (2, 3)], true, true),
    (4, &[(0, 2), (1, 2), (0, 3), (1, 3)], true, false),
];

#[test]
fn connectedness(rt: HostRuntime) -> Result<(), Fail> {
    for (count, edges, whole, co_whole) in &GRAPHS {
        expect_connected(&rt, rt.alloc(), *count, *edges, (*whole, *co_whole))?;
    }
    Ok(())
}
