//! Directed graphs, and the searches on small ones. What is expected was computed from the
//! definitions, over all subsets.
use md_digraph::{
    DIRECTED_NAMES, Digraph, DigraphOf, directed_closure, directed_closure_in, parallel_component,
    series_component,
};
use md_graph::{Memory, Set};
use std::alloc::Global;
use std::process::Abort;
use std::test::Fail;

// The directed graph on the names below `count` with these arcs.
fn digraph_of(
    rt: &impl Abort,
    alloc: Global,
    count: u32,
    arcs: &[(u32, u32)],
) -> Result<Digraph, Memory> {
    let mut g = Digraph::new(alloc)?;
    for v in 0..count {
        join(rt, &mut g, v);
    }
    for (u, v) in arcs {
        lead(rt, &mut g, *u, *v);
    }
    Ok(g)
}

fn join(rt: &impl Abort, g: &mut Digraph, v: u32) {
    assert!(rt; v < DIRECTED_NAMES && !g.has_vertex(v));
    g.add_vertex(v);
}

fn lead(rt: &impl Abort, g: &mut Digraph, u: u32, v: u32) {
    assert!(rt; u != v);
    assert!(rt; g.has_vertex(u));
    assert!(rt; g.has_vertex(v));
    assert!(rt; !g.has_arc(u, v));
    g.add_arc(u, v);
}

// Sees that the set has these members, and no others.
fn expect<const W: usize>(rt: &impl Abort, names: &Set<W>, list: &[u32]) {
    assert_eq!(rt; names.count() as usize, list.len());
    for v in list {
        assert!(rt; names.has(*v), "member {v}");
    }
}

// Sees which vertices come after and before `v`.
fn between(rt: &impl Abort, g: &Digraph, v: u32, after: &[u32], before: &[u32]) {
    assert!(rt; g.has_vertex(v));
    expect(rt, g.successors(v), after);
    expect(rt, g.predecessors(v), before);
    for w in after {
        assert!(rt; g.has_arc(v, *w), "arc to {w}");
    }
    for w in before {
        assert!(rt; g.has_arc(*w, v), "arc from {w}");
    }
}

static NO_ARCS: [(u32, u32); 6] = [
    (63, 0),
    (0, 0),
    (1, 2),
    (DIRECTED_NAMES, 0),
    (0, u32::MAX),
    (u32::MAX, 0),
];

#[test]
fn changes(rt: HostRuntime) -> Result<(), Fail> {
    let last = DIRECTED_NAMES - 1;
    let mut g = Digraph::new(rt.alloc())?;
    for v in [64, 0, last, 63] {
        join(&rt, &mut g, v);
    }
    for (u, v) in [(0, 63), (63, 64), (64, 0), (last, 0), (0, last)] {
        lead(&rt, &mut g, u, v);
    }
    assert_eq!(&rt; g.count(), 4);
    expect(&rt, g.vertices(), &[0, 63, 64, last]);
    between(&rt, &g, 0, &[63, last], &[64, last]);
    between(&rt, &g, 63, &[64], &[0]);
    between(&rt, &g, 64, &[0], &[63]);
    between(&rt, &g, last, &[0], &[0]);
    for (u, v) in &NO_ARCS {
        assert!(&rt; !g.has_arc(*u, *v), "no arc {u} {v}");
    }
    assert!(&rt; !g.has_vertex(1) && !g.has_vertex(DIRECTED_NAMES));
    g.clear();
    assert!(&rt; g.count() == 0 && g.vertices().is_empty());
    assert!(&rt; !g.has_vertex(0) && !g.has_arc(0, 63));
    join(&rt, &mut g, 0);
    join(&rt, &mut g, last);
    between(&rt, &g, 0, &[], &[]);
    between(&rt, &g, last, &[], &[]);
    lead(&rt, &mut g, last, 0);
    between(&rt, &g, 0, &[], &[last]);
    Ok(())
}

const PATH: [(u32, u32); 2] = [(0, 1), (1, 2)];

const CYCLE: [(u32, u32); 3] = [(0, 1), (1, 2), (2, 0)];

// From 2 to 1, and from both to 0.
const ORDER: [(u32, u32); 3] = [(2, 1), (2, 0), (1, 0)];

// The names 0 and 1 are told apart by what enters them alone.
const ENTERED: [(u32, u32); 1] = [(2, 0)];

const PRIME: [(u32, u32); 4] = [(0, 2), (0, 4), (3, 1), (3, 4)];

// The names 0 and 1 are a module, with all kinds of arcs to the others.
const MODULE: [(u32, u32); 11] = [
    (0, 1),
    (2, 0),
    (2, 1),
    (0, 3),
    (1, 3),
    (3, 2),
    (4, 0),
    (0, 4),
    (4, 1),
    (1, 4),
    (2, 5),
];

// All arcs between two pairs, and one inside the first.
const SERIES: [(u32, u32); 9] = [
    (0, 2),
    (0, 3),
    (1, 2),
    (1, 3),
    (2, 0),
    (3, 0),
    (2, 1),
    (3, 1),
    (0, 1),
];

// Both arcs between 0 and 1, one between 2 and 3, none at 4.
const PARALLEL: [(u32, u32); 3] = [(0, 1), (1, 0), (3, 2)];

// The number of vertices, the arcs, two vertices and the least module that holds both.
type Closure<'a> = (u32, &'a [(u32, u32)], u32, u32, &'a [u32]);

static CLOSURES: [Closure<'_>; 17] = [
    (3, &PATH, 0, 1, &[0, 1, 2]),
    (3, &PATH, 0, 2, &[0, 1, 2]),
    (3, &PATH, 1, 1, &[1]),
    (3, &CYCLE, 2, 0, &[0, 1, 2]),
    (3, &ORDER, 0, 1, &[0, 1]),
    (3, &ORDER, 2, 1, &[1, 2]),
    (3, &ORDER, 0, 2, &[0, 1, 2]),
    (3, &ENTERED, 0, 1, &[0, 1, 2]),
    (3, &ENTERED, 0, 2, &[0, 2]),
    (5, &PRIME, 1, 2, &[0, 1, 2, 3, 4]),
    (6, &MODULE, 1, 0, &[0, 1]),
    (6, &MODULE, 0, 4, &[0, 1, 2, 3, 4, 5]),
    (4, &SERIES, 0, 1, &[0, 1]),
    (4, &SERIES, 1, 2, &[0, 1, 2, 3]),
    (5, &PARALLEL, 4, 0, &[0, 1, 4]),
    (5, &PARALLEL, 4, 2, &[2, 3, 4]),
    (5, &PARALLEL, 1, 3, &[0, 1, 2, 3]),
];

// Sees what the least module of `u` and `v` is.
fn sees_least_module(rt: &impl Abort, g: &Digraph, u: u32, v: u32, list: &[u32]) {
    assert!(rt; g.has_vertex(u));
    assert!(rt; g.has_vertex(v));
    let mut into = Set::none();
    directed_closure(g, u, v, &mut into);
    expect(rt, &into, list);
}

#[test]
fn least_modules(rt: HostRuntime) -> Result<(), Fail> {
    for (count, arcs, u, v, list) in &CLOSURES {
        let g = digraph_of(&rt, rt.alloc(), *count, *arcs)?;
        sees_least_module(&rt, &g, *u, *v, *list);
    }
    Ok(())
}

// A part, two of its names, both components of the first, and the least module of the two.
type Part<'a> = (&'a [u32], u32, u32, [&'a [u32]; 3]);

// Sees what both components of `x`, and the least module of `x` and `y`, are in a part.
fn sees_components(rt: &impl Abort, g: &Digraph, part: &[u32], x: u32, y: u32, lists: [&[u32]; 3]) {
    let mut within = Set::none();
    for v in part {
        assert!(rt; *v < DIRECTED_NAMES);
        within.insert(*v);
    }
    assert!(rt; within.is_subset(g.vertices()));
    assert!(rt; within.has(x));
    assert!(rt; within.has(y));
    let mut into = Set::none();
    parallel_component(g, &within, x, &mut into);
    expect(rt, &into, lists[0]);
    series_component(g, &within, x, &mut into);
    expect(rt, &into, lists[1]);
    directed_closure_in(g, &within, x, y, &mut into);
    expect(rt, &into, lists[2]);
}

fn expect_parts(rt: &impl Abort, g: &Digraph, parts: &[Part<'_>]) {
    for (part, x, y, lists) in parts {
        sees_components(rt, g, part, *x, *y, *lists);
    }
}

static PARALLEL_PARTS: [Part<'_>; 5] = [
    (&[0, 1, 2, 3, 4], 0, 1, [&[0, 1], &[0, 1, 2, 3, 4], &[0, 1]]),
    (
        &[0, 1, 2, 3, 4],
        2,
        4,
        [&[2, 3], &[0, 1, 2, 3, 4], &[2, 3, 4]],
    ),
    (&[0, 1, 2, 3, 4], 4, 4, [&[4], &[0, 1, 2, 3, 4], &[4]]),
    (&[0, 2, 3], 0, 2, [&[0], &[0, 2, 3], &[0, 2, 3]]),
    (&[0, 1, 3, 4], 1, 3, [&[0, 1], &[0, 1, 3, 4], &[0, 1, 3]]),
];

static SERIES_PARTS: [Part<'_>; 3] = [
    (&[0, 1, 2, 3], 1, 0, [&[0, 1, 2, 3], &[0, 1], &[0, 1]]),
    (&[0, 1, 2, 3], 3, 2, [&[0, 1, 2, 3], &[2, 3], &[2, 3]]),
    (&[0, 1, 2], 2, 0, [&[0, 1, 2], &[2], &[0, 1, 2]]),
];

static MODULE_PARTS: [Part<'_>; 3] = [
    (&[0, 1, 2], 0, 2, [&[0, 1, 2], &[0, 1, 2], &[0, 2]]),
    (&[0, 4], 0, 4, [&[0, 4], &[0], &[0, 4]]),
    (&[1, 5], 5, 1, [&[5], &[1, 5], &[1, 5]]),
];

#[test]
fn parts(rt: HostRuntime) -> Result<(), Fail> {
    let g = digraph_of(&rt, rt.alloc(), 5, &PARALLEL)?;
    expect_parts(&rt, &g, &PARALLEL_PARTS);
    let g = digraph_of(&rt, rt.alloc(), 4, &SERIES)?;
    expect_parts(&rt, &g, &SERIES_PARTS);
    let g = digraph_of(&rt, rt.alloc(), 6, &MODULE)?;
    expect_parts(&rt, &g, &MODULE_PARTS);
    Ok(())
}

// A tournament without a module, on names of one word.
#[test]
fn small_digraphs(rt: HostRuntime) -> Result<(), Fail> {
    let mut g: DigraphOf<1> = DigraphOf::new(rt.alloc())?;
    for v in [7, 0, 63] {
        assert!(&rt; v < 64 && !g.has_vertex(v));
        g.add_vertex(v);
    }
    for (u, v) in [(0, 7), (7, 63), (63, 0)] {
        assert!(&rt; u != v);
        assert!(&rt; g.has_vertex(u));
        assert!(&rt; g.has_vertex(v));
        assert!(&rt; !g.has_arc(u, v));
        g.add_arc(u, v);
    }
    assert!(&rt; g.has_arc(63, 0) && !g.has_arc(0, 63) && !g.has_arc(64, 0));
    let mut into = Set::none();
    assert!(&rt; g.has_vertex(0));
    assert!(&rt; g.has_vertex(63));
    expect(&rt, g.predecessors(0), &[63]);
    directed_closure(&g, 0, 63, &mut into);
    expect(&rt, &into, &[0, 7, 63]);
    series_component(&g, g.vertices(), 63, &mut into);
    expect(&rt, &into, &[0, 7, 63]);
    g.clear();
    assert!(&rt; g.count() == 0 && !g.has_arc(0, 7));
    Ok(())
}
