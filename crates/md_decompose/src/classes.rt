//! The maximal ones among the modules inside a part of a prime set.
ghost use Rattle.std.specs.Prelude.{IfOk};
ghost use Rattle.md_graph.specs.PlainGraph.{adjacent};
ghost use Rattle.md_graph.specs.Sets.{HasSome, Within};
ghost use Rattle.md_modules.specs.Classes.{HoldsModules, AreMaximalInside};

use crate::refined::refined_classes;
use md_graph::{GraphOf, Memory, Set};
use md_modules::{CompactSet, cut_classes, one_class};
use std::alloc::Global;

// So many classes are cut one by one before it is asked whether the set is large and sparse: most
// sets never have so many.
const SOME: usize = 64;
// A set of so many vertices is large: a pass over all neighbours of all members is worth its cost.
const LARGE: u32 = 512;
// So many members of a set are asked how many neighbours they have: they stand far apart, since the
// first ones or the last ones alone may have few neighbours in a dense graph.
const ASKED: u32 = 8;
// In a sparse set these members together have at most one in so many of the members beside them.
const SPARSE: u32 = 8;

// The maximal ones among the modules of `set` that are parts of `rest`, in any order; they
// partition `rest`: the same as `maximal_modules` finds, quicker on large sparse sets. Condition:
// `rest` is a nonempty part of `set`. Errors: want of memory.
pub(crate) fn modules_inside<const W: usize>(
    alloc: Global,
    graph: &GraphOf<W>,
    set: &Set<W>,
    rest: &Set<W>,
) -> Result<Vec<CompactSet<W>>, Memory>
    requires inside { Within set.now graph.now.vertices }
    requires part { Within rest.now set.now }
    requires some { HasSome rest.now }
    ensures { IfOk result
        (λ classes. AreMaximalInside (adjacent graph.now) set.now rest.now classes.items) }
{
    let first = one_class(alloc, rest)?;
    let begun = cut_classes(alloc, graph, set, rest, first, SOME)?;
    if begun.len() < SOME {
        return Ok(begun);
    }
    let classes = finer_classes(alloc, graph, set, rest, begun)?;
    cut_classes(alloc, graph, set, rest, classes, usize::MAX)
}

// Classes to go on from: those begun, or those that one pass over all neighbours gives in a large
// sparse set, where few of them still are to be cut.
fn finer_classes<const W: usize>(
    alloc: Global,
    graph: &GraphOf<W>,
    set: &Set<W>,
    rest: &Set<W>,
    begun: Vec<CompactSet<W>>,
) -> Result<Vec<CompactSet<W>>, Memory>
    requires inside { Within set.now graph.now.vertices }
    requires part { Within rest.now set.now }
    requires some { HasSome rest.now }
    requires holds { HoldsModules (adjacent graph.now) set.now rest.now begun.items }
    ensures { IfOk result
        (λ classes. HoldsModules (adjacent graph.now) set.now rest.now classes.items) }
{
    if is_large_and_sparse(graph, set) {
        return refined_classes(alloc, graph, set, rest);
    }
    Ok(begun)
}

// Whether a set of vertices is large, and members of it that stand far apart have few neighbours
// in it.
fn is_large_and_sparse<const W: usize>(graph: &GraphOf<W>, set: &Set<W>) -> bool {
    let count = set.count();
    if count < LARGE {
        return false;
    }
    set.within_limit();
    let apart = set.last().unwrap_or(0) / ASKED;
    let mut near = Set::none();
    for part in 0..ASKED {
        if let Some(v) = set.first_from(apart * part) {
            near.union_with(graph.row(v));
        }
    }
    near.and(set).count() <= count / SPARSE
}
