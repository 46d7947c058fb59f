//! Whether a graph on some of its vertices has trivial modules alone.
ghost use Rattle.std.specs.Prelude.{◌↔◌, IfOk, IsTrue};
ghost use Rattle.md_graph.specs.PlainGraph.{adjacent};
ghost use Rattle.md_graph.specs.Sets.{Within};
ghost use Rattle.md_modules.specs.Modules.{HasTrivialModulesAlone};
ghost use Rattle.md_checker.specs.FitTests.{IsSingle, AreSingle};

use md_graph::{GraphOf, Memory, Set};
use md_modules::{CompactSet, back, closure_in, maximal_modules};
use std::alloc::Global;

// Whether each module of the graph on `names` is a name alone, or all of them: all is the least
// module with the first two, no smaller module holds the first one with another, and the maximal
// ones that don't hold it are names alone.
pub(crate) fn has_trivial_modules_alone<const W: usize>(
    alloc: Global,
    graph: &GraphOf<W>,
    names: &Set<W>,
) -> Result<bool, Memory>
    requires { Within names.now graph.now.vertices }
    ensures { IfOk result (λ alone. IsTrue alone
        ↔ HasTrivialModulesAlone (adjacent graph.now) names.now) }
{
    let _vertices = graph.vertices();
    let Some(v) = names.first_from(0) else {
        return Ok(true);
    };
    let Some(j) = names.first_from(v + 1) else {
        return Ok(true);
    };
    let mut held = Set::none();
    closure_in(graph, names, v, j, &mut held);
    if !held.is_same(names) {
        return Ok(false);
    }
    back(graph, names, v, j, &mut held);
    let mut others = names.copy();
    others.remove(v);
    if !held.is_same(&others) {
        return Ok(false);
    }
    let classes = maximal_modules(alloc, graph, names, &others)?;
    Ok(are_alone(&classes))
}

/// Whether each of the sets has one member.
pub fn are_alone<const W: usize>(sets: &[CompactSet<W>]) -> bool
    ensures single { IsTrue result ↔ AreSingle sets.now }
{
    let mut rest = sets;
    while let Some((set, others)) = rest.split_first() {
        if !is_alone(set) {
            return false;
        }
        rest = others;
    }
    true
}

fn is_alone<const W: usize>(set: &CompactSet<W>) -> bool
    ensures { IsTrue result ↔ IsSingle set.now }
{
    match set.alone() {
        Some(_) => true,
        None => false,
    }
}
