//! Whether the heads of the children of a prime node have trivial modules alone.
ghost use Rattle.std.specs.Prelude.{◌↔◌, IfOk, IsTrue};
ghost use Rattle.md_graph.specs.Sets.{Within};
ghost use Rattle.md_modules.specs.Modules.{HasTrivialModulesAlone};
ghost use Rattle.md_digraph.specs.PlainDigraph.{has_arc_to};
ghost use Rattle.md_digraph.specs.ArcColours.{between};

use md_checker::are_alone;
use md_digraph::{DigraphOf, directed_back, directed_closure_in, directed_maximal_modules};
use md_graph::{Memory, Set};
use std::alloc::Global;

// Whether each module of the directed graph on `names` is a name alone, or all of them: all is the
// least module with the first two, no smaller module holds the first one with another, and the
// maximal ones that don't hold it are names alone.
pub(crate) fn has_trivial_modules_alone<const W: usize>(
    alloc: Global,
    graph: &DigraphOf<W>,
    names: &Set<W>,
) -> Result<bool, Memory>
    requires { Within names.now graph.now.vertices }
    ensures { IfOk result (λ alone. IsTrue alone
        ↔ HasTrivialModulesAlone (between (has_arc_to graph.now)) names.now) }
{
    let _vertices = graph.vertices();
    let Some(v) = names.first_from(0) else {
        return Ok(true);
    };
    let Some(j) = names.first_from(v + 1) else {
        return Ok(true);
    };
    let mut held = Set::none();
    directed_closure_in(graph, names, v, j, &mut held);
    if !held.is_same(names) {
        return Ok(false);
    }
    directed_back(graph, names, v, j, &mut held);
    let mut others = names.copy();
    others.remove(v);
    if !held.is_same(&others) {
        return Ok(false);
    }
    let classes = directed_maximal_modules(alloc, graph, names, &others)?;
    Ok(are_alone(&classes))
}
