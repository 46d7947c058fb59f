//! The children of a prime set of a directed graph.
ghost use Rattle.std.specs.Prelude.{◌≡◌, ◌≢◌, IfOk, IfSome, IfNone};
ghost use Rattle.std.specs.FinSet.{insert, difference};
ghost use Rattle.md_graph.specs.NameSet.{NoneFrom};
ghost use Rattle.md_graph.specs.Sets.{Has, Lacks, Within};
ghost use Rattle.md_modules.specs.Modules.{IsModule, IsLeastModule, IsLeastModuleOver};
ghost use Rattle.md_modules.specs.Kinds.{IsUnsplit};
ghost use Rattle.md_digraph.specs.PlainDigraph.{has_arc_to};
ghost use Rattle.md_digraph.specs.ArcColours.{between};
ghost use Rattle.md_decompose.specs.Children.{AreChildren};

use crate::order_search::end_name;
use md_decompose::in_order;
use md_digraph::{DigraphOf, directed_back, directed_grow, directed_maximal_modules};
use md_graph::{Memory, Set};
use md_modules::CompactSet;
use std::alloc::Global;

// The maximal proper modules of a set of vertices that splits with no colour, in ascending order of
// their least names.
pub(crate) fn prime_children<const W: usize>(
    alloc: Global,
    graph: &DigraphOf<W>,
    set: &Set<W>,
) -> Result<Vec<CompactSet<W>>, Memory>
    requires inside { Within set.now graph.now.vertices }
    requires unsplit { IsUnsplit (between (has_arc_to graph.now)) set.now }
    ensures { IfOk result
        (λ sets. AreChildren (between (has_arc_to graph.now)) set.now sets.items) }
{
    let _vertices = graph.vertices();
    let Some(v) = set.first_from(0) else {
        unreachable!();
    };
    let j = far_from(graph, set, v);
    let mut rest = Set::none();
    directed_back(graph, set, v, j, &mut rest);
    let classes = directed_maximal_modules(alloc, graph, set, &rest)?;
    let first = CompactSet::of(alloc, &set.minus(&rest))?;
    in_order(alloc, first, classes)
}

// A member of the set that no proper module holds with its member `v`. It is sought from both ends
// in turn: of modules inside each other whose names grow outwards, or inwards, one end leaves most
// behind.
fn far_from<const W: usize>(graph: &DigraphOf<W>, set: &Set<W>, v: u32) -> u32
    requires inside { Within set.now graph.now.vertices }
    requires unsplit { IsUnsplit (between (has_arc_to graph.now)) set.now }
    requires member { Has set.now v }
    ensures differ { v ≢ result }
    ensures whole { IsLeastModule (between (has_arc_to graph.now)) set.now v result set.now }
{
    let _vertices = graph.vertices();
    let mut held = Set::none();
    held.insert(v);
    let mut last = v;
    let mut from_end = true;
    while let Some(j) = name_left(set, &held, from_end) {
        hold(graph, set, v, j, &mut held);
        last = j;
        from_end = !from_end;
    }
    last
}

// The greatest or the least member of the set (`from_end` or not) that isn't held; none exactly
// where all are.
fn name_left<const W: usize>(set: &Set<W>, held: &Set<W>, from_end: bool) -> Option<u32>
    ensures found { IfSome result (Has (difference set.now held.now)) }
    ensures none { IfNone result (NoneFrom (difference set.now held.now) 0) }
{
    let left = set.minus(held);
    end_name(&left, from_end)
}

// Grows a module that holds `v` to the least one that has `j` too. Condition: `set` is a set of
// vertices, and `j` a member outside the module.
fn hold<const W: usize>(graph: &DigraphOf<W>, set: &Set<W>, v: u32, j: u32, held: &mut Set<W>)
    requires inside { Within set.now graph.now.vertices }
    requires begun { IsModule (between (has_arc_to graph.now)) set.now held.old }
    requires fixed { Has held.old v }
    requires member { Has set.now j }
    requires new { Lacks held.old j }
    ensures { IsLeastModuleOver (between (has_arc_to graph.now)) set.now (insert held.old j)
        held.new }
{
    let _vertices = graph.vertices();
    let mut todo = Set::none();
    todo.insert(j);
    held.insert(j);
    directed_grow(graph, set, v, held, todo);
}
