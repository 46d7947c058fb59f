//! The children of a set that splits without an arc across, or with both arcs of each pair across.
ghost use Rattle.std.specs.Prelude.{◌≡◌, ℕ, IfOk, IsTrue, MatchOption};
ghost use Rattle.md_graph.specs.NameSet.{IsLeastFrom};
ghost use Rattle.md_graph.specs.Sets.{Has, Within, HasSome};
ghost use Rattle.md_modules.specs.Components.{IsComponent};
ghost use Rattle.md_digraph.specs.PlainDigraph.{has_arc_to};
ghost use Rattle.md_digraph.specs.ArcColours.{between};
ghost use Rattle.md_decompose.specs.Children.{AreChildren};
ghost use Rattle.md_dtree.specs.DirectedTrees.{SplitsWith};

use md_digraph::{DigraphOf, parallel_component, series_component};
use md_graph::{Memory, Set};
use md_modules::CompactSet;
use std::alloc::Global;

// The components of the directed graph on `set` by arcs (`both` is false), or by the lack of an arc
// (`both` is true), where they are two or more; none where there is one, which isn't searched where
// it is known (`whole`).
pub(crate) fn components<const W: usize>(
    alloc: Global,
    graph: &DigraphOf<W>,
    set: &Set<W>,
    whole: bool,
    both: bool,
) -> Result<Option<Vec<CompactSet<W>>>, Memory>
    requires inside { Within set.now graph.now.vertices }
    requires some { HasSome set.now }
    requires known { IsTrue whole → SplitsWith (has_arc_to graph.now) set.now (both, both) → ⊥ }
    ensures { IfOk result (λ found.
        MatchOption found (SplitsWith (has_arc_to graph.now) set.now (both, both) → ⊥)
        (λ sets. SplitsWith (has_arc_to graph.now) set.now (both, both)
        × AreChildren (between (has_arc_to graph.now)) set.now sets.items)) }
{
    if whole {
        return Ok(None);
    }
    let Some(v) = set.first_from(0) else {
        return Ok(None);
    };
    let first = component_at(graph, set, v, both);
    if set.first_in_symmetric_difference(&first, set).is_none() {
        return Ok(None);
    }
    Ok(Some(component_list(alloc, graph, set, first, both)?))
}

// The components, of which `first` is the one with the least name.
fn component_list<const W: usize>(
    alloc: Global,
    graph: &DigraphOf<W>,
    set: &Set<W>,
    first: Set<W>,
    both: bool,
) -> Result<Vec<CompactSet<W>>, Memory>
    requires inside { Within set.now graph.now.vertices }
    requires split { SplitsWith (has_arc_to graph.now) set.now (both, both) }
    requires first { (v : ℕ) × IsLeastFrom set.now 0 v
        × IsComponent (between (has_arc_to graph.now)) set.now v first (both, both) }
    ensures { IfOk result
        (λ sets. AreChildren (between (has_arc_to graph.now)) set.now sets.items) }
{
    let mut rest = set.minus(&first);
    let mut sets = Vec::new(alloc);
    sets.push(CompactSet::of(alloc, &first)?)?;
    while let Some(v) = rest.first_from(0) {
        let next = component_at(graph, &rest, v, both);
        rest.symmetric_difference_with(&next);
        sets.push(CompactSet::of(alloc, &next)?)?;
    }
    Ok(sets)
}

// The component of `v` in the directed graph on `within`.
fn component_at<const W: usize>(graph: &DigraphOf<W>, within: &Set<W>, v: u32, both: bool) -> Set<W>
    requires inside { Within within.now graph.now.vertices }
    requires member { Has within.now v }
    ensures { IsComponent (between (has_arc_to graph.now)) within.now v result (both, both) }
{
    within.within_limit();
    let mut names = Set::none();
    if both {
        series_component(graph, within, v, &mut names);
    } else {
        parallel_component(graph, within, v, &mut names);
    }
    names
}
