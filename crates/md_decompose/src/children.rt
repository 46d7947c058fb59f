//! One node of the tree: its kind, its children, and the pairs of them that it lists.
ghost use Rattle.std.specs.Prelude.{◌≡◌, ℕ, false, true, [], IfOk, IsTrue, MatchOption};
ghost use Rattle.md_graph.specs.NameSet.{IsLeastFrom};
ghost use Rattle.md_graph.specs.PlainGraph.{adjacent, IsGraph};
ghost use Rattle.md_graph.specs.Sets.{NameSet, Has, Within, HasSome, HasTwo};
ghost use Rattle.md_modules.specs.Components.{IsComponent};
ghost use Rattle.md_tree.specs.StrongTrees.{HasKind};
ghost use Rattle.md_decompose.specs.Children.{AreChildren, FitsBelow, Splits};
ghost use Rattle.md_decompose.specs.Turns.{ListsForKind};
ghost use Rattle.md_decompose.specs.Chains.{IsChainOf};

use crate::nested_modules::Nested;
use crate::prime::prime_children;
use crate::quotient::quotient_edges;
use md_graph::{GraphOf, Memory, Set};
use md_modules::{CompactSet, co_component, component};
use md_tree::{Kind, QuotientEdges};
use std::alloc::Global;

// The kind of a set of two vertices or more, the leaf sets of its children, in ascending order of
// their least names, and the pairs of them that it lists. `parent` is the kind of the node above,
// if there is one: below a parallel node nothing is parallel, and below a series node nothing
// series. `chain` has modules of the set, and may get more; `places` is room that
// all nodes use.
pub(crate) fn children<const W: usize>(
    alloc: Global,
    graph: &GraphOf<W>,
    set: &Set<W>,
    parent: Option<Kind>,
    chain: &mut Nested,
    places: &mut Vec<u32>,
) -> Result<(Kind, Vec<CompactSet<W>>, QuotientEdges), Memory>
    requires inside { Within set.now graph.now.vertices }
    requires two { HasTwo set.now }
    requires below { FitsBelow (adjacent graph.now) set.now parent }
    requires chain { IsChainOf (adjacent graph.now) set.now chain.old }
    ensures kind { IfOk result (λ r. HasKind (adjacent graph.now) set.now r.0) }
    ensures sets { IfOk result (λ r. AreChildren (adjacent graph.now) set.now r.1.items) }
    ensures pairs { IfOk result (λ r.
        ListsForKind (adjacent graph.now) r.0 r.1.items r.2.list.items) }
    ensures chain { IfOk result (λ _. IsChainOf (adjacent graph.now) set.now chain.new) }
{
    let (kind, sets) = kind_and_sets(alloc, graph, set, parent, chain)?;
    match kind {
        Kind::Parallel => Ok((Kind::Parallel, sets, no_pairs(alloc))),
        Kind::Series => Ok((Kind::Series, sets, no_pairs(alloc))),
        Kind::Prime => {
            let edges = quotient_edges(alloc, graph, set, &sets, places)?;
            Ok((Kind::Prime, sets, edges))
        }
    }
}

// The same without the pairs.
pub(crate) fn kind_and_sets<const W: usize>(
    alloc: Global,
    graph: &GraphOf<W>,
    set: &Set<W>,
    parent: Option<Kind>,
    chain: &mut Nested,
) -> Result<(Kind, Vec<CompactSet<W>>), Memory>
    requires inside { Within set.now graph.now.vertices }
    requires two { HasTwo set.now }
    requires below { FitsBelow (adjacent graph.now) set.now parent }
    requires chain { IsChainOf (adjacent graph.now) set.now chain.old }
    ensures kind { IfOk result (λ r. HasKind (adjacent graph.now) set.now r.0) }
    ensures sets { IfOk result (λ r. AreChildren (adjacent graph.now) set.now r.1.items) }
    ensures chain { IfOk result (λ _. IsChainOf (adjacent graph.now) set.now chain.new) }
{
    let _vertices = graph.vertices();
    let below_parallel = matches!(parent, Some(Kind::Parallel));
    if let Some(sets) = components(alloc, graph, set, below_parallel, false)? {
        return Ok((Kind::Parallel, sets));
    }
    let below_series = matches!(parent, Some(Kind::Series));
    if let Some(sets) = components(alloc, graph, set, below_series, true)? {
        return Ok((Kind::Series, sets));
    }
    let sets = prime_children(alloc, graph, set, chain)?;
    Ok((Kind::Prime, sets))
}

fn no_pairs(alloc: Global) -> QuotientEdges
    ensures { result.list.items ≡ [] }
{
    QuotientEdges {
        list: Vec::new(alloc),
    }
}

// The components of the graph on `set` (`value` is false), or of its complement (`value` is true),
// where they are two or more; none where there is one, which isn't searched where it is known
// (`whole`).
fn components<const W: usize>(
    alloc: Global,
    graph: &GraphOf<W>,
    set: &Set<W>,
    whole: bool,
    value: bool,
) -> Result<Option<Vec<CompactSet<W>>>, Memory>
    requires graph { IsGraph graph.now }
    requires inside { Within set.now graph.now.vertices }
    requires some { HasSome set.now }
    requires known { IsTrue whole → Splits (adjacent graph.now) set.now value → ⊥ }
    ensures { IfOk result (λ found.
        MatchOption found (Splits (adjacent graph.now) set.now value → ⊥)
        (λ sets. Splits (adjacent graph.now) set.now value
        × AreChildren (adjacent graph.now) set.now sets.items)) }
{
    if whole {
        return Ok(None);
    }
    let Some(v) = set.first_from(0) else {
        return Ok(None);
    };
    let first = component_at(graph, set, v, value);
    if set.first_in_symmetric_difference(&first, set).is_none() {
        return Ok(None);
    }
    Ok(Some(component_list(alloc, graph, set, first, value)?))
}

// The components, of which `first` is the one with the least name.
fn component_list<const W: usize>(
    alloc: Global,
    graph: &GraphOf<W>,
    set: &Set<W>,
    first: Set<W>,
    value: bool,
) -> Result<Vec<CompactSet<W>>, Memory>
    requires graph { IsGraph graph.now }
    requires inside { Within set.now graph.now.vertices }
    requires split { Splits (adjacent graph.now) set.now value }
    requires first { (v : ℕ) × IsLeastFrom set.now 0 v
        × IsComponent (adjacent graph.now) set.now v first value }
    ensures { IfOk result (λ sets. AreChildren (adjacent graph.now) set.now sets.items) }
{
    let mut rest = set.minus(&first);
    let mut sets = Vec::new(alloc);
    sets.push(CompactSet::of(alloc, &first)?)?;
    while let Some(v) = rest.first_from(0) {
        let next = component_at(graph, &rest, v, value);
        rest.symmetric_difference_with(&next);
        sets.push(CompactSet::of(alloc, &next)?)?;
    }
    Ok(sets)
}

// The component of `v` in the graph on `within` (`value` is false), or in its complement (`value`
// is true).
fn component_at<const W: usize>(graph: &GraphOf<W>, within: &Set<W>, v: u32, value: bool) -> Set<W>
    requires inside { Within within.now graph.now.vertices }
    requires member { Has within.now v }
    ensures { IsComponent (adjacent graph.now) within.now v result value }
{
    let _vertices = graph.vertices();
    let mut names = Set::none();
    if value {
        co_component(graph, within, v, &mut names);
    } else {
        component(graph, within, v, &mut names);
    }
    names
}
