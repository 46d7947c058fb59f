//! The children of a prime set.
ghost use Rattle.std.specs.Prelude.{◌≡◌, ◌≢◌, IfOk};
ghost use Rattle.std.specs.FinSet.{insert};
ghost use Rattle.md_graph.specs.PlainGraph.{adjacent};
ghost use Rattle.md_graph.specs.Sets.{Has, Lacks, Within};
ghost use Rattle.md_modules.specs.Modules.{IsModule, IsLeastModule, IsLeastModuleOver};
ghost use Rattle.md_modules.specs.Kinds.{IsPrime};
ghost use Rattle.md_decompose.specs.Children.{AreChildren};
ghost use Rattle.md_decompose.specs.Chains.{IsChainOf, AreSteps};

use crate::classes::modules_inside;
use crate::nested_modules::Nested;
use crate::ordered::in_order;
use md_graph::{GraphOf, Memory, Set};
use md_modules::{CompactSet, back, grow};
use std::alloc::Global;

// The maximal proper modules of a prime set of vertices, in ascending order of their least names.
// `chain` has modules of the set, and may get more.
pub(crate) fn prime_children<const W: usize>(
    alloc: Global,
    graph: &GraphOf<W>,
    set: &Set<W>,
    chain: &mut Nested,
) -> Result<Vec<CompactSet<W>>, Memory>
    requires inside { Within set.now graph.now.vertices }
    requires prime { IsPrime (adjacent graph.now) set.now }
    requires chain { IsChainOf (adjacent graph.now) set.now chain.old }
    ensures children { IfOk result (λ sets.
        AreChildren (adjacent graph.now) set.now sets.items) }
    ensures chain { IfOk result (λ _. IsChainOf (adjacent graph.now) set.now chain.new) }
{
    let _vertices = graph.vertices();
    let Some(v) = set.first_from(0) else {
        unreachable!();
    };
    let j = far_from(graph, set, v, chain)?;
    let mut rest = Set::none();
    back(graph, set, v, j, &mut rest);
    let classes = modules_inside(alloc, graph, set, &rest)?;
    let first = CompactSet::of(alloc, &set.minus(&rest))?;
    in_order(alloc, first, classes)
}

// A member of a prime set that no proper module holds with its member `v`. The search begins with
// the last module of the chain, and puts those that it grows behind it, but for the whole set.
fn far_from<const W: usize>(
    graph: &GraphOf<W>,
    set: &Set<W>,
    v: u32,
    chain: &mut Nested,
) -> Result<u32, Memory>
    requires inside { Within set.now graph.now.vertices }
    requires prime { IsPrime (adjacent graph.now) set.now }
    requires member { Has set.now v }
    requires steps { AreSteps (adjacent graph.now) set.now v
        chain.old.taken.items chain.old.steps.items }
    ensures differ { IfOk result (λ j. v ≢ j) }
    ensures whole { IfOk result (λ j. IsLeastModule (adjacent graph.now) set.now v j set.now) }
    ensures steps { IfOk result (λ _. AreSteps (adjacent graph.now) set.now v
        chain.new.taken.items chain.new.steps.items) }
{
    let _vertices = graph.vertices();
    let mut begun = chain.names(v);
    let mut last = chain.last_led(v);
    while let Some(j) = set.first_in_symmetric_difference(&begun, set) {
        let mut held = begun.copy();
        hold(graph, set, v, j, &mut held);
        if held.is_same(set) {
            return Ok(j);
        }
        chain.push(&begun, &held, j)?;
        begun = held;
        last = j;
    }
    Ok(last)
}

// Grows a module that holds `v` to the least one that has `j` too. Condition: `set` is a set of
// vertices, and `j` a member outside the module.
fn hold<const W: usize>(graph: &GraphOf<W>, set: &Set<W>, v: u32, j: u32, held: &mut Set<W>)
    requires inside { Within set.now graph.now.vertices }
    requires begun { IsModule (adjacent graph.now) set.now held.old }
    requires fixed { Has held.old v }
    requires member { Has set.now j }
    requires new { Lacks held.old j }
    ensures { IsLeastModuleOver (adjacent graph.now) set.now (insert held.old j) held.new }
{
    let _vertices = graph.vertices();
    let mut todo = Set::none();
    todo.insert(j);
    held.insert(j);
    grow(graph, set, v, held, todo);
}
