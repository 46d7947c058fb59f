//! Transitive orientations.
ghost use Rattle.std.specs.Prelude.{◌≡◌, ◌++◌, ℕ, Bool, length, map, IfOk, OnOk};
ghost use Rattle.md_graph.specs.NameSet.{ascending};
ghost use Rattle.md_graph.specs.PlainGraph.{adjacent};
ghost use Rattle.md_forcing.specs.Forcing.{arc};
ghost use Rattle.md_comparability.specs.Chains.{IsShortestChain};
ghost use Rattle.md_comparability.specs.Listed.{arcs_below};
ghost use Rattle.md_comparability.specs.Walking.{IsStopped};
ghost use Rattle.md_orient.specs.Verdicts.{IsVerdict};

use md_comparability::{ClassOrChosen, orient_classes};
use md_forcing::{Arc, ArcSetOf, Arcs, Chain, ForcingTree, Side, chain_of};
use md_graph::{GraphOf, Memory, Set};
use std::alloc::Global;

/// A transitive orientation, or a forcing chain.
#[derive(Drop)]
pub enum Verdict {
    Transitive(Arcs),
    Forced(Chain),
}

/// The arcs of the least-edge orientation, in ascending order of tail, then head, where the graph
/// has a transitive orientation; else a shortest forcing chain. Errors: want of memory.
pub fn orient<const W: usize>(alloc: Global, graph: &GraphOf<W>) -> Result<Verdict, Memory>
    ensures { IfOk result (IsVerdict (adjacent graph.now)) }
{
    let _vertices = graph.vertices();
    match orient_classes(alloc, graph, Side::Edges)? {
        ClassOrChosen::Stopped(trail) => {
            let chain = chain_along(alloc, &trail)?;
            Ok(Verdict::Forced(chain))
        }
        ClassOrChosen::Whole(chosen) => {
            let list = list_of_arcs(alloc, &chosen)?;
            Ok(Verdict::Transitive(Arcs::from_list(list)))
        }
    }
}

// The shortest forcing chain along a trail. Condition: a walk through some graph stopped with the
// trail.
pub(crate) fn chain_along(alloc: Global, trail: &ForcingTree) -> Result<Chain, Memory>
    requires { (e : ℕ → ℕ → Bool) × IsStopped e trail.now }
    ensures { IfOk result (λ chain. (e : ℕ → ℕ → Bool)
        → IsStopped e trail.now → IsShortestChain e chain) }
{
    match chain_of(alloc, trail)? {
        Some(chain) => Ok(chain),
        None => unreachable!(),
    }
}

// The arcs of a set, in ascending order of tail, then head.
fn list_of_arcs<const W: usize>(alloc: Global, arcs: &ArcSetOf<W>) -> Result<Vec<Arc>, Memory>
    ensures { IfOk result (λ list. list.items ≡ arcs_below arcs.now (length arcs.now)) }
{
    let mut list = Vec::new(alloc);
    for tail in 0..arcs.size() {
        list_row(&mut list, tail, arcs.heads(tail))?;
    }
    Ok(list)
}

// Takes in the arcs from `tail` to each of `heads`, ascending.
fn list_row<const W: usize>(list: &mut Vec<Arc>, tail: u32, heads: &Set<W>) -> Result<(), Memory>
    ensures { OnOk result
        (list.new.items ≡ list.old.items ++ map (arc tail) (ascending heads.now)) }
{
    for head in heads.members() {
        list.push(Arc { tail, head })?;
    }
    Ok(())
}
