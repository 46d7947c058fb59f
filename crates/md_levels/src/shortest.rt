//! Whether a forcing chain is a shortest one.
ghost use Rattle.std.specs.Prelude.{◌↔◌, IfOk, IsTrue};
ghost use Rattle.md_graph.specs.PlainGraph.{adjacent};
ghost use Rattle.md_comparability.specs.Chains.{IsForcingChain, IsShortestChain};

use crate::levels_from;
use md_forcing::{Arc, Chain};
use md_graph::{GraphOf, Memory};
use std::alloc::Global;

/// Whether no forcing chain of the graph has fewer arcs. Condition: it is a forcing chain of the
/// graph. Errors: want of memory.
pub fn is_shortest<const W: usize>(
    alloc: Global,
    graph: &GraphOf<W>,
    chain: &Chain,
) -> Result<bool, Memory>
    requires chain { IsForcingChain (adjacent graph.now) chain.now }
    ensures exactly { IfOk result (λ is. IsTrue is
        ↔ IsShortestChain (adjacent graph.now) chain.now) }
{
    let _vertices = graph.vertices();
    let first = chain.get(0);
    let levels = levels_from(alloc, graph, first)?;
    let reverse = Arc {
        tail: first.head,
        head: first.tail,
    };
    match levels.level_of(reverse) {
        Some(steps) => Ok(chain.len() - 1 == steps),
        None => unreachable!(),
    }
}
