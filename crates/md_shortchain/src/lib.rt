//! Shortest forcing chains: the levels of a class, a shortest chain of a graph, whether a chain is
//! one, and checks of reports of them.
#![tactic(auto)]

ghost use Rattle.std.specs.Prelude.{◌≡◌, List, None, IfOk, IfErr, IfSome, IfNone};
ghost use Rattle.md_graph.specs.PlainGraph.{PlainGraph, adjacent};
ghost use Rattle.md_comparability.specs.Chains.{HasForcingChain, IsShortestChain};
ghost use Rattle.md_report.specs.declared.line.GraphMode.TheVariants as graph_modes;
ghost use Rattle.md_report.specs.Lines.{limit_of_mode};
ghost use Rattle.md_report.specs.Places.{before_head};
ghost use Rattle.md_input.specs.Spelling.{SpellsGraphs};
ghost use Rattle.md_input.specs.Faults.{graph_fault, IsStopAt};
ghost use Rattle.md_checker.specs.Answers.{IsCheckAnswer};

use md_checker::{CheckAnswer, check_graphs};
use md_forcing::Chain;
use md_graph::{GraphOf, Memory};
use md_input::{Format, InputStop};
pub use md_levels::{Levels, is_shortest, levels_from};
use md_orient::{Verdict, orient};
use md_report::GraphMode;
use std::alloc::Global;

/// A forcing chain of the graph such that none has fewer arcs; `None` exactly where it has no
/// forcing chain. Errors: want of memory.
pub fn shortest_chain<const W: usize>(
    alloc: Global,
    graph: &GraphOf<W>,
) -> Result<Option<Chain>, Memory>
    ensures found { IfOk result (λ answer. IfSome answer (IsShortestChain (adjacent graph.now))) }
    ensures none { IfOk result (λ answer.
        IfNone answer (HasForcingChain (adjacent graph.now) → ⊥)) }
{
    let _vertices = graph.vertices();
    match orient(alloc, graph)? {
        Verdict::Forced(chain) => Ok(Some(chain)),
        Verdict::Transitive(_) => Ok(None),
    }
}

/// Checks a report of the least-edge orientations and the shortest forcing chains of the graphs of
/// a graph file, which is read whole first, under the limit of names of orientations. Errors: the
/// first fault of the graph file; want of memory.
pub fn check_shortest(
    alloc: Global,
    from: Format,
    graph: &[u8],
    report: &[u8],
) -> Result<CheckAnswer, InputStop>
    ensures answer { IfOk result (λ answer. (graphs : List PlainGraph)
        × SpellsGraphs from graph.now graphs
        × IsCheckAnswer (before_head graph_modes.Shortest graphs) report.now answer) }
    ensures faultless { IfOk result (λ _.
        graph_fault (limit_of_mode graph_modes.Shortest) from graph.now ≡ None) }
    ensures stops { IfErr result (IsStopAt
        (graph_fault (limit_of_mode graph_modes.Shortest) from graph.now)) }
{
    check_graphs(alloc, GraphMode::Shortest, from, graph, report)
}
