//! Checks whole reports.
ghost use Rattle.std.specs.Prelude.{◌≡◌, List, [], ◌∷◌, None, IfOk, IfErr};
ghost use Rattle.std.specs.Option.{option_or};
ghost use Rattle.md_graph.specs.PlainGraph.{PlainGraph};
ghost use Rattle.md_script.specs.declared.item.Item.{Item};
ghost use Rattle.md_script.specs.File.{SpellsScript};
ghost use Rattle.md_input.specs.Spelling.{SpellsGraphs};
ghost use Rattle.md_input.specs.Faults.{graph_fault, one_graph_fault, script_fault, IsStopAt};
ghost use Rattle.md_report.specs.Lines.{limit_of_mode};
ghost use Rattle.md_report.specs.Places.{before_head, before_session};
ghost use Rattle.md_checker.specs.Answers.{IsCheckAnswer};

use crate::answer::CheckAnswer;
use crate::checker::Checker;
use crate::line_judge::judge;
use md_input::{Format, InputStop};
use md_report::{GraphMode, SessionMode};
use std::alloc::Global;

/// Checks a report of a mode over the graphs of a graph file, which is read whole first, under the
/// limit of names of the mode. Errors: the first fault of the graph file; want of memory.
pub fn check_graphs(
    alloc: Global,
    mode: GraphMode,
    from: Format,
    graph: &[u8],
    report: &[u8],
) -> Result<CheckAnswer, InputStop>
    ensures answer { IfOk result (λ answer. (graphs : List PlainGraph)
        × SpellsGraphs from graph.now graphs
        × IsCheckAnswer (before_head mode graphs) report.now answer) }
    ensures faultless { IfOk result (λ _. graph_fault (limit_of_mode mode) from graph.now ≡ None) }
    ensures stops { IfErr result (IsStopAt (graph_fault (limit_of_mode mode) from graph.now)) }
{
    let mut checker = Checker::over_graphs(alloc, mode, from, graph)?;
    Ok(judge(alloc, &mut checker, report)?)
}

/// Checks a report of a session of a mode on the one graph of a graph file, over a script; both are
/// read whole first. Errors: the first fault of the graph file, or its number of graphs, or the
/// first fault of the script; want of memory.
pub fn check_session(
    alloc: Global,
    mode: SessionMode,
    from: Format,
    graph: &[u8],
    script: &[u8],
    report: &[u8],
) -> Result<CheckAnswer, InputStop>
    ensures answer { IfOk result (λ answer. (g : PlainGraph) × (items : List Item)
        × SpellsGraphs from graph.now (g ∷ []) × SpellsScript script.now items
        × IsCheckAnswer (before_session mode g items) report.now answer) }
    ensures faultless { IfOk result (λ _.
        option_or (one_graph_fault from graph.now) (script_fault script.now) ≡ None) }
    ensures stops { IfErr result (IsStopAt
        (option_or (one_graph_fault from graph.now) (script_fault script.now))) }
{
    let mut checker = Checker::over_session(alloc, mode, from, graph, script)?;
    Ok(judge(alloc, &mut checker, report)?)
}
