//! Checks of reports of sessions on trivially perfect graphs and on threshold graphs.
#![tactic(auto)]

ghost use Rattle.std.specs.Prelude.{◌≡◌, List, [], ◌∷◌, None, IfOk, IfErr};
ghost use Rattle.std.specs.Option.{option_or};
ghost use Rattle.md_graph.specs.PlainGraph.{PlainGraph};
ghost use Rattle.md_script.specs.declared.item.Item.{Item};
ghost use Rattle.md_script.specs.File.{SpellsScript};
ghost use Rattle.md_input.specs.Spelling.{SpellsGraphs};
ghost use Rattle.md_input.specs.Faults.{one_graph_fault, script_fault, IsStopAt};
ghost use Rattle.md_report.specs.declared.line.SessionMode.TheVariants.{Of};
ghost use Rattle.md_report.specs.Places.{before_session};
ghost use Rattle.md_checker.specs.Answers.{IsCheckAnswer};

use md_bar::Class;
use md_checker::{CheckAnswer, check_session};
use md_input::{Format, InputStop};
use md_report::SessionMode;
use std::alloc::Global;

/// Checks a report of a session on a class of graphs on the one graph of a graph file, over a
/// script; both are read whole first. Errors: the first fault of the graph file, or its number of
/// graphs, or the first fault of the script; want of memory.
pub fn check_class(
    alloc: Global,
    class: Class,
    from: Format,
    graph: &[u8],
    script: &[u8],
    report: &[u8],
) -> Result<CheckAnswer, InputStop>
    ensures answer { IfOk result (λ answer. (g : PlainGraph) × (items : List Item)
        × SpellsGraphs from graph.now (g ∷ []) × SpellsScript script.now items
        × IsCheckAnswer (before_session (Of class) g items) report.now answer) }
    ensures faultless { IfOk result (λ _.
        option_or (one_graph_fault from graph.now) (script_fault script.now) ≡ None) }
    ensures stops { IfErr result (IsStopAt
        (option_or (one_graph_fault from graph.now) (script_fault script.now))) }
{
    check_session(alloc, SessionMode::Of(class), from, graph, script, report)
}
