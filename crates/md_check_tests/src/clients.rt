//! What a program over the crates of reports and checks can promise, proved from the contracts of
//! their public calls alone.
ghost use Rattle.std.specs.Prelude.{◌≡◌, ◌↔◌, List, [], ◌∷◌, Option, IfOk, IfErr, IsTrue};
ghost use Rattle.std.specs.Option.{option_or};
ghost use Rattle.md_graph.specs.PlainGraph.{PlainGraph, adjacent};
ghost use Rattle.md_digraph.specs.PlainDigraph.{PlainDigraph};
ghost use Rattle.md_digraph6.specs.ArcFile.{SpellsDigraphs};
ghost use Rattle.md_tree.specs.StrongTrees.{IsTree};
ghost use Rattle.md_tree.specs.Trees.{PlainTree};
ghost use Rattle.md_tree.specs.TreeTexts.{text_of};
ghost use Rattle.md_script.specs.declared.item.Item.{Item};
ghost use Rattle.md_script.specs.File.{SpellsScript};
ghost use Rattle.md_input.specs.Spelling.{SpellsGraphs};
ghost use Rattle.md_input.specs.Faults.{graph_fault, one_graph_fault, script_fault, IsStopAt};
ghost use Rattle.md_report.specs.Lines.{limit_of_mode};
ghost use Rattle.md_report.specs.Places.{before_head, before_session};
ghost use Rattle.md_report.specs.Reports.{IsReport};
ghost use Rattle.md_dcheck.specs.DirectedFaults.{digraph_fault};
ghost use Rattle.md_dcheck.specs.DirectedReports.{before_directed, IsDirectedReport};

use md_checker::{CheckAnswer, check_graphs, check_session, fits};
use md_dcheck::check_directed;
use md_graph::{GraphOf, Memory};
use md_input::{Format, InputStop};
use md_report::{GraphMode, SessionMode};
use md_tree::{TreeFault, read_tree};
use std::alloc::Global;

/// Whether the bytes are a valid report of the mode over the graphs of a file. Errors: the first
/// fault of the file, or want of memory.
pub fn is_valid_report(
    alloc: Global,
    mode: GraphMode,
    from: Format,
    graph: &[u8],
    report: &[u8],
) -> Result<bool, InputStop>
    ensures valid { IfOk result (λ is. (graphs : List PlainGraph)
        × SpellsGraphs from graph.now graphs
        × (IsTrue is ↔ IsReport (before_head mode graphs) report.now)) }
    ensures stops { IfErr result (IsStopAt (graph_fault (limit_of_mode mode) from graph.now)) }
{
    match check_graphs(alloc, mode, from, graph, report)? {
        CheckAnswer::Accepted => Ok(true),
        CheckAnswer::Rejected(_) => Ok(false),
    }
}

/// Whether the bytes are a valid report of a session of the mode on the graph of a file, over a
/// script. Errors: the first fault of the two, or want of memory.
pub fn is_valid_session_report(
    alloc: Global,
    mode: SessionMode,
    from: Format,
    graph: &[u8],
    script: &[u8],
    report: &[u8],
) -> Result<bool, InputStop>
    ensures valid { IfOk result (λ is. (g : PlainGraph) × (items : List Item)
        × SpellsGraphs from graph.now (g ∷ []) × SpellsScript script.now items
        × (IsTrue is ↔ IsReport (before_session mode g items) report.now)) }
    ensures stops { IfErr result (IsStopAt
        (option_or (one_graph_fault from graph.now) (script_fault script.now))) }
{
    let answer = check_session(alloc, mode, from, graph, script, report)?;
    Ok(matches!(answer, CheckAnswer::Accepted))
}

/// Whether the bytes are a valid report of the trees of the directed graphs of a file. Errors: the
/// first fault of the file, or want of memory.
pub fn is_valid_directed_report(
    alloc: Global,
    graph: &[u8],
    report: &[u8],
) -> Result<bool, InputStop>
    ensures valid { IfOk result (λ is. (digraphs : List PlainDigraph)
        × SpellsDigraphs graph.now digraphs
        × (IsTrue is ↔ IsDirectedReport (before_directed digraphs) report.now)) }
    ensures stops { IfErr result (IsStopAt (digraph_fault graph.now)) }
{
    let answer = check_directed(alloc, graph, report)?;
    Ok(!matches!(answer, CheckAnswer::Rejected(_)))
}

/// Whether the bytes are the text of the tree of strong modules of the graph. No tree is computed.
/// Errors: want of memory.
pub fn is_text_of_tree<const W: usize>(
    alloc: Global,
    graph: &GraphOf<W>,
    text: &[u8],
) -> Result<bool, Memory>
    ensures told { IfOk result (λ is. IsTrue is ↔ ((t : Option PlainTree)
        × IsTree (adjacent graph.now) graph.now.vertices t × (text.now ≡ text_of t))) }
{
    let _vertices = graph.vertices();
    match read_tree(alloc, text) {
        Ok(tree) => fits(alloc, graph, &tree),
        Err(TreeFault::Memory) => Err(Memory),
        Err(TreeFault::Syntax { .. }) => Ok(false),
        Err(TreeFault::NotCanonical) => Ok(false),
    }
}
