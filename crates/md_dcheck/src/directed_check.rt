//! Checks whole reports of directed trees.
ghost use Rattle.std.specs.Prelude.{◌≡◌, List, None, IfOk, IfErr};
ghost use Rattle.md_digraph.specs.PlainDigraph.{PlainDigraph};
ghost use Rattle.md_digraph6.specs.ArcFile.{SpellsDigraphs};
ghost use Rattle.md_input.specs.Faults.{IsStopAt};
ghost use Rattle.md_dcheck.specs.DirectedFaults.{digraph_fault};
ghost use Rattle.md_dcheck.specs.DirectedReports.{before_directed, IsDirectedAnswer};

use crate::directed_checker::DirectedChecker;
use md_checker::{CheckAnswer, judge};
use md_digraph6::{DirectedLines, scan_directed};
use md_input::{Fault, InputStop};
use std::alloc::Global;

/// Checks a report of the trees of the directed graphs of a digraph6 file, which is read whole
/// first. Each tree is compared with the directed graph; none is computed. Errors: the first fault
/// of the file; want of memory.
pub fn check_directed(alloc: Global, graph: &[u8], report: &[u8]) -> Result<CheckAnswer, InputStop>
    ensures answer { IfOk result (λ answer. (digraphs : List PlainDigraph)
        × SpellsDigraphs graph.now digraphs
        × IsDirectedAnswer (before_directed digraphs) report.now answer) }
    ensures faultless { IfOk result (λ _. digraph_fault graph.now ≡ None) }
    ensures stops { IfErr result (IsStopAt (digraph_fault graph.now)) }
{
    if let Err(fault) = scan_directed(graph) {
        return Err(InputStop::BadInput(Fault::Graph6(fault)));
    }
    let mut checker = DirectedChecker::new(alloc, DirectedLines::new(graph))?;
    Ok(judge(alloc, &mut checker, report)?)
}
