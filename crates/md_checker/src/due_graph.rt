//! The graph at hand: the first of those that are left to be reported.
ghost use Rattle.std.specs.Prelude.{◌≡◌, ◌↔◌, [], false, IfOk, IsTrue};
ghost use Rattle.md_report.specs.Lines.{PlainLine, line_text};
ghost use Rattle.md_report.specs.Places.{Reports};
ghost use Rattle.md_checker.specs.Hands.{graphs_left, IsHand};
ghost use Rattle.md_checker.specs.ReportLines.{plain_report_line};

use crate::certificates::is_word_and_orientation;
use crate::judgements::reports;
use crate::report_line::ReportLine;
use crate::text_fit::is_word_and_tree;
use md_graph::{GraphOf, Memory};
use md_input::{GraphBySize, Graphs, Room};
use md_report::GraphMode;
use std::alloc::Global;

// The graph at hand in a report of the mode, if it is there; else the room has no vertices.
#[derive(Drop)]
pub(crate) struct DueGraph {
    pub(crate) mode: GraphMode,
    pub(crate) is_there: bool,
    room: Room,
}

impl DueGraph {
    // No graph, but the room for one. Errors: want of memory.
    pub(crate) fn new(alloc: Global, mode: GraphMode) -> Result<DueGraph, Memory>
        ensures mode { IfOk result (λ hand. hand.mode ≡ mode) }
        ensures none { IfOk result (λ hand. hand.is_there ≡ false) }
        ensures hand { IfOk result IsHand }
    {
        Ok(DueGraph {
            mode,
            is_there: false,
            room: Room::new(alloc)?,
        })
    }

    // The first of the graphs behind comes at hand, if none is there and one is left. Errors: want
    // of memory; none is at hand then, and nothing changes.
    pub(crate) fn fill(&mut self, alloc: Global, behind: &mut Graphs<'_>) -> Result<(), Memory>
        requires { IsHand self.old }
        ensures left { graphs_left self.new behind.new ≡ graphs_left self.old behind.old }
        ensures none { IfOk result (λ _. self.new.is_there ≡ false → behind.new ≡ []) }
        ensures mode { self.new.mode ≡ self.old.mode }
        ensures hand { IsHand self.new }
    {
        if self.is_there {
            return Ok(());
        }
        self.is_there = behind.next_into(alloc, &mut self.room)?;
        Ok(())
    }

    // The graph goes.
    pub(crate) fn clear(&mut self)
        requires { IsHand self.old }
        ensures none { self.new.is_there ≡ false }
        ensures mode { self.new.mode ≡ self.old.mode }
        ensures hand { IsHand self.new }
    {
        self.room.clear();
        self.is_there = false;
    }

    // Whether the line reports the graph.
    pub(crate) fn is_reported(&self, alloc: Global, line: &ReportLine<'_>) -> Result<bool, Memory>
        ensures { IfOk result (λ fit. IsTrue fit
            ↔ Reports self.now.mode self.now.room (plain_report_line line.now)) }
    {
        match self.room.graph() {
            GraphBySize::Small(graph) => reports(alloc, self.mode, graph, line),
            GraphBySize::Medium(graph) => reports(alloc, self.mode, graph, line),
            GraphBySize::Broad(graph) => reports(alloc, self.mode, graph, line),
            GraphBySize::Large(graph) => reports(alloc, self.mode, graph, line),
        }
    }

    // Whether the text is that of a line that reports the graph; a false says nothing.
    pub(crate) fn is_reported_by_text(&self, alloc: Global, text: &[u8]) -> Result<bool, Memory>
        ensures { IfOk result (λ fit. IsTrue fit → (line : PlainLine)
            × Reports self.now.mode self.now.room line × (text.now ≡ line_text line)) }
    {
        match self.room.graph() {
            GraphBySize::Small(graph) => reports_by_text(alloc, self.mode, graph, text),
            GraphBySize::Medium(graph) => reports_by_text(alloc, self.mode, graph, text),
            GraphBySize::Broad(graph) => reports_by_text(alloc, self.mode, graph, text),
            GraphBySize::Large(graph) => reports_by_text(alloc, self.mode, graph, text),
        }
    }
}

// Whether the text is that of a line that reports the graph; a false says nothing. Never inlined,
// so that the stack holds the frame of one width alone.
#[inline(never)]
fn reports_by_text<const W: usize>(
    alloc: Global,
    mode: GraphMode,
    graph: &GraphOf<W>,
    text: &[u8],
) -> Result<bool, Memory>
    ensures { IfOk result (λ fit. IsTrue fit → (line : PlainLine)
        × Reports mode graph.now line × (text.now ≡ line_text line)) }
{
    match mode {
        GraphMode::Tree => is_word_and_tree(alloc, graph, b"t ", text),
        GraphMode::Compare => is_word_and_orientation(alloc, graph, b"yes", text),
        GraphMode::Shortest => is_word_and_orientation(alloc, graph, b"yes", text),
        GraphMode::Permute => Ok(false),
    }
}
