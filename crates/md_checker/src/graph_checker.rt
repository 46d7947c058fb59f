//! Checks the lines of a report over graphs, one after the other.
ghost use Rattle.std.specs.Prelude.{◌≡◌, ◌↔◌, if◌then◌else◌, IfOk, IsErr, IsTrue};
ghost use Rattle.md_report.specs.Places.{before_head, after_end, MayCome, next_place};
ghost use Rattle.md_checker.specs.ReportLines.{plain_report_line};
ghost use Rattle.md_checker.specs.Standing.{Takes};

use crate::due_graph::DueGraph;
use crate::fixed_lines::{is_end, is_head};
use crate::report_line::ReportLine;
use md_graph::Memory;
use md_input::Graphs;
use md_report::GraphMode;
use std::alloc::Global;
use std::marker::Model;

// Which line of a report over graphs is due.
#[derive(Clone, Copy, Debug, PartialEq, Eq)]
enum GraphDue {
    // The head.
    Head,
    // The line of the next graph; the last line where no graph is left.
    Graphs,
    // None.
    Nothing,
}

// What may still come of a report over graphs: it is seen as a place of the report. A graph comes
// at hand when its line does.
#[derive(Drop)]
pub(crate) struct GraphChecker<'a> {
    due: GraphDue,
    hand: DueGraph,
    behind: Graphs<'a>,
}

impl<'a> Model for GraphChecker<'a> {
    ghost use Rattle.md_report.specs.Places.{Place};
    ghost use Rattle.md_checker.specs.Codes.{place_code};
    ghost use Rattle.md_checker.specs.Standing.{graph_place};
    ghost use Rattle.md_checker.specs.Hands.{graphs_left};

    ghost Value = { Place };

    ghost coded = { place_code };

    ghost view = { λ c. graph_place c.due c.hand.mode (graphs_left c.hand c.behind) };

    ghost use Rattle.md_checker.specs.Hands.{IsHand};

    ghost invariant = { λ c. IsHand c.hand };
}

impl<'a> GraphChecker<'a> {
    // The checker of a report over these graphs, before its head.
    pub(crate) fn new(
        alloc: Global,
        mode: GraphMode,
        graphs: Graphs<'a>,
    ) -> Result<GraphChecker<'a>, Memory>
        ensures { IfOk result (λ c. c ≡ before_head mode graphs.entry) }
    {
        Ok(GraphChecker {
            due: GraphDue::Head,
            hand: DueGraph::new(alloc, mode)?,
            behind: graphs,
        })
    }

    // Whether the report is at its end.
    pub(crate) fn complete(&self) -> bool
        ensures { IsTrue result ↔ self.now ≡ after_end }
    {
        self.due == GraphDue::Nothing
    }

    // Whether the text is that of the tree or the orientation that is due: the line is then taken,
    // and else nothing changes. A false says nothing. Never inlined, so that the stack doesn't hold
    // its frame in a check of a session.
    #[inline(never)]
    pub(crate) fn takes_text(&mut self, alloc: Global, text: &[u8]) -> Result<bool, Memory>
        ensures takes { IfOk result (λ taken.
            IsTrue taken → Takes self.old text.now self.new) }
        ensures refused { IfOk result (λ taken. ¬ IsTrue taken → self.new ≡ self.old) }
        ensures stays { IsErr result → self.new ≡ self.old }
    {
        if self.due != GraphDue::Graphs {
            return Ok(false);
        }
        self.hand.fill(alloc, &mut self.behind)?;
        if !self.hand.is_there || !self.hand.is_reported_by_text(alloc, text)? {
            return Ok(false);
        }
        self.hand.clear();
        Ok(true)
    }

    // Whether the line may come; it is then taken, and else nothing changes. Never inlined, as
    // above.
    #[inline(never)]
    pub(crate) fn feed(&mut self, alloc: Global, line: &ReportLine<'_>) -> Result<bool, Memory>
        ensures may { IfOk result (λ taken.
            IsTrue taken ↔ MayCome self.old (plain_report_line line.now)) }
        ensures next { IfOk result (λ taken. self.new
            ≡ (if taken then next_place self.old (plain_report_line line.now) else self.old)) }
        ensures stays { IsErr result → self.new ≡ self.old }
    {
        match self.due {
            GraphDue::Head => {
                if !is_head(line, self.hand.mode.mode()) {
                    return Ok(false);
                }
                self.due = GraphDue::Graphs;
                Ok(true)
            }
            GraphDue::Graphs => {
                self.hand.fill(alloc, &mut self.behind)?;
                if !self.hand.is_there {
                    if !is_end(line) {
                        return Ok(false);
                    }
                    self.due = GraphDue::Nothing;
                    return Ok(true);
                }
                if !self.hand.is_reported(alloc, line)? {
                    return Ok(false);
                }
                self.hand.clear();
                Ok(true)
            }
            GraphDue::Nothing => Ok(false),
        }
    }
}
