//! Checks the lines of a report of directed trees, one after the other.
ghost use Rattle.std.specs.Prelude.{◌≡◌, ◌↔◌, [], ◌∷◌, false, IfOk, IsErr, IsTrue};
ghost use Rattle.md_dcheck.specs.DirectedReports.{DirectedLine, MayComeDirected, next_directed, directed_line_text, at_digraphs, before_directed, after_directed};
ghost use Rattle.md_dcheck.specs.DueDigraphs.{digraphs_left, directed_place};

use crate::due_digraph::is_reported;
use md_checker::LineJudge;
use md_digraph6::{DirectedLines, DirectedRoom};
use md_graph::Memory;
use std::alloc::Global;

// Which line of a report is due.
#[derive(Clone, Copy, Debug, PartialEq, Eq)]
pub(crate) enum DirectedDue {
    // The head.
    Head,
    // The line of the next directed graph; the last line where none is left.
    Digraphs,
    // None.
    Nothing,
}

// What may still come of a report: the line that is due, the directed graph in the room, if it is
// there, and those behind it.
#[derive(Drop)]
pub(crate) struct DirectedChecker<'a> {
    due: DirectedDue,
    is_there: bool,
    room: DirectedRoom,
    behind: DirectedLines<'a>,
}

impl<'a> DirectedChecker<'a> {
    // The checker of a report over these directed graphs, before its head. Errors: want of memory.
    pub(crate) fn new(
        alloc: Global,
        behind: DirectedLines<'a>,
    ) -> Result<DirectedChecker<'a>, Memory>
        ensures { IfOk result (λ c. directed_place c.due
            (digraphs_left c.is_there c.room c.behind) ≡ before_directed behind.entry) }
    {
        Ok(DirectedChecker {
            due: DirectedDue::Head,
            is_there: false,
            room: DirectedRoom::new(alloc)?,
            behind,
        })
    }

    // The first of those behind comes at hand, if none is there and one is left. Errors: want of
    // memory; nothing changes then.
    fn fill(&mut self, alloc: Global) -> Result<(), Memory>
        ensures due { self.new.due ≡ self.old.due }
        ensures left { digraphs_left self.new.is_there self.new.room self.new.behind
            ≡ digraphs_left self.old.is_there self.old.room self.old.behind }
        ensures none { IfOk result (λ _. self.new.is_there ≡ false → self.new.behind ≡ []) }
    {
        if self.is_there {
            return Ok(());
        }
        self.room.clear();
        self.is_there = self.room.fill(alloc, &mut self.behind)?;
        Ok(())
    }

    // Whether a line with this text may come where the line of a directed graph is due, or the last
    // one: it is then taken, and else nothing changes. Errors: want of memory; nothing changes
    // then.
    fn feed_tree(&mut self, alloc: Global, text: &[u8]) -> Result<bool, Memory>
        requires { self.old.due ≡ DirectedDue.Digraphs }
        ensures takes { IfOk result (λ taken. IsTrue taken ↔ ((line : DirectedLine)
            × MayComeDirected (at_digraphs
            (digraphs_left self.old.is_there self.old.room self.old.behind)) line
            × (text.now ≡ directed_line_text line))) }
        ensures next { IfOk result (λ taken. IsTrue taken → (line : DirectedLine)
            × MayComeDirected (at_digraphs
            (digraphs_left self.old.is_there self.old.room self.old.behind)) line
            × (text.now ≡ directed_line_text line)
            × (directed_place self.new.due
            (digraphs_left self.new.is_there self.new.room self.new.behind)
            ≡ next_directed (at_digraphs
            (digraphs_left self.old.is_there self.old.room self.old.behind)) line)) }
        ensures refused { IfOk result (λ taken. ¬ IsTrue taken → directed_place self.new.due
            (digraphs_left self.new.is_there self.new.room self.new.behind) ≡ at_digraphs
            (digraphs_left self.old.is_there self.old.room self.old.behind)) }
        ensures stays { IsErr result → directed_place self.new.due
            (digraphs_left self.new.is_there self.new.room self.new.behind) ≡ at_digraphs
            (digraphs_left self.old.is_there self.old.room self.old.behind) }
    {
        self.fill(alloc)?;
        if !self.is_there {
            if !is_word(text, b"end") {
                return Ok(false);
            }
            self.due = DirectedDue::Nothing;
            return Ok(true);
        }
        if !is_reported(alloc, &self.room, text)? {
            return Ok(false);
        }
        self.is_there = false;
        Ok(true)
    }
}

impl<'a> LineJudge for DirectedChecker<'a> {
    ghost use Rattle.md_dcheck.specs.DirectedReports.{DirectedPlace, DirectedLine, MayComeDirected, next_directed, after_directed, directed_line_text};
    ghost use Rattle.md_dcheck.specs.DueDigraphs.{directed_place, digraphs_left};
    ghost use Rattle.md_dcheck.specs.DirectedLineTexts.{directed_line_spelling};

    ghost Place = { DirectedPlace };

    ghost Line = { DirectedLine };

    ghost may_come = { MayComeDirected };

    ghost next = { next_directed };

    ghost last = { after_directed };

    ghost line_text = { directed_line_text };

    ghost place = { λ c. directed_place c.due (digraphs_left c.is_there c.room c.behind) };

    ghost ends = { λ line may. may };

    ghost spells = { directed_line_spelling };

    fn feed_text(&mut self, alloc: Global, text: &[u8]) -> Result<bool, Memory> {
        match self.due {
            DirectedDue::Head => {
                if !is_word(text, b"mdt dtree") {
                    return Ok(false);
                }
                self.due = DirectedDue::Digraphs;
                Ok(true)
            }
            DirectedDue::Digraphs => self.feed_tree(alloc, text),
            DirectedDue::Nothing => Ok(false),
        }
    }

    fn complete(&self) -> bool {
        self.due == DirectedDue::Nothing
    }
}

// Whether the text is this word.
fn is_word(text: &[u8], word: &[u8]) -> bool
    ensures { IsTrue result ↔ (text.now ≡ word.now) }
{
    text == word
}
