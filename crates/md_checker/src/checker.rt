//! Checks the lines of a report, one after the other.
ghost use Rattle.std.specs.Prelude.{◌≡◌, ◌≢◌, ◌↔◌, List, [], ◌∷◌, None, if◌then◌else◌, IfOk, IfErr, IsErr, IsTrue};
ghost use Rattle.std.specs.Option.{option_or};
ghost use Rattle.md_graph.specs.PlainGraph.{PlainGraph};
ghost use Rattle.md_script.specs.declared.item.Item.{Item};
ghost use Rattle.md_script.specs.File.{SpellsScript};
ghost use Rattle.md_input.specs.Inputs.{graph_of_inputs, script_of_inputs, HaveRoom};
ghost use Rattle.md_input.specs.Spelling.{SpellsGraphs};
ghost use Rattle.md_input.specs.Faults.{graph_fault, one_graph_fault, script_fault, IsStopAt};
ghost use Rattle.md_report.specs.Lines.{PlainLine, plain_line, line_text, limit_of_mode};
ghost use Rattle.md_report.specs.WellFormedLines.{IsWellFormedLine};
ghost use Rattle.md_report.specs.Places.{before_head, before_session, after_end, MayCome, next_place};
ghost use Rattle.md_checker.specs.Checkers.{report_place};
ghost use Rattle.md_checker.specs.ReportLines.{plain_report_line};
ghost use Rattle.md_checker.specs.Standing.{Takes};

use crate::graph_checker::GraphChecker;
use crate::line_judge::LineJudge;
use crate::report_line::ReportLine;
use crate::session_checker::SessionChecker;
use md_bar::read_class;
use md_graph::{Memory, WORDS};
use md_input::{Format, Graphs, InputStop, SessionInputs, session_inputs};
use md_report::{GraphMode, Line, LineFault, SessionMode, read_line};
use std::alloc::Global;
use std::marker::Model;

/// What may still come of a report: it is seen as a place of the report.
#[derive(Drop)]
pub struct Checker<'a> {
    inner: Inner<'a>,
}

// A checker by what the report is about.
#[derive(Drop)]
enum Inner<'a> {
    // The report is over the graphs of a file.
    OverGraphs(GraphChecker<'a>),
    // The report is of a session, on rows of sixty-four words.
    OverBroad(SessionChecker<64>),
    // The report is of a session, on rows of as many words as there may be.
    OverLarge(SessionChecker<WORDS>),
}

impl<'a> Model for Checker<'a> {
    ghost use Rattle.md_report.specs.Places.{Place};
    ghost use Rattle.md_checker.specs.Codes.{place_code};

    ghost Value = { Place };

    ghost coded = { place_code };

    ghost use Rattle.md_report.specs.Laws.{IsSound};
    ghost use Rattle.md_checker.specs.Checkers.{report_place};

    ghost view = { λ c. report_place c.inner };

    ghost invariant = { λ c. IsSound (report_place c.inner) };
}

impl<'a> Checker<'a> {
    /// The checker of a report of a mode over the graphs of a graph file, before its head. The file
    /// is read whole first, under the limit of names of the mode. Errors: the first fault of the
    /// graph file; want of memory.
    // Never inlined, so that what it takes of the stack is free again when the report is judged.
    #[inline(never)]
    pub fn over_graphs(
        alloc: Global,
        mode: GraphMode,
        from: Format,
        file: &'a [u8],
    ) -> Result<Checker<'a>, InputStop>
        ensures first { IfOk result (λ c. (graphs : List PlainGraph)
            × SpellsGraphs from file.now graphs × (c ≡ before_head mode graphs)) }
        ensures faultless { IfOk result (λ _.
            graph_fault (limit_of_mode mode) from file.now ≡ None) }
        ensures stops { IfErr result (IsStopAt
            (graph_fault (limit_of_mode mode) from file.now)) }
    {
        let graphs = Graphs::read(alloc, mode.limit(), from, file)?;
        let checker = GraphChecker::new(alloc, mode, graphs)?;
        Ok(Checker {
            inner: Inner::OverGraphs(checker),
        })
    }

    /// The checker of a report of a session of a mode on the one graph of a graph file, over a
    /// script, before its head. Both are read whole first. Errors: the first fault of the graph
    /// file, or its number of graphs, or the first fault of the script; want of memory.
    // Never inlined, as above.
    #[inline(never)]
    pub fn over_session(
        alloc: Global,
        mode: SessionMode,
        from: Format,
        file: &[u8],
        script: &[u8],
    ) -> Result<Checker<'a>, InputStop>
        ensures first { IfOk result (λ c. (g : PlainGraph) × (items : List Item)
            × SpellsGraphs from file.now (g ∷ []) × SpellsScript script.now items
            × (c ≡ before_session mode g items)) }
        ensures faultless { IfOk result (λ _.
            option_or (one_graph_fault from file.now) (script_fault script.now) ≡ None) }
        ensures stops { IfErr result (IsStopAt
            (option_or (one_graph_fault from file.now) (script_fault script.now))) }
    {
        let inputs = session_inputs(alloc, from, file, script)?;
        let inner = Inner::over_inputs(alloc, mode, inputs)?;
        Ok(Checker { inner })
    }

    /// Whether the report is at its end.
    pub fn complete(&self) -> bool
        ensures { IsTrue result ↔ self.now ≡ after_end }
    {
        match &self.inner {
            Inner::OverGraphs(checker) => checker.complete(),
            Inner::OverBroad(checker) => checker.complete(),
            Inner::OverLarge(checker) => checker.complete(),
        }
    }

    /// Whether the line may come: it is then taken, and else nothing changes. Errors: want of
    /// memory; nothing changes then.
    pub fn feed(&mut self, alloc: Global, line: &Line) -> Result<bool, Memory>
        ensures may { IfOk result (λ taken.
            IsTrue taken ↔ MayCome self.old (plain_line line.now)) }
        ensures next { IfOk result (λ taken. self.new
            ≡ (if taken then next_place self.old (plain_line line.now) else self.old)) }
        ensures stays { IsErr result → self.new ≡ self.old }
    {
        self.feed_line(alloc, &ReportLine::Plain(line))
    }

    // The same of a line of any report.
    fn feed_line(&mut self, alloc: Global, line: &ReportLine<'_>) -> Result<bool, Memory>
        ensures may { IfOk result (λ taken.
            IsTrue taken ↔ MayCome self.old (plain_report_line line.now)) }
        ensures next { IfOk result (λ taken. self.new
            ≡ (if taken then next_place self.old (plain_report_line line.now) else self.old)) }
        ensures stays { IsErr result → self.new ≡ self.old }
    {
        self.inner.feed(alloc, line)
    }

    // Whether the text is that of the tree or the orientation that is due: the line is then taken,
    // and else nothing changes. A false says nothing: such a line may come as well.
    fn takes_text(&mut self, alloc: Global, text: &[u8]) -> Result<bool, Memory>
        ensures takes { IfOk result (λ taken. IsTrue taken → Takes self.old text.now self.new) }
        ensures refused { IfOk result (λ taken. ¬ IsTrue taken → self.new ≡ self.old) }
        ensures stays { IsErr result → self.new ≡ self.old }
    {
        self.inner.takes_text(alloc, text)
    }

    // Whether a line with this text may come, where the text is read whole: it is then taken, and
    // else nothing changes. Errors: want of memory; nothing changes then. Never inlined, so that a
    // line that is taken by its text has no part in the stack that this takes.
    #[inline(never)]
    fn feed_read(&mut self, alloc: Global, text: &[u8]) -> Result<bool, Memory>
        ensures may { IfOk result (λ taken. IsTrue taken
            ↔ ((line : PlainLine) × MayCome self.old line × (text.now ≡ line_text line))) }
        ensures next { IfOk result (λ taken. IsTrue taken
            → (line : PlainLine) × MayCome self.old line × (text.now ≡ line_text line)
            × (self.new ≡ next_place self.old line)) }
        ensures refused { IfOk result (λ taken. ¬ IsTrue taken → self.new ≡ self.old) }
        ensures stays { IsErr result → self.new ≡ self.old }
    {
        let _inner = &self.inner;
        match read_line(alloc, text) {
            Ok(line) => self.feed(alloc, &line),
            Err(LineFault::Syntax) => self.feed_class(alloc, text),
            Err(LineFault::Memory) => Err(Memory),
        }
    }

    // The same of a text that is none of a well-formed line of sessions on all graphs, nor of
    // reports over graphs.
    fn feed_class(&mut self, alloc: Global, text: &[u8]) -> Result<bool, Memory>
        requires { (line : PlainLine) → IsWellFormedLine line → text.now ≢ line_text line }
        ensures may { IfOk result (λ taken. IsTrue taken
            ↔ ((line : PlainLine) × MayCome self.old line × (text.now ≡ line_text line))) }
        ensures next { IfOk result (λ taken. IsTrue taken
            → (line : PlainLine) × MayCome self.old line × (text.now ≡ line_text line)
            × (self.new ≡ next_place self.old line)) }
        ensures refused { IfOk result (λ taken. ¬ IsTrue taken → self.new ≡ self.old) }
        ensures stays { IsErr result → self.new ≡ self.old }
    {
        let _inner = &self.inner;
        match read_class(alloc, text) {
            Ok(line) => self.feed_line(alloc, &ReportLine::of_class(&line)),
            Err(LineFault::Syntax) => Ok(false),
            Err(LineFault::Memory) => Err(Memory),
        }
    }
}

impl<'a> LineJudge for Checker<'a> {
    ghost use Rattle.md_report.specs.Lines.{PlainLine, line_text};
    ghost use Rattle.md_report.specs.Places.{Place, after_end, MayCome, next_place};

    ghost Place = { Place };

    ghost Line = { PlainLine };

    ghost may_come = { MayCome };

    ghost next = { next_place };

    ghost last = { after_end };

    ghost line_text = { line_text };

    ghost place = { λ checker. checker };

    ghost use Rattle.md_report.proofs.LineFeeds.{line_spelling};

    ghost ends = { λ line may. may };

    ghost spells = { line_spelling };

    fn feed_text(&mut self, alloc: Global, text: &[u8]) -> Result<bool, Memory> {
        if self.takes_text(alloc, text)? {
            return Ok(true);
        }
        self.feed_read(alloc, text)
    }

    fn complete(&self) -> bool {
        Checker::complete(self)
    }
}

impl<'a> Inner<'a> {
    // The checker of a report of a session over these inputs, before its head. Condition: the rows
    // of the graph have room for the names in the script. Errors: want of memory.
    fn over_inputs(
        alloc: Global,
        mode: SessionMode,
        inputs: SessionInputs,
    ) -> Result<Inner<'a>, Memory>
        requires { HaveRoom inputs }
        ensures { IfOk result (λ inner. report_place inner
            ≡ before_session mode (graph_of_inputs inputs) (script_of_inputs inputs)) }
    {
        match inputs {
            SessionInputs::Broad(graph, script) => {
                let checker = SessionChecker::new(alloc, mode, graph, script)?;
                Ok(Inner::OverBroad(checker))
            }
            SessionInputs::Large(graph, script) => {
                let checker = SessionChecker::new(alloc, mode, graph, script)?;
                Ok(Inner::OverLarge(checker))
            }
        }
    }

    // Whether the text is that of the tree or the orientation that is due: the line is then taken,
    // and else nothing changes. A false says nothing.
    fn takes_text(&mut self, alloc: Global, text: &[u8]) -> Result<bool, Memory>
        ensures takes { IfOk result (λ taken. IsTrue taken
            → Takes (report_place self.old) text.now (report_place self.new)) }
        ensures refused { IfOk result (λ taken. ¬ IsTrue taken
            → report_place self.new ≡ report_place self.old) }
        ensures stays { IsErr result → report_place self.new ≡ report_place self.old }
    {
        match self {
            Inner::OverGraphs(checker) => checker.takes_text(alloc, text),
            Inner::OverBroad(checker) => checker.takes_text(alloc, text),
            Inner::OverLarge(checker) => checker.takes_text(alloc, text),
        }
    }

    // Whether the line may come; it is then taken, and else nothing changes.
    fn feed(&mut self, alloc: Global, line: &ReportLine<'_>) -> Result<bool, Memory>
        ensures may { IfOk result (λ taken.
            IsTrue taken ↔ MayCome (report_place self.old) (plain_report_line line.now)) }
        ensures next { IfOk result (λ taken. report_place self.new
            ≡ (if taken then next_place (report_place self.old) (plain_report_line line.now)
            else report_place self.old)) }
        ensures stays { IsErr result → report_place self.new ≡ report_place self.old }
    {
        match self {
            Inner::OverGraphs(checker) => checker.feed(alloc, line),
            Inner::OverBroad(checker) => checker.feed(alloc, line),
            Inner::OverLarge(checker) => checker.feed(alloc, line),
        }
    }
}
