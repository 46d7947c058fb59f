//! Checks the lines of a report of a session, one after the other.
ghost use Rattle.std.specs.Prelude.{◌≡◌, ◌*◌, ◌≤◌, ◌<◌, ◌+◌, ◌↔◌, List, [], if◌then◌else◌, length, drop, IfOk, IfSome, IfNone, IsErr, IsTrue};
ghost use Rattle.std.specs.List.{All};
ghost use Rattle.md_script.specs.declared.item.Item.{Item};
ghost use Rattle.md_script.specs.Items.{HasItemNamesBelow};
ghost use Rattle.md_script.specs.Histories.{HistoryFits};
ghost use Rattle.md_report.specs.declared.line.SessionMode.TheVariants.{Quiet};
ghost use Rattle.md_report.specs.Sessions.{State, first_state};
ghost use Rattle.md_report.specs.ItemLines.{IsAllowed};
ghost use Rattle.md_report.specs.Places.{before_session, at_state, at_items, after_end, closed_place, items_behind, tells_bar, MayCome, next_place};
ghost use Rattle.md_report.specs.Steps.{state_of};
ghost use Rattle.md_checker.specs.declared.session_checker.SessionDue.TheVariants.{Head, State as StateDue, Items};
ghost use Rattle.md_checker.specs.ReportLines.{plain_report_line};
ghost use Rattle.md_checker.specs.Standing.{session_place, IsStep, MayTell, Takes};

use crate::cograph_test::is_cograph;
use crate::fixed_lines::{is_end, is_session_head};
use crate::item_answers::answers_item;
use crate::item_texts::answers_by_text;
use crate::judgements::{closes_items, reports_state};
use crate::report_line::ReportLine;
use crate::state_text::is_word_and_state;
use md_graph::{GraphOf, Memory};
use md_report::{Line, SessionMode};
use md_script::{HistoryOf, Script};
use std::alloc::Global;
use std::marker::Model;

// Which line of a report of a session is due.
#[derive(Clone, Copy, Debug, PartialEq, Eq)]
enum SessionDue {
    // The head.
    Head,
    // The line of the first state.
    State,
    // The answer to the next item; the line behind all answers where no item is left.
    Items,
    // The last line.
    End,
    // None.
    Nothing,
}

// The state whose tree a line may tell.
#[derive(Clone, Copy, Debug, PartialEq, Eq)]
enum DueTree {
    // The first.
    First,
    // The one behind the next item.
    Answered,
    // The one behind all items, in mode quiet.
    Last,
}

// Where a line that came leads: which line is due, and how many items are answered or need no
// answer.
#[derive(Clone, Copy, Debug, PartialEq, Eq)]
struct Step {
    due: SessionDue,
    answered: u64,
}

// What may still come of a report of a session: it is seen as a place of the report. It keeps the
// state as the graph, on names below `64 * W`, and what leads back to the earlier ones, and how
// many items of the script are answered or need no answer.
#[derive(Drop)]
pub(crate) struct SessionChecker<const W: usize> {
    mode: SessionMode,
    due: SessionDue,
    graph: GraphOf<W>,
    history: HistoryOf<W>,
    script: Script,
    answered: u64,
}

impl<const W: usize> Model for SessionChecker<W> {
    ghost use Rattle.std.specs.Prelude.{◌≤◌, length, drop};
    ghost use Rattle.md_report.specs.Places.{Place};
    ghost use Rattle.md_report.specs.Steps.{state_of};
    ghost use Rattle.md_checker.specs.Codes.{place_code};
    ghost use Rattle.md_checker.specs.Standing.{session_place, IsStanding};

    ghost Value = { Place };

    ghost coded = { place_code };

    ghost view = { λ c. session_place c.due c.mode (state_of c.graph c.history.items)
        (drop c.answered c.script) };

    ghost use Rattle.std.specs.Prelude.{◌*◌};
    ghost use Rattle.std.specs.List.{All};
    ghost use Rattle.md_script.specs.Items.{HasItemNamesBelow};

    ghost invariant = { λ c. (c.answered ≤ length c.script)
        × IsStanding (64 * W) c.due c.mode c.graph c.history.items (drop c.answered c.script)
        × All (HasItemNamesBelow (64 * W)) c.script };
}

impl<const W: usize> SessionChecker<W> {
    // The checker of a report of a session on this graph over this script, before its head.
    // Condition: the names in the script are below `64 * W`. Errors: want of memory.
    pub(crate) fn new(
        alloc: Global,
        mode: SessionMode,
        graph: GraphOf<W>,
        script: Script,
    ) -> Result<SessionChecker<W>, Memory>
        requires { All (HasItemNamesBelow (64 * W)) script }
        ensures { IfOk result (λ c. c ≡ before_session mode graph.entry script) }
    {
        let history = HistoryOf::new(alloc)?;
        Ok(SessionChecker {
            mode,
            due: SessionDue::Head,
            graph,
            history,
            script,
            answered: 0,
        })
    }

    // Whether the report is at its end.
    pub(crate) fn complete(&self) -> bool
        ensures { IsTrue result ↔ self.now ≡ after_end }
    {
        self.due == SessionDue::Nothing
    }

    // Whether the text is that of the tree that is due: the line is then taken, and else nothing
    // changes. A false says nothing. Never inlined, so that the stack holds the frame of one width
    // alone.
    #[inline(never)]
    pub(crate) fn takes_text(&mut self, alloc: Global, text: &[u8]) -> Result<bool, Memory>
        ensures takes { IfOk result (λ taken.
            IsTrue taken → Takes self.old text.now self.new) }
        ensures refused { IfOk result (λ taken. ¬ IsTrue taken → self.new ≡ self.old) }
        ensures stays { IsErr result → self.new ≡ self.old }
    {
        let (mode, answered) = (self.mode, self.answered);
        let Some(tree) = due_tree(self.due, mode, answered < self.script.len()) else {
            return Ok(false);
        };
        match tree {
            DueTree::First => {
                if !is_word_and_state(alloc, mode, &self.graph, b"t ", text)? {
                    return Ok(false);
                }
                self.due = SessionDue::Items;
                Ok(true)
            }
            DueTree::Answered => {
                let item = self.script.get(answered);
                let (graph, history) = (&mut self.graph, &mut self.history);
                if !answers_by_text(alloc, mode, graph, history, item, text)? {
                    return Ok(false);
                }
                self.answered = answered + 1;
                Ok(true)
            }
            DueTree::Last => {
                if !is_word_and_state(alloc, mode, &self.graph, b"t ", text)? {
                    return Ok(false);
                }
                self.due = SessionDue::End;
                Ok(true)
            }
        }
    }

    // Whether the line may come; it is then taken, and else nothing changes. Never inlined, as
    // above.
    #[inline(never)]
    pub(crate) fn feed(&mut self, alloc: Global, line: &ReportLine<'_>) -> Result<bool, Memory>
        ensures may { IfOk result (λ taken.
            IsTrue taken ↔ MayCome self.old (plain_report_line line.now)) }
        ensures next { IfOk result (λ taken. self.new
            ≡ (if taken then next_place self.old (plain_report_line line.now) else self.old)) }
        ensures stays { IsErr result → self.new ≡ self.old }
    {
        match self.due {
            SessionDue::Head => {
                if !is_session_head(line, self.mode) {
                    return Ok(false);
                }
                self.due = SessionDue::State;
                Ok(true)
            }
            SessionDue::State => {
                let (mode, answered) = (self.mode, self.answered);
                let (graph, history) = (&mut self.graph, &mut self.history);
                let first = opens(alloc, mode, graph, history, &self.script, answered, line)?;
                let Some(step) = first else {
                    return Ok(false);
                };
                self.due = step.due;
                self.answered = step.answered;
                Ok(true)
            }
            SessionDue::Items => {
                let (mode, answered) = (self.mode, self.answered);
                let (graph, history) = (&mut self.graph, &mut self.history);
                let next = comes(alloc, mode, graph, history, &self.script, answered, line)?;
                let Some(step) = next else {
                    return Ok(false);
                };
                self.due = step.due;
                self.answered = step.answered;
                Ok(true)
            }
            SessionDue::End => {
                if !is_end(line) {
                    return Ok(false);
                }
                self.due = SessionDue::Nothing;
                Ok(true)
            }
            SessionDue::Nothing => Ok(false),
        }
    }
}

// Where the line leads behind the head of a session, the graph being the first state; graph and
// history are then those behind the line. None where the line may not come; both stay then, and for
// want of memory. Conditions: the names in the script are below `64 * W`, and the history has no
// item.
fn opens<const W: usize>(
    alloc: Global,
    mode: SessionMode,
    graph: &mut GraphOf<W>,
    history: &mut HistoryOf<W>,
    script: &Script,
    answered: u64,
    line: &ReportLine<'_>,
) -> Result<Option<Step>, Memory>
    requires names { All (HasItemNamesBelow (64 * W)) script.now }
    requires room { answered ≤ length script.now }
    requires first { history.old.items ≡ [] }
    ensures leads { IfOk result (λ next. IfSome next (λ step. IsStep (64 * W)
        (at_state mode graph.old (drop answered script.now)) (plain_report_line line.now) step mode
        graph.new history.new.items script.now)) }
    ensures none { IfOk result (λ next. IfNone next ((MayCome
        (at_state mode graph.old (drop answered script.now)) (plain_report_line line.now) → ⊥)
        × (graph.new ≡ graph.old) × (history.new.items ≡ history.old.items))) }
    ensures stays { IsErr result → graph.new ≡ graph.old }
    ensures kept { IsErr result → history.new.items ≡ history.old.items }
{
    match mode {
        SessionMode::Edit => opens_told(alloc, mode, graph, history, script, answered, line),
        SessionMode::Cograph => opens_told(alloc, mode, graph, history, script, answered, line),
        SessionMode::Quiet => opens_quiet(alloc, graph, history, script, answered, line),
        SessionMode::Of(_) => opens_told(alloc, mode, graph, history, script, answered, line),
    }
}

// The same in a mode whose reports tell of the first state. Conditions: the history has no item,
// and the mode is not quiet.
fn opens_told<const W: usize>(
    alloc: Global,
    mode: SessionMode,
    graph: &GraphOf<W>,
    history: &HistoryOf<W>,
    script: &Script,
    answered: u64,
    line: &ReportLine<'_>,
) -> Result<Option<Step>, Memory>
    requires room { answered ≤ length script.now }
    requires first { history.now.items ≡ [] }
    requires told { mode ≡ Quiet → ⊥ }
    ensures leads { IfOk result (λ next. IfSome next (λ step. IsStep (64 * W)
        (at_state mode graph.now (drop answered script.now)) (plain_report_line line.now) step mode
        graph.now history.now.items script.now)) }
    ensures none { IfOk result (λ next. IfNone next (MayCome
        (at_state mode graph.now (drop answered script.now)) (plain_report_line line.now) → ⊥)) }
{
    if !reports_state(alloc, mode, graph, line)? {
        return Ok(None);
    }
    Ok(Some(Step {
        due: SessionDue::Items,
        answered: answered_behind(script, answered, line),
    }))
}

// How many items are answered or need no answer behind the line of the first state.
fn answered_behind(script: &Script, answered: u64, line: &ReportLine<'_>) -> u64
    requires { answered ≤ length script.now }
    ensures room { result ≤ length script.now }
    ensures left { drop result script.now
        ≡ items_behind (plain_report_line line.now) (drop answered script.now) }
{
    if ends_session(line) {
        return script.len();
    }
    answered
}

// The same in mode quiet, where a cograph has no line of its own. Conditions: the names in the
// script are below `64 * W`, and the history has no item.
fn opens_quiet<const W: usize>(
    alloc: Global,
    graph: &mut GraphOf<W>,
    history: &mut HistoryOf<W>,
    script: &Script,
    answered: u64,
    line: &ReportLine<'_>,
) -> Result<Option<Step>, Memory>
    requires names { All (HasItemNamesBelow (64 * W)) script.now }
    requires room { answered ≤ length script.now }
    requires first { history.old.items ≡ [] }
    ensures leads { IfOk result (λ next. IfSome next (λ step. IsStep (64 * W)
        (at_state Quiet graph.old (drop answered script.now)) (plain_report_line line.now) step
        Quiet graph.new history.new.items script.now)) }
    ensures none { IfOk result (λ next. IfNone next ((MayCome
        (at_state Quiet graph.old (drop answered script.now)) (plain_report_line line.now) → ⊥)
        × (graph.new ≡ graph.old) × (history.new.items ≡ history.old.items))) }
    ensures stays { IsErr result → graph.new ≡ graph.old }
    ensures kept { IsErr result → history.new.items ≡ history.old.items }
{
    let mode = SessionMode::Quiet;
    if reports_state(alloc, mode, graph, line)? {
        return Ok(Some(Step {
            due: SessionDue::End,
            answered,
        }));
    }
    if !is_cograph(alloc, graph)? {
        return Ok(None);
    }
    comes(alloc, mode, graph, history, script, answered, line)
}

// Where the line leads at the items, the graph being the one that stands; graph and history are
// then those behind the line. None where the line may not come; both stay then, and for want of
// memory. Conditions: the names in the script are below `64 * W`, the history fits, and where an
// item is left the graph may be a state of a session of the mode.
fn comes<const W: usize>(
    alloc: Global,
    mode: SessionMode,
    graph: &mut GraphOf<W>,
    history: &mut HistoryOf<W>,
    script: &Script,
    answered: u64,
    line: &ReportLine<'_>,
) -> Result<Option<Step>, Memory>
    requires names { All (HasItemNamesBelow (64 * W)) script.now }
    requires room { answered ≤ length script.now }
    requires fits { HistoryFits (64 * W) (IsAllowed mode) graph.old history.old.items }
    requires allowed { (drop answered script.now ≡ [] → ⊥) → IsAllowed mode graph.old }
    ensures leads { IfOk result (λ next. IfSome next (λ step. IsStep (64 * W)
        (at_items mode (state_of graph.old history.old.items) (drop answered script.now))
        (plain_report_line line.now) step mode graph.new history.new.items script.now)) }
    ensures none { IfOk result (λ next. IfNone next ((MayCome
        (at_items mode (state_of graph.old history.old.items) (drop answered script.now))
        (plain_report_line line.now) → ⊥)
        × (graph.new ≡ graph.old) × (history.new.items ≡ history.old.items))) }
    ensures stays { IsErr result → graph.new ≡ graph.old }
    ensures kept { IsErr result → history.new.items ≡ history.old.items }
{
    if answered == script.len() {
        if !closes_items(alloc, mode, graph, line)? {
            return Ok(None);
        }
        return Ok(Some(Step {
            due: due_behind_items(mode),
            answered,
        }));
    }
    let item = script.get(answered);
    if !answers_item(alloc, mode, graph, history, item, line)? {
        return Ok(None);
    }
    Ok(Some(Step {
        due: SessionDue::Items,
        answered: answered + 1,
    }))
}

// The state whose tree the line that is due may tell, by whether an item is left; none if it tells
// none. A report of mode quiet tells the last state's alone, which may be the first.
fn due_tree(due: SessionDue, mode: SessionMode, left: bool) -> Option<DueTree>
    ensures { IfSome result (λ tree. MayTell tree due mode left) }
{
    let first = due == SessionDue::State;
    if !first && due != SessionDue::Items {
        return None;
    }
    if mode == SessionMode::Quiet {
        return if left { None } else { Some(DueTree::Last) };
    }
    if first {
        return Some(DueTree::First);
    }
    if left { Some(DueTree::Answered) } else { None }
}

// Which line is due behind the one that came behind all answers.
fn due_behind_items(mode: SessionMode) -> SessionDue
    ensures due { (s : State) (items : List Item)
        → session_place result mode s items ≡ closed_place mode }
    ensures later { (result ≡ Head → ⊥) × (result ≡ StateDue → ⊥) × (result ≡ Items → ⊥) }
{
    match mode {
        SessionMode::Edit => SessionDue::Nothing,
        SessionMode::Cograph => SessionDue::Nothing,
        SessionMode::Of(_) => SessionDue::Nothing,
        SessionMode::Quiet => SessionDue::End,
    }
}

// Whether no item is answered behind the line of the first state.
fn ends_session(line: &ReportLine<'_>) -> bool
    ensures { result ≡ tells_bar (plain_report_line line.now) }
{
    match line {
        ReportLine::First(_) => true,
        ReportLine::Plain(Line::NotCograph(_)) => true,
        _ => false,
    }
}
