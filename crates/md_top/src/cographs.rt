//! Sessions on cographs: in mode cograph with the tree of each graph, in mode quiet with that of
//! the last one alone.
ghost use Rattle.std.specs.Prelude.{◌≡◌, ◌≤◌, ◌*◌, true, Option, [], IfOk};
ghost use Rattle.std.specs.List.{All};
ghost use Rattle.md_graph.specs.PlainGraph.{adjacent};
ghost use Rattle.md_tree.specs.StrongTrees.{IsTree};
ghost use Rattle.md_tree.specs.Trees.{PlainTree};
ghost use Rattle.md_report.specs.declared.line.SessionMode.{SessionMode};
ghost use Rattle.md_report.specs.Cographs.{IsCograph};
ghost use Rattle.md_report.specs.ItemLines.{AnswersItem, IsDoneLine};
ghost use Rattle.md_report.specs.Lines as lines;
ghost use Rattle.md_report.specs.Lines.{PlainLine, plain_line, fed_line};
ghost use Rattle.md_report.specs.Places.{at_state, at_items, after_end};
ghost use Rattle.md_report.specs.Sessions.{State, first_state, state_behind, is_applied};
ghost use Rattle.md_report.specs.Steps.{state_of};
ghost use Rattle.md_script.specs.Histories.{HistoryFits};
ghost use Rattle.md_script.specs.Items.{HasItemNamesBelow};
ghost use Rattle.md_top.specs.CographModes.{cograph_mode};
ghost use Rattle.md_top.specs.ItemTexts.{IsItemText};
ghost use Rattle.md_top.specs.Sinks.{sink_run, PutsLines};

use crate::put::{
    applied_text_by_rows, fed_text, put_item_text, put_report_line, put_text, tree_text_by_rows,
};
use crate::stop::PutStop;
use crate::undos::{forget_unreached, undos_behind};
use md_graph::{GraphOf, Memory, Steps};
use md_io::Sink;
use md_outline::RowSpace;
use md_report::Line;
use md_script::{HistoryOf, Item, Script};
use md_session::{CographSessionOf, ItemAnswer, OpenedOf};
use std::alloc::Global;
use std::sync::ledger::Ledger;

/// Puts what comes behind the head of a session on cographs: the lines of its graphs and items, and
/// the last one; or an induced P4 of the first graph, and the last line. `told` says whether the
/// tree of each graph is told, in mode cograph, or that of the last one alone, in mode quiet.
/// Condition: the names in the script are below `64 * W`.
pub fn put_cographs<const W: usize, O: Sink, L: Ledger>(
    alloc: Global,
    told: bool,
    graph: GraphOf<W>,
    script: &Script,
    steps: &mut Steps<L>,
    out: &mut O,
) -> Result<(), PutStop>
    requires names { All (HasItemNamesBelow (64 * W)) script.now }
    ensures puts { PutsLines (at_state (cograph_mode told) graph.entry script.now) after_end result
        (sink_run O.Sink out.old out.new) }
    ensures faults_never_fall { O.faults out.old ≤ O.faults out.new }
{
    match CographSessionOf::new(alloc, graph)? {
        OpenedOf::Session(session) => put_opened(alloc, told, session, script, steps, out),
        OpenedOf::NotCograph(p) => {
            put_report_line(alloc, Line::NotCograph(p), out)?;
            put_report_line(alloc, Line::End, out)
        }
    }
}

// Puts the lines of a session on a cograph behind its head. Condition: the names in the script are
// below `64 * W`.
fn put_opened<const W: usize, O: Sink, L: Ledger>(
    alloc: Global,
    told: bool,
    session: CographSessionOf<W>,
    script: &Script,
    steps: &mut Steps<L>,
    out: &mut O,
) -> Result<(), PutStop>
    requires cograph { IsCograph session }
    requires names { All (HasItemNamesBelow (64 * W)) script.now }
    ensures puts { PutsLines (at_state (cograph_mode told) session.entry script.now) after_end
        result (sink_run O.Sink out.old out.new) }
    ensures faults_never_fall { O.faults out.old ≤ O.faults out.new }
{
    if told {
        return put_told(alloc, session, script, steps, out);
    }
    put_answers(alloc, false, session, script, steps, out)
}

// The same in mode cograph.
fn put_told<const W: usize, O: Sink, L: Ledger>(
    alloc: Global,
    session: CographSessionOf<W>,
    script: &Script,
    steps: &mut Steps<L>,
    out: &mut O,
) -> Result<(), PutStop>
    requires cograph { IsCograph session }
    requires names { All (HasItemNamesBelow (64 * W)) script.now }
    ensures puts { PutsLines (at_state SessionMode.Cograph session.entry script.now) after_end
        result (sink_run O.Sink out.old out.new) }
    ensures faults_never_fall { O.faults out.old ≤ O.faults out.new }
{
    let text = tree_text(alloc, &session, &mut RowSpace::new(alloc))?;
    put_text(&text, out)?;
    put_answers(alloc, true, session, script, steps, out)
}

// Puts the line of each item, and what comes behind. Conditions: the graph is a cograph, and the
// names in the script are below `64 * W`.
fn put_answers<const W: usize, O: Sink, L: Ledger>(
    alloc: Global,
    told: bool,
    mut session: CographSessionOf<W>,
    script: &Script,
    steps: &mut Steps<L>,
    out: &mut O,
) -> Result<(), PutStop>
    requires names { All (HasItemNamesBelow (64 * W)) script.now }
    ensures puts { PutsLines
        (at_items (cograph_mode told) (first_state session.entry) script.now) after_end result
        (sink_run O.Sink out.old out.new) }
    ensures faults_never_fall { O.faults out.old ≤ O.faults out.new }
{
    let mut history = HistoryOf::new(alloc)?;
    let mut undos = script.undos();
    let mut space = RowSpace::new(alloc);
    for i in 0..script.len() {
        let item = script.get(i);
        forget_unreached(&mut history, undos);
        let text = item_text(
            alloc,
            told,
            &mut session,
            item,
            &mut history,
            &mut space,
            steps,
        )?;
        put_item_text(&text, out)?;
        undos = undos_behind(undos, item);
    }
    put_last(alloc, told, &session, &mut space, out)
}

// Puts what comes behind the lines of all items: in mode quiet the tree of the graph, and the last
// line.
fn put_last<const W: usize, O: Sink>(
    alloc: Global,
    told: bool,
    session: &CographSessionOf<W>,
    space: &mut RowSpace,
    out: &mut O,
) -> Result<(), PutStop>
    ensures puts { (s : State) → s.graph ≡ session.now
        → PutsLines (at_items (cograph_mode told) s []) after_end result
        (sink_run O.Sink out.old out.new) }
    ensures faults_never_fall { O.faults out.old ≤ O.faults out.new }
{
    if told {
        return put_report_line(alloc, Line::End, out);
    }
    let text = tree_text(alloc, session, space)?;
    put_text(&text, out)?;
    put_report_line(alloc, Line::End, out)
}

// The text of the line of an item, which the session answers, with its line feed; none for the line
// `ok` alone. Conditions: the names in the item are below `64 * W`, and the history fits.
fn item_text<const W: usize, L: Ledger>(
    alloc: Global,
    told: bool,
    session: &mut CographSessionOf<W>,
    item: &Item,
    history: &mut HistoryOf<W>,
    space: &mut RowSpace,
    steps: &mut Steps<L>,
) -> Result<Option<Vec<u8>>, Memory>
    requires names { HasItemNamesBelow (64 * W) item.now }
    requires fits { HistoryFits (64 * W) IsCograph session.old history.old.items }
    ensures text { IfOk result (λ text. (line : PlainLine) × IsItemText text line
        × AnswersItem (cograph_mode told) (state_of session.old history.old.items) item.now line
        × (state_of session.new history.new.items
        ≡ state_behind (state_of session.old history.old.items) item.now line)) }
    ensures fits { HistoryFits (64 * W) IsCograph session.new history.new.items }
{
    history.reserve(alloc, item.room())?;
    match session.apply_item(item, history, steps) {
        ItemAnswer::Applied => applied_text(alloc, told, session, space),
        ItemAnswer::Refused(reason) => refusal_text(alloc, &Line::Refused(reason)),
        ItemAnswer::RefusedP4(p) => refusal_text(alloc, &Line::RefusedP4(p)),
        ItemAnswer::GroupRefused(number, reason) => {
            refusal_text(alloc, &Line::GroupRefused(number, reason))
        }
        ItemAnswer::GroupRefusedP4(number, p) => {
            refusal_text(alloc, &Line::GroupRefusedP4(number, p))
        }
        ItemAnswer::NothingToUndo => refusal_text(alloc, &Line::NothingToUndo),
    }
}

// The text of a line that refuses an item, with its line feed.
fn refusal_text(alloc: Global, line: &Line) -> Result<Option<Vec<u8>>, Memory>
    ensures { IfOk result (λ text. IsItemText text (plain_line line.now)) }
{
    Ok(Some(fed_text(alloc, line)?))
}

// The text of the line of an item that was applied and left the graph of the session, with its line
// feed; none in mode quiet.
fn applied_text<const W: usize>(
    alloc: Global,
    told: bool,
    session: &CographSessionOf<W>,
    space: &mut RowSpace,
) -> Result<Option<Vec<u8>>, Memory>
    ensures { IfOk result (λ text. (line : PlainLine) × IsItemText text line
        × IsDoneLine (cograph_mode told) session.now line × (is_applied line ≡ true)) }
{
    if told {
        return Ok(Some(applied_tree_text(alloc, session, space)?));
    }
    Ok(None)
}

// The text of the line that an item was applied and left the tree of the session, with its line
// feed.
fn applied_tree_text<const W: usize>(
    alloc: Global,
    session: &CographSessionOf<W>,
    space: &mut RowSpace,
) -> Result<Vec<u8>, Memory>
    ensures { IfOk result (λ text. (t : Option PlainTree)
        × IsTree (adjacent session.now) session.now.vertices t
        × (text.items ≡ fed_line (lines.applied t))) }
{
    let parts = session.outline(alloc)?;
    applied_text_by_rows(alloc, &parts, session.graph(), space)
}

// The text of the line of the tree of the session, with its line feed.
fn tree_text<const W: usize>(
    alloc: Global,
    session: &CographSessionOf<W>,
    space: &mut RowSpace,
) -> Result<Vec<u8>, Memory>
    ensures { IfOk result (λ text. (t : Option PlainTree)
        × IsTree (adjacent session.now) session.now.vertices t
        × (text.items ≡ fed_line (lines.tree t))) }
{
    let parts = session.outline(alloc)?;
    tree_text_by_rows(alloc, &parts, session.graph(), space)
}
