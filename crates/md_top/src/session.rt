//! Sessions on the one graph of a file: both files are read whole before the first put.
ghost use Rattle.std.specs.Prelude.{◌≡◌, ◌<◌, ◌≤◌, ◌*◌, Option, IfOk};
ghost use Rattle.std.specs.List.{All};
ghost use Rattle.md_graph.specs.PlainGraph.{adjacent};
ghost use Rattle.md_tree.specs.StrongTrees.{IsTree};
ghost use Rattle.md_tree.specs.Trees.{PlainTree};
ghost use Rattle.md_session.specs.LocalSteps.{line_of_answer};
ghost use Rattle.md_input.specs.Inputs.{graph_of_inputs, script_of_inputs, HaveRoom};
ghost use Rattle.md_report.specs.declared.line.SessionMode.{SessionMode};
ghost use Rattle.md_report.specs.declared.line.SessionMode.TheVariants as modes;
ghost use Rattle.md_report.specs.Lines as lines;
ghost use Rattle.md_report.specs.Lines.{PlainLine, fed_line};
ghost use Rattle.md_report.specs.Places.{before_session, at_state, at_items, after_end};
ghost use Rattle.md_report.specs.Sessions.{first_state};
ghost use Rattle.md_report.specs.Steps.{ItemStep};
ghost use Rattle.md_script.specs.Histories.{HistoryFits};
ghost use Rattle.md_script.specs.Pasts.{AnyGraph};
ghost use Rattle.md_script.specs.Items.{HasItemNamesBelow};
ghost use Rattle.md_top.specs.declared.request.Subject.{Subject};
ghost use Rattle.md_top.specs.declared.request.Request.{Request};
ghost use Rattle.md_top.specs.Command.{CommandEnds};
ghost use Rattle.md_top.specs.Sinks.{sink_run, PutsLines};

use crate::classes::put_class;
use crate::cographs::put_cographs;
use crate::put::{put_report_line, put_text, with_feed};
use crate::stop::{PutStop, Stop, Verdict};
use crate::undos::{forget_unreached, undos_behind};
use md_graph::{GraphOf, Memory, Steps};
use md_input::{Format, SessionInputs, session_inputs};
use md_io::Sink;
use md_report::{Line, SessionMode, write_applied, write_line, write_session_head, write_tree};
use md_script::{HistoryOf, Item, Script};
use md_session::{LocalAnswer, LocalSessionOf};
use std::alloc::Global;
use std::marker::Brand;
use std::sync::ledger::{Blank, Ledger};

/// Puts the report of a session on the one graph of a graph file over a script.
// Never inlined, so that the stack holds the frame of one kind of reports alone.
#[inline(never)]
pub fn session_report<O: Sink>(
    alloc: Global,
    mode: SessionMode,
    from: Format,
    file: &[u8],
    script: &[u8],
    out: &mut O,
) -> Result<Verdict, Stop>
    ensures ends { CommandEnds
        (Request.Report (Subject.Session mode from file.now script.now)) result
        (sink_run O.Sink out.old out.new) }
    ensures faults_never_fall { O.faults out.old ≤ O.faults out.new }
{
    let inputs = session_inputs(alloc, from, file, script)?;
    put_counting::<O, Brand>(alloc, mode, inputs, Blank::new(1), out)?;
    Ok(Verdict::Done)
}

// Puts the report of a session on inputs; nobody reads the steps. Condition: the rows of the graph
// have room for the names in the script.
fn put_counting<O: Sink, L: Ledger>(
    alloc: Global,
    mode: SessionMode,
    inputs: SessionInputs,
    blank: Blank,
    out: &mut O,
) -> Result<(), PutStop>
    requires name { blank.name ≡ L.name }
    requires parts { blank.parts ≡ L.parts }
    requires some { 0 < blank.parts }
    requires room { HaveRoom inputs }
    ensures puts { PutsLines
        (before_session mode (graph_of_inputs inputs) (script_of_inputs inputs)) after_end result
        (sink_run O.Sink out.old out.new) }
    ensures faults_never_fall { O.faults out.old ≤ O.faults out.new }
{
    let mut steps = Steps::<L>::new(blank);
    match inputs {
        SessionInputs::Broad(graph, script) => {
            put_session(alloc, mode, graph, &script, &mut steps, out)
        }
        SessionInputs::Large(graph, script) => {
            put_session(alloc, mode, graph, &script, &mut steps, out)
        }
    }
}

// Puts the report of a session. Condition: the names in the script are below `64 * W`. Never
// inlined, so that the stack holds the frame of one width alone.
#[inline(never)]
fn put_session<const W: usize, O: Sink, L: Ledger>(
    alloc: Global,
    mode: SessionMode,
    graph: GraphOf<W>,
    script: &Script,
    steps: &mut Steps<L>,
    out: &mut O,
) -> Result<(), PutStop>
    requires names { All (HasItemNamesBelow (64 * W)) script.now }
    ensures puts { PutsLines (before_session mode graph.entry script.now) after_end result
        (sink_run O.Sink out.old out.new) }
    ensures faults_never_fall { O.faults out.old ≤ O.faults out.new }
{
    let head = with_feed(write_session_head(alloc, mode)?)?;
    put_text(&head, out)?;
    match mode {
        SessionMode::Edit => put_states(alloc, graph, script, steps, out),
        SessionMode::Cograph => put_cographs(alloc, true, graph, script, steps, out),
        SessionMode::Quiet => put_cographs(alloc, false, graph, script, steps, out),
        SessionMode::Of(class) => put_class(alloc, class, graph, script, steps, out),
    }
}

// Puts the tree of the first graph, the line of each item, and the last line. Condition: the names
// in the script are below `64 * W`.
fn put_states<const W: usize, O: Sink, L: Ledger>(
    alloc: Global,
    graph: GraphOf<W>,
    script: &Script,
    steps: &mut Steps<L>,
    out: &mut O,
) -> Result<(), PutStop>
    requires names { All (HasItemNamesBelow (64 * W)) script.now }
    ensures puts { PutsLines (at_state SessionMode.Edit graph.entry script.now) after_end result
        (sink_run O.Sink out.old out.new) }
    ensures faults_never_fall { O.faults out.old ≤ O.faults out.new }
{
    let session = LocalSessionOf::new(alloc, graph)?;
    let text = first_text(alloc, &session)?;
    put_text(&text, out)?;
    put_items(alloc, session, script, steps, out)
}

// Puts the line of each item, and the last line. Condition: the names in the script are below
// `64 * W`.
fn put_items<const W: usize, O: Sink, L: Ledger>(
    alloc: Global,
    mut session: LocalSessionOf<W>,
    script: &Script,
    steps: &mut Steps<L>,
    out: &mut O,
) -> Result<(), PutStop>
    requires names { All (HasItemNamesBelow (64 * W)) script.now }
    ensures puts { PutsLines (at_items SessionMode.Edit (first_state session.entry) script.now)
        after_end result (sink_run O.Sink out.old out.new) }
    ensures faults_never_fall { O.faults out.old ≤ O.faults out.new }
{
    let mut history = HistoryOf::new(alloc)?;
    let mut undos = script.undos();
    for i in 0..script.len() {
        let item = script.get(i);
        forget_unreached(&mut history, undos);
        let text = item_text(alloc, &mut session, item, &mut history, steps)?;
        put_text(&text, out)?;
        undos = undos_behind(undos, item);
    }
    put_report_line(alloc, Line::End, out)
}

// The text of the line of the session's tree, with its line feed.
fn first_text<const W: usize>(alloc: Global, session: &LocalSessionOf<W>) -> Result<Vec<u8>, Memory>
    ensures { IfOk result (λ text. (t : Option PlainTree)
        × IsTree (adjacent session.now) session.now.vertices t
        × (text.items ≡ fed_line (lines.tree t))) }
{
    with_feed(write_tree(alloc, session.kept_tree())?)
}

// The text of the line of an item, which the session answers, with its line feed. Conditions: the
// names in the item are below `64 * W`, and the history fits.
fn item_text<const W: usize, L: Ledger>(
    alloc: Global,
    session: &mut LocalSessionOf<W>,
    item: &Item,
    history: &mut HistoryOf<W>,
    steps: &mut Steps<L>,
) -> Result<Vec<u8>, Memory>
    requires names { HasItemNamesBelow (64 * W) item.now }
    requires fits { HistoryFits (64 * W) AnyGraph session.old history.old.items }
    ensures { IfOk result (λ text. (line : PlainLine) × (text.items ≡ fed_line line)
        × ItemStep (64 * W) modes.Edit session.old history.old.items item.now line session.new
        history.new.items) }
{
    history.reserve(alloc, item.room())?;
    let answer = session.answer_item(alloc, item, history, steps)?;
    answer_text(alloc, session, answer)
}

// The text of the line of an answer, which has the session's tree where an item was applied, with
// its line feed.
fn answer_text<const W: usize>(
    alloc: Global,
    session: &LocalSessionOf<W>,
    answer: LocalAnswer,
) -> Result<Vec<u8>, Memory>
    ensures { IfOk result (λ text. (t : Option PlainTree)
        × IsTree (adjacent session.now) session.now.vertices t
        × (text.items ≡ fed_line (line_of_answer answer t))) }
{
    let kept = session.kept_tree();
    match answer {
        LocalAnswer::Applied => with_feed(write_applied(alloc, kept)?),
        LocalAnswer::Refused(reason) => with_feed(write_line(alloc, &Line::Refused(reason))?),
        LocalAnswer::GroupRefused(number, reason) => {
            with_feed(write_line(alloc, &Line::GroupRefused(number, reason))?)
        }
        LocalAnswer::NothingToUndo => with_feed(write_line(alloc, &Line::NothingToUndo)?),
    }
}
