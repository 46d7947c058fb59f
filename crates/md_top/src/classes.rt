//! Sessions on a class of graphs, with the tree of each graph.
ghost use Rattle.std.specs.Prelude.{◌≡◌, ◌≤◌, ◌*◌, Option, IfOk};
ghost use Rattle.std.specs.List.{All};
ghost use Rattle.md_graph.specs.PlainGraph.{adjacent};
ghost use Rattle.md_tree.specs.StrongTrees.{IsTree};
ghost use Rattle.md_tree.specs.Trees.{PlainTree};
ghost use Rattle.md_report.specs.declared.line.SessionMode.{SessionMode};
ghost use Rattle.md_report.specs.Classes.{IsAllowedIn};
ghost use Rattle.md_report.specs.Lines as lines;
ghost use Rattle.md_report.specs.Lines.{PlainLine, fed_line};
ghost use Rattle.md_report.specs.Places.{at_state, at_items, after_end};
ghost use Rattle.md_report.specs.Sessions.{first_state};
ghost use Rattle.md_report.specs.Steps.{ItemStep};
ghost use Rattle.md_script.specs.Histories.{HistoryFits};
ghost use Rattle.md_script.specs.Items.{HasItemNamesBelow};
ghost use Rattle.md_top.specs.Sinks.{sink_run, PutsLines};

use crate::put::{applied_text_by_rows, put_report_line, put_text, tree_text_by_rows, with_feed};
use crate::stop::PutStop;
use crate::undos::{forget_unreached, undos_behind};
use md_bar::{Bar, Class, ClassLine, write_class};
use md_class::{ClassAnswer, ClassOpenedOf, ClassSessionOf};
use md_graph::{GraphOf, Memory, Steps};
use md_io::Sink;
use md_outline::RowSpace;
use md_report::Line;
use md_script::{HistoryOf, Item, Script};
use std::alloc::Global;
use std::sync::ledger::Ledger;

/// Puts what comes behind the head of a session on a class of graphs: the lines of its graphs and
/// items, and the last one; or a bar of the first graph, and the last line. Condition: the names in
/// the script are below `64 * W`.
pub fn put_class<const W: usize, O: Sink, L: Ledger>(
    alloc: Global,
    class: Class,
    graph: GraphOf<W>,
    script: &Script,
    steps: &mut Steps<L>,
    out: &mut O,
) -> Result<(), PutStop>
    requires names { All (HasItemNamesBelow (64 * W)) script.now }
    ensures puts { PutsLines (at_state (SessionMode.Of class) graph.entry script.now) after_end
        result (sink_run O.Sink out.old out.new) }
    ensures faults_never_fall { O.faults out.old ≤ O.faults out.new }
{
    match ClassSessionOf::new(alloc, graph, class)? {
        ClassOpenedOf::Session(session) => put_opened(alloc, session, script, steps, out),
        ClassOpenedOf::Barred(bar) => {
            let text = bar_text(alloc, bar)?;
            put_text(&text, out)?;
            put_report_line(alloc, Line::End, out)
        }
    }
}

// The text of the line that tells of a bar of the first graph, with its line feed.
fn bar_text(alloc: Global, bar: Bar) -> Result<Vec<u8>, Memory>
    ensures { IfOk result (λ text. text.items ≡ fed_line (PlainLine.barred bar)) }
{
    with_feed(write_class(alloc, &ClassLine::First(bar))?)
}

// Puts the lines of a session behind its head. Conditions: the graph is of the class, and the names
// in the script are below `64 * W`.
fn put_opened<const W: usize, O: Sink, L: Ledger>(
    alloc: Global,
    session: ClassSessionOf<W>,
    script: &Script,
    steps: &mut Steps<L>,
    out: &mut O,
) -> Result<(), PutStop>
    requires allowed { IsAllowedIn session.class session.graph }
    requires names { All (HasItemNamesBelow (64 * W)) script.now }
    ensures puts { PutsLines
        (at_state (SessionMode.Of session.entry.class) session.entry.graph script.now) after_end
        result (sink_run O.Sink out.old out.new) }
    ensures faults_never_fall { O.faults out.old ≤ O.faults out.new }
{
    let text = tree_text(alloc, &session)?;
    put_text(&text, out)?;
    put_items(alloc, session, script, steps, out)
}

// The text of the line of the tree of the session, with its line feed.
fn tree_text<const W: usize>(alloc: Global, session: &ClassSessionOf<W>) -> Result<Vec<u8>, Memory>
    ensures { IfOk result (λ text. (t : Option PlainTree)
        × IsTree (adjacent session.now.graph) session.now.graph.vertices t
        × (text.items ≡ fed_line (lines.tree t))) }
{
    let parts = session.outline(alloc)?;
    tree_text_by_rows(alloc, &parts, session.graph(), &mut RowSpace::new(alloc))
}

// Puts the line of each item, and the last line. Conditions: the graph is of the class, and the
// names in the script are below `64 * W`.
fn put_items<const W: usize, O: Sink, L: Ledger>(
    alloc: Global,
    mut session: ClassSessionOf<W>,
    script: &Script,
    steps: &mut Steps<L>,
    out: &mut O,
) -> Result<(), PutStop>
    requires names { All (HasItemNamesBelow (64 * W)) script.now }
    ensures puts { PutsLines (at_items (SessionMode.Of session.entry.class)
        (first_state session.entry.graph) script.now) after_end result
        (sink_run O.Sink out.old out.new) }
    ensures faults_never_fall { O.faults out.old ≤ O.faults out.new }
{
    let mut history = HistoryOf::new(alloc)?;
    let mut undos = script.undos();
    let mut space = RowSpace::new(alloc);
    for i in 0..script.len() {
        let item = script.get(i);
        forget_unreached(&mut history, undos);
        let text = item_text(alloc, &mut session, item, &mut history, &mut space, steps)?;
        put_text(&text, out)?;
        undos = undos_behind(undos, item);
    }
    put_report_line(alloc, Line::End, out)
}

// The text of the line of an item, which the session answers, with its line feed. Conditions: the
// names in the item are below `64 * W`, and the history fits.
fn item_text<const W: usize, L: Ledger>(
    alloc: Global,
    session: &mut ClassSessionOf<W>,
    item: &Item,
    history: &mut HistoryOf<W>,
    space: &mut RowSpace,
    steps: &mut Steps<L>,
) -> Result<Vec<u8>, Memory>
    requires names { HasItemNamesBelow (64 * W) item.now }
    requires fits { HistoryFits (64 * W) (IsAllowedIn session.old.class) session.old.graph
        history.old.items }
    ensures line { IfOk result (λ text. (line : PlainLine) × (text.items ≡ fed_line line)
        × ItemStep (64 * W) (SessionMode.Of session.old.class) session.old.graph history.old.items
        item.now line session.new.graph history.new.items) }
    ensures class { session.new.class ≡ session.old.class }
{
    history.reserve(alloc, item.room())?;
    match session.answer_item(alloc, item, history, steps)? {
        ClassAnswer::Applied(parts) => {
            applied_text_by_rows(alloc, &parts, session.graph(), space)
        }
        ClassAnswer::Refused(line) => with_feed(write_class(alloc, &line)?),
    }
}
