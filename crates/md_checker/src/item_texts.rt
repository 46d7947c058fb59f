//! Whether a text is that of a line that tells the tree of the graph to which an item of a script
//! leads. No tree is built.
ghost use Rattle.std.specs.Prelude.{◌≡◌, ◌*◌, List, codes, IfOk, IsErr, IsTrue};
ghost use Rattle.std.specs.List.{All};
ghost use Rattle.md_script.specs.declared.edit.Edit as script;
ghost use Rattle.md_script.specs.declared.item.Item.TheVariants.{One, Undo, Group};
ghost use Rattle.md_script.specs.Edit.{HasNamesBelow};
ghost use Rattle.md_script.specs.Items.{HasItemNamesBelow};
ghost use Rattle.md_script.specs.Histories.{HistoryFits};
ghost use Rattle.md_report.specs.declared.line.SessionMode.TheVariants.{Quiet};
ghost use Rattle.md_report.specs.ItemLines.{IsAllowed};
ghost use Rattle.md_checker.specs.Judged.{IsJudgedByText};

use crate::item_answers::{Tried, go_back, try_edits};
use crate::judgements::is_true;
use crate::state_text::is_word_and_state;
use md_graph::{GraphOf, Memory};
use md_report::SessionMode;
use md_script::{Edit, Edits, HistoryOf, Item, apply, inverse, reason, take_back, take_item_back};
use std::alloc::Global;

// Whether the text is that of a line that tells the tree of the graph after the item: graph and
// history are then those behind it; else, and for want of memory, they stay. A false says nothing.
// Conditions: the names in the item are below `64 * W`, the history fits, the graph may be a state
// of a session of the mode, and the mode is not quiet.
pub(crate) fn answers_by_text<const W: usize>(
    alloc: Global,
    mode: SessionMode,
    graph: &mut GraphOf<W>,
    history: &mut HistoryOf<W>,
    item: &Item,
    text: &[u8],
) -> Result<bool, Memory>
    requires names { HasItemNamesBelow (64 * W) item.now }
    requires told { mode ≡ Quiet → ⊥ }
    requires fits { HistoryFits (64 * W) (IsAllowed mode) graph.old history.old.items }
    requires allowed { IsAllowed mode graph.old }
    ensures judged { IfOk result (λ taken. IsJudgedByText taken (64 * W) mode graph.old
        history.old.items item.now text.now graph.new history.new.items) }
    ensures stays { IsErr result → graph.new ≡ graph.old }
    ensures kept { IsErr result → history.new.items ≡ history.old.items }
{
    if !text.starts_with(b"ok ") {
        return Ok(false);
    }
    match item {
        Item::One(edit) => edit_by_text(alloc, mode, graph, history, edit, text),
        Item::Group(edits) => group_by_text(alloc, mode, graph, history, edits, text),
        Item::Undo => undo_by_text(alloc, mode, graph, history, text),
    }
}

// The same of an edit alone.
fn edit_by_text<const W: usize>(
    alloc: Global,
    mode: SessionMode,
    graph: &mut GraphOf<W>,
    history: &mut HistoryOf<W>,
    edit: &Edit,
    text: &[u8],
) -> Result<bool, Memory>
    requires names { HasNamesBelow (64 * W) edit.now }
    requires told { mode ≡ Quiet → ⊥ }
    requires fits { HistoryFits (64 * W) (IsAllowed mode) graph.old history.old.items }
    requires allowed { IsAllowed mode graph.old }
    ensures judged { IfOk result (λ taken. IsJudgedByText taken (64 * W) mode graph.old
        history.old.items (One edit.now) text.now graph.new history.new.items) }
    ensures stays { IsErr result → graph.new ≡ graph.old }
    ensures kept { IsErr result → history.new.items ≡ history.old.items }
{
    if let Some(_) = reason(graph, edit) {
        return Ok(false);
    }
    history.reserve(alloc, 2)?;
    let past = inverse(graph, edit);
    apply(graph, edit);
    let fit = is_word_and_state(alloc, mode, graph, b"ok ", text);
    if is_true(&fit) {
        history.open_item();
        history.push(past);
        return fit;
    }
    take_back(graph, &past);
    fit
}

// The same of a group.
fn group_by_text<const W: usize>(
    alloc: Global,
    mode: SessionMode,
    graph: &mut GraphOf<W>,
    history: &mut HistoryOf<W>,
    edits: &Edits,
    text: &[u8],
) -> Result<bool, Memory>
    requires names { All (HasNamesBelow (64 * W)) edits.now }
    requires told { mode ≡ Quiet → ⊥ }
    requires fits { HistoryFits (64 * W) (IsAllowed mode) graph.old history.old.items }
    requires allowed { IsAllowed mode graph.old }
    ensures judged { IfOk result (λ taken. IsJudgedByText taken (64 * W) mode graph.old
        history.old.items (Group edits.now) text.now graph.new history.new.items) }
    ensures stays { IsErr result → graph.new ≡ graph.old }
    ensures kept { IsErr result → history.new.items ≡ history.old.items }
{
    let _vertices = graph.vertices();
    history.reserve(alloc, edits.len() + 1)?;
    history.open_item();
    match try_edits(mode, graph, history, edits) {
        Tried::All => {
            let fit = is_word_and_state(alloc, mode, graph, b"ok ", text);
            if is_true(&fit) {
                return fit;
            }
            take_item_back(graph, history);
            fit
        }
        Tried::Refused(_, _) => {
            take_item_back(graph, history);
            Ok(false)
        }
        Tried::Barred(_) => {
            take_item_back(graph, history);
            Ok(false)
        }
    }
}

// The same of an undo.
fn undo_by_text<const W: usize>(
    alloc: Global,
    mode: SessionMode,
    graph: &mut GraphOf<W>,
    history: &mut HistoryOf<W>,
    text: &[u8],
) -> Result<bool, Memory>
    requires told { mode ≡ Quiet → ⊥ }
    requires fits { HistoryFits (64 * W) (IsAllowed mode) graph.old history.old.items }
    requires allowed { IsAllowed mode graph.old }
    ensures judged { IfOk result (λ taken. IsJudgedByText taken (64 * W) mode graph.old
        history.old.items Undo text.now graph.new history.new.items) }
    ensures stays { IsErr result → graph.new ≡ graph.old }
    ensures kept { IsErr result → history.new.items ≡ history.old.items }
{
    if history.items() == 0 {
        return Ok(false);
    }
    let mut redo = go_back(alloc, graph, history)?;
    let fit = is_word_and_state(alloc, mode, graph, b"ok ", text);
    take_item_back(graph, &mut redo);
    if is_true(&fit) {
        take_item_back(graph, history);
        return fit;
    }
    fit
}
