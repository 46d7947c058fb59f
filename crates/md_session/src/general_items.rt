//! Sessions on any graph over items: an edit, a group of edits, or an undo.
ghost use Rattle.std.specs.Prelude.{◌≡◌, ◌+◌, ◌*◌, ◌≤◌, List, ◌∷◌, length, IfOk, IsErr};
ghost use Rattle.std.specs.List.{All};
ghost use Rattle.md_graph.specs.PlainGraph.{adjacent};
ghost use Rattle.md_tree.specs.StrongTrees.{IsTree};
ghost use Rattle.md_tree.specs.Plain.{plain_option};
ghost use Rattle.md_script.specs.declared.edit.Edit as script;
ghost use Rattle.md_script.specs.declared.item.Item.TheVariants.{One, Undo, Group};
ghost use Rattle.md_script.specs.Edit.{HasNamesBelow};
ghost use Rattle.md_script.specs.Pasts.{taken_back, MayBack, AnyGraph};
ghost use Rattle.md_script.specs.Histories.{HistoryFits};
ghost use Rattle.md_report.specs.declared.line.SessionMode.TheVariants as modes;
ghost use Rattle.md_report.specs.Lines.{plain_line};
ghost use Rattle.md_report.specs.Steps.{ItemStep};

use md_decompose::decompose;
use md_graph::{GraphOf, Memory};
use md_report::Line;
use md_script::{
    Edit, Edits, HistoryOf, apply, apply_all, back_through, inverse, reason, take_back,
    take_item_back,
};
use md_tree::Tree;
use std::alloc::Global;

// Answers an edit alone. Conditions: its names are below `64 * W`, there is room for an item and an
// edit, and the history fits. Errors: want of memory; graph and history then stay.
pub(crate) fn apply_one<const W: usize>(
    alloc: Global,
    graph: &mut GraphOf<W>,
    edit: &Edit,
    history: &mut HistoryOf<W>,
) -> Result<Line, Memory>
    requires names { HasNamesBelow (64 * W) edit.now }
    requires room { 2 ≤ history.old.spare }
    requires fits { HistoryFits (64 * W) AnyGraph graph.old history.old.items }
    ensures step { IfOk result (λ line. ItemStep (64 * W) modes.Edit graph.old history.old.items
        (One edit.now) (plain_line line) graph.new history.new.items) }
    ensures stays { IsErr result → graph.new ≡ graph.old }
    ensures kept { IsErr result → history.new.items ≡ history.old.items }
{
    if let Some(reason) = reason(graph, edit) {
        return Ok(Line::Refused(reason));
    }
    let past = inverse(graph, edit);
    apply(graph, edit);
    if let Ok(tree) = decompose(alloc, graph) {
        history.open_item();
        history.push(past);
        return Ok(Line::Applied(tree));
    }
    take_back(graph, &past);
    Err(Memory)
}

// Answers a group. Conditions: the names in its edits are below `64 * W`, there is room for them
// and an item, and the history fits. Errors: want of memory; graph and history then stay.
pub(crate) fn apply_group<const W: usize>(
    alloc: Global,
    graph: &mut GraphOf<W>,
    edits: &Edits,
    history: &mut HistoryOf<W>,
) -> Result<Line, Memory>
    requires names { All (HasNamesBelow (64 * W)) edits.now }
    requires room { length edits.now + 1 ≤ history.old.spare }
    requires fits { HistoryFits (64 * W) AnyGraph graph.old history.old.items }
    ensures step { IfOk result (λ line. ItemStep (64 * W) modes.Edit graph.old history.old.items
        (Group edits.now) (plain_line line) graph.new history.new.items) }
    ensures stays { IsErr result → graph.new ≡ graph.old }
    ensures kept { IsErr result → history.new.items ≡ history.old.items }
{
    let _vertices = graph.vertices();
    history.open_item();
    if let Some((number, reason)) = apply_all(graph, edits, history) {
        take_item_back(graph, history);
        return Ok(Line::GroupRefused(number, reason));
    }
    if let Ok(tree) = decompose(alloc, graph) {
        return Ok(Line::Applied(tree));
    }
    take_item_back(graph, history);
    Err(Memory)
}

// Answers an undo. Condition: the history fits. Errors: want of memory; graph and history then
// stay.
pub(crate) fn undo<const W: usize>(
    alloc: Global,
    graph: &mut GraphOf<W>,
    history: &mut HistoryOf<W>,
) -> Result<Line, Memory>
    requires { HistoryFits (64 * W) AnyGraph graph.old history.old.items }
    ensures step { IfOk result (λ line. ItemStep (64 * W) modes.Edit graph.old history.old.items
        Undo (plain_line line) graph.new history.new.items) }
    ensures stays { IsErr result → graph.new ≡ graph.old }
    ensures kept { IsErr result → history.new.items ≡ history.old.items }
{
    if history.items() == 0 {
        return Ok(Line::NothingToUndo);
    }
    let tree = tree_before(alloc, graph, history)?;
    take_item_back(graph, history);
    Ok(Line::Applied(tree))
}

// The tree of the graph before the last item; the graph stays. All memory that an undo takes is
// taken here, before anything leaves the history. Condition: an item stands, and its edits can be
// taken back, the last one first. Errors: want of memory.
fn tree_before<const W: usize>(
    alloc: Global,
    graph: &mut GraphOf<W>,
    history: &HistoryOf<W>,
) -> Result<Option<Tree>, Memory>
    requires { (last : List script.Edit) × (others : List (List script.Edit)) ×
        (history.now.items ≡ last ∷ others) × MayBack (64 * W) AnyGraph graph.old last }
    ensures tree { IfOk result (λ tree.
        (last : List script.Edit) (others : List (List script.Edit)) →
        history.now.items ≡ last ∷ others → IsTree (adjacent (taken_back graph.old last))
        (taken_back graph.old last).vertices (plain_option tree)) }
    ensures stays { graph.new ≡ graph.old }
{
    let mut redo = HistoryOf::new(alloc)?;
    redo.reserve(alloc, 1)?;
    redo.open_item();
    redo.reserve(alloc, history.last_len())?;
    back_through(graph, history, &mut redo);
    let tree = decompose(alloc, graph);
    take_item_back(graph, &mut redo);
    tree
}
