//! Sessions on cographs over items: an edit, a group of edits, or an undo.
ghost use Rattle.std.specs.Prelude.{◌≡◌, ℕ, ◌+◌, ◌*◌, ◌<◌, ◌≤◌, List, [], ◌∷◌, length, vec_capacity, slice_get, Some, None, IfSome, IfNone};
ghost use Rattle.std.specs.List.{All};
ghost use Rattle.md_graph.specs.NameSet.{ascending};
ghost use Rattle.md_graph.specs.PlainGraph.{PlainGraph};
ghost use Rattle.md_cotree.specs.Cotrees.{Denotes};
ghost use Rattle.md_script.specs.declared.edit.Edit as script;
ghost use Rattle.md_script.specs.declared.item.Item.TheVariants.{One, Undo, Group};
ghost use Rattle.md_script.specs.Edit.{HasNamesBelow, HasNames, reason_of, after};
ghost use Rattle.md_script.specs.Pasts.{as_edit, taken_back, MayBack, HasApplied};
ghost use Rattle.md_script.specs.Histories.{HistoryFits};
ghost use Rattle.md_report.specs.declared.line.SessionMode.TheVariants as modes;
ghost use Rattle.md_report.specs.Cographs.{IsCograph};
ghost use Rattle.md_session.specs.Answers.{IsAnswered, answer_line, IsPushed, IsGroupRefusal};
ghost use Rattle.md_cograph.specs.EditCosts.{edit_cost};
ghost use Rattle.md_session.specs.Costs.{edits_cost, tried_cost, group_cost, undo_cost};
ghost use Rattle.md_report.specs.Steps.{ItemStep};

use crate::cograph::Answer;
use md_cograph::{change, p4_behind, take_back_item};
use md_cotree::Cotree;
use md_graph::{GraphOf, Set, Steps};
use md_modules::P4;
use md_script::{Edit, EditReason, Edits, HistoryOf, apply, inverse, reason};
use std::sync::ledger::Ledger;

/// What comes of an item.
#[derive(Clone, Copy, Debug, PartialEq, Eq)]
pub enum ItemAnswer {
    /// The item was applied.
    Applied,
    /// There is a reason against the edit, and the graph stays.
    Refused(EditReason),
    /// The graph after the edit would have this induced P4, and the graph stays.
    RefusedP4(P4),
    /// There is a reason against the edit of the group with this number, counted from 1, and the
    /// graph stays.
    GroupRefused(u64, EditReason),
    /// The graph after the edit of the group with this number, counted from 1, would have this
    /// induced P4, and the graph stays.
    GroupRefusedP4(u64, P4),
    /// There is no item to undo, and the graph stays.
    NothingToUndo,
}

// Answers an edit alone. Conditions: the graph is a cograph and the cotree its own, there is room
// for an item and an edit, the history fits, and the names in the edit are below `64 * W`.
pub(crate) fn answer_one<const W: usize, L: Ledger>(
    graph: &mut GraphOf<W>,
    tree: &mut Cotree,
    edit: &Edit,
    history: &mut HistoryOf<W>,
    steps: &mut Steps<L>,
) -> ItemAnswer
    requires names { HasNamesBelow (64 * W) edit.now }
    requires cograph { IsCograph graph.old }
    requires denotes { Denotes tree.old graph.old }
    requires room { 2 ≤ history.old.spare }
    requires fits { HistoryFits (64 * W) IsCograph graph.old history.old.items }
    ensures step { ItemStep (64 * W) modes.Quiet graph.old history.old.items (One edit.now)
        (answer_line result) graph.new history.new.items }
    ensures denotes { Denotes tree.new graph.new }
    ensures bound { steps.new ≤ steps.old + edit_cost graph.old edit.now }
{
    let _vertices = graph.vertices();
    history.open_item();
    match step(graph, tree, edit, history, steps) {
        Answer::Applied => ItemAnswer::Applied,
        Answer::Refused(reason) => {
            history.drop_item();
            ItemAnswer::Refused(reason)
        }
        Answer::RefusedP4(p) => {
            history.drop_item();
            ItemAnswer::RefusedP4(p)
        }
    }
}

// Answers a group. Conditions: the graph is a cograph and the cotree its own, there is room for an
// item and the edits, and for a list of neighbours, the history fits, and the names in the edits
// are below `64 * W`.
pub(crate) fn answer_group<const W: usize, L: Ledger>(
    graph: &mut GraphOf<W>,
    tree: &mut Cotree,
    near: &mut Vec<u32>,
    edits: &Edits,
    history: &mut HistoryOf<W>,
    steps: &mut Steps<L>,
) -> ItemAnswer
    requires names { All (HasNamesBelow (64 * W)) edits.now }
    requires cograph { IsCograph graph.old }
    requires denotes { Denotes tree.old graph.old }
    requires near { 64 * W ≤ vec_capacity near.old }
    requires room { length edits.now + 1 ≤ history.old.spare }
    requires fits { HistoryFits (64 * W) IsCograph graph.old history.old.items }
    ensures step { ItemStep (64 * W) modes.Quiet graph.old history.old.items (Group edits.now)
        (answer_line result) graph.new history.new.items }
    ensures denotes { Denotes tree.new graph.new }
    ensures near { vec_capacity near.new ≡ vec_capacity near.old }
    ensures bound { steps.new ≤ steps.old + group_cost graph.old edits.now result }
{
    let _vertices = graph.vertices();
    history.open_item();
    match apply_edits(graph, tree, edits, history, steps) {
        Some(answer) => {
            take_back_item(graph, tree, near, history, steps);
            answer
        }
        None => ItemAnswer::Applied,
    }
}

// Answers an undo. Conditions: the graph is a cograph and the cotree its own, there is room for a
// list of neighbours, and the history fits.
pub(crate) fn answer_undo<const W: usize, L: Ledger>(
    graph: &mut GraphOf<W>,
    tree: &mut Cotree,
    near: &mut Vec<u32>,
    history: &mut HistoryOf<W>,
    steps: &mut Steps<L>,
) -> ItemAnswer
    requires cograph { IsCograph graph.old }
    requires denotes { Denotes tree.old graph.old }
    requires near { 64 * W ≤ vec_capacity near.old }
    requires fits { HistoryFits (64 * W) IsCograph graph.old history.old.items }
    ensures step { ItemStep (64 * W) modes.Quiet graph.old history.old.items Undo
        (answer_line result) graph.new history.new.items }
    ensures denotes { Denotes tree.new graph.new }
    ensures near { vec_capacity near.new ≡ vec_capacity near.old }
    ensures bound { steps.new ≤ steps.old + undo_cost graph.old history.old.items }
{
    if history.items() == 0 {
        return ItemAnswer::NothingToUndo;
    }
    take_back_item(graph, tree, near, history, steps);
    ItemAnswer::Applied
}

// Applies the edits of a group one after the other, up to the first that is refused: of that the
// answer. What takes the others back is pushed to the history. Conditions: the graph is a cograph
// and the cotree its own, the last item of the history has no edits, there is room for the edits,
// and their names are below `64 * W`.
fn apply_edits<const W: usize, L: Ledger>(
    graph: &mut GraphOf<W>,
    tree: &mut Cotree,
    edits: &Edits,
    history: &mut HistoryOf<W>,
    steps: &mut Steps<L>,
) -> Option<ItemAnswer>
    requires names { All (HasNamesBelow (64 * W)) edits.now }
    requires cograph { IsCograph graph.old }
    requires denotes { Denotes tree.old graph.old }
    requires item { (others : List (List script.Edit)) × (history.old.items ≡ [] ∷ others) }
    requires room { length edits.now ≤ history.old.spare }
    ensures applied { IfNone result ((others : List (List script.Edit)) →
        history.old.items ≡ [] ∷ others → (back : List script.Edit) ×
        HasApplied IsCograph graph.old edits.now graph.new back (length edits.now) ×
        (history.new.items ≡ back ∷ others)) }
    ensures refused { IfSome result (λ answer. (others : List (List script.Edit)) →
        history.old.items ≡ [] ∷ others → (n : ℕ) × (edit : script.Edit) ×
        (back : List script.Edit) × (slice_get edits.now n ≡ Some edit) ×
        HasApplied IsCograph graph.old edits.now graph.new back n ×
        (history.new.items ≡ back ∷ others) × IsGroupRefusal graph.new n edit answer) }
    ensures denotes { Denotes tree.new graph.new }
    ensures whole_bound { IfNone result (steps.new ≤ steps.old + edits_cost graph.old edits.now) }
    ensures bound { IfSome result (λ answer.
        steps.new ≤ steps.old + tried_cost graph.old edits.now answer) }
{
    for i in 0..edits.len() {
        match step(graph, tree, edits.get(i), history, steps) {
            Answer::Applied => {}
            Answer::Refused(reason) => return Some(ItemAnswer::GroupRefused(i + 1, reason)),
            Answer::RefusedP4(p) => return Some(ItemAnswer::GroupRefusedP4(i + 1, p)),
        }
    }
    None
}

// Answers an edit, and pushes what takes it back to the last item of a history. Conditions: the
// graph is a cograph and the cotree its own, an item stands, there is room for an edit, and the
// names in the edit are below `64 * W`.
fn step<const W: usize, L: Ledger>(
    graph: &mut GraphOf<W>,
    tree: &mut Cotree,
    edit: &Edit,
    history: &mut HistoryOf<W>,
    steps: &mut Steps<L>,
) -> Answer
    requires names { HasNamesBelow (64 * W) edit.now }
    requires cograph { IsCograph graph.old }
    requires denotes { Denotes tree.old graph.old }
    requires item { 0 < length history.old.items }
    requires room { 1 ≤ history.old.spare }
    ensures answer { IsAnswered graph.old edit.now result graph.new }
    ensures denotes { Denotes tree.new graph.new }
    ensures pushed { IsPushed graph.old edit.now result history.old.items history.new.items }
    ensures spare { history.old.spare ≤ history.new.spare + 1 }
    ensures bound { steps.new ≤ steps.old + edit_cost graph.old edit.now }
{
    let _vertices = graph.vertices();
    if let Some(reason) = reason(graph, edit) {
        return Answer::Refused(reason);
    }
    if !change(tree, edit, steps) {
        return Answer::RefusedP4(p4_behind(graph, edit));
    }
    history.push(inverse(graph, edit));
    apply(graph, edit);
    Answer::Applied
}
