//! Undos of sessions on a class of graphs.
ghost use Rattle.std.specs.Prelude.{◌≡◌, ◌*◌, ◌≤◌, List, [], ◌∷◌, length, vec_capacity, IfOk, IsErr};
ghost use Rattle.md_bar_tree.specs.declared.Class as bars;
ghost use Rattle.md_cotree.specs.Cotrees.{Denotes};
ghost use Rattle.md_script.specs.declared.edit.Edit as script;
ghost use Rattle.md_script.specs.declared.item.Item.TheVariants.{Undo};
ghost use Rattle.md_script.specs.Pasts.{taken_back, MayBack};
ghost use Rattle.md_script.specs.Histories.{HistoryFits};
ghost use Rattle.md_report.specs.Cographs.{IsCograph};
ghost use Rattle.md_report.specs.Classes.{IsAllowedIn};
ghost use Rattle.md_class.specs.ItemAnswers.{IsToldOf, IsItemAnswer};

use crate::answers::{ItemAnswer, Told, told_of};
use md_bar::ClassLine;
use md_cograph::{change_back, take_back_item};
use md_cotree::Cotree;
use md_graph::{GraphOf, Memory, Steps};
use md_report::Line;
use md_script::{HistoryOf, again, take_back};
use std::alloc::Global;
use std::sync::ledger::Ledger;

// Answers an undo, which asks for no bar: the graph before is of the class. Its tree is told whole
// or by its outline. Conditions: the cotree is that of the graph, there is room for a list of
// neighbours, and the history fits. Errors: want of memory; graph and history then stay.
pub(crate) fn answer_undo<const W: usize, L: Ledger>(
    alloc: Global,
    whole: bool,
    graph: &mut GraphOf<W>,
    tree: &mut Cotree,
    near: &mut Vec<u32>,
    history: &mut HistoryOf<W>,
    steps: &mut Steps<L>,
) -> Result<ItemAnswer, Memory>
    requires denotes { Denotes tree.old graph.old }
    requires near { 64 * W ≤ vec_capacity near.old }
    requires fits { HistoryFits (64 * W) IsCograph graph.old history.old.items }
    ensures step { IfOk result (λ answer. (class : bars.Class) →
        HistoryFits (64 * W) (IsAllowedIn class) graph.old history.old.items →
        IsItemAnswer (64 * W) class whole graph.old history.old.items Undo answer graph.new
        history.new.items) }
    ensures allowed { (class : bars.Class) → IsAllowedIn class graph.old →
        HistoryFits (64 * W) (IsAllowedIn class) graph.old history.old.items →
        IsAllowedIn class graph.new }
    ensures denotes { Denotes tree.new graph.new }
    ensures near { vec_capacity near.new ≡ vec_capacity near.old }
    ensures stays { IsErr result → graph.new ≡ graph.old }
    ensures kept { IsErr result → history.new.items ≡ history.old.items }
{
    if history.items() == 0 {
        return Ok(ItemAnswer::Refused(ClassLine::Plain(Line::NothingToUndo)));
    }
    let before = told_before(alloc, whole, graph, tree, near, history, steps)?;
    take_back_item(graph, tree, near, history, steps);
    Ok(ItemAnswer::Applied(before))
}

// What is told of the graph before the last item; the graph stays, and so does the graph of the
// cotree. All memory that an undo takes is taken here, before anything leaves the history.
// Conditions: the cotree is that of the graph, there is room for a list of neighbours, an item
// stands, and its edits can be taken back, the last one first, over cographs. Errors: want of
// memory.
fn told_before<const W: usize, L: Ledger>(
    alloc: Global,
    whole: bool,
    graph: &mut GraphOf<W>,
    tree: &mut Cotree,
    near: &mut Vec<u32>,
    history: &HistoryOf<W>,
    steps: &mut Steps<L>,
) -> Result<Told, Memory>
    requires denotes { Denotes tree.old graph.old }
    requires near { 64 * W ≤ vec_capacity near.old }
    requires item { (last : List script.Edit) × (others : List (List script.Edit)) ×
        (history.now.items ≡ last ∷ others) × MayBack (64 * W) IsCograph graph.old last }
    ensures told { IfOk result (λ told.
        (last : List script.Edit) (others : List (List script.Edit)) →
        history.now.items ≡ last ∷ others → IsToldOf whole (taken_back graph.old last) told) }
    ensures stays { graph.new ≡ graph.old }
    ensures denotes { Denotes tree.new graph.new }
    ensures near { vec_capacity near.new ≡ vec_capacity near.old }
{
    let mut redo = HistoryOf::new(alloc)?;
    redo.reserve(alloc, 1)?;
    redo.open_item();
    redo.reserve(alloc, history.last_len())?;
    back_through(graph, tree, near, history, &mut redo, steps);
    let before = told_of(alloc, tree, whole);
    take_back_item(graph, tree, near, &mut redo, steps);
    before
}

// Takes the last item of a history back, which stays; `redo` then has one item, which gives the
// graph again once it is taken back. Conditions: the cotree is that of the graph, there is room for
// a list of neighbours, an item stands, its edits can be taken back, the last one first, over
// cographs, `redo` has one item, without edits, and there is room in it for as many.
fn back_through<const W: usize, L: Ledger>(
    graph: &mut GraphOf<W>,
    tree: &mut Cotree,
    near: &mut Vec<u32>,
    history: &HistoryOf<W>,
    redo: &mut HistoryOf<W>,
    steps: &mut Steps<L>,
)
    requires denotes { Denotes tree.old graph.old }
    requires near { 64 * W ≤ vec_capacity near.old }
    requires item { (last : List script.Edit) × (others : List (List script.Edit)) ×
        (history.now.items ≡ last ∷ others) × MayBack (64 * W) IsCograph graph.old last
        × (length last ≤ redo.old.spare) }
    requires redo { redo.old.items ≡ [] ∷ [] }
    ensures graph { (last : List script.Edit) (others : List (List script.Edit)) →
        history.now.items ≡ last ∷ others → graph.new ≡ taken_back graph.old last }
    ensures again { (edits : List script.Edit) × (redo.new.items ≡ edits ∷ []) ×
        MayBack (64 * W) IsCograph graph.new edits × (taken_back graph.new edits ≡ graph.old) }
    ensures denotes { Denotes tree.new graph.new }
    ensures near { vec_capacity near.new ≡ vec_capacity near.old }
{
    let _vertices = graph.vertices();
    let mut left = history.last_len();
    while left > 0 {
        left -= 1;
        let past = history.last_edit(left);
        redo.push(again(graph, &past));
        change_back(tree, &past, near, steps);
        take_back(graph, &past);
    }
}
