//! Sessions on a class of graphs over items: an edit, or a group of edits.
ghost use Rattle.std.specs.Prelude.{◌≡◌, ℕ, ◌+◌, ◌*◌, ◌<◌, ◌≤◌, true, List, [], ◌∷◌, length, vec_capacity, IfOk, IsErr};
ghost use Rattle.std.specs.List.{All};
ghost use Rattle.md_graph.specs.PlainGraph.{PlainGraph};
ghost use Rattle.md_cotree.specs.Cotrees.{Denotes};
ghost use Rattle.md_script.specs.declared.edit.Edit as script;
ghost use Rattle.md_script.specs.declared.item.Item.TheVariants.{One, Group};
ghost use Rattle.md_script.specs.Edit.{HasNamesBelow};
ghost use Rattle.md_script.specs.Pasts.{HasApplied};
ghost use Rattle.md_script.specs.Histories.{HistoryFits};
ghost use Rattle.md_report.specs.Lines.{path_bar};
ghost use Rattle.md_report.specs.Classes.{IsAllowedIn};
ghost use Rattle.md_class.specs.ClassAnswers.{IsFitOf, IsClassAnswered, IsGroupEnd};
ghost use Rattle.md_class.specs.ItemAnswers.{IsItemAnswer};

use crate::answers::{ItemAnswer, Told, told_of};
use md_bar::{Bar, BarKind, Class, ClassLine, bar_of};
use md_bar_tree::has_few_inner;
use md_cograph::{change, change_back, p4_behind, take_back_item};
use md_cotree::Cotree;
use md_graph::{GraphOf, Memory, Steps};
use md_modules::P4;
use md_report::Line;
use md_script::{Edit, EditReason, Edits, HistoryOf, apply, inverse, reason};
use std::alloc::Global;
use std::sync::ledger::Ledger;

// What comes of an edit.
#[derive(Drop)]
pub(crate) enum Answer {
    // The graph is the one after the edit, of which this is told.
    Applied(Told),
    // There is a reason against the edit, and the graph stays.
    Refused(EditReason),
    // The graph after the edit has this bar, and the graph stays.
    Barred(Bar),
}

// What is told of a graph of a class, or a bar by which a graph is none.
#[derive(Drop)]
pub(crate) enum Fit {
    Told(Told),
    Bar(Bar),
}

// The bar that an induced P4 is.
pub(crate) fn path_bar(p: P4) -> Bar
    ensures { result ≡ path_bar p }
{
    Bar {
        kind: BarKind::P4,
        a: p.a,
        b: p.b,
        c: p.c,
        d: p.d,
    }
}

// Answers an edit alone, and tells the tree behind it whole or by its outline. Conditions: the
// graph is of the class and the cotree its own, there is room for an item and an edit, and for a
// list of neighbours, the history fits, and the names in the edit are below `64 * W`. Errors: want
// of memory; graph and history then stay.
pub(crate) fn answer_one<const W: usize, L: Ledger>(
    alloc: Global,
    graph: &mut GraphOf<W>,
    tree: &mut Cotree,
    class: Class,
    whole: bool,
    near: &mut Vec<u32>,
    edit: &Edit,
    history: &mut HistoryOf<W>,
    steps: &mut Steps<L>,
) -> Result<ItemAnswer, Memory>
    requires names { HasNamesBelow (64 * W) edit.now }
    requires allowed { IsAllowedIn class graph.old }
    requires denotes { Denotes tree.old graph.old }
    requires near { 64 * W ≤ vec_capacity near.old }
    requires room { 2 ≤ history.old.spare }
    requires fits { HistoryFits (64 * W) (IsAllowedIn class) graph.old history.old.items }
    ensures step { IfOk result (λ answer. IsItemAnswer (64 * W) class whole graph.old
        history.old.items (One edit.now) answer graph.new history.new.items) }
    ensures allowed { IsAllowedIn class graph.new }
    ensures denotes { Denotes tree.new graph.new }
    ensures near { vec_capacity near.new ≡ vec_capacity near.old }
    ensures stays { IsErr result → graph.new ≡ graph.old }
    ensures kept { IsErr result → history.new.items ≡ history.old.items }
{
    let _vertices = graph.vertices();
    history.open_item();
    match step(alloc, graph, tree, class, whole, near, edit, history, steps) {
        Ok(Answer::Applied(told)) => Ok(ItemAnswer::Applied(told)),
        Ok(Answer::Refused(reason)) => {
            history.drop_item();
            Ok(ItemAnswer::Refused(ClassLine::Plain(Line::Refused(reason))))
        }
        Ok(Answer::Barred(bar)) => {
            history.drop_item();
            Ok(ItemAnswer::Refused(ClassLine::Refused(bar)))
        }
        Err(wanted) => {
            history.drop_item();
            Err(wanted)
        }
    }
}

// Answers a group, and tells the tree behind it whole or by its outline. Conditions: the graph is
// of the class and the cotree its own, there is room for an item and the edits, and for a list of
// neighbours, the history fits, and the names in the edits are below `64 * W`. Errors: want of
// memory; graph and history then stay.
pub(crate) fn answer_group<const W: usize, L: Ledger>(
    alloc: Global,
    graph: &mut GraphOf<W>,
    tree: &mut Cotree,
    class: Class,
    whole: bool,
    near: &mut Vec<u32>,
    edits: &Edits,
    history: &mut HistoryOf<W>,
    steps: &mut Steps<L>,
) -> Result<ItemAnswer, Memory>
    requires names { All (HasNamesBelow (64 * W)) edits.now }
    requires allowed { IsAllowedIn class graph.old }
    requires denotes { Denotes tree.old graph.old }
    requires near { 64 * W ≤ vec_capacity near.old }
    requires room { length edits.now + 1 ≤ history.old.spare }
    requires fits { HistoryFits (64 * W) (IsAllowedIn class) graph.old history.old.items }
    ensures step { IfOk result (λ answer. IsItemAnswer (64 * W) class whole graph.old
        history.old.items (Group edits.now) answer graph.new history.new.items) }
    ensures allowed { IsAllowedIn class graph.new }
    ensures denotes { Denotes tree.new graph.new }
    ensures near { vec_capacity near.new ≡ vec_capacity near.old }
    ensures stays { IsErr result → graph.new ≡ graph.old }
    ensures kept { IsErr result → history.new.items ≡ history.old.items }
{
    let _vertices = graph.vertices();
    history.open_item();
    match apply_edits(alloc, graph, tree, class, near, edits, history, steps) {
        Ok(None) => {
            if let Ok(told) = told_of(alloc, tree, whole) {
                return Ok(ItemAnswer::Applied(told));
            }
            take_back_item(graph, tree, near, history, steps);
            Err(Memory)
        }
        Ok(Some(line)) => {
            take_back_item(graph, tree, near, history, steps);
            Ok(ItemAnswer::Refused(line))
        }
        Err(wanted) => {
            take_back_item(graph, tree, near, history, steps);
            Err(wanted)
        }
    }
}

// Applies the edits of a group one after the other, up to the first that is refused: of that the
// line. What takes the others back is pushed to the history. Conditions: the graph is of the class
// and the cotree its own, the last item of the history has no edits, there is room for the edits,
// and for a list of neighbours, and their names are below `64 * W`. Errors: want of memory.
fn apply_edits<const W: usize, L: Ledger>(
    alloc: Global,
    graph: &mut GraphOf<W>,
    tree: &mut Cotree,
    class: Class,
    near: &mut Vec<u32>,
    edits: &Edits,
    history: &mut HistoryOf<W>,
    steps: &mut Steps<L>,
) -> Result<Option<ClassLine>, Memory>
    requires names { All (HasNamesBelow (64 * W)) edits.now }
    requires allowed { IsAllowedIn class graph.old }
    requires denotes { Denotes tree.old graph.old }
    requires near { 64 * W ≤ vec_capacity near.old }
    requires item { (others : List (List script.Edit)) × (history.old.items ≡ [] ∷ others) }
    requires room { length edits.now ≤ history.old.spare }
    ensures applied { (others : List (List script.Edit)) → history.old.items ≡ [] ∷ others →
        (n : ℕ) × (back : List script.Edit) ×
        HasApplied (IsAllowedIn class) graph.old edits.now graph.new back n ×
        (history.new.items ≡ back ∷ others) × IsGroupEnd class edits.now graph.new n result }
    ensures allowed { IsAllowedIn class graph.new }
    ensures denotes { Denotes tree.new graph.new }
    ensures near { vec_capacity near.new ≡ vec_capacity near.old }
{
    for i in 0..edits.len() {
        match step(
            alloc,
            graph,
            tree,
            class,
            false,
            near,
            edits.get(i),
            history,
            steps,
        )? {
            Answer::Applied(_) => {}
            Answer::Refused(reason) => {
                return Ok(Some(ClassLine::Plain(Line::GroupRefused(i + 1, reason))));
            }
            Answer::Barred(bar) => return Ok(Some(ClassLine::GroupRefused(i + 1, bar))),
        }
    }
    Ok(None)
}

// Answers an edit, and pushes what takes it back to the last item of a history; the tree behind it
// is told whole or by its outline. Conditions: the graph is of the class and the cotree its own, an
// item stands, there is room for an edit, and for a list of neighbours, and the names in the edit
// are below `64 * W`. Errors: want of memory; graph and history then stay.
fn step<const W: usize, L: Ledger>(
    alloc: Global,
    graph: &mut GraphOf<W>,
    tree: &mut Cotree,
    class: Class,
    whole: bool,
    near: &mut Vec<u32>,
    edit: &Edit,
    history: &mut HistoryOf<W>,
    steps: &mut Steps<L>,
) -> Result<Answer, Memory>
    requires names { HasNamesBelow (64 * W) edit.now }
    requires allowed { IsAllowedIn class graph.old }
    requires denotes { Denotes tree.old graph.old }
    requires near { 64 * W ≤ vec_capacity near.old }
    requires item { 0 < length history.old.items }
    requires room { 1 ≤ history.old.spare }
    ensures answer { IsClassAnswered class whole graph.old edit.now history.old.items result
        graph.new history.new.items }
    ensures denotes { Denotes tree.new graph.new }
    ensures near { vec_capacity near.new ≡ vec_capacity near.old }
    ensures spare { history.old.spare ≤ history.new.spare + 1 }
{
    let _vertices = graph.vertices();
    if let Some(reason) = reason(graph, edit) {
        return Ok(Answer::Refused(reason));
    }
    if !change(tree, edit, steps) {
        return Ok(Answer::Barred(path_bar(p4_behind(graph, edit))));
    }
    let past = inverse(graph, edit);
    match fit_of(alloc, tree, class, whole) {
        Ok(Fit::Told(told)) => {
            history.push(past);
            apply(graph, edit);
            Ok(Answer::Applied(told))
        }
        Ok(Fit::Bar(bar)) => {
            change_back(tree, &past, near, steps);
            Ok(Answer::Barred(bar))
        }
        Err(wanted) => {
            change_back(tree, &past, near, steps);
            Err(wanted)
        }
    }
}

// What is told of the graph of a cotree, or a bar of the class in it. The tree is built where it is
// asked for whole, or a node has too many inner children. Condition: there is such a graph. Errors:
// want of memory.
pub(crate) fn fit_of(alloc: Global, tree: &Cotree, class: Class, whole: bool) -> Result<Fit, Memory>
    requires { (g : PlainGraph) × Denotes tree.now g }
    ensures { IfOk result (λ fit. (g : PlainGraph) → Denotes tree.now g
        → IsFitOf class whole g fit) }
{
    if whole {
        return tree_or_bar(alloc, tree, class);
    }
    let parts = tree.outline(alloc)?;
    if has_few_inner(alloc, &parts, class)? {
        return Ok(Fit::Told(Told::Outline(parts)));
    }
    match tree_or_bar(alloc, tree, class)? {
        Fit::Told(_) => Ok(Fit::Told(Told::Outline(parts))),
        Fit::Bar(bar) => Ok(Fit::Bar(bar)),
    }
}

// The tree of the graph of a cotree, or a bar of the class in it. Condition: there is such a graph.
// Errors: want of memory.
fn tree_or_bar(alloc: Global, tree: &Cotree, class: Class) -> Result<Fit, Memory>
    requires { (g : PlainGraph) × Denotes tree.now g }
    ensures { IfOk result (λ fit. (g : PlainGraph) → Denotes tree.now g
        → IsFitOf class true g fit) }
{
    let new = tree.to_tree(alloc)?;
    match bar_of(&new, class) {
        Some(bar) => Ok(Fit::Bar(bar)),
        None => Ok(Fit::Told(Told::Tree(new))),
    }
}
