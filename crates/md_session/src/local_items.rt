//! Sessions that keep their tree, over items: an edit, a group of edits, or an undo.
ghost use Rattle.std.specs.Prelude.{◌≡◌, ℕ, ◌+◌, ◌*◌, ◌<◌, ◌≤◌, List, ◌∷◌, length, None, false, true, IfOk, IsErr, IfSome};
ghost use Rattle.std.specs.List.{All};
ghost use Rattle.md_graph.specs.declared.TheConstants.{WORDS};
ghost use Rattle.md_graph.specs.PlainGraph.{adjacent};
ghost use Rattle.md_tree.specs.StrongTrees.{IsTree};
ghost use Rattle.md_tree.specs.Plain.{plain_option};
ghost use Rattle.md_script.specs.declared.edit.Edit as script;
ghost use Rattle.md_script.specs.declared.item.Item.TheVariants.{One, Undo, Group};
ghost use Rattle.md_script.specs.Edit.{HasNamesBelow};
ghost use Rattle.md_script.specs.Items.{HasItemNamesBelow, room_for};
ghost use Rattle.md_script.specs.Pasts.{taken_back, MayBack, AnyGraph};
ghost use Rattle.md_script.specs.Histories.{HistoryFits};
ghost use Rattle.md_report.specs.Lines.{plain_line};
ghost use Rattle.md_report.specs.Sessions.{is_applied};
ghost use Rattle.md_session.specs.LocalSteps.{line_of_answer, edge_ends, IsLocalStep, TakesFew, IsLastEdge, IsNewTree, MayRebuild, HasFewSteps};

use md_graph::{GraphOf, Memory, Steps};
use md_local::{copy_tree, decompose_part, rebuild};
use md_report::Line;
use md_script::{
    Edit, EditReason, Edits, HistoryOf, Item, PastOf, apply, apply_all, back_through, inverse,
    reason, take_back, take_item_back,
};
use md_tree::Tree;
use std::alloc::Global;
use std::sync::ledger::Ledger;

/// What comes of an item.
#[derive(Clone, Copy, Debug, PartialEq, Eq)]
pub enum LocalAnswer {
    /// The item was applied.
    Applied,
    /// There is a reason against the edit, and the graph stays.
    Refused(EditReason),
    /// There is a reason against the edit of the group with this number, counted from 1, and the
    /// graph stays.
    GroupRefused(u64, EditReason),
    /// There is no item to undo, and the graph stays.
    NothingToUndo,
}

// What comes of an item, and a copy of the tree where the item was applied and one is wanted.
#[derive(Drop)]
pub(crate) struct Told {
    pub(crate) answer: LocalAnswer,
    copy: Option<Tree>,
}

// A tree, and a copy of it where one is wanted.
#[derive(Drop)]
struct NewTree {
    tree: Option<Tree>,
    copy: Option<Tree>,
}

// The line of an answer.
pub(crate) fn line(told: Told) -> Line
    ensures { plain_line result ≡ line_of_answer told.answer (plain_option told.copy) }
{
    match told.answer {
        LocalAnswer::Applied => Line::Applied(told.copy),
        LocalAnswer::Refused(reason) => Line::Refused(reason),
        LocalAnswer::GroupRefused(number, reason) => Line::GroupRefused(number, reason),
        LocalAnswer::NothingToUndo => Line::NothingToUndo,
    }
}

// An equal tree, none of none. Errors: want of memory.
pub(crate) fn copy_option(alloc: Global, tree: &Option<Tree>) -> Result<Option<Tree>, Memory>
    ensures { IfOk result (λ copy. plain_option copy ≡ plain_option tree.now) }
{
    match tree {
        Some(tree) => Ok(Some(copy_tree(alloc, tree)?)),
        None => Ok(None),
    }
}

// Answers an item. Conditions: the tree is that of the graph, the names in the item are below
// `64 * W`, the history has room for it, and fits. Errors: want of memory; graph, tree and history
// then stay.
pub(crate) fn answer<const W: usize, L: Ledger>(
    alloc: Global,
    graph: &mut GraphOf<W>,
    tree: &mut Option<Tree>,
    item: &Item,
    history: &mut HistoryOf<W>,
    copies: bool,
    work: &mut Steps<L>,
) -> Result<Told, Memory>
    requires tree { IsTree (adjacent graph.old) graph.old.vertices (plain_option tree.old) }
    requires names { HasItemNamesBelow (64 * W) item.now }
    requires room { room_for item.now ≤ history.old.spare }
    requires fits { HistoryFits (64 * W) AnyGraph graph.old history.old.items }
    ensures step { IfOk result (λ told. IsLocalStep (64 * W) graph.old history.old.items item.now
        told.answer graph.new history.new.items) }
    ensures tree { IsTree (adjacent graph.new) graph.new.vertices (plain_option tree.new) }
    ensures copy { IfOk result (λ told. copies ≡ true →
        line_of_answer told.answer (plain_option told.copy)
        ≡ line_of_answer told.answer (plain_option tree.new)) }
    ensures stays { IsErr result → graph.new ≡ graph.old }
    ensures kept { IsErr result → history.new.items ≡ history.old.items }
    ensures work { TakesFew graph.old item.now work.old work.new }
    ensures refused { IfOk result (λ told.
        is_applied (line_of_answer told.answer None) ≡ false → work.new ≡ work.old) }
{
    match item {
        Item::One(edit) => answer_one(alloc, graph, tree, edit, history, copies, work),
        Item::Group(edits) => answer_group(alloc, graph, tree, edits, history, copies, work),
        Item::Undo => answer_undo(alloc, graph, tree, history, copies, work),
    }
}

// Answers an edit alone. Conditions: the tree is that of the graph, the names in the edit are below
// `64 * W`, there is room for an item and an edit, and the history fits. Errors: want of memory;
// graph, tree and history then stay.
fn answer_one<const W: usize, L: Ledger>(
    alloc: Global,
    graph: &mut GraphOf<W>,
    tree: &mut Option<Tree>,
    edit: &Edit,
    history: &mut HistoryOf<W>,
    copies: bool,
    work: &mut Steps<L>,
) -> Result<Told, Memory>
    requires tree { IsTree (adjacent graph.old) graph.old.vertices (plain_option tree.old) }
    requires names { HasNamesBelow (64 * W) edit.now }
    requires room { 2 ≤ history.old.spare }
    requires fits { HistoryFits (64 * W) AnyGraph graph.old history.old.items }
    ensures step { IfOk result (λ told. IsLocalStep (64 * W) graph.old history.old.items
        (One edit.now) told.answer graph.new history.new.items) }
    ensures tree { IsTree (adjacent graph.new) graph.new.vertices (plain_option tree.new) }
    ensures copy { IfOk result (λ told. copies ≡ true →
        line_of_answer told.answer (plain_option told.copy)
        ≡ line_of_answer told.answer (plain_option tree.new)) }
    ensures stays { IsErr result → graph.new ≡ graph.old }
    ensures kept { IsErr result → history.new.items ≡ history.old.items }
    ensures work { TakesFew graph.old (One edit.now) work.old work.new }
    ensures refused { IfOk result (λ told.
        is_applied (line_of_answer told.answer None) ≡ false → work.new ≡ work.old) }
{
    let _vertices = graph.vertices();
    if let Some(reason) = reason(graph, edit) {
        return Ok(Told {
            answer: LocalAnswer::Refused(reason),
            copy: None,
        });
    }
    let past = inverse(graph, edit);
    apply(graph, edit);
    if let Ok(new) = new_tree(alloc, graph, tree, edge_of(edit), copies, work) {
        history.open_item();
        history.push(past);
        *tree = new.tree;
        return Ok(Told {
            answer: LocalAnswer::Applied,
            copy: new.copy,
        });
    }
    take_back(graph, &past);
    Err(Memory)
}

// Answers a group. Conditions: the tree is that of the graph, the names in the edits are below
// `64 * W`, there is room for them and an item, and the history fits. Errors: want of memory;
// graph, tree and history then stay.
fn answer_group<const W: usize, L: Ledger>(
    alloc: Global,
    graph: &mut GraphOf<W>,
    tree: &mut Option<Tree>,
    edits: &Edits,
    history: &mut HistoryOf<W>,
    copies: bool,
    work: &mut Steps<L>,
) -> Result<Told, Memory>
    requires tree { IsTree (adjacent graph.old) graph.old.vertices (plain_option tree.old) }
    requires names { All (HasNamesBelow (64 * W)) edits.now }
    requires room { length edits.now + 1 ≤ history.old.spare }
    requires fits { HistoryFits (64 * W) AnyGraph graph.old history.old.items }
    ensures step { IfOk result (λ told. IsLocalStep (64 * W) graph.old history.old.items
        (Group edits.now) told.answer graph.new history.new.items) }
    ensures tree { IsTree (adjacent graph.new) graph.new.vertices (plain_option tree.new) }
    ensures copy { IfOk result (λ told. copies ≡ true →
        line_of_answer told.answer (plain_option told.copy)
        ≡ line_of_answer told.answer (plain_option tree.new)) }
    ensures stays { IsErr result → graph.new ≡ graph.old }
    ensures kept { IsErr result → history.new.items ≡ history.old.items }
    ensures refused { IfOk result (λ told.
        is_applied (line_of_answer told.answer None) ≡ false → work.new ≡ work.old) }
{
    let _vertices = graph.vertices();
    history.open_item();
    if let Some((number, reason)) = apply_all(graph, edits, history) {
        take_item_back(graph, history);
        return Ok(Told {
            answer: LocalAnswer::GroupRefused(number, reason),
            copy: None,
        });
    }
    if let Ok(new) = new_tree(alloc, graph, tree, None, copies, work) {
        *tree = new.tree;
        return Ok(Told {
            answer: LocalAnswer::Applied,
            copy: new.copy,
        });
    }
    take_item_back(graph, history);
    Err(Memory)
}

// Answers an undo. Conditions: the tree is that of the graph, and the history fits. Errors: want of
// memory; graph, tree and history then stay.
fn answer_undo<const W: usize, L: Ledger>(
    alloc: Global,
    graph: &mut GraphOf<W>,
    tree: &mut Option<Tree>,
    history: &mut HistoryOf<W>,
    copies: bool,
    work: &mut Steps<L>,
) -> Result<Told, Memory>
    requires tree { IsTree (adjacent graph.old) graph.old.vertices (plain_option tree.old) }
    requires fits { HistoryFits (64 * W) AnyGraph graph.old history.old.items }
    ensures step { IfOk result (λ told. IsLocalStep (64 * W) graph.old history.old.items Undo
        told.answer graph.new history.new.items) }
    ensures tree { IsTree (adjacent graph.new) graph.new.vertices (plain_option tree.new) }
    ensures copy { IfOk result (λ told. copies ≡ true →
        line_of_answer told.answer (plain_option told.copy)
        ≡ line_of_answer told.answer (plain_option tree.new)) }
    ensures stays { IsErr result → graph.new ≡ graph.old }
    ensures kept { IsErr result → history.new.items ≡ history.old.items }
    ensures refused { IfOk result (λ told.
        is_applied (line_of_answer told.answer None) ≡ false → work.new ≡ work.old) }
{
    if history.items() == 0 {
        return Ok(Told {
            answer: LocalAnswer::NothingToUndo,
            copy: None,
        });
    }
    let new = tree_before(alloc, graph, tree, history, copies, work)?;
    take_item_back(graph, history);
    *tree = new.tree;
    Ok(Told {
        answer: LocalAnswer::Applied,
        copy: new.copy,
    })
}

// The tree of the graph before the last item; the graph stays. All memory that an undo takes is
// taken here, before anything leaves the history. Conditions: the tree is that of the graph, an
// item stands, and its edits can be taken back, the last one first. Errors: want of memory.
fn tree_before<const W: usize, L: Ledger>(
    alloc: Global,
    graph: &mut GraphOf<W>,
    tree: &Option<Tree>,
    history: &HistoryOf<W>,
    copies: bool,
    work: &mut Steps<L>,
) -> Result<NewTree, Memory>
    requires tree { IsTree (adjacent graph.old) graph.old.vertices (plain_option tree.now) }
    requires item { (last : List script.Edit) × (others : List (List script.Edit)) ×
        (history.now.items ≡ last ∷ others) × MayBack (64 * W) AnyGraph graph.old last }
    ensures tree { IfOk result (λ new.
        (last : List script.Edit) (others : List (List script.Edit)) →
        history.now.items ≡ last ∷ others →
        IsNewTree copies (taken_back graph.old last) new) }
    ensures stays { graph.new ≡ graph.old }
{
    let _vertices = graph.vertices();
    let mut redo = HistoryOf::new(alloc)?;
    redo.reserve(alloc, 1)?;
    redo.open_item();
    redo.reserve(alloc, history.last_len())?;
    back_through(graph, history, &mut redo);
    let new = new_tree(alloc, graph, tree, last_edge(history), copies, work);
    take_item_back(graph, &mut redo);
    new
}

// The tree of a graph, from that of the graph before, which differs by the edge between two ends if
// they are told; else the whole graph is decomposed. Condition: if ends are told, they are two
// vertices, and the tree is that of the graph before. Errors: want of memory.
fn new_tree<const W: usize, L: Ledger>(
    alloc: Global,
    graph: &GraphOf<W>,
    tree: &Option<Tree>,
    ends: Option<(u32, u32)>,
    copies: bool,
    work: &mut Steps<L>,
) -> Result<NewTree, Memory>
    requires { IfSome ends (λ pair. MayRebuild graph.now (plain_option tree.now) pair.0 pair.1) }
    ensures tree { IfOk result (λ new. IsNewTree copies graph.now new) }
    ensures work { IfSome ends (λ pair. HasFewSteps graph.now (plain_option tree.now) pair.0 pair.1
        work.old work.new) }
{
    let new = match ends {
        Some((u, v)) => rebuild_tree(alloc, graph, tree, u, v, work)?,
        None => decompose_part(alloc, graph, graph.vertices(), work)?,
    };
    if !copies {
        return Ok(NewTree {
            tree: new,
            copy: None,
        });
    }
    let copy = copy_option(alloc, &new)?;
    Ok(NewTree { tree: new, copy })
}

// The tree of a graph in which the edge between u and v has come or gone, from the tree of the
// graph before. Conditions: u and v are two vertices, and the tree is that of the graph before.
// Errors: want of memory.
fn rebuild_tree<const W: usize, L: Ledger>(
    alloc: Global,
    graph: &GraphOf<W>,
    tree: &Option<Tree>,
    u: u32,
    v: u32,
    work: &mut Steps<L>,
) -> Result<Option<Tree>, Memory>
    requires { MayRebuild graph.now (plain_option tree.now) u v }
    ensures tree { IfOk result (λ new.
        IsTree (adjacent graph.now) graph.now.vertices (plain_option new)) }
    ensures work { HasFewSteps graph.now (plain_option tree.now) u v work.old work.new }
{
    match tree {
        Some(tree) => Ok(Some(rebuild(alloc, graph, tree, u, v, work)?)),
        None => unreachable!(),
    }
}

// The ends of the edge that an edit gives or takes, if it does.
fn edge_of(edit: &Edit) -> Option<(u32, u32)>
    ensures { result ≡ edge_ends edit.now }
{
    match edit {
        Edit::AddEdge { u, v } => Some((*u, *v)),
        Edit::DelEdge { u, v } => Some((*u, *v)),
        _ => None,
    }
}

// The ends of the edge that the last item of a history gives or takes, where that is its only edit.
// Conditions: an item stands, and the rows aren't too wide.
fn last_edge<const W: usize>(history: &HistoryOf<W>) -> Option<(u32, u32)>
    requires limit { W ≤ WORDS }
    requires item { 0 < length history.now.items }
    ensures { IfSome result (λ pair. IsLastEdge history.now.items pair.0 pair.1) }
{
    if history.last_len() != 1 {
        return None;
    }
    match history.last_edit(0) {
        PastOf::AddEdge { u, v } => Some((u, v)),
        PastOf::DelEdge { u, v } => Some((u, v)),
        _ => None,
    }
}
