//! Sessions on any graph: the tree is computed anew after each edit.
ghost use Rattle.std.specs.Prelude.{◌≡◌, ◌*◌, ◌≤◌, IfOk, IsErr};
ghost use Rattle.md_graph.specs.PlainGraph.{adjacent};
ghost use Rattle.md_tree.specs.StrongTrees.{IsTree};
ghost use Rattle.md_tree.specs.Plain.{plain_option};
ghost use Rattle.md_script.specs.Edit.{HasNamesBelow};
ghost use Rattle.md_script.specs.Histories.{HistoryFits};
ghost use Rattle.md_script.specs.Items.{HasItemNamesBelow, room_for};
ghost use Rattle.md_report.specs.declared.line.SessionMode.TheVariants as modes;
ghost use Rattle.md_report.specs.ItemLines.{IsAllowed};
ghost use Rattle.md_report.specs.Lines.{plain_line};
ghost use Rattle.md_report.specs.Sessions.{SessionStep};
ghost use Rattle.md_report.specs.Steps.{ItemStep};

use crate::general_items::{apply_group, apply_one, undo};
use md_decompose::decompose;
use md_graph::{GraphOf, Memory, WORDS};
use md_report::Line;
use md_script::{Edit, HistoryOf, Item, inverse, reason, take_back};
use md_tree::Tree;
use std::alloc::Global;
use std::marker::Model;

/// A session on any graph on names below `64 * W`. It keeps the graph alone.
#[derive(Drop)]
pub struct GeneralSessionOf<const W: usize> {
    graph: GraphOf<W>,
}

/// A session on any graph.
pub type GeneralSession = GeneralSessionOf<WORDS>;

impl<const W: usize> Model for GeneralSessionOf<W> {
    ghost use Rattle.md_graph.specs.PlainGraph.{PlainGraph, graph_code};

    ghost Value = { PlainGraph };

    ghost coded = { graph_code };

    ghost view = { λ s. s.graph };
}

impl<const W: usize> GeneralSessionOf<W> {
    /// The session whose graph is the one handed in.
    pub fn new(graph: GraphOf<W>) -> GeneralSessionOf<W>
        ensures { result ≡ graph.entry }
    {
        GeneralSessionOf { graph }
    }

    /// The tree of strong modules of the graph, none where it has no vertices. Errors: want of
    /// memory.
    pub fn tree(&self, alloc: Global) -> Result<Option<Tree>, Memory>
        ensures { IfOk result (λ tree.
            IsTree (adjacent self.now) self.now.vertices (plain_option tree)) }
    {
        decompose(alloc, &self.graph)
    }

    /// Answers an edit: refuses it where there is a reason against it, and the graph stays; else
    /// changes the graph, and gives its tree. Condition: the names in the edit are below
    /// `64 * W`. Errors: want of memory; the graph then stays.
    pub fn apply(&mut self, alloc: Global, edit: &Edit) -> Result<Line, Memory>
        requires { HasNamesBelow (64 * W) edit.now }
        ensures step { IfOk result (λ line.
            SessionStep self.old edit.now (plain_line line) self.new) }
        ensures stays { IsErr result → self.new ≡ self.old }
    {
        if let Some(reason) = reason(&self.graph, edit) {
            return Ok(Line::Refused(reason));
        }
        let past = inverse(&self.graph, edit);
        md_script::apply(&mut self.graph, edit);
        if let Ok(tree) = decompose(alloc, &self.graph) {
            return Ok(Line::Applied(tree));
        }
        take_back(&mut self.graph, &past);
        Err(Memory)
    }

    /// Answers an item: an edit as `apply` does; the edits of a group one after the other, or none
    /// where there is a reason against one; an undo by taking the last item of the history back.
    /// The history is that of this session: it gains the item, or loses the last one, and stays
    /// where the item is refused. Conditions: the names in the item are below `64 * W`, the history
    /// has room for it, and fits. Errors: want of memory; session and history then stay.
    pub fn apply_item(
        &mut self,
        alloc: Global,
        item: &Item,
        history: &mut HistoryOf<W>,
    ) -> Result<Line, Memory>
        requires names { HasItemNamesBelow (64 * W) item.now }
        requires room { room_for item.now ≤ history.old.spare }
        requires fits { HistoryFits (64 * W) (IsAllowed modes.Edit) self.old history.old.items }
        ensures step { IfOk result (λ line. ItemStep (64 * W) modes.Edit self.old
            history.old.items item.now (plain_line line) self.new history.new.items) }
        ensures stays { IsErr result → self.new ≡ self.old }
        ensures kept { IsErr result → history.new.items ≡ history.old.items }
    {
        match item {
            Item::One(edit) => apply_one(alloc, &mut self.graph, edit, history),
            Item::Group(edits) => apply_group(alloc, &mut self.graph, edits, history),
            Item::Undo => undo(alloc, &mut self.graph, history),
        }
    }
}
