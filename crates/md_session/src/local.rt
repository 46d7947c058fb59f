//! Sessions on any graph that keep their tree: an edit of an edge decomposes anew only the least
//! strong module that holds both ends.
ghost use Rattle.std.specs.Prelude.{◌≡◌, ◌*◌, ◌≤◌, None, false, IfOk, IsErr};
ghost use Rattle.md_graph.specs.PlainGraph.{adjacent};
ghost use Rattle.md_tree.specs.StrongTrees.{IsTree};
ghost use Rattle.md_tree.specs.Plain.{plain_option};
ghost use Rattle.md_script.specs.Histories.{HistoryFits};
ghost use Rattle.md_script.specs.Items.{HasItemNamesBelow, room_for};
ghost use Rattle.md_report.specs.declared.line.SessionMode.TheVariants as modes;
ghost use Rattle.md_report.specs.ItemLines.{IsAllowed};
ghost use Rattle.md_report.specs.Lines.{plain_line};
ghost use Rattle.md_report.specs.Sessions.{is_applied};
ghost use Rattle.md_report.specs.Steps.{ItemStep};
ghost use Rattle.md_session.specs.LocalSteps.{IsLocalStep, TakesFew, line_of_answer};

use crate::local_items::{LocalAnswer, answer, copy_option, line};
use md_decompose::decompose;
use md_graph::{GraphOf, Memory, Steps, WORDS};
use md_report::Line;
use md_script::{HistoryOf, Item};
use md_tree::Tree;
use std::alloc::Global;
use std::marker::Model;
use std::sync::ledger::Ledger;

/// A session on any graph on names below `64 * W`. It keeps the graph and its tree.
#[derive(Drop)]
pub struct LocalSessionOf<const W: usize> {
    graph: GraphOf<W>,
    tree: Option<Tree>,
}

/// A session on any graph that keeps its tree.
pub type LocalSession = LocalSessionOf<WORDS>;

impl<const W: usize> Model for LocalSessionOf<W> {
    ghost use Rattle.md_graph.specs.PlainGraph.{PlainGraph, graph_code};

    ghost Value = { PlainGraph };

    ghost coded = { graph_code };

    ghost view = { λ s. s.graph };

    ghost use Rattle.md_graph.specs.PlainGraph.{adjacent};
    ghost use Rattle.md_tree.specs.StrongTrees.{IsTree};
    ghost use Rattle.md_tree.specs.Plain.{plain_option};

    ghost invariant = { λ s. IsTree (adjacent s.graph) s.graph.vertices (plain_option s.tree) };
}

impl<const W: usize> LocalSessionOf<W> {
    /// The session whose graph is the one handed in, which it decomposes. Errors: want of memory.
    pub fn new(alloc: Global, graph: GraphOf<W>) -> Result<LocalSessionOf<W>, Memory>
        ensures { IfOk result (λ s. s ≡ graph.entry) }
    {
        let tree = decompose(alloc, &graph)?;
        Ok(LocalSessionOf { graph, tree })
    }

    /// The tree of strong modules of the graph, none where it has no vertices: a copy. Errors: want
    /// of memory.
    pub fn tree(&self, alloc: Global) -> Result<Option<Tree>, Memory>
        ensures { IfOk result (λ tree.
            IsTree (adjacent self.now) self.now.vertices (plain_option tree)) }
    {
        copy_option(alloc, &self.tree)
    }

    /// The tree of strong modules of the graph that the session keeps.
    pub fn kept_tree(&self) -> &Option<Tree>
        ensures { IsTree (adjacent self.now) self.now.vertices (plain_option result.now) }
    {
        &self.tree
    }

    /// Answers an item with its line, as `GeneralSessionOf::apply_item` does; the line of an item
    /// that was applied has a copy of the tree. An edit of an edge takes at most as many steps as
    /// the least strong module that held both ends has names, and what is refused takes none; of
    /// the steps of other items nothing is claimed. The history is that of this session: it gains
    /// the item, or loses the last one, and stays where the item is refused. Conditions: the names
    /// in the item are below `64 * W`, the history has room for it, and fits. Errors: want of
    /// memory; session and history then stay.
    pub fn apply_item<L: Ledger>(
        &mut self,
        alloc: Global,
        item: &Item,
        history: &mut HistoryOf<W>,
        work: &mut Steps<L>,
    ) -> Result<Line, Memory>
        requires names { HasItemNamesBelow (64 * W) item.now }
        requires room { room_for item.now ≤ history.old.spare }
        requires fits { HistoryFits (64 * W) (IsAllowed modes.Edit) self.old history.old.items }
        ensures step { IfOk result (λ line. ItemStep (64 * W) modes.Edit self.old
            history.old.items item.now (plain_line line) self.new history.new.items) }
        ensures stays { IsErr result → self.new ≡ self.old }
        ensures kept { IsErr result → history.new.items ≡ history.old.items }
        ensures work { TakesFew self.old item.now work.old work.new }
        ensures refused { IfOk result (λ line.
            is_applied (plain_line line) ≡ false → work.new ≡ work.old) }
    {
        let (graph, tree) = (&mut self.graph, &mut self.tree);
        let told = answer(alloc, graph, tree, item, history, true, work)?;
        Ok(line(told))
    }

    /// Answers an item as `apply_item` does, without a copy of the tree: `kept_tree` lends it.
    /// Errors: want of memory; session and history then stay.
    #[inline(never)]
    pub fn answer_item<L: Ledger>(
        &mut self,
        alloc: Global,
        item: &Item,
        history: &mut HistoryOf<W>,
        work: &mut Steps<L>,
    ) -> Result<LocalAnswer, Memory>
        requires names { HasItemNamesBelow (64 * W) item.now }
        requires room { room_for item.now ≤ history.old.spare }
        requires fits { HistoryFits (64 * W) (IsAllowed modes.Edit) self.old history.old.items }
        ensures step { IfOk result (λ told. IsLocalStep (64 * W) self.old history.old.items
            item.now told self.new history.new.items) }
        ensures stays { IsErr result → self.new ≡ self.old }
        ensures kept { IsErr result → history.new.items ≡ history.old.items }
        ensures work { TakesFew self.old item.now work.old work.new }
        ensures refused { IfOk result (λ told.
            is_applied (line_of_answer told None) ≡ false → work.new ≡ work.old) }
    {
        let (graph, tree) = (&mut self.graph, &mut self.tree);
        let told = answer(alloc, graph, tree, item, history, false, work)?;
        Ok(told.answer)
    }
}
