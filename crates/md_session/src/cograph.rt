//! Sessions on cographs: an edit that would make an induced P4 is refused with it.
ghost use Rattle.std.specs.Prelude.{◌≡◌, ◌+◌, ◌*◌, ◌≤◌, Bool, true, false, Option, None, IfOk};
ghost use Rattle.std.specs.FinSet as set;
ghost use Rattle.md_graph.specs.PlainGraph.{PlainGraph, adjacent};
ghost use Rattle.md_modules.specs.InducedPaths.{HasInducedPath};
ghost use Rattle.md_outline.specs.Outlines.{outline_option};
ghost use Rattle.md_tree.specs.StrongTrees.{IsTree};
ghost use Rattle.md_tree.specs.Trees.{PlainTree, nodes_in};
ghost use Rattle.md_tree.specs.Plain.{plain_option};
ghost use Rattle.md_cotree.specs.Cotrees.{Denotes};
ghost use Rattle.md_script.specs.Edit.{HasNames, HasNamesBelow, reason_of, after};
ghost use Rattle.md_report.specs.Cographs.{IsP4Of, IsCograph};
ghost use Rattle.md_script.specs.Histories.{HistoryFits};
ghost use Rattle.md_script.specs.Items.{HasItemNamesBelow, room_for};
ghost use Rattle.md_report.specs.declared.line.SessionMode.TheVariants as modes;
ghost use Rattle.md_report.specs.ItemLines.{IsAllowed};
ghost use Rattle.md_session.specs.Answers.{IsOpened, IsAnswered, answer_line};
ghost use Rattle.md_cograph.specs.EditCosts.{edit_cost};
ghost use Rattle.md_session.specs.Costs.{item_cost};
ghost use Rattle.md_report.specs.Steps.{ItemStep};

use crate::cograph_items::{ItemAnswer, answer_group, answer_one, answer_undo};
use md_cograph::{any_p4, change, p4_behind};
use md_cotree::{Cotree, from_outline};
use md_decompose::graph_outline;
use md_graph::{GraphOf, Memory, Steps, WORDS};
use md_modules::P4;
use md_outline::{OutlinePart, has_no_prime_part};
use md_script::{Edit, EditReason, HistoryOf, Item, inverse, reason, take_back};
use md_tree::{Kind, Tree};
use std::alloc::Global;
use std::marker::Model;
use std::sync::ledger::Ledger;

/// A session on a cograph on names below `64 * W`. It keeps the graph and its cotree, which an edit
/// changes in place.
#[derive(Drop)]
pub struct CographSessionOf<const W: usize> {
    graph: GraphOf<W>,
    tree: Cotree,
    // Room for a list of neighbours.
    near: Vec<u32>,
}

/// A session on a cograph.
pub type CographSession = CographSessionOf<WORDS>;

impl<const W: usize> Model for CographSessionOf<W> {
    ghost use Rattle.md_graph.specs.PlainGraph.{PlainGraph, graph_code};

    ghost Value = { PlainGraph };

    ghost coded = { graph_code };

    ghost view = { λ s. s.graph };

    ghost use Rattle.md_report.specs.Cographs.{IsCograph};
    ghost use Rattle.md_cotree.specs.Cotrees.{Denotes};
    ghost use Rattle.std.specs.Prelude.{◌*◌, ◌≤◌, vec_capacity};

    ghost invariant = { λ s. IsCograph s.graph × Denotes s.tree s.graph
        × (64 * W ≤ vec_capacity s.near) };
}

/// What comes of a graph that a session on cographs is to begin with.
#[derive(Drop)]
pub enum OpenedOf<const W: usize> {
    /// The session.
    Session(CographSessionOf<W>),
    /// The graph has this induced P4.
    NotCograph(P4),
}

/// What comes of a graph that a session on cographs is to begin with, at the widest rows.
pub type Opened = OpenedOf<WORDS>;

/// What comes of an edit.
#[derive(Clone, Copy, Debug, PartialEq, Eq)]
pub enum Answer {
    /// The graph is the one after the edit.
    Applied,
    /// There is a reason against the edit, and the graph stays.
    Refused(EditReason),
    /// The graph after the edit would have this induced P4, and the graph stays.
    RefusedP4(P4),
}

impl<const W: usize> CographSessionOf<W> {
    /// The session whose graph is the one handed in; `NotCograph` exactly where that has an induced
    /// P4, with one. The cotree is made from the outline of the tree; where that has a prime node a
    /// P4 is looked for from the names of the node's children. No tree is built. Errors: want of
    /// memory.
    pub fn new(alloc: Global, graph: GraphOf<W>) -> Result<OpenedOf<W>, Memory>
        ensures { IfOk result (λ opened. IsOpened graph.entry opened) }
    {
        let _vertices = graph.vertices();
        let parts = graph_outline(alloc, &graph)?;
        if has_no_prime_part(&parts) {
            let tree = from_outline(alloc, &parts)?;
            let near = Vec::with_capacity(alloc, 64 * W)?;
            return Ok(OpenedOf::Session(CographSessionOf { graph, tree, near }));
        }
        match any_p4(&graph, &parts) {
            Some(p) => Ok(OpenedOf::NotCograph(p)),
            None => unreachable!(),
        }
    }

    /// The tree of strong modules of the graph, none where it has no vertices. Errors: want of
    /// memory.
    pub fn tree(&self, alloc: Global) -> Result<Option<Tree>, Memory>
        ensures tree { IfOk result (λ tree.
            IsTree (adjacent self.now) self.now.vertices (plain_option tree)) }
    {
        self.tree.to_tree(alloc)
    }

    /// The outline of that tree, without parts exactly where the graph has no vertices: children in
    /// ascending order of their least names. No tree is built. Errors: want of memory.
    pub fn outline(&self, alloc: Global) -> Result<Vec<OutlinePart<Kind>>, Memory>
        ensures outline { IfOk result (λ parts. (t : Option PlainTree)
            × IsTree (adjacent self.now) self.now.vertices t
            × (parts.items ≡ outline_option t)) }
    {
        self.tree.outline(alloc)
    }

    /// The graph.
    pub fn graph(&self) -> &GraphOf<W>
        ensures value { result.now ≡ self.now }
    {
        &self.graph
    }

    /// The cotree of the graph.
    pub fn cotree(&self) -> &Cotree
        ensures denotes { Denotes result.now self.now }
    {
        &self.tree
    }

    /// The number of vertices of the graph.
    pub fn vertex_count(&self) -> u32
        ensures { result ≡ set.len self.now.vertices }
    {
        self.graph.count()
    }

    /// The number of nodes of the tree of strong modules of the graph, leaves among them.
    pub fn node_count(&self) -> u64
        ensures count { (o : Option PlainTree) → IsTree (adjacent self.now) self.now.vertices o →
            result ≡ nodes_in o }
    {
        self.tree.node_count()
    }

    /// Answers an edit: refuses it where there is a reason against it, or where the graph after it
    /// would have an induced P4, and the graph then stays; else changes the graph. What a refusal
    /// leaves is told of the graph: `cotree` lends a cotree of that graph, as before. It takes no
    /// memory. Condition: the names in the edit are below `64 * W`.
    pub fn apply<L: Ledger>(&mut self, edit: &Edit, steps: &mut Steps<L>) -> Answer
        requires { HasNamesBelow (64 * W) edit.now }
        ensures answer { IsAnswered self.old edit.now result self.new }
        ensures bound { steps.new ≤ steps.old + edit_cost self.old edit.now }
    {
        let _vertices = self.graph.vertices();
        if let Some(reason) = reason(&self.graph, edit) {
            return Answer::Refused(reason);
        }
        if change(&mut self.tree, edit, steps) {
            md_script::apply(&mut self.graph, edit);
            return Answer::Applied;
        }
        Answer::RefusedP4(p4_behind(&mut self.graph, edit))
    }

    /// Answers an item: an edit as `apply` does; the edits of a group one after the other, or none
    /// where one is refused; an undo by taking the last item of the history back. The history is
    /// that of this session: it gains the item, or loses the last one, and stays where the item is
    /// refused. It takes no memory. Conditions: the names in the item are below `64 * W`, the
    /// history has room for it, and fits.
    pub fn apply_item<L: Ledger>(
        &mut self,
        item: &Item,
        history: &mut HistoryOf<W>,
        steps: &mut Steps<L>,
    ) -> ItemAnswer
        requires names { HasItemNamesBelow (64 * W) item.now }
        requires room { room_for item.now ≤ history.old.spare }
        requires fits { HistoryFits (64 * W) (IsAllowed modes.Quiet) self.old history.old.items }
        ensures step { ItemStep (64 * W) modes.Quiet self.old history.old.items item.now
            (answer_line result) self.new history.new.items }
        ensures bound { steps.new ≤ steps.old
            + item_cost self.old history.old.items item.now result }
    {
        let (graph, tree) = (&mut self.graph, &mut self.tree);
        match item {
            Item::One(edit) => answer_one(graph, tree, edit, history, steps),
            Item::Group(edits) => {
                answer_group(graph, tree, &mut self.near, edits, history, steps)
            }
            Item::Undo => answer_undo(graph, tree, &mut self.near, history, steps),
        }
    }
}
