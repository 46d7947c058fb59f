//! The sessions: opened on a graph of the class, and asked for a tree or to answer an item.
ghost use Rattle.std.specs.Prelude.{◌≡◌, ◌*◌, ◌<◌, ◌≤◌, Option, IfOk, IsErr};
ghost use Rattle.md_graph.specs.declared.TheConstants.{WORDS};
ghost use Rattle.md_graph.specs.PlainGraph.{adjacent};
ghost use Rattle.md_tree.specs.Plain.{plain_option};
ghost use Rattle.md_tree.specs.StrongTrees.{IsTree};
ghost use Rattle.md_tree.specs.Trees.{PlainTree};
ghost use Rattle.md_outline.specs.Outlines.{outline_option};
ghost use Rattle.md_script.specs.Histories.{HistoryFits};
ghost use Rattle.md_script.specs.Items.{HasItemNamesBelow, room_for};
ghost use Rattle.md_bar.specs.ClassLines.{plain_class_line};
ghost use Rattle.md_report.specs.Classes.{IsAllowedIn};
ghost use Rattle.md_report.specs.Steps.{ItemStep};
ghost use Rattle.md_report.specs.declared.line.SessionMode.TheVariants.{Of};
ghost use Rattle.md_class.specs.ClassOpenings.{IsClassOpened};
ghost use Rattle.md_class.specs.ItemAnswers.{IsItemAnswer, IsClassAnswer};

use crate::answers::{ClassAnswer, ItemAnswer, Told};
use crate::items::{Fit, answer_group, answer_one, fit_of, path_bar};
use crate::undoing::answer_undo;
use md_bar::{Bar, Class, ClassLine};
use md_cograph::any_p4;
use md_cotree::{Cotree, from_outline};
use md_decompose::graph_outline;
use md_graph::{GraphOf, Memory, Steps, WORDS};
use md_outline::{OutlinePart, has_no_prime_part};
use md_report::Line;
use md_script::{History, HistoryOf, Item};
use md_tree::{Kind, Tree};
use std::alloc::Global;
use std::marker::{Brand, Model};
use std::sync::ledger::{Blank, Ledger};

/// A session on a graph of a class, on names below `64 * W`. It keeps the graph and its cotree,
/// which an edit changes in place.
#[derive(Drop)]
pub struct ClassSessionOf<const W: usize> {
    graph: GraphOf<W>,
    tree: Cotree,
    class: Class,
    // Room for a list of neighbours.
    near: Vec<u32>,
}

/// A session on a graph of a class.
pub type ClassSession = ClassSessionOf<WORDS>;

impl<const W: usize> Model for ClassSessionOf<W> {
    ghost use Rattle.md_class.specs.ClassSessions.{PlainClassSession, session_code};

    ghost Value = { PlainClassSession };

    ghost coded = { session_code };

    ghost view = { λ s. record { graph = s.graph; class = s.class } };

    ghost use Rattle.md_report.specs.Classes.{IsAllowedIn};
    ghost use Rattle.md_cotree.specs.Cotrees.{Denotes};
    ghost use Rattle.std.specs.Prelude.{◌*◌, ◌≤◌, vec_capacity};

    ghost invariant = { λ s. IsAllowedIn s.class s.graph × Denotes s.tree s.graph
        × (64 * W ≤ vec_capacity s.near) };
}

/// What comes of a graph that a session on a class is to begin with.
#[derive(Drop)]
pub enum ClassOpenedOf<const W: usize> {
    /// The session.
    Session(ClassSessionOf<W>),
    /// The graph has this bar of the class.
    Barred(Bar),
}

/// What comes of a graph that a session on a class is to begin with, at the widest rows.
pub type ClassOpened = ClassOpenedOf<WORDS>;

impl<const W: usize> ClassSessionOf<W> {
    /// The session whose graph and class are those handed in; `Barred` exactly where the graph has
    /// a bar of the class, with one. The cotree is made from the outline of the tree of the graph,
    /// and a tree is built only where no node is prime and yet there is a bar. Errors: want of
    /// memory.
    pub fn new(alloc: Global, graph: GraphOf<W>, class: Class) -> Result<ClassOpenedOf<W>, Memory>
        ensures opened { IfOk result (λ opened. IsClassOpened graph.entry class opened) }
    {
        let _vertices = graph.vertices();
        let parts = graph_outline(alloc, &graph)?;
        if !has_no_prime_part(&parts) {
            return match any_p4(&graph, &parts) {
                Some(p) => Ok(ClassOpenedOf::Barred(path_bar(p))),
                None => unreachable!(),
            };
        }
        let tree = from_outline(alloc, &parts)?;
        match fit_of(alloc, &tree, class, false)? {
            Fit::Bar(bar) => Ok(ClassOpenedOf::Barred(bar)),
            Fit::Told(_) => {
                let near = Vec::with_capacity(alloc, 64 * W)?;
                Ok(ClassOpenedOf::Session(ClassSessionOf {
                    graph,
                    tree,
                    class,
                    near,
                }))
            }
        }
    }

    /// The tree of strong modules of the graph, none where it has no vertices. Errors: want of
    /// memory.
    pub fn tree(&self, alloc: Global) -> Result<Option<Tree>, Memory>
        ensures tree { IfOk result (λ tree.
            IsTree (adjacent self.now.graph) self.now.graph.vertices (plain_option tree)) }
    {
        self.tree.to_tree(alloc)
    }

    /// The outline of that tree, without parts exactly where the graph has no vertices: children in
    /// ascending order of their least names. No tree is built. Errors: want of memory.
    pub fn outline(&self, alloc: Global) -> Result<Vec<OutlinePart<Kind>>, Memory>
        ensures outline { IfOk result (λ parts. (t : Option PlainTree)
            × IsTree (adjacent self.now.graph) self.now.graph.vertices t
            × (parts.items ≡ outline_option t)) }
    {
        self.tree.outline(alloc)
    }

    /// The graph.
    pub fn graph(&self) -> &GraphOf<W>
        ensures value { result.now ≡ self.now.graph }
    {
        &self.graph
    }

    /// Answers an item as `apply_item` does, on rows of any width, with a counter of steps, of
    /// which no bound is claimed. Conditions: the names in the item are below `64 * W`, the history
    /// has room for it, and fits. Errors: want of memory; session and history then stay.
    pub fn apply_counting<L: Ledger>(
        &mut self,
        alloc: Global,
        item: &Item,
        history: &mut HistoryOf<W>,
        steps: &mut Steps<L>,
    ) -> Result<ClassLine, Memory>
        requires names { HasItemNamesBelow (64 * W) item.now }
        requires room { room_for item.now ≤ history.old.spare }
        requires fits { HistoryFits (64 * W) (IsAllowedIn self.old.class) self.old.graph
            history.old.items }
        ensures step { IfOk result (λ line. ItemStep (64 * W) (Of self.old.class) self.old.graph
            history.old.items item.now (plain_class_line line) self.new.graph history.new.items) }
        ensures class { self.new.class ≡ self.old.class }
        ensures stays { IsErr result → self.new ≡ self.old }
        ensures kept { IsErr result → history.new.items ≡ history.old.items }
    {
        match self.answer(alloc, item, true, history, steps)? {
            ItemAnswer::Applied(Told::Tree(tree)) => Ok(ClassLine::Plain(Line::Applied(tree))),
            ItemAnswer::Applied(Told::Outline(_)) => unreachable!(),
            ItemAnswer::Refused(line) => Ok(line),
        }
    }

    /// The same for callers that write the line themselves: where the item is applied the answer
    /// has the outline of the tree in place of it, and no tree is built unless a bar is looked for.
    pub fn answer_item<L: Ledger>(
        &mut self,
        alloc: Global,
        item: &Item,
        history: &mut HistoryOf<W>,
        steps: &mut Steps<L>,
    ) -> Result<ClassAnswer, Memory>
        requires names { HasItemNamesBelow (64 * W) item.now }
        requires room { room_for item.now ≤ history.old.spare }
        requires fits { HistoryFits (64 * W) (IsAllowedIn self.old.class) self.old.graph
            history.old.items }
        ensures step { IfOk result (λ answer. IsClassAnswer (64 * W) self.old.class self.old.graph
            history.old.items item.now answer self.new.graph history.new.items) }
        ensures class { self.new.class ≡ self.old.class }
        ensures stays { IsErr result → self.new ≡ self.old }
        ensures kept { IsErr result → history.new.items ≡ history.old.items }
    {
        match self.answer(alloc, item, false, history, steps)? {
            ItemAnswer::Applied(Told::Outline(parts)) => Ok(ClassAnswer::Applied(parts)),
            ItemAnswer::Applied(Told::Tree(_)) => unreachable!(),
            ItemAnswer::Refused(line) => Ok(ClassAnswer::Refused(line)),
        }
    }

    // Answers an item, and tells the tree behind it whole or by its outline. Conditions: the names
    // in the item are below `64 * W`, the history has room for it, and fits. Errors: want of
    // memory; session and history then stay.
    fn answer<L: Ledger>(
        &mut self,
        alloc: Global,
        item: &Item,
        whole: bool,
        history: &mut HistoryOf<W>,
        steps: &mut Steps<L>,
    ) -> Result<ItemAnswer, Memory>
        requires names { HasItemNamesBelow (64 * W) item.now }
        requires room { room_for item.now ≤ history.old.spare }
        requires fits { HistoryFits (64 * W) (IsAllowedIn self.old.class) self.old.graph
            history.old.items }
        ensures step { IfOk result (λ answer. IsItemAnswer (64 * W) self.old.class whole
            self.old.graph history.old.items item.now answer self.new.graph history.new.items) }
        ensures class { self.new.class ≡ self.old.class }
        ensures stays { IsErr result → self.new ≡ self.old }
        ensures kept { IsErr result → history.new.items ≡ history.old.items }
    {
        let (graph, tree, near) = (&mut self.graph, &mut self.tree, &mut self.near);
        match item {
            Item::One(edit) => answer_one(
                alloc, graph, tree, self.class, whole, near, edit, history, steps,
            ),
            Item::Group(edits) => answer_group(
                alloc, graph, tree, self.class, whole, near, edits, history, steps,
            ),
            Item::Undo => answer_undo(alloc, whole, graph, tree, near, history, steps),
        }
    }
}

impl ClassSession {
    /// Answers an item: an edit, which is refused where there is a reason against it, or where the
    /// graph after it would have a bar of the class; the edits of a group one after the other, or
    /// none where one is refused; an undo by taking the last item of the history back. The history
    /// is that of this session: it gains the item, or loses the last one, and stays where the item
    /// is refused. Conditions: the names in the item are names, the history has room for it, and
    /// fits. Errors: want of memory; session and history then stay.
    pub fn apply_item(
        &mut self,
        alloc: Global,
        item: &Item,
        history: &mut History,
    ) -> Result<ClassLine, Memory>
        requires names { HasItemNamesBelow (64 * WORDS) item.now }
        requires room { room_for item.now ≤ history.old.spare }
        requires fits { HistoryFits (64 * WORDS) (IsAllowedIn self.old.class) self.old.graph
            history.old.items }
        ensures step { IfOk result (λ line. ItemStep (64 * WORDS) (Of self.old.class) self.old.graph
            history.old.items item.now (plain_class_line line) self.new.graph history.new.items) }
        ensures class { self.new.class ≡ self.old.class }
        ensures stays { IsErr result → self.new ≡ self.old }
        ensures kept { IsErr result → history.new.items ≡ history.old.items }
    {
        answer_uncounted::<Brand>(self, alloc, item, history, Blank::new(1))
    }
}

// The answer to an item; nobody reads the steps. Conditions: the names in the item are names, the
// history has room for it, and fits. Errors: want of memory; session and history then stay.
fn answer_uncounted<L: Ledger>(
    session: &mut ClassSession,
    alloc: Global,
    item: &Item,
    history: &mut History,
    blank: Blank,
) -> Result<ClassLine, Memory>
    requires name { blank.name ≡ L.name }
    requires parts { blank.parts ≡ L.parts }
    requires some { 0 < blank.parts }
    requires names { HasItemNamesBelow (64 * WORDS) item.now }
    requires room { room_for item.now ≤ history.old.spare }
    requires fits { HistoryFits (64 * WORDS) (IsAllowedIn session.old.class) session.old.graph
        history.old.items }
    ensures step { IfOk result (λ line. ItemStep (64 * WORDS) (Of session.old.class)
        session.old.graph history.old.items item.now (plain_class_line line)
        session.new.graph history.new.items) }
    ensures class { session.new.class ≡ session.old.class }
    ensures stays { IsErr result → session.new ≡ session.old }
    ensures kept { IsErr result → history.new.items ≡ history.old.items }
{
    let mut steps = Steps::<L>::new(blank);
    session.apply_counting(alloc, item, history, &mut steps)
}
