//! Whether a text, or a given tree, is that of a graph that may be a state of a session. One pass
//! tells both: no bar of a class is searched for.
ghost use Rattle.std.specs.Prelude.{◌≢◌, ◌*◌, ◌↔◌, ◌≤◌, IfOk, IsTrue};
ghost use Rattle.md_graph.specs.declared.TheConstants.{WORDS};
ghost use Rattle.md_graph.specs.PlainGraph.{adjacent};
ghost use Rattle.md_tree.specs.declared.Kind.TheVariants.{Prime};
ghost use Rattle.md_tree.specs.Plain.{plain_option};
ghost use Rattle.md_tree.specs.StrongTrees.{IsTree};
ghost use Rattle.md_bar_tree.specs.Inner.{IsNarrow};
ghost use Rattle.md_report.specs.ItemLines.{IsAllowed};
ghost use Rattle.md_checker.specs.States.{HasOneNode, IsStateText};

use crate::text_graph::TextGraph;
use crate::text_walk::is_text_by_rows;
use md_bar::Class;
use md_graph::{GraphOf, Memory, Set};
use md_report::SessionMode;
use md_tree::{Kind, Pair, Tree, text};
use std::alloc::Global;

// A graph that a text is compared with, where it may be a state of a session of the mode.
#[derive(Drop)]
struct StateText<'a, const W: usize> {
    mode: SessionMode,
    graph: &'a GraphOf<W>,
    ghost limit: { W ≤ WORDS },
}

impl<'a, const W: usize> TextGraph<Kind, Pair, W> for StateText<'a, W> {
    ghost use Rattle.md_checker.specs.GraphViews.{state_view};

    ghost view = { λ text. state_view text.mode text.graph.now };

    fn vertices(&self) -> &Set<W> {
        let graph = self.graph;
        graph.vertices()
    }

    fn ahead(&self, v: u32) -> (&Set<W>, u32) {
        TextGraph::<Kind, Pair, W>::ahead(self.graph, v)
    }

    fn admits(&self, kind: Kind, roots: &[Option<Kind>]) -> bool {
        match self.mode {
            SessionMode::Edit => true,
            SessionMode::Cograph => kind != Kind::Prime,
            SessionMode::Quiet => kind != Kind::Prime,
            SessionMode::Of(class) => has_few_nodes(class, kind, roots),
        }
    }

    fn agree_on(&self, v: u32, w: u32, names: &Set<W>) -> bool {
        TextGraph::<Kind, Pair, W>::agree_on(self.graph, v, w, names)
    }

    fn are_joined(&self, kind: Kind, v: u32, w: u32) -> bool {
        TextGraph::<Kind, Pair, W>::are_joined(self.graph, kind, v, w)
    }

    fn has_trivial_modules_alone(&self, alloc: Global, names: &Set<W>) -> Result<bool, Memory> {
        TextGraph::<Kind, Pair, W>::has_trivial_modules_alone(self.graph, alloc, names)
    }
}

// Whether a node of the kind is not prime, and has at most one child that is a node, if nodes of
// its kind are asked to in trees of graphs of the class.
fn has_few_nodes(class: Class, kind: Kind, roots: &[Option<Kind>]) -> bool
    ensures { IsTrue result
        ↔ ((kind ≢ Prime) × (IsNarrow class kind → HasOneNode roots.now)) }
{
    match kind {
        Kind::Parallel => match class {
            Class::Trivial => true,
            Class::Threshold => has_one_node(roots),
        },
        Kind::Series => has_one_node(roots),
        Kind::Prime => false,
    }
}

// Whether at most one of the roots is that of a node.
fn has_one_node(roots: &[Option<Kind>]) -> bool
    ensures { IsTrue result ↔ HasOneNode roots.now }
{
    let mut found = false;
    for root in roots {
        if found & root.is_some() {
            return false;
        }
        found |= root.is_some();
    }
    true
}

// Whether the text is the word and behind it that of the tree of the graph, which may be a state of
// a session of the mode. Errors: want of memory.
pub(crate) fn is_word_and_state<const W: usize>(
    alloc: Global,
    mode: SessionMode,
    graph: &GraphOf<W>,
    word: &[u8],
    text: &[u8],
) -> Result<bool, Memory>
    ensures { IfOk result (λ fit. IsTrue fit ↔ IsStateText mode graph.now word.now text.now) }
{
    graph.vertices().within_limit();
    match text.strip_prefix(word) {
        Some(behind) => {
            let compared = StateText { mode, graph };
            is_text_by_rows::<Kind, Pair, StateText<'_, W>, W>(alloc, &compared, behind)
        }
        None => Ok(false),
    }
}

// Whether the graph may be a state of a session of the mode, and the tree is that of it. Errors:
// want of memory.
pub(crate) fn is_tree_of_state<const W: usize>(
    alloc: Global,
    mode: SessionMode,
    graph: &GraphOf<W>,
    tree: &Option<Tree>,
) -> Result<bool, Memory>
    ensures { IfOk result (λ fit. IsTrue fit ↔ (IsAllowed mode graph.now
        × IsTree (adjacent graph.now) graph.now.vertices (plain_option tree.now))) }
{
    let _vertices = graph.vertices();
    match tree {
        Some(_) => {
            let text = text(alloc, tree)?;
            is_word_and_state(alloc, mode, graph, b"", &text)
        }
        None => Ok(graph.vertices().is_empty()),
    }
}
