//! What a program over the crates of sessions can promise, proved from the contracts of their
//! public calls alone.
ghost use Rattle.std.specs.Prelude.{◌≡◌, ◌≤◌, ◌↔◌, ◌+◌, ◌*◌, None, true, false, IfOk, IsTrue};
ghost use Rattle.md_graph.specs.PlainGraph.{adjacent};
ghost use Rattle.md_tree.specs.Plain.{plain_option};
ghost use Rattle.md_tree.specs.StrongTrees.{IsTree};
ghost use Rattle.md_script.specs.Edit.{HasNamesBelow, reason_of, after};
ghost use Rattle.md_report.specs.Cographs.{IsCograph};
ghost use Rattle.md_report.specs.Classes.{IsAllowedIn};
ghost use Rattle.md_report.specs.Sessions.{state_after};
ghost use Rattle.md_cograph.specs.EditCosts.{edit_cost};

use md_bar_tree::Class;
use md_class::{ClassOpenedOf, ClassSessionOf};
use md_graph::{GraphOf, Memory, Steps};
use md_script::Edit;
use md_session::{Answer, CographSessionOf, GeneralSessionOf, OpenedOf};
use md_tree::Tree;
use std::alloc::Global;
use std::sync::ledger::Ledger;

/// Whether a session on cographs can begin with the graph. Errors: want of memory.
pub fn can_begin<const W: usize>(alloc: Global, graph: GraphOf<W>) -> Result<bool, Memory>
    ensures cograph { IfOk result (λ can. IsTrue can ↔ IsCograph graph.entry) }
{
    let _vertices = graph.vertices();
    match CographSessionOf::new(alloc, graph)? {
        OpenedOf::Session(_) => Ok(true),
        OpenedOf::NotCograph(_) => Ok(false),
    }
}

/// Whether a session on the class can begin with the graph. Errors: want of memory.
pub fn can_begin_in<const W: usize>(
    alloc: Global,
    graph: GraphOf<W>,
    class: Class,
) -> Result<bool, Memory>
    ensures allowed { IfOk result (λ can. IsTrue can ↔ IsAllowedIn class graph.entry) }
{
    let _vertices = graph.vertices();
    match ClassSessionOf::new(alloc, graph, class)? {
        ClassOpenedOf::Session(_) => Ok(true),
        ClassOpenedOf::Barred(_) => Ok(false),
    }
}

/// Whether an edit was applied to a session on cographs: exactly where no reason speaks against it
/// and the graph after it is a cograph. Else the graph stays. It takes no more steps than the edit
/// may cost. Condition: the names in the edit are below `64 * W`.
pub fn try_edit<L: Ledger, const W: usize>(
    session: &mut CographSessionOf<W>,
    edit: &Edit,
    steps: &mut Steps<L>,
) -> bool
    requires names { HasNamesBelow (64 * W) edit.now }
    ensures applied { IsTrue result ↔ ((reason_of session.old edit.now ≡ None)
        × IsCograph (after session.old edit.now)) }
    ensures changed { result ≡ true → session.new ≡ after session.old edit.now }
    ensures stays { result ≡ false → session.new ≡ session.old }
    ensures bound { steps.new ≤ steps.old + edit_cost session.old edit.now }
{
    match session.apply(edit, steps) {
        Answer::Applied => true,
        Answer::Refused(_) => false,
        Answer::RefusedP4(_) => false,
    }
}

/// The tree of strong modules of the graph after an edit, or of the graph itself where a reason
/// speaks against the edit. Condition: the names in the edit are below `64 * W`. Errors: want of
/// memory.
pub fn tree_behind<const W: usize>(
    alloc: Global,
    graph: GraphOf<W>,
    edit: &Edit,
) -> Result<Option<Tree>, Memory>
    requires names { HasNamesBelow (64 * W) edit.now }
    ensures tree { IfOk result (λ tree. IsTree (adjacent (state_after graph.entry edit.now))
        (state_after graph.entry edit.now).vertices (plain_option tree)) }
{
    let mut session = GeneralSessionOf::new(graph);
    session.apply(alloc, edit)?;
    session.tree(alloc)
}
