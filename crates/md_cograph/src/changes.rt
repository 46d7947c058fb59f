//! The cotree of a graph under an edit and back, and an induced P4 where an edit would make one.
ghost use Rattle.std.specs.Prelude.{◌≡◌, ◌+◌, ◌*◌, ◌≤◌, true, false, None, vec_capacity};
ghost use Rattle.md_graph.specs.NameSet.{ascending};
ghost use Rattle.md_graph.specs.PlainGraph.{PlainGraph, adjacent};
ghost use Rattle.md_modules.specs.InducedPaths.{HasInducedPath};
ghost use Rattle.md_cotree.specs.Cotrees.{Denotes};
ghost use Rattle.md_script.specs.Edit.{HasNames, HasNamesBelow, reason_of, after};
ghost use Rattle.md_script.specs.Pasts.{as_edit};
ghost use Rattle.md_report.specs.Cographs.{IsP4Of, IsCograph};
ghost use Rattle.md_cograph.specs.EditCosts.{edit_cost};

use md_cotree::Cotree;
use md_cotree_edit::{add_edge, add_vertex, del_edge, del_vertex};
use md_graph::{GraphOf, Set, Steps};
use md_modules::P4;
use md_report::made_p4;
use md_script::{Edit, PastOf, apply, inverse, take_back};
use std::sync::ledger::Ledger;

/// Changes the cotree of a graph as an edit changes the graph; whether that was done. Where it
/// wasn't, the graph after the edit has an induced P4, and the cotree stays. Condition: no reason
/// speaks against the edit, and its names are names.
pub fn change<L: Ledger>(tree: &mut Cotree, edit: &Edit, steps: &mut Steps<L>) -> bool
    requires denotes { (g : PlainGraph) × Denotes tree.old g × (reason_of g edit.now ≡ None) }
    requires names { HasNames edit.now }
    ensures done { (g : PlainGraph) → Denotes tree.old g → reason_of g edit.now ≡ None →
        result ≡ true → Denotes tree.new (after g edit.now) }
    ensures refused { (g : PlainGraph) → Denotes tree.old g → reason_of g edit.now ≡ None →
        result ≡ false → HasInducedPath (adjacent (after g edit.now)) (after g edit.now).vertices }
    ensures same { result ≡ false → tree.new ≡ tree.old }
    ensures bound { (g : PlainGraph) → Denotes tree.old g → reason_of g edit.now ≡ None →
        steps.new ≤ steps.old + edit_cost g edit.now }
{
    match edit {
        Edit::AddEdge { u, v } => add_edge(tree, *u, *v, steps).is_ok(),
        Edit::DelEdge { u, v } => del_edge(tree, *u, *v, steps).is_ok(),
        Edit::AddVertex { x, neighbours } => {
            add_vertex(tree, *x, neighbours.as_slice(), steps).is_ok()
        }
        Edit::DelVertex { x } => {
            del_vertex(tree, *x, steps);
            true
        }
    }
}

/// Changes the cotree of a graph as the edit changes it by which an earlier one is taken back.
/// Conditions: no reason speaks against that edit, its names are names, the graph after it is a
/// cograph, and there is room for a list of neighbours.
pub fn change_back<const W: usize, L: Ledger>(
    tree: &mut Cotree,
    past: &PastOf<W>,
    near: &mut Vec<u32>,
    steps: &mut Steps<L>,
)
    requires denotes { (g : PlainGraph) × Denotes tree.old g
        × (reason_of g (as_edit past.now) ≡ None) × IsCograph (after g (as_edit past.now)) }
    requires names { HasNames (as_edit past.now) }
    requires near { 64 * W ≤ vec_capacity near.old }
    ensures done { (g : PlainGraph) → Denotes tree.old g → reason_of g (as_edit past.now) ≡ None →
        IsCograph (after g (as_edit past.now)) → Denotes tree.new (after g (as_edit past.now)) }
    ensures near { vec_capacity near.new ≡ vec_capacity near.old }
    ensures bound { (g : PlainGraph) → Denotes tree.old g → reason_of g (as_edit past.now) ≡ None →
        steps.new ≤ steps.old + edit_cost g (as_edit past.now) }
{
    match past {
        PastOf::AddEdge { u, v } => {
            let _done = add_edge(tree, *u, *v, steps);
        }
        PastOf::DelEdge { u, v } => {
            let _done = del_edge(tree, *u, *v, steps);
        }
        PastOf::AddVertex { x, neighbours } => {
            list_names(neighbours, near);
            let _done = add_vertex(tree, *x, near, steps);
        }
        PastOf::DelVertex { x } => del_vertex(tree, *x, steps),
    }
}

/// An induced P4 of the graph after an edit; the graph stays. Conditions: the graph is a cograph,
/// and the one after the edit isn't; no reason speaks against the edit, and its names are below
/// `64 * W`.
pub fn p4_behind<const W: usize>(graph: &mut GraphOf<W>, edit: &Edit) -> P4
    requires cograph { IsCograph graph.old }
    requires applies { reason_of graph.old edit.now ≡ None }
    requires names { HasNamesBelow (64 * W) edit.now }
    requires made { HasInducedPath (adjacent (after graph.old edit.now))
        (after graph.old edit.now).vertices }
    ensures path { IsP4Of (after graph.old edit.now) result }
    ensures same { graph.new ≡ graph.old }
{
    let past = inverse(graph, edit);
    apply(graph, edit);
    let found = made_p4(graph, edit);
    take_back(graph, &past);
    match found {
        Some(p) => p,
        None => unreachable!(),
    }
}

// The members of a set, ascending, in place of what a list held. Condition: there is room for all
// names below `64 * W`.
fn list_names<const W: usize>(names: &Set<W>, list: &mut Vec<u32>)
    requires { 64 * W ≤ vec_capacity list.old }
    ensures list { list.new.items ≡ ascending names.now }
    ensures room { vec_capacity list.new ≡ vec_capacity list.old }
{
    list.clear();
    for v in names.members() {
        list.push_reserved(v);
    }
}
