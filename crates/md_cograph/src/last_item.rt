//! The last item of a history is taken back on a graph and its cotree.
ghost use Rattle.std.specs.Prelude.{◌≡◌, ◌+◌, ◌*◌, ◌≤◌, List, ◌∷◌, vec_capacity};
ghost use Rattle.md_cotree.specs.Cotrees.{Denotes};
ghost use Rattle.md_script.specs.declared.edit.Edit as script;
ghost use Rattle.md_script.specs.Pasts.{taken_back, MayBack};
ghost use Rattle.md_report.specs.Cographs.{IsCograph};
ghost use Rattle.md_cograph.specs.EditCosts.{back_cost};

use crate::changes::change_back;
use md_cotree::Cotree;
use md_graph::{GraphOf, Steps};
use md_script::{HistoryOf, take_back};
use std::sync::ledger::Ledger;

/// Takes the last item of a history back, and off it. Conditions: the cotree is that of the graph,
/// there is room for a list of neighbours, an item stands, and its edits can be taken back, the
/// last one first, over cographs.
pub fn take_back_item<const W: usize, L: Ledger>(
    graph: &mut GraphOf<W>,
    tree: &mut Cotree,
    near: &mut Vec<u32>,
    history: &mut HistoryOf<W>,
    steps: &mut Steps<L>,
)
    requires denotes { Denotes tree.old graph.old }
    requires near { 64 * W ≤ vec_capacity near.old }
    requires item { (last : List script.Edit) × (others : List (List script.Edit)) ×
        (history.old.items ≡ last ∷ others) × MayBack (64 * W) IsCograph graph.old last }
    ensures graph { (last : List script.Edit) (others : List (List script.Edit)) →
        history.old.items ≡ last ∷ others → graph.new ≡ taken_back graph.old last }
    ensures items { (last : List script.Edit) (others : List (List script.Edit)) →
        history.old.items ≡ last ∷ others → history.new.items ≡ others }
    ensures denotes { Denotes tree.new graph.new }
    ensures near { vec_capacity near.new ≡ vec_capacity near.old }
    ensures bound { (last : List script.Edit) (others : List (List script.Edit)) →
        history.old.items ≡ last ∷ others → steps.new ≤ steps.old + back_cost graph.old last }
{
    let _vertices = graph.vertices();
    while let Some(past) = history.pop() {
        change_back(tree, &past, near, steps);
        take_back(graph, &past);
    }
    history.drop_item();
}
