//! Whether a node fits a graph, of whatever kind, where its children do: names that stand for these
//! are compared with each other and with the others.
ghost use Rattle.std.specs.Prelude.{◌≡◌, ◌↔◌, [], true, false, IfOk, IsTrue};
ghost use Rattle.std.specs.FinSet.{from_list};
ghost use Rattle.md_graph.specs.Sets.{NameSet};
ghost use Rattle.md_modules.specs.Modules.{HasTrivialModulesAlone};
ghost use Rattle.md_checker.specs.FitTests.{AreAlike, AreJoinedBy};
ghost use Rattle.md_checker.specs.TextFits.{AreLive, HasOthers};
ghost use Rattle.md_checker.specs.TextViews.{StandForChildren, IsFitView, listed_pairs};

use crate::text_graph::TextGraph;
use md_graph::{Memory, Set};
use md_tree::{Lettered, Paired};
use std::alloc::Global;

// Whether a node of the kind fits that lists the pairs that the graph asks for, where names that
// stand for its children are told. They are in `live`, and leave it: the others stay.
pub(crate) fn is_fit_node<K: Lettered, P: Paired, G: TextGraph<K, P, W>, const W: usize>(
    alloc: Global,
    graph: &G,
    kind: K,
    heads: &[u32],
    live: &mut Set<W>,
) -> Result<bool, Memory>
    requires heads { StandForChildren (G.view graph.now).vertices (K.rules.sorts kind) heads.now }
    requires live { AreLive heads.now live.old }
    ensures others { IfOk result (λ fit. IsTrue fit → HasOthers live.old heads.now live.new) }
    ensures fit { IfOk result (λ fit. IsTrue fit → IsFitView (G.view graph.now) live.new kind
        (listed_pairs K.rules P.rules (G.view graph.now) kind heads.now) heads.now) }
    ensures unfit { IfOk result (λ fit. (others : NameSet) → HasOthers live.old heads.now others
        → IsFitView (G.view graph.now) others kind
        (listed_pairs K.rules P.rules (G.view graph.now) kind heads.now) heads.now → IsTrue fit) }
{
    let _vertices = graph.vertices();
    if kind.lists() {
        return is_prime_fit::<K, P, G, W>(alloc, graph, heads, live);
    }
    Ok(are_twins::<K, P, G, W>(graph, kind, heads, live))
}

// Whether names that stand for the children of a node, which lists no pairs, are joined as it says,
// and agree on the others. Each is compared with the first one, when it has left `live`: on the
// names behind it and on the others.
fn are_twins<K: Lettered, P: Paired, G: TextGraph<K, P, W>, const W: usize>(
    graph: &G,
    kind: K,
    heads: &[u32],
    live: &mut Set<W>,
) -> bool
    requires lists { K.rules.lists kind ≡ false }
    requires heads { StandForChildren (G.view graph.now).vertices (K.rules.sorts kind) heads.now }
    requires live { AreLive heads.now live.old }
    ensures others { IsTrue result → HasOthers live.old heads.now live.new }
    ensures alike { IsTrue result → AreAlike (G.view graph.now).colours live.new heads.now }
    ensures joined { IsTrue result → AreJoinedBy ((G.view graph.now).puts kind [])
        (G.view graph.now).colours heads.now }
    ensures other { (others : NameSet) → HasOthers live.old heads.now others
        → AreAlike (G.view graph.now).colours others heads.now
        → AreJoinedBy ((G.view graph.now).puts kind []) (G.view graph.now).colours heads.now
        → IsTrue result }
{
    let _vertices = graph.vertices();
    let first = heads[0];
    live.remove(first);
    for at in 1..heads.len() {
        let head = heads[at];
        live.remove(head);
        if !graph.are_joined(kind, first, head) {
            return false;
        }
        if !graph.agree_on(first, head, live) {
            return false;
        }
    }
    true
}

// Whether names that stand for the children of a prime node agree on the others, and have trivial
// modules alone.
fn is_prime_fit<K: Lettered, P: Paired, G: TextGraph<K, P, W>, const W: usize>(
    alloc: Global,
    graph: &G,
    heads: &[u32],
    live: &mut Set<W>,
) -> Result<bool, Memory>
    requires heads { StandForChildren (G.view graph.now).vertices true heads.now }
    ensures others { HasOthers live.old heads.now live.new }
    ensures fit { IfOk result (λ fit. IsTrue fit
        ↔ (AreAlike (G.view graph.now).colours live.new heads.now
        × HasTrivialModulesAlone (G.view graph.now).colours (from_list heads.now))) }
{
    let _vertices = graph.vertices();
    let all = Set::from_list(heads);
    *live = live.minus(&all);
    if !are_alike::<K, P, G, W>(graph, heads, live) {
        return Ok(false);
    }
    graph.has_trivial_modules_alone(alloc, &all)
}

// Whether names that stand for the children of a node agree on the others.
fn are_alike<K: Lettered, P: Paired, G: TextGraph<K, P, W>, const W: usize>(
    graph: &G,
    heads: &[u32],
    others: &Set<W>,
) -> bool
    requires { StandForChildren (G.view graph.now).vertices true heads.now }
    ensures { IsTrue result ↔ AreAlike (G.view graph.now).colours others.now heads.now }
{
    let first = heads[0];
    for head in heads {
        if !graph.agree_on(first, *head, others) {
            return false;
        }
    }
    true
}
