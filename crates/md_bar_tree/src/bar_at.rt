//! Whether a vertex lies in a bar of a class of graphs.
ghost use Rattle.std.specs.Prelude.{◌≡◌, ◌≢◌, ◌↔◌, ℕ, true, IsTrue};
ghost use Rattle.md_graph.specs.PlainGraph.{adjacent};
ghost use Rattle.md_graph.specs.Sets.{Has, Within};
ghost use Rattle.md_bar_tree.specs.declared.Bar as bars;
ghost use Rattle.md_bar_tree.specs.declared.BarKind.TheVariants as kinds;
ghost use Rattle.md_bar_tree.specs.Bars.{IsBar, HasBar};
ghost use Rattle.md_bar_tree.specs.Crossing.{IsOwn, AreCrossing, IsNameOf};

use crate::Class;
use md_graph::{GraphOf, Set};

/// Whether a vertex crosses another one: each of both has a neighbour that the other one lacks. A
/// graph with two such vertices has a bar, where for trivially perfect graphs the two are adjacent;
/// and each vertex of a cycle, or of two edges, crosses another one, so that a vertex for which the
/// answer is false lies in no bars but paths. It takes no memory, and a few row operations for each
/// vertex. Condition: `w` is a vertex.
pub fn has_bar_at<const W: usize>(graph: &GraphOf<W>, class: Class, w: u32) -> bool
    requires { Has graph.now.vertices w }
    ensures found { IsTrue result → HasBar class (adjacent graph.now) graph.now.vertices }
    ensures none { ¬ IsTrue result → (bar : bars.Bar)
        → IsBar class (adjacent graph.now) graph.now.vertices bar → IsNameOf w bar
        → bar.kind ≡ kinds.P4 }
{
    let vertices = graph.vertices();
    match class {
        Class::Trivial => some_crossing(graph, w, graph.neighbours(w)),
        Class::Threshold => some_crossing(graph, w, vertices),
    }
}

// Whether a vertex and one of the others have each a neighbour that the other one lacks.
// Conditions: `w` and the others are vertices.
fn some_crossing<const W: usize>(graph: &GraphOf<W>, w: u32, others: &Set<W>) -> bool
    requires vertex { Has graph.now.vertices w }
    requires others { Within others.now graph.now.vertices }
    ensures found { IsTrue result
        → (q : ℕ) × Has others.now q × AreCrossing (adjacent graph.now) w q }
    ensures none { ¬ IsTrue result
        → (q : ℕ) → Has others.now q → AreCrossing (adjacent graph.now) w q → ⊥ }
{
    let _vertices = graph.vertices();
    for q in others.members() {
        if are_crossing(graph, w, q) {
            return true;
        }
    }
    false
}

// Whether two vertices have each a neighbour that the other one lacks.
fn are_crossing<const W: usize>(graph: &GraphOf<W>, u: u32, v: u32) -> bool
    requires left { Has graph.now.vertices u }
    requires right { Has graph.now.vertices v }
    ensures found { IsTrue result → AreCrossing (adjacent graph.now) u v }
    ensures none { ¬ IsTrue result → AreCrossing (adjacent graph.now) u v → ⊥ }
{
    has_own(graph, u, v) && has_own(graph, v, u)
}

// Whether a vertex has a neighbour that is neither `v` nor one of its neighbours.
fn has_own<const W: usize>(graph: &GraphOf<W>, u: u32, v: u32) -> bool
    requires left { Has graph.now.vertices u }
    requires right { Has graph.now.vertices v }
    ensures found { IsTrue result → (x : ℕ) × IsOwn (adjacent graph.now) u v x }
    ensures none { ¬ IsTrue result → (x : ℕ) → IsOwn (adjacent graph.now) u v x → ⊥ }
{
    let _vertices = graph.vertices();
    let mut own = graph.neighbours(u).minus(graph.neighbours(v));
    own.remove(v);
    match own.first_from(0) {
        Some(_) => true,
        None => false,
    }
}
