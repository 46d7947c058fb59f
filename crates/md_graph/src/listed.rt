//! Graphs from lists of edges.
ghost use Rattle.std.specs.Prelude.{◌≡◌, ◌*◌, ◌≤◌, false, IfOk, IfSome, IfNone, IsTrue};
ghost use Rattle.md_graph.specs.Sets.{Has};
ghost use Rattle.md_graph.specs.PlainGraph.{empty_graph, with_edge};
ghost use Rattle.md_graph.specs.Listed.{AreEnds, AreEdgesBelow, graph_of_list};

use crate::{GraphOf, Memory, WORDS};
use std::alloc::Global;

impl<const W: usize> GraphOf<W> {
    /// The graph with the vertices below `count` and these edges. An edge is given by its two ends
    /// in either order, and may stand twice. None exactly where the ends of a pair are equal or one
    /// of them isn't below `count`. Conditions: `count` is at most `64 * W`,
    /// and `W` at most `WORDS`. Error: want of memory.
    pub fn from_edges(
        alloc: Global,
        count: u32,
        edges: &[(u32, u32)],
    ) -> Result<Option<GraphOf<W>>, Memory>
        requires count { count ≤ 64 * W }
        requires limit { W ≤ WORDS }
        ensures made { IfOk result (λ found.
            IfSome found (λ g. g ≡ graph_of_list count edges.now)) }
        ensures sound { IfOk result (λ found. IfSome found (λ _. AreEdgesBelow count edges.now)) }
        ensures none { IfOk result (λ found. IfNone found (AreEdgesBelow count edges.now → ⊥)) }
    {
        let mut graph = GraphOf::new(alloc)?;
        graph.add_range(0, count);
        for pair in edges {
            if !join(&mut graph, pair.0, pair.1) {
                return Ok(None);
            }
        }
        Ok(Some(graph))
    }
}

// Takes in the edge between `u` and `v`, which may be there, if they are different vertices. Says
// whether they are.
fn join<const W: usize>(graph: &mut GraphOf<W>, u: u32, v: u32) -> bool
    ensures ends { IsTrue result → AreEnds graph.old.vertices (u, v) }
    ensures joined { IsTrue result → graph.new ≡ with_edge graph.old u v }
    ensures refused { result ≡ false → AreEnds graph.old.vertices (u, v) → ⊥ }
{
    if u == v || !graph.has_vertex(u) || !graph.has_vertex(v) {
        return false;
    }
    if !graph.has_edge(u, v) {
        graph.add_edge(u, v);
    }
    true
}
