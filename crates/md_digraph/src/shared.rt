//! What the searches share: which name is looked at next.
ghost use Rattle.std.specs.Prelude.{◌*◌, ℕ, ◌<◌, ◌⊎◌, IfSome, IfNone};
ghost use Rattle.md_graph.specs.Sets.{Has, Lacks};

use md_graph::Set;

// A name to look at, as long as a name is left: the greatest or the least (`from_end` or not); none
// where nothing is left, or nothing is to be looked at. A search takes both in turn: of vertices
// each of which has arcs with those before it, or with those behind it, one end sees most.
pub(crate) fn next<const W: usize>(left: &Set<W>, todo: &Set<W>, from_end: bool) -> Option<u32>
    ensures found { IfSome result (λ w. Has todo.now w × (w < 64 * W)) }
    ensures none { IfNone result (((y : ℕ) → Lacks left.now y) ⊎ ((y : ℕ) → Lacks todo.now y)) }
{
    if left.is_empty() {
        return None;
    }
    if from_end {
        return todo.last();
    }
    todo.first_from(0)
}
