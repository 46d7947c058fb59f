//! What the searches share: which name is looked at next, and which names are taken at a look.
ghost use Rattle.std.specs.Prelude.{◌≡◌, ◌*◌, ℕ, ◌<◌, ◌⊎◌, IfSome, IfNone};
ghost use Rattle.std.specs.FinSet.{union, difference};
ghost use Rattle.md_graph.specs.Sets.{Has, Lacks};
ghost use Rattle.md_modules.specs.Seen.{seen_as};

use md_graph::{GraphOf, NAMES, Set};

// A name to look at, as long as a name is left: the greatest or the least (`from_end` or not); none
// where nothing is left, or nothing is to be looked at. A search takes both in turn: of vertices
// each of which is adjacent to those before it, or to those behind it, one end sees most.
pub(crate) fn next<const W: usize>(left: &Set<W>, todo: &Set<W>, from_end: bool) -> Option<u32>
    ensures found { IfSome result (λ w. Has todo.now w × (w < 64 * W)) }
    ensures none { IfNone result (((y : ℕ) → Lacks left.now y) ⊎ ((y : ℕ) → Lacks todo.now y)) }
{
    if left.is_empty() {
        return None;
    }
    if from_end {
        return todo.last();
    }
    todo.first_from(0)
}

// Moves the members of `left` that are adjacent to `w` (`value` is true), or that aren't (`value`
// is false), to `todo`.
pub(crate) fn move_seen<const W: usize>(
    graph: &GraphOf<W>,
    w: u32,
    value: bool,
    left: &mut Set<W>,
    todo: &mut Set<W>,
)
    requires { Has graph.now.vertices w }
    ensures left { left.new ≡ difference left.old (seen_as graph.now w value left.old) }
    ensures todo { todo.new ≡ union todo.old (seen_as graph.now w value left.old) }
{
    let row = graph.neighbours(w);
    if value {
        left.move_shared(row, todo);
    } else {
        left.move_unshared(row, todo);
    }
}
