//! A few looks that mostly see that a set doesn't split with all arcs forth and none back: whatever
//! a part of such a split has, it has each name with other arcs too.
ghost use Rattle.std.specs.Prelude.{◌≡◌, ◌<◌, ◌*◌, ◌⊎◌, ℕ, false, not, IfSome, IfNone};
ghost use Rattle.md_graph.specs.NameSet.{NoneFrom};
ghost use Rattle.md_graph.specs.Sets.{NameSet, Has, Lacks, Within};
ghost use Rattle.md_modules.specs.Kinds.{IsSplit};
ghost use Rattle.md_digraph.specs.PlainDigraph.{has_arc_to};
ghost use Rattle.md_digraph.specs.ArcColours.{between};
ghost use Rattle.md_dtree.specs.DirectedTrees.{arc_forth, SplitsWith};

use md_digraph::DigraphOf;
use md_graph::Set;

// So many names are looked at, and no more.
const LOOKS: u32 = 16;

// Whether the set may split with all arcs forth and none back: false only where a few looks see
// that neither a first part nor a last part holds its least name.
pub(crate) fn may_split<const W: usize>(graph: &DigraphOf<W>, set: &Set<W>) -> bool
    requires inside { Within set.now graph.now.vertices }
    ensures { result ≡ false → SplitsWith (has_arc_to graph.now) set.now arc_forth → ⊥ }
{
    let Some(v) = set.first_from(0) else {
        return false;
    };
    if may_hold(graph, set, v, false) {
        return true;
    }
    may_hold(graph, set, v, true)
}

// Whether a first part (`last` is false) or a last part (`last` is true) of a set may hold its
// member `v`: false only where none does.
fn may_hold<const W: usize>(graph: &DigraphOf<W>, set: &Set<W>, v: u32, last: bool) -> bool
    requires inside { Within set.now graph.now.vertices }
    requires member { Has set.now v }
    ensures { result ≡ false → (part : NameSet)
        → IsSplit (between (has_arc_to graph.now)) set.now part (not last, last)
        → Has part v → ⊥ }
{
    let _vertices = graph.vertices();
    let mut left = set.copy();
    left.remove(v);
    let mut todo = Set::none();
    todo.insert(v);
    let mut from_end = false;
    for _ in 0..LOOKS {
        if left.is_empty() {
            return false;
        }
        let Some(w) = end_name(&todo, from_end) else {
            return true;
        };
        todo.remove(w);
        take_others(graph, w, last, &mut left, &mut todo);
        from_end = !from_end;
    }
    true
}

// Moves the members of `left` to `todo` but for those to which an arc runs from `w` and none back
// (`last` is false), or from which one runs to `w` and none back (`last` is true).
fn take_others<const W: usize>(
    graph: &DigraphOf<W>,
    w: u32,
    last: bool,
    left: &mut Set<W>,
    todo: &mut Set<W>,
)
    requires { Has graph.now.vertices w }
    ensures kept { (y : ℕ) → Has left.old y
        → between (has_arc_to graph.now) w y ≡ (not last, last) → Has left.new y }
    ensures less { Within left.new left.old }
    ensures taken { (y : ℕ) → Has todo.new y
        → Has todo.old y ⊎ (Has left.old y × Lacks left.new y) }
{
    let (out, into) = (graph.successors(w), graph.predecessors(w));
    if last {
        take_unless(into, out, left, todo);
        return;
    }
    take_unless(out, into, left, todo);
}

// Moves the members of `left` to `todo` but for those that `first` has and `second` lacks.
fn take_unless<const W: usize>(
    first: &Set<W>,
    second: &Set<W>,
    left: &mut Set<W>,
    todo: &mut Set<W>,
)
    ensures kept { (y : ℕ) → Has left.old y → Has first.now y → Lacks second.now y
        → Has left.new y }
    ensures less { Within left.new left.old }
    ensures taken { (y : ℕ) → Has todo.new y
        → Has todo.old y ⊎ (Has left.old y × Lacks left.new y) }
{
    left.move_unshared(first, todo);
    left.move_shared(second, todo);
}

// The greatest or the least name of a set (`from_end` or not); none exactly where there is none.
pub(crate) fn end_name<const W: usize>(names: &Set<W>, from_end: bool) -> Option<u32>
    ensures found { IfSome result (Has names.now) }
    ensures none { IfNone result (NoneFrom names.now 0) }
    ensures name { IfSome result (λ w. w < 64 * W) }
{
    if from_end {
        return names.last();
    }
    names.first_from(0)
}
