//! Whether a graph is a cograph, by splitting its vertices down: into components, or those of the
//! complement, and each part again.
ghost use Rattle.std.specs.Prelude.{◌≡◌, ◌*◌, ◌≤◌, ℕ, Bool, List, ◌++◌, ◌↔◌, IfOk, IfSome, IfNone, IsTrue};
ghost use Rattle.md_graph.specs.PlainGraph.{adjacent};
ghost use Rattle.md_graph.specs.Sets.{NameSet, Has, Within};
ghost use Rattle.md_modules.specs.Kinds.{IsSplit};
ghost use Rattle.md_modules.specs.InducedPaths.{HasInducedPath};
ghost use Rattle.md_report.specs.Cographs.{IsCograph};
ghost use Rattle.md_checker.specs.declared.cograph_test.Unsplit.{Unsplit};
ghost use Rattle.md_checker.specs.Splitting.{IsSplitUp};

use md_graph::{GraphOf, Memory, Set};
use md_modules::{CompactSet, co_component, component};
use std::alloc::Global;

// A set of vertices that is still to be split, and the kind of split that is tried first: with
// every edge across (`joined` is true), or with none.
#[derive(Drop)]
struct Unsplit<const W: usize> {
    names: CompactSet<W>,
    joined: bool,
}

// Whether the graph is a cograph: whether each set of four vertices or more that splitting comes
// to splits again. It makes about as many operations on rows as the tree of the graph. Errors: want
// of memory.
pub(crate) fn is_cograph<const W: usize>(alloc: Global, graph: &GraphOf<W>) -> Result<bool, Memory>
    ensures { IfOk result (λ yes. IsTrue yes ↔ IsCograph graph.now) }
{
    let names = CompactSet::of(alloc, graph.vertices())?;
    let mut left = Vec::new(alloc);
    left.push(Unsplit {
        names,
        joined: false,
    })?;
    while let Some(set) = left.pop() {
        if !take_apart(alloc, graph, set, &mut left)? {
            return Ok(false);
        }
    }
    Ok(true)
}

// Whether the set has fewer than four names, or splits: its two parts are then left to be split.
// Where it doesn't, it has an induced path. A part of a split is tried the other way first, and the
// rest, which may split further, the same way. Errors: want of memory.
fn take_apart<const W: usize>(
    alloc: Global,
    graph: &GraphOf<W>,
    set: Unsplit<W>,
    left: &mut Vec<Unsplit<W>>,
) -> Result<bool, Memory>
    requires { Within set.names graph.now.vertices }
    ensures apart { IfOk result (λ yes. IsTrue yes → (sets : List (Unsplit W))
        × (left.new.items ≡ left.old.items ++ sets)
        × IsSplitUp (adjacent graph.now) set.entry.names sets) }
    ensures path { IfOk result (λ yes. ¬ (IsTrue yes)
        → HasInducedPath (adjacent graph.now) set.entry.names) }
{
    let _vertices = graph.vertices();
    if set.names.count() < 4 {
        return Ok(true);
    }
    let mut room = None;
    let names = set.names.set_in(&mut room);
    let mut part = Set::none();
    let Some(joined) = split(graph, names, set.joined, &mut part) else {
        return Ok(false);
    };
    let rest = CompactSet::of(alloc, &names.minus(&part))?;
    left.push(Unsplit {
        names: rest,
        joined,
    })?;
    let part = CompactSet::of(alloc, &part)?;
    left.push(Unsplit {
        names: part,
        joined: !joined,
    })?;
    Ok(true)
}

// The kind of split that the set has, of which `first` is tried first; one of its parts is put into
// `part`. Condition: it is a set of vertices.
fn split<const W: usize>(
    graph: &GraphOf<W>,
    within: &Set<W>,
    first: bool,
    part: &mut Set<W>,
) -> Option<bool>
    requires { Within within.now graph.now.vertices }
    ensures split { IfSome result (IsSplit (adjacent graph.now) within.now part.new) }
    ensures none { IfNone result ((joined : Bool) (other : NameSet)
        → ¬ (IsSplit (adjacent graph.now) within.now other joined)) }
{
    let x = within.first_from(0)?;
    if is_split(graph, within, x, first, part) {
        return Some(first);
    }
    if is_split(graph, within, x, !first, part) {
        return Some(!first);
    }
    None
}

// Whether the set splits with every edge across (`joined` is true), or with none: a part is put
// into `part`. Condition: it is a set of vertices, and `x` a member.
fn is_split<const W: usize>(
    graph: &GraphOf<W>,
    within: &Set<W>,
    x: u32,
    joined: bool,
    part: &mut Set<W>,
) -> bool
    requires inside { Within within.now graph.now.vertices }
    requires member { Has within.now x }
    ensures split { IsTrue result → IsSplit (adjacent graph.now) within.now part.new joined }
    ensures none { ¬ (IsTrue result) → (other : NameSet)
        → ¬ (IsSplit (adjacent graph.now) within.now other joined) }
{
    let _vertices = graph.vertices();
    if joined {
        co_component(graph, within, x, part);
    } else {
        component(graph, within, x, part);
    }
    !part.is_same(within)
}
