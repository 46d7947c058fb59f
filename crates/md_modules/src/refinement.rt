//! The maximal ones among the modules inside a part of a set, by partition refinement.
ghost use Rattle.std.specs.Prelude.{◌≡◌, ◌*◌, ◌<◌, ◌≤◌, ◌++◌, ◌∷◌, ◌↔◌, ℕ, Bool, IfOk, IfSome, IfNone, IsTrue, [], length, slice_set, vec_len};
ghost use Rattle.std.specs.FinSet.{empty, union, intersection, difference};
ghost use Rattle.md_graph.specs.PlainGraph.{adjacent};
ghost use Rattle.md_graph.specs.Sets.{NameSet, Has, Within, Disjoint, HasSome, only_name};
ghost use Rattle.md_modules.specs.Classes.{class_at};
ghost use Rattle.md_modules.specs.Classes.{AreFiner, IsSplitter, IsSideOf, HoldsSplitters, HoldsModules, AreMaximalInside};

use crate::CompactSet;
use crate::compact_set::FEW;
use crate::component_search::sees;
use md_graph::{GraphOf, Memory, NAMES, Set};
use std::alloc::Global;

/// The maximal ones among the modules of `set` that are parts of `rest`, in any order; they
/// partition `rest`. This is the plain search; `md_decompose` has the same, quicker on large sparse
/// sets. Conditions: `set` is a set of vertices, and `rest` a nonempty part of it. Errors: want of
/// memory.
pub fn maximal_modules<const W: usize>(
    alloc: Global,
    graph: &GraphOf<W>,
    set: &Set<W>,
    rest: &Set<W>,
) -> Result<Vec<CompactSet<W>>, Memory>
    requires inside { Within set.now graph.now.vertices }
    requires part { Within rest.now set.now }
    requires some { HasSome rest.now }
    ensures maximal { IfOk result
        (λ classes. AreMaximalInside (adjacent graph.now) set.now rest.now classes.items) }
{
    let classes = one_class(alloc, rest)?;
    cut_classes(alloc, graph, set, rest, classes, usize::MAX)
}

/// The set `rest` as the one class of a partition of it, in any graph and any set. Condition: it
/// isn't empty. Errors: want of memory.
pub fn one_class<const W: usize>(alloc: Global, rest: &Set<W>) -> Result<Vec<CompactSet<W>>, Memory>
    requires some { HasSome rest.now }
    ensures holds { IfOk result (λ classes. (e : ℕ → ℕ → Bool) → (s : NameSet)
        → HoldsModules e s rest.now classes.items) }
{
    let mut classes = Vec::with_capacity(alloc, rest.count().min(FEW) as usize)?;
    classes.push(CompactSet::of(alloc, rest)?)?;
    Ok(classes)
}

/// A finer partition of `rest`, where no module of `set` that is a part of `rest` is cut: its
/// classes are the maximal ones of these, unless there are `most` or more of them. Conditions:
/// `set` is a set of vertices, `rest` a part of it, and the given classes partition `rest` so that
/// none of these modules is cut. Errors: want of memory.
pub fn cut_classes<const W: usize>(
    alloc: Global,
    graph: &GraphOf<W>,
    set: &Set<W>,
    rest: &Set<W>,
    classes: Vec<CompactSet<W>>,
    most: usize,
) -> Result<Vec<CompactSet<W>>, Memory>
    requires inside { Within set.now graph.now.vertices }
    requires part { Within rest.now set.now }
    requires holds { HoldsModules (adjacent graph.now) set.now rest.now classes.items }
    ensures holds { IfOk result
        (λ classes. HoldsModules (adjacent graph.now) set.now rest.now classes.items) }
    ensures finer { IfOk result (λ finer. AreFiner classes.entry.items finer.items) }
    ensures modules { IfOk result (λ classes. length classes.items < most
        → AreMaximalInside (adjacent graph.now) set.now rest.now classes.items) }
{
    let mut classes = classes;
    set.within_limit();
    let mut left = Set::none();
    let mut other = Set::none();
    let mut at = next_several(&classes, 0);
    begin(set, &classes, at, &mut left);
    // A large class is seen to be final, or to be cut, at two passes over it for each name left
    // that is looked at, and what stays in its place looks at none of these again but the one that
    // cut it. A small class takes one pass over the names left for each member, and there are at
    // most two such looks a class. So k classes in a set of m names cost about 4km passes at most.
    while at < classes.len() && classes.len() < most {
        if let Some(p) = splitter(graph, &classes[at], &mut left) {
            split(
                alloc,
                &mut classes,
                at,
                graph.neighbours(p),
                &mut left,
                &mut other,
            )?;
        } else {
            at = next_several(&classes, at + 1);
            begin(set, &classes, at, &mut left);
        }
    }
    Ok(classes)
}

// The first place from `from` on at which no class is kept as a name alone: nothing cuts a name
// alone.
fn next_several<const W: usize>(classes: &[CompactSet<W>], from: usize) -> usize
    ensures from { from ≤ result }
    ensures names { (k : ℕ) → from ≤ k → k < result
        → (v : ℕ) × (class_at classes.now k ≡ only_name v) }
{
    let mut at = from;
    while at < classes.len() && classes[at].is_name() {
        at += 1;
    }
    at
}

// Puts into `left` the names of `set` outside the class at a place, if there is one.
fn begin<const W: usize>(set: &Set<W>, classes: &[CompactSet<W>], at: usize, left: &mut Set<W>)
    requires { at < length classes.now → Within (class_at classes.now at) set.now }
    ensures { at < length classes.now → (e : ℕ → ℕ → Bool)
        → HoldsSplitters e set.now (class_at classes.now at) left.new }
{
    set.within_limit();
    if at < classes.len() {
        let mut room = None;
        left.clear();
        left.union_with(set);
        left.symmetric_difference_with(classes[at].set_in(&mut room));
    }
}

// The class at a place becomes one of its two parts, in `row` and outside it, and the other one is
// a new class, the last one; `left` takes in its names. `other` is empty before and after.
fn split<const W: usize>(
    alloc: Global,
    classes: &mut Vec<CompactSet<W>>,
    at: usize,
    row: &Set<W>,
    left: &mut Set<W>,
    other: &mut Set<W>,
) -> Result<(), Memory>
    requires place { at < vec_len classes.old }
    requires empty { other.old ≡ empty }
    ensures parts { IfOk result (λ _. (part : NameSet)
        × IsSideOf part (class_at classes.old.items at) row.now
        × (classes.new.items
        ≡ slice_set classes.old.items at (intersection (class_at classes.old.items at) part)
        ++ difference (class_at classes.old.items at) part ∷ [])
        × (left.new ≡ union left.old (difference (class_at classes.old.items at) part))) }
    ensures empty { other.new ≡ empty }
{
    classes[at].divide(row, other);
    left.union_with(other);
    let goes = CompactSet::of(alloc, other);
    other.clear();
    classes.push(goes?)?;
    Ok(())
}

// A name of `left` that is adjacent to some of `class` and not to all; none exactly where there is
// none. Other names may go from `left`.
fn splitter<const W: usize>(
    graph: &GraphOf<W>,
    class: &CompactSet<W>,
    left: &mut Set<W>,
) -> Option<u32>
    requires some { HasSome class.now }
    requires apart { Disjoint class.now left.old }
    requires part { Within left.old graph.now.vertices }
    requires inside { Within class.now graph.now.vertices }
    ensures found { IfSome result (IsSplitter (adjacent graph.now) left.new class.now) }
    ensures none { IfNone result ((p : ℕ)
        → IsSplitter (adjacent graph.now) left.old class.now p → ⊥) }
    ensures less { Within left.new left.old }
    ensures kept { (p : ℕ) → IsSplitter (adjacent graph.now) left.old class.now p → Has left.new p }
{
    let _vertices = graph.vertices();
    if class.is_name() {
        return None;
    }
    let mut room = None;
    let names = class.set_in(&mut room);
    if names.count() <= FEW {
        return splitter_of_few(graph, names, left);
    }
    splitter_of_many(graph, names, left)
}

// The same by a look at each member of the class.
pub(crate) fn splitter_of_few<const W: usize>(
    graph: &GraphOf<W>,
    class: &Set<W>,
    left: &Set<W>,
) -> Option<u32>
    requires some { HasSome class.now }
    requires apart { Disjoint class.now left.now }
    requires inside { Within class.now graph.now.vertices }
    ensures found { IfSome result (IsSplitter (adjacent graph.now) left.now class.now) }
    ensures none { IfNone result ((p : ℕ)
        → IsSplitter (adjacent graph.now) left.now class.now p → ⊥) }
    ensures name { IfSome result (λ p. p < 64 * W) }
{
    let _vertices = graph.vertices();
    let Some(first) = class.first_from(0) else {
        unreachable!();
    };
    let row = graph.neighbours(first);
    for x in class.members_from(first + 1) {
        if let Some(p) = left.first_in_symmetric_difference(row, graph.neighbours(x)) {
            return Some(p);
        }
    }
    None
}

// The same by a look at each name left, which goes where it doesn't cut the class.
fn splitter_of_many<const W: usize>(
    graph: &GraphOf<W>,
    class: &Set<W>,
    left: &mut Set<W>,
) -> Option<u32>
    requires apart { Disjoint class.now left.old }
    requires part { Within left.old graph.now.vertices }
    ensures found { IfSome result (IsSplitter (adjacent graph.now) left.new class.now) }
    ensures none { IfNone result ((p : ℕ)
        → IsSplitter (adjacent graph.now) left.old class.now p → ⊥) }
    ensures less { Within left.new left.old }
    ensures kept { (p : ℕ) → IsSplitter (adjacent graph.now) left.old class.now p → Has left.new p }
{
    while let Some(p) = left.first_from(0) {
        if is_splitter(graph, p, class, left) {
            return Some(p);
        }
        left.remove(p);
    }
    None
}

// Whether `p`, a member of `left`, is adjacent to some of a class and not to all. Condition: the
// class and `left` don't meet.
fn is_splitter<const W: usize>(graph: &GraphOf<W>, p: u32, class: &Set<W>, left: &Set<W>) -> bool
    requires member { Has left.now p }
    requires part { Within left.now graph.now.vertices }
    requires apart { Disjoint class.now left.now }
    ensures { IsTrue result ↔ IsSplitter (adjacent graph.now) left.now class.now p }
{
    sees(graph, p, true, class, left) && sees(graph, p, false, class, left)
}
