//! The maximal ones among the modules inside a part of a set, by partition refinement.
ghost use Rattle.std.specs.Prelude.{◌≡◌, ◌*◌, ◌<◌, ◌++◌, ◌∷◌, ℕ, false, IfOk, IfSome, IfNone, IsTrue, [], length, slice_set, vec_len};
ghost use Rattle.std.specs.FinSet.{contains, intersection, difference};
ghost use Rattle.md_graph.specs.Sets.{Has, Lacks, Within, HasSome, Disjoint};
ghost use Rattle.md_modules.specs.Classes.{class_at, AreMaximalInside, HoldsModules, IsSplitter};
ghost use Rattle.md_digraph.specs.PlainDigraph.{has_arc_to};
ghost use Rattle.md_digraph.specs.ArcColours.{between};
ghost use Rattle.md_digraph.specs.Cuts.{IsCutByRow, IsToldByRow};

use crate::DigraphOf;
use md_graph::{Memory, Set};
use md_modules::CompactSet;
use std::alloc::Global;

// So many names outside a class are few.
const FEW: u32 = 64;

/// The maximal ones among the modules of `set` that are parts of `rest`, in any order; they
/// partition `rest`. Conditions: `set` is a set of vertices, and `rest` a nonempty part of it.
/// Errors: want of memory.
pub fn directed_maximal_modules<const W: usize>(
    alloc: Global,
    graph: &DigraphOf<W>,
    set: &Set<W>,
    rest: &Set<W>,
) -> Result<Vec<CompactSet<W>>, Memory>
    requires inside { Within set.now graph.now.vertices }
    requires part { Within rest.now set.now }
    requires some { HasSome rest.now }
    ensures maximal { IfOk result (λ classes.
        AreMaximalInside (between (has_arc_to graph.now)) set.now rest.now classes.items) }
{
    let mut classes = Vec::new(alloc);
    classes.push(CompactSet::of(alloc, rest)?)?;
    directed_cut_classes(alloc, graph, set, rest, classes)
}

// The same, from a partition of `rest` that cuts none of these modules. Conditions: `set` is a set
// of vertices, `rest` a part of it, and the given classes are such a partition. Errors: want of
// memory.
//
// A class is seen to be final, or to be cut, at two passes over the names outside it for each of
// its members, or at four over the class for each name outside, where these are few. Each look
// either ends with a class or makes one more, so k classes in a set of m names cost about 4km
// passes over rows at most.
fn directed_cut_classes<const W: usize>(
    alloc: Global,
    graph: &DigraphOf<W>,
    set: &Set<W>,
    rest: &Set<W>,
    classes: Vec<CompactSet<W>>,
) -> Result<Vec<CompactSet<W>>, Memory>
    requires inside { Within set.now graph.now.vertices }
    requires part { Within rest.now set.now }
    requires holds { HoldsModules (between (has_arc_to graph.now)) set.now rest.now classes.items }
    ensures maximal { IfOk result (λ classes.
        AreMaximalInside (between (has_arc_to graph.now)) set.now rest.now classes.items) }
{
    let mut classes = classes;
    let mut at = 0;
    while at < classes.len() {
        if let Some(row) = cutting_row(graph, set, &classes[at]) {
            cut(alloc, &mut classes, at, row)?;
        } else {
            at += 1;
        }
    }
    Ok(classes)
}

// The row of a name of `set` outside a class that has other arcs with one name of the class than
// with another: one that has some names of the class and not all, those with the same arcs
// together. None exactly where there is no such name.
fn cutting_row<'a, const W: usize>(
    graph: &'a DigraphOf<W>,
    set: &Set<W>,
    class: &CompactSet<W>,
) -> Option<&'a Set<W>>
    requires inside { Within set.now graph.now.vertices }
    requires part { Within class.now set.now }
    requires some { HasSome class.now }
    ensures found { IfSome result (λ row.
        IsCutByRow (between (has_arc_to graph.now)) set.now class.now row.now) }
    ensures none { IfNone result ((p : ℕ)
        → IsSplitter (between (has_arc_to graph.now)) set.now class.now p → ⊥) }
{
    if class.alone().is_some() {
        return None;
    }
    let mut room = None;
    let names = class.set_in(&mut room);
    row_for(graph, names, &set.minus(names))
}

// The same, where `others` are the names outside the class: by a look at each of them, where they
// are few beside the class, and else at each of its members. Most of many others have cut already.
fn row_for<'a, const W: usize>(
    graph: &'a DigraphOf<W>,
    class: &Set<W>,
    others: &Set<W>,
) -> Option<&'a Set<W>>
    requires inside { Within class.now graph.now.vertices }
    requires part { Within others.now graph.now.vertices }
    requires apart { Disjoint class.now others.now }
    requires some { HasSome class.now }
    ensures found { IfSome result (λ row.
        IsCutByRow (between (has_arc_to graph.now)) others.now class.now row.now) }
    ensures none { IfNone result ((p : ℕ)
        → IsSplitter (between (has_arc_to graph.now)) others.now class.now p → ⊥) }
{
    let count = others.count();
    if count <= FEW && count < class.count() {
        return row_by_others(graph, class, others);
    }
    row_by_members(graph, class, others)
}

// The same by a look at each of `others`.
fn row_by_others<'a, const W: usize>(
    graph: &'a DigraphOf<W>,
    class: &Set<W>,
    others: &Set<W>,
) -> Option<&'a Set<W>>
    requires part { Within others.now graph.now.vertices }
    requires apart { Disjoint class.now others.now }
    ensures found { IfSome result (λ row.
        IsCutByRow (between (has_arc_to graph.now)) others.now class.now row.now) }
    ensures none { IfNone result ((p : ℕ)
        → IsSplitter (between (has_arc_to graph.now)) others.now class.now p → ⊥) }
{
    let _vertices = graph.vertices();
    for p in others.members() {
        if let Some(row) = row_of(graph, p, class, others) {
            return Some(row);
        }
    }
    None
}

// The row of `p`, one of `others`, that has some names of a class and lacks some. Condition: the
// class and `others` don't meet.
fn row_of<'a, const W: usize>(
    graph: &'a DigraphOf<W>,
    p: u32,
    class: &Set<W>,
    others: &Set<W>,
) -> Option<&'a Set<W>>
    requires vertex { Has graph.now.vertices p }
    requires member { Has others.now p }
    requires apart { Disjoint class.now others.now }
    ensures found { IfSome result (λ row.
        IsCutByRow (between (has_arc_to graph.now)) others.now class.now row.now) }
    ensures none { IfNone result
        (IsSplitter (between (has_arc_to graph.now)) others.now class.now p → ⊥) }
{
    let out = graph.successors(p);
    if is_divided(class, out, others) {
        return Some(out);
    }
    let into = graph.predecessors(p);
    if is_divided(class, into, others) {
        return Some(into);
    }
    None
}

// Whether a row has some names of a class and lacks some. Condition: `apart` is a set that doesn't
// meet the class.
fn is_divided<const W: usize>(class: &Set<W>, row: &Set<W>, apart: &Set<W>) -> bool
    requires { Disjoint class.now apart.now }
    ensures sees { IsTrue result → (a : ℕ) × Has class.now a × Has row.now a }
    ensures misses { IsTrue result → (a : ℕ) × Has class.now a × Lacks row.now a }
    ensures alike { result ≡ false → (x y : ℕ) → Has class.now x → Has class.now y
        → contains row.now x ≡ contains row.now y }
{
    let Some(_) = class.first_in_symmetric_difference(row, apart) else {
        return false;
    };
    let Some(_) = class.first_in_symmetric_difference(row, class) else {
        return false;
    };
    true
}

// The same by a look at each member of the class.
fn row_by_members<'a, const W: usize>(
    graph: &'a DigraphOf<W>,
    class: &Set<W>,
    others: &Set<W>,
) -> Option<&'a Set<W>>
    requires inside { Within class.now graph.now.vertices }
    requires part { Within others.now graph.now.vertices }
    requires apart { Disjoint class.now others.now }
    requires some { HasSome class.now }
    ensures found { IfSome result (λ row.
        IsCutByRow (between (has_arc_to graph.now)) others.now class.now row.now) }
    ensures none { IfNone result ((p : ℕ)
        → IsSplitter (between (has_arc_to graph.now)) others.now class.now p → ⊥) }
{
    let _vertices = graph.vertices();
    let Some(first) = class.first_from(0) else {
        unreachable!();
    };
    for x in class.members_from(first + 1) {
        if let Some(row) = row_between(graph, first, x, others) {
            return Some(row);
        }
    }
    None
}

// The row of one of `others` that has one of `u` and `v` and lacks the other.
fn row_between<'a, const W: usize>(
    graph: &'a DigraphOf<W>,
    u: u32,
    v: u32,
    others: &Set<W>,
) -> Option<&'a Set<W>>
    requires first { Has graph.now.vertices u }
    requires second { Has graph.now.vertices v }
    requires part { Within others.now graph.now.vertices }
    ensures found { IfSome result (λ row.
        IsToldByRow (between (has_arc_to graph.now)) others.now u v row.now) }
    ensures none { IfNone result ((y : ℕ) → Has others.now y
        → between (has_arc_to graph.now) u y ≡ between (has_arc_to graph.now) v y) }
{
    let (out_u, out_v) = (graph.successors(u), graph.successors(v));
    if let Some(p) = others.first_in_symmetric_difference(out_u, out_v) {
        return Some(graph.predecessors(p));
    }
    let (in_u, in_v) = (graph.predecessors(u), graph.predecessors(v));
    if let Some(p) = others.first_in_symmetric_difference(in_u, in_v) {
        return Some(graph.successors(p));
    }
    None
}

// The class at a place becomes its part in `row`, and its part outside is a new class, the last
// one.
fn cut<const W: usize>(
    alloc: Global,
    classes: &mut Vec<CompactSet<W>>,
    at: usize,
    row: &Set<W>,
) -> Result<(), Memory>
    requires { at < vec_len classes.old }
    ensures { IfOk result (λ _. classes.new.items
        ≡ slice_set classes.old.items at (intersection (class_at classes.old.items at) row.now)
        ++ difference (class_at classes.old.items at) row.now ∷ []) }
{
    let (stays, goes) = divide(alloc, &classes[at], row)?;
    classes[at] = stays;
    classes.push(goes)?;
    Ok(())
}

// The part of a class in `row`, and that outside.
fn divide<const W: usize>(
    alloc: Global,
    class: &CompactSet<W>,
    row: &Set<W>,
) -> Result<(CompactSet<W>, CompactSet<W>), Memory>
    ensures { IfOk result (λ parts. (parts.0 ≡ intersection class.now row.now)
        × (parts.1 ≡ difference class.now row.now)) }
{
    let mut room = None;
    let names = class.set_in(&mut room);
    let stays = CompactSet::of(alloc, &names.and(row))?;
    let goes = CompactSet::of(alloc, &names.minus(row))?;
    Ok((stays, goes))
}
