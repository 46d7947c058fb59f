//! Parts of a set that its modules lie in, by partition refinement.
ghost use Rattle.std.specs.Prelude.{◌≡◌, ◌+◌, ◌*◌, ◌<◌, if◌then◌else◌, ◌≤◌, ℕ, IfOk, OnOk, OnErr, Some, None, length, replicate};
ghost use Rattle.std.specs.FinSet.{contains, insert};
ghost use Rattle.md_graph.specs.PlainGraph.{adjacent};
ghost use Rattle.md_graph.specs.Sets.{Has, HasSome, Within};
ghost use Rattle.md_modules.specs.Classes.{class_at, HoldsModules};
ghost use Rattle.md_refine.specs.Partitions.{ArePartition, class_position, is_name};
ghost use Rattle.md_decompose.specs.Refined.{CutNoModule, IsNumbering, AreNumbered, number_at, set_or_empty, set_yet_at};

use md_graph::{GraphOf, Memory, Set, WORDS};
use md_modules::CompactSet;
use md_refine::Partition;
use std::alloc::Global;

// After so many rows, one behind the other, that cut no class, no more are looked at.
const IDLE: u32 = 64;

// Parts of `rest` that no module of `set` inside `rest` lies across. They cost one pass over the
// neighbours of members of `set`, and so little where these have few. Condition: `rest` is a
// nonempty part of `set`, a set of vertices.
pub(crate) fn refined_classes<const W: usize>(
    alloc: Global,
    graph: &GraphOf<W>,
    set: &Set<W>,
    rest: &Set<W>,
) -> Result<Vec<CompactSet<W>>, Memory>
    requires inside { Within set.now graph.now.vertices }
    requires part { Within rest.now set.now }
    requires some { HasSome rest.now }
    ensures { IfOk result (λ classes.
        HoldsModules (adjacent graph.now) set.now rest.now classes.items) }
{
    let partition = cut_by_rows(alloc, graph, set, rest)?;
    let _count = partition.class_count();
    let sets = class_sets(alloc, rest, &partition)?;
    Ok(sets)
}

// The classes of a partition of `rest` as sets, in their order. Errors: want of memory.
fn class_sets<const W: usize>(
    alloc: Global,
    rest: &Set<W>,
    partition: &Partition,
) -> Result<Vec<CompactSet<W>>, Memory>
    requires { (v : ℕ) → is_name partition.now.classes v ≡ contains rest.now v }
    ensures sets { IfOk result (λ sets. AreNumbered rest.now
        (class_position partition.now.classes) (length partition.now.classes) sets.items) }
{
    let count = partition.class_count();
    let numbers = partition.class_positions(alloc)?;
    let sets = sets_of_numbers(alloc, rest, count, &numbers)?;
    let made = all_made(alloc, sets)?;
    Ok(made)
}

// The names of `rest` in classes that are cut by the neighbours of one member of `set` after the
// other, each but the class of that member, until several in a row have cut none. Those outside
// `rest` come first, and then always one that is adjacent to an earlier one: it stands in another
// class than the names that no row has cut off yet.
fn cut_by_rows<const W: usize>(
    alloc: Global,
    graph: &GraphOf<W>,
    set: &Set<W>,
    rest: &Set<W>,
) -> Result<Partition, Memory>
    ensures { IfOk result (λ partition.
        CutNoModule (adjacent graph.now) set.now rest.now partition.classes) }
{
    let _members = rest.members();
    let count = rest.count();
    let mut partition = Partition::new(alloc, rest)?;
    let mut near = set.minus(rest);
    let mut left = set.and(rest);
    let mut idle = 0;
    for _ in 0..set.count() {
        let Some(p) = near.first_from(0) else {
            return Ok(partition);
        };
        let before = partition.class_count();
        if before == count || idle >= IDLE {
            return Ok(partition);
        }
        near.remove(p);
        left.move_shared(graph.row(p), &mut near);
        partition.refine_outside(p, graph.row(p));
        idle = idle_after(idle, partition.class_count() > before);
    }
    Ok(partition)
}

// How many rows cut no class since one did, after one more row. Condition: they were few.
fn idle_after(idle: u32, is_cut: bool) -> u32
    requires { idle < IDLE }
    ensures { result ≡ (if is_cut then 0 else idle + 1) }
{
    if is_cut { 0 } else { idle + 1 }
}

// The names of `rest` with each number below `count`. Condition: these are the numbers of its
// names.
fn sets_of_numbers<const W: usize>(
    alloc: Global,
    rest: &Set<W>,
    count: u32,
    numbers: &Vec<Option<u32>>,
) -> Result<Vec<Option<CompactSet<W>>>, Memory>
    requires { IsNumbering rest.now (number_at numbers.now.items) count }
    ensures len { IfOk result (λ sets. length sets.items ≡ count) }
    ensures members { IfOk result (λ sets. (k v : ℕ) → Has (set_yet_at sets.items k) v →
        Has rest.now v × (number_at numbers.now.items v ≡ Some k)) }
    ensures cover { IfOk result (λ sets. (k v : ℕ) → Has rest.now v →
        number_at numbers.now.items v ≡ Some k → Has (set_yet_at sets.items k) v) }
{
    rest.within_limit();
    let mut sets = none_yet(alloc, count)?;
    for v in rest.members() {
        let Some(number) = numbers[v as usize] else {
            unreachable!()
        };
        take_in(alloc, &mut sets[number as usize], v)?;
    }
    Ok(sets)
}

// No set, `count` times.
fn none_yet<const W: usize>(alloc: Global, count: u32) -> Result<Vec<Option<CompactSet<W>>>, Memory>
    ensures { IfOk result (λ sets. sets.items ≡ replicate count None) }
{
    let mut sets = Vec::with_capacity(alloc, count as usize)?;
    for _ in 0..count {
        sets.push_reserved(None);
    }
    Ok(sets)
}

// Takes `v` in to a set, which is made where there is none yet. Errors: want of memory; the set
// stays as it was then.
fn take_in<const W: usize>(
    alloc: Global,
    set: &mut Option<CompactSet<W>>,
    v: u32,
) -> Result<(), Memory>
    requires name { v < 64 * W }
    requires limit { W ≤ WORDS }
    ensures taken { OnOk result (set_or_empty set.new ≡ insert (set_or_empty set.old) v) }
    ensures stays { OnErr result (set_or_empty set.new ≡ set_or_empty set.old) }
{
    match set {
        Some(set) => set.insert(alloc, v),
        None => {
            *set = Some(CompactSet::one(v));
            Ok(())
        }
    }
}

// The sets, all of which there are.
fn all_made<const W: usize>(
    alloc: Global,
    sets: Vec<Option<CompactSet<W>>>,
) -> Result<Vec<CompactSet<W>>, Memory>
    requires { (k : ℕ) → k < length sets.items → HasSome (set_yet_at sets.items k) }
    ensures len { IfOk result (λ made. length made.items ≡ length sets.entry.items) }
    ensures same { IfOk result (λ made. (k : ℕ) →
        class_at made.items k ≡ set_yet_at sets.entry.items k) }
{
    let mut made = Vec::with_capacity(alloc, sets.len())?;
    for set in sets {
        let Some(set) = set else { unreachable!() };
        made.push_reserved(set);
    }
    Ok(made)
}
