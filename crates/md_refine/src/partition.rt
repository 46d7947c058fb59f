//! Ordered partitions.
ghost use Rattle.std.specs.Prelude.{◌≡◌, ℕ, ◌+◌, ◌*◌, ◌<◌, ◌≤◌, true, false, is_some, [], ◌∷◌, ◌++◌, length, None, IfOk, slice_index_or, ◌↔◌};
ghost use Rattle.std.specs.List.{filter, AllPairs};
ghost use Rattle.md_graph.specs.Sets.{NameSet};
ghost use Rattle.std.specs.FinSet as set;
ghost use Rattle.md_graph.specs.NameSet.{ascending};
ghost use Rattle.md_refine.specs.Partitions.{is_in, is_name, is_outside, class_position, ArePartition, cut, cut_outside, met, one_class, touching, settled};

use crate::places::{
    bound_of, home_at, home_if, homes_of, insert_if, is_at, names_at, numbers_of, place_at,
    position, positions_of,
};
use md_graph::{Members, Memory, NAMES, Names, Set, Steps, copies_of};
use std::alloc::Global;
use std::marker::{Brand, Model};
use std::sync::ledger::{Blank, Ledger};

/// An ordered partition of a set of names: nonempty classes in order. Names can be touched, in
/// ascending order; a class with touched names is cut in two when it is settled.
///
/// No change takes memory: all is taken when the partition is made, as much as the names of the set
/// and the greatest of them ask for. `touch` and `settle` are one step each on the counter that
/// they are lent: each reads or changes a bounded number of items of vectors, and `settle` finds
/// the least touched name in a set, from the one before on.
#[derive(Drop)]
pub struct Partition {
    // The mark of each name up to the greatest one.
    homes: Vec<Option<u32>>,
    // The place of each mark, and the number of its names.
    owners: Vec<u32>,
    counts: Vec<u32>,
    // The marks of the untouched and of the touched names at each place, and the place behind it.
    mains: Vec<u32>,
    halves: Vec<u32>,
    nexts: Vec<Option<u32>>,
    // The first place, and the number of places: one a class.
    first: Option<u32>,
    used: u32,
    // The least touched name of each class that has one, none of them below `low`.
    leads: Names,
    low: u32,
}

impl Model for Partition {
    ghost use Rattle.md_refine.specs.Partitions.{Classes};

    ghost Value = { Classes };

    ghost use Rattle.md_refine.specs.Kept.{partition_kept, KeepsPartition};

    ghost view = { partition_kept };

    ghost invariant = { KeepsPartition };
}

impl Partition {
    /// One class with these names, or no class where there is none; nothing is touched.
    /// Errors: want of memory.
    pub fn new<const W: usize>(alloc: Global, names: &Set<W>) -> Result<Partition, Memory>
        ensures whole { IfOk result (λ p. p ≡ one_class names.now) }
        ensures partition { IfOk result ArePartition }
    {
        let _members = names.members();
        let count = names.count();
        let size = count.max(1);
        let mut counts = copies_of(alloc, 2 * size, 0)?;
        counts[0] = count;
        Ok(Partition {
            homes: homes_of(alloc, bound_of(names), names)?,
            owners: copies_of(alloc, 2 * size, 0)?,
            counts,
            mains: copies_of(alloc, size, 0)?,
            halves: copies_of(alloc, size, 1)?,
            nexts: copies_of(alloc, size, None)?,
            first: home_if(count > 0),
            used: count.min(1),
            leads: Names::none(),
            low: 0,
        })
    }

    /// A name becomes touched. Condition: it is a name of a class, and greater than all touched
    /// names.
    pub fn touch<L: Ledger>(&mut self, v: u32, steps: &mut Steps<L>)
        requires name { is_name self.old.classes v ≡ true }
        requires above { (w : ℕ) → is_in self.old.touched w ≡ true → w < v }
        ensures touched { self.new ≡ touching self.old v }
        ensures partition { ArePartition self.new }
        ensures step { steps.new ≡ steps.old + 1 }
    {
        steps.tick();
        match self.homes[v as usize] {
            Some(home) => {
                let place = self.owners[home as usize];
                let half = self.halves[place as usize];
                let count = self.counts[half as usize];
                insert_if(&mut self.leads, v, count == 0);
                self.low = self.low.min(v);
                self.counts[home as usize] -= 1;
                self.counts[half as usize] += 1;
                self.homes[v as usize] = Some(half);
            }
            None => unreachable!(),
        }
    }

    /// The class of the least touched name is replaced by its touched names and then its other
    /// names, without an empty part, and its names are untouched. False exactly where nothing is
    /// touched; then all is as before.
    pub fn settle<L: Ledger>(&mut self, steps: &mut Steps<L>) -> bool
        ensures settled { self.new ≡ settled self.old }
        ensures none { result ≡ false ↔ (self.old.touched ≡ []) }
        ensures partition { ArePartition self.new }
        ensures step { steps.new ≡ steps.old + 1 }
    {
        steps.tick();
        let Some(least) = self.leads.first_from(self.low) else {
            return false;
        };
        self.leads.remove(least);
        self.low = least;
        let Some(half) = self.homes[least as usize] else {
            unreachable!()
        };
        let place = self.owners[half as usize];
        let main = self.mains[place as usize];
        self.mains[place as usize] = half;
        if self.counts[main as usize] == 0 {
            self.halves[place as usize] = main;
            return true;
        }
        let new = self.used;
        self.owners[main as usize] = new;
        self.owners[2 * new as usize] = place;
        self.owners[2 * new as usize + 1] = new;
        self.halves[place as usize] = 2 * new;
        self.mains[new as usize] = main;
        self.halves[new as usize] = 2 * new + 1;
        self.nexts[new as usize] = self.nexts[place as usize];
        self.nexts[place as usize] = Some(new);
        self.used = new + 1;
        true
    }

    /// Each class is replaced by its names in the set and then its other names, without an empty
    /// part. Names of the set that are in no class are passed over. Condition: nothing is touched.
    pub fn refine<const W: usize, L: Ledger>(&mut self, set: &Set<W>, steps: &mut Steps<L>)
        requires untouched { self.old.touched ≡ [] }
        ensures cut { self.new.classes ≡ cut set.now self.old.classes }
        ensures untouched { self.new.touched ≡ [] }
        ensures partition { ArePartition self.new }
        ensures steps { steps.new ≤ steps.old + 8 * (length (met set.now self.old.classes) + 1) }
    {
        let _count = self.class_count();
        self.cut(NAMES, set.members(), steps);
    }

    /// The same, but that the class of `p` stays as it is, and that the steps aren't counted. Where
    /// `p` is a name of no class, this is `refine`.
    pub fn refine_outside<const W: usize>(&mut self, p: u32, set: &Set<W>)
        requires untouched { self.old.touched ≡ [] }
        ensures cut { self.new.classes ≡ cut_outside p set.now self.old.classes }
        ensures untouched { self.new.touched ≡ [] }
        ensures partition { ArePartition self.new }
    {
        self.cut_uncounted(p, set.members());
    }

    // `refine_outside` by the members of a set.
    fn cut_uncounted(&mut self, p: u32, members: Members<'_>)
        requires untouched { self.old.touched ≡ [] }
        requires order { AllPairs (λ x y. x < y) members }
        ensures cut { (s : NameSet) → members.entry ≡ ascending s →
            self.new.classes ≡ cut_outside p s self.old.classes }
        ensures untouched { self.new.touched ≡ [] }
        ensures partition { ArePartition self.new }
    {
        self.cut_counted::<Brand>(p, members, Blank::new(1));
    }

    // The same; nobody reads the steps.
    fn cut_counted<L: Ledger>(&mut self, p: u32, members: Members<'_>, blank: Blank)
        requires name { blank.name ≡ L.name }
        requires parts { blank.parts ≡ L.parts }
        requires some { 0 < blank.parts }
        requires untouched { self.old.touched ≡ [] }
        requires order { AllPairs (λ x y. x < y) members }
        ensures cut { (s : NameSet) → members.entry ≡ ascending s →
            self.new.classes ≡ cut_outside p s self.old.classes }
        ensures untouched { self.new.touched ≡ [] }
        ensures partition { ArePartition self.new }
    {
        let mut steps = Steps::<L>::new(blank);
        self.cut(p, members, &mut steps);
    }

    // The same with counted steps.
    fn cut<L: Ledger>(&mut self, p: u32, members: Members<'_>, steps: &mut Steps<L>)
        requires untouched { self.old.touched ≡ [] }
        requires order { AllPairs (λ x y. x < y) members }
        ensures cut { (s : NameSet) → members.entry ≡ ascending s →
            self.new.classes ≡ cut_outside p s self.old.classes }
        ensures untouched { self.new.touched ≡ [] }
        ensures partition { ArePartition self.new }
        ensures steps { (s : NameSet) → members.entry ≡ ascending s →
            steps.new ≤ steps.old + 8 * (length (met s self.old.classes) + 1) }
    {
        self.touch_outside(p, members, steps);
        while self.settle(steps) {}
    }

    // Touches the members of a set that are names of classes, but for those in the class of `p`.
    // Condition: nothing is touched.
    fn touch_outside<L: Ledger>(&mut self, p: u32, members: Members<'_>, steps: &mut Steps<L>)
        requires untouched { self.old.touched ≡ [] }
        requires order { AllPairs (λ x y. x < y) members }
        ensures classes { self.new.classes ≡ self.old.classes }
        ensures touched { self.new.touched
            ≡ filter (is_outside p self.old.classes) members.entry }
        ensures partition { ArePartition self.new }
        ensures steps { steps.new
            ≡ steps.old + length (filter (is_outside p self.old.classes) members.entry) }
    {
        let _count = self.class_count();
        for v in members {
            self.touch_name(p, v, steps);
        }
    }

    // Touches `v`, if it is a name of a class but that of `p`. Condition: it is greater than all
    // touched names.
    fn touch_name<L: Ledger>(&mut self, p: u32, v: u32, steps: &mut Steps<L>)
        requires above { (w : ℕ) → is_in self.old.touched w ≡ true → w < v }
        ensures classes { self.new.classes ≡ self.old.classes }
        ensures touched { self.new.touched
            ≡ self.old.touched ++ filter (is_outside p self.old.classes) (v ∷ []) }
        ensures partition { ArePartition self.new }
        ensures steps { steps.new
            ≡ steps.old + length (filter (is_outside p self.old.classes) (v ∷ [])) }
    {
        let _count = self.class_count();
        if !self.is_outside(p, v) {
            return;
        }
        self.touch(v, steps);
    }

    // Whether `v` is a name of a class but that of `p`.
    fn is_outside(&self, p: u32, v: u32) -> bool
        ensures { result ≡ is_outside p self.now.classes v }
    {
        let homes = &self.homes;
        match home_at(homes, v) {
            Some(home) => {
                let place = self.owners[home as usize];
                !is_at(home_at(homes, p), &self.owners, place)
            }
            None => false,
        }
    }

    /// The position of the class of `v`, any number; None exactly where it is no name of a class.
    pub fn class_of(&self, v: u32) -> Option<u32>
        ensures class { result ≡ class_position self.now.classes v }
        ensures none { is_some result ≡ is_name self.now.classes v }
        ensures partition { ArePartition self.now }
    {
        let homes = &self.homes;
        match home_at(homes, v) {
            Some(home) => {
                let place = self.owners[home as usize];
                position(&self.nexts, self.first, self.used, place)
            }
            None => None,
        }
    }

    /// The position of the class of each name up to the greatest of the set, None for those that
    /// are in no class: it costs one look at each class and each of these names. Errors: want of
    /// memory.
    pub fn class_positions(&self, alloc: Global) -> Result<Vec<Option<u32>>, Memory>
        ensures few { IfOk result (λ positions. length positions.items ≤ NAMES) }
        ensures positions { IfOk result (λ positions. (v : ℕ) →
            slice_index_or positions.items v None ≡ class_position self.now.classes v) }
    {
        let homes = &self.homes;
        let positions = positions_of(alloc, &self.nexts, self.first, self.used)?;
        let numbers = numbers_of(alloc, homes, &self.owners, &positions)?;
        Ok(numbers)
    }

    /// The same for all names. Errors: want of memory.
    pub fn class_numbers(&self, alloc: Global) -> Result<Vec<Option<u32>>, Memory>
        ensures len { IfOk result (λ numbers. length numbers.items ≡ NAMES) }
        ensures numbers { IfOk result (λ numbers. (v : ℕ) →
            slice_index_or numbers.items v None ≡ class_position self.now.classes v) }
    {
        let mut numbers = self.class_positions(alloc)?;
        for _ in numbers.len()..NAMES as usize {
            numbers.push(None)?;
        }
        Ok(numbers)
    }

    /// The number of classes.
    pub fn class_count(&self) -> u32
        ensures count { result ≡ length self.now.classes }
        ensures partition { ArePartition self.now }
    {
        self.used
    }

    /// The names of the class at a position. Condition: it is below the number of classes.
    pub fn class_names(&self, i: u32) -> Names
        requires { i < length self.now.classes }
        ensures names { result ≡ set.from_list (slice_index_or self.now.classes i []) }
        ensures partition { ArePartition self.now }
    {
        let place = place_at(&self.nexts, self.first, self.used, i);
        names_at(&self.homes, &self.owners, place)
    }
}
