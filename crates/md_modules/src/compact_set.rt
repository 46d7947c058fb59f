//! Sets of names in little room, as the classes of a partition are kept: most are names alone.
ghost use Rattle.std.specs.Prelude.{◌≡◌, ◌*◌, ℕ, ◌<◌, ◌≤◌, IfOk, OnOk, OnErr, IfSome, IfNone, IsTrue};
ghost use Rattle.std.specs.FinSet.{len, empty, insert};
ghost use Rattle.md_graph.specs.NameSet.{IsLeastFrom, NoneFrom, block};
ghost use Rattle.md_graph.specs.Sets.{HasSome, HasTwo, only_name};
ghost use Rattle.md_modules.specs.Blocks.{held_names, IsName};
ghost use Rattle.md_modules.specs.Classes.{IsDivided};

use md_graph::{Memory, NAMES, Set, WORDS};
use std::alloc::Global;
use std::marker::Model;
use std::mem::swap;

// A set of so many names is small.
pub(crate) const FEW: u32 = 64;

// What a block holds: a name alone; names of one word a set, as the bits of that word; or a set.
#[derive(Drop)]
enum Held<const W: usize> {
    One(u32),
    Low(u64),
    Several(Box<Set<W>>),
}

/// A set of names: a name alone and a set of one word take no memory, another set is kept in a box.
#[derive(Drop)]
pub struct CompactSet<const W: usize> {
    held: Held<W>,
}

impl<const W: usize> Model for CompactSet<W> {
    ghost use Rattle.std.specs.Ordering.{nat_cmp};
    ghost use Rattle.std.specs.FinSet as set;
    ghost use Rattle.std.specs.Coded.{coded_ℕ};

    ghost Value = { set.FinSet nat_cmp };

    ghost coded = { set.code coded_ℕ };

    ghost use Rattle.std.specs.Prelude.{◌≤◌};
    ghost use Rattle.md_graph.specs.declared.TheConstants.{WORDS};
    ghost use Rattle.md_modules.specs.Blocks.{held_names, IsName};

    ghost view = { λ b. held_names W b.held };

    ghost invariant = { λ b. (W ≤ WORDS) × IsName W b.held };
}

impl<const W: usize> CompactSet<W> {
    /// A name alone. Conditions: it is below `64 * W`, and `W` at most `WORDS`.
    pub fn one(name: u32) -> CompactSet<W>
        requires name { name < 64 * W }
        requires limit { W ≤ WORDS }
        ensures value { result ≡ only_name name }
    {
        CompactSet {
            held: Held::One(name),
        }
    }

    /// An equal set. Errors: want of memory.
    #[inline(always)]
    pub fn of(alloc: Global, names: &Set<W>) -> Result<CompactSet<W>, Memory>
        ensures made { IfOk result (λ block. block ≡ names.now) }
    {
        names.within_limit();
        if let Some(held) = held_alone(names) {
            return Ok(CompactSet { held });
        }
        let held = Held::Several(Box::new(alloc, names.copy())?);
        Ok(CompactSet { held })
    }

    /// The set; it is put into `room` where it isn't in a box.
    pub fn set_in<'b>(&'b self, room: &'b mut Option<Set<W>>) -> &'b Set<W>
        ensures value { result.now ≡ self.now }
    {
        match &self.held {
            Held::One(name) => {
                let mut names = Set::none();
                names.insert(*name);
                put_in(room, names)
            }
            Held::Low(bits) => put_in(room, set_of(*bits)),
            Held::Several(names) => names,
        }
    }

    // One of the two parts of the set, in `row` and outside it, goes to the empty set `other`.
    pub(crate) fn divide(&mut self, row: &Set<W>, other: &mut Set<W>)
        requires { other.old ≡ empty }
        ensures { IsDivided self.old row.now self.new other.new }
    {
        match &mut self.held {
            Held::One(_) => (),
            Held::Low(bits) => {
                let mut names = set_of(*bits);
                move_part(&mut names, row, other);
                match names.only_member() {
                    Some(name) => self.held = Held::One(name),
                    None => *bits = word_of(&names),
                }
            }
            Held::Several(names) => {
                move_part(names, row, other);
                if let Some(name) = names.only_member() {
                    self.held = Held::One(name);
                }
            }
        }
    }

    // Whether it is kept as a name alone.
    pub(crate) fn is_name(&self) -> bool
        ensures { IsTrue result → (v : ℕ) × (self.now ≡ only_name v) }
    {
        match &self.held {
            Held::One(_) => true,
            Held::Low(_) => false,
            Held::Several(_) => false,
        }
    }

    /// The name of a block with one name; none where it has more, or none.
    pub fn alone(&self) -> Option<u32>
        ensures one { IfSome result (λ name. self.now ≡ only_name name) }
        ensures more { IfNone result (HasSome self.now → HasTwo self.now) }
    {
        match &self.held {
            Held::One(name) => Some(*name),
            Held::Low(bits) => set_of::<W>(*bits).only_member(),
            Held::Several(names) => names.only_member(),
        }
    }

    /// The least name; none exactly where there is none.
    pub fn first(&self) -> Option<u32>
        ensures found { IfSome result (IsLeastFrom self.now 0) }
        ensures none { IfNone result (NoneFrom self.now 0) }
        ensures name { IfSome result (λ least. least < NAMES) }
        ensures below { IfSome result (λ least. least < 64 * W) }
    {
        match &self.held {
            Held::One(name) => Some(*name),
            Held::Low(bits) => set_of::<W>(*bits).first_from(0),
            Held::Several(names) => names.first_from(0),
        }
    }

    /// The number of names.
    pub fn count(&self) -> u32
        ensures value { result ≡ len self.now }
    {
        match &self.held {
            Held::One(_) => 1,
            Held::Low(bits) => set_of::<W>(*bits).count(),
            Held::Several(names) => names.count(),
        }
    }

    /// Takes `name` in. Condition: it is below `64 * W`. Errors: want of memory; the set stays as
    /// it was then.
    pub fn insert(&mut self, alloc: Global, name: u32) -> Result<(), Memory>
        requires name { name < 64 * W }
        ensures taken { OnOk result (self.new ≡ insert self.old name) }
        ensures stays { OnErr result (self.new ≡ self.old) }
    {
        match &mut self.held {
            Held::One(first) => {
                let held = held_pair(alloc, *first, name)?;
                self.held = held;
            }
            Held::Low(bits) => *bits = with_name::<W>(*bits, name),
            Held::Several(names) => names.insert(name),
        }
        Ok(())
    }
}

// The names below 64 whose bits are 1.
fn set_of<const W: usize>(bits: u64) -> Set<W>
    requires some { 0 < W }
    requires limit { W ≤ WORDS }
    ensures { result ≡ block 0 bits }
{
    let mut names = Set::none();
    names.insert_block(0, bits);
    names
}

// The bits of a set of one word with one name more.
fn with_name<const W: usize>(bits: u64, name: u32) -> u64
    requires one { W ≡ 1 }
    requires limit { W ≤ WORDS }
    requires name { name < 64 * W }
    ensures { block 0 result ≡ insert (block 0 bits) name }
{
    let mut names = set_of::<W>(bits);
    names.insert(name);
    word_of(&names)
}

// The bits of a set of one word.
fn word_of<const W: usize>(names: &Set<W>) -> u64
    requires { W ≡ 1 }
    ensures { block 0 result ≡ names.now }
{
    let _members = names.members();
    names.block(0)
}

// How the set of two names, which may be the same, is kept.
fn held_pair<const W: usize>(alloc: Global, first: u32, second: u32) -> Result<Held<W>, Memory>
    requires first { first < 64 * W }
    requires second { second < 64 * W }
    requires limit { W ≤ WORDS }
    ensures names { IfOk result (λ held. held_names W held ≡ insert (only_name first) second) }
    ensures name { IfOk result (IsName W) }
{
    let mut names = Set::none();
    names.insert(first);
    names.insert(second);
    if let Some(held) = held_alone(&names) {
        return Ok(held);
    }
    Ok(Held::Several(Box::new(alloc, names)?))
}

// Puts a set into room for it.
fn put_in<const W: usize>(room: &mut Option<Set<W>>, names: Set<W>) -> &Set<W>
    ensures { result.now ≡ names.entry }
{
    *room = Some(names);
    match room {
        Some(names) => names,
        None => unreachable!(),
    }
}

// Moves one of the two parts of a set, in `row` and outside it, to the empty set `other`: of a
// large set the smaller one.
fn move_part<const W: usize>(class: &mut Set<W>, row: &Set<W>, other: &mut Set<W>)
    requires { other.old ≡ empty }
    ensures { IsDivided class.old row.now class.new other.new }
{
    class.move_unshared(row, other);
    if other.count() > FEW && other.count() > class.count() {
        swap(class, other);
    }
}

// How a set is kept without a box, if it can be.
fn held_alone<const W: usize>(names: &Set<W>) -> Option<Held<W>>
    ensures names { IfSome result (λ held. held_names W held ≡ names.now) }
    ensures name { IfSome result (IsName W) }
{
    let _members = names.members();
    if let Some(name) = names.only_member() {
        return Some(Held::One(name));
    }
    if W == 1 {
        return Some(Held::Low(word_of(names)));
    }
    None
}
