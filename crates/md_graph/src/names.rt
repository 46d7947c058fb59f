//! Sets of names.
ghost use Rattle.std.specs.Prelude.{◌≡◌, ℕ, ◌+◌, ◌*◌, ◌%◌, ◌<◌, ◌≤◌, ◌↔◌, IsTrue, IfSome, IfNone, All, ◌==◌};
ghost use Rattle.std.specs.Int.{bit_at};
ghost use Rattle.std.specs.FinSet as set;
ghost use Rattle.md_graph.specs.Sets.{Has, HasSome, HasTwo, Within, only_name};
ghost use Rattle.md_graph.specs.NameSet.{IsLeastFrom, IsGreatest, NoneFrom, AllBelow, ascending, ascending_from, block, range, symmetric_difference};

use crate::members::Members;
use crate::words::{
    are_all_zero, are_apart_as_known, are_equal, are_within, become_both, become_either,
    become_first_alone, bits_of_range, count_bits, first_apart, first_place, flip_bits, from_place,
    join_in, keep_alone, last_place, move_alone, move_apart, move_both, no_words, used_if, wipe,
};
use crate::{NAMES, WORDS};
use std::marker::Model;

/// A set of names below `64 * W`, kept in place as one bit a name in `W` words. No call on it takes
/// memory. Sets of fewer words are for graphs of fewer vertices: their value is a finite set
/// whatever `W`, which is at most `WORDS`.
///
/// The first `used` words hold all members: the words behind them are 0. Only `none`, `copy`,
/// `and`, `or` and `minus`, which make a set, write those too.
#[derive(Drop)]
pub struct Set<const W: usize> {
    words: [u64; W],
    used: usize,
}

/// A set of names below `NAMES`.
pub type Names = Set<WORDS>;

impl<const W: usize> Model for Set<W> {
    ghost use Rattle.std.specs.Prelude.{ℕ, ◌≡◌, ◌≤◌, ◌*◌, get_or};
    ghost use Rattle.std.specs.Ordering.{nat_cmp};
    ghost use Rattle.std.specs.FinSet as set;
    ghost use Rattle.std.specs.Coded.{coded_ℕ};

    ghost Value = { set.FinSet nat_cmp };

    ghost coded = { set.code coded_ℕ };

    ghost use Rattle.md_graph.specs.Words.{names_below};
    ghost use Rattle.md_graph.specs.declared.TheConstants.{WORDS};

    ghost view = { λ s. names_below s.words (64 * W) };

    ghost invariant = { λ s. (s.used ≤ W) × ((k : ℕ) → s.used ≤ k → get_or s.words k 0 ≡ 0)
        × (W ≤ WORDS) };
}

impl<const W: usize> Set<W> {
    /// The empty set. Condition: `W` is at most `WORDS`.
    pub fn none() -> Set<W>
        requires limit { W ≤ WORDS }
        ensures value { result ≡ set.empty }
    {
        Set {
            words: no_words(),
            used: 0,
        }
    }

    /// The set of the names of a list. Conditions: they are below `64 * W`, and `W` is at most
    /// `WORDS`.
    pub fn from_list(list: &[u32]) -> Set<W>
        requires names { All (λ v. v < 64 * W) list.now }
        requires limit { W ≤ WORDS }
        ensures members { result ≡ set.from_list list.now }
    {
        let mut names = Set::none();
        for v in list {
            names.insert(*v);
        }
        names
    }

    /// What holds of every set, and costs nothing to say: it has at most `WORDS` words.
    pub fn within_limit(&self)
        ensures limit { W ≤ WORDS }
    {
        let _used = self.used;
    }

    /// An equal set.
    pub fn copy(&self) -> Set<W>
        ensures value { result ≡ self.now }
    {
        Set {
            words: self.words,
            used: self.used,
        }
    }

    /// Takes `v` in. Condition: it is a name below `64 * W`.
    pub fn insert(&mut self, v: u32)
        requires name { v < 64 * W }
        ensures changed { self.new ≡ set.insert self.old v }
    {
        let word = v as usize / 64;
        self.words[word] |= 1 << (v % 64);
        if self.used <= word {
            self.used = word + 1;
        }
    }

    /// Takes in the `count` names from `from` on, 64 at once. Condition: all are names below
    /// `64 * W`.
    pub fn insert_range(&mut self, from: u32, count: u32)
        requires names { from + count ≤ 64 * W }
        ensures changed { self.new ≡ set.union self.old (range from count) }
    {
        self.within_limit();
        let to = from + count;
        for at in from / 64..to.div_ceil(64) {
            self.insert_block(64 * at, bits_of_range(64 * at, from, to));
        }
    }

    /// Leaves `v` out. Condition: it is a name below `64 * W`.
    pub fn remove(&mut self, v: u32)
        requires name { v < 64 * W }
        ensures changed { self.new ≡ set.remove self.old v }
    {
        self.words[v as usize / 64] &= !(1 << (v % 64));
    }

    /// All members go. It passes over the words in use.
    pub fn clear(&mut self)
        ensures changed { self.new ≡ set.empty }
    {
        wipe(&mut self.words, words_passed::<W>(self.used));
        self.used = 0;
    }

    /// Takes in the members of `other`. It passes over the words that `other` uses.
    pub fn union_with(&mut self, other: &Set<W>)
        ensures changed { self.new ≡ set.union self.old other.now }
    {
        let used = words_passed::<W>(other.used);
        join_in(&mut self.words, &other.words, used);
        self.used = self.used.max(used);
    }

    /// Takes in the members of `other` that it doesn't have, and leaves out those that it has. It
    /// passes over the words that `other` uses.
    pub fn symmetric_difference_with(&mut self, other: &Set<W>)
        ensures changed { self.new ≡ symmetric_difference self.old other.now }
    {
        let used = words_passed::<W>(other.used);
        flip_bits(&mut self.words, &other.words, used);
        self.used = self.used.max(used);
    }

    /// Moves the members that `row` has to `to`. It passes over the words in use.
    pub fn move_shared(&mut self, row: &Set<W>, to: &mut Set<W>)
        ensures rest { self.new ≡ set.difference self.old row.now }
        ensures moved { to.new ≡ set.union to.old (set.intersection self.old row.now) }
    {
        let used = words_passed::<W>(self.used);
        move_both(&mut self.words, &row.words, &mut to.words, used);
        to.used = to.used.max(used);
    }

    /// Moves the members that `row` lacks to `to`. It passes over the words in use.
    pub fn move_unshared(&mut self, row: &Set<W>, to: &mut Set<W>)
        ensures rest { self.new ≡ set.intersection self.old row.now }
        ensures moved { to.new ≡ set.union to.old (set.difference self.old row.now) }
    {
        let used = words_passed::<W>(self.used);
        move_alone(&mut self.words, &row.words, &mut to.words, used);
        to.used = to.used.max(used);
    }

    /// Moves the members that exactly one of `first` and `second` has to `to`. It passes over the
    /// words in use.
    pub fn move_symmetric_difference(&mut self, first: &Set<W>, second: &Set<W>, to: &mut Set<W>)
        ensures rest { self.new
            ≡ set.difference self.old (symmetric_difference first.now second.now) }
        ensures moved { to.new ≡ set.union to.old
            (set.intersection self.old (symmetric_difference first.now second.now)) }
    {
        let used = words_passed::<W>(self.used);
        move_apart(
            &mut self.words,
            &first.words,
            &second.words,
            &mut to.words,
            used,
        );
        to.used = to.used.max(used);
    }

    /// The least member that exactly one of `first` and `second` has; `None` exactly where there is
    /// none.
    pub fn first_in_symmetric_difference(&self, first: &Set<W>, second: &Set<W>) -> Option<u32>
        ensures found { IfSome result (IsLeastFrom
            (set.intersection self.now (symmetric_difference first.now second.now)) 0) }
        ensures none { IfNone result (NoneFrom
            (set.intersection self.now (symmetric_difference first.now second.now)) 0) }
        ensures name { IfSome result (λ least. least < NAMES) }
        ensures below { IfSome result (λ least. least < 64 * W) }
    {
        first_apart(
            &self.words,
            &first.words,
            &second.words,
            words_passed::<W>(self.used),
        )
    }

    /// Becomes the members of `of` that neither `first` nor `second` has. It passes over the words
    /// in use of both.
    pub fn set_to_difference(&mut self, of: &Set<W>, first: &Set<W>, second: &Set<W>)
        ensures changed { self.new ≡ set.difference of.now (set.union first.now second.now) }
    {
        wipe(&mut self.words, self.used);
        let any = keep_alone(
            &mut self.words,
            &of.words,
            &first.words,
            &second.words,
            of.used,
        );
        self.used = used_if(any, of.used);
    }

    /// Whether `v`, any number, is a member.
    pub fn has(&self, v: u32) -> bool
        ensures value { result ≡ set.contains self.now v }
    {
        let word = v as usize / 64;
        word < W && (self.words[word] >> (v % 64)) & 1 == 1
    }

    /// The members of both.
    pub fn and(&self, other: &Set<W>) -> Set<W>
        ensures value { result ≡ set.intersection self.now other.now }
    {
        let used = words_passed::<W>(self.used).min(words_passed::<W>(other.used));
        let mut words = no_words();
        become_both(&mut words, &self.words, &other.words, used);
        Set { words, used }
    }

    /// The members of either.
    pub fn or(&self, other: &Set<W>) -> Set<W>
        ensures value { result ≡ set.union self.now other.now }
    {
        let used = words_passed::<W>(self.used).max(words_passed::<W>(other.used));
        let mut words = no_words();
        become_either(&mut words, &self.words, &other.words, used);
        Set { words, used }
    }

    /// The members that `other` doesn't have.
    pub fn minus(&self, other: &Set<W>) -> Set<W>
        ensures value { result ≡ set.difference self.now other.now }
    {
        let used = words_passed::<W>(self.used);
        let mut words = no_words();
        become_first_alone(&mut words, &self.words, &other.words, used);
        Set { words, used }
    }

    /// The least member at or above `v`, any number; `None` exactly where there is none.
    pub fn first_from(&self, v: u32) -> Option<u32>
        ensures found { IfSome result (IsLeastFrom self.now v) }
        ensures none { IfNone result (NoneFrom self.now v) }
        ensures name { IfSome result (λ least. least < NAMES) }
        ensures below { IfSome result (λ least. least < 64 * W) }
    {
        first_place(&self.words, v, words_passed::<W>(self.used))
    }

    /// The greatest member; `None` exactly where there is none.
    pub fn last(&self) -> Option<u32>
        ensures found { IfSome result (IsGreatest self.now) }
        ensures none { IfNone result (NoneFrom self.now 0) }
        ensures name { IfSome result (λ greatest. greatest < NAMES) }
        ensures below { IfSome result (λ greatest. greatest < 64 * W) }
    {
        last_place(&self.words, words_passed::<W>(self.used))
    }

    /// The member of a set with one member; `None` where it has more, or none.
    pub fn only_member(&self) -> Option<u32>
        ensures one { IfSome result (λ v. self.now ≡ only_name v) }
        ensures more { IfNone result (HasSome self.now → HasTwo self.now) }
        ensures name { IfSome result (λ v. v < NAMES) }
        ensures below { IfSome result (λ v. v < 64 * W) }
    {
        let first = self.first_from(0)?;
        if !is_last(self, first) {
            return None;
        }
        Some(first)
    }

    /// The number of members.
    pub fn count(&self) -> u32
        ensures value { result ≡ set.len self.now }
    {
        count_bits(&self.words, words_passed::<W>(self.used))
    }

    /// Whether no name is a member.
    pub fn is_empty(&self) -> bool
        ensures exactly { IsTrue result ↔ (self.now ≡ set.empty) }
    {
        are_all_zero(&self.words, words_passed::<W>(self.used))
    }

    /// Whether `other` has the same members.
    pub fn is_same(&self, other: &Set<W>) -> bool
        ensures exactly { IsTrue result ↔ (self.now ≡ other.now) }
    {
        let used = words_passed::<W>(self.used).max(words_passed::<W>(other.used));
        are_equal(&self.words, &other.words, used)
    }

    /// Whether `other` has each member.
    pub fn is_subset(&self, other: &Set<W>) -> bool
        ensures exactly { IsTrue result ↔ Within self.now other.now }
    {
        are_within(&self.words, &other.words, words_passed::<W>(self.used))
    }

    /// Whether each member is in `other` or in `known`, and each of `other` here or in
    /// `other_known`. It passes over the words in use of both.
    pub fn is_apart_as_known(&self, known: &Set<W>, other: &Set<W>, other_known: &Set<W>) -> bool
        ensures exactly { IsTrue result ↔ (Within self.now (set.union other.now known.now)
            × Within other.now (set.union self.now other_known.now)) }
    {
        are_apart_as_known(
            &self.words,
            &known.words,
            &other.words,
            &other_known.words,
            words_passed::<W>(self.used).max(words_passed::<W>(other.used)),
        )
    }

    /// Whether `other` has the same ones of these names.
    pub fn agrees_on(&self, names: &Set<W>, other: &Set<W>) -> bool
        ensures exactly { IsTrue result ↔ ((v : ℕ) → Has names.now v
            → set.contains self.now v ≡ set.contains other.now v) }
    {
        names.first_in_symmetric_difference(self, other).is_none()
    }

    /// The members, ascending.
    pub fn members(&self) -> Members<'_>
        ensures list { result ≡ ascending self.now }
        ensures names { AllBelow self.now NAMES }
        ensures below { AllBelow self.now (64 * W) }
    {
        self.members_from(0)
    }

    /// The members at or above `v`, any number, ascending.
    pub fn members_from(&self, v: u32) -> Members<'_>
        ensures list { result ≡ ascending_from self.now v }
        ensures names { AllBelow self.now NAMES }
        ensures below { AllBelow self.now (64 * W) }
    {
        let at = v as usize / 64;
        let used = words_passed::<W>(self.used);
        if used <= at {
            return Members {
                words: &self.words,
                used,
                first: 64 * used as u32,
                left: 0,
            };
        }
        Members {
            words: &self.words,
            used,
            first: v / 64 * 64,
            left: from_place(self.words[at], v % 64),
        }
    }

    /// Takes in each name `first + k` for which bit k of `bits` is 1: 64 names at once. For
    /// readers. Condition: `first` is a name below `64 * W` and a multiple of 64.
    pub fn insert_block(&mut self, first: u32, bits: u64)
        requires name { first < 64 * W }
        requires aligned { first % 64 ≡ 0 }
        ensures changed { self.new ≡ set.union self.old (block first bits) }
    {
        let block = first as usize / 64;
        self.words[block] |= bits;
        if self.used <= block {
            self.used = block + 1;
        }
    }

    /// Which of the names `first + k`, k below 64, are members: bit k of the answer is 1 exactly
    /// for these. For writers. Condition: `first` is a name below `64 * W` and a multiple of 64.
    pub fn block(&self, first: u32) -> u64
        requires name { first < 64 * W }
        requires aligned { first % 64 ≡ 0 }
        ensures bits { (k : ℕ) → k < 64
            → set.contains self.now (first + k) ≡ (bit_at result k == 1) }
    {
        self.words[first as usize / 64]
    }
}

// How many words are passed over where so many are in use: a word that is alone always is, so that
// the operations on it are no loops.
#[inline(always)]
fn words_passed<const W: usize>(used: usize) -> usize
    requires { used ≤ W }
    ensures few { result ≤ W }
    ensures all { used ≤ result }
{
    if W == 1 { 1 } else { used }
}

// Whether no member is above `v`. A large set mostly has the next name; the last member of a small
// one is looked for from the end.
#[inline]
fn is_last<const W: usize>(set: &Set<W>, v: u32) -> bool
    requires { v < NAMES }
    ensures last { IsTrue result → AllBelow set.now (v + 1) }
    ensures more { ¬ IsTrue result → (w : ℕ) × Has set.now w × (v < w) }
{
    if W > 1 && set.has(v + 1) {
        return false;
    }
    match set.last() {
        Some(last) => last <= v,
        None => true,
    }
}
