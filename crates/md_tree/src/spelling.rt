//! How trees are spelled, and what their nodes may be: the kinds and the pairs of trees.
ghost use Rattle.std.specs.Prelude.{◌≡◌, ◌≢◌, ◌↔◌, IsTrue, MatchOption};
ghost use Rattle.md_tree.specs.Spellings.{KindRules, PairRules, AreKindRules, ArePairRules, graph_kinds, graph_pairs};
ghost use Rattle.md_tree.specs.Held.{MayFollow};

use crate::pair_order::is_listed_behind;
use crate::{Kind, Pair};

/// The kinds of the nodes of trees: their letters, and the rules of their nodes.
pub trait Lettered: Copy + Drop {
    ghost rules: { KindRules Self };

    /// The letter of the kind.
    fn letter(self) -> u8
        ensures { result ≡ rules.letter self };

    /// The kind that has this letter.
    fn of_letter(byte: u8) -> Option<Self>
        ensures { MatchOption result ((k : Self) → rules.letter k ≢ byte)
            (λ k. rules.letter k ≡ byte) };

    /// Whether nodes of the kind list pairs.
    fn lists(self) -> bool
        ensures { result ≡ rules.lists self };

    /// Whether the children of such nodes stand in ascending order of their least names.
    fn sorts(self) -> bool
        ensures { result ≡ rules.sorts self };

    /// How many children such nodes have at least.
    fn least_count(self) -> usize
        ensures { result ≡ rules.least_count self };

    /// Whether the kinds are the same.
    fn is(self, other: Self) -> bool
        ensures { IsTrue result ↔ self ≡ other };

    ghost laws: { AreKindRules rules };
}

impl Lettered for Kind {
    ghost use Rattle.std.proofs.Common.{rules as steps};

    ghost rules = { graph_kinds };

    ghost laws = { Prim.search steps };

    #[inline(always)]
    fn letter(self) -> u8 {
        match self {
            Kind::Parallel => b'P',
            Kind::Series => b'S',
            Kind::Prime => b'R',
        }
    }

    #[inline(always)]
    fn of_letter(byte: u8) -> Option<Kind> {
        match byte {
            b'P' => Some(Kind::Parallel),
            b'S' => Some(Kind::Series),
            b'R' => Some(Kind::Prime),
            _ => None,
        }
    }

    #[inline(always)]
    fn lists(self) -> bool {
        match self {
            Kind::Parallel => false,
            Kind::Series => false,
            Kind::Prime => true,
        }
    }

    #[inline(always)]
    fn sorts(self) -> bool {
        true
    }

    #[inline(always)]
    fn least_count(self) -> usize {
        match self {
            Kind::Parallel => 2,
            Kind::Series => 2,
            Kind::Prime => 4,
        }
    }

    #[inline(always)]
    fn is(self, other: Kind) -> bool {
        self == other
    }
}

/// The pairs of children that nodes of trees list: their positions and how they are spelled, and
/// which of them may be listed.
pub trait Paired: Copy + Drop {
    ghost rules: { PairRules Self };

    /// The pair of two positions.
    fn pair(first: u32, second: u32) -> Self
        ensures { result ≡ rules.pair first second };

    /// The position that is spelled first.
    fn first(self) -> u32
        ensures { result ≡ rules.first self };

    /// The position that is spelled second.
    fn second(self) -> u32
        ensures { result ≡ rules.second self };

    /// The mark between the two.
    fn between() -> u8
        ensures { result ≡ rules.between };

    /// Whether a node with so many children may list the pair behind another one.
    fn may_follow(self, last: Self, count: usize) -> bool
        ensures { IsTrue result ↔ MayFollow rules count last self };

    ghost laws: { ArePairRules rules };
}

impl Paired for Pair {
    ghost use Rattle.std.proofs.Common.{rules as steps};

    ghost rules = { graph_pairs };

    ghost laws = { Prim.search steps };

    #[inline(always)]
    fn pair(first: u32, second: u32) -> Pair {
        Pair {
            low: first,
            high: second,
        }
    }

    #[inline(always)]
    fn first(self) -> u32 {
        self.low
    }

    #[inline(always)]
    fn second(self) -> u32 {
        self.high
    }

    #[inline(always)]
    fn between() -> u8 {
        b'-'
    }

    #[inline(always)]
    fn may_follow(self, last: Pair, count: usize) -> bool {
        is_listed_behind(last, self, count)
    }
}
