//! How trees of directed graphs are spelled, and what their nodes may be.
ghost use Rattle.std.specs.Prelude.{◌≡◌, ◌≢◌, ◌<◌, ◌↔◌, IsTrue};
ghost use Rattle.md_tree.specs.Spellings.{IsPairBeforeBy};
ghost use Rattle.md_tree.specs.Held.{MayFollow};
ghost use Rattle.md_dtree.specs.DirectedSpelling.{directed_kinds, directed_pairs, IsPairOf};

use crate::{DKind, DPair};
use md_tree::{Lettered, Paired};

impl Lettered for DKind {
    ghost use Rattle.std.proofs.Common.{rules as steps};

    ghost rules = { directed_kinds };

    ghost laws = { Prim.search steps };

    #[inline(always)]
    fn letter(self) -> u8 {
        match self {
            DKind::Parallel => b'P',
            DKind::Series => b'S',
            DKind::Order => b'O',
            DKind::Prime => b'R',
        }
    }

    #[inline(always)]
    fn of_letter(byte: u8) -> Option<DKind> {
        match byte {
            b'P' => Some(DKind::Parallel),
            b'S' => Some(DKind::Series),
            b'O' => Some(DKind::Order),
            b'R' => Some(DKind::Prime),
            _ => None,
        }
    }

    #[inline(always)]
    fn lists(self) -> bool {
        match self {
            DKind::Parallel => false,
            DKind::Series => false,
            DKind::Order => false,
            DKind::Prime => true,
        }
    }

    #[inline(always)]
    fn sorts(self) -> bool {
        match self {
            DKind::Parallel => true,
            DKind::Series => true,
            DKind::Order => false,
            DKind::Prime => true,
        }
    }

    #[inline(always)]
    fn least_count(self) -> usize {
        match self {
            DKind::Parallel => 2,
            DKind::Series => 2,
            DKind::Order => 2,
            DKind::Prime => 3,
        }
    }

    #[inline(always)]
    fn is(self, other: DKind) -> bool {
        self == other
    }
}

impl Paired for DPair {
    ghost use Rattle.std.proofs.Common.{rules as steps};

    ghost rules = { directed_pairs };

    ghost laws = { Prim.search steps };

    #[inline(always)]
    fn pair(first: u32, second: u32) -> DPair {
        DPair {
            from: first,
            to: second,
        }
    }

    #[inline(always)]
    fn first(self) -> u32 {
        self.from
    }

    #[inline(always)]
    fn second(self) -> u32 {
        self.to
    }

    #[inline(always)]
    fn between() -> u8 {
        b'>'
    }

    #[inline(always)]
    fn may_follow(self, last: DPair, count: usize) -> bool {
        is_before(last, self) && is_of_positions(self, count)
    }
}

// Whether the one pair is listed before the other.
#[inline(always)]
fn is_before(first: DPair, second: DPair) -> bool
    ensures { IsTrue result ↔ IsPairBeforeBy directed_pairs first second }
{
    first.from < second.from || first.from == second.from && first.to < second.to
}

// Whether the pair is one of different positions below the count.
#[inline(always)]
fn is_of_positions(pair: DPair, count: usize) -> bool
    ensures { IsTrue result ↔ IsPairOf count pair }
{
    pair.from != pair.to && (pair.from as usize) < count && (pair.to as usize) < count
}
