//! Reads the end of a node: the pairs that it lists, and the bracket.
ghost use Rattle.std.specs.Prelude.{◌≡◌, ◌≢◌, ◌+◌, ◌<◌, ◌≤◌, ◌↔◌, ℕ, List, [], ◌∷◌, ◌++◌, true, length, take, drop, IfOk, IfSome, MatchOption, IsTrue};
ghost use Rattle.md_graph.specs.declared.TheConstants.{NAMES};
ghost use Rattle.md_text.specs.Numbers.{decimal};
ghost use Rattle.md_tree.specs.TreeTexts.{pairs_text_by};
ghost use Rattle.md_text.specs.Fronts.{LacksFirst};
ghost use Rattle.md_tree.specs.Held.{LacksEnd, IsEnd, LacksPairs, LacksPair, mark_of, AreListed, MayFollow};

use crate::Paired;
use crate::growing::append;
use md_graph::Memory;
use md_text::{skip_byte, small_number};
use std::alloc::Global;

// The pairs of a node with so many children, if its kind lists some, and what stands behind its
// bracket; none if no pairs that it may list stand there, with the bracket behind them.
pub(crate) fn read_end<'a, P: Paired>(
    alloc: Global,
    text: &'a [u8],
    lists: bool,
    count: usize,
) -> Result<Option<(Vec<P>, &'a [u8])>, Memory>
    requires { count ≤ NAMES }
    ensures { IfOk result (λ o. MatchOption o (LacksEnd P.rules lists count text.now)
        (λ p. IsEnd P.rules lists count text.now p.0.items p.1.now)) }
{
    if lists {
        return read_listing_end(alloc, text, count);
    }
    Ok(read_bracket(alloc, text))
}

// The bracket of a node without pairs.
fn read_bracket<'a, P: Paired>(alloc: Global, text: &'a [u8]) -> Option<(Vec<P>, &'a [u8])>
    ensures { MatchOption result (LacksFirst 41 text.now)
        (λ p. (p.0.items ≡ []) × (text.now ≡ 41 ∷ p.1.now)) }
{
    match skip_byte(text, b')') {
        Ok(tail) => Some((Vec::new(alloc), tail)),
        Err(_) => None,
    }
}

// The end of a node that lists pairs.
fn read_listing_end<'a, P: Paired>(
    alloc: Global,
    text: &'a [u8],
    count: usize,
) -> Result<Option<(Vec<P>, &'a [u8])>, Memory>
    requires { count ≤ NAMES }
    ensures { IfOk result (λ o. MatchOption o (LacksEnd P.rules true count text.now)
        (λ p. IsEnd P.rules true count text.now p.0.items p.1.now)) }
{
    let Ok(behind) = skip_byte(text, b';') else {
        return Ok(None);
    };
    match read_pairs(alloc, behind, count)? {
        Some((pairs, listed, tail)) => {
            if !listed {
                return Ok(None);
            }
            Ok(Some((pairs, tail)))
        }
        None => Ok(None),
    }
}

// The pairs behind a semicolon, whether a node with so many children may list them, and what stands
// behind the bracket. Not inlined, so that the loop over a tree's text stays small.
#[inline(never)]
fn read_pairs<'a, P: Paired>(
    alloc: Global,
    text: &'a [u8],
    count: usize,
) -> Result<Option<(Vec<P>, bool, &'a [u8])>, Memory>
    requires { count ≤ NAMES }
    ensures { IfOk result (λ o. MatchOption o (LacksPairs P.rules text.now)
        (λ p. (p.0.items ≢ []) × (IsTrue p.1 ↔ AreListed P.rules count p.0.items)
        × (59 ∷ text.now ≡ pairs_text_by P.rules 59 p.0.items ++ 41 ∷ p.2.now))) }
{
    let mut pairs = Vec::new(alloc);
    let mut rest = text;
    let mut last = P::pair(0, 0);
    let mut listed = true;
    loop {
        let Some((first, second, more, tail)) = read_positions::<P>(rest) else {
            return Ok(None);
        };
        let pair = P::pair(first, second);
        listed = still_listed(listed, last, pair, count);
        append(&mut pairs, pair)?;
        if !more {
            return Ok(Some((pairs, listed, tail)));
        }
        last = pair;
        rest = tail;
    }
}

// Whether pairs may be listed with one more behind the last of them.
#[inline(always)]
fn still_listed<P: Paired>(listed: bool, last: P, pair: P, count: usize) -> bool
    ensures { IsTrue result ↔ (IsTrue listed × MayFollow P.rules count last pair) }
{
    listed && pair.may_follow(last, count)
}

// The positions of a pair, whether another one follows, and what stands behind the mark that tells
// it.
#[inline(always)]
fn read_positions<'a, P: Paired>(text: &'a [u8]) -> Option<(u32, u32, bool, &'a [u8])>
    ensures { MatchOption result (LacksPair P.rules text.now)
        (λ p. text.now
        ≡ decimal p.0 ++ P.rules.between ∷ (decimal p.1 ++ mark_of p.2 ∷ p.3.now)) }
{
    let (first, between) = small_number(text)?;
    let Ok(behind) = skip_byte(between, P::between()) else {
        return None;
    };
    let (second, end) = small_number(behind)?;
    let (mark, tail) = end.split_first()?;
    if *mark == b',' {
        return Some((first, second, true, tail));
    }
    if *mark == b')' {
        return Some((first, second, false, tail));
    }
    None
}
