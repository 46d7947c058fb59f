//! Names in the texts of lines: pieces, each behind a space.
ghost use Rattle.std.specs.Prelude.{◌≡◌, ◌≢◌, ℕ, ◌^◌, ◌<◌, ◌≤◌, ◌↔◌, [], ◌∷◌, List, length, slice_index, IfOk, IfSome, IsTrue, MatchOption};
ghost use Rattle.std.specs.List.{All};
ghost use Rattle.md_forcing.specs.declared.arc.Arc.{Arc};
ghost use Rattle.md_text.specs.declared.digits.TheConstants.{DIGITS};
ghost use Rattle.md_text.specs.Numbers.{decimal};
ghost use Rattle.md_modules.specs.declared.induced_paths.P4.{P4};
ghost use Rattle.md_report.specs.Lines.{names_text, p4_text};
ghost use Rattle.md_report.specs.WellFormedLines.{IsVertexName, IsEditNumber, IsNamedP4, AreFour};
ghost use Rattle.md_report.specs.Cuts.{Opens, IsCutAt, IsPiece, IsItem, NoItem};

use md_forcing::{Arc, Chain};
use md_graph::{Memory, NAMES};
use md_modules::P4;
use md_script::EDITS;
use md_text::{number, skip_byte, small_number};
use std::alloc::Global;

// The bytes before the first byte of a value, and the rest, which begins with it or is empty.
pub(crate) fn split_before(text: &[u8], byte: u8) -> (&[u8], &[u8])
    ensures { IsCutAt byte text.now result.0.now result.1.now }
{
    text.split_at(first_of(text, byte))
}

// The place of the first byte of a value, or the length where there is none.
fn first_of(text: &[u8], byte: u8) -> usize
    ensures within { result ≤ length text.now }
    ensures before { (k : ℕ) → k < result → slice_index text.now k ≢ byte }
    ensures found { result < length text.now → slice_index text.now result ≡ byte }
{
    for (place, other) in text.iter().enumerate() {
        if *other == byte {
            return place;
        }
    }
    text.len()
}

/// What stands behind the space with which the text begins; none where it begins with no space.
pub fn behind_space(text: &[u8]) -> Option<&[u8]>
    ensures behind { MatchOption result ((rest : List ℕ) → text.now ≢ 32 ∷ rest)
        (λ rest. text.now ≡ 32 ∷ rest.now) }
{
    match text {
        [b' ', rest @ ..] => Some(rest),
        _ => None,
    }
}

// The piece behind the space with which the text begins, up to the next space, and the rest; none
// where it begins with no space.
pub(crate) fn split_piece(text: &[u8]) -> Option<(&[u8], &[u8])>
    ensures { MatchOption result ((rest : List ℕ) → text.now ≢ 32 ∷ rest)
        (λ p. IsPiece text.now p.0.now p.1.now) }
{
    let behind = behind_space(text)?;
    Some(split_before(behind, b' '))
}

// The number that a piece spells, if it spells one: its digits, not too many, without leading
// zeros.
fn spelled_number(piece: &[u8]) -> Option<u64>
    ensures { MatchOption result ((n : ℕ) → n < 10 ^ DIGITS → piece.now ≢ decimal n)
        (λ n. piece.now ≡ decimal n) }
{
    let value = number(piece)?;
    if has_leading_zero(piece) {
        return None;
    }
    Some(value)
}

// The name that a piece spells, if it spells one.
pub(crate) fn name(piece: &[u8]) -> Option<u32>
    ensures { MatchOption result ((v : ℕ) → IsVertexName v → piece.now ≢ decimal v)
        (λ v. IsVertexName v × (piece.now ≡ decimal v)) }
{
    let value = spelled_number(piece)?;
    if value >= u64::from(NAMES) {
        return None;
    }
    Some(value as u32)
}

fn has_leading_zero(piece: &[u8]) -> bool
    ensures { IsTrue result ↔ ((1 < length piece.now) × (slice_index piece.now 0 ≡ 48)) }
{
    piece.len() > 1 && piece[0] == b'0'
}

// The name in the first piece, and the rest behind it.
pub(crate) fn split_name(text: &[u8]) -> Option<(u32, &[u8])>
    ensures { MatchOption result (NoItem decimal IsVertexName text.now)
        (λ p. IsItem decimal IsVertexName text.now p.0 p.1.now) }
{
    if let Some(found) = quick_name(text) {
        return Some(found);
    }
    let (piece, rest) = split_piece(text)?;
    Some((name(piece)?, rest))
}

/// The number of an edit of a group in the first piece, and the rest behind it; none where the text
/// begins with no such piece.
pub fn split_number(text: &[u8]) -> Option<(u64, &[u8])>
    ensures cut { MatchOption result (NoItem decimal IsEditNumber text.now)
        (λ p. IsItem decimal IsEditNumber text.now p.0 p.1.now) }
{
    let (piece, rest) = split_piece(text)?;
    Some((edit_number(piece)?, rest))
}

// The number of an edit of a group that a piece spells, if it spells one.
fn edit_number(piece: &[u8]) -> Option<u64>
    ensures { MatchOption result ((j : ℕ) → IsEditNumber j → piece.now ≢ decimal j)
        (λ j. IsEditNumber j × (piece.now ≡ decimal j)) }
{
    let value = spelled_number(piece)?;
    if value == 0 || value > EDITS {
        return None;
    }
    Some(value)
}

// The name in the first piece, read without a look for its end. None says nothing.
#[inline(always)]
fn quick_name(text: &[u8]) -> Option<(u32, &[u8])>
    ensures { IfSome result (λ p. IsItem decimal IsVertexName text.now p.0 p.1.now) }
{
    let (name, rest) = small_number(behind_space(text)?)?;
    if name >= NAMES || !is_piece_end(rest) {
        return None;
    }
    Some((name, rest))
}

// Whether nothing is left, or a space comes.
#[inline(always)]
fn is_piece_end(rest: &[u8]) -> bool
    ensures { IsTrue result → Opens 32 rest.now }
{
    match rest.first() {
        Some(byte) => *byte == b' ',
        None => true,
    }
}

/// The names that a text spells, a space before each; none where it is no such text. Errors: want
/// of memory.
pub fn names(alloc: Global, text: &[u8]) -> Result<Option<Vec<u32>>, Memory>
    ensures read { IfOk result (λ found.
        MatchOption found ((list : List ℕ) → All IsVertexName list → text.now ≢ names_text list)
        (λ list. All IsVertexName list.items × (text.now ≡ names_text list.items))) }
{
    let mut list = Vec::new(alloc);
    let mut rest = text;
    while !rest.is_empty() {
        let Some((name, more)) = split_name(rest) else {
            return Ok(None);
        };
        list.push(name)?;
        rest = more;
    }
    Ok(Some(list))
}

// The name that a text spells, a space before it.
pub(crate) fn name_behind(text: &[u8]) -> Option<u32>
    ensures { MatchOption result ((v : ℕ) → IsVertexName v → text.now ≢ 32 ∷ decimal v)
        (λ v. IsVertexName v × (text.now ≡ 32 ∷ decimal v)) }
{
    name(behind_space(text)?)
}

// The four names that a text spells, a space before each, where they differ and the first is below
// the last; none where it is no such text.
pub(crate) fn path(alloc: Global, text: &[u8]) -> Result<Option<P4>, Memory>
    ensures { IfOk result (λ found. MatchOption found
        ((p : P4) → IsNamedP4 p → text.now ≢ p4_text p)
        (λ p. IsNamedP4 p × (text.now ≡ p4_text p))) }
{
    match names(alloc, text)? {
        Some(list) => Ok(path_of(&list)),
        None => Ok(None),
    }
}

// The four names of a list, where they differ and the first is below the last.
fn path_of(names: &[u32]) -> Option<P4>
    ensures { MatchOption result
        ((p : P4) → AreFour p → names.now ≢ p.a ∷ p.b ∷ p.c ∷ p.d ∷ [])
        (λ p. AreFour p × (names.now ≡ p.a ∷ p.b ∷ p.c ∷ p.d ∷ [])) }
{
    if names.len() != 4 {
        return None;
    }
    let p = P4 {
        a: names[0],
        b: names[1],
        c: names[2],
        d: names[3],
    };
    if are_four(&p) {
        return Some(p);
    }
    None
}

// Whether the four names differ, and the first is below the last.
fn are_four(p: &P4) -> bool
    ensures { IsTrue result ↔ AreFour p.now }
{
    (p.a != p.b && (p.a != p.c && p.a < p.d)) && (p.b != p.c && (p.b != p.d && p.c != p.d))
}
