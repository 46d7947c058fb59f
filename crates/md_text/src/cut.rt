//! Cuts a text into lines, and a line into fields.
ghost use Rattle.std.specs.Prelude.{◌≡◌, ℕ, ◌+◌, ◌<◌, ◌≤◌, true, false, [], ◌∷◌, length, take, drop, slice_index, IsTrue, IfSome, IfNone};
ghost use Rattle.std.specs.List.{before_first, after_first, position_or_len};
ghost use Rattle.md_text.specs.Lines.{lines, is_feed, LacksFeed, without_return};
ghost use Rattle.md_text.specs.Fields.{fields, is_blank, IsWord};
ghost use Rattle.md_text.specs.Numbers.{BeginsWithNumber};

use crate::digits::{leading_digits, number};
use std::simd::prelude::*;

const LINE_FEED: u8 = b'\n';

const CARRIAGE_RETURN: u8 = b'\r';

// How many bytes are looked at in one step.
const LANES: usize = 16;

/// The first line of a text, without the byte 10 that ends it, and what stands behind that byte.
/// The last line may lack it. (POSIX's text lines.)
pub fn split_line(text: &[u8]) -> (&[u8], &[u8])
    requires some { 0 < length text.now }
    ensures cut { lines text.now ≡ result.0.now ∷ lines result.1.now }
    ensures before { result.0.now ≡ before_first is_feed text.now }
    ensures after { result.1.now ≡ after_first is_feed text.now }
    ensures no_feed { LacksFeed result.0.now }
    ensures shorter { length result.0.now + length result.1.now ≤ length text.now }
    ensures rest_shorter { length result.1.now < length text.now }
{
    let end = first_feed(text);
    let next = (end + 1).min(text.len());
    (&text[..end], &text[next..])
}

// The place of the first byte 10, or the length where there is none. It looks at 16 bytes at a
// time.
#[inline]
fn first_feed(text: &[u8]) -> usize
    ensures within { result ≤ length text.now }
    ensures before { (k : ℕ) → k < result → is_feed (slice_index text.now k) ≡ false }
    ensures found { result < length text.now → is_feed (slice_index text.now result) ≡ true }
{
    let mut from = 0;
    while text.len() - from >= LANES {
        let before = before_feed(text, from);
        if before < LANES {
            return from + before;
        }
        from += LANES;
    }
    first_feed_from(text, from)
}

// How many of the 16 bytes from a place on stand before the first byte 10.
#[inline(always)]
fn before_feed(text: &[u8], from: usize) -> usize
    requires { from + LANES ≤ length text.now }
    ensures { result ≡ position_or_len is_feed (take LANES (drop from text.now)) }
{
    let feeds = u8x16::from_slice(&text[from..])
        .simd_eq(u8x16::splat(LINE_FEED))
        .to_bitmask();
    if feeds == 0 {
        return LANES;
    }
    feeds.trailing_zeros() as usize
}

// The place of the first byte 10 from a place on, or the length where there is none.
fn first_feed_from(text: &[u8], from: usize) -> usize
    requires { from ≤ length text.now }
    ensures within { (from ≤ result) × (result ≤ length text.now) }
    ensures before { (k : ℕ) → from ≤ k → k < result → is_feed (slice_index text.now k) ≡ false }
    ensures found { result < length text.now → is_feed (slice_index text.now result) ≡ true }
{
    for place in from..text.len() {
        if text[place] == LINE_FEED {
            return place;
        }
    }
    text.len()
}

/// The line without the byte 13 at its end, if there is one; of two, one stays.
pub fn without_return(line: &[u8]) -> &[u8]
    ensures value { result.now ≡ without_return line.now }
{
    match line {
        [front @ .., CARRIAGE_RETURN] => front,
        _ => line,
    }
}

/// The first field of a line, and what stands behind it; none if the line has no field. A field is
/// a longest run of bytes other than space and tab.
pub fn split_field(line: &[u8]) -> Option<(&[u8], &[u8])>
    ensures field { IfSome result (λ p. fields line.now ≡ p.0.now ∷ fields p.1.now) }
    ensures none { IfNone result (fields line.now ≡ []) }
    ensures word { IfSome result (λ p. IsWord p.0.now) }
    ensures shorter { IfSome result (λ p. length p.0.now + length p.1.now ≤ length line.now) }
    ensures rest_shorter { IfSome result (λ p. length p.1.now < length line.now) }
{
    let start = first_other(line);
    if start == line.len() {
        return None;
    }
    let rest = &line[start..];
    let end = first_blank(rest);
    Some(rest.split_at(end))
}

/// The number that the first field of a line writes, if it is one, and what stands behind the
/// field; none if the line has no field. The same as `split_field` and `number`, in one pass.
pub fn split_number(line: &[u8]) -> Option<(Option<u64>, &[u8])>
    ensures number { IfSome result (λ p. BeginsWithNumber line.now p.0 p.1.now) }
    ensures none { IfNone result (fields line.now ≡ []) }
    ensures rest_shorter { IfSome result (λ p. length p.1.now < length line.now) }
{
    let start = first_other(line);
    if start == line.len() {
        return None;
    }
    let rest = &line[start..];
    let (count, value) = leading_digits(rest);
    if count > 0 && is_end(rest, count) {
        return Some((Some(value), &rest[count..]));
    }
    let (field, behind) = rest.split_at(first_blank(rest));
    Some((number(field), behind))
}

// Whether no byte of a field stands at a place.
#[inline(always)]
fn is_end(line: &[u8], place: usize) -> bool
    requires { place ≤ length line.now }
    ensures { IsTrue result → place < length line.now
        → is_blank (slice_index line.now place) ≡ true }
{
    place == line.len() || is_space_or_tab(line[place])
}

fn is_space_or_tab(byte: u8) -> bool
    ensures { result ≡ is_blank byte }
{
    byte == b' ' || byte == b'\t'
}

// The place of the first byte that is no blank, or the length where there is none.
fn first_other(line: &[u8]) -> usize
    ensures within { result ≤ length line.now }
    ensures before { (k : ℕ) → k < result → is_blank (slice_index line.now k) ≡ true }
    ensures found { result < length line.now → is_blank (slice_index line.now result) ≡ false }
{
    for (place, byte) in line.iter().enumerate() {
        if !is_space_or_tab(*byte) {
            return place;
        }
    }
    line.len()
}

// The place of the first blank, or the length where there is none.
fn first_blank(line: &[u8]) -> usize
    ensures within { result ≤ length line.now }
    ensures before { (k : ℕ) → k < result → is_blank (slice_index line.now k) ≡ false }
    ensures found { result < length line.now → is_blank (slice_index line.now result) ≡ true }
{
    for (place, byte) in line.iter().enumerate() {
        if is_space_or_tab(*byte) {
            return place;
        }
    }
    line.len()
}
