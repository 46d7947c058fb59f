//! The bits of a graph6 line, one for each pair of vertices, read into a graph: column by column
//! from a short line, 64 bits of 64 columns at once from a long one.
ghost use Rattle.std.specs.Prelude.{◌≡◌, ℕ, false, ◌+◌, ◌-◌, ◌*◌, ◌/◌, ◌%◌, ◌^◌, ◌<◌, ◌≤◌, ◌&&◌, nat_lt, length, get_or, if◌then◌else◌};
ghost use Rattle.std.specs.Int.{bit_at};
ghost use Rattle.std.specs.List.{AllPass};
ghost use Rattle.md_graph.specs.Sets.{Has};
ghost use Rattle.md_graph.specs.PlainGraph.{IsGraph, adjacent, empty_graph};
ghost use Rattle.md_graph6.specs.Bits.{bit, pair_number, IsBodyOf};
ghost use Rattle.md_graph6.specs.Line.{is_group};
ghost use Rattle.md_graph6.specs.Window.{AreGroups, IsWindow};
ghost use Rattle.md_graph6.specs.Filled.{IsBlock, IsFilled};
ghost use Rattle.md_graph6.specs.Short.{IsUnread, unread_place, IsWithColumn, IsFilledTo};

use md_graph::{GraphOf, NAMES, Set};

// Each number below 64 with its six bits turned round.
const TURNED: [u8; 64] = [
    0, 32, 16, 48, 8, 40, 24, 56, 4, 36, 20, 52, 12, 44, 28, 60, 2, 34, 18, 50, 10, 42, 26, 58, 6,
    38, 22, 54, 14, 46, 30, 62, 1, 33, 17, 49, 9, 41, 25, 57, 5, 37, 21, 53, 13, 45, 29, 61, 3, 35,
    19, 51, 11, 43, 27, 59, 7, 39, 23, 55, 15, 47, 31, 63,
];

// A line of at most so many vertices is read column by column. The bits of a column and of one
// byte more fit in a word up to 58, but from 25 on 64 bits at once take less.
const MOST_SHORT: u32 = 24;

// Six bits turned round.
#[inline]
pub(crate) fn reversed_group(group: u64) -> u8
    requires { group < 64 }
    ensures below { result < 64 }
    ensures bits { (k : ℕ) → k < 6 → bit_at result k ≡ bit_at group (5 - k) }
{
    TURNED[group as usize]
}

// The six bits of a byte, the first in the lowest place.
#[inline]
pub(crate) fn bits_of(byte: u8) -> u64
    requires low { 63 ≤ byte }
    requires high { byte < 127 }
    ensures below { result < 64 }
    ensures bits { (k : ℕ) → k < 6 → bit_at result k ≡ bit_at (byte - 63) (5 - k) }
{
    reversed_group(u64::from(byte) - 63) as u64
}

// The bits of `low`, n of them, and those of `high` behind them.
#[inline]
fn join_bits(low: u64, high: u64, n: u32) -> u64
    requires low { low < 2 ^ n }
    requires high { high < 2 ^ 12 }
    requires room { n ≤ 52 }
    ensures { result ≡ high * 2 ^ n + low }
{
    low | high << n
}

// The twelve bits of two bytes.
#[inline]
fn two_groups(body: &[u8], at: usize) -> u64
    requires groups { AreGroups body.now }
    requires inside { at + 1 < length body.now }
    ensures { IsWindow body.now (6 * at) 12 result }
{
    join_bits(bits_of(body[at]), bits_of(body[at + 1]), 6)
}

// The sixty bits of ten bytes.
#[inline]
fn ten_groups(body: &[u8], at: usize) -> u64
    requires groups { AreGroups body.now }
    requires inside { at + 9 < length body.now }
    ensures { IsWindow body.now (6 * at) 60 result }
{
    let word = join_bits(two_groups(body, at), two_groups(body, at + 2), 12);
    let word = join_bits(word, two_groups(body, at + 4), 24);
    let word = join_bits(word, two_groups(body, at + 6), 36);
    join_bits(word, two_groups(body, at + 8), 48)
}

// 64 bits of the body from bit `shift` of byte `at` on.
#[inline]
fn bits_inside(body: &[u8], at: usize, shift: u32) -> u64
    requires groups { AreGroups body.now }
    requires inside { at + 11 < length body.now }
    requires shift { shift < 6 }
    ensures { (k : ℕ) → k < 64 → bit_at result k ≡ bit body.now (6 * at + shift + k) }
{
    let first = ten_groups(body, at);
    let second = two_groups(body, at + 10);
    first >> shift | second << (60 - shift)
}

// Twelve bytes of the body from `at` on; behind its end they have no bit.
fn twelve_bytes(body: &[u8], at: usize) -> [u8; 12]
    requires groups { AreGroups body.now }
    requires place { at < 2 ^ 62 }
    ensures groups { AreGroups result }
    ensures length { length result ≡ 12 }
    ensures same { (k : ℕ) → k < 12 → get_or result k 63 ≡ get_or body.now (at + k) 63 }
{
    let mut twelve = [63; 12];
    for k in 0..12 {
        if at + k < body.len() {
            twelve[k] = body[at + k];
        }
    }
    twelve
}

/// 64 bits of the body from bit `place` on, the first in the lowest place; behind the body they
/// are 0. Condition: each byte is 63 with six bits added.
// Inlined, since a reader asks for each column of each block of a graph.
#[inline(always)]
pub fn bits_from(body: &[u8], place: usize) -> u64
    requires { AreGroups body.now }
    ensures { (k : ℕ) → k < 64 → bit_at result k ≡ bit body.now (place + k) }
{
    let at = place / 6;
    let shift = (place % 6) as u32;
    if at + 11 < body.len() {
        return bits_inside(body, at, shift);
    }
    bits_inside(&twelve_bytes(body, at), 0, shift)
}

/// The lowest `count` bits.
#[inline]
pub fn low_bits(bits: u64, count: u32) -> u64
    ensures { (k : ℕ) → k < 64 → bit_at result k ≡ (if nat_lt k count then bit_at bits k else 0) }
{
    if count < 64 {
        return bits & ((1 << count) - 1);
    }
    bits
}

// The place of the first bit of column j.
#[inline]
pub(crate) fn column_place(j: u32) -> usize
    requires { j < NAMES }
    ensures { result ≡ pair_number 0 j }
{
    j as usize * (j as usize).saturating_sub(1) / 2
}

// The bits of column j, which begins at `place`, from row `low` on, 64 at most: those of the rows
// above row j. All 64 rows are above it unless it is told that some may not be.
#[inline]
fn column_bits(body: &[u8], place: usize, j: u32, low: u32, is_cut: bool) -> u64
    requires name { j < NAMES }
    requires place { place ≡ pair_number 0 j }
    requires above { low ≤ j }
    requires whole { is_cut ≡ false → low + 64 ≤ j }
    requires groups { AreGroups body.now }
    ensures { (k : ℕ) → k < 64
        → bit_at result k
        ≡ (if nat_lt (low + k) j then bit body.now (pair_number (low + k) j) else 0) }
{
    let bits = bits_from(body, place + low as usize);
    if is_cut {
        return low_bits(bits, j - low);
    }
    bits
}

// The bits of the columns from `high` on, 64 at most and those below n, each from row `low` on.
fn block_bits(body: &[u8], n: u32, low: u32, high: u32) -> [u64; 64]
    requires few { n ≤ NAMES }
    requires inside { high < n }
    requires above { low ≤ high }
    requires groups { AreGroups body.now }
    ensures { IsBlock body.now n low high result }
{
    let mut block = [0; 64];
    let mut place = column_place(high);
    let is_cut = high - low < 64;
    for r in 0..(n - high).min(64) {
        block[r as usize] = column_bits(body, place, high + r, low, is_cut);
        place += (high + r) as usize;
    }
    block
}

// Takes in the edges whose larger end is one of the 64 numbers from 64 `h` on.
fn fill_columns<const W: usize>(graph: &mut GraphOf<W>, n: u32, body: &[u8], h: u32)
    requires few { n ≤ NAMES }
    requires room { n ≤ 64 * W }
    requires inside { 64 * h < n }
    requires groups { AreGroups body.now }
    requires before { IsFilled body.now n h 0 graph.old }
    ensures { IsFilled body.now n (h + 1) 0 graph.new }
{
    for l in 0..h + 1 {
        let block = block_bits(body, n, 64 * l, 64 * h);
        graph.add_block(64 * l, 64 * h, &block);
    }
}

/// Bits that were taken from the bytes of a body and not read yet: `held` of them, the first in the
/// lowest place. `at` is the number of the next byte.
#[derive(Clone, Copy)]
pub struct Unread {
    /// The bits.
    pub bits: u64,
    /// How many bits there are.
    pub held: u32,
    /// The number of the next byte.
    pub at: usize,
}

// The six bits of byte `at`; behind the body they are 0.
#[inline]
fn group_at(body: &[u8], at: usize) -> u64
    requires { AreGroups body.now }
    ensures { IsWindow body.now (6 * at) 6 result }
{
    if at < body.len() {
        return bits_of(body[at]);
    }
    0
}

/// The unread bits, with as many bytes more as hold `count` bits; behind the body all bits are 0.
/// Conditions: each byte is 63 with six bits added, the unread bits stand before byte `at`, which
/// is one of the first 2^32, there are fewer than 64 of them, and `count` is below 58.
#[inline]
pub fn with_bits(body: &[u8], unread: Unread, count: u32) -> Unread
    requires groups { AreGroups body.now }
    requires short { count < 58 }
    requires few { unread.at < 2 ^ 32 }
    requires room { unread.held < 64 }
    requires unread { IsUnread body.now (unread_place unread) unread.bits unread.held unread.at }
    ensures unread { IsUnread body.now (unread_place unread) result.bits result.held result.at }
    ensures enough { count ≤ result.held }
    ensures room { result.held < 64 }
{
    let mut bits = unread.bits;
    let mut held = unread.held;
    let mut at = unread.at;
    while held < count {
        bits |= group_at(body, at) << held;
        held += 6;
        at += 1;
    }
    Unread { bits, held, at }
}

/// The unread bits without the first `count`. Condition: there are so many, fewer than 58.
#[inline]
pub fn behind_bits(body: &[u8], unread: Unread, count: u32) -> Unread
    requires short { count < 58 }
    requires enough { count ≤ unread.held }
    requires unread { IsUnread body.now (unread_place unread) unread.bits unread.held unread.at }
    ensures unread { IsUnread body.now (unread_place unread + count)
        result.bits result.held result.at }
    ensures held { result.held ≡ unread.held - count }
{
    Unread {
        bits: unread.bits >> count,
        held: unread.held - count,
        at: unread.at,
    }
}

// Takes in an edge between j and each i < j for which bit i is 1.
#[inline]
fn add_column<const W: usize>(graph: &mut GraphOf<W>, j: u32, bits: u64)
    requires short { j < 58 }
    requires graph { IsGraph graph.old }
    requires ends { (v : ℕ) → v ≤ j → Has graph.old.vertices v }
    ensures { IsWithColumn graph.old j bits graph.new }
{
    let _vertices = graph.vertices();
    let mut column = Set::none();
    column.insert_block(0, low_bits(bits, j));
    graph.add_edges(j, &column);
}

// Takes in the edges of a short line, column by column.
fn fill_short<const W: usize>(graph: &mut GraphOf<W>, n: u32, body: &[u8])
    requires short { n ≤ 58 }
    requires groups { AreGroups body.now }
    requires before { IsFilledTo body.now n 0 graph.old }
    ensures { IsBodyOf body.now n graph.new }
{
    let mut unread = Unread {
        bits: 0,
        held: 0,
        at: 0,
    };
    for j in 0..n {
        unread = with_bits(body, unread, j);
        add_column(graph, j, unread.bits);
        unread = behind_bits(body, unread, j);
    }
}

// Fills the graph with the numbers below n as vertices and the edges whose bits are 1. Conditions:
// the graph has no vertices and room for n, n is at most the number of names, and each byte is from
// 63 to 126.
pub fn fill<const W: usize>(graph: &mut GraphOf<W>, n: u32, body: &[u8])
    requires empty { graph.old ≡ empty_graph }
    requires few { n ≤ NAMES }
    requires room { n ≤ 64 * W }
    requires groups { AllPass is_group body.now }
    ensures { IsBodyOf body.now n graph.new }
{
    graph.add_range(0, n);
    if n <= MOST_SHORT {
        return fill_short(graph, n, body);
    }
    for h in 0..(n + 63) / 64 {
        fill_columns(graph, n, body, h);
    }
}
