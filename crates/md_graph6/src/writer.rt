//! The text of a graph in graph6: a short line byte by byte, a long one by 64 bits of a column.
ghost use Rattle.std.specs.Prelude.{None, [], ◌∷◌, IfOk, IfSome, ◌++◌, vec_len, vec_capacity, replicate, take, drop, ◌≡◌, ℕ, ◌+◌, ◌-◌, ◌*◌, ◌/◌, ◌%◌, ◌^◌, ◌<◌, ◌≤◌, ◌==◌, ◌&&◌, ◌||◌, nat_lt, length, get_or, if◌then◌else◌};
ghost use Rattle.std.specs.Int.{bit_at};
ghost use Rattle.std.specs.FinSet as set;
ghost use Rattle.md_graph.specs.NameSet.{ascending};
ghost use Rattle.md_graph.specs.Sets.{Has};
ghost use Rattle.md_graph6.specs.Bits.{bit, pair_number, body_length};
ghost use Rattle.md_graph6.specs.Size.{size_text};
ghost use Rattle.md_text.specs.Spelling.{SpellsOnly};
ghost use Rattle.md_graph6.specs.File.{Spells, first_fault, graphs_of};
ghost use Rattle.md_graph6.specs.Window.{AreGroups, IsPut};
ghost use Rattle.md_graph6.specs.Short.{put_bit, IsUnput};
ghost use Rattle.md_graph6.specs.Written.{bit_if, nth, renumbered, AreFrom, IsWritten, IsTextOf};
ghost use Rattle.md_graph6.specs.Text.{graph6_text};

use crate::body::{bits_of, column_place, low_bits, reversed_group};
use crate::line::{MOST_IN_ONE_BYTE, body_length};
use md_graph::{GraphOf, Memory, NAMES, Set, WORDS};
use std::alloc::Global;

// A column of a line of at most so many vertices fits in a word behind the bits of a byte.
const MOST_SHORT: u32 = 58;

// The byte of six bits that are 0.
const NO_BITS: u8 = 63;

// The byte of the lowest six bits of a word, the first bit in the lowest place.
#[inline]
fn byte_of(bits: u64) -> u8
    ensures low { 63 ≤ result }
    ensures high { result < 127 }
    ensures bits { (k : ℕ) → k < 6 → bit_at (result - 63) (5 - k) ≡ bit_at bits k }
{
    NO_BITS + reversed_group(bits & 63)
}

// Sets one byte.
#[inline]
fn set_group(body: &mut [u8], at: usize, bits: u64)
    requires groups { AreGroups body.old }
    requires inside { at < length body.old }
    ensures { IsPut body.old body.new at 1 bits }
{
    body[at] = byte_of(bits);
}

// Sets two bytes.
#[inline]
fn set_two(body: &mut [u8], at: usize, bits: u64)
    requires groups { AreGroups body.old }
    requires inside { at + 1 < length body.old }
    ensures { IsPut body.old body.new at 2 bits }
{
    set_group(body, at, bits);
    set_group(body, at + 1, bits >> 6);
}

// Sets ten bytes.
#[inline]
fn set_ten(body: &mut [u8], at: usize, bits: u64)
    requires groups { AreGroups body.old }
    requires inside { at + 9 < length body.old }
    ensures { IsPut body.old body.new at 10 bits }
{
    set_two(body, at, bits);
    set_two(body, at + 2, bits >> 12);
    set_two(body, at + 4, bits >> 24);
    set_two(body, at + 6, bits >> 36);
    set_two(body, at + 8, bits >> 48);
}

// Sets twelve bytes, to the lowest sixty bits of `low` and the lowest twelve of `high`.
#[inline]
fn set_twelve(body: &mut [u8], at: usize, low: u64, high: u64)
    requires groups { AreGroups body.old }
    requires inside { at + 11 < length body.old }
    ensures { IsPut body.old body.new at 12 (high * 2 ^ 60 + low % 2 ^ 60) }
{
    set_ten(body, at, low);
    set_two(body, at + 10, high);
}

// Copies what fits of twelve bytes to the end of the body, from `at` on.
fn copy_end(body: &mut [u8], at: usize, twelve: &[u8])
    requires inside { at < length body.old }
    requires end { length body.old ≤ at + 12 }
    requires twelve { length twelve.now ≡ 12 }
    ensures before { (k : ℕ) → k < at → get_or body.new k 63 ≡ get_or body.old k 63 }
    ensures from { (k : ℕ) → at + k < length body.old
        → get_or body.new (at + k) 63 ≡ get_or twelve.now k 63 }
{
    for i in at..body.len() {
        body[i] = twelve[i - at];
    }
}

// Sets the last bytes of the body, as `set_twelve` does. Condition: bits behind its end are 0.
fn set_end(body: &mut [u8], at: usize, low: u64, high: u64)
    requires groups { AreGroups body.old }
    requires inside { at < length body.old }
    requires end { length body.old ≤ at + 12 }
    requires room { (i : ℕ) → 6 * length body.old ≤ 6 * at + i
        → bit_at (high * 2 ^ 60 + low % 2 ^ 60) i ≡ 0 }
    ensures { IsPut body.old body.new at 12 (high * 2 ^ 60 + low % 2 ^ 60) }
{
    let mut twelve = [NO_BITS; 12];
    set_twelve(&mut twelve, 0, low, high);
    copy_end(body, at, &twelve);
}

/// Puts 64 bits into a body that has none from `place` on. Condition: bits behind its end are 0.
#[inline]
pub(crate) fn put_bits(body: &mut [u8], place: usize, bits: u64)
    requires groups { AreGroups body.old }
    requires inside { place < 6 * length body.old }
    requires blank { (k : ℕ) → place ≤ k → bit body.old k ≡ 0 }
    requires room { (k : ℕ) → 6 * length body.old ≤ place + k → bit_at bits k ≡ 0 }
    ensures groups { AreGroups body.new }
    ensures bits { (k : ℕ)
        → bit body.new k ≡ (if nat_lt k place then bit body.old k else bit_at bits (k - place)) }
{
    let at = place / 6;
    let shift = (place % 6) as u32;
    let low = bits_of(body[at]) | bits << shift;
    let high = bits >> (60 - shift);
    if body.len() - at >= 12 {
        set_twelve(body, at, low, high);
        return;
    }
    set_end(body, at, low, high);
}

// Which of the 64 names from `from` on are members: bit k says it of the name `from + k`.
#[inline]
fn block_from<const W: usize>(names: &Set<W>, from: u32) -> u64
    requires limit { W ≤ WORDS }
    requires name { from < 64 * W }
    ensures { (k : ℕ) → k < 64 → from + k < 64 * W
        → set.contains names.now (from + k) ≡ (bit_at result k == 1) }
{
    let shift = from % 64;
    if shift == 0 {
        return names.block(from);
    }
    let first = from - shift;
    let low = names.block(first) >> shift;
    if 64 * W as u32 <= first + 64 {
        return low;
    }
    low | names.block(first + 64) << (64 - shift)
}

// Puts column j behind the columns before it: bit i, for i < j, says whether the name `least + i`
// is a member.
#[inline(always)]
fn put_column<const W: usize>(body: &mut [u8], j: u32, column: &Set<W>, least: u32)
    requires limit { W ≤ WORDS }
    requires names { least + j < 64 * W }
    requires groups { AreGroups body.old }
    requires room { pair_number j j ≤ 6 * length body.old }
    requires blank { (k : ℕ) → pair_number 0 j ≤ k → bit body.old k ≡ 0 }
    ensures groups { AreGroups body.new }
    ensures before { (k : ℕ) → k < pair_number 0 j → bit body.new k ≡ bit body.old k }
    ensures column { (i : ℕ) → bit body.new (pair_number i j)
        ≡ bit_if (nat_lt i j && set.contains column.now (least + i)) }
{
    let place = column_place(j);
    for w in 0..(j + 63) / 64 {
        let first = 64 * w;
        put_bits(
            body,
            place + first as usize,
            low_bits(block_from(column, least + first), j - first),
        );
    }
}

// Bits of a short line that stand in no byte yet: `held` of them, the first in the lowest place.
// `at` is the number of their byte.
#[derive(Clone, Copy)]
struct Unput {
    bits: u64,
    held: u32,
    at: usize,
}

// The unput bits, and those of column j behind them.
#[inline]
fn with_column<const W: usize>(unput: Unput, j: u32, column: &Set<W>, least: u32) -> Unput
    requires short { j < 58 }
    requires limit { W ≤ WORDS }
    requires names { least + j < 64 * W }
    requires few { unput.held < 6 }
    requires above { (k : ℕ) → unput.held ≤ k → bit_at unput.bits k ≡ 0 }
    ensures before { (k : ℕ) → k < unput.held → bit_at result.bits k ≡ bit_at unput.bits k }
    ensures column { (i : ℕ) → bit_at result.bits (unput.held + i)
        ≡ bit_if (nat_lt i j && set.contains column.now (least + i)) }
    ensures held { result.held ≡ unput.held + j }
    ensures at { result.at ≡ unput.at }
{
    let bits = low_bits(block_from(column, least), j);
    Unput {
        bits: unput.bits | bits << unput.held,
        held: unput.held + j,
        at: unput.at,
    }
}

// Puts the whole bytes of the unput bits.
#[inline]
fn put_whole(body: &mut [u8], unput: Unput) -> Unput
    requires unput { IsUnput body.old unput.bits unput.held unput.at }
    requires room { 6 * unput.at + unput.held ≤ 6 * length body.old }
    ensures unput { IsUnput body.new result.bits result.held result.at }
    ensures place { 6 * result.at + result.held ≡ 6 * unput.at + unput.held }
    ensures few { result.held < 6 }
    ensures same { (k : ℕ) → put_bit body.new result.bits result.at k
        ≡ put_bit body.old unput.bits unput.at k }
{
    let mut bits = unput.bits;
    let mut held = unput.held;
    let mut at = unput.at;
    while held >= 6 {
        set_group(body, at, bits);
        bits >>= 6;
        held -= 6;
        at += 1;
    }
    Unput { bits, held, at }
}

// Puts the unput bits, fewer than fill a byte.
fn put_rest(body: &mut [u8], unput: Unput)
    requires unput { IsUnput body.old unput.bits unput.held unput.at }
    requires room { 6 * unput.at + unput.held ≤ 6 * length body.old }
    requires few { unput.held < 6 }
    ensures groups { AreGroups body.new }
    ensures bits { (k : ℕ) → bit body.new k ≡ put_bit body.old unput.bits unput.at k }
{
    if unput.held > 0 {
        set_group(body, unput.at, unput.bits);
    }
}

// The least vertex, or 0 where there is none.
fn least_vertex<const W: usize>(graph: &GraphOf<W>) -> u32
    ensures few { result ≤ NAMES }
    ensures least { (v : ℕ) → Has graph.now.vertices v → result ≤ v }
{
    graph.next_vertex(0).unwrap_or(0)
}

// The number of vertices, and the least of them if they are consecutive numbers: where no number
// from the least to the greatest is missing.
fn shape<const W: usize>(graph: &GraphOf<W>) -> (u32, Option<u32>)
    ensures count { result.0 ≡ length (ascending graph.now.vertices) }
    ensures few { result.0 ≤ NAMES }
    ensures consecutive { IfSome result.1 (λ least. AreFrom graph.now least result.0) }
{
    let count = graph.vertices().count();
    let least = least_vertex(graph);
    let consecutive = graph.bound() == least + count;
    (count, consecutive.then_some(least))
}

// Takes i in if it is wanted.
fn insert_if<const W: usize>(column: &mut Set<W>, i: u32, wanted: bool)
    requires { i < 64 * W }
    ensures { (k : ℕ)
        → set.contains column.new k ≡ (((k == i) && wanted) || set.contains column.old k) }
{
    if wanted {
        column.insert(i);
    }
}

// Makes `column` the set of the numbers i < j for which the i-th vertex is in the row.
fn gather<const W: usize>(graph: &GraphOf<W>, row: &Set<W>, j: u32, column: &mut Set<W>)
    requires { j ≤ length (ascending graph.now.vertices) }
    ensures { (i : ℕ)
        → set.contains column.new i ≡ (nat_lt i j && set.contains row.now (nth graph.now i)) }
{
    column.clear();
    let mut i = 0;
    for u in graph.vertices().members() {
        if i == j {
            return;
        }
        insert_if(column, i, row.has(u));
        i += 1;
    }
}

// Puts the bits of a graph whose vertices are the n numbers from `least` on.
#[inline(always)]
fn put_consecutive<const W: usize>(body: &mut [u8], graph: &GraphOf<W>, n: u32, least: u32)
    requires count { n ≡ length (ascending graph.now.vertices) }
    requires consecutive { AreFrom graph.now least n }
    requires blank { IsWritten body.old graph.now 0 }
    requires room { pair_number 0 n ≤ 6 * length body.old }
    ensures { IsWritten body.new graph.now n }
{
    let _vertices = graph.vertices();
    for j in 0..n {
        put_column(body, j, graph.neighbours(least + j), least);
    }
}

// Puts the bits of a graph whose vertices are the n numbers from `least` on, n being at most 58.
fn put_few_columns<const W: usize>(body: &mut [u8], graph: &GraphOf<W>, n: u32, least: u32)
    requires short { n ≤ 58 }
    requires count { n ≡ length (ascending graph.now.vertices) }
    requires consecutive { AreFrom graph.now least n }
    requires blank { IsWritten body.old graph.now 0 }
    requires room { pair_number 0 n ≤ 6 * length body.old }
    ensures { IsWritten body.new graph.now n }
{
    let _vertices = graph.vertices();
    let mut unput = Unput {
        bits: 0,
        held: 0,
        at: 0,
    };
    for j in 0..n {
        unput = with_column(unput, j, graph.neighbours(least + j), least);
        unput = put_whole(body, unput);
    }
    put_rest(body, unput);
}

// Puts the bits of any graph, the i-th vertex taken as i.
fn put_any<const W: usize>(body: &mut [u8], graph: &GraphOf<W>)
    requires blank { IsWritten body.old graph.now 0 }
    requires room { pair_number 0 (length (ascending graph.now.vertices)) ≤ 6 * length body.old }
    ensures { IsWritten body.new graph.now (length (ascending graph.now.vertices)) }
{
    let vertices = graph.vertices();
    let mut column = Set::none();
    let mut j = 0;
    for v in vertices.members() {
        gather(graph, graph.neighbours(v), j, &mut column);
        put_column(body, j, &column, 0);
        j += 1;
    }
}

// Puts the bits of a graph of n vertices; `least` is the least of them if they are consecutive. The
// loop over long lines is compiled for 0 by itself, since no word is shifted there.
fn put_body<const W: usize>(body: &mut [u8], graph: &GraphOf<W>, n: u32, least: Option<u32>)
    requires count { n ≡ length (ascending graph.now.vertices) }
    requires consecutive { IfSome least (λ least. AreFrom graph.now least n) }
    requires blank { IsWritten body.old graph.now 0 }
    requires room { pair_number 0 n ≤ 6 * length body.old }
    ensures { IsWritten body.new graph.now n }
{
    match least {
        Some(least) if n <= MOST_SHORT => put_few_columns(body, graph, n, least),
        Some(0) => put_consecutive(body, graph, n, 0),
        Some(least) => put_consecutive(body, graph, n, least),
        None => put_any(body, graph),
    }
}

// Puts the bits of a graph of n vertices behind the size of a line; `least` is the least of them if
// they are consecutive.
fn put_behind<const W: usize>(
    line: &mut [u8],
    size: usize,
    graph: &GraphOf<W>,
    n: u32,
    least: Option<u32>,
)
    requires count { n ≡ length (ascending graph.now.vertices) }
    requires consecutive { IfSome least (λ least. AreFrom graph.now least n) }
    requires inside { size ≤ length line.old }
    requires blank { IsWritten (drop size line.old) graph.now 0 }
    requires room { pair_number 0 n ≤ 6 * (length line.old - size) }
    ensures size { take size line.new ≡ take size line.old }
    ensures body { IsWritten (drop size line.new) graph.now n }
{
    put_body(&mut line[size..], graph, n, least);
}

// How many bytes spell the size n in its shortest spelling.
fn size_length(n: u32) -> usize
    requires { n ≤ NAMES }
    ensures { result ≡ length (size_text n) }
{
    if n <= MOST_IN_ONE_BYTE { 1 } else { 4 }
}

// Puts the size n in its shortest spelling behind a text that has room for it.
fn push_size(text: &mut Vec<u8>, n: u32)
    requires few { n ≤ NAMES }
    requires room { vec_len text.old + length (size_text n) ≤ vec_capacity text.old }
    ensures items { text.new.items ≡ text.old.items ++ size_text n }
    ensures capacity { vec_capacity text.new ≡ vec_capacity text.old }
{
    if n <= MOST_IN_ONE_BYTE {
        text.push_reserved(n as u8 + NO_BITS);
        return;
    }
    text.push_reserved(126);
    text.push_reserved((n / 64 / 64 % 64) as u8 + NO_BITS);
    text.push_reserved((n / 64 % 64) as u8 + NO_BITS);
    text.push_reserved((n % 64) as u8 + NO_BITS);
}

// The line of n vertices without edges, and room for one byte more.
fn blank_line(alloc: Global, n: u32, size: usize) -> Result<Vec<u8>, Memory>
    requires few { n ≤ NAMES }
    requires size { size ≡ length (size_text n) }
    ensures items { IfOk result (λ text. text.items ≡ size_text n ++ replicate (body_length n) 63) }
    ensures room { IfOk result (λ text. vec_len text < vec_capacity text) }
{
    let end = size + body_length(u64::from(n));
    let mut text = Vec::with_capacity(alloc, end + 1)?;
    push_size(&mut text, n);
    text.resize(end, NO_BITS)?;
    Ok(text)
}

/// The graph6 line of the graph in the shortest spelling, and a line feed. The i-th vertex in
/// ascending order, counted from 0, is i. As a file the text has no fault, and spells the graph so
/// renumbered and no other. Error: want of memory. Source: B. McKay, "Description of graph6,
/// sparse6 and digraph6 encodings".
pub fn write<const W: usize>(alloc: Global, graph: &GraphOf<W>) -> Result<Vec<u8>, Memory>
    ensures bytes { IfOk result (λ text. text.items ≡ graph6_text graph.now) }
    ensures text { IfOk result (λ text. IsTextOf text.items graph.now) }
    ensures spells { IfOk result (λ text.
        SpellsOnly (Spells NAMES) text.items (renumbered graph.now ∷ [])) }
    ensures no_fault { IfOk result (λ text. first_fault NAMES text.items ≡ None) }
    ensures graphs { IfOk result (λ text. graphs_of text.items ≡ renumbered graph.now ∷ []) }
{
    let (n, least) = shape(graph);
    let size = size_length(n);
    let mut text = blank_line(alloc, n, size)?;
    put_behind(text.as_mut_slice(), size, graph, n, least);
    text.push_reserved(b'\n');
    Ok(text)
}
