//! sparse6 lines: what stands behind their `:`, a size and the edges as pairs of a bit and an end.
ghost use Rattle.std.specs.Prelude.{◌≡◌, ℕ, suc, ◌+◌, ◌*◌, ◌/◌, ◌%◌, ◌^◌, ◌<◌, ◌≤◌, ◌==◌, ◌&&◌, min, max, nat_lt, nat_le, length, None};
ghost use Rattle.std.specs.List.{AllPass};
ghost use Rattle.md_graph.specs.NameSet.{AllBelow};
ghost use Rattle.md_graph.specs.Sets.{Has};
ghost use Rattle.md_graph.specs.PlainGraph.{IsGraph, empty_graph};
ghost use Rattle.md_graph6.specs.Window.{AreGroups};
ghost use Rattle.md_graph6.specs.Line.{is_group};
ghost use Rattle.md_graph6.specs.Sparse.{width, spelt_number, has_loop, graph_of_pairs};
ghost use Rattle.md_graph6.specs.Pairs.{HasPairEdges, IsWithPair};
ghost use Rattle.md_graph6.specs.SparseLine.{sparse_fault, pairs_fault, graph_of_sparse};

use crate::fault::G6Kind;
use crate::line::{are_groups, is_too_long, size};
use md_graph::{GraphOf, NAMES};

// A place among the pairs of a body: the next pair begins with bit `shift` of byte `at`, the high
// one being bit 0. The vertex that the pairs before it have reached is `reached`, or the number of
// vertices where it is no vertex.
#[derive(Clone, Copy)]
struct Place {
    at: usize,
    shift: u32,
    reached: u32,
}

// A pair: the vertex that it stands at, and the other end.
#[derive(Clone, Copy)]
struct Pair {
    vertex: u32,
    other: u32,
}

// How many bits spell an end of an edge in a line of n vertices.
#[inline]
fn width(n: u32) -> u32
    requires few { n ≤ NAMES }
    requires some { 1 < n }
    ensures value { result ≡ width n }
    ensures small { result ≤ 16 }
{
    32 - (n - 1).leading_zeros()
}

// The six bits of byte `at`.
#[inline]
fn group_in(body: &[u8], at: usize) -> u32
    requires groups { AreGroups body.now }
    requires inside { at < length body.now }
    ensures value { result ≡ spelt_number body.now (6 * at) 6 }
    ensures below { result < 64 }
{
    u32::from(body[at]) - 63
}

// The six bits of byte `at`; behind the body they are 0.
fn group_at(body: &[u8], at: usize) -> u32
    requires { AreGroups body.now }
    ensures value { result ≡ spelt_number body.now (6 * at) 6 }
    ensures below { result < 64 }
{
    if at < body.len() {
        return group_in(body, at);
    }
    0
}

// The number of four groups of six bits.
#[inline]
fn join_groups(first: u32, second: u32, third: u32, fourth: u32) -> u32
    requires first { first < 64 }
    requires second { second < 64 }
    requires third { third < 64 }
    requires fourth { fourth < 64 }
    ensures value { result ≡ (first * 64 + second) * 4096 + (third * 64 + fourth) }
    ensures below { result < 16777216 }
{
    (first * 64 + second) * 4096 + (third * 64 + fourth)
}

// The 24 bits of the last bytes of a body from `at` on, and zeros behind them.
fn last_word(body: &[u8], at: usize) -> u32
    requires groups { AreGroups body.now }
    requires inside { at ≤ length body.now }
    ensures value { result ≡ spelt_number body.now (6 * at) 24 }
    ensures below { result < 16777216 }
{
    let (first, second) = (group_at(body, at), group_at(body, at + 1));
    let (third, fourth) = (group_at(body, at + 2), group_at(body, at + 3));
    join_groups(first, second, third, fourth)
}

// The 24 bits of four bytes from `at` on; behind the body they are 0.
#[inline]
fn word_at(body: &[u8], at: usize) -> u32
    requires groups { AreGroups body.now }
    requires inside { at ≤ length body.now }
    ensures value { result ≡ spelt_number body.now (6 * at) 24 }
    ensures below { result < 16777216 }
{
    if body.len() - at < 4 {
        return last_word(body, at);
    }
    let (first, second) = (group_in(body, at), group_in(body, at + 1));
    let (third, fourth) = (group_in(body, at + 2), group_in(body, at + 3));
    join_groups(first, second, third, fourth)
}

// The lowest `count` bits of a number.
#[inline]
fn low_part(number: u32, count: u32) -> u32
    requires { count ≤ 24 }
    ensures { result ≡ number % 2 ^ count }
{
    number & ((1 << count) - 1)
}

// The number that `count` bits from bit `shift` of byte `at` on spell.
#[inline]
fn spelt_number(body: &[u8], at: usize, shift: u32, count: u32) -> u32
    requires groups { AreGroups body.now }
    requires inside { at ≤ length body.now }
    requires few { shift + count ≤ 24 }
    ensures { result ≡ spelt_number body.now (6 * at + shift) count }
{
    low_part(word_at(body, at) >> (24 - shift - count), count)
}

// Whether all bits of the next pair stand in the body.
#[inline]
fn is_pair_left(body: &[u8], digits: u32, place: Place) -> bool
    requires inside { place.at ≤ length body.now }
    requires few { digits ≤ 16 }
    requires shift { place.shift < 6 }
    ensures { result ≡ nat_le (6 * place.at + place.shift + (digits + 1)) (6 * length body.now) }
{
    let left = (body.len() - place.at).min(4) as u32;
    place.shift + digits + 1 <= 6 * left
}

// The pair at a place.
#[inline]
fn pair_at(body: &[u8], digits: u32, place: Place) -> Pair
    requires groups { AreGroups body.now }
    requires inside { place.at ≤ length body.now }
    requires few { digits ≤ 16 }
    requires shift { place.shift < 6 }
    requires reached { place.reached ≤ NAMES }
    ensures vertex { result.vertex ≡ place.reached
        + spelt_number body.now (6 * place.at + place.shift) (digits + 1) / 2 ^ digits }
    ensures other { result.other
        ≡ spelt_number body.now (6 * place.at + place.shift) (digits + 1) % 2 ^ digits }
    ensures near { result.vertex ≤ NAMES + 1 }
{
    let number = spelt_number(body, place.at, place.shift, digits + 1);
    Pair {
        vertex: place.reached + (number >> digits),
        other: low_part(number, digits),
    }
}

// The place behind a pair.
#[inline]
fn behind_pair(n: u32, digits: u32, place: Place, pair: Pair) -> Place
    requires few { digits ≤ 16 }
    requires shift { place.shift < 6 }
    requires inside { place.at < 2 ^ 63 }
    ensures shift { result.shift < 6 }
    ensures place { 6 * result.at + result.shift ≡ 6 * place.at + place.shift + (digits + 1) }
    ensures reached { result.reached ≡ min (max pair.vertex pair.other) n }
{
    let bits = place.shift + digits + 1;
    Place {
        at: place.at + (bits / 6) as usize,
        shift: bits % 6,
        reached: pair.vertex.max(pair.other).min(n),
    }
}

// The place of the first pair.
fn first_place() -> Place
    ensures at { result.at ≡ 0 }
    ensures shift { result.shift ≡ 0 }
    ensures reached { result.reached ≡ 0 }
{
    Place {
        at: 0,
        shift: 0,
        reached: 0,
    }
}

// Whether a pair has equal ends that are below n.
#[inline]
fn is_loop(n: u32, pair: Pair) -> bool
    ensures { result ≡ ((pair.other == pair.vertex) && nat_lt pair.vertex n) }
{
    pair.other == pair.vertex && pair.vertex < n
}

// Whether an edge that isn't left out has equal ends.
fn has_loop(body: &[u8], n: u32) -> bool
    requires few { n ≤ NAMES }
    requires groups { AreGroups body.now }
    ensures { result ≡ has_loop body.now n }
{
    if n < 2 {
        return false;
    }
    let digits = width(n);
    let mut place = first_place();
    while is_pair_left(body, digits, place) {
        let pair = pair_at(body, digits, place);
        if is_loop(n, pair) {
            return true;
        }
        place = behind_pair(n, digits, place, pair);
    }
    false
}

// Takes in the edge of a pair, if it is one of two vertices and isn't there yet.
#[inline]
fn add_pair<const W: usize>(graph: &mut GraphOf<W>, n: u32, pair: Pair)
    requires graph { IsGraph graph.old }
    requires ends { (v : ℕ) → v < n → Has graph.old.vertices v }
    ensures { IsWithPair graph.old n pair.other pair.vertex graph.new }
{
    let _vertices = graph.vertices();
    if pair.other >= pair.vertex || pair.vertex >= n {
        return;
    }
    if graph.has_edge(pair.other, pair.vertex) {
        return;
    }
    graph.add_edge(pair.other, pair.vertex);
}

// Takes in the edges of the pairs.
fn add_pairs<const W: usize>(graph: &mut GraphOf<W>, n: u32, body: &[u8])
    requires few { n ≤ NAMES }
    requires some { 1 < n }
    requires groups { AreGroups body.now }
    requires before { HasPairEdges body.now (width n) n 0 graph.old }
    ensures { HasPairEdges body.now (width n) n (6 * length body.now) graph.new }
{
    let digits = width(n);
    let mut place = first_place();
    while is_pair_left(body, digits, place) {
        let pair = pair_at(body, digits, place);
        add_pair(graph, n, pair);
        place = behind_pair(n, digits, place, pair);
    }
}

// Fills the graph with the one that is spelt behind the `:` of a line. Conditions: there is no
// fault, and the graph has no vertices, and room for those that are spelt.
pub(crate) fn fill_sparse<const W: usize>(graph: &mut GraphOf<W>, rest: &[u8])
    requires empty { graph.old ≡ empty_graph }
    requires sound { sparse_fault NAMES rest.now ≡ None }
    requires room { AllBelow (graph_of_sparse rest.now).vertices (64 * W) }
    ensures { graph.new ≡ graph_of_sparse rest.now }
{
    let Some((taken, n)) = size(rest) else {
        unreachable!();
    };
    fill_pairs(graph, n as u32, &rest[taken..]);
}

// Fills the graph with the numbers below n as vertices and the edges of the pairs. Conditions: the
// graph has no vertices and room for n, n is at most the number of names, and each byte is from 63
// to 126.
fn fill_pairs<const W: usize>(graph: &mut GraphOf<W>, n: u32, body: &[u8])
    requires empty { graph.old ≡ empty_graph }
    requires few { n ≤ NAMES }
    requires room { n ≤ 64 * W }
    requires groups { AllPass is_group body.now }
    ensures { graph.new ≡ graph_of_pairs body.now n }
{
    graph.add_range(0, n);
    if n > 1 {
        add_pairs(graph, n, body);
    }
}

// The first fault of what stands behind the `:` of a line.
pub(crate) fn sparse_fault(limit: u32, rest: &[u8]) -> Option<G6Kind>
    requires { limit ≤ NAMES }
    ensures { result ≡ sparse_fault limit rest.now }
{
    if rest.is_empty() {
        return Some(G6Kind::Truncated);
    }
    if !are_groups(rest) {
        return Some(G6Kind::BadByte);
    }
    match size(rest) {
        Some((taken, n)) => pairs_fault(limit, rest, taken, n),
        None => Some(G6Kind::Truncated),
    }
}

// The same, where `taken` bytes spell the size.
fn pairs_fault(limit: u32, rest: &[u8], taken: usize, n: u64) -> Option<G6Kind>
    requires limit { limit ≤ NAMES }
    requires groups { AllPass is_group rest.now }
    requires inside { taken ≤ length rest.now }
    ensures { result ≡ pairs_fault limit rest.now taken n }
{
    if is_too_long(taken, n) {
        return Some(G6Kind::BadSize);
    }
    if n > u64::from(limit) {
        return Some(G6Kind::TooManyVertices);
    }
    if has_loop(&rest[taken..], n as u32) {
        return Some(G6Kind::Loop);
    }
    None
}
