//! One graph6 line: its size, its first fault, and the graph that it spells.
ghost use Rattle.std.specs.Prelude.{◌≡◌, ◌+◌, ◌*◌, ◌^◌, ◌<◌, ◌≤◌, length, IfSome, None};
ghost use Rattle.std.specs.List.{AllPass, list_all};
ghost use Rattle.md_graph.specs.NameSet.{AllBelow};
ghost use Rattle.md_graph.specs.PlainGraph.{empty_graph};
ghost use Rattle.md_graph6.specs.Bits.{group_count, body_length};
ghost use Rattle.md_graph6.specs.Size.{size_of, eighteen_bits, is_too_long};
ghost use Rattle.md_graph6.specs.Line.{is_group, pair_count, is_set_behind, begins_other, graph6_fault, body_fault, graph_of_graph6};

use crate::body;
use crate::fault::G6Kind;
use md_graph::{GraphOf, NAMES};

// The byte that begins a size of four or of eight bytes.
pub(crate) const LONG: u8 = 126;

// The greatest size that one byte spells.
pub(crate) const MOST_IN_ONE_BYTE: u32 = 62;

// The greatest size that four bytes spell.
const MOST_IN_FOUR_BYTES: u64 = 258_047;

// The 18 bits of the three bytes from `place` on.
pub(crate) fn eighteen(line: &[u8], place: usize) -> u64
    requires groups { AllPass is_group line.now }
    requires inside { place + 2 < length line.now }
    ensures value { result ≡ eighteen_bits line.now place }
    ensures below { result < 262144 }
{
    let high = u64::from(line[place] - 63);
    let middle = u64::from(line[place + 1] - 63);
    let low = u64::from(line[place + 2] - 63);
    (high * 64 + middle) * 64 + low
}

/// How many bytes of a line spell its size, and the size; `None` where not all of them are there.
/// Conditions: there is a byte, and each is 63 with six bits added.
pub fn size(line: &[u8]) -> Option<(usize, u64)>
    requires some { 0 < length line.now }
    requires groups { AllPass is_group line.now }
    ensures value { result ≡ size_of line.now }
    ensures short { IfSome result (λ size. size.0 ≤ 8) }
{
    if line[0] != LONG {
        return Some((1, u64::from(line[0] - 63)));
    }
    if line.len() < 4 {
        return None;
    }
    if line[1] != LONG {
        return Some((4, eighteen(line, 1)));
    }
    if line.len() < 8 {
        return None;
    }
    Some((8, eighteen(line, 2) * 262_144 + eighteen(line, 5)))
}

/// Whether fewer bytes would spell the size.
pub fn is_too_long(taken: usize, n: u64) -> bool
    ensures { result ≡ is_too_long taken n }
{
    taken == 4 && n <= u64::from(MOST_IN_ONE_BYTE) || taken == 8 && n <= MOST_IN_FOUR_BYTES
}

// The number of pairs of n vertices.
fn pair_count(n: u64) -> usize
    requires { n ≤ NAMES }
    ensures value { result ≡ pair_count n }
    ensures below { result < 4294967296 }
{
    (n * n.saturating_sub(1) / 2) as usize
}

// How many bytes hold a bit for each pair of n vertices.
pub(crate) fn body_length(n: u64) -> usize
    requires { n ≤ NAMES }
    ensures { result ≡ body_length n }
{
    pair_count(n).div_ceil(6)
}

/// Whether a bit behind the first `count` is 1. Such bits stand in the last byte. Conditions: each
/// byte is 63 with six bits added, and there are as many bytes as hold so many bits.
pub fn is_set_behind(body: &[u8], count: usize) -> bool
    requires few { count < 2 ^ 32 }
    requires groups { AllPass is_group body.now }
    requires long { length body.now ≡ group_count count }
    ensures { result ≡ is_set_behind body.now count }
{
    let padding = body.len() * 6 - count;
    match body {
        [] => false,
        [.., last] => (last - 63) % (1 << padding) != 0,
    }
}

// The first fault of a line of which `taken` bytes spell the size.
fn body_fault(limit: u32, line: &[u8], taken: usize, n: u64) -> Option<G6Kind>
    requires limit { limit ≤ NAMES }
    requires groups { AllPass is_group line.now }
    requires short { taken ≤ 8 }
    ensures { result ≡ body_fault limit line.now taken n }
{
    if is_too_long(taken, n) {
        return Some(G6Kind::BadSize);
    }
    if n > u64::from(limit) {
        return Some(G6Kind::TooManyVertices);
    }
    let end = taken + body_length(n);
    if line.len() < end {
        return Some(G6Kind::Truncated);
    }
    if line.len() > end {
        return Some(G6Kind::TrailingBytes);
    }
    if is_set_behind(&line[taken..], pair_count(n)) {
        return Some(G6Kind::BadPadding);
    }
    None
}

// Whether a line with this first byte is of another format.
fn begins_other(first: u8) -> bool
    ensures { result ≡ begins_other first }
{
    first == b';' || first == b'&'
}

/// Whether each byte is 63 with six bits added: less 63, round the end of its type, it is below 64,
/// and so is what joins the bits of all.
pub fn are_groups(line: &[u8]) -> bool
    ensures { result ≡ list_all is_group line.now }
{
    let mut joined = 0;
    for byte in line {
        joined |= byte.wrapping_sub(63);
    }
    joined < 64
}

// The first fault of a graph6 line under a limit of the number of vertices.
pub(crate) fn graph6_fault(limit: u32, line: &[u8]) -> Option<G6Kind>
    requires limit { limit ≤ NAMES }
    requires some { 0 < length line.now }
    ensures { result ≡ graph6_fault limit line.now }
{
    if begins_other(line[0]) {
        return Some(G6Kind::OtherFormat);
    }
    if !are_groups(line) {
        return Some(G6Kind::BadByte);
    }
    match size(line) {
        Some((taken, n)) => body_fault(limit, line, taken, n),
        None => Some(G6Kind::Truncated),
    }
}

// Fills the graph with the one that a graph6 line spells. Conditions: the line isn't empty and has
// no fault, and the graph has no vertices, and room for those of the line.
pub(crate) fn fill_graph6<const W: usize>(graph: &mut GraphOf<W>, line: &[u8])
    requires empty { graph.old ≡ empty_graph }
    requires some { 0 < length line.now }
    requires sound { graph6_fault NAMES line.now ≡ None }
    requires room { AllBelow (graph_of_graph6 line.now).vertices (64 * W) }
    ensures { graph.new ≡ graph_of_graph6 line.now }
{
    let Some((taken, n)) = size(line) else {
        unreachable!();
    };
    body::fill(graph, n as u32, &line[taken..]);
}
