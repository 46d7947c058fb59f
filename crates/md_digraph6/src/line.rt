//! One digraph6 line: its first fault, and the directed graph that it spells.
ghost use Rattle.std.specs.Prelude.{◌≡◌, ◌*◌, ◌<◌, ◌≤◌, ◌==◌, length, None};
ghost use Rattle.std.specs.List.{AllPass};
ghost use Rattle.md_graph.specs.NameSet.{AllBelow};
ghost use Rattle.md_digraph.specs.PlainDigraph.{empty_digraph};
ghost use Rattle.md_graph6.specs.Bits.{bit, group_count};
ghost use Rattle.md_graph6.specs.Line.{is_group};
ghost use Rattle.md_digraph6.specs.ArcLine.{some_loop, bits_fault, arc_body_fault, arc_rest_fault, arc_line_fault, digraph_of_line};

use crate::body;
use md_digraph::{DIRECTED_NAMES, DigraphOf};
use md_graph6::G6Kind;
use md_graph6::parts::{are_groups, is_set_behind, is_too_long, size};

// The byte that begins a line.
const ARCS: u8 = b'&';

// Whether a bit is 1.
fn is_set(body: &[u8], place: usize) -> bool
    requires { AllPass is_group body.now }
    ensures { result ≡ (bit body.now place == 1) }
{
    let at = place / 6;
    at < body.len() && ((body[at] - 63) >> (5 - place % 6)) % 2 == 1
}

// Whether the bit of a vertex with itself is 1.
fn has_loop(body: &[u8], n: usize) -> bool
    requires few { n ≤ DIRECTED_NAMES }
    requires groups { AllPass is_group body.now }
    ensures { result ≡ some_loop body.now n n }
{
    for i in 0..n {
        if is_set(body, i * n + i) {
            return true;
        }
    }
    false
}

// How many bytes hold a bit for each ordered pair of n vertices.
fn arc_body_length(n: usize) -> usize
    requires { n ≤ DIRECTED_NAMES }
    ensures { result ≡ group_count (n * n) }
{
    (n * n).div_ceil(6)
}

// The first fault of the bytes behind the `&` of a line, of which `taken` spell the size.
fn arc_body_fault(rest: &[u8], taken: usize, n: u64) -> Option<G6Kind>
    requires groups { AllPass is_group rest.now }
    requires short { taken ≤ 8 }
    ensures { result ≡ arc_body_fault rest.now taken n }
{
    if is_too_long(taken, n) {
        return Some(G6Kind::BadSize);
    }
    if n > u64::from(DIRECTED_NAMES) {
        return Some(G6Kind::TooManyVertices);
    }
    let n = n as usize;
    let end = taken + arc_body_length(n);
    if rest.len() < end {
        return Some(G6Kind::Truncated);
    }
    if rest.len() > end {
        return Some(G6Kind::TrailingBytes);
    }
    bits_fault(&rest[taken..], n)
}

// The first fault of the bits of n vertices.
fn bits_fault(body: &[u8], n: usize) -> Option<G6Kind>
    requires few { n ≤ DIRECTED_NAMES }
    requires groups { AllPass is_group body.now }
    requires long { length body.now ≡ group_count (n * n) }
    ensures { result ≡ bits_fault body.now n }
{
    if has_loop(body, n) {
        return Some(G6Kind::Loop);
    }
    if is_set_behind(body, n * n) {
        return Some(G6Kind::BadPadding);
    }
    None
}

// The first fault of what stands behind the `&` of a line.
fn arc_rest_fault(rest: &[u8]) -> Option<G6Kind>
    ensures { result ≡ arc_rest_fault rest.now }
{
    if !are_groups(rest) {
        return Some(G6Kind::BadByte);
    }
    if rest.is_empty() {
        return Some(G6Kind::Truncated);
    }
    match size(rest) {
        Some((taken, n)) => arc_body_fault(rest, taken, n),
        None => Some(G6Kind::Truncated),
    }
}

// The first fault of a line; an empty one has none.
pub(crate) fn arc_line_fault(line: &[u8]) -> Option<G6Kind>
    ensures { result ≡ arc_line_fault line.now }
{
    if line.is_empty() {
        return None;
    }
    if line[0] != ARCS {
        return Some(G6Kind::OtherFormat);
    }
    arc_rest_fault(&line[1..])
}

// Fills the directed graph with the one that a line spells. Conditions: the line isn't empty and
// has no fault, and the directed graph has no vertices, and room for those of the line.
pub(crate) fn fill_arc_line<const W: usize>(graph: &mut DigraphOf<W>, line: &[u8])
    requires empty { graph.old ≡ empty_digraph }
    requires some { 0 < length line.now }
    requires sound { arc_line_fault line.now ≡ None }
    requires room { AllBelow (digraph_of_line line.now).vertices (64 * W) }
    ensures { graph.new ≡ digraph_of_line line.now }
{
    let rest = &line[1..];
    let Some((taken, n)) = size(rest) else {
        unreachable!();
    };
    body::fill(graph, n as u32, &rest[taken..]);
}
