//! The graphs of a file without fault, one after the other.
ghost use Rattle.std.specs.Prelude.{◌≡◌, ◌≢◌, ℕ, ◌*◌, ◌<◌, ◌≤◌, ◌==◌, ◌&&◌, ◌||◌, nat_lt, nat_le, [], ◌∷◌, length, None, slice_index};
ghost use Rattle.std.specs.Bool.{OnTrue, OnFalse};
ghost use Rattle.md_graph.specs.PlainGraph.{empty_graph};
ghost use Rattle.md_graph6.specs.FileLine.{line_fault, graph_of_line};
ghost use Rattle.md_graph6.specs.File.{stripped_lines, from_first, graphs_in, HasNoFault, first_fault, graphs_of};
ghost use Rattle.md_graph6.specs.First.{FirstBelow, IsFirstBound, BeginsWithSize};

use crate::file::without_header;
use crate::file_line::{fill_line, from_size};
use crate::line::{LONG, eighteen};
use md_graph::{Graph, GraphOf, NAMES};
use md_text::{split_line, without_return};
use std::marker::Model;

/// The graphs of a file that aren't read yet.
#[derive(Drop)]
pub struct Lines<'a> {
    rest: &'a [u8],
}

impl<'a> Model for Lines<'a> {
    ghost use Rattle.std.specs.Prelude.{List};
    ghost use Rattle.std.specs.Coded.{coded_list};
    ghost use Rattle.md_graph.specs.PlainGraph.{PlainGraph, graph_code};
    ghost use Rattle.md_graph6.specs.File.{stripped_lines, graphs_in, HasNoFault};

    ghost Value = { List PlainGraph };

    ghost coded = { coded_list graph_code };

    ghost view = { λ l. graphs_in l.rest.now };

    ghost invariant = { λ l. HasNoFault (stripped_lines l.rest.now) };
}

impl<'a> Lines<'a> {
    /// The graphs of a file. Condition: it has no fault under some limit of the number of vertices,
    /// which `scan` tests.
    pub fn new(bytes: &'a [u8]) -> Lines<'a>
        requires { (limit : ℕ) × (limit ≤ NAMES) × (first_fault limit bytes.now ≡ None) }
        ensures { result ≡ graphs_of bytes.now }
    {
        Lines {
            rest: without_header(bytes),
        }
    }

    /// Fills the graph with the first of the graphs, takes that off, and answers true. It answers
    /// false exactly where no graph is left, and the graph then stays without vertices. Condition:
    /// the graph has no vertices.
    pub fn next(&mut self, graph: &mut Graph) -> bool
        requires { graph.old ≡ empty_graph }
        ensures first { OnTrue result (self.old ≡ graph.new ∷ self.new) }
        ensures none { OnFalse result (self.old ≡ []) }
        ensures none_left { OnFalse result (self.new ≡ []) }
        ensures stays { OnFalse result (graph.new ≡ empty_graph) }
    {
        let _rest = &self.rest;
        self.take_first(graph)
    }

    /// The least number above all vertices of the next graph; 0 where none is left.
    pub fn next_bound(&self) -> u32
        ensures below { FirstBelow result self.now }
        ensures least { (n : ℕ) → FirstBelow n self.now → result ≤ n }
        ensures few { result ≤ NAMES }
    {
        first_bound(self.rest)
    }

    /// As `next`, into a graph with any number of words a row. Conditions: the graph has no
    /// vertices, and room for the next one (`next_bound`).
    pub fn take_first<const W: usize>(&mut self, graph: &mut GraphOf<W>) -> bool
        requires empty { graph.old ≡ empty_graph }
        requires room { FirstBelow (64 * W) self.old }
        ensures first { OnTrue result (self.old ≡ graph.new ∷ self.new) }
        ensures none { OnFalse result (self.old ≡ []) }
        ensures none_left { OnFalse result (self.new ≡ []) }
        ensures stays { OnFalse result (graph.new ≡ empty_graph) }
    {
        let (line, rest) = next_line(self.rest);
        self.rest = rest;
        if line.is_empty() {
            return false;
        }
        fill_line(graph, line);
        true
    }
}

// The number of vertices of the first line that isn't empty; 0 where there is none. The lines
// before it have no bytes but those that end them. A size of one byte, which most lines have, is
// told from all else in one test.
fn first_bound(text: &[u8]) -> u32
    requires { HasNoFault (stripped_lines text.now) }
    ensures { IsFirstBound result (graphs_in text.now) }
{
    let mut rest = text;
    while !rest.is_empty() {
        if is_small_size(rest[0]) {
            return u32::from(rest[0] - 63);
        }
        if !ends_line(rest[0]) {
            return leading_size(rest);
        }
        rest = &rest[1..];
    }
    0
}

// Whether a byte spells a size alone.
#[inline]
fn is_small_size(byte: u8) -> bool
    ensures { result ≡ (nat_le 63 byte && nat_lt byte 126) }
{
    63 <= byte && byte < LONG
}

// Whether a byte stands at the end of a line alone.
#[inline]
fn ends_line(byte: u8) -> bool
    ensures { result ≡ ((byte == 10) || (byte == 13)) }
{
    byte == b'\n' || byte == b'\r'
}

// The number of vertices of a text's first line, which isn't empty.
fn leading_size(text: &[u8]) -> u32
    requires sound { HasNoFault (stripped_lines text.now) }
    requires some { 0 < length text.now }
    requires no_feed { slice_index text.now 0 ≢ 10 }
    requires no_return { slice_index text.now 0 ≢ 13 }
    ensures { IsFirstBound result (graphs_in text.now) }
{
    spelt_size(from_size(text))
}

/// The size that a text begins with. Condition: it begins with the shortest spelling of one.
pub fn spelt_size(text: &[u8]) -> u32
    requires { (n : ℕ) × BeginsWithSize n text.now }
    ensures { (n : ℕ) → BeginsWithSize n text.now → result ≡ n }
{
    if text[0] != LONG {
        return u32::from(text[0] - 63);
    }
    eighteen(&text[..4], 1) as u32
}

/// The first line that isn't empty, without one byte 13 at its end, and what stands behind it; an
/// empty one where there is none.
pub fn next_line(text: &[u8]) -> (&[u8], &[u8])
    ensures first { 0 < length result.0.now →
        from_first (stripped_lines text.now) ≡ result.0.now ∷ stripped_lines result.1.now }
    ensures none { length result.0.now ≡ 0 → from_first (stripped_lines text.now) ≡ [] }
    ensures none_left { length result.0.now ≡ 0 → length result.1.now ≡ 0 }
{
    let mut rest = text;
    while !rest.is_empty() {
        let (line, more) = split_line(rest);
        let line = without_return(line);
        rest = more;
        if !line.is_empty() {
            return (line, rest);
        }
    }
    (rest, rest)
}
