//! The directed graphs of a file without fault, one after the other.
ghost use Rattle.std.specs.Prelude.{◌≡◌, ℕ, ◌*◌, ◌≤◌, [], ◌∷◌, length, None};
ghost use Rattle.std.specs.Bool.{OnTrue, OnFalse};
ghost use Rattle.md_digraph.specs.PlainDigraph.{empty_digraph};
ghost use Rattle.md_digraph6.specs.ArcFile.{first_arc_fault, digraphs_of};
ghost use Rattle.md_digraph6.specs.FirstDigraph.{FirstDigraphBelow};

use crate::file::without_arc_header;
use crate::line::fill_arc_line;
use md_digraph::{DIRECTED_NAMES, Digraph, DigraphOf};
use md_graph6::parts::{next_line, spelt_size};
use std::marker::Model;

/// The directed graphs of a file that aren't read yet.
#[derive(Drop)]
pub struct DirectedLines<'a> {
    rest: &'a [u8],
}

impl<'a> Model for DirectedLines<'a> {
    ghost use Rattle.std.specs.Prelude.{List};
    ghost use Rattle.std.specs.Coded.{coded_list};
    ghost use Rattle.md_digraph.specs.PlainDigraph.{PlainDigraph, digraph_code};
    ghost use Rattle.md_graph6.specs.File.{stripped_lines};
    ghost use Rattle.md_digraph6.specs.ArcFile.{digraphs_in, HasNoArcFault};

    ghost Value = { List PlainDigraph };

    ghost coded = { coded_list digraph_code };

    ghost view = { λ l. digraphs_in l.rest.now };

    ghost invariant = { λ l. HasNoArcFault (stripped_lines l.rest.now) };
}

impl<'a> DirectedLines<'a> {
    /// The directed graphs of a file. Condition: it has no fault, which `scan_directed` tests.
    pub fn new(bytes: &'a [u8]) -> DirectedLines<'a>
        requires { first_arc_fault bytes.now ≡ None }
        ensures { result ≡ digraphs_of bytes.now }
    {
        DirectedLines {
            rest: without_arc_header(bytes),
        }
    }

    /// Fills the directed graph with the first of them, takes that off, and answers true. It
    /// answers false exactly where none is left, and the directed graph then stays without
    /// vertices. Condition: the directed graph has no vertices.
    pub fn next(&mut self, graph: &mut Digraph) -> bool
        requires { graph.old ≡ empty_digraph }
        ensures first { OnTrue result (self.old ≡ graph.new ∷ self.new) }
        ensures none { OnFalse result (self.old ≡ []) }
        ensures none_left { OnFalse result (self.new ≡ []) }
        ensures stays { OnFalse result (graph.new ≡ empty_digraph) }
    {
        let _rest = &self.rest;
        self.take_first(graph)
    }

    /// The least number above all vertices of the next directed graph; 0 where none is left.
    pub fn next_bound(&self) -> u32
        ensures below { FirstDigraphBelow result self.now }
        ensures least { (n : ℕ) → FirstDigraphBelow n self.now → result ≤ n }
        ensures few { result ≤ DIRECTED_NAMES }
    {
        let (line, _) = next_line(self.rest);
        if line.is_empty() {
            return 0;
        }
        spelt_size(&line[1..])
    }

    /// As `next`, into a directed graph with any number of words a row. Conditions: the directed
    /// graph has no vertices, and room for the next one (`next_bound`).
    pub fn take_first<const W: usize>(&mut self, graph: &mut DigraphOf<W>) -> bool
        requires empty { graph.old ≡ empty_digraph }
        requires room { FirstDigraphBelow (64 * W) self.old }
        ensures first { OnTrue result (self.old ≡ graph.new ∷ self.new) }
        ensures none { OnFalse result (self.old ≡ []) }
        ensures none_left { OnFalse result (self.new ≡ []) }
        ensures stays { OnFalse result (graph.new ≡ empty_digraph) }
    {
        let (line, rest) = next_line(self.rest);
        self.rest = rest;
        if line.is_empty() {
            return false;
        }
        fill_arc_line(graph, line);
        true
    }
}
