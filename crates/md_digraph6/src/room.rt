//! Room for one directed graph after the other, whatever their sizes.
ghost use Rattle.std.specs.Prelude.{◌≡◌, ◌*◌, ◌≤◌, [], ◌∷◌, IfOk, IsErr};
ghost use Rattle.std.specs.Bool.{OnTrue, OnFalse};
ghost use Rattle.md_digraph.specs.PlainDigraph.{empty_digraph};
ghost use Rattle.md_digraph6.specs.FirstDigraph.{FirstDigraphBelow};
ghost use Rattle.md_digraph6.specs.DigraphRooms.{IsDigraphBySize, digraph_or_empty};

use crate::reader::DirectedLines;
use md_digraph::{DIRECTED_WORDS, Digraph, DigraphOf};
use md_graph::Memory;
use std::alloc::Global;
use std::marker::Model;

// How many names fit into rows of one word, and into rows of sixteen.
const SMALL: u32 = 64;

const MEDIUM: u32 = 1_024;

/// A directed graph by the number of words in its rows: 1, 16, or as many as there may be.
#[derive(Clone, Copy)]
pub enum DigraphBySize<'a> {
    Small(&'a DigraphOf<1>),
    Medium(&'a DigraphOf<16>),
    Large(&'a Digraph),
}

// How many words a row has of the directed graph that is in use.
#[derive(Clone, Copy)]
enum DirectedWidth {
    One,
    Sixteen,
    Most,
}

/// Room for one directed graph after the other, seen as the one that is in it. It takes the fewest
/// words a row that have its vertices. The rows of a width are taken when the first directed graph
/// of that width comes, and stay; all but those of one word stand in a box, since a room is moved.
#[derive(Drop)]
pub struct DirectedRoom {
    width: DirectedWidth,
    small: DigraphOf<1>,
    medium: Option<Box<DigraphOf<16>>>,
    large: Option<Box<Digraph>>,
}

impl Model for DirectedRoom {
    ghost use Rattle.md_digraph.specs.PlainDigraph.{PlainDigraph, digraph_code};
    ghost use Rattle.md_digraph6.specs.DigraphRooms.{digraph_in, IsOneDigraphIn};

    ghost Value = { PlainDigraph };

    ghost coded = { digraph_code };

    ghost view = { λ r. digraph_in r.width r.small r.medium r.large };

    ghost invariant = { λ r. IsOneDigraphIn r.width r.small r.medium r.large };
}

impl DirectedRoom {
    /// Room with the directed graph without vertices in it. Errors: want of memory.
    pub fn new(alloc: Global) -> Result<DirectedRoom, Memory>
        ensures made { IfOk result (λ room. room ≡ empty_digraph) }
    {
        Ok(DirectedRoom {
            width: DirectedWidth::One,
            small: DigraphOf::new(alloc)?,
            medium: None,
            large: None,
        })
    }

    /// The directed graph that is in it.
    pub fn digraph(&self) -> DigraphBySize<'_>
        ensures value { IsDigraphBySize result self.now }
    {
        match self.width {
            DirectedWidth::One => {}
            DirectedWidth::Sixteen => {
                if let Some(medium) = &self.medium {
                    return DigraphBySize::Medium(medium);
                }
            }
            DirectedWidth::Most => {
                if let Some(large) = &self.large {
                    return DigraphBySize::Large(large);
                }
            }
        }
        DigraphBySize::Small(&self.small)
    }

    /// All vertices and arcs go.
    pub fn clear(&mut self)
        ensures cleared { self.new ≡ empty_digraph }
    {
        match self.width {
            DirectedWidth::One => self.small.clear(),
            DirectedWidth::Sixteen => clear_arc_rows(&mut self.medium),
            DirectedWidth::Most => clear_arc_rows(&mut self.large),
        }
    }

    /// The next directed graph of the lines comes into the room, with as few words a row as it
    /// needs, and is taken off them; the answer is then true. It is false exactly where none is
    /// left, and the room then stays without vertices. Condition: the directed graph in the room
    /// has no vertices. Errors: want of memory; nothing changes then.
    pub fn fill(&mut self, alloc: Global, lines: &mut DirectedLines) -> Result<bool, Memory>
        requires { self.old ≡ empty_digraph }
        ensures first { IfOk result (λ found. OnTrue found (lines.old ≡ self.new ∷ lines.new)) }
        ensures none { IfOk result (λ found. OnFalse found (lines.old ≡ [])) }
        ensures none_left { IfOk result (λ found. OnFalse found (lines.new ≡ [])) }
        ensures stays { IfOk result (λ found. OnFalse found (self.new ≡ empty_digraph)) }
        ensures err { IsErr result → lines.new ≡ lines.old }
        ensures err_room { IsErr result → self.new ≡ empty_digraph }
    {
        let bound = lines.next_bound();
        if bound <= SMALL {
            self.width = DirectedWidth::One;
            return Ok(lines.take_first(&mut self.small));
        }
        if bound <= MEDIUM {
            self.width = DirectedWidth::Sixteen;
            return fill_arc_rows(alloc, &mut self.medium, lines);
        }
        self.width = DirectedWidth::Most;
        fill_arc_rows(alloc, &mut self.large, lines)
    }
}

// All vertices and arcs go. Never inlined, so that small directed graphs don't pay for it.
#[inline(never)]
fn clear_arc_rows<const W: usize>(rows: &mut Option<Box<DigraphOf<W>>>)
    ensures { digraph_or_empty rows.new ≡ empty_digraph }
{
    if let Some(graph) = rows {
        graph.clear();
    }
}

// A directed graph without vertices, in a box. Errors: want of memory.
fn boxed_digraph<const W: usize>(alloc: Global) -> Result<Box<DigraphOf<W>>, Memory>
    requires { W ≤ DIRECTED_WORDS }
    ensures { IfOk result (λ boxed. boxed.value ≡ empty_digraph) }
{
    let graph = DigraphOf::new(alloc)?;
    Ok(Box::new(alloc, graph)?)
}

// The next directed graph of the lines comes into the rows, which are taken if they aren't there;
// false where none is left, and the rows stay without vertices. Conditions: the rows have no
// vertices, and room for the next one. Errors: want of memory; nothing changes then. Never inlined,
// so that small directed graphs don't pay for its room.
#[inline(never)]
fn fill_arc_rows<const W: usize>(
    alloc: Global,
    rows: &mut Option<Box<DigraphOf<W>>>,
    lines: &mut DirectedLines,
) -> Result<bool, Memory>
    requires limit { W ≤ DIRECTED_WORDS }
    requires empty { digraph_or_empty rows.old ≡ empty_digraph }
    requires room { FirstDigraphBelow (64 * W) lines.old }
    ensures first { IfOk result (λ found.
        OnTrue found (lines.old ≡ digraph_or_empty rows.new ∷ lines.new)) }
    ensures none { IfOk result (λ found. OnFalse found (lines.old ≡ [])) }
    ensures none_left { IfOk result (λ found. OnFalse found (lines.new ≡ [])) }
    ensures stays { IfOk result (λ found.
        OnFalse found (digraph_or_empty rows.new ≡ empty_digraph)) }
    ensures err { IsErr result → lines.new ≡ lines.old }
    ensures err_rows { IsErr result → digraph_or_empty rows.new ≡ empty_digraph }
{
    let mut graph = match rows.take() {
        Some(graph) => graph,
        None => boxed_digraph(alloc)?,
    };
    let found = lines.take_first(&mut graph);
    *rows = Some(graph);
    Ok(found)
}
