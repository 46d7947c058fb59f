//! Room for one graph after the other, whatever their sizes.
ghost use Rattle.std.specs.Prelude.{◌≡◌, ◌*◌, ◌≤◌, [], ◌∷◌, None, Some, IfOk, IfErr, IsErr};
ghost use Rattle.std.specs.Bool.{OnTrue, OnFalse};
ghost use Rattle.md_graph.specs.PlainGraph.{empty_graph};
ghost use Rattle.md_graph6.specs.First.{FirstBelow};
ghost use Rattle.md_dimacs.specs.File.{Spells, first_fault};
ghost use Rattle.md_input.specs.declared.format.Format.TheVariants.{Dimacs};
ghost use Rattle.md_input.specs.Faults.{graph_fault, IsStopAt};
ghost use Rattle.md_input.specs.Rooms.{IsGraphBySize, graph_or_empty};

use crate::fault::InputStop;
use md_dimacs::{DimacsFault, DimacsKind};
use md_graph::{Graph, GraphOf, Memory, NAMES, WORDS};
use md_graph6::Lines;
use std::alloc::Global;
use std::marker::Model;

// How many names fit into rows of one word, and into rows of sixteen.
const SMALL: u32 = 64;

const MEDIUM: u32 = 1_024;

/// How many names fit into rows of sixty-four words.
pub const BROAD: u32 = 4_096;

/// A graph by the number of words in its rows: 1, 16, 64, or as many as there may be.
#[derive(Clone, Copy)]
pub enum GraphBySize<'a> {
    Small(&'a GraphOf<1>),
    Medium(&'a GraphOf<16>),
    Broad(&'a GraphOf<64>),
    Large(&'a Graph),
}

// How many words a row has of the graph that is in use.
#[derive(Clone, Copy)]
enum Width {
    One,
    Sixteen,
    SixtyFour,
    Most,
}

/// Room for one graph after the other, seen as the graph that is in it. A graph takes the fewest
/// words a row that have its vertices. The rows of a width are taken when the first graph of that
/// width comes, and stay; all but those of one word stand in a box, since a room is moved.
#[derive(Drop)]
pub struct Room {
    width: Width,
    small: GraphOf<1>,
    medium: Option<Box<GraphOf<16>>>,
    broad: Option<Box<GraphOf<64>>>,
    large: Option<Box<Graph>>,
}

impl Model for Room {
    ghost use Rattle.md_graph.specs.PlainGraph.{PlainGraph, graph_code};
    ghost use Rattle.md_input.specs.Rooms.{graph_in, IsOneIn};

    ghost Value = { PlainGraph };

    ghost coded = { graph_code };

    ghost view = { λ r. graph_in r.width r.small r.medium r.broad r.large };

    ghost invariant = { λ r. IsOneIn r.width r.small r.medium r.broad r.large };
}

impl Room {
    /// Room with the graph without vertices in it. Errors: want of memory.
    pub fn new(alloc: Global) -> Result<Room, Memory>
        ensures { IfOk result (λ room. room ≡ empty_graph) }
    {
        Ok(Room {
            width: Width::One,
            small: GraphOf::new(alloc)?,
            medium: None,
            broad: None,
            large: None,
        })
    }

    // Room with the graph of a DIMACS file in it, whose names are below the limit; or its first
    // fault; or want of memory. Condition: the limit is at most the number of names.
    pub(crate) fn of_edges(alloc: Global, limit: u32, file: &[u8]) -> Result<Room, InputStop>
        requires { limit ≤ NAMES }
        ensures spells { IfOk result (Spells NAMES file.now) }
        ensures faultless { IfOk result (λ _. first_fault limit file.now ≡ None) }
        ensures stops { IfErr result (IsStopAt (graph_fault limit Dimacs file.now)) }
    {
        let mut small = GraphOf::new(alloc)?;
        let is_small = is_read(file, SMALL, limit, &mut small)?;
        let mut room = Room {
            width: Width::One,
            small,
            medium: None,
            broad: None,
            large: None,
        };
        if is_small {
            return Ok(room);
        }
        let mut medium = GraphOf::new(alloc)?;
        if is_read(file, MEDIUM, limit, &mut medium)? {
            room.width = Width::Sixteen;
            room.medium = Some(in_box(alloc, medium)?);
            return Ok(room);
        }
        let mut broad = GraphOf::new(alloc)?;
        if is_read(file, BROAD, limit, &mut broad)? {
            room.width = Width::SixtyFour;
            room.broad = Some(in_box(alloc, broad)?);
            return Ok(room);
        }
        let mut large = Graph::new(alloc)?;
        md_dimacs::read(file, limit, &mut large)?;
        room.width = Width::Most;
        room.large = Some(in_box(alloc, large)?);
        Ok(room)
    }

    /// The graph that is in it.
    pub fn graph(&self) -> GraphBySize<'_>
        ensures { IsGraphBySize result self.now }
    {
        match self.width {
            Width::One => {}
            Width::Sixteen => {
                if let Some(medium) = &self.medium {
                    return GraphBySize::Medium(medium);
                }
            }
            Width::SixtyFour => {
                if let Some(broad) = &self.broad {
                    return GraphBySize::Broad(broad);
                }
            }
            Width::Most => {
                if let Some(large) = &self.large {
                    return GraphBySize::Large(large);
                }
            }
        }
        GraphBySize::Small(&self.small)
    }

    /// All vertices and edges go.
    pub fn clear(&mut self)
        ensures { self.new ≡ empty_graph }
    {
        match self.width {
            Width::One => self.small.clear(),
            Width::Sixteen => clear_rows(&mut self.medium),
            Width::SixtyFour => clear_rows(&mut self.broad),
            Width::Most => clear_rows(&mut self.large),
        }
    }

    // The next graph of the lines comes into the room, with as few words a row as it needs; false
    // where none is left, and the room stays without vertices. Condition: the graph in the room has
    // no vertices. Errors: want of memory; nothing changes then.
    pub(crate) fn fill(&mut self, alloc: Global, lines: &mut Lines) -> Result<bool, Memory>
        requires { self.old ≡ empty_graph }
        ensures first { IfOk result (λ found. OnTrue found (lines.old ≡ self.new ∷ lines.new)) }
        ensures none { IfOk result (λ found. OnFalse found (lines.old ≡ [])) }
        ensures none_left { IfOk result (λ found. OnFalse found (lines.new ≡ [])) }
        ensures stays { IfOk result (λ found. OnFalse found (self.new ≡ empty_graph)) }
        ensures err { IsErr result → lines.new ≡ lines.old }
        ensures err_room { IsErr result → self.new ≡ empty_graph }
    {
        let bound = lines.next_bound();
        if bound <= SMALL {
            self.width = Width::One;
            return Ok(lines.take_first(&mut self.small));
        }
        if bound <= MEDIUM {
            self.width = Width::Sixteen;
            return fill_rows(alloc, &mut self.medium, lines);
        }
        if bound <= BROAD {
            self.width = Width::SixtyFour;
            return fill_rows(alloc, &mut self.broad, lines);
        }
        self.width = Width::Most;
        fill_rows(alloc, &mut self.large, lines)
    }
}

// The graph in a box. Errors: want of memory.
fn in_box<const W: usize>(alloc: Global, graph: GraphOf<W>) -> Result<Box<GraphOf<W>>, Memory>
    ensures { IfOk result (λ boxed. boxed.value ≡ graph.entry) }
{
    Ok(Box::new(alloc, graph)?)
}

// All vertices and edges go. Never inlined, so that small graphs don't pay for it.
#[inline(never)]
fn clear_rows<const W: usize>(rows: &mut Option<Box<GraphOf<W>>>)
    requires limit { W ≤ WORDS }
    ensures { graph_or_empty rows.new ≡ empty_graph }
{
    if let Some(graph) = rows {
        graph.clear();
    }
}

// The next graph of the lines comes into the rows, which are taken if they aren't there; false
// where none is left, and the rows stay without vertices. Conditions: the rows have no vertices,
// and room for the next graph. Errors: want of memory; nothing changes then. Never inlined, so that
// small graphs don't pay for its room.
#[inline(never)]
fn fill_rows<const W: usize>(
    alloc: Global,
    rows: &mut Option<Box<GraphOf<W>>>,
    lines: &mut Lines,
) -> Result<bool, Memory>
    requires limit { W ≤ WORDS }
    requires empty { graph_or_empty rows.old ≡ empty_graph }
    requires room { FirstBelow (64 * W) lines.old }
    ensures first { IfOk result (λ found.
        OnTrue found (lines.old ≡ graph_or_empty rows.new ∷ lines.new)) }
    ensures none { IfOk result (λ found. OnFalse found (lines.old ≡ [])) }
    ensures none_left { IfOk result (λ found. OnFalse found (lines.new ≡ [])) }
    ensures stays { IfOk result (λ found. OnFalse found (graph_or_empty rows.new ≡ empty_graph)) }
    ensures err { IsErr result → lines.new ≡ lines.old }
    ensures err_rows { IsErr result → graph_or_empty rows.new ≡ empty_graph }
{
    let mut graph = match rows.take() {
        Some(graph) => graph,
        None => in_box(alloc, GraphOf::new(alloc)?)?,
    };
    let found = lines.take_first(&mut graph);
    *rows = Some(graph);
    Ok(found)
}

// Reads the graph of a DIMACS file whose names are below the limit if they are below `most` too,
// and answers true; false where the limit is greater and they aren't, and the graph then stays
// without vertices. Conditions: the graph has no vertices, and room for names below `most`. Errors:
// the first fault of the file under the limit.
pub(crate) fn is_read<const W: usize>(
    file: &[u8],
    most: u32,
    limit: u32,
    graph: &mut GraphOf<W>,
) -> Result<bool, DimacsFault>
    requires empty { graph.old ≡ empty_graph }
    requires few { limit ≤ NAMES }
    requires room { most ≤ 64 * W }
    ensures spells { IfOk result (λ read. OnTrue read (Spells NAMES file.now graph.new)) }
    ensures faultless { IfOk result (λ read. OnTrue read (first_fault limit file.now ≡ None)) }
    ensures stays { IfOk result (λ read. OnFalse read (graph.new ≡ empty_graph)) }
    ensures fault { IfErr result (λ fault. first_fault limit file.now ≡ Some fault) }
{
    match md_dimacs::read(file, most.min(limit), graph) {
        Ok(()) => Ok(true),
        Err(fault) => {
            if fault.kind == DimacsKind::TooManyVertices && most < limit {
                return Ok(false);
            }
            Err(fault)
        }
    }
}
