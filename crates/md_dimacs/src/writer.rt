//! Writes a DIMACS edge file.
ghost use Rattle.std.specs.Prelude.{◌≡◌, ℕ, ◌+◌, ◌*◌, ◌<◌, ◌≤◌, [], ◌∷◌, ◌++◌, length, replicate, vec_len, IfOk, OnOk};
ghost use Rattle.md_dimacs.specs.Text.{dimacs_text, problem_line};
ghost use Rattle.md_text.specs.Pieces.{piece_text};
ghost use Rattle.md_graph.specs.Sets.{Has};
ghost use Rattle.md_dimacs.specs.Places.{ArePlaces, line_start, vertex_lines, edges_text};

use crate::spelling::start_piece;
use md_blocks::write_members;
use md_graph::{GraphOf, Memory, NAMES};
use md_text::{Chunk, Piece, number_piece, piece_behind, push_number};
use std::alloc::Global;

/// The DIMACS text of a graph: `p edge n m`, and for each edge a line `e i j`, i < j, ascending by
/// i, then by j, where i and j are the places of its ends among the vertices in ascending order,
/// counted from 1. Each line is ended by a line feed.
///
/// # Errors
///
/// Want of memory.
pub fn write<const W: usize>(alloc: Global, graph: &GraphOf<W>) -> Result<Vec<u8>, Memory>
    ensures { IfOk result (λ text. text.items ≡ dimacs_text graph.now) }
{
    let places = spell_places(alloc, graph)?;
    let mut text = begin_text(alloc, graph)?;
    write_edges(graph, &places, &mut text)?;
    Ok(text)
}

// The problem line of the text, with room for the lines of the edges.
fn begin_text<const W: usize>(alloc: Global, graph: &GraphOf<W>) -> Result<Vec<u8>, Memory>
    ensures { IfOk result (λ text. text.items ≡ problem_line graph.now ++ 10 ∷ []) }
{
    let edges = graph.edge_count();
    let mut text = Vec::with_capacity(alloc, edges as usize * 14 + 64)?;
    text.extend_from_slice(b"p edge ")?;
    push_number(&mut text, u64::from(graph.count()))?;
    text.push(b' ')?;
    push_number(&mut text, u64::from(edges))?;
    text.push(b'\n')?;
    Ok(text)
}

// The place of each vertex, between a space and a line feed, at the index of the vertex.
fn spell_places<const W: usize>(alloc: Global, graph: &GraphOf<W>) -> Result<Vec<Piece>, Memory>
    ensures { IfOk result (λ places. ArePlaces graph.now places.items) }
{
    let vertices = graph.vertices();
    let mut places = Vec::with_capacity(alloc, vertices.count() as usize + 1)?;
    let mut place = 0;
    for v in vertices.members() {
        place += 1;
        let piece = piece_behind(b' ', number_piece(place, b'\n'));
        fill_up(&mut places, v as usize, piece)?;
    }
    Ok(places)
}

// Appends a piece until there is one at the index v.
fn fill_up(places: &mut Vec<Piece>, v: usize, piece: Piece) -> Result<(), Memory>
    requires { vec_len places.old ≤ v }
    ensures count { OnOk result (vec_len places.new ≡ v + 1) }
    ensures items { OnOk result ((k : ℕ) × (places.new.items
        ≡ places.old.items ++ replicate k piece)) }
{
    while places.len() <= v {
        places.push(piece)?;
    }
    Ok(())
}

// Appends the lines of all edges. Never inlined, so that its loops have the registers to
// themselves.
#[inline(never)]
fn write_edges<const W: usize>(
    graph: &GraphOf<W>,
    places: &[Piece],
    text: &mut Vec<u8>,
) -> Result<(), Memory>
    requires { ArePlaces graph.now places.now }
    ensures { OnOk result (text.new.items ≡ text.old.items ++ edges_text graph.now) }
{
    let mut chunk = Chunk::new();
    for v in graph.vertices().members() {
        let start = start_piece(places[v as usize]);
        write_row(graph, v, start, places, &mut chunk, text)?;
    }
    chunk.flush(text)?;
    Ok(())
}

// Gathers the lines of the edges of v to the vertices above it.
fn write_row<const W: usize>(
    graph: &GraphOf<W>,
    v: u32,
    start: Piece,
    places: &[Piece],
    chunk: &mut Chunk,
    text: &mut Vec<u8>,
) -> Result<(), Memory>
    requires name { v < NAMES }
    requires vertex { Has graph.now.vertices v }
    requires start { piece_text start ≡ line_start graph.now v }
    requires places { ArePlaces graph.now places.now }
    ensures { OnOk result (text.new.items ++ chunk.new
        ≡ (text.old.items ++ chunk.old) ++ vertex_lines graph.now v) }
{
    write_members(graph.neighbours(v), v + 1, start, places, chunk, text)
}
