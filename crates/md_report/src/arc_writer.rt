//! Writes arcs.
ghost use Rattle.std.specs.Prelude.{◌≡◌, ◌+◌, ◌<◌, ◌≤◌, ◌∷◌, ◌++◌, codes, length, drop, map, IfOk, IfSome, OnOk};
ghost use Rattle.std.specs.List.{All};
ghost use Rattle.md_text.specs.Pieces.{AreNumerals};
ghost use Rattle.md_forcing.specs.Forcing.{arc};
ghost use Rattle.md_report.specs.Lines.{arc_text, arcs_text};

use md_blocks::{make_room, put_two};
use md_forcing::Arc;
use md_graph::{Memory, NAMES};
use md_text::{Chunk, Numerals, Piece, number_piece, piece_behind, push_number};
use std::alloc::Global;

// So few arcs are written number by number.
const FEW: usize = 8;

// So many bytes have room for four arcs.
const FOUR_ROOM: usize = 64;

// Appends a space and an arc for each arc. Where there are many, the names are spelled once.
pub(crate) fn push_arcs(alloc: Global, text: &mut Vec<u8>, arcs: &[Arc]) -> Result<(), Memory>
    ensures { OnOk result (text.new.items ≡ text.old.items ++ arcs_text arcs.now) }
{
    let greatest = greatest_name(arcs);
    let most = greatest as usize;
    if arcs.len() <= FEW || most / 2 >= arcs.len() || greatest >= NAMES {
        return push_each(text, arcs);
    }
    let mut numerals = Numerals::new(alloc);
    numerals.spell(greatest + 1)?;
    let names = numerals.as_slice();
    text.reserve(arcs.len().saturating_mul(2 * names[most].used + 2))?;
    push_spelled(text, arcs, names)
}

// A name that none of the arcs' names is above.
fn greatest_name(arcs: &[Arc]) -> u32
    ensures { All (λ by. (by.tail ≤ result) × (by.head ≤ result)) arcs.now }
{
    let mut greatest = 0;
    for by in arcs {
        greatest = greatest.max(by.tail).max(by.head);
    }
    greatest
}

// The same with a piece for each name.
fn push_spelled(text: &mut Vec<u8>, arcs: &[Arc], names: &[Piece]) -> Result<(), Memory>
    requires names { AreNumerals names.now }
    requires there { All (λ by. (by.tail < length names.now) × (by.head < length names.now))
        arcs.now }
    ensures { OnOk result (text.new.items ≡ text.old.items ++ arcs_text arcs.now) }
{
    let mut chunk = Chunk::new();
    let mut next = 0;
    while next < arcs.len() {
        next = put_tail(text, arcs, next, names, &mut chunk)?;
    }
    chunk.flush(text)?;
    Ok(())
}

// Gathers the arcs from a place on, as long as they have the tail of the first. The place behind
// them comes back.
// Never inlined, so that its loops have the registers to themselves.
#[inline(never)]
fn put_tail(
    text: &mut Vec<u8>,
    arcs: &[Arc],
    from: usize,
    names: &[Piece],
    chunk: &mut Chunk,
) -> Result<usize, Memory>
    requires names { AreNumerals names.now }
    requires there { All (λ by. (by.tail < length names.now) × (by.head < length names.now))
        arcs.now }
    requires from { from < length arcs.now }
    ensures written { IfOk result (λ next.
        (text.new.items ++ chunk.new) ++ arcs_text (drop next arcs.now)
        ≡ (text.old.items ++ chunk.old) ++ arcs_text (drop from arcs.now)) }
    ensures on { IfOk result (λ next. from < next) }
{
    let by = arcs[from];
    let start = piece_behind(b' ', number_piece(by.tail, b'>'));
    put_two(text, start, names[by.head as usize], chunk)?;
    let mut next = from + 1;
    while let Some(heads) = four_heads(arcs, next, by.tail) {
        make_room(FOUR_ROOM, chunk, text)?;
        chunk.put_each(start, names, &heads);
        next += 4;
    }
    while let Some(head) = head_at(arcs, next, by.tail) {
        put_two(text, start, names[head as usize], chunk)?;
        next += 1;
    }
    Ok(next)
}

// The heads of the four arcs from a place on, if there are four and all have the tail.
#[inline(always)]
fn four_heads(arcs: &[Arc], at: usize, tail: u32) -> Option<[u32; 4]>
    ensures four { IfSome result (λ heads. length heads ≡ 4) }
    ensures within { IfSome result (λ heads. at + 4 ≤ length arcs.now) }
    ensures arcs { IfSome result (λ heads. drop at arcs.now
        ≡ map (arc tail) heads ++ drop (at + 4) arcs.now) }
{
    let one = head_at(arcs, at, tail)?;
    let two = head_at(arcs, at + 1, tail)?;
    let three = head_at(arcs, at + 2, tail)?;
    let four = head_at(arcs, at + 3, tail)?;
    Some([one, two, three, four])
}

// The head of the arc at a place, if there is one and it has the tail.
#[inline(always)]
fn head_at(arcs: &[Arc], at: usize, tail: u32) -> Option<u32>
    ensures within { IfSome result (λ head. at < length arcs.now) }
    ensures arc { IfSome result (λ head. drop at arcs.now
        ≡ arc tail head ∷ drop (at + 1) arcs.now) }
{
    let by = arcs.get(at)?;
    if by.tail != tail {
        return None;
    }
    Some(by.head)
}

// The same number by number.
fn push_each(text: &mut Vec<u8>, arcs: &[Arc]) -> Result<(), Memory>
    ensures { OnOk result (text.new.items ≡ text.old.items ++ arcs_text arcs.now) }
{
    for by in arcs {
        push_arc(text, *by)?;
    }
    Ok(())
}

fn push_arc(text: &mut Vec<u8>, by: Arc) -> Result<(), Memory>
    ensures { OnOk result (text.new.items ≡ text.old.items ++ (codes " " ++ arc_text by)) }
{
    text.push(b' ')?;
    push_number(text, u64::from(by.tail))?;
    text.push(b'>')?;
    push_number(text, u64::from(by.head))?;
    Ok(())
}
