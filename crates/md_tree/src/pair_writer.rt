//! Writes the pairs of a node.
ghost use Rattle.std.specs.Prelude.{◌≡◌, ◌+◌, ◌-◌, ◌*◌, ◌^◌, ◌<◌, ◌≤◌, [], ◌∷◌, ◌++◌, length, drop, IsTrue, IfSome, OnOk, OnErr};
ghost use Rattle.md_text.specs.Numbers.{decimal};
ghost use Rattle.md_text.specs.Pieces.{AreNumerals, piece_text};
ghost use Rattle.md_text.specs.Fronts.{BeginsWith};
ghost use Rattle.md_tree.specs.Positions.{AreSeconds, IsStart};
ghost use Rattle.md_tree.specs.TreeTexts.{pairs_text_by};

use crate::{Paired, PairsOf};
use md_graph::Memory;
use md_text::{CHUNK_SIZE, Chunk, Numerals, Piece, number_piece, piece_behind, push_number};
use std::alloc::Global;

// So many positions have at most five digits.
const MOST_POSITIONS: usize = 100_000;

// No position has more digits.
const MOST_DIGITS: usize = 10;

// So many bytes have room for a pair of two of them.
const PAIR_ROOM: usize = 16;

/// What a writer of pairs needs beside the text: the positions of children as pieces, and a chunk
/// in which pairs are gathered.
#[derive(Drop)]
pub struct Workspace {
    positions: Numerals,
    chunk: Chunk,
}

impl Workspace {
    pub(crate) fn new(alloc: Global) -> Self {
        Workspace {
            positions: Numerals::new(alloc),
            chunk: Chunk::new(),
        }
    }
}

// What stands before the second position of a pair: a comma, the first position in digits, and the
// mark of pairs.
#[derive(Clone, Copy)]
pub(crate) struct Start {
    pub(crate) first: u32,
    pub(crate) piece: Piece,
}

// The semicolon and the pairs, where there are some, of a node with `count` children.
pub(crate) fn push_pairs<P: Paired>(
    text: &mut Vec<u8>,
    pairs: &PairsOf<P>,
    count: usize,
    space: &mut Workspace,
) -> Result<(), Memory>
    ensures written { OnOk result (text.new.items
        ≡ text.old.items ++ pairs_text_by P.rules 59 pairs.now.list.items) }
    ensures begun { OnErr result (BeginsWith text.new.items text.old.items) }
{
    if pairs.list.is_empty() {
        return Ok(());
    }
    space.positions.spell(count.min(MOST_POSITIONS) as u32)?;
    let positions = space.positions.as_slice();
    let room = pair_room(positions, count);
    text.reserve(pairs.list.len().saturating_mul(room))?;
    push_pair(text, b';', pairs.list[0])?;
    push_more(text, &pairs.list[1..], positions, &mut space.chunk)
}

// How many bytes a pair of positions below `count` has at most, with the mark before it.
fn pair_room(positions: &[Piece], count: usize) -> usize {
    let digits = match positions.get(count.saturating_sub(1)) {
        Some(last) => last.used,
        None => MOST_DIGITS,
    };
    2 * digits + 2
}

// The pairs behind the first.
fn push_more<P: Paired>(
    text: &mut Vec<u8>,
    pairs: &[P],
    positions: &[Piece],
    chunk: &mut Chunk,
) -> Result<(), Memory>
    requires { AreNumerals positions.now }
    ensures written { OnOk result (text.new.items
        ≡ text.old.items ++ pairs_text_by P.rules 44 pairs.now) }
    ensures begun { OnErr result (BeginsWith text.new.items text.old.items) }
{
    chunk.clear();
    let mut start = start_at::<P>(0);
    let mut place = 0;
    while place < pairs.len() {
        put_pair(text, pairs[place], positions, &mut start, chunk)?;
        place = put_run(pairs, place + 1, positions, start, chunk);
    }
    chunk.flush(text)?;
    Ok(())
}

// Gathers pairs, from the one at `from` on, as long as they have the position of the start and
// there is room. Says where the others begin.
#[inline(never)]
fn put_run<P: Paired>(
    pairs: &[P],
    from: usize,
    positions: &[Piece],
    start: Start,
    chunk: &mut Chunk,
) -> usize
    requires positions { AreNumerals positions.now }
    requires start { IsStart P.rules start }
    requires from { from ≤ length pairs.now }
    ensures behind { from ≤ result }
    ensures place { result ≤ length pairs.now }
    ensures written { chunk.new ++ pairs_text_by P.rules 44 (drop result pairs.now)
        ≡ chunk.old ++ pairs_text_by P.rules 44 (drop from pairs.now) }
{
    let end = from + (pairs.len() - from).min(chunk.room() / PAIR_ROOM);
    let place = put_fours(pairs, from, end, positions, start, chunk);
    put_others(pairs, place, end, positions, start, chunk)
}

// Gathers four pairs at a time, as long as four of those before `end` have the position of the
// start. Says where the others begin.
#[inline(always)]
fn put_fours<P: Paired>(
    pairs: &[P],
    from: usize,
    end: usize,
    positions: &[Piece],
    start: Start,
    chunk: &mut Chunk,
) -> usize
    requires positions { AreNumerals positions.now }
    requires start { IsStart P.rules start }
    requires from { from ≤ end }
    requires end { end ≤ length pairs.now }
    requires room { length chunk.old + PAIR_ROOM * (end - from) ≤ CHUNK_SIZE }
    ensures behind { from ≤ result }
    ensures place { result ≤ end }
    ensures room { length chunk.new + PAIR_ROOM * (end - result) ≤ CHUNK_SIZE }
    ensures written { chunk.new ++ pairs_text_by P.rules 44 (drop result pairs.now)
        ≡ chunk.old ++ pairs_text_by P.rules 44 (drop from pairs.now) }
{
    let mut place = from;
    while end - place >= 4 {
        let Some(seconds) = four_seconds(pairs, place, positions, start) else {
            return place;
        };
        chunk.put_each(start.piece, positions, &seconds);
        place += 4;
    }
    place
}

// The second positions of the four pairs from `place` on, if the first ones are that of the start
// and there is a piece for each.
#[inline(always)]
fn four_seconds<P: Paired>(
    pairs: &[P],
    place: usize,
    positions: &[Piece],
    start: Start,
) -> Option<[u32; 4]>
    requires positions { AreNumerals positions.now }
    requires start { IsStart P.rules start }
    requires place { place + 4 ≤ length pairs.now }
    ensures { IfSome result (λ seconds. AreSeconds P.rules positions.now start.piece seconds
        (drop place pairs.now) (drop (place + 4) pairs.now)) }
{
    let first = second_of(pairs[place], positions, start)?;
    let second = second_of(pairs[place + 1], positions, start)?;
    let third = second_of(pairs[place + 2], positions, start)?;
    let fourth = second_of(pairs[place + 3], positions, start)?;
    Some([first, second, third, fourth])
}

// The second position of a pair, if the first one is that of the start and there is a piece for it.
#[inline(always)]
fn second_of<P: Paired>(pair: P, positions: &[Piece], start: Start) -> Option<u32>
    ensures { IfSome result (λ second. (P.rules.first pair ≡ start.first)
        × (second ≡ P.rules.second pair) × (second < length positions.now)) }
{
    if pair.first() != start.first || pair.second() as usize >= positions.len() {
        return None;
    }
    Some(pair.second())
}

// Gathers pairs before `end` one by one, as long as they have the position of the start. Says where
// the others begin.
#[inline(always)]
fn put_others<P: Paired>(
    pairs: &[P],
    from: usize,
    end: usize,
    positions: &[Piece],
    start: Start,
    chunk: &mut Chunk,
) -> usize
    requires positions { AreNumerals positions.now }
    requires start { IsStart P.rules start }
    requires from { from ≤ end }
    requires end { end ≤ length pairs.now }
    requires room { length chunk.old + PAIR_ROOM * (end - from) ≤ CHUNK_SIZE }
    ensures behind { from ≤ result }
    ensures place { result ≤ length pairs.now }
    ensures written { chunk.new ++ pairs_text_by P.rules 44 (drop result pairs.now)
        ≡ chunk.old ++ pairs_text_by P.rules 44 (drop from pairs.now) }
{
    for place in from..end {
        let Some(second) = second_of(pairs[place], positions, start) else {
            return place;
        };
        chunk.put_both(start.piece, positions[second as usize]);
    }
    end
}

// Gathers a pair; a chunk that is more than half full goes to the text first. The text only grows.
fn put_pair<P: Paired>(
    text: &mut Vec<u8>,
    pair: P,
    positions: &[Piece],
    start: &mut Start,
    chunk: &mut Chunk,
) -> Result<(), Memory>
    requires positions { AreNumerals positions.now }
    requires start { IsStart P.rules start.old }
    ensures written { OnOk result (text.new.items ++ chunk.new
        ≡ (text.old.items ++ chunk.old) ++ 44 ∷ (decimal (P.rules.first pair)
        ++ P.rules.between ∷ decimal (P.rules.second pair))) }
    ensures begun { BeginsWith text.new.items text.old.items }
    ensures start { IsStart P.rules start.new }
{
    let (first, second) = (pair.first(), pair.second());
    if second as usize >= positions.len() || !move_to::<P>(start, first) {
        chunk.flush(text)?;
        return push_pair(text, b',', pair);
    }
    if chunk.room() < CHUNK_SIZE / 2 {
        chunk.flush(text)?;
    }
    chunk.put_both(start.piece, positions[second as usize]);
    Ok(())
}

// Gives the start another position, if it has at most five digits; says whether the start then has
// it.
fn move_to<P: Paired>(start: &mut Start, first: u32) -> bool
    requires { IsStart P.rules start.old }
    ensures moved { IsTrue result → start.new.first ≡ first }
    ensures start { IsStart P.rules start.new }
{
    if start.first == first {
        return true;
    }
    if first as usize >= MOST_POSITIONS {
        return false;
    }
    *start = start_at::<P>(first);
    true
}

fn start_at<P: Paired>(first: u32) -> Start
    requires { first < 10 ^ 5 }
    ensures first { result.first ≡ first }
    ensures start { IsStart P.rules result }
{
    Start {
        first,
        piece: piece_behind(b',', number_piece(first, P::between())),
    }
}

// A pair behind a mark.
fn push_pair<P: Paired>(text: &mut Vec<u8>, mark: u8, pair: P) -> Result<(), Memory>
    ensures written { OnOk result (text.new.items ≡ text.old.items ++ mark
        ∷ (decimal (P.rules.first pair) ++ P.rules.between ∷ decimal (P.rules.second pair))) }
    ensures begun { OnErr result (BeginsWith text.new.items text.old.items) }
{
    text.push(mark)?;
    push_number(text, u64::from(pair.first()))?;
    text.push(P::between())?;
    push_number(text, u64::from(pair.second()))?;
    Ok(())
}
