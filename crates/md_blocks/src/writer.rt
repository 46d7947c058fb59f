//! Writes the members of a set, word by word.
ghost use Rattle.std.specs.Prelude.{◌≡◌, ◌+◌, ◌*◌, ◌%◌, ◌<◌, ◌≤◌, [], ◌++◌, length, IfSome, IfNone, IfErr, OnOk};
ghost use Rattle.std.specs.List.{All};
ghost use Rattle.md_graph.specs.NameSet.{IsGreatest, ascending_from};
ghost use Rattle.md_graph.specs.Words.{bits_between};
ghost use Rattle.md_text.specs.Pieces.{piece_text, texts_at};
ghost use Rattle.md_blocks.specs.Refusals.{RefusesFront};

use crate::blocks::{bits_from, write_block};
use crate::target::Target;
use md_graph::{NAMES, Set};
use md_text::{CHUNK_SIZE, Chunk, Piece};

// No piece has more bytes.
const PIECE_ROOM: usize = 8;

/// Gathers, for each member of a set at or above `from`, ascending, the piece `start` and the one
/// at the index of the member. What is gathered stands behind the bytes of the target: the chunk
/// goes to it when there is no room for the pieces of 64 members. A word of the set without members
/// costs a look at it. Condition: there is a piece at the index of each of these members.
///
/// # Errors
///
/// Those of the target, where it refuses a front of what is to stand there.
// Inlined, so that a chunk of the caller's own stays in registers.
#[inline(always)]
pub fn write_members<E, T: Target<E>, const W: usize>(
    set: &Set<W>,
    from: u32,
    start: Piece,
    pieces: &[Piece],
    chunk: &mut Chunk,
    target: &mut T,
) -> Result<(), E>
    requires there { All (λ v. v < length pieces.now) (ascending_from set.now from) }
    ensures written { OnOk result (T.bytes target.new ++ chunk.new
        ≡ (T.bytes target.old ++ chunk.old)
        ++ texts_at pieces.now (piece_text start) (ascending_from set.now from)) }
    ensures text { OnOk result (T.text target.new ≡ T.text target.old) }
    ensures refused { IfErr result (λ reason. RefusesFront T.bytes T.text T.may_refuse target.old
        ((T.bytes target.old ++ chunk.old)
        ++ texts_at pieces.now (piece_text start) (ascending_from set.now from)) reason) }
{
    let Some(last) = set.last() else {
        return Ok(());
    };
    let mut next = first_word(set, from, last);
    while let Some((first, bits)) = next {
        make_room(16 * 64, chunk, target)?;
        write_block(first, bits, start, pieces, chunk);
        next = next_word(set, first + 64, last);
    }
    Ok(())
}

/// Gathers two pieces behind the bytes of the chunk; where it has no room for them, the target
/// takes those first.
///
/// # Errors
///
/// Those of the target, where it refuses what is gathered.
#[inline(always)]
pub fn put_two<E, T: Target<E>>(
    target: &mut T,
    first: Piece,
    second: Piece,
    chunk: &mut Chunk,
) -> Result<(), E>
    ensures put { OnOk result (T.bytes target.new ++ chunk.new
        ≡ ((T.bytes target.old ++ chunk.old) ++ piece_text first) ++ piece_text second) }
    ensures text { OnOk result (T.text target.new ≡ T.text target.old) }
    ensures refused { IfErr result (λ reason. RefusesFront T.bytes T.text T.may_refuse target.old
        (T.bytes target.old ++ chunk.old) reason) }
{
    make_room(2 * PIECE_ROOM, chunk, target)?;
    chunk.put_both(first, second);
    Ok(())
}

/// Lets the target take the bytes of the chunk if there is no room for `more` behind them.
///
/// # Errors
///
/// Those of the target, where it refuses what is gathered.
#[inline(always)]
pub fn make_room<E, T: Target<E>>(more: usize, chunk: &mut Chunk, target: &mut T) -> Result<(), E>
    requires { more ≤ CHUNK_SIZE }
    ensures room { OnOk result (length chunk.new + more ≤ CHUNK_SIZE) }
    ensures same { OnOk result (T.bytes target.new ++ chunk.new ≡ T.bytes target.old ++ chunk.old) }
    ensures text { OnOk result (T.text target.new ≡ T.text target.old) }
    ensures refused { IfErr result (λ reason. RefusesFront T.bytes T.text T.may_refuse target.old
        (T.bytes target.old ++ chunk.old) reason) }
{
    if chunk.room() < more {
        target.take_chunk(chunk)?;
    }
    Ok(())
}

// The name that the word of `from` begins with, and its bits from there on; None where the last
// member is below `from`.
#[inline(always)]
fn first_word<const W: usize>(set: &Set<W>, from: u32, last: u32) -> Option<(u32, u64)>
    requires last { IsGreatest set.now last }
    requires name { last < NAMES }
    requires word { last < 64 * W }
    ensures named { IfSome result (λ word. word.0 + 64 ≤ NAMES) }
    ensures aligned { IfSome result (λ word. word.0 % 64 ≡ 0) }
    ensures members { IfSome result (λ word. ascending_from set.now from
        ≡ bits_between word.0 word.1 64 ++ ascending_from set.now (word.0 + 64)) }
    ensures none { IfNone result (ascending_from set.now from ≡ []) }
{
    if last < from {
        return None;
    }
    let first = from / 64 * 64;
    Some((first, bits_from(set.block(first), from % 64)))
}

// The same for the first word from `from` on that has a member, where a word begins with `from`.
#[inline(always)]
fn next_word<const W: usize>(set: &Set<W>, from: u32, last: u32) -> Option<(u32, u64)>
    requires aligned { from % 64 ≡ 0 }
    requires last { IsGreatest set.now last }
    requires name { last < NAMES }
    requires word { last < 64 * W }
    ensures up { IfSome result (λ word. from ≤ word.0) }
    ensures named { IfSome result (λ word. word.0 + 64 ≤ NAMES) }
    ensures aligned { IfSome result (λ word. word.0 % 64 ≡ 0) }
    ensures members { IfSome result (λ word. ascending_from set.now from
        ≡ bits_between word.0 word.1 64 ++ ascending_from set.now (word.0 + 64)) }
    ensures none { IfNone result (ascending_from set.now from ≡ []) }
{
    if last < from {
        return None;
    }
    let mut first = from;
    let mut bits = set.block(first);
    while bits == 0 {
        first += 64;
        bits = set.block(first);
    }
    Some((first, bits))
}
