//! The end of a text, gathered before it is appended.
ghost use Rattle.std.specs.Prelude.{◌≡◌, ◌≢◌, ℕ, ◌+◌, ◌*◌, ◌<◌, ◌≤◌, List, [], ◌++◌, length, take, IfSome, IfNone, OnOk, OnErr};
ghost use Rattle.std.specs.List.{All};
ghost use Rattle.md_text.specs.Pieces.{piece_text, texts_at};

use crate::piece::Piece;
use std::alloc::AllocError;
use std::marker::Model;

/// How many bytes a chunk holds at most.
pub const CHUNK_SIZE: usize = 1920;

/// Bytes that are gathered, to be appended to a text together.
// How many are used stands before the bytes and has 32 bits: so the compiler sees that no byte is
// written over it, and keeps it in a register while a loop gathers pieces.
#[derive(Drop)]
pub struct Chunk {
    used: u32,
    bytes: [u8; CHUNK_SIZE],
}

impl Model for Chunk {
    ghost use Rattle.std.specs.Prelude.{List, ℕ, ◌≤◌, take};
    ghost use Rattle.md_text.specs.declared.chunk.TheConstants.{CHUNK_SIZE};

    ghost Value = { List ℕ };

    ghost view = { λ c. take c.used c.bytes };

    ghost invariant = { λ c. c.used ≤ CHUNK_SIZE };
}

impl Chunk {
    /// A chunk without bytes.
    pub fn new() -> Self
        ensures value { result ≡ [] }
    {
        Chunk {
            used: 0,
            bytes: [0; CHUNK_SIZE],
        }
    }

    /// For how many bytes more there is room.
    #[inline]
    pub fn room(&self) -> usize
        ensures size { length self.now + result ≡ CHUNK_SIZE }
    {
        CHUNK_SIZE - self.used as usize
    }

    /// Lets the bytes go.
    #[inline]
    pub fn clear(&mut self)
        ensures changed { self.new ≡ [] }
    {
        self.used = 0;
    }

    /// Gathers two pieces behind the others. There has to be room for sixteen bytes: up to so many
    /// are written.
    #[inline]
    pub fn put_both(&mut self, first: Piece, second: Piece)
        requires room { length self.old + 16 ≤ CHUNK_SIZE }
        ensures text { self.new ≡ (self.old ++ piece_text first) ++ piece_text second }
        ensures within { length self.new ≤ length self.old + 16 }
    {
        let at = put_piece(&mut self.bytes, self.used, first);
        self.used = put_piece(&mut self.bytes, at, second);
    }

    /// Gathers, for each of the indices, the first piece and behind it the one at that index. There
    /// has to be room for sixteen bytes each.
    #[inline(always)]
    pub fn put_each(&mut self, first: Piece, pieces: &[Piece], indices: &[u32])
        requires there { All (λ i. i < length pieces.now) indices.now }
        requires room { length self.old + 16 * length indices.now ≤ CHUNK_SIZE }
        ensures text { self.new ≡ self.old ++ texts_at pieces.now (piece_text first) indices.now }
        ensures within { length self.new ≤ length self.old + 16 * length indices.now }
    {
        self.used = put_pieces(&mut self.bytes, self.used, first, pieces, indices);
    }

    /// Appends the bytes to a text, so that none are gathered. Errors: want of memory; both then
    /// stay.
    pub fn flush(&mut self, text: &mut Vec<u8>) -> Result<(), AllocError>
        ensures appended { OnOk result (text.new.items ≡ text.old.items ++ self.old) }
        ensures emptied { OnOk result (self.new ≡ []) }
        ensures text_stays { OnErr result (text.new.items ≡ text.old.items) }
        ensures stays { OnErr result (self.new ≡ self.old) }
    {
        text.extend_from_slice(&self.bytes[..self.used as usize])?;
        self.used = 0;
        Ok(())
    }

    /// What stands behind the bytes in a text that begins with them: none are gathered then. None
    /// where the text doesn't begin with them; they then stay.
    #[inline]
    pub fn strip_from<'a>(&mut self, text: &'a [u8]) -> Option<&'a [u8]>
        ensures begins { IfSome result (λ tail. text.now ≡ self.old ++ tail.now) }
        ensures emptied { IfSome result (λ tail. self.new ≡ []) }
        ensures other { IfNone result ((tail : List ℕ) → text.now ≢ self.old ++ tail) }
        ensures stays { IfNone result (self.new ≡ self.old) }
    {
        match text.strip_prefix(&self.bytes[..self.used as usize]) {
            Some(tail) => {
                self.used = 0;
                Some(tail)
            }
            None => None,
        }
    }
}

// Writes, for each of the indices, the first piece and the one at that index behind the first `at`
// bytes, and says how many they then are.
#[inline(always)]
fn put_pieces(
    chunk: &mut [u8; CHUNK_SIZE],
    at: u32,
    first: Piece,
    pieces: &[Piece],
    indices: &[u32],
) -> u32
    requires there { All (λ i. i < length pieces.now) indices.now }
    requires room { at + 16 * length indices.now ≤ CHUNK_SIZE }
    ensures text { take result chunk.new
        ≡ take at chunk.old ++ texts_at pieces.now (piece_text first) indices.now }
    ensures within { result ≤ at + 16 * length indices.now }
{
    let mut end = at;
    for i in indices {
        let middle = put_piece(chunk, end, first);
        end = put_piece(chunk, middle, pieces[*i as usize]);
    }
    end
}

// Writes a piece behind the first `at` bytes, and says how many they then are. Eight bytes are
// written, so that what stood behind the piece is lost.
#[inline(always)]
fn put_piece(chunk: &mut [u8; CHUNK_SIZE], at: u32, piece: Piece) -> u32
    requires { at + 8 ≤ CHUNK_SIZE }
    ensures text { take result chunk.new ≡ take at chunk.old ++ piece_text piece }
    ensures within { result ≤ at + 8 }
{
    let at = at as usize;
    chunk[at..at + 8].copy_from_slice(&piece.bytes);
    (at + piece.used) as u32
}
