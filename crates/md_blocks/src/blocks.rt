//! Writes pieces for the names of one word of bits, four at a time.
ghost use Rattle.std.specs.Prelude.{◌≡◌, ℕ, ◌+◌, ◌*◌, ◌^◌, ◌<◌, ◌≤◌, ◌∷◌, ◌++◌, length, nat_le, IfSome, IfNone, if◌then◌else◌};
ghost use Rattle.std.specs.Int.{bit_at};
ghost use Rattle.std.specs.List.{All};
ghost use Rattle.md_graph.specs.Words.{bits_between};
ghost use Rattle.md_text.specs.Pieces.{piece_text, texts_at};

use md_graph::lowest;
use md_text::{CHUNK_SIZE, Chunk, Piece};

// Gathers, for each 1 in `bits`, the piece `start` and the one at the index of its name: bit k is
// for the name `first + k`. There has to be such a piece for each of them, and room for the pieces
// of 64 names.
pub(crate) fn write_block(first: u32, bits: u64, start: Piece, pieces: &[Piece], chunk: &mut Chunk)
    requires there { All (λ w. w < length pieces.now) (bits_between first bits 64) }
    requires fits { first + 64 < 2 ^ 32 }
    requires room { length chunk.old + 16 * 64 ≤ CHUNK_SIZE }
    ensures written { chunk.new
        ≡ chunk.old ++ texts_at pieces.now (piece_text start) (bits_between first bits 64) }
{
    let left = write_fours(first, bits, start, pieces, chunk);
    write_others(first, left, start, pieces, chunk);
}

// Gathers the pieces of four names at a time, as long as there are four; says which bits are left.
#[inline(always)]
fn write_fours(first: u32, bits: u64, start: Piece, pieces: &[Piece], chunk: &mut Chunk) -> u64
    requires there { All (λ w. w < length pieces.now) (bits_between first bits 64) }
    requires fits { first + 64 < 2 ^ 32 }
    requires room { length chunk.old + 16 * length (bits_between first bits 64) ≤ CHUNK_SIZE }
    ensures there { All (λ w. w < length pieces.now) (bits_between first result 64) }
    ensures room { length chunk.new + 16 * length (bits_between first result 64) ≤ CHUNK_SIZE }
    ensures written { chunk.new
        ++ texts_at pieces.now (piece_text start) (bits_between first result 64)
        ≡ chunk.old ++ texts_at pieces.now (piece_text start) (bits_between first bits 64) }
{
    let mut left = bits;
    while let Some(found) = lowest_four(first, left) {
        let four = found.0;
        chunk.put_each(start, pieces, &four);
        left = found.1;
    }
    left
}

// Gathers the pieces of one name after the other.
#[inline(always)]
fn write_others(first: u32, bits: u64, start: Piece, pieces: &[Piece], chunk: &mut Chunk)
    requires there { All (λ w. w < length pieces.now) (bits_between first bits 64) }
    requires fits { first + 64 < 2 ^ 32 }
    requires room { length chunk.old + 16 * length (bits_between first bits 64) ≤ CHUNK_SIZE }
    ensures { chunk.new
        ≡ chunk.old ++ texts_at pieces.now (piece_text start) (bits_between first bits 64) }
{
    let mut left = bits;
    while let Some((name, others)) = lowest_name(first, left) {
        chunk.put_both(start, pieces[name as usize]);
        left = others;
    }
}

// The four lowest names whose bits are 1, and the other bits; None if there are fewer.
#[inline(always)]
fn lowest_four(first: u32, bits: u64) -> Option<([u32; 4], u64)>
    requires { first + 64 < 2 ^ 32 }
    ensures { IfSome result (λ found. (length found.0 ≡ 4)
        × (bits_between first bits 64 ≡ found.0 ++ bits_between first found.1 64)) }
{
    let (one, left) = lowest_name(first, bits)?;
    let (two, left) = lowest_name(first, left)?;
    let (three, left) = lowest_name(first, left)?;
    let (four, left) = lowest_name(first, left)?;
    Some(([one, two, three, four], left))
}

// The lowest name whose bit is 1, and the other bits, where bit k is for the name `first + k`.
#[inline(always)]
fn lowest_name(first: u32, bits: u64) -> Option<(u32, u64)>
    requires { first + 64 < 2 ^ 32 }
    ensures some { IfSome result (λ found.
        bits_between first bits 64 ≡ found.0 ∷ bits_between first found.1 64) }
    ensures none { IfNone result (bits ≡ 0) }
{
    if bits == 0 {
        return None;
    }
    let (place, others) = lowest(bits);
    Some((first + place, others))
}

// The bits from a place on.
#[inline(always)]
pub(crate) fn bits_from(bits: u64, place: u32) -> u64
    requires place { place < 64 }
    ensures bits { (k : ℕ) → k < 64
        → bit_at result k ≡ (if nat_le place k then bit_at bits k else 0) }
{
    bits >> place << place
}
