//! What the pairs of a prime node need, whether they are written or compared with a text.
ghost use Rattle.std.specs.Prelude.{◌≡◌, ◌<◌, ◌≤◌, ◌^◌, ℕ, [], length, get_or, IfOk};
ghost use Rattle.md_tree.specs.Held.{Ascends};
ghost use Rattle.md_text.specs.Pieces.{AreNumerals};
ghost use Rattle.md_outline.specs.HeadPairs.{SpellPositions};

use md_graph::Memory;
use md_text::{Chunk, Numerals, Piece, digits_piece};
use std::alloc::Global;
use std::marker::Model;

/// Pieces at the places of names: of the heads of a node each has its position there, in digits.
/// They serve many nodes, one after the other, and keep their memory.
#[derive(Drop)]
pub struct HeadPlaces {
    numerals: Numerals,
    pieces: Vec<Piece>,
}

impl Model for HeadPlaces {
    ghost use Rattle.std.specs.Prelude.{List};
    ghost use Rattle.md_text.specs.declared.piece.Piece.{Piece};

    ghost Value = { List Piece };

    ghost view = { λ p. p.pieces.items };
}

impl HeadPlaces {
    /// Without places and memory at first.
    pub fn new(alloc: Global) -> HeadPlaces
        ensures none { result ≡ [] }
    {
        HeadPlaces {
            numerals: Numerals::new(alloc),
            pieces: Vec::new(alloc),
        }
    }

    /// Puts down the position of each head at its place. Conditions: there are heads, they ascend,
    /// and no position has more than five digits. Errors: want of memory.
    pub fn spell(&mut self, heads: &[u32]) -> Result<(), Memory>
        requires some { 0 < length heads.now }
        requires ascending { Ascends heads.now }
        requires few { length heads.now ≤ 10 ^ 5 }
        ensures spelled { IfOk result (λ _. SpellPositions self.new 0 heads.now) }
    {
        self.numerals.spell(heads.len() as u32)?;
        spell_places(&mut self.pieces, heads, self.numerals.as_slice())
    }

    /// The pieces, each at its place.
    pub fn as_slice(&self) -> &[Piece]
        ensures pieces { result.now ≡ self.now }
    {
        self.pieces.as_slice()
    }
}

/// What the pairs of a prime node need beside the text: the places of its heads, a chunk in which
/// pairs are gathered, and the mark before the next pair.
#[derive(Drop)]
pub struct PairSpace {
    pub places: HeadPlaces,
    pub chunk: Chunk,
    pub mark: u8,
}

impl PairSpace {
    /// Without places, with nothing gathered, and with the mark before a first pair.
    pub fn new(alloc: Global) -> PairSpace
        ensures places { result.places ≡ [] }
        ensures chunk { result.chunk ≡ [] }
        ensures mark { result.mark ≡ 59 }
    {
        PairSpace {
            places: HeadPlaces::new(alloc),
            chunk: Chunk::new(),
            mark: b';',
        }
    }
}

// Puts down the position of each head at its place.
fn spell_places(places: &mut Vec<Piece>, heads: &[u32], numerals: &[Piece]) -> Result<(), Memory>
    requires some { 0 < length heads.now }
    requires ascending { (i j : ℕ) → i < j → j < length heads.now
        → get_or heads.now i 0 < get_or heads.now j 0 }
    requires numerals { AreNumerals numerals.now }
    requires there { length heads.now ≤ length numerals.now }
    ensures { IfOk result (λ _. SpellPositions places.new.items 0 heads.now) }
{
    make_places(places, heads[heads.len() - 1])?;
    for (position, head) in heads.iter().enumerate() {
        places[*head as usize] = numerals[position];
    }
    Ok(())
}

// Makes places, so that there is one for the name.
fn make_places(places: &mut Vec<Piece>, last: u32) -> Result<(), Memory>
    ensures { IfOk result (λ _. last < length places.new.items) }
{
    let count = last as usize + 1;
    if places.len() < count {
        places.resize(count, digits_piece(0))?;
    }
    Ok(())
}
