//! The lowest numbers in digits, each spelled once.
ghost use Rattle.std.specs.Prelude.{◌≡◌, ◌^◌, ◌<◌, ◌≤◌, max, [], length, OnOk, OnErr};
ghost use Rattle.md_text.specs.Pieces.{AreNumerals};

use crate::piece::Piece;
use crate::spelling::digits_piece;
use std::alloc::{AllocError, Global};
use std::marker::Model;

/// The digits of the lowest numbers, each piece at the index of its number. They serve many texts,
/// one after the other, and are spelled as far as they were asked for.
#[derive(Drop)]
pub struct Numerals {
    pieces: Vec<Piece>,
}

impl Model for Numerals {
    ghost use Rattle.std.specs.Prelude.{List};
    ghost use Rattle.md_text.specs.declared.piece.Piece.{Piece};
    ghost use Rattle.md_text.specs.Pieces.{AreNumerals};

    ghost Value = { List Piece };

    ghost view = { λ n. n.pieces.items };

    ghost invariant = { λ n. AreNumerals n.pieces.items };
}

impl Numerals {
    /// Without a number and memory at first.
    pub fn new(alloc: Global) -> Numerals
        ensures none { result ≡ [] }
    {
        Numerals {
            pieces: Vec::new(alloc),
        }
    }

    /// Spells the numbers below `count`, those that aren't spelled yet. Condition: they have at
    /// most five digits. Errors: want of memory; nothing then changes.
    #[inline]
    pub fn spell(&mut self, count: u32) -> Result<(), AllocError>
        requires few { count ≤ 10 ^ 5 }
        ensures there { OnOk result (count ≤ length self.new) }
        ensures no_more { OnOk result (length self.new ≡ max count (length self.old)) }
        ensures stays { OnErr result (self.new ≡ self.old) }
    {
        if self.pieces.len() < count as usize {
            spell_more(&mut self.pieces, count)?;
        }
        Ok(())
    }

    /// The pieces, each at the index of its number.
    #[inline]
    pub fn as_slice(&self) -> &[Piece]
        ensures pieces { result.now ≡ self.now }
        ensures spelled { AreNumerals result.now }
    {
        self.pieces.as_slice()
    }
}

// Appends the digits of the next numbers, up to those below `count`.
fn spell_more(pieces: &mut Vec<Piece>, count: u32) -> Result<(), AllocError>
    requires count { count ≤ 10 ^ 5 }
    requires more { length pieces.old.items < count }
    requires spelled { AreNumerals pieces.old.items }
    ensures there { OnOk result (length pieces.new.items ≡ count) }
    ensures spelled { AreNumerals pieces.new.items }
    ensures stays { OnErr result (pieces.new.items ≡ pieces.old.items) }
{
    let spelled = pieces.len() as u32;
    pieces.reserve(count.saturating_sub(spelled) as usize)?;
    for number in spelled..count {
        pieces.push_reserved(digits_piece(number));
    }
    Ok(())
}
