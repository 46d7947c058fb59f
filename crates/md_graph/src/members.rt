//! The members of a set of names, one after the other.
ghost use Rattle.std.specs.Prelude.{◌≡◌, ℕ};

use crate::words::lowest;
use std::marker::Model;

/// The members of a set that are still to come, ascending: word by word, and in a word from bit to
/// bit. Those of the word at hand are the bits of `left`, counted from the name `first`.
#[derive(Drop)]
pub struct Members<'a> {
    pub(crate) words: &'a [u64],
    pub(crate) used: usize,
    pub(crate) first: u32,
    pub(crate) left: u64,
}

impl<'a> Model for Members<'a> {
    ghost use Rattle.std.specs.Prelude.{ℕ, List, length, ◌≡◌, ◌≤◌, ◌*◌, ◌/◌};
    ghost use Rattle.md_graph.specs.declared.TheConstants.{WORDS};

    ghost Value = { List ℕ };

    ghost use Rattle.md_graph.specs.Words.{members_left};

    ghost view = { λ m. members_left m.words.now m.used (m.first / 64) m.left };

    ghost invariant = { λ m. (m.used ≤ length m.words.now) × (m.used ≤ WORDS)
        × (m.first / 64 ≤ WORDS) × (64 * (m.first / 64) ≡ m.first) };
}

impl<'a> Iterator for Members<'a> {
    type Item = u32;

    ghost use Rattle.std.specs.Iterator.{YieldsFirst, item_count};

    ghost next_gives = { YieldsFirst (λ s. s) };

    ghost remaining = { item_count (λ s. s) };

    fn next(&mut self) -> Option<u32> {
        while self.left == 0 {
            let at = self.first as usize / 64 + 1;
            if self.used <= at {
                return None;
            }
            self.first += 64;
            self.left = self.words[at];
        }
        let (place, left) = lowest(self.left);
        self.left = left;
        Some(self.first + place)
    }
}
