//! A short text in place, for lines that have to be made without memory.
ghost use Rattle.std.specs.Prelude.{◌≡◌, ◌+◌, ◌≤◌, [], ◌++◌, length};
ghost use Rattle.md_text.specs.Numbers.{decimal};
ghost use Rattle.md_top.specs.declared.short.TheConstants.{ROOM};

use std::marker::Model;

/// How many bytes a short text may have.
pub const ROOM: usize = 144;

/// A text of at most `ROOM` bytes, kept in place.
#[derive(Drop)]
pub struct ShortText {
    bytes: [u8; ROOM],
    len: usize,
}

impl Model for ShortText {
    ghost use Rattle.std.specs.Prelude.{ℕ, List, ◌≤◌, take};
    ghost use Rattle.md_top.specs.declared.short.TheConstants.{ROOM};

    ghost Value = { List ℕ };

    ghost view = { λ t. take t.len t.bytes };

    ghost invariant = { λ t. t.len ≤ ROOM };
}

impl ShortText {
    /// No byte.
    pub fn new() -> ShortText
        ensures items { result ≡ [] }
        ensures len { length result ≡ 0 }
    {
        ShortText {
            bytes: [0; ROOM],
            len: 0,
        }
    }

    /// Appends a piece. Condition: there is room for it.
    pub fn push(&mut self, piece: &[u8])
        requires { length self.old + length piece.now ≤ ROOM }
        ensures items { self.new ≡ self.old ++ piece.now }
        ensures len { length self.new ≡ length self.old + length piece.now }
    {
        self.bytes[self.len..self.len + piece.len()].copy_from_slice(piece);
        self.len += piece.len();
    }

    /// Appends the decimal digits of a number. Condition: there is room for them.
    pub fn push_decimal(&mut self, n: u64)
        requires { length self.old + length (decimal n) ≤ ROOM }
        ensures items { self.new ≡ self.old ++ decimal n }
        ensures len { length self.new ≡ length self.old + length (decimal n) }
    {
        if n < 10 {
            self.push(&[b'0' + n as u8]);
            return;
        }
        self.push_decimal(n / 10);
        self.push(&[b'0' + (n % 10) as u8]);
    }

    /// The bytes.
    pub fn as_slice(&self) -> &[u8]
        ensures { result.now ≡ self.now }
    {
        &self.bytes[..self.len]
    }
}
