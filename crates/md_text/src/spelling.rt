//! Spells numbers as pieces.
ghost use Rattle.std.specs.Prelude.{◌≡◌, ◌+◌, ◌^◌, ◌<◌, ◌≤◌, [], ◌∷◌, ◌++◌, length, take};
ghost use Rattle.md_text.specs.Numbers.{decimal};
ghost use Rattle.md_text.specs.Pieces.{piece_text};

use crate::piece::Piece;

/// The digits of a number of at most five digits.
pub fn digits_piece(n: u32) -> Piece
    requires few { n < 10 ^ 5 }
    ensures text { piece_text result ≡ decimal n }
    ensures short { length (piece_text result) ≤ 5 }
{
    let mut bytes = [0; 8];
    let used = put_digits(&mut bytes, n);
    Piece { bytes, used }
}

/// The digits of a number of at most five digits, and the byte `end`.
pub fn number_piece(n: u32, end: u8) -> Piece
    requires few { n < 10 ^ 5 }
    ensures text { piece_text result ≡ decimal n ++ end ∷ [] }
    ensures short { length (piece_text result) ≤ 6 }
{
    let mut bytes = [0; 8];
    let used = put_digits(&mut bytes, n);
    bytes[used] = end;
    Piece {
        bytes,
        used: used + 1,
    }
}

/// The byte `first`, and a piece of at most seven bytes behind it.
pub fn piece_behind(first: u8, piece: Piece) -> Piece
    requires short { length (piece_text piece) ≤ 7 }
    ensures text { piece_text result ≡ first ∷ piece_text piece }
    ensures count { length (piece_text result) ≡ length (piece_text piece) + 1 }
{
    let mut bytes = [first; 8];
    bytes[1..8].copy_from_slice(&piece.bytes[..7]);
    Piece {
        bytes,
        used: piece.used + 1,
    }
}

// Writes the digits of a number of at most five digits at the front, and says how many they are.
fn put_digits(bytes: &mut [u8; 8], n: u32) -> usize
    requires { n < 10 ^ 5 }
    ensures text { take result bytes.new ≡ decimal n }
    ensures count { result ≡ length (decimal n) }
    ensures short { result ≤ 5 }
{
    if n < 10 {
        bytes[0] = b'0' + n as u8;
        return 1;
    }
    let at = put_digits(bytes, n / 10);
    bytes[at] = b'0' + (n % 10) as u8;
    at + 1
}
