//! Spells what begins a line of an edge.
ghost use Rattle.std.specs.Prelude.{◌≡◌, ◌<◌, ◌≤◌, ℕ, List, [], ◌∷◌, ◌++◌, length};
ghost use Rattle.md_text.specs.Pieces.{piece_text};

use md_text::{Piece, piece_behind};

// What stands before the second number of a line and its space: the letter `e`, and a space and the
// first number, which `place` has before the byte that ends a line.
pub(crate) fn start_piece(place: Piece) -> Piece
    requires some { 0 < length (piece_text place) }
    requires short { length (piece_text place) ≤ 7 }
    ensures { (front : List ℕ) (last : ℕ) → piece_text place ≡ front ++ last ∷ []
        → piece_text result ≡ 101 ∷ front }
{
    let mut number = place;
    number.used -= 1;
    piece_behind(b'e', number)
}
