//! Short texts that are copied whole, eight bytes at a time.
ghost use Rattle.std.specs.Prelude.{◌≤◌};

/// A text of at most eight bytes: the first `used` of `bytes`.
#[derive(Clone, Copy)]
pub struct Piece {
    pub bytes: [u8; 8],
    pub used: usize,
    pub ghost within: { used ≤ 8 },
}
