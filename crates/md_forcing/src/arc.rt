//! Arcs.

/// An edge with a direction.
#[derive(Clone, Copy, Debug, PartialEq, Eq, Hash, Drop)]
pub struct Arc {
    pub tail: u32,
    pub head: u32,
}
