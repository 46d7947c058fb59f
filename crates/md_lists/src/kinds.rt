//! Kinds of places.

/// What stands at a place: a leaf with a name, or a parallel or a series node.
#[derive(Clone, Copy, Debug, PartialEq, Eq)]
pub enum PlaceKind {
    Leaf(u32),
    Parallel,
    Series,
}
