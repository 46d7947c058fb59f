//! The nodes of a tree in the order of its text: each before those below it, and the children from
//! the first to the last.

/// A node of a tree in its outline: a name, or a kind with the number of children.
#[derive(Clone, Copy, PartialEq, Eq, Debug)]
pub enum OutlinePart<K> {
    Name(u32),
    Node(K, u32),
}
