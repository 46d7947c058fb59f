//! What may be wrong with a file of graph6 and sparse6 lines.

/// What is wrong with a line. A line's first fault is named. In a graph6 line the order is: another
/// format, a bad byte, a size that isn't all there, a size that is spelt too long, too many
/// vertices, too few bytes, too many bytes, padding that isn't zero. In a sparse6 line it is: a bad
/// byte, a size that isn't all there, a size that is spelt too long, too many vertices, a loop. In
/// a digraph6 line it is that of a graph6 line, with a loop before the padding.
#[derive(Clone, Copy, Debug, PartialEq, Eq)]
pub enum G6Kind {
    /// A byte is below 63 or above 126.
    BadByte = 1,
    /// Fewer bytes would spell the size.
    BadSize,
    /// There are more vertices than the limit that was handed in.
    TooManyVertices,
    /// The line ends inside its size or inside its bits.
    Truncated,
    /// The line goes on behind its bits.
    TrailingBytes,
    /// A bit that fills up the last byte is 1.
    BadPadding,
    /// The line begins as one of another format: with `;` or `&`, or, where directed graphs are
    /// read, with another byte than `&`.
    OtherFormat,
    /// An edge that isn't left out, or an arc, has equal ends. Only sparse6 and digraph6 lines have
    /// this fault.
    Loop,
}

/// The first fault of a file.
#[derive(Clone, Copy, Debug, PartialEq, Eq)]
pub struct G6Fault {
    /// What is wrong.
    pub kind: G6Kind,
    /// The number of the line, counted from 1; empty lines count.
    pub line: u64,
}
