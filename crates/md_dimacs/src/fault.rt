//! What may be wrong with a DIMACS edge file.

/// What is wrong with a line, or with the whole file. Of a line the first fault is named, in the
/// order in which its class of lines lists them (`specs/Line.antt`).
#[derive(Clone, Copy, Debug, PartialEq, Eq)]
pub enum DimacsKind {
    /// No line is a problem line. The number of the line is then one more than the number of lines.
    NoProblemLine = 1,
    /// A problem line stood before this one.
    SecondProblemLine,
    /// No problem line stands before this edge line.
    EdgeBeforeProblem,
    /// A field is no number of 1 to 18 digits.
    BadNumber,
    /// An end of an edge is 0, or above the number of vertices.
    VertexOutOfRange,
    /// Both ends of an edge are the same vertex.
    Loop,
    /// The line is of no class, or a problem line names neither `edge` nor `col`.
    UnknownLine,
    /// There are as many vertices as the limit that was handed in, or more; no vertex has the name
    /// 0.
    TooManyVertices,
    /// A problem line hasn't four fields, or an edge line hasn't three.
    FieldCount,
}

/// The first fault of a file.
#[derive(Clone, Copy, Debug, PartialEq, Eq)]
pub struct DimacsFault {
    /// What is wrong.
    pub kind: DimacsKind,
    /// The number of the line, counted from 1; every line counts.
    pub line: u64,
}
