//! What checking a report answers.

/// The answer of checking a report.
#[derive(Clone, Copy, Debug, PartialEq, Eq)]
pub enum CheckAnswer {
    /// The report is valid.
    Accepted,
    /// The report is not valid, and this line of it, counted from 1, is the first that no valid
    /// report has behind those before it. It may be the line that is missing, or one too many.
    Rejected(u64),
}
