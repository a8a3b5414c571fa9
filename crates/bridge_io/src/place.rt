// Positions in a file.

/// A byte of a file, or its end.
#[derive(Clone, Copy, Debug, PartialEq, Eq)]
pub struct Place {
    /// Its byte offset.
    pub at: u64,
    /// Its line number: one more than the number of LF bytes before it.
    pub line: u64,
}
