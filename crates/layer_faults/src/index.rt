// Why the `sidx` of a media file gives no segments.
use box_reader::BoxFault;
use thiserror::Error;

/// Why the `sidx` of a media file gives no segments. The variants are tried in their order, `Nested` and `ZeroSize`
/// reference by reference; a number is a byte offset in the file.
#[derive(Clone, Copy, Debug, PartialEq, Eq, Error)]
pub enum FileFault {
    /// The store has no such file.
    #[error("there is no such file")]
    Absent,
    /// The index range isn't a sequence of boxes up to a `sidx`, or the `sidx` is shorter than its fields.
    #[error("the bytes are no boxes up to an index")]
    Boxes(BoxFault),
    /// The index range has no `sidx` of version 0 or 1 (ISO/IEC 14496-12, 8.16.3).
    #[error("there is no index")]
    NoIndex,
    /// Its timescale is 0: the `sidx`.
    #[error("the timescale is 0")]
    Scale(u64),
    /// It has no references: the `sidx`.
    #[error("there are no references")]
    Empty(u64),
    /// A reference is to another `sidx`: the reference.
    #[error("a reference to a further index")]
    Nested(u64),
    /// A reference covers no bytes: the reference.
    #[error("a reference to no byte")]
    ZeroSize(u64),
    /// A covered byte is at 2^63 or later: the `sidx`.
    #[error("the references cover too many bytes")]
    Range(u64),
}
