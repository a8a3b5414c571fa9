// Patterns of addresses.

/// The pattern of the addresses of a list of segments: the k-th address, k counted from 0, is a prefix, the first number
/// plus k, and a suffix. Prefix and suffix are parts of the first address.
#[derive(Clone, Copy, Debug, PartialEq, Eq)]
pub struct Pattern {
    /// How many bytes of the first address are the prefix.
    pub prefix_len: usize,
    /// Where the suffix begins in the first address.
    pub suffix_start: usize,
    /// The number of the first segment.
    pub first_number: u32,
    /// How many digits a number is padded to with zeros, at most 20; 0 where it isn't padded.
    pub width: u8,
}
