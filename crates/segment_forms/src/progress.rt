// How far the addresses follow a pattern.

use crate::Pattern;

/// How far the addresses of a list follow a pattern.
#[derive(Clone, Copy)]
pub enum Progress {
    /// There is no address yet.
    Empty,
    /// There is one address.
    One,
    /// There are two or more addresses, which follow a pattern. The next number is that of one more address, at most 2^32.
    Followed { pattern: Pattern, next: u64 },
    /// There are two or more addresses without a pattern.
    Lost,
}
