// Pieces of lines.

/// A piece of a line.
#[derive(Clone, Copy)]
pub enum Piece<'a> {
    /// Bytes as they are.
    Text(&'a [u8]),
    /// A number in decimal digits.
    Number(u64),
    /// A number that may need more than 64 bits, in decimal digits.
    Wide(u128),
}
