// How long names are at least, and whether they are one segment each.
ghost use Rattle.std.specs.Prelude.{◌≡◌, ◌<◌, ◌^◌, ℕ, true, List};
ghost use Rattle.std.specs.List.{list_all};
ghost use Rattle.template_ids.specs.Pieces.{IsPieceOf};
ghost use Rattle.template_ids.specs.Long.{ForEach, IsAtLeast, IsSegment, is_segment_byte, names_of, texts_of, values_of};

use crate::Template;
use crate::identifier::Identifier;
use crate::piece::Piece;

impl Template {
    /// How many bytes each segment's name has at least, with this id and bandwidth.
    pub fn least_len(&self, id: &str, bandwidth: u64) -> usize
        ensures { ForEach (names_of self.now id.now bandwidth) (IsAtLeast result) }
    {
        let mut len = 0usize;
        for piece in self.pieces() {
            len = len.saturating_add(piece.least_len(id));
        }
        len
    }

    /// Whether each segment's name is one segment of a path, with this id and bandwidth: it has only bytes of file names,
    /// and no `/`.
    pub fn names_segments(&self, id: &str, bandwidth: u64) -> bool
        ensures { result ≡ true → ForEach (names_of self.now id.now bandwidth) IsSegment }
    {
        let template = self.as_str();
        let id_is = has_segment_bytes(id.as_bytes());
        for piece in self.pieces() {
            if !piece.is_segment(template, id_is) {
                return false;
            }
        }
        true
    }
}

impl Piece {
    /// How many bytes the piece takes in a name at least.
    fn least_len(self, id: &str) -> usize
        ensures { (media : List ℕ) (bandwidth : ℕ) → IsPieceOf media self
            → ForEach (texts_of media id.now bandwidth self) (IsAtLeast result) }
    {
        match self {
            Piece::Literal { start, end } => end.saturating_sub(start),
            Piece::Value(Identifier::Dollar) => 1,
            Piece::Value(Identifier::RepresentationId) => id.len(),
            Piece::Value(Identifier::Padded(..)) => 0,
        }
    }

    /// Whether what the piece of a template's text gives has only bytes of segments, where the id has only those.
    fn is_segment(self, text: &str, id_is: bool) -> bool
        requires { IsPieceOf text.now self }
        ensures { result ≡ true → (id : List ℕ) (bandwidth : ℕ) → id_is ≡ list_all is_segment_byte id → bandwidth < 2 ^ 64
            → ForEach (texts_of text.now id bandwidth self) IsSegment }
    {
        match self {
            Piece::Literal { start, end } => has_segment_bytes(text[start..end].as_bytes()),
            Piece::Value(identifier) => identifier.is_segment(id_is),
        }
    }
}

impl Identifier {
    /// The same for an identifier.
    fn is_segment(self, id_is: bool) -> bool
        ensures { result ≡ true → (id : List ℕ) (bandwidth : ℕ) → id_is ≡ list_all is_segment_byte id → bandwidth < 2 ^ 64
            → ForEach (values_of id bandwidth self) IsSegment }
    {
        match self {
            Identifier::Dollar => false,
            Identifier::RepresentationId => id_is,
            Identifier::Padded(..) => true,
        }
    }
}

fn has_segment_bytes(text: &[u8]) -> bool
    ensures { result ≡ list_all is_segment_byte text.now }
{
    text.iter().all(|byte| is_segment_byte(*byte))
}

fn is_segment_byte(byte: u8) -> bool
    ensures { result ≡ is_segment_byte byte }
{
    byte.is_ascii_alphanumeric()
        || matches!(byte, b'-' | b'.' | b'_' | b'~' | b'+' | b'=' | b',' | b'@')
}
