// The pieces of a template.
ghost use Rattle.std.specs.Prelude.{◌≡◌, ◌%◌, ◌≤◌, [], ◌∷◌, ◌++◌, count_by, decimal, string_bytes, OnOk, MatchResult};
ghost use Rattle.std.specs.List.{list_any};
ghost use Rattle.template_ids.specs.declared.fault.TemplateFault.TheVariants.{Memory};
ghost use Rattle.template_ids.specs.Templates.{ids_of, is_dollar, padded};
ghost use Rattle.template_ids.specs.Pieces.{PiecesOf, IsFirstFault, IsPieceOf, piece_text, is_quantity};

use crate::identifier::{Identifier, Quantity};
use crate::{BorrowedIds, TemplateFault};
use itoa::Buffer;
use std::alloc::{AllocError, Global};

/// The most digits that a number is padded to.
const ZEROS: &str = "00000000000000000000";

/// A piece of a template.
#[derive(Clone, Copy)]
pub enum Piece {
    /// The bytes `start..end` of the template's text.
    Literal { start: usize, end: usize },
    /// What an identifier stands for.
    Value(Identifier),
}

/// Cuts a text with an even number of `$` into its pieces.
pub fn cut(alloc: Global, text: &str) -> Result<Vec<Piece>, TemplateFault>
    requires { count_by is_dollar text.now % 2 ≡ 0 }
    ensures { MatchResult result (λ pieces. PiecesOf text.now pieces.items) (IsFirstFault text.now) }
{
    let mut pieces = Vec::new(alloc);
    let mut rest = text;
    while let Some((literal, after)) = rest.split_once('$') {
        let Some((identifier, after)) = after.split_once('$') else {
            return Err(TemplateFault::LoneDollar);
        };
        let start = text.len() - rest.len();
        let end = start + literal.len();
        add(&mut pieces, Piece::Literal { start, end })?;
        add(&mut pieces, Piece::Value(Identifier::read(identifier)?))?;
        rest = after;
    }
    let start = text.len() - rest.len();
    let end = text.len();
    add(&mut pieces, Piece::Literal { start, end })?;
    Ok(pieces)
}

fn add(pieces: &mut Vec<Piece>, piece: Piece) -> Result<(), TemplateFault>
    ensures { MatchResult result (λ _. pieces.new.items ≡ pieces.old.items ++ piece ∷ []) (λ fault. fault ≡ Memory) }
{
    pieces.push(piece).map_err(|_| TemplateFault::Memory)
}

/// Whether some piece is this number.
pub fn has(pieces: &[Piece], wanted: Quantity) -> bool
    ensures { result ≡ list_any (is_quantity wanted) pieces.now }
{
    pieces.iter().any(|piece| piece.is_quantity(wanted))
}

impl Piece {
    fn is_quantity(self, wanted: Quantity) -> bool
        ensures { result ≡ is_quantity wanted self }
    {
        match self {
            Piece::Value(Identifier::Padded(quantity, _)) => wanted == quantity,
            _ => false,
        }
    }

    /// A guess of how many bytes the piece takes in a name at most.
    pub fn room(self, ids: &BorrowedIds<'_>) -> usize {
        match self {
            Piece::Literal { start, end } => end.saturating_sub(start),
            Piece::Value(Identifier::Dollar) => 1,
            Piece::Value(Identifier::RepresentationId) => ids.id.len(),
            Piece::Value(Identifier::Padded(..)) => ZEROS.len(),
        }
    }

    /// Appends what the piece of a template's text stands for.
    pub fn push_to(
        self,
        name: &mut String,
        text: &str,
        ids: &BorrowedIds<'_>,
    ) -> Result<(), AllocError>
        requires { IsPieceOf text.now self }
        ensures { OnOk result (string_bytes name.new ≡ string_bytes name.old ++ piece_text text.now (ids_of ids.now) self) }
    {
        match self {
            Piece::Literal { start, end } => name.push_str(&text[start..end]),
            Piece::Value(Identifier::Dollar) => name.push_str("$"),
            Piece::Value(Identifier::RepresentationId) => name.push_str(ids.id),
            Piece::Value(Identifier::Padded(quantity, width)) => push_padded(
                name,
                ids.number_of(quantity),
                width,
            ),
        }
    }
}

/// Appends a number, padded with zeros to a width.
pub fn push_padded(name: &mut String, number: u64, width: u8) -> Result<(), AllocError>
    requires { width ≤ 20 }
    ensures { OnOk result (string_bytes name.new ≡ string_bytes name.old ++ padded width (decimal number)) }
{
    let mut buffer = Buffer::new();
    let digits = buffer.format(number);
    let zeros = usize::from(width).saturating_sub(digits.len());
    name.push_str(&ZEROS[..zeros])?;
    name.push_str(digits)
}
