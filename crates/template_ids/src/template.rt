// Segment templates.
ghost use Rattle.std.specs.Prelude.{◌≡◌, ℕ, List, ◌++◌, string_bytes, IfOk, OnOk, Ok};
ghost use Rattle.bridge_io.specs.Answer.{Gives};

use crate::identifier::Quantity;
use crate::piece::{self, Piece};
use crate::{BorrowedIds, Filled, Ids, TemplateFault};
use bridge_io::{NoMemory, Text};
use std::alloc::Global;
use std::marker::Model;
use std::rc::Rc;

/// The most bytes that a file name has.
const MAX_NAME_LEN: usize = 255;

/// A segment template of an MPD (ISO/IEC 23009-1, 5.3.9.4.4).
///
/// The text is cut at each `$`, and the parts with odd indices, counted from 0, are identifiers: an empty one stands
/// for a `$`, `RepresentationID` for the Representation's id, and `Number`, `Time` and `Bandwidth` for a number. Each
/// of these three may carry a format `%0wd`, with w of 1 to 3 digits and a value of 1 to 20, which pads the number
/// with zeros to w digits.
#[derive(Drop)]
pub struct Template {
    parts: Rc<Parts>,
}

/// A template's text, and the pieces that it is cut into.
#[derive(Drop)]
struct Parts {
    text: Text,
    pieces: Vec<Piece>,
}

impl Model for Template {
    ghost use Rattle.std.specs.Prelude.{◌≡◌, ℕ, List, Ok};
    ghost use Rattle.template_ids.specs.Templates.{template_of};
    ghost use Rattle.template_ids.specs.Pieces.{AreOf};

    ghost Value = { List ℕ };

    ghost view = { λ t. t.parts.value.text };

    ghost invariant = { λ t. let parts = t.parts.value in (template_of parts.text ≡ Ok parts.text) × AreOf parts.text parts.pieces.items };
}

impl Template {
    ghost use Rattle.template_ids.specs.Templates.{ids_of, named, template_of, refusal, uses_number, uses_time};
    ghost use Rattle.template_ids.specs.FileNames.{names_files};
    ghost use Rattle.template_ids.specs.Filled.{IsFilled};
    ghost use Rattle.template_ids.specs.Pieces.{AreOf};

    /// Reads a text as a template.
    ///
    /// The text is rejected where the number of `$` is odd, otherwise for its first invalid identifier, otherwise
    /// where it has both `Number` and `Time`.
    pub fn read(alloc: Global, text: &str) -> Result<Template, TemplateFault>
        ensures { Gives (λ template. template) refusal result (template_of text.now) }
    {
        let dollars = text.bytes().filter(|byte| *byte == b'$').count();
        if dollars % 2 == 1 {
            return Err(TemplateFault::LoneDollar);
        }
        let pieces = piece::cut(alloc, text)?;
        if piece::has(&pieces, Quantity::Number) && piece::has(&pieces, Quantity::Time) {
            return Err(TemplateFault::Both);
        }
        let text = Text::copy_of(alloc, text)?;
        Ok(Template::of(alloc, text, pieces)?)
    }

    fn of(alloc: Global, text: Text, pieces: Vec<Piece>) -> Result<Template, NoMemory>
        requires is { template_of text ≡ Ok text }
        requires pieces { AreOf text pieces.items }
        ensures { IfOk result (λ template. template ≡ text) }
    {
        let parts = Rc::new(alloc, Parts { text, pieces })?;
        Ok(Template { parts })
    }

    /// The same template again. It shares the text.
    pub fn share(&self) -> Result<Template, NoMemory>
        ensures { IfOk result (λ template. template ≡ self.now) }
    {
        let parts = self.parts.clone()?;
        Ok(Template { parts })
    }

    /// The template's text.
    pub fn as_str(&self) -> &str
        ensures text { result.now ≡ self.now }
        ensures template { template_of self.now ≡ Ok self.now }
    {
        self.parts.text.as_str()
    }

    /// The pieces of the template's text.
    pub(crate) fn pieces(&self) -> &[Piece]
        ensures { AreOf self.now result.now }
    {
        self.parts.pieces.as_slice()
    }

    /// The text of the template with each identifier replaced by what it stands for.
    pub fn name(&self, alloc: Global, ids: &Ids) -> Result<Text, NoMemory>
        ensures { IfOk result (λ name. name ≡ named self.now ids.now) }
    {
        self.name_with(alloc, &ids.borrowed())
    }

    /// The same, with an id that isn't copied.
    pub fn name_with(&self, alloc: Global, ids: &BorrowedIds<'_>) -> Result<Text, NoMemory>
        ensures { IfOk result (λ name. name ≡ named self.now (ids_of ids.now)) }
    {
        let mut name = String::with_capacity(alloc, self.room(ids))?;
        self.push_name(&mut name, ids)?;
        Ok(Text::from(name))
    }

    /// Appends the same to a text (ISO/IEC 23009-1, 5.3.9.4.4). `NoMemory` comes where the text can't grow.
    pub fn push_name(&self, text: &mut String, ids: &BorrowedIds<'_>) -> Result<(), NoMemory>
        ensures { OnOk result (string_bytes text.new ≡ string_bytes text.old ++ named self.now (ids_of ids.now)) }
    {
        let template = self.parts.text.as_str();
        for piece in &self.parts.pieces {
            piece.push_to(text, template, ids)?;
        }
        Ok(())
    }

    /// The names of the segments that have this id and bandwidth.
    pub fn filled(&self, alloc: Global, id: &str, bandwidth: u64) -> Result<Filled, NoMemory>
        ensures { IfOk result (IsFilled self.now id.now bandwidth) }
    {
        let template = self.parts.text.as_str();
        let mut filled = Filled::empty(alloc);
        for piece in &self.parts.pieces {
            filled.push(alloc, *piece, template, id, bandwidth)?;
        }
        Ok(filled)
    }

    /// A guess of how many bytes the name takes at most, for the allocation; no contract relies on it.
    pub fn room(&self, ids: &BorrowedIds<'_>) -> usize {
        self.parts
            .pieces
            .iter()
            .fold(0usize, |room, piece| room.saturating_add(piece.room(ids)))
    }

    /// Whether the greatest number and time give a valid file name ([`bridge_io::is_name`]); then each number and each
    /// time do (`laws::files_are_named`).
    pub fn names_files(&self, alloc: Global, id: &str, bandwidth: u64) -> Result<bool, NoMemory>
        ensures { IfOk result (λ names. names ≡ names_files self.now
            (record { id = id.now; bandwidth = bandwidth; number = 0; time = 0 })) }
    {
        if self.least_len(id, bandwidth) > MAX_NAME_LEN {
            return Ok(false);
        }
        let ids = BorrowedIds {
            id,
            bandwidth,
            number: u64::MAX,
            time: u64::MAX,
        };
        let name = self.name_with(alloc, &ids)?;
        Ok(bridge_io::is_name(name.as_str().as_bytes()))
    }

    /// Whether an identifier of the template is `Number`.
    pub fn uses_number(&self) -> bool
        ensures { result ≡ uses_number self.now }
    {
        piece::has(&self.parts.pieces, Quantity::Number)
    }

    /// Whether an identifier of the template is `Time`.
    pub fn uses_time(&self) -> bool
        ensures { result ≡ uses_time self.now }
    {
        piece::has(&self.parts.pieces, Quantity::Time)
    }
}
