// Names with a Representation's id and bandwidth filled in.
ghost use Rattle.std.specs.Prelude.{◌≡◌, ℕ, [], ◌++◌, ◌≤◌, IfOk, OnOk, decimal, string_bytes};
ghost use Rattle.template_ids.specs.Pieces.{IsPieceOf, piece_text};
ghost use Rattle.template_ids.specs.Templates.{padded};
ghost use Rattle.template_ids.specs.Filled.{is_path_byte, opens_in_path};
ghost use Rattle.std.specs.Option.{option_copied};
ghost use Rattle.std.specs.List.{list_all};

use crate::identifier::{Identifier, Quantity};
use crate::piece::{Piece, push_padded};
use crate::slot::{Counter, Slot};
use bridge_io::{NoMemory, Text};
use std::alloc::Global;
use std::mem;

/// The segment names of one Representation by a template: the id and the bandwidth are filled in already, and what is
/// between two numbers is one text.
#[derive(Drop)]
pub struct Filled {
    /// The common prefix of all names: where they have a number, it ends with the last `/` before the first one.
    pub front: String,
    /// The numbers, with the texts between them.
    pub slots: Vec<Slot>,
    /// The text after the last number.
    pub last: String,
}

impl Filled {
    ghost use Rattle.template_ids.specs.Filled.{counted, goes_on_in_path, ids_with, name_of, rest_of};

    /// The empty name.
    pub(crate) fn empty(alloc: Global) -> Filled
        ensures { (number time : ℕ) → name_of result number time ≡ [] }
    {
        Filled {
            front: String::new(alloc),
            slots: Vec::new(alloc),
            last: String::new(alloc),
        }
    }

    /// The common prefix of all names.
    pub fn front(&self) -> &str
        ensures { result.now ≡ string_bytes self.now.front }
    {
        self.front.as_str()
    }

    /// Appends a segment's name to a text.
    pub fn push_name(&self, text: &mut String, number: u64, time: u64) -> Result<(), NoMemory>
        ensures { OnOk result (string_bytes text.new ≡ string_bytes text.old ++ name_of self.now number time) }
    {
        text.push_str(self.front.as_str())?;
        self.push_rest(text, number, time)
    }

    /// Appends what follows the common prefix in a segment's name.
    pub fn push_rest(&self, text: &mut String, number: u64, time: u64) -> Result<(), NoMemory>
        ensures { OnOk result (string_bytes text.new ≡ string_bytes text.old ++ rest_of self.now number time) }
    {
        for slot in &self.slots {
            slot.push_to(text, number, time)?;
        }
        text.push_str(self.last.as_str())?;
        Ok(())
    }

    /// A guess of how many bytes a name takes at most, for the allocation; no contract relies on it.
    pub fn room(&self) -> usize {
        self.slots.iter().fold(
            self.front.len().saturating_add(self.last.len()),
            |room, slot| room
                .saturating_add(slot.before.as_str().len())
                .saturating_add(20),
        )
    }

    /// Whether what follows the common prefix is a path of a relative reference for each number and each time
    /// (`laws::names_go_on`).
    pub fn goes_on_in_path(&self) -> bool
        ensures { result ≡ goes_on_in_path self.now }
    {
        opens_in_path(self.slots.first())
            && stand_in_path(&self.slots)
            && are_path_bytes(self.last.as_str())
    }

    /// Appends what a piece of a template's text stands for.
    pub(crate) fn push(
        &mut self,
        alloc: Global,
        piece: Piece,
        text: &str,
        id: &str,
        bandwidth: u64,
    ) -> Result<(), NoMemory>
        requires { IsPieceOf text.now piece }
        ensures { OnOk result ((number time : ℕ) → name_of self.new number time
            ≡ name_of self.old number time ++ piece_text text.now (ids_with id.now bandwidth number time) piece) }
    {
        match piece {
            Piece::Literal { start, end } => self.last.push_str(&text[start..end])?,
            Piece::Value(Identifier::Dollar) => self.last.push_str("$")?,
            Piece::Value(Identifier::RepresentationId) => self.last.push_str(id)?,
            Piece::Value(Identifier::Padded(quantity, width)) => {
                let counter = match quantity {
                    Quantity::Bandwidth => return Ok(push_padded(
                        &mut self.last,
                        bandwidth,
                        width,
                    )?),
                    Quantity::Number => Counter::Number,
                    Quantity::Time => Counter::Time,
                };
                self.push_slot(alloc, counter, width)?;
            }
        }
        Ok(())
    }

    /// Adds a number.
    fn push_slot(&mut self, alloc: Global, counter: Counter, width: u8) -> Result<(), NoMemory>
        requires { width ≤ 20 }
        ensures { OnOk result ((number time : ℕ) → name_of self.new number time
            ≡ name_of self.old number time ++ padded width (decimal (counted counter number time))) }
    {
        let text = mem::replace(&mut self.last, String::new(alloc));
        let before = if self.slots.is_empty() {
            take_folder(alloc, text, &mut self.front)?
        } else {
            Text::from(text)
        };
        self.slots.push(Slot {
            before,
            counter,
            width,
        })?;
        Ok(())
    }
}

impl Slot {
    ghost use Rattle.template_ids.specs.Filled.{slot_text};

    fn push_to(&self, text: &mut String, number: u64, time: u64) -> Result<(), NoMemory>
        ensures { OnOk result (string_bytes text.new ≡ string_bytes text.old ++ slot_text number time self.now) }
    {
        let counted = match self.counter {
            Counter::Number => number,
            Counter::Time => time,
        };
        text.push_str(self.before.as_str())?;
        push_padded(text, counted, self.width)?;
        Ok(())
    }
}

/// Moves a text's prefix, up to and with its last `/`, to the end of another text, and returns the rest.
fn take_folder(alloc: Global, text: String, front: &mut String) -> Result<Text, NoMemory>
    ensures { IfOk result (λ rest. string_bytes front.new ++ rest ≡ string_bytes front.old ++ string_bytes text) }
{
    let text = Text::from(text);
    let whole = text.as_str();
    let Some(slash) = whole.rfind('/') else {
        return Ok(text);
    };
    let (folder, rest) = whole.split_at(slash + 1);
    front.push_str(folder)?;
    Text::copy_of(alloc, rest)
}

/// Whether the text before each number has only path bytes.
fn stand_in_path(slots: &[Slot]) -> bool
    ensures { result ≡ list_all (λ slot. list_all is_path_byte slot.before) slots.now }
{
    slots
        .iter()
        .all(|slot| are_path_bytes(slot.before.as_str()))
}

/// Whether there is a first number with a text before it that doesn't begin with a slash.
fn opens_in_path(slot: Option<&Slot>) -> bool
    ensures { result ≡ opens_in_path (option_copied slot.entry) }
{
    match slot {
        None => false,
        Some(slot) => !matches!(slot.before.as_str().as_bytes(), [b'/', ..]),
    }
}

fn are_path_bytes(text: &str) -> bool
    ensures { result ≡ list_all is_path_byte text.now }
{
    text.as_bytes().iter().all(|byte| is_path_byte(*byte))
}

fn is_path_byte(byte: u8) -> bool
    ensures { result ≡ is_path_byte byte }
{
    byte.is_ascii_graphic() && !matches!(byte, b'#' | b':' | b'?' | b'\\')
}
