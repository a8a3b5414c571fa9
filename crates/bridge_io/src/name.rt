// Names of files in a store.
ghost use Rattle.std.specs.Prelude.{◌≡◌, ℕ, ◌+◌, ◌<◌, ◌≤◌, ◌^◌, ◌==◌, ◌&&◌, not, nat_le, List, [], IsTrue, if◌then◌else◌};
ghost use Rattle.std.specs.List.{list_all};
ghost use Rattle.bridge_io.specs.Names.{is_name, is_name_byte, is_proper_part, parts_after};
ghost use Rattle.bridge_io.specs.Answer.{Gives};

use crate::{NoMemory, Text};
use std::alloc::Global;
use std::marker::Model;
use thiserror::Error;

/// The most bytes that a name has.
const MAX_LEN: usize = 255;

/// Why a text isn't a name.
#[derive(Clone, Copy, Debug, PartialEq, Eq, Error)]
pub enum NameFault {
    /// The text isn't a name.
    #[error("no name of a file in a store")]
    Shape,
    /// Out of memory.
    #[error("out of memory")]
    Memory,
}

/// The name of a file in a store: a relative path without `..`.
///
/// It has 1 to 255 bytes of ASCII letters, digits, `-`, `.`, `_`, `~`, `+`, `=`, `,`, `@` and `/`, and the parts
/// between the slashes aren't empty, `.` or `..`.
#[derive(Debug, Drop)]
pub struct Name {
    text: Text,
}

impl Model for Name {
    ghost Value = { List ℕ };

    ghost view = { λ n. n.text };

    ghost invariant = { λ n. IsTrue (is_name n.text) };
}

impl Name {
    ghost use Rattle.bridge_io.specs.Names.{name_of, refusal};

    /// Reads a text as a name. `Shape` comes exactly where the text isn't one.
    pub fn read(alloc: Global, text: &str) -> Result<Name, NameFault>
        ensures { Gives (λ name. name) refusal result (name_of text.now) }
    {
        if !is_name(text.as_bytes()) {
            return Err(NameFault::Shape);
        }
        let text = Text::copy_of(alloc, text).map_err(|_| NameFault::Memory)?;
        Ok(Name { text })
    }

    /// The name's text.
    pub fn as_str(&self) -> &str
        ensures text { result.now ≡ self.now }
        ensures named { IsTrue (is_name self.now) }
    {
        self.text.as_str()
    }
}

/// Whether a text is a name, as `Name::read` reads it.
pub fn is_name(text: &[u8]) -> bool
    ensures { result ≡ is_name text.now }
{
    !text.is_empty() && text.len() <= MAX_LEN && has_name_bytes(text) && has_proper_parts(text)
}

fn has_name_bytes(text: &[u8]) -> bool
    ensures { result ≡ list_all is_name_byte text.now }
{
    text.iter().all(|byte| is_name_byte(*byte))
}

fn is_name_byte(byte: u8) -> bool
    ensures { result ≡ is_name_byte byte }
{
    // The frequent bytes are tested first. `+` to `9` are `+,-./` and the digits; `@` to `Z` are `@` and the
    // capitals.
    byte.is_ascii_lowercase()
        || (b'+'..=b'9').contains(&byte)
        || matches!(byte, b'@'..=b'Z' | b'=' | b'_' | b'~')
}

/// Whether no part between the slashes is empty, `.` or `..`.
fn has_proper_parts(text: &[u8]) -> bool
    ensures { result ≡ list_all is_proper_part (parts_after [] text.now) }
{
    let mut part = Part::EMPTY;
    for byte in text {
        if *byte != b'/' {
            part = part.with(*byte);
        } else if part.is_proper() {
            part = Part::EMPTY;
        } else {
            return false;
        }
    }
    part.is_proper()
}

/// The state of a scan of one part.
#[derive(Clone, Copy)]
struct Part {
    len: usize,
    only_dots: bool,
}

impl Part {
    const EMPTY: Part = Part {
        len: 0,
        only_dots: true,
    };

    fn with(self, byte: u8) -> Part
        requires { self.len < 2 ^ 63 }
        ensures len { result.len ≡ self.len + 1 }
        ensures dots { result.only_dots ≡ (self.only_dots && byte == 46) }
    {
        Part {
            len: self.len + 1,
            only_dots: self.only_dots && byte == b'.',
        }
    }

    fn is_proper(self) -> bool
        ensures { result ≡ not (nat_le self.len 2 && self.only_dots) }
    {
        self.len > 2 || !self.only_dots
    }
}
