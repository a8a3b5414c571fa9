// Listed names, shared by many Representations.
ghost use Rattle.std.specs.Prelude.{◌≡◌, IfOk, IfSome, Some, slice_get};
ghost use Rattle.mpd_entries.specs.Short.{AreShort, IsShortAt, IsShortOf};

use crate::{RefList, RefPart};
use bridge_io::{NoMemory, Text};
use std::alloc::Global;
use std::marker::Model;
use std::rc::Rc;

/// The SegmentURLs of a SegmentList (ISO/IEC 23009-1, 5.3.9.3), stored once for all Representations that have them,
/// whatever their bases.
///
/// In a contract it is the list.
#[derive(Drop)]
pub struct SharedNames {
    listed: Rc<Listed>,
}

/// SegmentURLs, with shorter references for some of them.
#[derive(Drop)]
struct Listed {
    parts: RefList,
    short: Option<Vec<Option<Text>>>,
}

impl Model for SharedNames {
    ghost use Rattle.std.specs.Prelude.{List, IfSome};
    ghost use Rattle.mpd_entries.specs.declared.ref_part.RefPart.{RefPart};
    ghost use Rattle.mpd_entries.specs.Short.{AreShort};

    ghost Value = { List RefPart };

    ghost view = { λ names. names.listed.value.parts };

    ghost invariant = { λ names. let listed = names.listed.value in IfSome listed.short (λ short. AreShort listed.parts short.items) };
}

impl SharedNames {
    /// Takes a list to share.
    pub fn of(alloc: Global, parts: RefList) -> Result<SharedNames, NoMemory>
        ensures { IfOk result (λ names. names ≡ parts) }
    {
        let short = short_texts(alloc, parts.as_slice())?;
        let listed = Rc::new(alloc, Listed { parts, short })?;
        Ok(SharedNames { listed })
    }

    /// The same list again, without a copy.
    pub fn share(&self) -> Result<SharedNames, NoMemory>
        ensures { IfOk result (λ names. names ≡ self.now) }
    {
        let listed = self.listed.clone()?;
        Ok(SharedNames { listed })
    }

    /// The list itself.
    pub fn parts(&self) -> &RefList
        ensures { result.now ≡ self.now }
    {
        &self.listed.parts
    }

    /// A shorter reference that is stored for the one at an index: it gives the same URL against each base.
    pub fn short(&self, place: usize) -> Option<&str>
        ensures { IfSome result (λ short. IsShortAt (slice_get self.now place) short.now) }
    {
        let Some(short) = &self.listed.short else {
            return None;
        };
        let text = short_at(short, place)?;
        Some(text)
    }
}

/// The text at an index, where there is one.
fn short_at(short: &[Option<Text>], place: usize) -> Option<&str>
    ensures { IfSome result (λ text. slice_get short.now place ≡ Some (Some text.now)) }
{
    match short.get(place) {
        Some(Some(text)) => Some(text.as_str()),
        _ => None,
    }
}

/// A shorter reference for each part that has one, unless none has.
fn short_texts(alloc: Global, parts: &[RefPart]) -> Result<Option<Vec<Option<Text>>>, NoMemory>
    ensures { IfOk result (λ short. IfSome short (λ short. AreShort parts.now short.items)) }
{
    if !parts.iter().any(|part| may_be_shorter(part)) {
        return Ok(None);
    }
    let mut short = Vec::with_capacity(alloc, parts.len())?;
    for part in parts {
        short.push(short_text(alloc, part)?)?;
    }
    Ok(Some(short))
}

fn short_text(alloc: Global, part: &RefPart) -> Result<Option<Text>, NoMemory>
    ensures { IfOk result (λ short. IfSome short (IsShortOf part.now)) }
{
    let Some(reference) = &part.reference else {
        return Ok(None);
    };
    if !may_be_shorter(part) {
        return Ok(None);
    }
    let short = url_parts::shorter(alloc, reference.as_str())?;
    Ok(Some(short))
}

fn may_be_shorter(part: &RefPart) -> bool {
    match &part.reference {
        None => false,
        Some(reference) => {
            url_parts::has_detours(reference.as_str())
                || url_parts::has_line_bytes(reference.as_str())
        }
    }
}
