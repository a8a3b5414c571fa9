// URLs of segments as a playlist has them, in one reused text.
ghost use Rattle.std.specs.Prelude.{◌≡◌, ◌++◌, ◌≤◌, true, length, IfOk, IfSome, OnOk, string_bytes};
ghost use Rattle.bridge_io.specs.Answer.{Gives};
ghost use Rattle.template_ids.specs.Filled.{name_of};
ghost use Rattle.url_parts.specs.Spelling.{spelled};
ghost use Rattle.timeline.specs.Listed.{CanBeNamed, part_of_timing, timing_of};
ghost use Rattle.timeline.specs.Names.{list_refusal};
ghost use Rattle.timeline.specs.Written.{AreSpelled, part_with, spelled_in};

use crate::listing::part_of;
use crate::maker::Maker;
use crate::names::Files;
use crate::{ListFault, Runs, Span};
use bridge_io::NoMemory;
use std::alloc::Global;
use std::marker::Model;
use template_ids::Filled;
use url_parts::{Front, Range, Spelling};

/// Writes the URLs of a Representation's segments as a playlist has them, each over the one before.
///
/// In a contract it is the segments with their names, the playlist's place, and the text that was written last.
#[derive(Drop)]
pub struct AddressWriter<'a> {
    runs: &'a Runs,
    spelling: &'a Spelling,
    /// The names, where each is a valid file name, and no URL has to be tested.
    files: Option<SpelledFiles>,
    text: String,
    maker: Maker,
}

impl<'a> Model for AddressWriter<'a> {
    ghost use Rattle.timeline.specs.Written.{Written, written, IsWriter};

    ghost Value = { Written };

    ghost view = { written };

    ghost invariant = { IsWriter };
}

impl<'a> AddressWriter<'a> {
    pub(crate) fn over(
        alloc: Global,
        runs: &'a Runs,
        spelling: &'a Spelling,
    ) -> Result<AddressWriter<'a>, NoMemory>
        ensures timeline { IfOk result (λ addresses. addresses.timeline ≡ runs.now) }
        ensures place { IfOk result (λ addresses. addresses.place ≡ spelling.now) }
    {
        let files = match runs.names.files(alloc)? {
            Some(files) => spelled_files(alloc, spelling, files)?,
            None => None,
        };
        Ok(AddressWriter {
            runs,
            spelling,
            files,
            text: String::new(alloc),
            maker: Maker::new(),
        })
    }

    /// Writes the URL of a segment over the last one, and returns its byte range. After an error the text may be any.
    pub fn write(&mut self, alloc: Global, span: &Span) -> Result<Option<Range>, ListFault>
        requires { CanBeNamed self.old.timeline (timing_of span.now) }
        ensures part { Gives (part_with self.new.text) list_refusal result
            (spelled_in self.old.place (part_of_timing self.old.timeline (timing_of span.now))) }
        ensures timeline { self.new.timeline ≡ self.old.timeline }
        ensures place { self.new.place ≡ self.old.place }
    {
        let runs = self.runs;
        if let Some(files) = &self.files {
            let time = runs.media_time(span.start);
            if files.write_name(&mut self.text, span.number, time)? {
                return Ok(None);
            }
        }
        let part = part_of(runs, alloc, &mut self.maker, span)?;
        write_spelled(&mut self.text, alloc, self.spelling, part.address.as_str())?;
        Ok(part.range)
    }

    /// The text that was written last.
    pub fn as_str(&self) -> &str
        ensures { result.now ≡ self.now.text }
    {
        self.text.as_str()
    }
}

/// The names of files, and what a playlist has before them.
#[derive(Drop)]
struct SpelledFiles {
    front: Front,
    names: Filled,
}

impl SpelledFiles {
    /// Replaces a text by a file's name as a playlist has it, and tells whether its length is one that the front is for.
    #[inline(always)]
    fn write_name(&self, text: &mut String, number: u64, time: u64) -> Result<bool, NoMemory>
        ensures text { OnOk result (string_bytes text.new ≡ self.now.front.text ++ name_of self.now.names number time) }
        ensures short { IfOk result (λ short. short ≡ true → length (name_of self.now.names number time) ≤ self.now.front.most) }
    {
        let front = self.front.text.as_str();
        write_text(text, front)?;
        self.names.push_name(text, number, time)?;
        Ok(text.len() <= front.len().saturating_add(self.front.most))
    }
}

/// The files as a playlist has them, where there is one text before all their names.
fn spelled_files(
    alloc: Global,
    spelling: &Spelling,
    files: Files,
) -> Result<Option<SpelledFiles>, NoMemory>
    ensures { IfOk result (λ spelled. IfSome spelled (AreSpelled spelling.now files)) }
{
    let Some(front) = spelling.front(alloc, files.folder.as_str())? else {
        return Ok(None);
    };
    Ok(Some(SpelledFiles {
        front,
        names: files.names,
    }))
}

/// Replaces a text by a URL as a playlist has it.
fn write_spelled(
    text: &mut String,
    alloc: Global,
    spelling: &Spelling,
    address: &str,
) -> Result<(), NoMemory>
    ensures { OnOk result (string_bytes text.new ≡ spelled spelling.now address.now) }
{
    let reference = spelling.of(alloc, address)?;
    write_text(text, reference.up)?;
    text.push_str(reference.rest)?;
    Ok(())
}

/// Replaces a text by another one.
fn write_text(text: &mut String, new: &str) -> Result<(), NoMemory>
    ensures { OnOk result (string_bytes text.new ≡ new.now) }
{
    text.clear();
    text.push_str(new)?;
    Ok(())
}
