// Segments as playlists list them.
ghost use Rattle.std.specs.Prelude.{◌≡◌, replicate, option_map, option_to_list, IfSome};
ghost use Rattle.iso_time.specs.Instant.{IsWritable};
ghost use Rattle.bridge_io.specs.Adding.{Adds};
ghost use Rattle.hls_writer.specs.Lines.{lines_text, discontinuity, program_date_time, byte_range};
ghost use Rattle.hls_writer.specs.Playlists.{rise, begins_section, map_line, front_lines, last_lines, item_lines};
ghost use Rattle.hls_writer.specs.Rows.{entry_item};

use crate::line::{Tag, push_duration, push_uri};
use bridge_io::{Fail, Sheet, Store};
use exact_time::Digits;
use iso_time::Instant;
use std::alloc::Global;
use url_parts::{Part, Range, Reference, Spelling};

/// A segment as a playlist lists it.
#[derive(Clone, Copy)]
pub struct Entry<'a> {
    /// Its URL as the playlist has it.
    pub address: Reference<'a>,
    /// Its byte range in the file; `None` is the whole file.
    pub range: Option<Range>,
    /// Its init segment.
    pub map: &'a Part,
    /// Its printed duration, in units of which 10 to the playlist's number of digits make a second.
    pub duration: u64,
    /// The number of its section.
    pub section: u64,
    /// When it begins.
    pub date: Option<Instant>,
    /// How the URL of its init segment is spelled.
    pub spelling: &'a Spelling,
}

impl Entry<'_> {
    /// Writes the lines of the segment, after a segment of the section `former` or as the playlist's first one.
    pub fn push_to<F: Store>(
        &self,
        sheet: &mut Sheet<F>,
        alloc: Global,
        digits: Digits,
        former: Option<u64>,
    ) -> Result<(), Fail>
        requires { IfSome self.now.date IsWritable }
        ensures { Adds F.Store (lines_text (item_lines digits former (entry_item self.now))) sheet.old sheet.new result }
    {
        push_discontinuities(sheet, rise(former, self.section))?;
        self.push_front(sheet, alloc, former)?;
        self.push_last(sheet, digits)
    }

    /// Writes the lines of what begins with the segment.
    fn push_front<F: Store>(
        &self,
        sheet: &mut Sheet<F>,
        alloc: Global,
        former: Option<u64>,
    ) -> Result<(), Fail>
        requires { IfSome self.now.date IsWritable }
        ensures { Adds F.Store (lines_text (front_lines former (entry_item self.now))) sheet.old sheet.new result }
    {
        self.push_map(sheet, alloc, former)?;
        self.push_date(sheet)
    }

    /// Writes the line of its init segment, where it begins a section.
    fn push_map<F: Store>(
        &self,
        sheet: &mut Sheet<F>,
        alloc: Global,
        former: Option<u64>,
    ) -> Result<(), Fail>
        ensures { Adds F.Store (lines_text (option_to_list (map_line former (entry_item self.now)))) sheet.old sheet.new result }
    {
        if !begins_section(former, self.section) {
            return Ok(());
        }
        let address = self.spelling.of(alloc, self.map.address.as_str())?;
        let range = self.map.range;
        Tag::Map { address, range }.push_to(sheet)
    }

    fn push_date<F: Store>(&self, sheet: &mut Sheet<F>) -> Result<(), Fail>
        requires { IfSome self.now.date IsWritable }
        ensures { Adds F.Store (lines_text (option_to_list (option_map program_date_time self.now.date))) sheet.old sheet.new result }
    {
        match self.date {
            None => Ok(()),
            Some(date) => Tag::ProgramDateTime(date).push_to(sheet),
        }
    }

    /// Writes the lines of the segment itself.
    fn push_last<F: Store>(&self, sheet: &mut Sheet<F>, digits: Digits) -> Result<(), Fail>
        ensures { Adds F.Store (lines_text (last_lines digits (entry_item self.now))) sheet.old sheet.new result }
    {
        push_duration(sheet, digits, self.duration)?;
        self.push_range(sheet)?;
        push_uri(sheet, self.address)
    }

    fn push_range<F: Store>(&self, sheet: &mut Sheet<F>) -> Result<(), Fail>
        ensures { Adds F.Store (lines_text (option_to_list (option_map byte_range self.now.range))) sheet.old sheet.new result }
    {
        match self.range {
            None => Ok(()),
            Some(range) => Tag::ByteRange(range).push_to(sheet),
        }
    }
}

/// By how much the section number rises.
fn rise(former: Option<u64>, section: u64) -> u64
    ensures { result ≡ rise former section }
{
    former.map_or(0, |former| section.saturating_sub(former))
}

/// Whether a segment begins a section of the playlist.
fn begins_section(former: Option<u64>, section: u64) -> bool
    ensures { result ≡ begins_section former section }
{
    former.is_none_or(|former| former < section)
}

/// Writes a line for each step by which the section number rises.
fn push_discontinuities<F: Store>(sheet: &mut Sheet<F>, count: u64) -> Result<(), Fail>
    ensures { Adds F.Store (lines_text (replicate count discontinuity)) sheet.old sheet.new result }
{
    for _step in 0..count {
        Tag::Discontinuity.push_to(sheet)?;
    }
    Ok(())
}
