// The media playlist of a followed track.
ghost use Rattle.std.specs.Prelude.{◌≡◌, ◌⊎◌, ◌++◌, All, map, IfOk, None, OnOk, OnErr};
ghost use Rattle.bridge_io.specs.Fault.{HasCause};
ghost use Rattle.bridge_io.specs.Outside.{put, Changes};
ghost use Rattle.bridge_io.specs.Written.{HasFront};
ghost use Rattle.iso_time.specs.Instant.{IsWritable};
ghost use Rattle.bridge_io.specs.Adding.{Adds};
ghost use Rattle.hls_writer.specs.Items.{item_of, items_text, spelled_text};
ghost use Rattle.hls_writer.specs.Spelled.{spelled_item, spelled_items};
ghost use Rattle.hls_writer.specs.Lines.{lines_text, discontinuity_sequence};
ghost use Rattle.hls_writer.specs.Playlists.{head_lines, item_lines, items_lines, last_section};
ghost use Rattle.hls_writer.specs.Rows.{all_written, CanBeThere};
ghost use Rattle.bridge_io.specs.declared.out_fault.OutFault.TheVariants.{WriteFault};

use crate::OutFault;
use crate::entry::Entry;
use crate::line::{Tag, push_lines};
use bridge_io::{Fail, FileWriter, Name, Sequence, Sheet, Store};
use exact_time::Digits;
use iso_time::Instant;
use std::alloc::Global;
use url_parts::{Address, Part, Range, Spelling};

/// The header values of a live playlist, and whether it has EXT-X-ENDLIST.
#[derive(Clone, Copy)]
pub struct MediaHead {
    /// The target duration in seconds (RFC 8216, 4.3.3.1).
    pub target: u64,
    /// The media sequence number of the first segment (RFC 8216, 4.3.3.2).
    pub sequence: u64,
    /// The discontinuity sequence number: the section of the first segment (RFC 8216, 4.3.3.3).
    pub first_section: u64,
    /// Whether it has EXT-X-ENDLIST (RFC 8216, 4.3.3.4).
    pub ended: bool,
    /// The decimals of a duration.
    pub digits: Digits,
}

/// A segment of a live playlist.
#[derive(Drop)]
pub struct MediaItem {
    /// Its URL.
    pub address: Address,
    /// Its byte range in the file; `None` is the whole file (RFC 8216, 4.3.2.2).
    pub range: Option<Range>,
    /// Its init segment (RFC 8216, 4.3.2.5).
    pub map: Part,
    /// Its printed duration, in units of which 10 to the head's number of digits make a second (RFC 8216, 4.3.2.1).
    pub duration: u64,
    /// The number of its section: its discontinuity sequence number (RFC 8216, 4.3.3.3).
    pub section: u64,
    /// When it begins (RFC 8216, 4.3.2.6).
    pub date: Instant,
}

/// The segments of a playlist in order.
pub type ItemList = Sequence<MediaItem>;

impl MediaHead {
    fn lines(&self) -> [Option<Tag<'static>>; 5]
        ensures written { all_written result ≡ head_lines self.now.target self.now.sequence
            (discontinuity_sequence self.now.first_section) }
        ensures can { All CanBeThere result }
    {
        [
            Some(Tag::Header),
            Some(Tag::Version(6)),
            Some(Tag::TargetDuration(self.target)),
            Some(Tag::MediaSequence(self.sequence)),
            Some(Tag::DiscontinuitySequence(self.first_section)),
        ]
    }
}

impl MediaItem {
    /// Writes the lines of the item, after a segment of the section `former` or as the playlist's first one.
    fn push_to<'a, F: Store>(
        &'a self,
        sheet: &mut Sheet<F>,
        alloc: Global,
        digits: Digits,
        spelling: &'a Spelling,
        former: Option<u64>,
    ) -> Result<(), Fail>
        requires { IsWritable self.now.date }
        ensures { let item = spelled_item spelling.now (item_of self.now) in
            Adds F.Store (lines_text (item_lines digits former item)) sheet.old sheet.new result }
    {
        let address = spelling.of(alloc, self.address.as_str())?;
        let entry = Entry {
            address,
            range: self.range,
            map: &self.map,
            duration: self.duration,
            section: self.section,
            date: Some(self.date),
            spelling,
        };
        entry.push_to(sheet, alloc, digits, former)
    }
}

/// Writes the media playlist of a followed track: dates in UTC with milliseconds, an EXT-X-DISCONTINUITY for each step by
/// which the section number rises, and an EXT-X-MAP for the first segment and for the first one of each section. URLs are
/// absolute.
///
/// Requires that the year of each date is 1000 to 9999. The text represents the items where the section numbers don't
/// fall, the first one is the head's, and the items of a section have one map.
///
/// An error leaves the file as it was, or with a prefix of the text. [`OutFault::WriteFault`] comes only where the store's
/// count of failed writes rose.
pub fn write_items<F: Store>(
    alloc: Global,
    head: &MediaHead,
    items: &ItemList,
    store: &mut F,
    name: &Name,
) -> Result<(), OutFault>
    requires { All (λ item. IsWritable item.date) items.now }
    ensures ok { OnOk result (Changes (put name.now (items_text head.now items.now)) (F.files store.old) (F.files store.new)) }
    ensures err { OnErr result ((F.files store.new ≡ F.files store.old)
        ⊎ HasFront name.now (items_text head.now items.now) (F.files store.old) (F.files store.new)) }
    ensures cause { HasCause WriteFault (F.write_faults store.old) (F.write_faults store.new) result }
    ensures reads { F.read_faults store.new ≡ F.read_faults store.old }
{
    let spelling = &Spelling::absolute();
    write_item_slices(alloc, head, items.as_slice(), &[], spelling, store, name)
}

/// The same for items in two slices, those of `front` before those of `back`, with URLs spelled so.
///
/// Requires that the year of each date is 1000 to 9999.
///
/// An error leaves the file as it was, or with a prefix of the text. [`OutFault::WriteFault`] comes only where the store's
/// count of failed writes rose.
pub fn write_item_slices<F: Store>(
    alloc: Global,
    head: &MediaHead,
    front: &[MediaItem],
    back: &[MediaItem],
    spelling: &Spelling,
    store: &mut F,
    name: &Name,
) -> Result<(), OutFault>
    requires front { All (λ item. IsWritable item.date) front.now }
    requires back { All (λ item. IsWritable item.date) back.now }
    ensures ok { OnOk result
        (Changes (put name.now (spelled_text spelling.now head.now (front.now ++ back.now))) (F.files store.old) (F.files store.new)) }
    ensures err { OnErr result ((F.files store.new ≡ F.files store.old)
        ⊎ HasFront name.now (spelled_text spelling.now head.now (front.now ++ back.now)) (F.files store.old) (F.files store.new)) }
    ensures cause { HasCause WriteFault (F.write_faults store.old) (F.write_faults store.new) result }
    ensures reads { F.read_faults store.new ≡ F.read_faults store.old }
{
    let writer = &mut FileWriter::create(alloc, store, name)?;
    push_playlist(
        &mut Sheet { writer, store },
        alloc,
        head,
        front,
        back,
        spelling,
    )?;
    writer.flush(store)?;
    Ok(())
}

/// Writes the whole text.
fn push_playlist<F: Store>(
    sheet: &mut Sheet<F>,
    alloc: Global,
    head: &MediaHead,
    front: &[MediaItem],
    back: &[MediaItem],
    spelling: &Spelling,
) -> Result<(), Fail>
    requires front { All (λ item. IsWritable item.date) front.now }
    requires back { All (λ item. IsWritable item.date) back.now }
    ensures { Adds F.Store (spelled_text spelling.now head.now (front.now ++ back.now)) sheet.old sheet.new result }
{
    push_lines(sheet, &head.lines())?;
    push_slices(sheet, alloc, head.digits, spelling, front, back)?;
    let end = head.ended.then_some(Tag::EndList);
    push_lines(sheet, &[end])
}

/// Writes the lines of the items of two slices, as a playlist's first ones.
fn push_slices<F: Store>(
    sheet: &mut Sheet<F>,
    alloc: Global,
    digits: Digits,
    spelling: &Spelling,
    front: &[MediaItem],
    back: &[MediaItem],
) -> Result<(), Fail>
    requires front { All (λ item. IsWritable item.date) front.now }
    requires back { All (λ item. IsWritable item.date) back.now }
    ensures { let items = spelled_items spelling.now (map item_of (front.now ++ back.now)) in
        Adds F.Store (lines_text (items_lines digits None items)) sheet.old sheet.new result }
{
    let former = push_items(sheet, alloc, digits, spelling, None, front)?;
    push_items(sheet, alloc, digits, spelling, former, back)?;
    Ok(())
}

/// Writes the lines of items in order, after a segment of the section `former` or as the playlist's first ones, and returns
/// the section of the last segment so far.
fn push_items<F: Store>(
    sheet: &mut Sheet<F>,
    alloc: Global,
    digits: Digits,
    spelling: &Spelling,
    former: Option<u64>,
    items: &[MediaItem],
) -> Result<Option<u64>, Fail>
    requires { All (λ item. IsWritable item.date) items.now }
    ensures adds { let items = spelled_items spelling.now (map item_of items.now) in
        Adds F.Store (lines_text (items_lines digits former items)) sheet.old sheet.new result }
    ensures last { let items = spelled_items spelling.now (map item_of items.now) in
        IfOk result (λ last. last ≡ last_section former items) }
{
    let mut former = former;
    for item in items {
        item.push_to(sheet, alloc, digits, spelling, former)?;
        former = Some(item.section);
    }
    Ok(former)
}
