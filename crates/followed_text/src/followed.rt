// What the text of a playlist that follows a presentation was written from.
ghost use Rattle.std.specs.Prelude.{◌≡◌, ◌^◌, ◌-◌, All, IfOk, IfSome};
ghost use Rattle.bridge_io.specs.Answer.{Gives};
ghost use Rattle.iso_time.specs.Instant.{IsWritable};
ghost use Rattle.hls_media.specs.Media.{media_of};
ghost use Rattle.followed_text.specs.Followed as spec;

use crate::FollowedFault;
use crate::marks::{dates_in, digits_in};
use crate::text::text_of;
use bridge_io::NoMemory;
use exact_time::Digits;
use hls_lines::Lines;
use hls_media::{Media, MediaFault, MediaSegment, read_media};
use hls_writer::{ItemList, MediaHead, MediaItem};
use iso_time::Instant;
use std::alloc::Global;
use url_parts::Base;

/// What the text of a playlist that follows a presentation was written from.
#[derive(Drop)]
pub struct FollowedText {
    /// The lines above the segments, and whether EXT-X-ENDLIST follows them.
    pub head: MediaHead,
    /// The segments, at least one.
    pub items: ItemList,
}

/// Reads the text of a playlist that follows a presentation as what it was written from: `write_items` writes the result as
/// these bytes.
///
/// [`FollowedFault::Media`] comes exactly where the text is no media playlist against the base, and [`FollowedFault::Form`]
/// exactly where it is one, but isn't written so.
#[tactic(auto, unfolding(crate::specs::Followed::followed_of))]
pub fn read_followed(
    alloc: Global,
    bytes: &[u8],
    base: &Base,
) -> Result<FollowedText, FollowedFault>
    ensures followed { Gives (λ followed. followed) spec.refusal result (spec.followed_of bytes.now base.now) }
    ensures writable { IfOk result (λ followed. All (λ item. IsWritable item.date) followed.items) }
{
    let media = media_in(alloc, bytes, base)?;
    let Some(followed) = candidate_of(alloc, bytes, &media)? else {
        return Err(FollowedFault::Form);
    };
    let text = text_of(alloc, &followed.head, &followed.items)?;
    if text.as_slice() != bytes {
        return Err(FollowedFault::Form);
    }
    Ok(followed)
}

fn media_in(alloc: Global, bytes: &[u8], base: &Base) -> Result<Media, FollowedFault>
    ensures { Gives (λ media. media) spec.refusal result (spec.media_or_fault (media_of bytes.now base.now)) }
{
    match read_media(alloc, bytes, base) {
        Ok(media) => Ok(media),
        Err(MediaFault::Memory) => Err(FollowedFault::Memory),
        Err(fault) => Err(FollowedFault::Media(fault)),
    }
}

/// What a text was written from, if it was written from anything.
#[tactic(auto, using(crate::proofs::Writable::all_writable), unfolding(crate::specs::Followed::candidate_of))]
fn candidate_of(
    alloc: Global,
    bytes: &[u8],
    media: &Media,
) -> Result<Option<FollowedText>, NoMemory>
    ensures followed { IfOk result (λ followed. followed ≡ spec.candidate_of bytes.now media.now) }
    ensures writable { IfOk result (λ followed. IfSome followed (λ f. All (λ item. IsWritable item.date) f.items)) }
{
    let Ok(lines) = Lines::new(bytes) else {
        return Ok(None);
    };
    let Some(digits) = digits_in(lines.copy()) else {
        return Ok(None);
    };
    let dates = dates_in(alloc, lines)?;
    let items = items_of(alloc, digits, media.segments.as_slice(), dates.as_slice())?;
    Ok(followed_from(media, digits, items))
}

fn followed_from(media: &Media, digits: Digits, items: ItemList) -> Option<FollowedText>
    requires { All (λ item. IsWritable item.date) items }
    ensures followed { result ≡ spec.followed_from media.now digits items }
    ensures writable { IfSome result (λ f. All (λ item. IsWritable item.date) f.items) }
{
    let first_section = items.get(0)?.section;
    let head = MediaHead {
        target: media.target,
        sequence: media.sequence,
        first_section,
        ended: media.ended,
        digits,
    };
    Some(FollowedText { head, items })
}

/// The segments with a map, each with its date.
fn items_of(
    alloc: Global,
    digits: Digits,
    mut segments: &[MediaSegment],
    mut dates: &[Instant],
) -> Result<ItemList, NoMemory>
    ensures { IfOk result (λ items. items ≡ spec.items_of digits segments.entry.now dates.entry.now) }
{
    let mut items = Vec::with_capacity(alloc, segments.len())?;
    while let (Some((segment, later_segments)), Some((date, later_dates))) = (
        segments.split_first(),
        dates.split_first(),
    ) {
        if let Some(item) = item_of(alloc, digits, segment, *date)? {
            items.push(item)?;
        }
        (segments, dates) = (later_segments, later_dates);
    }
    Ok(ItemList::from(items))
}

fn item_of(
    alloc: Global,
    digits: Digits,
    segment: &MediaSegment,
    date: Instant,
) -> Result<Option<MediaItem>, NoMemory>
    ensures { IfOk result (λ item. item ≡ spec.item_of digits segment.now date) }
{
    let Some(map) = &segment.map else {
        return Ok(None);
    };
    Ok(Some(MediaItem {
        address: segment.address.copy(alloc)?,
        range: segment.range,
        map: map.copy(alloc)?,
        duration: segment.duration.0 / nanos_of_unit(digits),
        section: segment.section,
        date,
    }))
}

/// How many nanoseconds a unit lasts.
fn nanos_of_unit(digits: Digits) -> u64
    ensures { result ≡ 10 ^ (9 - digits) }
{
    10_u64.pow(u32::from(9 - digits.count()))
}
