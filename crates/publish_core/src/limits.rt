// The limits of playlists that are read again.
ghost use Rattle.std.specs.Prelude.{◌≡◌, All};
ghost use Rattle.std.specs.List.{list_all};
ghost use Rattle.bridge_io.specs.Answer.{Gives};
ghost use Rattle.iso_time.specs.Instant.{IsWritable};
ghost use Rattle.publish_core.specs.Decisions as spec;
ghost use Rattle.publish_core.specs.Refusals.{stopped};
ghost use Rattle.publish_core.specs.Sides.{IsNoReadFault};

use crate::refusal::{Refused, Stop};
use bridge_io::{Bytes, Name};
use followed_text::text_of;
use hls_writer::{ItemList, MediaHead, MediaItem};
use std::alloc::Global;

/// How many segments a playlist has at most.
const LIST_LIMIT: usize = 100_000;

/// How many bytes a playlist has at most.
const TEXT_LIMIT: usize = 8_388_608;

/// One more than the greatest sequence and section numbers.
const NUMBERS: u64 = 1 << 63;

/// The text of a playlist, unless it is above the limits: then the file of this name is refused.
pub(crate) fn text_within(
    alloc: Global,
    name: &Name,
    head: &MediaHead,
    items: &ItemList,
) -> Result<Bytes, Stop>
    requires { All (λ item. IsWritable item.date) items.now }
    ensures text { Gives (λ text. text) stopped result (spec.text_within name.now (spec.list_of head.now items.now)) }
    ensures no_fault { IsNoReadFault result }
{
    let text = text_of(alloc, head, items)?;
    if !is_within_limits(head, items, text.len()) {
        return Err(Stop::at(alloc, name, Refused::Limit));
    }
    Ok(text)
}

fn is_within_limits(head: &MediaHead, items: &ItemList, bytes: usize) -> bool
    ensures { result ≡ spec.is_within_limits (spec.list_of head.now items.now) bytes }
{
    items.len() <= LIST_LIMIT
        && bytes <= TEXT_LIMIT
        && head.sequence < NUMBERS
        && are_small(items.as_slice())
}

fn are_small(items: &[MediaItem]) -> bool
    ensures { result ≡ list_all spec.is_small items.now }
{
    items.iter().all(|item| item.section < NUMBERS)
}
