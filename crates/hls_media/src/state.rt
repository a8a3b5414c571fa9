// The state after some lines of a playlist.
ghost use Rattle.std.specs.Prelude.{◌^◌, ◌<◌};
ghost use Rattle.std.specs.Option.{ForSome};

use crate::shared::MapTexts;
use crate::{Media, MediaSegment};
use bridge_io::Place;
use exact_time::Nanos;
use url_parts::{Part, Resolver};

/// A byte range as an EXT-X-BYTERANGE writes it.
#[derive(Clone, Copy)]
pub(crate) struct WrittenRange<'a> {
    pub(crate) text: &'a str,
    pub(crate) place: Place,
}

/// A map with its reference as an EXT-X-MAP writes it.
#[derive(Drop)]
pub(crate) struct WrittenMap<'a> {
    pub(crate) part: Part,
    pub(crate) reference: &'a str,
}

/// The state after some lines.
#[derive(Drop)]
pub(crate) struct Reader<'a> {
    pub(crate) target: Option<u64>,
    pub(crate) sequence: Option<u64>,
    pub(crate) first_section: Option<u64>,
    pub(crate) discontinuities: u64,
    pub(crate) ended: bool,
    /// The duration of the next segment.
    pub(crate) duration: Option<Nanos>,
    /// The byte range of the next segment.
    pub(crate) range: Option<WrittenRange<'a>>,
    pub(crate) map: Option<Part>,
    pub(crate) segments: Vec<MediaSegment>,
    /// Resolves the URIs. It is no part of the state.
    pub(crate) resolver: Resolver,
    /// The reference of a map that no segment has yet. It is no part of the state.
    pub(crate) new_map: Option<&'a str>,
    /// The maps of the segments. They are no part of the state.
    pub(crate) maps: MapTexts<'a>,
    /// A playlist whose URLs are shared. It is no part of the state.
    pub(crate) former: Option<&'a Media>,
    ghost small: { ForSome first_section (λ number. number < 2 ^ 63) },
}
