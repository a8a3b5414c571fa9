// Stored Periods and Representations.
use crate::frame_rate::FrameRate;
use crate::periods::Bounds;
use bridge_io::{Kind, Place, Sequence, Size, Text};
use mpd_levels::SharedText;

/// The values of a Representation, merged with the levels above it, except its segments.
#[derive(Drop)]
pub(crate) struct Description {
    pub(crate) kind: Kind,
    /// The index of its AdaptationSet among the Period's kept ones.
    pub(crate) set: usize,
    pub(crate) id: Text,
    /// In bits per second.
    pub(crate) bandwidth: u32,
    pub(crate) language: Option<SharedText>,
    pub(crate) codecs: Option<SharedText>,
    pub(crate) size: Option<Size>,
    pub(crate) frame_rate: Option<FrameRate>,
    /// The first BaseURL of each level that has one, from the MPD down.
    pub(crate) bases: Sequence<SharedText>,
    pub(crate) place: Place,
}

/// A kept Representation. An `X` holds its segment values.
#[derive(Drop)]
pub(crate) struct TrackRow<X> {
    pub(crate) description: Description,
    pub(crate) segments: X,
}

/// A Period, with its kept Representations.
#[derive(Drop)]
pub(crate) struct PeriodRow<X> {
    pub(crate) id: Option<Text>,
    pub(crate) bounds: Bounds,
    pub(crate) place: Place,
    pub(crate) tracks: Sequence<TrackRow<X>>,
}
