// The names of elements and attributes that are read, with their kinds.
use crate::feature::Feature;
use crate::listed::Listed;
use crate::value::Value;

pub(crate) const IN_MPD: [(&str, Listed); 2] = [
    ("BaseURL", Listed::BaseUrl),
    ("Period", Listed::Period),
];

pub(crate) const IN_PERIOD: [(&str, Listed); 5] = [
    ("BaseURL", Listed::BaseUrl),
    ("AdaptationSet", Listed::AdaptationSet),
    ("SegmentTemplate", Listed::SegmentTemplate),
    ("SegmentList", Listed::SegmentList),
    ("SegmentBase", Listed::SegmentBase),
];

pub(crate) const IN_SET: [(&str, Listed); 5] = [
    ("BaseURL", Listed::BaseUrl),
    ("Representation", Listed::Representation),
    ("SegmentTemplate", Listed::SegmentTemplate),
    ("SegmentList", Listed::SegmentList),
    ("SegmentBase", Listed::SegmentBase),
];

pub(crate) const IN_REPRESENTATION: [(&str, Listed); 4] = [
    ("BaseURL", Listed::BaseUrl),
    ("SegmentTemplate", Listed::SegmentTemplate),
    ("SegmentList", Listed::SegmentList),
    ("SegmentBase", Listed::SegmentBase),
];

pub(crate) const IN_TEMPLATE: [(&str, Listed); 2] = [
    ("SegmentTimeline", Listed::SegmentTimeline),
    ("Initialization", Listed::Initialization),
];

pub(crate) const IN_LIST: [(&str, Listed); 3] = [
    ("SegmentURL", Listed::SegmentUrl),
    ("SegmentTimeline", Listed::SegmentTimeline),
    ("Initialization", Listed::Initialization),
];

pub(crate) const IN_BASE: [(&str, Listed); 1] = [("Initialization", Listed::Initialization)];

pub(crate) const IN_TIMELINE: [(&str, Listed); 1] = [("S", Listed::S)];

const SMALL: u64 = 1 << 32;

const LARGE: u64 = 1 << 63;

pub(crate) const OF_MPD: [(&str, Value); 6] = [
    ("type", Value::MpdType),
    ("availabilityStartTime", Value::Instant),
    ("publishTime", Value::Instant),
    ("mediaPresentationDuration", Value::Duration),
    ("timeShiftBufferDepth", Value::Duration),
    ("maxSegmentDuration", Value::Duration),
];

pub(crate) const OF_PERIOD: [(&str, Value); 3] = [
    ("id", Value::AnyText),
    ("start", Value::Duration),
    ("duration", Value::Duration),
];

pub(crate) const OF_SET: [(&str, Value); 6] = [
    ("lang", Value::Language),
    ("mimeType", Value::AnyText),
    ("codecs", Value::Codes),
    ("width", Value::Number(0, SMALL)),
    ("height", Value::Number(0, SMALL)),
    ("frameRate", Value::FrameRate),
];

pub(crate) const OF_REPRESENTATION: [(&str, Value); 7] = [
    ("id", Value::AnyText),
    ("bandwidth", Value::Number(1, SMALL)),
    ("mimeType", Value::AnyText),
    ("codecs", Value::Codes),
    ("width", Value::Number(0, SMALL)),
    ("height", Value::Number(0, SMALL)),
    ("frameRate", Value::FrameRate),
];

pub(crate) const OF_TEMPLATE: [(&str, Value); 6] = [
    ("media", Value::AnyText),
    ("initialization", Value::AnyText),
    ("timescale", Value::Number(1, SMALL)),
    ("duration", Value::Number(0, LARGE)),
    ("startNumber", Value::Number(0, LARGE)),
    ("presentationTimeOffset", Value::Number(0, LARGE)),
];

pub(crate) const OF_LIST: [(&str, Value); 4] = [
    ("timescale", Value::Number(1, SMALL)),
    ("duration", Value::Number(0, LARGE)),
    ("startNumber", Value::Number(0, LARGE)),
    ("presentationTimeOffset", Value::Number(0, LARGE)),
];

pub(crate) const OF_BASE: [(&str, Value); 1] = [("indexRange", Value::Range)];

pub(crate) const OF_INITIALIZATION: [(&str, Value); 2] = [
    ("sourceURL", Value::AnyText),
    ("range", Value::Range),
];

pub(crate) const OF_S: [(&str, Value); 3] = [
    ("t", Value::Number(0, LARGE)),
    ("d", Value::Number(0, LARGE)),
    ("r", Value::Signed),
];

pub(crate) const OF_SEGMENT_URL: [(&str, Value); 2] = [
    ("media", Value::AnyText),
    ("mediaRange", Value::Range),
];

pub(crate) const REFUSED_ELEMENTS: [(&str, Feature); 6] = [
    ("ContentProtection", Feature::Encryption),
    ("EventStream", Feature::Events),
    ("InbandEventStream", Feature::Events),
    ("Subset", Feature::Unsupported),
    ("Preselection", Feature::Unsupported),
    ("PatchLocation", Feature::Unsupported),
];

pub(crate) const REFUSED: [(&str, Feature); 2] = [
    ("xlink:href", Feature::Remote),
    ("endNumber", Feature::Unsupported),
];

pub(crate) const REFUSED_IN_S: [(&str, Feature); 4] = [
    ("xlink:href", Feature::Remote),
    ("endNumber", Feature::Unsupported),
    ("k", Feature::LowLatency),
    ("n", Feature::Unsupported),
];

pub(crate) const REFUSED_IN_DYNAMIC: [(&str, Feature); 3] = [
    ("availabilityTimeOffset", Feature::LowLatency),
    ("xlink:href", Feature::Remote),
    ("endNumber", Feature::Unsupported),
];

pub(crate) const REFUSED_IN_DYNAMIC_S: [(&str, Feature); 5] = [
    ("availabilityTimeOffset", Feature::LowLatency),
    ("xlink:href", Feature::Remote),
    ("endNumber", Feature::Unsupported),
    ("k", Feature::LowLatency),
    ("n", Feature::Unsupported),
];
