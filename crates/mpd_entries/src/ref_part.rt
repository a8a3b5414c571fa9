// The names of a SegmentList's segments as they are written.

use bridge_io::Text;
use url_parts::Range;

/// A SegmentURL of a SegmentList (ISO/IEC 23009-1, 5.3.9.3).
#[derive(Drop)]
pub struct RefPart {
    /// Its `@media`. Where it is absent, the base itself is the URL.
    pub reference: Option<Text>,
    /// Its `@mediaRange`.
    pub range: Option<Range>,
}
