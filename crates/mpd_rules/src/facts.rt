// The attributes of the MPD element.
ghost use Rattle.std.specs.Prelude.{◌≡◌};
ghost use Rattle.mpd_tree.specs.Nodes.{element_of};
ghost use Rattle.mpd_rules.specs.Fits.{FitsMpd};
ghost use Rattle.mpd_rules.specs.Typed.{facts_of};

use crate::readings::{duration, instant};
use exact_time::Nanos;
use iso_time::Instant;
use mpd_profile::is_dynamic;
use mpd_tree::Node;

/// The attributes of the MPD element (ISO/IEC 23009-1, 5.3.1.2).
#[derive(Clone, Copy)]
pub(crate) struct Facts {
    pub(crate) live: bool,
    pub(crate) availability_start: Option<Instant>,
    pub(crate) publish_time: Option<Instant>,
    pub(crate) depth: Option<Nanos>,
    pub(crate) max_segment: Option<Nanos>,
}

pub(crate) fn facts_of(mpd: Node<'_>) -> Facts
    requires { FitsMpd (element_of mpd) }
    ensures { result ≡ facts_of (element_of mpd.entry).head }
{
    Facts {
        live: is_dynamic(mpd),
        availability_start: instant(mpd, "availabilityStartTime"),
        publish_time: instant(mpd, "publishTime"),
        depth: duration(mpd, "timeShiftBufferDepth"),
        max_segment: duration(mpd, "maxSegmentDuration"),
    }
}
