// The seven rules, in their order.
ghost use Rattle.std.specs.Prelude.{◌≡◌, ◌^◌, ◌<◌, ◌≤◌, ◌+◌, ◌*◌, length, sum_by};
ghost use Rattle.reload_law.specs.Rules as spec;

use crate::segments::compare;
use hls_media::{Media, MediaSegment};
use thiserror::Error;

/// The first rule that an invalid playlist update breaks.
#[derive(Clone, Copy, Debug, PartialEq, Eq, Error)]
pub enum Unlawful {
    /// The target durations differ (RFC 8216 6.2.1).
    #[error("another target duration")]
    Target,
    /// The new playlist begins at a smaller sequence number (RFC 8216 6.2.2).
    #[error("a smaller sequence number")]
    Sequence,
    /// A sequence number in both has another URL, byte range, duration or map: the least one (RFC 8216 6.2.1).
    #[error("another segment {number}")]
    Segment {
        /// Its sequence number.
        number: u64,
    },
    /// A sequence number in both is in another section: the least one (RFC 8216 6.2.2).
    #[error("another section of segment {number}")]
    Discontinuity {
        /// Its sequence number.
        number: u64,
    },
    /// The new playlist ends at a smaller sequence number (RFC 8216 6.2.1).
    #[error("segments at the end are missing")]
    Shrunk,
    /// The old playlist has EXT-X-ENDLIST, and the new one hasn't or ends at another number (RFC 8216 6.2.1).
    #[error("a change of an ended playlist")]
    AfterEnd,
    /// The new playlist has no EXT-X-ENDLIST and begins at a greater sequence number, and its durations sum to less than
    /// three target durations (RFC 8216 6.2.2).
    #[error("less than three target durations")]
    ThreeTargets,
}

/// Whether a media playlist is a valid update of an older one, or the first rule that it breaks. It allocates
/// nothing.
///
/// Requires that both sequence values are below 2^63, as `read_media` ensures.
#[tactic(auto, unfolding(crate::specs::Rules::lawful))]
pub fn lawful(old: &Media, new: &Media) -> Result<(), Unlawful>
    requires old { old.now.sequence < 2 ^ 63 }
    requires new { new.now.sequence < 2 ^ 63 }
    ensures { result ≡ spec.lawful old.now new.now }
{
    if old.target != new.target {
        return Err(Unlawful::Target);
    }
    if new.sequence < old.sequence {
        return Err(Unlawful::Sequence);
    }
    compare(
        kept_of(old, new.sequence),
        new.segments.as_slice(),
        new.sequence,
    )?;
    judge_ends(old, new)?;
    judge_length(old, new)
}

/// The segments of a playlist from a number on.
fn kept_of(media: &Media, number: u64) -> &[MediaSegment]
    requires { media.now.sequence ≤ number }
    ensures { result.now ≡ spec.segments_from number media.now }
{
    let segments = media.segments.as_slice();
    let removed = number - media.sequence;
    if removed < segments.len() as u64 {
        &segments[removed as usize..]
    } else {
        &[]
    }
}

/// The number after the last segment's.
fn end_of(media: &Media) -> u128
    ensures { result ≡ spec.end_of media.now }
{
    u128::from(media.sequence) + media.segments.len() as u128
}

fn judge_ends(old: &Media, new: &Media) -> Result<(), Unlawful>
    ensures { result ≡ spec.ends_judged old.now new.now }
{
    if end_of(new) < end_of(old) {
        return Err(Unlawful::Shrunk);
    }
    if old.ended && (!new.ended || end_of(new) != end_of(old)) {
        return Err(Unlawful::AfterEnd);
    }
    Ok(())
}

fn judge_length(old: &Media, new: &Media) -> Result<(), Unlawful>
    ensures { result ≡ spec.length_judged old.now new.now }
{
    let is_short = !new.ended
        && old.sequence < new.sequence
        && nanos_of(new.segments.as_slice()) < 3_000_000_000 * u128::from(new.target);
    if is_short {
        Err(Unlawful::ThreeTargets)
    } else {
        Ok(())
    }
}

/// The total duration of some segments, in nanoseconds.
fn nanos_of(segments: &[MediaSegment]) -> u128
    ensures { result ≡ sum_by (λ segment. segment.duration) segments.now }
{
    let mut nanos = 0;
    for segment in segments {
        nanos += u128::from(segment.duration.0);
    }
    nanos
}
