// The longest printed duration of a presentation.
ghost use Rattle.std.specs.Prelude.{◌≡◌, ℕ, ◌^◌, ◌<◌, ◌≤◌, length};
ghost use Rattle.presentation.specs.Presented.{looked_at};
ghost use Rattle.presentation.specs.Printing.{IsCounted};
ghost use Rattle.presentation.specs.Verifying.{longest_at, longest_of};
ghost use Rattle.live_meaning.specs.Histories.{longest_in};
ghost use Rattle.live_meaning.specs.Removal.{half_more, target_of};

use exact_time::{Digits, Nanos};
use iso_time::Instant;
use presentation::Presentation;

/// The target duration in seconds, by the longest printed duration of a presentation at a time, and
/// `@maxSegmentDuration`: one and a half times the longer one, rounded up, and at least 1.
pub(crate) fn target_of(
    presentation: &Presentation,
    now: Instant,
    digits: Digits,
    max_segment: Option<Nanos>,
) -> u64
    requires counted { (s t : ℕ) → s < length presentation.now.sections → t < length presentation.now.tracks
        → IsCounted (looked_at now presentation.now) s t }
    ensures target { result ≡ target_of (10 ^ digits) (longest_in (10 ^ digits) (looked_at now presentation.now)) max_segment }
    ensures low { 1 ≤ result }
{
    let longest = longest_in(presentation, now, digits);
    let max_segment = max_segment.unwrap_or(Nanos(0));
    half_more(longest, digits.unit())
        .max(half_more(max_segment.0, 1_000_000_000))
        .max(1)
}

/// One and a half times a duration, in seconds, rounded up.
fn half_more(units: u64, unit: u32) -> u64
    requires { 1000 ≤ unit }
    ensures { result ≡ half_more unit units }
{
    (3 * u128::from(units)).div_ceil(2 * u128::from(unit)) as u64
}

/// The longest printed duration in units of the last decimal.
#[tactic(auto, using(crate::proofs::Paced::in_order))]
fn longest_in(presentation: &Presentation, now: Instant, digits: Digits) -> u64
    requires counted { (s t : ℕ) → s < length presentation.now.sections → t < length presentation.now.tracks
        → IsCounted (looked_at now presentation.now) s t }
    ensures longest { result ≡ longest_in (10 ^ digits) (looked_at now presentation.now) }
{
    let mut longest: u64 = 0;
    for track in 0..presentation.tracks().len() {
        longest = longest.max(longest_of(presentation, now, digits, track));
    }
    longest
}

/// The longest one of a track.
#[tactic(auto, using(crate::proofs::Paced::in_order))]
fn longest_of(presentation: &Presentation, now: Instant, digits: Digits, track: usize) -> u64
    requires track { track < length presentation.now.tracks }
    requires counted { (s : ℕ) → s < length presentation.now.sections → IsCounted (looked_at now presentation.now) s track }
    ensures longest { result ≡ longest_of (looked_at now presentation.now) (10 ^ digits) track }
{
    let mut longest: u64 = 0;
    for section in 0..presentation.sections().len() {
        longest = longest.max(longest_at(presentation, now, digits, track, section));
    }
    longest
}

/// The longest one of a track in a section.
#[tactic(auto, using(crate::proofs::Paced::longest_printed))]
fn longest_at(
    presentation: &Presentation,
    now: Instant,
    digits: Digits,
    track: usize,
    section: usize,
) -> u64
    requires section { section < length presentation.now.sections }
    requires track { track < length presentation.now.tracks }
    requires counted { IsCounted (looked_at now presentation.now) section track }
    ensures longest { result ≡ longest_at (looked_at now presentation.now) (10 ^ digits) track section }
{
    let mut longest: u64 = 0;
    for timed in presentation.times_behind(section, track, now, None, digits) {
        longest = longest.max(timed.1);
    }
    longest
}
