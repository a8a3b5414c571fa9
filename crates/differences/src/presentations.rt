// Two presentations.
ghost use Rattle.std.specs.Prelude.{◌≡◌, ◌^◌, IfOk};
ghost use Rattle.presentation.specs.Meanings.{meaning_of};
ghost use Rattle.differences.specs.Deviating.{told};
ghost use Rattle.differences.specs.Sections.{AreComparable};

use crate::Deviations;
use crate::collected::Collected;
use crate::contents::Both;
use crate::side::Side;
use crate::times::Tolerance;
use bridge_io::{Ledger, NoMemory, Steps};
use exact_time::Digits;
use presentation::Presentation;
use std::alloc::Global;

/// All differences of the presentation of playlists from that of an MPD: the number of sections, the number of tracks, the
/// kind and language of each track, and then by track and section its init segment, and by segment the URL, the byte range
/// and the time, and how many segments there are (ISO/IEC 23009-1, 5.3; RFC 8216, 4.3). A time differs that is neither that
/// of the MPD, nor it rounded down to units of the last one of these decimals of a second, nor within `within` nanoseconds
/// of it. The first `most` differences are kept, and all are counted.
///
/// A section counts where some track lists a segment in it: a live MPD is compared as it is at its current time.
///
/// Requires that `verify` returned `Ok` for the first one and these digits, that the second one came from playlists, and
/// that `count` returned `Ok` for it.
pub fn differences<L: Ledger>(
    alloc: Global,
    mpd: &Presentation,
    playlists: &Presentation,
    digits: Digits,
    within: u64,
    most: usize,
    steps: &mut Steps<L>,
) -> Result<Deviations, NoMemory>
    requires { AreComparable (10 ^ digits) mpd.now playlists.now }
    ensures { IfOk result (λ found. found ≡ told most within (10 ^ digits) (meaning_of mpd.now) (meaning_of playlists.now)) }
{
    let both = Both {
        mpd: Side::of(alloc, mpd, digits)?,
        playlists: Side::of(alloc, playlists, digits)?,
        tolerance: Tolerance { digits, within },
    };
    let mut found = Collected::new(alloc, most);
    both.add_heads(&mut found)?;
    let greatest = both.add_tracks(alloc, &mut found, steps)?;
    Ok(Deviations {
        first: found.first,
        count: found.count,
        greatest,
    })
}
