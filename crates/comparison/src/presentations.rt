// Two presentations.
ghost use Rattle.std.specs.Prelude.{◌≡◌, ◌^◌, IfOk};
ghost use Rattle.meaning.specs.Differences.{first_difference};
ghost use Rattle.presentation.specs.Meanings.{meaning_of};
ghost use Rattle.comparison.specs.Comparing.{AreComparable};

use crate::contents::Both;
use crate::heads::heads_difference;
use bridge_io::{Ledger, NoMemory, Steps};
use exact_time::Digits;
use meaning::Difference;
use presentation::Presentation;
use std::alloc::Global;

/// The first difference where the presentation of playlists neither means the same as that of an MPD nor rounds its times
/// down to units of the last one of these decimals of a second: the number of sections, the number of tracks, the kind and
/// language of each track, and then by track and section its init segment, and by segment the URL, the byte range and the
/// time, and how many segments there are (ISO/IEC 23009-1, 5.3; RFC 8216, 4.3). Segments are made only up to the first
/// difference.
///
/// Requires that the first one is VOD, that `verify` returned `Ok` for it and these digits, that the second one came from
/// playlists, and that `count` returned `Ok` for it.
pub fn compare<L: Ledger>(
    alloc: Global,
    mpd: &Presentation,
    playlists: &Presentation,
    digits: Digits,
    steps: &mut Steps<L>,
) -> Result<Option<Difference>, NoMemory>
    requires { AreComparable (10 ^ digits) mpd.now playlists.now }
    ensures { IfOk result (λ found. found ≡ first_difference (10 ^ digits) (meaning_of mpd.now) (meaning_of playlists.now)) }
{
    if let Some(found) = heads_difference(mpd, playlists) {
        return Ok(Some(found));
    }
    let both = Both {
        mpd,
        playlists,
        digits,
    };
    both.difference(alloc, steps)
}
