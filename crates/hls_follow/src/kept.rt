// Which tracks are kept.
ghost use Rattle.std.specs.Prelude.{◌≡◌, map, IfOk};
ghost use Rattle.std.specs.Option.{option_copied};
ghost use Rattle.hls_presentation.specs.Views.{source_of};
ghost use Rattle.hls_follow.specs.Kept as spec;

use crate::state::{Followed, FollowedTrack, KeptList};
use bridge_io::NoMemory;
use dash_writer::LivePeriod;
use hls_presentation::{Source, is_left_out};
use std::alloc::Global;

/// The tracks after the last accepted snapshot.
pub(crate) fn formers_of(former: Option<&Followed>) -> &[FollowedTrack]
    ensures { result.now ≡ spec.formers_of (option_copied former.entry) }
{
    match former {
        Some(former) => former.tracks.as_slice(),
        None => &[],
    }
}

/// The Periods of the last accepted snapshot.
pub(crate) fn periods_of(former: Option<&Followed>) -> &[LivePeriod]
    ensures { result.now ≡ spec.periods_of (option_copied former.entry) }
{
    match former {
        Some(former) => former.mpd.periods.as_slice(),
        None => &[],
    }
}

/// Which tracks are kept: all except the text tracks that the first accepted snapshot drops for good.
pub(crate) fn flags_of(
    alloc: Global,
    former: Option<&Followed>,
    sources: &[Source<'_>],
) -> Result<KeptList, NoMemory>
    ensures { IfOk result (λ flags. flags ≡ spec.flags_of (option_copied former.entry) (map source_of sources.now)) }
{
    match former {
        Some(former) => copy_of(alloc, former.kept.as_slice()),
        None => first_flags(alloc, sources),
    }
}

fn copy_of(alloc: Global, flags: &[bool]) -> Result<KeptList, NoMemory>
    ensures { IfOk result (λ copy. copy ≡ flags.now) }
{
    let mut copy = KeptList::new(alloc);
    copy.extend(flags)?;
    Ok(copy)
}

fn first_flags(alloc: Global, sources: &[Source<'_>]) -> Result<KeptList, NoMemory>
    ensures { IfOk result (λ flags. flags ≡ spec.flags_of None (map source_of sources.now)) }
{
    let mut flags = KeptList::new(alloc);
    for source in sources {
        flags.push(!is_left_out(source))?;
    }
    Ok(flags)
}

/// The kept tracks.
pub(crate) fn kept_by<'a>(
    alloc: Global,
    mut flags: &[bool],
    sources: &[Source<'a>],
) -> Result<Vec<Source<'a>>, NoMemory>
    ensures { IfOk result (λ kept. map source_of kept.items ≡ spec.kept_by flags.entry.now (map source_of sources.now)) }
{
    let mut kept = Vec::new(alloc);
    for source in sources {
        let Some((flag, later)) = flags.split_first() else {
            return Ok(kept);
        };
        if *flag {
            kept.push(*source)?;
        }
        flags = later;
    }
    Ok(kept)
}
