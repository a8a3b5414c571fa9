// Why a snapshot of playlists and media files is rejected.
ghost use Rattle.std.specs.Prelude.{◌≡◌};
ghost use Rattle.layer_faults.specs.declared.live.LiveFault.TheVariants as live;
ghost use Rattle.hls_follow.specs.declared.timed_fault.TimedFault.TheVariants.{Live, Times};

use crate::LiveFault;
use bridge_io::NoMemory;
use fragment_times::TimesFault;
use thiserror::Error;

/// Why a snapshot of playlists and their media files can't follow those that were accepted.
#[derive(Debug, Drop, Error)]
pub enum TimedFault {
    /// The playlists are rejected, or memory ran out.
    #[error("{0}")]
    Live(LiveFault),
    /// The media files give no times that can follow.
    #[error("{0}")]
    Times(TimesFault),
}

impl From<LiveFault> for TimedFault {
    ghost from_gives = { λ live fault. fault ≡ Live live };

    fn from(fault: LiveFault) -> TimedFault {
        TimedFault::Live(fault)
    }
}

impl From<TimesFault> for TimedFault {
    ghost from_gives = { λ times fault. fault ≡ Times times };

    fn from(fault: TimesFault) -> TimedFault {
        TimedFault::Times(fault)
    }
}

impl From<NoMemory> for TimedFault {
    ghost from_gives = { λ _ fault. fault ≡ Live live.Memory };

    fn from(_: NoMemory) -> TimedFault {
        TimedFault::Live(LiveFault::Memory)
    }
}
