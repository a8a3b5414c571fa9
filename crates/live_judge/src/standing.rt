// The state of a session without its tracks.
ghost use Rattle.std.specs.Prelude.{◌≡◌, ◌++◌};
ghost use Rattle.presentation.specs.Presented.{is_finished, looked_at};
ghost use Rattle.live_meaning.specs.Refusals.{clock_told, ended_told};
ghost use Rattle.live_judge.specs.Faults.{Judges};
ghost use Rattle.live_judge.specs.Shown.{common_shown};

use crate::{KnownPeriods, RefreshFault};
use exact_time::{Digits, Nanos};
use iso_time::Instant;
use presentation::Presentation;
use url_parts::Base;

/// The state of a session without its tracks. In a contract it is `common_shown`.
#[derive(Drop)]
pub struct Standing {
    /// The MPD's own URL.
    pub base: Base,
    /// How many decimals of a second are printed.
    pub digits: Digits,
    /// The presentation of the first MPD at its time.
    pub opened: Presentation,
    /// That of the MPD in force, at its time; `None` while the first one is in force.
    pub newest: Option<Presentation>,
    /// The index of the first Period of the MPD in force. The others have the next ones.
    pub place: usize,
    /// When the presentation begins to be available (ISO/IEC 23009-1, 5.3.1.2).
    pub availability_start: Instant,
    /// When the MPD in force was published (ISO/IEC 23009-1, 5.3.1.2).
    pub published: Option<Instant>,
    /// The time of the last update.
    pub instant: Instant,
    /// The Periods that were seen.
    pub known: KnownPeriods,
    /// How many resets were accepted.
    pub resets: u64,
    /// The target duration in seconds (RFC 8216, 4.3.3.1).
    pub target: u64,
    /// How many updates were accepted.
    pub accepted: u64,
}

impl Standing {
    ghost use Rattle.std.specs.Prelude.{unwrap_or};

    /// The presentation in force, at the time of its MPD.
    pub fn force(&self) -> &Presentation
        ensures { result.now ≡ unwrap_or self.now.newest self.now.opened }
    {
        match &self.newest {
            Some(newest) => newest,
            None => &self.opened,
        }
    }

    /// Checks the time of an update: none may follow a static MPD, nor have an earlier time than the last one.
    pub fn check_now(&self, now: Instant) -> Result<(), RefreshFault>
        ensures { Judges result (ended_told (common_shown self.now) ++ clock_told (common_shown self.now) now) }
    {
        if is_finished(self.force(), self.instant) {
            return Err(RefreshFault::Ended);
        }
        if now < self.instant {
            return Err(RefreshFault::ClockBack {
                former: self.instant,
                now,
            });
        }
        Ok(())
    }
}

/// Whether a presentation lists all of its segments at every time.
pub(crate) fn is_finished(force: &Presentation, now: Instant) -> bool
    ensures { result ≡ is_finished (looked_at now force.now) }
{
    force.window_from(Nanos(0), now).until.is_none()
}
