// From playlists to an MPD.
ghost use Rattle.std.specs.Prelude.{◌≡◌, Ok, Some};
ghost use Rattle.presentation.specs.Counting.{counted, count_of_all};
ghost use Rattle.presentation.specs.Origins.{CameFromPlaylists};
ghost use Rattle.bridge_steps.specs.Endings.{JobEndsAs, around};
ghost use Rattle.bridge_core.specs.Dash as spec;

use bridge_courses::Ending;
use bridge_io::{Ledger, Steps, Store};
use bridge_jobs::MasterJob;
use bridge_playlists::presented_at;
use bridge_report::halted;
use bridge_steps::{mpd_and_line, place_in, written};
use dash_writer::write_mpd;
use presentation::Presentation;
use std::alloc::Global;

/// Writes the MPD for the command's master playlist and its media playlists, unless one of them is rejected.
#[tactic(auto, unfolding(crate::specs::Dash::dash_outcome))]
pub fn run<F: Store, L: Ledger>(
    alloc: Global,
    job: &MasterJob,
    store: &mut F,
    steps: &mut Steps<L>,
) -> Ending
    ensures { JobEndsAs (spec.dash_outcome job.now (F.files store.old)) result
        (around F.Store store.old steps.old) (around F.Store store.new steps.new) }
{
    match place_in(alloc, &job.base, &job.master) {
        Ok(place) => match presented_at(alloc, &place, store) {
            Ok(presentation) => write(alloc, job, &presentation, store, steps),
            Err(halt) => halted(alloc, halt),
        },
        Err(told) => told,
    }
}

/// Writes the MPD of a presentation.
fn write<F: Store, L: Ledger>(
    alloc: Global,
    job: &MasterJob,
    presentation: &Presentation,
    store: &mut F,
    steps: &mut Steps<L>,
) -> Ending
    requires came { CameFromPlaylists presentation.now }
    requires counted { counted presentation.now ≡ Ok (count_of_all presentation.now) }
    ensures { JobEndsAs (Some (spec.outcome_of job.now (Ok presentation.now))) result
        (around F.Store store.old steps.old) (around F.Store store.new steps.new) }
{
    let Ok((name, line)) = mpd_and_line(alloc, &job.out, presentation) else {
        return Ending::Memory;
    };
    written(
        line,
        write_mpd(alloc, job.form, presentation, store, &name, steps),
    )
}
