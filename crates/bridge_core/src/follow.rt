// From the updates of a live MPD to live (sliding-window) playlists.
ghost use Rattle.std.specs.Prelude.{◌≡◌};
ghost use Rattle.bridge_courses.specs.Steps.{IsCaused};
ghost use Rattle.bridge_steps.specs.Follow.{RunsAs, world_of};
ghost use Rattle.bridge_steps.specs.Playlists.{base_if};
ghost use Rattle.bridge_core.specs.Follow as spec;

use bridge_courses::Ending;
use bridge_io::{Ledger, Sink, Source, Steps, Store};
use bridge_jobs::{Addresses, FollowJob};
use bridge_live::LiveMpd;
use bridge_steps::{follow, place_in};
use std::alloc::Global;
use url_parts::Base;

/// Processes the update frames of the input: the playlists of each accepted one are written, and each one has a line.
#[tactic(auto, unfolding(crate::specs::Follow::followed_course))]
pub fn run<I: Source, F: Store, P: Sink, L: Ledger>(
    alloc: Global,
    job: FollowJob,
    input: &mut I,
    store: &mut F,
    report: &mut P,
    steps: &mut Steps<L>,
) -> Ending
    ensures runs { RunsAs (spec.followed_course job (I.remaining input.old)) result
        (world_of I.Source F.Store P.Sink input.old store.old report.old steps.old)
        (world_of I.Source F.Store P.Sink input.new store.new report.new steps.new) }
    ensures caused { IsCaused result
        (world_of I.Source F.Store P.Sink input.old store.old report.old steps.old)
        (world_of I.Source F.Store P.Sink input.new store.new report.new steps.new) }
    ensures reads { F.read_faults store.new ≡ F.read_faults store.old }
{
    match place_in(alloc, &job.base, &job.name) {
        Ok(place) => {
            let mpd = LiveMpd {
                url: place.url,
                out: job.out,
                base: base_if(job.addresses, place.folder),
                digits: job.digits,
                form: job.form,
            };
            follow(alloc, &mpd, None, input, store, report, steps)
        }
        Err(told) => told,
    }
}

/// The URL of the store's root, where URLs are relative to the playlists.
fn base_if(addresses: Addresses, base: Base) -> Option<Base>
    ensures { result ≡ base_if addresses base }
{
    match addresses {
        Addresses::Absolute => None,
        Addresses::Relative => Some(base),
    }
}
