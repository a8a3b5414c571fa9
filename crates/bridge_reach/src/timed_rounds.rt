// Following live playlists with the times of their media files.
ghost use Rattle.std.specs.Prelude.{◌≡◌, ◌≢◌, ◌+◌, ◌<◌, All, length, IfOk, IfSome, IsSome, OnErr, OnOk, Some};
ghost use Rattle.std.specs.Option.{ForSome};
ghost use Rattle.bridge_io.specs.Answer.{Gives};
ghost use Rattle.bridge_io.specs.Fault.{HasCause};
ghost use Rattle.iso_time.specs.Instant.{IsReadable};
ghost use Rattle.hls_follow.specs.Rounds.{appended_by};
ghost use Rattle.hls_media.specs.Laws.{IsBounded};
ghost use Rattle.bridge_jobs.specs.Frames.{most_frames};
ghost use Rattle.bridge_report.specs.FrameStops.{frame_text};
ghost use Rattle.bridge_report.specs.declared.frame_stop.FrameStop.TheVariants.{ReadFault};
ghost use Rattle.bridge_reach.specs.TimedRounds as spec;

use crate::rounds::{LiveHls, LiveRounds, round_medias};
use bridge_io::{Ledger, Name, OutFault, Source, Steps, Store};
use bridge_jobs::{FrameFault, FramePos, Round};
use bridge_report::{FrameStop, Refusal, Stop, TimesRefusal};
use bridge_steps::Follow;
use fragment_times::{FileFault, TimesFault};
use hls_follow::TimedFault;
use hls_presentation::MediaFiles;
use iso_time::Instant;
use std::alloc::Global;
use url_parts::Base;

/// Live playlists that are followed, by snapshots and by the decode times of their media files.
#[derive(Drop)]
pub struct TimedHls {
    /// The playlists.
    pub hls: LiveHls,
    /// The master playlist's file.
    pub master: Name,
    /// The URL of the store's root.
    pub folder: Base,
}

impl Follow for TimedHls {
    type Frame = Round;

    type Live = LiveRounds;

    ghost use Rattle.std.specs.Prelude.{true};
    ghost use Rattle.bridge_reach.specs.Rounds as rounds;

    ghost reads = { λ timed. true };

    ghost told = { λ timed files. spec.followed_timed timed files };

    ghost accepted = { λ timed live. live.accepted };

    ghost is_kept = { λ timed live. rounds.IsKept timed.hls live };

    ghost stream = { λ timed. rounds.round_stream timed.hls };

    ghost is_read = { λ timed round. rounds.IsRead timed.hls round };

    fn next<I: Source>(
        &self,
        alloc: Global,
        input: &mut I,
        at: &mut FramePos,
    ) -> Result<Option<Round>, FrameFault> {
        self.hls.next(alloc, input, at)
    }

    fn accept<F: Store, L: Ledger>(
        &self,
        alloc: Global,
        live: &mut LiveRounds,
        round: &Round,
        store: &mut F,
        _steps: &mut Steps<L>,
    ) -> Result<u64, FrameStop> {
        match round_medias(alloc, &self.hls, live.follow.formers(), &round.bodies) {
            Ok(medias) => self.take(alloc, live, round.now, medias, store),
            Err(stop) => Err(FrameStop::of(alloc, stop)),
        }
    }

    fn publish<F: Store>(
        &self,
        alloc: Global,
        live: &LiveRounds,
        store: &mut F,
    ) -> Result<(), OutFault> {
        self.hls.publish(alloc, live, store)
    }
}

impl TimedHls {
    /// Applies a snapshot's playlists and media files, and returns how many segments it appended; or why it is rejected, and then nothing
    /// is changed.
    fn take<F: Store>(
        &self,
        alloc: Global,
        live: &mut LiveRounds,
        now: Instant,
        medias: MediaFiles,
        store: &mut F,
    ) -> Result<u64, FrameStop>
        requires now { IsReadable now }
        requires one_each { length medias ≡ length live.old.follow.tracks }
        requires bounded { All IsBounded medias }
        requires few { live.old.accepted < most_frames }
        ensures next { ForSome (F.files store.old) (λ files.
            Gives (λ _. live.new) frame_text result (spec.taken self.now files live.old now medias)) }
        ensures same { OnErr result (live.new ≡ live.old) }
        ensures appended { IfOk result (λ n. n ≡ appended_by live.old.follow medias) }
        ensures counts { OnOk result (live.new.accepted ≡ live.old.accepted + 1) }
        ensures kept { OnOk result ((live.new.follow.tracks ≡ live.old.follow.tracks) × IsSome live.new.follow.followed) }
        ensures cause { HasCause ReadFault (F.read_faults store.old) (F.read_faults store.new) result }
        ensures files { F.files store.new ≡ F.files store.old }
        ensures writes { F.write_faults store.new ≡ F.write_faults store.old }
    {
        match live.follow.accept_timed(now, medias, &self.folder, store) {
            Ok(appended) => {
                live.accepted += 1;
                Ok(appended.0)
            }
            Err(TimedFault::Live(fault)) => Err(FrameStop::of(alloc, Stop::of_live(fault))),
            Err(TimedFault::Times(fault)) => Err(self.untimed(alloc, fault)),
        }
    }

    /// Which file is rejected, and why.
    fn untimed(&self, alloc: Global, fault: TimesFault) -> FrameStop
        ensures told { IfSome (frame_text result) (λ text. spec.times_text self.now fault ≡ Some text) }
        ensures read_fault { result ≡ ReadFault → fault ≡ spec.read_failed }
    {
        match fault {
            TimesFault::OutsideBase => self.unplaced(alloc, TimesRefusal::OutsideBase),
            TimesFault::Range => self.unplaced(alloc, TimesRefusal::Range),
            TimesFault::File(file, fault) => refused_file(alloc, &file, fault),
            TimesFault::Segment(_, fault) => refused_file(alloc, &self.master, fault),
            TimesFault::Fault => FrameStop::ReadFault,
            TimesFault::Memory => FrameStop::Memory,
        }
    }

    /// The master playlist is rejected.
    fn unplaced(&self, alloc: Global, refusal: TimesRefusal) -> FrameStop
        ensures told { IfSome (frame_text result) (λ text. text ≡ spec.master_text self.now refusal) }
        ensures no_fault { result ≢ ReadFault }
    {
        FrameStop::of_file(alloc, self.master.as_str(), Refusal::Times(refusal))
    }
}

/// A media file is rejected.
fn refused_file(alloc: Global, file: &Name, fault: FileFault) -> FrameStop
    ensures told { IfSome (frame_text result) (λ text. text ≡ spec.media_text file.now fault) }
    ensures no_fault { result ≢ ReadFault }
{
    let refusal = Refusal::Times(TimesRefusal::File(fault));
    FrameStop::of_file(alloc, file.as_str(), refusal)
}
