// A followed MPD.
ghost use Rattle.std.specs.Prelude.{◌≡◌, ◌+◌, ◌<◌, ◌≤◌, IfErr, IfOk, IfSome, OnErr, OnOk, Some};
ghost use Rattle.iso_time.specs.Instant.{IsReadable};
ghost use Rattle.bridge_jobs.specs.Frames.{most_frames, now_of};
ghost use Rattle.bridge_report.specs.Refusals.{refusal_text, refused_in};
ghost use Rattle.bridge_steps.specs.Follow.{Accepts};
ghost use Rattle.bridge_live.specs.LiveMpds as spec;

use crate::channel::Channel;
use crate::live_files::write_live_files;
use crate::live_frame::{first_frame, next_frame};
use bridge_io::{Ledger, Name, Source, Steps, Store};
use bridge_jobs::laws::frames_follow;
use bridge_jobs::{Frame, FrameFault, FramePos, read_frame};
use bridge_report::{FrameStop, Stop};
use bridge_steps::{Follow, Output, count_of};
use exact_time::Digits;
use hls_writer::OutFault;
use segment_forms::Form;
use std::alloc::Global;
use url_parts::Base;

/// An MPD that is followed, by update frames.
#[derive(Drop)]
pub struct LiveMpd {
    /// The MPD's own URL.
    pub url: Base,
    /// The folder of the playlists.
    pub out: Name,
    /// The URL of the store's root, where URLs are relative to the playlists; `None`: all URLs are absolute.
    pub base: Option<Base>,
    /// The decimals of printed durations.
    pub digits: Digits,
    /// Whether the playlists are plain or for players.
    pub form: Form,
}

impl LiveMpd {
    fn output(&self) -> Output<'_>
        ensures { result ≡ record { folder = self.now.out; base = self.now.base } }
    {
        match &self.base {
            None => Output::absolute(&self.out),
            Some(base) => Output::relative(base, &self.out),
        }
    }

    /// Applies a frame, and returns how many segments it appended; or why it is rejected, and then nothing is changed.
    fn take<L: Ledger>(
        &self,
        alloc: Global,
        live: &mut Option<Channel>,
        frame: &Frame,
        steps: &mut Steps<L>,
    ) -> Result<u64, Stop>
        requires few { spec.accepted_of (spec.session_of live.old) < most_frames }
        requires now { IsReadable (now_of frame.now) }
        ensures accepted { IfOk result (λ n. Accepts (spec.told_by self.now) live.old frame.now live.new n steps.old steps.new) }
        ensures refused { IfErr result (λ stop. IfSome (refused_in stop) (λ r. (spec.told_by self.now).refusal live.old frame.now
            ≡ Some (refusal_text r))) }
        ensures same { OnErr result (live.new ≡ live.old) }
        ensures made { OnErr result ((steps.old ≤ steps.new)
            × (steps.new ≤ steps.old + (spec.told_by self.now).makes live.old frame.now)) }
        ensures counts { OnOk result (spec.accepted_of (spec.session_of live.new) ≡ spec.accepted_of (spec.session_of live.old) + 1) }
    {
        match live {
            Some(channel) => next_frame(alloc, &mut channel.session, frame, steps),
            None => {
                let channel = first_frame(alloc, self.form, &self.url, self.digits, frame, steps)?;
                let listed = count_of(channel.session.first());
                *live = Some(channel);
                Ok(listed)
            }
        }
    }
}

impl Follow for LiveMpd {
    type Frame = Frame;

    type Live = Option<Channel>;

    ghost told = { λ mpd _. spec.told_by mpd };

    ghost accepted = { λ mpd live. spec.accepted_of (spec.session_of live) };

    ghost stream = { λ mpd. spec.frame_stream };

    ghost is_read = { λ mpd frame. IsReadable (now_of frame) };

    fn next<I: Source>(
        &self,
        alloc: Global,
        input: &mut I,
        at: &mut FramePos,
    ) -> Result<Option<Frame>, FrameFault> {
        frames_follow();
        read_frame(alloc, input, at)
    }

    fn accept<F: Store, L: Ledger>(
        &self,
        alloc: Global,
        live: &mut Option<Channel>,
        frame: &Frame,
        _store: &mut F,
        steps: &mut Steps<L>,
    ) -> Result<u64, FrameStop> {
        match self.take(alloc, live, frame, steps) {
            Ok(appended) => Ok(appended),
            Err(stop) => Err(FrameStop::of(alloc, stop)),
        }
    }

    fn publish<F: Store>(
        &self,
        alloc: Global,
        live: &Option<Channel>,
        store: &mut F,
    ) -> Result<(), OutFault> {
        match live {
            Some(channel) => {
                let output = self.output();
                write_live_files(alloc, &output, &channel.session, &channel.players, store)
            }
            None => Ok(()),
        }
    }
}
