// Following.
ghost use Rattle.std.specs.Prelude.{◌≡◌, ℕ, ◌+◌, ◌<◌, ◌≤◌, Bool, true, false, List, Option, Some, IfOk, IfErr, IfSome, OnOk};
ghost use Rattle.std.specs.Prelude.{OnErr, IsErrOf};
ghost use Rattle.bridge_io.specs.Fault.{HasCause};
ghost use Rattle.bridge_io.specs.InOrder.{put_all, AreBegun};
ghost use Rattle.bridge_io.specs.Outside.{Changes, Files};
ghost use Rattle.bridge_io.specs.declared.out_fault.OutFault.TheVariants.{WriteFault};
ghost use Rattle.bridge_jobs.specs.Frames.{IsFramePos, most_frames};
ghost use Rattle.bridge_jobs.specs.declared.frame.FramePos.{FramePos};
ghost use Rattle.bridge_jobs.specs.declared.frame.FrameFault.TheVariants.{Fault};
ghost use Rattle.bridge_report.specs.Following.{Followed};
ghost use Rattle.bridge_report.specs.FrameStops.{frame_text};
ghost use Rattle.bridge_report.specs.declared.frame_stop.FrameStop.TheVariants.{ReadFault};
ghost use Rattle.bridge_steps.specs.Follow.{Accepts, ForFiles};
ghost use Rattle.bridge_steps.specs.Streams.{Stream, ReadsFirst};

use bridge_io::{Ledger, Source, Steps, Store};
use bridge_jobs::{FrameFault, FramePos};
use bridge_report::FrameStop;
use hls_writer::OutFault;
use std::alloc::Global;

/// What is followed: a stream of update frames, each accepted or rejected, and the files for the state after the accepted
/// ones.
pub trait Follow {
    /// An update frame of the stream.
    type Frame: Drop;

    /// The state after the accepted frames.
    type Live: Drop;

    /// Whether frames are judged by the store's files.
    ghost reads: { Self → Bool } = { λ _. false };

    /// Why frames are rejected, by the store's files, the state after them, and its files.
    ghost told: { Self → Files → Followed Self.Live Self.Frame };

    /// How many frames were accepted.
    ghost accepted: { Self → Self.Live → ℕ };

    /// The invariant of the state.
    ghost is_kept: { Self → Self.Live → Type 0 } = { λ _ _. Unit {0} };

    /// The stream of the bytes that begin at a position.
    ghost stream: { Self → FramePos → List ℕ → Stream Self.Frame };

    /// What holds for a frame that was read.
    ghost is_read: { Self → Self.Frame → Type 0 };

    /// Reads the next frame of the stream, and moves the position past it. `None` exactly where the stream ends at a
    /// frame's end.
    fn next<I: Source>(
        &self,
        alloc: Global,
        input: &mut I,
        at: &mut FramePos,
    ) -> Result<Option<Self::Frame>, FrameFault>
        requires { IsFramePos at.old }
        ensures frame { ReadsFirst (stream self.now) at.old at.new result (I.remaining input.old) (I.remaining input.new) }
        ensures kept { IsFramePos at.new }
        ensures counts { IfOk result (λ frame. IfSome frame (λ f. at.new.frames ≡ at.old.frames + 1)) }
        ensures read { IfOk result (λ frame. IfSome frame (λ f. is_read self.now f)) }
        ensures cause { HasCause Fault (I.faults input.old) (I.faults input.new) result };

    /// Applies a frame, and returns how many segments it appended; or why it is rejected, and then nothing is
    /// changed. Files of the store may be read; they stay as they are.
    fn accept<F: Store, L: Ledger>(
        &self,
        alloc: Global,
        live: &mut Self::Live,
        frame: &Self::Frame,
        store: &mut F,
        steps: &mut Steps<L>,
    ) -> Result<u64, FrameStop>
        requires few { accepted self.now live.old < most_frames }
        requires kept { is_kept self.now live.old }
        requires read { is_read self.now frame.now }
        ensures accepted { ForFiles (reads self.now) (F.files store.old) (λ files. IfOk result (λ n.
            Accepts (told self.now files) live.old frame.now live.new n steps.old steps.new)) }
        ensures refused { ForFiles (reads self.now) (F.files store.old) (λ files. IfErr result (λ stop. IfSome (frame_text stop) (λ text.
            (told self.now files).refusal live.old frame.now ≡ Some text))) }
        ensures same { OnErr result (live.new ≡ live.old) }
        ensures made { ForFiles (reads self.now) (F.files store.old) (λ files. OnErr result ((steps.old ≤ steps.new)
            × (steps.new ≤ steps.old + (told self.now files).makes live.old frame.now))) }
        ensures counts { OnOk result (accepted self.now live.new ≡ accepted self.now live.old + 1) }
        ensures kept { is_kept self.now live.new }
        ensures cause { HasCause ReadFault (F.read_faults store.old) (F.read_faults store.new) result }
        ensures read_fault { IsErrOf result ReadFault → (reads self.now ≡ true) × (steps.new ≡ steps.old) }
        ensures unread { reads self.now ≡ false → F.read_faults store.new ≡ F.read_faults store.old }
        ensures files { F.files store.new ≡ F.files store.old }
        ensures writes { F.write_faults store.new ≡ F.write_faults store.old };

    /// Writes the files for the state after the accepted frames, of which there is at least one.
    fn publish<F: Store>(
        &self,
        alloc: Global,
        live: &Self::Live,
        store: &mut F,
    ) -> Result<(), OutFault>
        requires some { 0 < accepted self.now live.now }
        requires kept { is_kept self.now live.now }
        ensures ok { ForFiles (reads self.now) (F.files store.old) (λ files. OnOk result
            (Changes (put_all ((told self.now files).files live.now)) (F.files store.old) (F.files store.new))) }
        ensures err { ForFiles (reads self.now) (F.files store.old) (λ files. OnErr result
            (AreBegun ((told self.now files).files live.now) (F.files store.old) (F.files store.new))) }
        ensures cause { HasCause WriteFault (F.write_faults store.old) (F.write_faults store.new) result }
        ensures reads { F.read_faults store.new ≡ F.read_faults store.old };
}
