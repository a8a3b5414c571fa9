// Why an update frame isn't accepted.
ghost use Rattle.std.specs.Prelude.{◌≡◌, ◌≢◌, IfSome, Some};
ghost use Rattle.bridge_report.specs.declared.frame_stop.FrameStop.TheVariants.{Memory, ReadFault};
ghost use Rattle.bridge_report.specs.FrameStops as spec;
ghost use Rattle.bridge_report.specs.Refusals.{file_refusal_text};

use crate::refusal::{Refusal, Stop, file_refusal_text, refusal_text};
use bridge_io::{NoMemory, Text};
use std::alloc::Global;

/// Why an update frame isn't accepted.
#[derive(Drop)]
pub enum FrameStop {
    /// It is rejected: the report's text of the error.
    Refused(Text),
    /// A read of the store's files failed.
    ReadFault,
    /// Out of memory, which says nothing about the frame.
    Memory,
}

impl FrameStop {
    /// The frame is rejected for what it carries, unless memory runs out.
    pub fn of(alloc: Global, stop: Stop) -> FrameStop
        ensures told { IfSome (spec.frame_text result) (λ text. spec.stop_text stop ≡ Some text) }
        ensures no_fault { result ≢ ReadFault }
    {
        match stop {
            Stop::Refused(refusal) => FrameStop::of_text(refusal_text(alloc, refusal)),
            Stop::Memory => FrameStop::Memory,
        }
    }

    /// The frame is rejected for the file of this name: a media file that it lists, or the manifest; unless memory runs out.
    pub fn of_file(alloc: Global, file: &str, refusal: Refusal) -> FrameStop
        ensures told { IfSome (spec.frame_text result) (λ text. text ≡ file_refusal_text file.now refusal) }
        ensures no_fault { result ≢ ReadFault }
    {
        FrameStop::of_text(file_refusal_text(alloc, file, refusal))
    }

    fn of_text(text: Result<Text, NoMemory>) -> FrameStop
        ensures { result ≡ spec.stop_of text }
    {
        match text {
            Ok(text) => FrameStop::Refused(text),
            Err(NoMemory) => FrameStop::Memory,
        }
    }
}

impl From<NoMemory> for FrameStop {
    ghost from_gives = { λ _ stop. stop ≡ Memory };

    fn from(_: NoMemory) -> FrameStop {
        FrameStop::Memory
    }
}
