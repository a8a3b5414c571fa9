// Why nothing is published, and the line that reports it.
ghost use Rattle.std.specs.Prelude.{◌≡◌, ◌≢◌, IfOk, IfSome};
ghost use Rattle.publish_core.specs.declared.refusal.Stop.TheVariants.{ReadFault};
ghost use Rattle.publish_core.specs.Refusals as spec;

use bridge_courses::{Ending, Verdict};
use bridge_io::{Fail, Name, NoMemory, Text};
use bridge_report::{Halt, Refusal, refusal_text};
use std::alloc::Global;

/// Why a file is refused.
#[derive(Clone, Copy, PartialEq, Eq)]
pub(crate) enum Refused {
    /// It isn't read.
    Read(Refusal),
    /// It isn't written as what follows a presentation.
    Form,
    /// The tracks of the two masters differ in number, order, kind, language or file.
    Tracks,
    /// The two playlists of a track have durations of other numbers of decimals.
    Digits,
    /// All served playlists are ended.
    Ended,
    /// Nothing is newer than what is served.
    Back,
    /// A segment that comes new to the served playlist is above the served target duration: its place in the new playlist.
    LongSegment(usize),
    /// A playlist would have too many segments or bytes, or too great a number.
    Limit,
}

/// Why nothing is published.
#[derive(Drop)]
pub(crate) enum Stop {
    /// The file of this name is refused.
    Refused(Text, Refused),
    /// A read failed.
    ReadFault,
    /// Out of memory.
    Memory,
}

impl Stop {
    /// A file is rejected, unless there is no memory for its name.
    pub(crate) fn at(alloc: Global, file: &Name, refused: Refused) -> Stop
        ensures told { IfSome (spec.stopped result) (λ told. told ≡ (file.now, refused)) }
        ensures no_fault { result ≢ ReadFault }
    {
        match Text::copy_of(alloc, file.as_str()) {
            Ok(name) => Stop::Refused(name, refused),
            Err(NoMemory) => Stop::Memory,
        }
    }

    /// How a run ends of which nothing is published.
    pub(crate) fn ending(self, alloc: Global) -> Ending
        ensures { spec.IsStopped self result }
    {
        match self {
            Stop::Refused(file, refused) => match line(alloc, file.as_str(), refused) {
                Ok(line) => Ending::Ended(Verdict::Refused, line),
                Err(NoMemory) => Ending::Memory,
            },
            Stop::ReadFault => Ending::ReadFault,
            Stop::Memory => Ending::Memory,
        }
    }
}

impl From<NoMemory> for Stop {
    ghost use Rattle.std.specs.Prelude.{◌≡◌};
    ghost use Rattle.publish_core.specs.declared.refusal.Stop.TheVariants.{Memory};

    ghost from_gives = { λ _ stop. stop ≡ Memory };

    fn from(_: NoMemory) -> Stop {
        Stop::Memory
    }
}

impl From<Fail> for Stop {
    ghost use Rattle.std.specs.Prelude.{◌≡◌};
    ghost use Rattle.publish_core.specs.Refusals.{stop_of_fail};

    ghost from_gives = { λ fail stop. stop ≡ stop_of_fail fail };

    fn from(fail: Fail) -> Stop {
        match fail {
            Fail::Failed => Stop::ReadFault,
            Fail::Memory => Stop::Memory,
        }
    }
}

impl From<Halt> for Stop {
    ghost use Rattle.std.specs.Prelude.{◌≡◌};
    ghost use Rattle.publish_core.specs.Refusals.{stop_of_halt};

    ghost from_gives = { λ halt stop. stop ≡ stop_of_halt halt };

    fn from(halt: Halt) -> Stop {
        match halt {
            Halt::Refused(file, refusal) => Stop::Refused(file, Refused::Read(refusal)),
            Halt::ReadFault => Stop::ReadFault,
            Halt::Memory => Stop::Memory,
        }
    }
}

#[tactic(auto, unfolding(crate::specs::Refusals::line_of))]
fn line(alloc: Global, file: &str, refused: Refused) -> Result<Text, NoMemory>
    ensures { IfOk result (λ line. line ≡ spec.line_of (file.now, refused)) }
{
    let text = text(alloc, refused)?;
    let text = text.as_str();
    Ok(Text::from(format!(in alloc; "refused {file} {text}\n")?))
}

fn text(alloc: Global, refused: Refused) -> Result<Text, NoMemory>
    ensures { IfOk result (λ text. text ≡ spec.text_of refused) }
{
    match refused {
        Refused::Read(refusal) => refusal_text(alloc, refusal),
        Refused::Form => Text::copy_of(alloc, "publish 1 Form"),
        Refused::Tracks => Text::copy_of(alloc, "publish 2 Tracks"),
        Refused::Digits => Text::copy_of(alloc, "publish 3 Digits"),
        Refused::Ended => Text::copy_of(alloc, "publish 4 Ended"),
        Refused::Back => Text::copy_of(alloc, "publish 5 Back"),
        Refused::LongSegment(place) => {
            Ok(Text::from(format!(in alloc; "publish 6 LongSegment segment {place}")?))
        }
        Refused::Limit => Text::copy_of(alloc, "publish 7 Limit"),
    }
}
