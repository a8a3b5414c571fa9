// Why media files give no decode times.
ghost use Rattle.std.specs.Prelude.{◌≡◌, ◌+◌, ◌<◌, ◌^◌};
ghost use Rattle.fragment_times.specs.declared.fault.TimesFault.TheVariants.{Memory};
ghost use Rattle.fragment_times.specs.Refusals as spec;

use crate::FileFault;
use box_reader::{BoxFault, PartFault};
use bridge_io::{Name, NoMemory};
use thiserror::Error;

/// A listed segment of a track in a section, each by its index from 0.
#[derive(Clone, Copy, Debug, PartialEq, Eq)]
pub struct SegmentSpot {
    /// The section's index.
    pub section: usize,
    /// The track's index.
    pub track: usize,
    /// The segment's index among those that are listed there.
    pub segment: usize,
}

impl SegmentSpot {
    /// The spot of the next segment.
    pub(crate) fn next(self) -> SegmentSpot
        requires { self.segment + 1 < 2 ^ 64 }
        ensures { result ≡ spec.next_spot self }
    {
        let segment = self.segment + 1;
        SegmentSpot { segment, ..self }
    }
}

/// Why media files give no decode times.
#[derive(Debug, Drop, Error)]
pub enum TimesFault {
    /// A media file's URL isn't that of a file in the store's folder.
    #[error("a media file lies in another place")]
    OutsideBase,
    /// The media file of this name is rejected.
    #[error("a media file is refused")]
    File(Name, FileFault),
    /// The media file of this segment is rejected, given the other segments' files.
    #[error("a segment's time is refused")]
    Segment(SegmentSpot, FileFault),
    /// All Periods together last 10^19 ns or more.
    #[error("the Periods are too long")]
    Range,
    /// A read failed.
    #[error("a media file can't be read")]
    Fault,
    /// Out of memory.
    #[error("out of memory")]
    Memory,
}

impl From<NoMemory> for TimesFault {
    ghost from_gives = { λ _ fault. fault ≡ Memory };

    fn from(_: NoMemory) -> TimesFault {
        TimesFault::Memory
    }
}

/// A fault of the part of a file that is read.
pub(crate) fn at_part(fault: PartFault, file: Name) -> TimesFault
    ensures { result ≡ spec.part_told file fault }
{
    match fault {
        PartFault::Absent => TimesFault::File(file, FileFault::Absent),
        PartFault::Fault => TimesFault::Fault,
        PartFault::Memory => TimesFault::Memory,
    }
}

/// Which of two faults of a file is reported: the one that is tried first, and of the same kind the one at the least
/// offset.
pub(crate) fn sooner(one: FileFault, other: FileFault) -> FileFault
    ensures { result ≡ spec.sooner one other }
{
    if is_sooner(&one, &other) { one } else { other }
}

fn is_sooner(one: &FileFault, other: &FileFault) -> bool
    ensures { result ≡ spec.is_sooner one.now other.now }
{
    rank(one) < rank(other) || (rank(one) == rank(other) && place(one) <= place(other))
}

/// A fault's rank in the order in which faults are tried.
fn rank(fault: &FileFault) -> u8
    ensures { result ≡ spec.rank fault.now }
{
    match fault {
        FileFault::Absent => 0,
        FileFault::Boxes(BoxFault::Cut { .. }) => 1,
        FileFault::Boxes(BoxFault::Size { .. }) => 2,
        FileFault::Missing => 3,
        FileFault::Tracks => 4,
        FileFault::Scale => 5,
        FileFault::Order => 6,
        FileFault::Range => 7,
    }
}

/// The byte offset of a fault, or 0.
fn place(fault: &FileFault) -> u64
    ensures { result ≡ spec.place fault.now }
{
    match fault {
        FileFault::Boxes(BoxFault::Cut { at } | BoxFault::Size { at }) => *at,
        _ => 0,
    }
}
