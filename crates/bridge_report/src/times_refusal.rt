// Why media files give no decode times.
ghost use Rattle.std.specs.Prelude.{◌≡◌};
ghost use Rattle.bridge_report.specs.FileTimes as spec;

use crate::spot::Spot;
use box_reader::BoxFault;
use layer_faults::times::FileFault;

/// Why a presentation and its media files are rejected where the files' decode times are needed (ISO/IEC 14496-12, 8.4.2 and
/// 8.8.12).
#[derive(Clone, Copy, PartialEq, Eq)]
pub enum TimesRefusal {
    /// Of the manifest: the URL of a media file isn't that of a file in the store's folder.
    OutsideBase,
    /// Of the manifest: all Periods together last 10^19 ns or more.
    Range,
    /// Of a media file.
    File(FileFault),
}

/// The error code of the report.
pub(crate) fn times_words(refusal: TimesRefusal) -> &'static str
    ensures { result.now ≡ spec.times_words refusal }
{
    match refusal {
        TimesRefusal::OutsideBase => "times 1 OutsideBase",
        TimesRefusal::Range => "times 8 Range",
        TimesRefusal::File(fault) => file_words(fault),
    }
}

fn file_words(fault: FileFault) -> &'static str
    ensures { result.now ≡ spec.file_words fault }
{
    match fault {
        FileFault::Boxes(BoxFault::Cut { .. }) => "times 2 Cut",
        FileFault::Boxes(BoxFault::Size { .. }) => "times 3 Size",
        FileFault::Missing => "times 4 Missing",
        FileFault::Tracks => "times 5 Tracks",
        FileFault::Scale => "times 6 Scale",
        FileFault::Order => "times 7 Order",
        FileFault::Range => "times 8 Range",
        FileFault::Absent => "times 11 Absent",
    }
}

/// The position in a media file, if there is one.
pub(crate) fn times_spot(refusal: TimesRefusal) -> Option<Spot>
    ensures { result ≡ spec.times_spot refusal }
{
    match refusal {
        TimesRefusal::File(FileFault::Boxes(BoxFault::Cut { at } | BoxFault::Size { at })) => {
            Some(Spot::Byte(at))
        }
        _ => None,
    }
}
