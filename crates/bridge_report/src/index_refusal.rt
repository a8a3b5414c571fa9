// Why media files with a `sidx` are rejected.
ghost use Rattle.std.specs.Prelude.{◌≡◌};
ghost use Rattle.bridge_report.specs.Indexes as spec;

use crate::spot::Spot;
use box_reader::BoxFault;
use layer_faults::index::FileFault;

/// Why an MPD and its media files with a `sidx` are rejected, apart from the errors of the MPD itself (ISO/IEC 23009-1,
/// 5.3.9.2).
#[derive(Clone, Copy, PartialEq, Eq)]
pub enum IndexRefusal {
    /// Of the MPD: the URL of a media file isn't that of a file in the store's folder.
    OutsideBase,
    /// Of the MPD: an index range has more than 8,388,608 bytes.
    TooLong,
    /// Of a media file.
    File(FileFault),
}

/// The error code of the report.
pub(crate) fn index_words(refusal: IndexRefusal) -> &'static str
    ensures { result.now ≡ spec.index_words refusal }
{
    match refusal {
        IndexRefusal::OutsideBase => "index 1 OutsideBase",
        IndexRefusal::TooLong => "index 2 TooLong",
        IndexRefusal::File(fault) => file_words(fault),
    }
}

fn file_words(fault: FileFault) -> &'static str
    ensures { result.now ≡ spec.file_words fault }
{
    match fault {
        FileFault::Boxes(BoxFault::Cut { .. }) => "index 3 Cut",
        FileFault::Boxes(BoxFault::Size { .. }) => "index 4 Size",
        FileFault::NoIndex => "index 5 NoIndex",
        FileFault::Nested(_) => "index 6 Nested",
        FileFault::Scale(_) => "index 7 Scale",
        FileFault::Empty(_) => "index 8 Empty",
        FileFault::ZeroSize(_) => "index 9 ZeroSize",
        FileFault::Range(_) => "index 10 Range",
        FileFault::Absent => "index 15 Absent",
    }
}

/// The position in a media file, if there is one.
pub(crate) fn index_spot(refusal: IndexRefusal) -> Option<Spot>
    ensures { result ≡ spec.index_spot refusal }
{
    match refusal {
        IndexRefusal::OutsideBase | IndexRefusal::TooLong => None,
        IndexRefusal::File(fault) => file_spot(fault),
    }
}

fn file_spot(fault: FileFault) -> Option<Spot>
    ensures { result ≡ spec.file_spot fault }
{
    match fault {
        FileFault::Boxes(BoxFault::Cut { at } | BoxFault::Size { at })
        | FileFault::Nested(at)
        | FileFault::Scale(at)
        | FileFault::Empty(at)
        | FileFault::ZeroSize(at)
        | FileFault::Range(at) => Some(Spot::Byte(at)),
        FileFault::NoIndex | FileFault::Absent => None,
    }
}
