// Reading the boxes of a part.
ghost use Rattle.std.specs.Prelude.{◌≡◌, ◌≤◌, ◌<◌, ◌+◌, ◌-◌, ◌^◌, codes, length, IfOk};
ghost use Rattle.box_reader.specs.Boxes.{boxes_of};
ghost use Rattle.fragment_times.specs.Told as spec;

use crate::FileFault;
use crate::fault::sooner;
use box_reader::{BoxFault, Boxes, FileBox, OfType, u32_at, u64_at};

/// What a box of a part of a file states.
#[derive(Clone, Copy)]
pub struct Stated<X> {
    /// The number.
    pub value: X,
    /// How many bytes the part has up to the end of the box that contains it: a `moov` or a `moof`.
    pub end: u64,
}

/// The timescale of an init segment for the media of its one track, by these bytes, the first of which is at offset `at` of the file
/// (ISO/IEC 14496-12, 8.4.2). The part begins at offset `first`.
///
/// Requires that the bytes lie in the first 2^63 of a file.
#[tactic(auto, unfolding(crate::specs::Told::media_scale_of))]
pub(crate) fn media_scale(bytes: &[u8], at: u64, first: u64) -> Result<Stated<u32>, FileFault>
    requires { at + length bytes.now ≤ 2 ^ 63 }
    ensures scale { spec.value_of result ≡ spec.media_scale_of (record { at = at; bytes = bytes.now }) }
    ensures end { IfOk result (λ told.
        told.end ≡ spec.end_of first (spec.first_box (codes "moov") (record { at = at; bytes = bytes.now }))) }
    ensures positive { IfOk result (λ told. 0 < told.value) }
{
    let moov = first_box(Boxes::over(bytes, at), *b"moov")?;
    let value = alone(&moov, *b"trak", track_scale(&moov))?;
    if value == 0 {
        return Err(FileFault::Scale);
    }
    let end = end_of(&moov, first);
    Ok(Stated { value, end })
}

/// The decode time of a segment's first sample, by these bytes, the first of which is at offset `at` of the file (8.8.12). The part
/// begins at offset `first`.
///
/// Requires that the bytes lie in the first 2^63 of a file.
#[tactic(auto, unfolding(crate::specs::Told::decode_time_of))]
pub(crate) fn decode_time(bytes: &[u8], at: u64, first: u64) -> Result<Stated<u64>, FileFault>
    requires { at + length bytes.now ≤ 2 ^ 63 }
    ensures start { spec.value_of result ≡ spec.decode_time_of (record { at = at; bytes = bytes.now }) }
    ensures end { IfOk result (λ told.
        told.end ≡ spec.end_of first (spec.first_box (codes "moof") (record { at = at; bytes = bytes.now }))) }
{
    let moof = first_box(Boxes::over(bytes, at), *b"moof")?;
    let value = alone(&moof, *b"traf", track_start(&moof))?;
    if value >= 1 << 63 {
        return Err(FileFault::Range);
    }
    let end = end_of(&moof, first);
    Ok(Stated { value, end })
}

/// How many bytes there are from an offset of a file up to the end of a box after it.
fn end_of(found: &FileBox<'_>, first: u64) -> u64
    ensures { result ≡ found.now.head.at + found.now.head.size - first }
{
    let head = found.head();
    (head.at + head.size).saturating_sub(first)
}

fn track_scale(moov: &FileBox<'_>) -> Result<u32, FileFault>
    ensures { result ≡ spec.track_scale moov.now }
{
    let trak = child_of(moov, *b"trak")?;
    let mdia = child_of(&trak, *b"mdia")?;
    let mdhd = child_of(&mdia, *b"mdhd")?;
    let place = if version_of(&mdhd)? == 1 { 20 } else { 12 };
    u32_in(&mdhd, place)
}

fn track_start(moof: &FileBox<'_>) -> Result<u64, FileFault>
    ensures { result ≡ spec.track_start moof.now }
{
    let traf = child_of(moof, *b"traf")?;
    let tfdt = child_of(&traf, *b"tfdt")?;
    if version_of(&tfdt)? == 1 {
        u64_in(&tfdt, 4)
    } else {
        Ok(u64::from(u32_in(&tfdt, 4)?))
    }
}

/// The result for the first of a box's children of a type, unless it isn't the only child of this type.
fn alone<X: Copy>(
    found: &FileBox<'_>,
    kind: [u8; 4],
    told: Result<X, FileFault>,
) -> Result<X, FileFault>
    ensures { result ≡ spec.alone kind found.now told }
{
    match (fault_among(found, kind), told) {
        (None, told) => told,
        (Some(fault), Ok(_)) => Err(fault),
        (Some(fault), Err(other)) => Err(sooner(fault, other)),
    }
}

/// Why a box doesn't have exactly one child of a type. All its children are visited.
fn fault_among(found: &FileBox<'_>, kind: [u8; 4]) -> Option<FileFault>
    ensures { result ≡ spec.fault_among kind (boxes_of (spec.inside found.now)) }
{
    let counted = inside(found).count(&OfType(kind));
    match counted.fault {
        Some(fault) => Some(FileFault::Boxes(fault)),
        None => (counted.count != 1).then_some(FileFault::Tracks),
    }
}

/// The first box of a type among some.
fn first_box<'a>(boxes: Boxes<'a>, kind: [u8; 4]) -> Result<FileBox<'a>, FileFault>
    ensures { result ≡ spec.first_box kind boxes.entry }
{
    match boxes.find(&OfType(kind)) {
        Ok(Some(found)) => Ok(found),
        Ok(None) => Err(FileFault::Missing),
        Err(fault) => Err(FileFault::Boxes(fault)),
    }
}

/// The boxes inside one.
fn inside<'a>(found: &FileBox<'a>) -> Boxes<'a>
    ensures { result ≡ spec.inside found.now }
{
    let head = found.head();
    Boxes::over(found.body(), head.at + head.header)
}

/// The first one of a type inside a box.
fn child_of<'a>(found: &FileBox<'a>, kind: [u8; 4]) -> Result<FileBox<'a>, FileFault>
    ensures { result ≡ spec.child_of kind found.now }
{
    first_box(inside(found), kind)
}

/// The version of a box that has one, 0 or 1 (4.2).
fn version_of(found: &FileBox<'_>) -> Result<u8, FileFault>
    ensures { result ≡ spec.version_of found.now }
{
    let body = found.body();
    if body.len() < 4 {
        return Err(short(found));
    }
    if body[0] > 1 {
        return Err(FileFault::Missing);
    }
    Ok(body[0])
}

/// The 32-bit number at an offset after a box's header.
fn u32_in(found: &FileBox<'_>, place: usize) -> Result<u32, FileFault>
    requires { place < 2 ^ 32 }
    ensures { result ≡ spec.u32_in place found.now }
{
    let body = found.body();
    if body.len() < place + 4 {
        return Err(short(found));
    }
    Ok(u32_at(body, place))
}

/// The 64-bit number at an offset after a box's header.
fn u64_in(found: &FileBox<'_>, place: usize) -> Result<u64, FileFault>
    requires { place < 2 ^ 32 }
    ensures { result ≡ spec.u64_in place found.now }
{
    let body = found.body();
    if body.len() < place + 8 {
        return Err(short(found));
    }
    Ok(u64_at(body, place))
}

/// A box is shorter than its fields.
fn short(found: &FileBox<'_>) -> FileFault
    ensures { result ≡ spec.short found.now }
{
    let at = found.head().at;
    FileFault::Boxes(BoxFault::Size { at })
}
