// The files or byte ranges of init segments and segments.
ghost use Rattle.std.specs.Prelude.{◌≡◌, ◌≤◌, ◌<◌, ◌+◌, ◌^◌, codes, drop, length, true, IfOk, IfSome, Ok, Some};
ghost use Rattle.std.specs.Option.{ForSome};
ghost use Rattle.bridge_io.specs.Answer.{Gives};
ghost use Rattle.bridge_io.specs.Fault.{HasCause};
ghost use Rattle.box_reader.specs.Boxes.{behind, next_of};
ghost use Rattle.box_reader.specs.Parts.{refusal as part_refusal};
ghost use Rattle.box_reader.specs.declared.part.PartFault.TheVariants.{Fault as PartFailed};
ghost use Rattle.bridge_io.specs.Answer.{told_as};
ghost use Rattle.fragment_times.specs.declared.fault.TimesFault.TheVariants.{Fault, File};
ghost use Rattle.fragment_times.specs.Parts as spec;
ghost use Rattle.fragment_times.specs.Refusals.{IsNoFault, refusal};

use crate::fault::at_part;
use crate::told::{Stated, decode_time, media_scale};
use crate::{FileFault, TimesFault};
use box_reader::{Boxes, FileBox, PartFault, fronts_tell, read_part};
use bridge_io::{Bytes, Name, Store};
use std::alloc::Global;
use url_parts::{Base, Part, Range, local_name};

/// How many bytes of a part are read first.
const FRONT: u64 = 8_192;

/// The most bytes of a part that are read.
const MOST_BYTES: u64 = 1_048_576;

/// The most bytes of a file.
const PLACES: u64 = 1 << 63;

/// The bytes of a file that may be read.
#[derive(Clone, Copy)]
struct Reach {
    first: u64,
    limit: u64,
}

/// The bytes of a part that may be read: for a whole file from the first one on, for a byte range only those in it, and
/// either way at most 1,048,576 of the first 2^63 of a file.
fn reach_of(range: Option<Range>) -> Reach
    ensures first { result.first ≡ spec.first_byte range }
    ensures limit { result.limit ≡ spec.byte_limit range }
    ensures placed { result.first + result.limit ≤ 2 ^ 63 }
    ensures small { result.limit ≤ 1048576 }
{
    let Some(range) = range else {
        return Reach {
            first: 0,
            limit: MOST_BYTES,
        };
    };
    let first = range.first.min(PLACES);
    Reach {
        first,
        limit: range.count.min(MOST_BYTES).min(PLACES - first),
    }
}

/// The timescale of an init segment, in ticks per second (ISO/IEC 14496-12, 8.4.2). `folder` is the URL of the store's folder.
///
/// At most the first 1,048,576 bytes of the part are read: 8,192, and then each time as many as were read before, until the `moov` ends
/// within them. The store's files stay as they are.
///
/// `OutsideBase` comes before the faults of the file, which come in the order of [`FileFault`](crate::FileFault). `Fault` comes only
/// where the store's count of failed reads rose.
#[tactic(auto, unfolding(crate::specs::Parts::scale_at, crate::specs::Parts::end_at, crate::specs::Told::media_scale_of))]
pub fn part_scale<F: Store>(
    alloc: Global,
    folder: &Base,
    part: &Part,
    store: &mut F,
) -> Result<Stated<u32>, TimesFault>
    ensures scale { ForSome (F.files store.old) (λ files.
        Gives (λ told. told.value) refusal result (spec.scale_at folder.now files part.now)) }
    ensures end { ForSome (F.files store.old) (λ files.
        IfOk result (λ told. told.end ≡ spec.end_at (codes "moov") folder.now files part.now)) }
    ensures positive { IfOk result (λ told. 0 < told.value) }
    ensures cause { HasCause Fault (F.read_faults store.old) (F.read_faults store.new) result }
    ensures files { F.files store.new ≡ F.files store.old }
    ensures writes { F.write_faults store.new ≡ F.write_faults store.old }
{
    let file = file_of(alloc, folder, part)?;
    let reach = reach_of(part.range);
    match read_to_box(alloc, store, &file, reach, *b"moov") {
        Ok(front) => {
            let at = reach.first + front.from as u64;
            let bytes = past(front.bytes.as_slice(), front.from);
            in_file(file, media_scale(bytes, at, reach.first))
        }
        Err(fault) => Err(at_part(fault, file)),
    }
}

/// The decode time of a segment's first sample, in ticks of its init segment's timescale, below 2^63 (ISO/IEC 14496-12, 8.8.12). It is
/// read as the timescale by [`part_scale`], from the bytes up to the end of the first `moof`, with the same errors.
#[tactic(auto, unfolding(crate::specs::Parts::start_at, crate::specs::Parts::end_at, crate::specs::Told::decode_time_of))]
pub fn part_start<F: Store>(
    alloc: Global,
    folder: &Base,
    part: &Part,
    store: &mut F,
) -> Result<Stated<u64>, TimesFault>
    ensures start { ForSome (F.files store.old) (λ files.
        Gives (λ told. told.value) refusal result (spec.start_at folder.now files part.now)) }
    ensures end { ForSome (F.files store.old) (λ files.
        IfOk result (λ told. told.end ≡ spec.end_at (codes "moof") folder.now files part.now)) }
    ensures cause { HasCause Fault (F.read_faults store.old) (F.read_faults store.new) result }
    ensures files { F.files store.new ≡ F.files store.old }
    ensures writes { F.write_faults store.new ≡ F.write_faults store.old }
{
    let file = file_of(alloc, folder, part)?;
    let reach = reach_of(part.range);
    match read_to_box(alloc, store, &file, reach, *b"moof") {
        Ok(front) => {
            let at = reach.first + front.from as u64;
            let bytes = past(front.bytes.as_slice(), front.from);
            in_file(file, decode_time(bytes, at, reach.first))
        }
        Err(fault) => Err(at_part(fault, file)),
    }
}

/// The name of a part's file in the store's folder.
fn file_of(alloc: Global, folder: &Base, part: &Part) -> Result<Name, TimesFault>
    ensures file { Gives (λ file. file) refusal result (spec.file_of folder.now part.now) }
    ensures no_fault { IsNoFault result }
{
    match local_name(alloc, folder, &part.address)? {
        Some(file) => Ok(file),
        None => Err(TimesFault::OutsideBase),
    }
}

/// A result for a file, with the file's name in the error.
fn in_file<X: Copy>(file: Name, told: Result<X, FileFault>) -> Result<X, TimesFault>
    ensures { result ≡ told_as (File file) told }
{
    match told {
        Ok(told) => Ok(told),
        Err(fault) => Err(TimesFault::File(file, fault)),
    }
}

/// The first bytes of a part, and the index from which on their boxes are looked through.
#[derive(Drop)]
struct Front {
    bytes: Bytes,
    from: usize,
}

/// Reads bytes of a file until the first box of a type ends within them: each time as many as were read before.
fn read_to_box<F: Store>(
    alloc: Global,
    store: &mut F,
    file: &Name,
    reach: Reach,
    kind: [u8; 4],
) -> Result<Front, PartFault>
    requires placed { reach.first + reach.limit ≤ 2 ^ 63 }
    requires small { reach.limit ≤ 1048576 }
    ensures found { ForSome (F.files store.old) (λ files.
        Gives (spec.box_in kind reach.first) part_refusal result (spec.box_of kind reach (files file.now))) }
    ensures placed { IfOk result (λ front. reach.first + length front.bytes ≤ 2 ^ 63) }
    ensures within { IfOk result (λ front. front.from ≤ length front.bytes) }
    ensures cause { HasCause PartFailed (F.read_faults store.old) (F.read_faults store.new) result }
    ensures files { F.files store.new ≡ F.files store.old }
    ensures writes { F.write_faults store.new ≡ F.write_faults store.old }
{
    let Reach { first, limit } = reach;
    let mut most = limit.min(FRONT);
    let mut bytes = read_part(alloc, store, file, first, most)?;
    let mut from = 0;
    while most < limit {
        if (bytes.len() as u64) < most {
            return Ok(Front { bytes, from });
        }
        let passed = pass(bytes.as_slice(), first, from, kind);
        from = passed.from;
        if passed.found {
            return Ok(Front { bytes, from });
        }
        let more = most.min(limit - most);
        let rest = read_part(alloc, store, file, first + most, more)?;
        bytes.extend(rest.as_slice())?;
        most += more;
    }
    Ok(Front { bytes, from })
}

/// Up to which index boxes were passed by, and whether the first one of a type begins there.
#[derive(Clone, Copy)]
struct Passed {
    from: usize,
    found: bool,
}

/// Passes by the boxes from an index on, up to the first one of a type, as long as they end before the bytes do: a box that ends with
/// them may be one that extends to the part's end.
fn pass(bytes: &[u8], first: u64, from: usize, kind: [u8; 4]) -> Passed
    requires placed { first + length bytes.now ≤ 2 ^ 63 }
    requires within { from ≤ length bytes.now }
    requires passed { spec.IsPassed kind first from bytes.now }
    ensures within { result.from ≤ length bytes.now }
    ensures passed { spec.IsPassed kind first result.from bytes.now }
    ensures found { result.found ≡ true → spec.IsFound kind first result.from bytes.now }
{
    fronts_tell();
    let mut from = from;
    let mut boxes = Boxes::over(past(bytes, from), first + from as u64);
    while let Some(found) = next_before(&mut boxes, first + bytes.len() as u64) {
        if found.is_of(&kind) {
            return Passed { from, found: true };
        }
        from += found.head().size as usize;
    }
    Passed { from, found: false }
}

/// The bytes from an index on.
fn past(bytes: &[u8], from: usize) -> &[u8]
    requires { from ≤ length bytes.now }
    ensures { result.now ≡ drop from bytes.now }
{
    bytes.split_at(from).1
}

/// The next box, where it ends before an offset of the file.
fn next_before<'a>(boxes: &mut Boxes<'a>, end: u64) -> Option<FileBox<'a>>
    ensures next { IfSome result (λ found. next_of boxes.old ≡ Ok (Some found)) }
    ensures before { IfSome result (λ found. found.head.at + found.head.size < end) }
    ensures left { IfSome result (λ found. boxes.new ≡ behind found.head boxes.old) }
{
    match boxes.next_box() {
        Ok(Some(found)) => {
            let head = found.head();
            (head.at + head.size < end).then_some(found)
        }
        _ => None,
    }
}
