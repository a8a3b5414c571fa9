// The `sidx` of a file.
ghost use Rattle.std.specs.Prelude.{◌≡◌, ◌<◌, ◌≤◌, ◌+◌, ◌*◌, ◌^◌, false, length};
ghost use Rattle.box_reader.specs.Boxes.{Found};
ghost use Rattle.segment_index.specs.Index as spec;

use crate::References;
use box_reader::{BoxFault, BoxTest, Boxes, FileBox, u16_at, u32_at, u64_at};
use std::marker::Model;

/// The index of a file: a `sidx` of version 0 or 1, whose fields are all there.
///
/// In a contract it is its byte offset, its timescale, the offset of the first byte that its references cover, and
/// these.
#[derive(Drop)]
pub struct SegmentIndex<'a> {
    found: FileBox<'a>,
}

impl<'a> Model for SegmentIndex<'a> {
    ghost use Rattle.std.specs.Prelude.{◌≡◌, false};
    ghost use Rattle.segment_index.specs.Index.{Index, index_with, is_short};

    ghost Value = { Index };

    ghost view = { λ i. index_with i.found };

    ghost invariant = { λ i. is_short i.found.body ≡ false };
}

impl<'a> SegmentIndex<'a> {
    /// The byte offset of the box in the file.
    pub fn at(&self) -> u64
        ensures { result ≡ self.now.at }
    {
        self.found.head().at
    }

    /// Its timescale: ticks per second.
    pub fn timescale(&self) -> u32
        ensures { result ≡ self.now.timescale }
    {
        u32_at(self.found.body(), 8)
    }

    /// The offset of the first byte that its references cover.
    pub fn first(&self) -> u128
        ensures first { result ≡ self.now.first }
        ensures bounded { result < 2 ^ 65 }
    {
        let head = self.found.head();
        u128::from(head.at) + u128::from(head.size) + u128::from(first_offset_of(self.found.body()))
    }

    /// Its references in order.
    pub fn references(&self) -> References<'a>
        ensures { result ≡ self.now.references }
    {
        let head = self.found.head();
        let body = self.found.body();
        let fixed = fixed_of(body);
        References::of(
            &body[fixed..],
            head.at + head.header + fixed as u64,
            u16_at(body, fixed - 2),
        )
    }
}

/// Passes a `sidx` of version 0 or 1, and one without a byte after its header.
#[derive(Clone, Copy)]
struct IsIndex;

impl BoxTest for IsIndex {
    ghost passes = { λ _. spec.is_index };

    fn passes(&self, found: &FileBox<'_>) -> bool {
        found.is_of(b"sidx") && version_of(found.body()) <= 1
    }
}

/// The first `sidx` among the boxes of some bytes, the first of which is at offset `first` of the file; `None` where there
/// is none. A fault is returned only where no `sidx` is before it: `Cut` where the bytes end inside a box, and `Size`
/// where a box is shorter than its header, or the `sidx` than its fields. It allocates nothing.
///
/// Requires that the bytes lie in the first 2^63 of a file.
#[tactic(auto, unfolding(crate::specs::Index::index_of))]
pub fn index_in(bytes: &[u8], first: u64) -> Result<Option<SegmentIndex<'_>>, BoxFault>
    requires { first + length bytes.now ≤ 2 ^ 63 }
    ensures { result ≡ spec.index_of (record { at = first; bytes = bytes.now }) }
{
    match Boxes::over(bytes, first).find(&IsIndex) {
        Ok(Some(found)) => {
            if is_short(found.body()) {
                let at = found.head().at;
                return Err(BoxFault::Size { at });
            }
            Ok(Some(SegmentIndex { found }))
        }
        Ok(None) => Ok(None),
        Err(fault) => Err(fault),
    }
}

fn version_of(body: &[u8]) -> u8
    ensures { result ≡ spec.version_of body.now }
{
    match body.first() {
        Some(version) => *version,
        None => 0,
    }
}

/// How many bytes are before the references.
fn fixed_of(body: &[u8]) -> usize
    ensures { result ≡ spec.fixed_of body.now }
{
    if version_of(body) == 1 { 32 } else { 24 }
}

/// Whether it ends before its fields.
fn is_short(body: &[u8]) -> bool
    ensures { result ≡ spec.is_short body.now }
{
    let fixed = fixed_of(body);
    body.len() < fixed || body.len() < fixed + 12 * usize::from(u16_at(body, fixed - 2))
}

fn first_offset_of(body: &[u8]) -> u64
    requires { spec.fixed_of body.now ≤ length body.now }
    ensures { result ≡ spec.first_offset_of body.now }
{
    if version_of(body) == 1 {
        u64_at(body, 20)
    } else {
        u64::from(u32_at(body, 16))
    }
}
