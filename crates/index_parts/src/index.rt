// The `sidx` of a media file.
ghost use Rattle.std.specs.Prelude.{◌≡◌, ◌<◌, ◌≤◌, ◌+◌, ◌^◌, length, flat_map, IfOk};
ghost use Rattle.segment_index.specs.Laws.{end_from};
ghost use Rattle.index_parts.specs.Found as spec;
ghost use Rattle.index_parts.specs.Refusals.{unless_any};

use crate::FileFault;
use segment_index::{Reference, References, SegmentIndex, index_in};

/// The first `sidx` among the boxes of some bytes, the first of which is at offset `first` of the file, unless it is invalid.
///
/// Requires that the bytes lie in the first 2^63 of a file.
#[tactic(auto, unfolding(crate::specs::Found::index_in))]
pub(crate) fn checked_index(bytes: &[u8], first: u64) -> Result<SegmentIndex<'_>, FileFault>
    requires { first + length bytes.now ≤ 2 ^ 63 }
    ensures index { result ≡ spec.index_in (record { at = first; bytes = bytes.now }) }
    ensures ends { IfOk result (λ index. end_from index.first index.references ≤ 2 ^ 63) }
{
    let index = match index_in(bytes, first) {
        Ok(Some(index)) => index,
        Ok(None) => return Err(FileFault::NoIndex),
        Err(fault) => return Err(FileFault::Boxes(fault)),
    };
    match check(&index) {
        Ok(()) => Ok(index),
        Err(fault) => Err(fault),
    }
}

/// Finds the first fault of a `sidx`.
fn check(index: &SegmentIndex<'_>) -> Result<(), FileFault>
    ensures fault { result ≡ unless_any (spec.index_faults index.now) tt }
    ensures ends { IfOk result (λ _. end_from index.now.first index.now.references ≤ 2 ^ 63) }
{
    let at = index.at();
    if index.timescale() == 0 {
        return Err(FileFault::Scale(at));
    }
    let references = index.references();
    if references.len() == 0 {
        return Err(FileFault::Empty(at));
    }
    if end_of(index.first(), references)? > 1 << 63 {
        return Err(FileFault::Range(at));
    }
    Ok(())
}

/// The offset after the bytes that references cover from an offset on, unless one of them is invalid.
fn end_of(first: u128, references: References<'_>) -> Result<u128, FileFault>
    requires near { first < 2 ^ 65 }
    requires few { length references < 2 ^ 16 }
    ensures { result ≡ unless_any (flat_map spec.reference_faults references.entry) (end_from first references.entry) }
{
    let mut end = first;
    for reference in references {
        check_reference(&reference)?;
        end += u128::from(reference.size);
    }
    Ok(end)
}

fn check_reference(reference: &Reference) -> Result<(), FileFault>
    ensures { result ≡ unless_any (spec.reference_faults reference.now) tt }
{
    if reference.is_index {
        return Err(FileFault::Nested(reference.at));
    }
    if reference.size == 0 {
        return Err(FileFault::ZeroSize(reference.at));
    }
    Ok(())
}
