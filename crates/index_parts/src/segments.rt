// The segments of a `sidx`.
ghost use Rattle.std.specs.Prelude.{◌≡◌, ◌<◌, ◌≤◌, ◌^◌, false, map, IfOk};
ghost use Rattle.bridge_io.specs.Answer.{Gives};
ghost use Rattle.exact_time.specs.Tick.{time_of};
ghost use Rattle.exact_time.specs.Time.{in_units};
ghost use Rattle.segment_index.specs.Laws.{end_from};
ghost use Rattle.timeline.specs.Durations.{extent_of};
ghost use Rattle.timeline.specs.Expansions.{is_open};
ghost use Rattle.timeline.specs.Faults.{refusal};
ghost use Rattle.index_parts.specs.Segments as spec;

use bridge_io::NoMemory;
use exact_time::Tick;
use segment_index::SegmentIndex;
use std::alloc::Global;
use timeline::{Names, PartList, Runs, Scale, Span, SpanList, TimeFault, closed_ends};
use url_parts::{Address, Part, Range};

/// The segments of the file with this URL, one for each reference of its `sidx`.
///
/// Requires that the covered bytes lie in the first 2^63 of the file.
#[tactic(auto, unfolding(crate::specs::Segments::runs_of))]
pub(crate) fn runs_of(
    alloc: Global,
    address: &Address,
    index: &SegmentIndex<'_>,
) -> Result<Runs, TimeFault>
    requires { end_from index.now.first index.now.references ≤ 2 ^ 63 }
    ensures runs { Gives (λ runs. runs) refusal result (spec.runs_of address.now index.now) }
    ensures ended { IfOk result (λ runs. is_open runs.members ≡ false) }
{
    closed_ends();
    let spans = spans_of(alloc, index)?;
    let names = Names::of_addresses(parts_of(alloc, address, index)?);
    Runs::from_list(alloc, &spans, scale_of(index), names)
}

/// The timescale of a `sidx`, and the numbering of its segments.
fn scale_of(index: &SegmentIndex<'_>) -> Scale
    ensures ticks { result.ticks ≡ spec.ticks_of index.now }
    ensures offset { result.offset ≡ 0 }
    ensures first { result.start_number ≡ 1 }
{
    Scale {
        ticks: index.timescale().max(1),
        offset: 0,
        start_number: 1,
    }
}

/// The times of segments, each of which begins when the one before it ends.
fn spans_of(alloc: Global, index: &SegmentIndex<'_>) -> Result<SpanList, NoMemory>
    ensures { IfOk result (λ spans. map extent_of spans ≡ spec.extents_in index.now) }
{
    let references = index.references();
    let mut spans = Vec::with_capacity(alloc, usize::from(references.len()))?;
    let scale = index.timescale().max(1);
    let mut time = 0;
    for reference in references {
        let start = tick_at(time, scale);
        time += u64::from(reference.duration);
        let end = tick_at(time, scale);
        spans.push(Span {
            start,
            end,
            number: 0,
        })?;
    }
    Ok(SpanList::from(spans))
}

fn tick_at(time: u64, scale: u32) -> Tick
    requires { 0 < scale }
    ensures { time_of result ≡ in_units scale time }
{
    Tick {
        n: i128::from(time),
        scale,
    }
}

/// The byte ranges of segments, each of which begins after the one before it.
///
/// Requires that they lie in the first 2^63 of the file.
fn parts_of(
    alloc: Global,
    address: &Address,
    index: &SegmentIndex<'_>,
) -> Result<PartList, NoMemory>
    requires { end_from index.now.first index.now.references ≤ 2 ^ 63 }
    ensures { IfOk result (λ parts. parts ≡ spec.parts_in address.now index.now) }
{
    let references = index.references();
    let mut parts = Vec::with_capacity(alloc, usize::from(references.len()))?;
    let mut first = index.first() as u64;
    for reference in references {
        let count = u64::from(reference.size);
        let range = Some(Range { first, count });
        let address = address.copy(alloc)?;
        parts.push(Part { address, range })?;
        first += count;
    }
    Ok(PartList::from(parts))
}
