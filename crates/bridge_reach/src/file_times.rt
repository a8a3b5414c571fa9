// The decode times of a presentation's media files, and which file is rejected for them.
ghost use Rattle.std.specs.Prelude.{◌≡◌, ◌≢◌, All, IfOk, IfSome, Some, length};
ghost use Rattle.bridge_io.specs.Answer.{Gives};
ghost use Rattle.fragment_times.specs.declared.fault.TimesFault.TheVariants.{Fault, Segment};
ghost use Rattle.fragment_times.specs.Refusals.{refusal};
ghost use Rattle.fragment_times.specs.Times.{FillPlaces, IsScaled};
ghost use Rattle.presentation.specs.Listable.{AreListable};
ghost use Rattle.bridge_report.specs.declared.reading.Halt.TheVariants.{ReadFault};
ghost use Rattle.bridge_report.specs.Reading.{IsNoReadFault, ReadsAs, halted};
ghost use Rattle.bridge_reach.specs.FileTimes as spec;

use crate::segment_file::file_at;
use bridge_io::{Ledger, NoMemory, Steps, Store};
use bridge_playlists::StorePlace;
use bridge_report::{Halt, Refusal, TimesRefusal};
use fragment_times::{
    DurationsList, FileFault, SegmentSpot, TimesFault, TimesList, durations, fragment_times,
};
use presentation::Presentation;
use segment_forms::Form;
use std::alloc::Global;

/// The media times of a presentation's listed segments by the media files, or the first error, of a media file or of the
/// manifest. [`Halt::ReadFault`] comes only where the store's count of failed reads rose.
pub(crate) fn times_at<F: Store, L: Ledger>(
    alloc: Global,
    manifest: &StorePlace,
    presentation: &Presentation,
    store: &mut F,
    steps: &mut Steps<L>,
) -> Result<TimesList, Halt>
    requires { AreListable presentation.now }
    ensures reads { ReadsAs F.Store store.old store.new (λ times. times)
        (λ files. spec.times_at manifest.now files presentation.now) result }
    ensures filled { IfOk result (λ times. FillPlaces presentation.now (length times)) }
    ensures scaled { IfOk result (λ times. All IsScaled times) }
{
    match fragment_times(alloc, presentation, &manifest.folder, store, steps) {
        Ok(times) => Ok(times),
        Err(fault) => Err(untimed(alloc, manifest, presentation, fault, steps)),
    }
}

/// The duration of each segment in ticks by these times, for a form of MPD, or the first error.
pub(crate) fn durations_at<L: Ledger>(
    alloc: Global,
    form: Form,
    manifest: &StorePlace,
    presentation: &Presentation,
    times: &TimesList,
    steps: &mut Steps<L>,
) -> Result<DurationsList, Halt>
    requires listable { AreListable presentation.now }
    requires filled { FillPlaces presentation.now (length times.now) }
    requires scaled { All IsScaled times.now }
    ensures durations { Gives (λ durations. durations) halted result (spec.durations_at form manifest.now presentation.now times.now) }
    ensures as_many { IfOk result (λ durations. length durations ≡ length times.now) }
    ensures no_fault { IsNoReadFault result }
{
    match durations(alloc, form, presentation, times) {
        Ok(durations) => Ok(durations),
        Err(fault) => Err(untimed(alloc, manifest, presentation, fault, steps)),
    }
}

/// Which file is rejected, and why.
fn untimed<L: Ledger>(
    alloc: Global,
    manifest: &StorePlace,
    presentation: &Presentation,
    fault: TimesFault,
    steps: &mut Steps<L>,
) -> Halt
    requires { AreListable presentation.now }
    ensures told { IfSome (halted result) (λ named.
        (refusal fault ≡ Some fault) × (named ≡ spec.named_by manifest.now presentation.now fault)) }
    ensures read_fault { result ≡ ReadFault → fault ≡ Fault }
{
    match fault {
        TimesFault::OutsideBase => {
            Halt::refused(
                alloc,
                &manifest.file,
                Refusal::Times(TimesRefusal::OutsideBase),
            )
        }
        TimesFault::File(file, fault) => {
            Halt::refused(alloc, &file, Refusal::Times(TimesRefusal::File(fault)))
        }
        TimesFault::Segment(spot, fault) => {
            segment_refused(alloc, manifest, presentation, spot, fault, steps)
        }
        TimesFault::Range => {
            Halt::refused(alloc, &manifest.file, Refusal::Times(TimesRefusal::Range))
        }
        TimesFault::Fault => Halt::ReadFault,
        TimesFault::Memory => Halt::Memory,
    }
}

/// Rejects the media file of a segment.
fn segment_refused<L: Ledger>(
    alloc: Global,
    manifest: &StorePlace,
    presentation: &Presentation,
    spot: SegmentSpot,
    fault: FileFault,
    steps: &mut Steps<L>,
) -> Halt
    requires { AreListable presentation.now }
    ensures told { IfSome (halted result) (λ named. named ≡ spec.named_by manifest.now presentation.now (Segment spot fault)) }
    ensures no_fault { result ≢ ReadFault }
{
    let refusal = Refusal::Times(TimesRefusal::File(fault));
    match file_at(alloc, &manifest.folder, presentation, spot, steps) {
        Ok(Some(file)) => Halt::refused(alloc, &file, refusal),
        Ok(None) => Halt::refused(alloc, &manifest.file, refusal),
        Err(NoMemory) => Halt::Memory,
    }
}
