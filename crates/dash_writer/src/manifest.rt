// The MPD of a presentation.
ghost use Rattle.std.specs.Prelude.{◌≡◌, ◌⊎◌, option_map, OnOk, OnErr};
ghost use Rattle.bridge_io.specs.Fault.{HasCause};
ghost use Rattle.bridge_io.specs.Outside.{put, Changes};
ghost use Rattle.bridge_io.specs.Written.{HasFront};
ghost use Rattle.iso_time.specs.Duration.{duration_text};
ghost use Rattle.bridge_io.specs.declared.out_fault.OutFault.TheVariants.{WriteFault};
ghost use Rattle.presentation.specs.Origins.{CameFromPlaylists};
ghost use Rattle.dash_writer.specs.Manifest as spec;
ghost use Rattle.dash_writer.specs.Written.{all_told, value_text};

use crate::attribute::{Attribute, Value};
use crate::listed::OwnLists;
use crate::outline::{Outline, Period};
use bridge_io::{Ledger, Name, OutFault, Steps, Store};
use exact_time::Nanos;
use presentation::{Presentation, Section};
use segment_forms::Form;
use std::alloc::Global;

/// Writes the MPD of a presentation that came from playlists (ISO/IEC 23009-1, 5.3): a Period for each section; in it an
/// AdaptationSet for all video tracks, for each audio set and for each text set; in these a Representation `t<k>` for track k.
/// In the plain form it has a SegmentList whose SegmentTimeline has one S for each longest run of equal durations. For players it
/// has a SegmentTemplate with `$Number$` where the files of the track in the Period have a pattern, and otherwise a SegmentList
/// with an S for each segment. Media time begins at 0 in each Period. Values are escaped (XML 1.0, 2.4), and each tag is on its own line.
///
/// Language, codecs, width, height and frame rate are written where they are known, and a frame rate of 0 is omitted.
///
/// Requires that the presentation came from playlists.
///
/// An error leaves the file as it was, or with a prefix of the text. [`OutFault::WriteFault`] comes only where the store's
/// count of failed writes rose.
pub fn write_mpd<F: Store, L: Ledger>(
    alloc: Global,
    form: Form,
    presentation: &Presentation,
    store: &mut F,
    name: &Name,
    steps: &mut Steps<L>,
) -> Result<(), OutFault>
    requires { CameFromPlaylists presentation.now }
    ensures ok { OnOk result (Changes (put name.now (spec.manifest_text form presentation.now)) (F.files store.old) (F.files store.new)) }
    ensures err { OnErr result ((F.files store.new ≡ F.files store.old)
        ⊎ HasFront name.now (spec.manifest_text form presentation.now) (F.files store.old) (F.files store.new)) }
    ensures cause { HasCause WriteFault (F.write_faults store.old) (F.write_faults store.new) result }
    ensures reads { F.read_faults store.new ≡ F.read_faults store.old }
{
    let sections = presentation.sections().as_slice();
    let root = finished_root(last_end(sections));
    let lists = OwnLists { form, presentation };
    let outline = Outline {
        root: &root,
        periods: sections,
        tracks: presentation.tracks().as_slice(),
        lists: &lists,
    };
    outline.write(alloc, store, name, steps)
}

/// The attributes of a static MPD that ends at a time (5.3.1.2).
pub(crate) fn finished_root<'a>(end: Option<Nanos>) -> [Attribute<'a>; 5]
    ensures { all_told result ≡ spec.finished_root end }
{
    [
        ("xmlns", Some(Value::Text("urn:mpeg:dash:schema:mpd:2011"))),
        (
            "profiles",
            Some(Value::Text("urn:mpeg:dash:profile:full:2011")),
        ),
        ("type", Some(Value::Text("static"))),
        ("minBufferTime", Some(Value::Text("PT2S"))),
        ("mediaPresentationDuration", duration(end)),
    ]
}

/// A duration as a value, where it is known.
fn duration<'a>(nanos: Option<Nanos>) -> Option<Value<'a>>
    ensures { option_map value_text result ≡ option_map duration_text nanos }
{
    Some(Value::Duration(nanos?))
}

/// When the last section ends, where it is known.
pub(crate) fn last_end(sections: &[Section]) -> Option<Nanos>
    ensures { result ≡ spec.last_end sections.now }
{
    end_of(sections.last()?)
}

/// When a section ends, where it is known.
fn end_of(section: &Section) -> Option<Nanos>
    ensures { result ≡ spec.end_of section.now }
{
    let end = section.start.0.saturating_add(section.length?.0);
    Some(Nanos(end.min(9_999_999_999_999_999_999)))
}

impl Period for Section {
    ghost head = { spec.period_attributes };

    fn attributes(&self, place: usize) -> [Attribute<'_>; 3] {
        [
            ("id", Some(Value::Number(place as u64))),
            ("start", Some(Value::Duration(self.start))),
            ("duration", duration(self.length)),
        ]
    }
}
