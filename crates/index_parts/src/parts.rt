// The presentation of an MPD and its media files.
ghost use Rattle.std.specs.Prelude.{◌≡◌, [], ◌∷◌, All, IfOk, map};
ghost use Rattle.std.specs.Option.{ForSome};
ghost use Rattle.bridge_io.specs.Answer.{Gives};
ghost use Rattle.bridge_io.specs.Fault.{HasCause};
ghost use Rattle.mpd_rules.specs.Views.{index_mpd, period_in};
ghost use Rattle.presentation.specs.Presented.{IsEnded};
ghost use Rattle.mpd_presentation.specs.Rows.{in_order, section_of, track_of};
ghost use Rattle.presentation.specs.Order.{is_of};
ghost use Rattle.index_parts.specs.declared.fault.IndexFault.TheVariants.{Fault};
ghost use Rattle.index_parts.specs.Kept as kept;
ghost use Rattle.index_parts.specs.Presented as spec;
ghost use Rattle.index_parts.specs.Refusals.{IsNoFault, refusal};
ghost use Rattle.index_parts.specs.Rows.{period_of, row_of, rows_left};

use crate::IndexFault;
use crate::located::{Listed, Setting};
use bridge_io::{Kind, NoMemory, Store};
use mpd_presentation::{section_in, tracks_in};
use mpd_rules::{IndexedMpd, IndexedPeriod, IndexedRep, IndexedWalk};
use presentation::{ContentList, Parts, Presentation, PresentationFault, SectionList, TrackList};
use std::alloc::Global;
use url_parts::Base;

/// The most tracks of a presentation.
const TRACK_LIMIT: usize = 200;

/// The most segments of all tracks.
const SEGMENT_LIMIT: u64 = 500_000;

/// The contents of tracks. Contents past the limit of segments are dropped.
#[derive(Drop)]
pub(crate) struct Gathering {
    contents: ContentList,
    /// How many segments there are, including dropped ones, up to the last value of the counter.
    segments: u64,
}

/// The presentation of a static MPD of one Period whose media files have a `sidx`: its tracks, video before audio before text,
/// each with a segment for each reference of its `sidx`. `base` is the MPD's own URL, and `folder` that of the store's folder.
///
/// Only the bytes of its index range are read of each file, and the store's files stay as they are. The faults come in the order
/// of [`IndexFault`]. `Fault` comes only where the store's count of failed reads rose.
#[tactic(auto, unfolding(crate::specs::Presented::indexed_of))]
pub fn index_parts<F: Store>(
    alloc: Global,
    mpd: &IndexedMpd,
    base: &Base,
    folder: &Base,
    store: &mut F,
) -> Result<Presentation, IndexFault>
    ensures presented { ForSome (F.files store.old) (λ files. Gives (λ presentation. presentation) refusal result
        (spec.indexed_of base.now folder.now files (index_mpd mpd.now))) }
    ensures cause { HasCause Fault (F.read_faults store.old) (F.read_faults store.new) result }
    ensures files { F.files store.new ≡ F.files store.old }
    ensures writes { F.write_faults store.new ≡ F.write_faults store.old }
{
    let setting = Setting { url: base, folder };
    match mpd.periods().next() {
        Some(period) => setting.present(alloc, &period, mpd.left_out(), store),
        None => Ok(nothing(alloc, mpd.left_out())),
    }
}

/// A presentation without tracks.
fn nothing(alloc: Global, left_out: u64) -> Presentation
    ensures { result ≡ spec.nothing left_out }
{
    Presentation::from_parts(
        alloc,
        Parts {
            tracks: TrackList::new(alloc),
            sections: SectionList::new(alloc),
            contents: ContentList::new(alloc),
            left_out,
        },
    )
}

impl Setting<'_> {
    /// The presentation of a Period.
    #[tactic(auto, unfolding(crate::specs::Kept::presented_kept))]
    fn present<F: Store>(
        &self,
        alloc: Global,
        period: &IndexedPeriod<'_>,
        left_out: u64,
        store: &mut F,
    ) -> Result<Presentation, IndexFault>
        ensures presented { ForSome (F.files store.old) (λ files. Gives (λ presentation. presentation) refusal result
            (kept.presented_kept self.now.url.now self.now.folder.now files left_out (period_of period.now))) }
        ensures cause { HasCause Fault (F.read_faults store.old) (F.read_faults store.new) result }
        ensures files { F.files store.new ≡ F.files store.old }
        ensures writes { F.write_faults store.new ≡ F.write_faults store.old }
    {
        let tracks = tracks_of(alloc, period)?;
        let gathering = self.gathered(alloc, period, store)?;
        gathering.present(alloc, period, tracks, left_out)
    }

    /// The contents of the Representations of a Period, in the order of the tracks.
    #[tactic(auto, unfolding(crate::specs::Kept::all_gathered))]
    fn gathered<F: Store>(
        &self,
        alloc: Global,
        period: &IndexedPeriod<'_>,
        store: &mut F,
    ) -> Result<Gathering, IndexFault>
        ensures gathered { ForSome (F.files store.old) (λ files. Gives (λ gathering. gathering) refusal result
            (kept.all_gathered self.now.url.now self.now.folder.now files (period_of period.now).tracks)) }
        ensures ended { IfOk result (λ gathering. All IsEnded gathering.contents) }
        ensures cause { HasCause Fault (F.read_faults store.old) (F.read_faults store.new) result }
        ensures files { F.files store.new ≡ F.files store.old }
        ensures writes { F.write_faults store.new ≡ F.write_faults store.old }
    {
        let none = Gathering {
            contents: ContentList::new(alloc),
            segments: 0,
        };
        let video = self.with_kind(alloc, none, period.tracks(), Kind::Video, store)?;
        let audio = self.with_kind(alloc, video, period.tracks(), Kind::Audio, store)?;
        self.with_kind(alloc, audio, period.tracks(), Kind::Text, store)
    }

    /// Adds the contents of the Representations of a kind, in document order.
    fn with_kind<F: Store>(
        &self,
        alloc: Global,
        former: Gathering,
        walk: IndexedWalk<'_>,
        kind: Kind,
        store: &mut F,
    ) -> Result<Gathering, IndexFault>
        requires { All IsEnded former.contents }
        ensures gathered { ForSome (F.files store.old) (λ files. Gives (λ gathering. gathering) refusal result
            (kept.kind_kept self.now.url.now self.now.folder.now files kind former (rows_left walk.entry))) }
        ensures ended { IfOk result (λ gathering. All IsEnded gathering.contents) }
        ensures cause { HasCause Fault (F.read_faults store.old) (F.read_faults store.new) result }
        ensures files { F.files store.new ≡ F.files store.old }
        ensures writes { F.write_faults store.new ≡ F.write_faults store.old }
    {
        let mut gathering = former;
        for view in walk {
            gathering = self.with_any(alloc, gathering, &view, kind, store)?;
        }
        Ok(gathering)
    }

    /// Adds the content of a Representation, if it is of a kind.
    fn with_any<F: Store>(
        &self,
        alloc: Global,
        former: Gathering,
        view: &IndexedRep<'_>,
        kind: Kind,
        store: &mut F,
    ) -> Result<Gathering, IndexFault>
        requires { All IsEnded former.contents }
        ensures gathered { ForSome (F.files store.old) (λ files. Gives (λ gathering. gathering) refusal result
            (kept.kept_if self.now.url.now self.now.folder.now files kind former (row_of view.now))) }
        ensures ended { IfOk result (λ gathering. All IsEnded gathering.contents) }
        ensures cause { HasCause Fault (F.read_faults store.old) (F.read_faults store.new) result }
        ensures files { F.files store.new ≡ F.files store.old }
        ensures writes { F.write_faults store.new ≡ F.write_faults store.old }
    {
        if is_of(kind, view.kind()) {
            self.with_track(alloc, former, view, store)
        } else {
            Ok(former)
        }
    }

    /// Adds the content of a Representation.
    #[tactic(auto, unfolding(crate::specs::Kept::kept_with))]
    fn with_track<F: Store>(
        &self,
        alloc: Global,
        former: Gathering,
        view: &IndexedRep<'_>,
        store: &mut F,
    ) -> Result<Gathering, IndexFault>
        requires { All IsEnded former.contents }
        ensures gathered { ForSome (F.files store.old) (λ files. Gives (λ gathering. gathering) refusal result
            (kept.kept_with self.now.url.now self.now.folder.now files former (row_of view.now))) }
        ensures ended { IfOk result (λ gathering. All IsEnded gathering.contents) }
        ensures cause { HasCause Fault (F.read_faults store.old) (F.read_faults store.new) result }
        ensures files { F.files store.new ≡ F.files store.old }
        ensures writes { F.write_faults store.new ≡ F.write_faults store.old }
    {
        let listed = self.listed(alloc, view, store)?;
        Ok(former.keep(listed)?)
    }
}

impl Gathering {
    /// Adds the content of a track.
    fn keep(mut self, listed: Listed) -> Result<Gathering, NoMemory>
        requires former { All IsEnded self.contents }
        requires ended { IsEnded listed.content }
        ensures kept { IfOk result (λ gathering. gathering ≡ kept.keep self listed) }
        ensures ended { IfOk result (λ gathering. All IsEnded gathering.contents) }
    {
        self.segments = self.segments.saturating_add(listed.segments);
        if self.segments > SEGMENT_LIMIT {
            return Ok(self);
        }
        self.contents.push(listed.content)?;
        Ok(self)
    }

    /// The presentation of a Period with these contents of its tracks.
    fn present(
        self,
        alloc: Global,
        period: &IndexedPeriod<'_>,
        tracks: TrackList,
        left_out: u64,
    ) -> Result<Presentation, IndexFault>
        requires { All IsEnded self.contents }
        ensures presented { Gives (λ presentation. presentation) refusal result
            (kept.presented_of left_out (period_of period.now) tracks self) }
        ensures no_fault { IsNoFault result }
    {
        // Contents are dropped where there are too many segments.
        if self.contents.len() != tracks.len() {
            return Err(IndexFault::Presentation(PresentationFault::Limit));
        }
        let sections = sections_of(alloc, period)?;
        let parts = Parts {
            tracks,
            sections,
            contents: self.contents,
            left_out,
        };
        Ok(Presentation::from_parts(alloc, parts))
    }
}

/// The tracks of a Period, unless there are too many.
fn tracks_of(alloc: Global, period: &IndexedPeriod<'_>) -> Result<TrackList, IndexFault>
    ensures tracks { Gives (λ tracks. tracks) refusal result (spec.few_tracks (map track_of (in_order (period_of period.now).tracks))) }
    ensures no_fault { IsNoFault result }
{
    let tracks = tracks_in(alloc, period)?;
    if tracks.len() > TRACK_LIMIT {
        return Err(IndexFault::Presentation(PresentationFault::Limit));
    }
    Ok(tracks)
}

/// The section of a Period.
fn sections_of(alloc: Global, period: &IndexedPeriod<'_>) -> Result<SectionList, NoMemory>
    ensures { IfOk result (λ sections. sections ≡ section_of (period_in period.now) ∷ []) }
{
    let mut sections = SectionList::new(alloc);
    sections.push(section_in(alloc, period)?)?;
    Ok(sections)
}

fn is_of(kind: Kind, other: Kind) -> bool
    ensures { result ≡ is_of kind other }
{
    match (kind, other) {
        (Kind::Video, Kind::Video) | (Kind::Audio, Kind::Audio) | (Kind::Text, Kind::Text) => true,
        _ => false,
    }
}
