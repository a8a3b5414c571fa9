// The presentation of an MPD.
ghost use Rattle.std.specs.Prelude.{◌≡◌, ◌++◌, ◌∷◌, ◌*◌, [], false, All, IfOk, IfSome, List, MatchResult, OnOk, is_some, length};
ghost use Rattle.std.specs.Prelude.{map, option_map, Err, None};
ghost use Rattle.bridge_io.specs.Answer.{Gives, gathered};
ghost use Rattle.mpd_rules.specs.Views.{period_in, periods_left, segments_mpd, track_in, tracks_left};
ghost use Rattle.presentation.specs.Counting.{refusal};
ghost use Rattle.presentation.specs.Presented.{following_of as kept_following, IsEnded};
ghost use Rattle.mpd_presentation.specs.declared.told.PeriodContent.{PeriodContent};
ghost use Rattle.mpd_presentation.specs.Parted.{AreAdded, ArePartsOf, IsParted};
ghost use Rattle.mpd_presentation.specs.Rows.{all_left, first_rows, in_order, period_of, row_of, rows_left, section_of};
ghost use Rattle.mpd_presentation.specs.Shared.{AreOf, AreOfAll};
ghost use Rattle.mpd_presentation.specs.Told as spec;

use crate::checks::check;
use crate::described::{length_of, sections_of, tracks_of};
use crate::former::Former;
use crate::lineup::rows_in_order;
use crate::shared::Shared;
use crate::told::{PeriodContent, Setting};
use bridge_io::{Kind, NoMemory, Place};
use iso_time::Instant;
use mpd_rules::{Mpd, PeriodView, PeriodWalk, RepView, RepWalk, SegmentRow};
use presentation::{ContentList, Following, Parts, Presentation, PresentationFault};
use std::alloc::Global;
use timeline::{End, closed_ends};
use url_parts::Base;

/// The presentation of an MPD, which is followed where it is dynamic. `base` is the MPD's own URL.
///
/// The faults are tried in this order: `NeedsNow` where the MPD is dynamic and there is no current time; `Limit`
/// where there are more than 1,000 Periods, or more than 200 Representations in the first one; `PeriodsDiffer` at the
/// first Period that doesn't have the kinds and languages of the first one, video before audio before text; then, by
/// Representation in document order and at its position, `Template` of `media` and of `initialization`, `Url` of the
/// BaseURLs and of the init segment, and `Timeline`.
pub fn from_mpd(
    alloc: Global,
    mpd: &Mpd,
    base: &Base,
    now: Option<Instant>,
) -> Result<Presentation, PresentationFault>
    ensures { Gives (λ presentation. presentation) refusal result (spec.presented_of (segments_mpd mpd.now) base.now now) }
{
    match check(alloc, mpd, now.is_some()) {
        Ok(()) => present_checked(alloc, mpd, base, now),
        Err(fault) => Err(fault),
    }
}

/// The presentation of an MPD that is valid apart from its Representations.
fn present_checked(
    alloc: Global,
    mpd: &Mpd,
    base: &Base,
    now: Option<Instant>,
) -> Result<Presentation, PresentationFault>
    requires { spec.told_before (segments_mpd mpd.now).facts.live (is_some now) (segments_mpd mpd.now).periods ≡ [] }
    ensures { Gives (λ presentation. presentation) refusal result (spec.presented_if_told (segments_mpd mpd.now) base.now now) }
{
    closed_ends();
    let shared = Shared::of(alloc, mpd.tables())?;
    let setting = Setting {
        shared: &shared,
        base,
        live: mpd.live(),
    };
    match setting.all_told(alloc, mpd.periods()) {
        Ok(parted) => Ok(present(alloc, mpd, now, parted)?),
        Err(fault) => Err(fault),
    }
}

/// The presentation of the contents of Representations.
fn present(
    alloc: Global,
    mpd: &Mpd,
    now: Option<Instant>,
    parted: Parted,
) -> Result<Presentation, NoMemory>
    requires filled { length parted.contents ≡ length mpd.now.values.periods * length (first_rows (segments_mpd mpd.now).periods) }
    requires ended { mpd.now.values.facts.live ≡ false → All IsEnded parted.contents }
    ensures { IfOk result (λ presentation. presentation ≡
        spec.presented_from (segments_mpd mpd.now) now parted.contents parted.places.items) }
{
    let rows = first_in_order(alloc, mpd.periods())?;
    let tracks = tracks_of(alloc, &rows)?;
    let sections = sections_of(alloc, mpd.periods())?;
    let parts = Parts {
        tracks,
        sections,
        contents: parted.contents,
        left_out: mpd.left_out(),
    };
    Ok(Presentation::from_placed(parts, following_of(mpd, now), parted.places))
}

/// The timing of a dynamic MPD.
fn following_of(mpd: &Mpd, now: Option<Instant>) -> Option<Following>
    ensures { option_map kept_following result ≡ spec.following_of mpd.now.values.facts now }
{
    if !mpd.live() {
        return None;
    }
    Some(Following {
        instant: now.unwrap_or(Instant(0)),
        availability_start: mpd.availability_start().unwrap_or(Instant(0)),
        depth: mpd.depth(),
    })
}

fn first_in_order<'a>(
    alloc: Global,
    mut periods: PeriodWalk<'a, SegmentRow>,
) -> Result<Vec<RepView<'a>>, NoMemory>
    ensures { IfOk result (λ rows. map row_of rows.items ≡ in_order (first_rows (all_left periods.entry))) }
{
    match periods.next() {
        Some(first) => rows_in_order(alloc, &first),
        None => Ok(Vec::new(alloc)),
    }
}

/// The contents of Representations, and their positions.
#[derive(Drop)]
struct Parted {
    contents: ContentList,
    places: Vec<Place>,
}

impl Parted {
    fn none(alloc: Global) -> Parted
        ensures { IsParted [] result }
    {
        Parted {
            contents: ContentList::new(alloc),
            places: Vec::new(alloc),
        }
    }

    fn add(&mut self, told: PeriodContent) -> Result<(), NoMemory>
        ensures contents { OnOk result (self.new.contents ≡ self.old.contents ++ told.content ∷ []) }
        ensures places { OnOk result (self.new.places.items ≡ self.old.places.items ++ told.place ∷ []) }
    {
        self.contents.push(told.content)?;
        self.places.push(told.place)?;
        Ok(())
    }
}

impl Setting<'_> {
    /// The contents of the Representations of all Periods, by Period and in the order of the tracks.
    fn all_told(
        &self,
        alloc: Global,
        periods: PeriodWalk<'_, SegmentRow>,
    ) -> Result<Parted, PresentationFault>
        requires { AreOfAll self.now.shared.now (periods_left periods) }
        ensures { let all = spec.all_told self.now.base.now self.now.live (all_left periods.entry) in
            MatchResult result (ArePartsOf all) (λ fault. IfSome (refusal fault) (λ f. all ≡ Err f)) }
    {
        let mut parted = Parted::none(alloc);
        let mut former = Former::none(alloc);
        for period in periods {
            former.begin_period();
            match self.period_told(alloc, &period, &mut former) {
                Ok(told) => told.add_to(&mut parted)?,
                Err(fault) => return Err(fault),
            }
        }
        Ok(parted)
    }

    fn period_told(
        &self,
        alloc: Global,
        period: &PeriodView<'_>,
        former: &mut Former,
    ) -> Result<ByKind, PresentationFault>
        requires { AreOf self.now.shared.now (period_in period.now).tracks }
        ensures { Gives (λ told. told.video.items ++ (told.audio.items ++ told.text.items)) refusal result
            (spec.period_told self.now.base.now self.now.live (period_of period.now)) }
    {
        let tolds = self.rows_told(alloc, period.tracks(), &end_of(period), former)?;
        Ok(by_kind(alloc, tolds)?)
    }

    /// The contents of the Representations of a Period, in document order.
    fn rows_told(
        &self,
        alloc: Global,
        rows: RepWalk<'_, SegmentRow>,
        end: &End,
        former: &mut Former,
    ) -> Result<Vec<PeriodContent>, PresentationFault>
        requires { AreOf self.now.shared.now (tracks_left rows) }
        ensures { Gives (λ tolds. tolds.items) refusal result
            (gathered (spec.one_told self.now.base.now self.now.live end.now) (rows_left rows.entry)) }
    {
        let mut tolds = Vec::new(alloc);
        for row in rows {
            match self.told(alloc, &row, end, former) {
                Ok(told) => tolds.push(told)?,
                Err(fault) => return Err(fault),
            }
        }
        Ok(tolds)
    }
}

/// The contents of the Representations of a Period, by kind.
#[derive(Drop)]
struct ByKind {
    video: Vec<PeriodContent>,
    audio: Vec<PeriodContent>,
    text: Vec<PeriodContent>,
}

impl ByKind {
    /// Adds them after others in the order of the tracks.
    fn add_to(self, parted: &mut Parted) -> Result<(), NoMemory>
        ensures { OnOk result (AreAdded parted.old (self.video.items ++ (self.audio.items ++ self.text.items)) parted.new) }
    {
        add_all(parted, self.video)?;
        add_all(parted, self.audio)?;
        add_all(parted, self.text)
    }
}

fn by_kind(alloc: Global, tolds: Vec<PeriodContent>) -> Result<ByKind, NoMemory>
    ensures { IfOk result (λ told. told.video.items ++ (told.audio.items ++ told.text.items) ≡ spec.told_in_order tolds.items) }
{
    let mut video = Vec::new(alloc);
    let mut audio = Vec::new(alloc);
    let mut text = Vec::new(alloc);
    for told in tolds {
        match told.kind {
            Kind::Video => video.push(told)?,
            Kind::Audio => audio.push(told)?,
            Kind::Text => text.push(told)?,
        }
    }
    Ok(ByKind { video, audio, text })
}

fn add_all(parted: &mut Parted, more: Vec<PeriodContent>) -> Result<(), NoMemory>
    ensures { OnOk result (AreAdded parted.old more.items parted.new) }
{
    for told in more {
        parted.add(told)?;
    }
    Ok(())
}

/// How long a Period lasts.
fn end_of(period: &PeriodView<'_>) -> End
    ensures { result ≡ spec.end_of (period_of period.now) }
{
    match length_of(period) {
        Some(length) => End::At(length),
        None => End::Unbounded,
    }
}
