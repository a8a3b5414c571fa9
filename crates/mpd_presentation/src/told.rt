// The contents of Representations in their Periods.
ghost use Rattle.std.specs.Prelude.{◌≡◌, [], ◌<◌, true, IfOk, length, option_map, unwrap_or};
ghost use Rattle.std.specs.List.{list_all};
ghost use Rattle.bridge_io.specs.Answer.{Gives, told_as};
ghost use Rattle.timeline.specs.Names.{referred};
ghost use Rattle.timeline.specs.Expansions.{is_open};
ghost use Rattle.mpd_levels.specs.Shown.{addressed, timelines_in};
ghost use Rattle.mpd_rules.specs.Views.{track_in, tracks_left, tables_of, period_in};
ghost use Rattle.presentation.specs.Counting.{refusal};
ghost use Rattle.template_ids.specs.Templates.{refusal as template_refusal};
ghost use Rattle.url_parts.specs.Addresses.{refusal as url_refusal, resolve};
ghost use Rattle.url_parts.specs.Paths.{is_segment_byte};
ghost use Rattle.timeline.specs.Faults.{refusal as time_refusal};
ghost use Rattle.mpd_presentation.specs.Rows.{row_of, rows_left, period_of};
ghost use Rattle.mpd_presentation.specs.Scales.{scale_of};
ghost use Rattle.mpd_presentation.specs.Shared.{IsShared};
ghost use Rattle.mpd_presentation.specs.Told as spec;

use crate::former::Former;
use crate::shared::Shared;
use bridge_io::{Kind, NoMemory, Place, Text};
use mpd_rules::{Addressing, PeriodView, RepView};
use presentation::{Content, PresentationFault, Spot};
use std::alloc::Global;
use template_ids::{Ids, Template, TemplateFault};
use timeline::{End, MediaTemplate, Names, RefList, Runs, Scale, SharedNames, TimeFault};
use url_parts::{Address, Base, Part, UrlFault};

/// The most bytes that a URL has.
const MAX_URL_LEN: usize = 2048;

/// The content of a Representation in its Period.
#[derive(Drop)]
pub(crate) struct PeriodContent {
    pub(crate) kind: Kind,
    pub(crate) content: Content,
    /// The position of the Representation.
    pub(crate) place: Place,
}

/// The context of Representations: the MPD's URL, what they share, and whether the MPD is dynamic.
#[derive(Clone, Copy)]
pub(crate) struct Setting<'a> {
    pub(crate) shared: &'a Shared,
    pub(crate) base: &'a Base,
    pub(crate) live: bool,
}

impl Setting<'_> {
    /// The content of a Representation in its Period, which has this end. What is the same as in the previous one is
    /// shared.
    pub(crate) fn told(
        &self,
        alloc: Global,
        row: &RepView<'_>,
        end: &End,
        former: &mut Former,
    ) -> Result<PeriodContent, PresentationFault>
        requires { IsShared (track_in row.now).segments.tables self.now.shared.now }
        ensures { Gives (λ told. told) refusal result (spec.told_of self.now.base.now self.now.live end.now (row_of row.now)) }
    {
        let content = self.content(alloc, row, &row.addressing(), *end, former)?;
        Ok(PeriodContent {
            kind: row.kind(),
            content,
            place: row.place(),
        })
    }

    #[tactic(auto, unfolding(crate::specs::Told::content_of))]
    fn content(
        &self,
        alloc: Global,
        row: &RepView<'_>,
        told: &Addressing<'_>,
        end: End,
        former: &mut Former,
    ) -> Result<Content, PresentationFault>
        requires { IsShared (tables_of told.now) self.now.shared.now }
        ensures { Gives (λ content. content) refusal result
            (spec.content_of self.now.base.now self.now.live end (row_of row.now).description (addressed told.now)) }
    {
        let place = row.place();
        let media = media_of(alloc, told, place, former)?;
        let template = init_of(alloc, told, place, former)?;
        let base = base_of(alloc, self.base, row, former)?;
        let initialization = initialization_of(alloc, row, told, &template, &base, former)?;
        let names = names_of(alloc, row, told, media, base)?;
        let runs = self.runs_of(alloc, told, end, names, place)?;
        Ok(Content {
            initialization,
            runs,
        })
    }

    /// The segments of a Representation.
    fn runs_of(
        &self,
        alloc: Global,
        told: &Addressing<'_>,
        end: End,
        names: Names,
        place: Place,
    ) -> Result<Runs, PresentationFault>
        requires { IsShared (tables_of told.now) self.now.shared.now }
        ensures { Gives (λ runs. runs) refusal result
            (told_as (spec.at_times place) (spec.timeline_by (addressed told.now).timeline
            (addressed told.now) self.now.live end names)) }
    {
        match self.timeline_by(alloc, told, end, names) {
            Ok(runs) => Ok(runs),
            Err(fault) => Err(at_times(fault, place)),
        }
    }

    fn timeline_by(
        &self,
        alloc: Global,
        told: &Addressing<'_>,
        end: End,
        names: Names,
    ) -> Result<Runs, TimeFault>
        requires { IsShared (tables_of told.now) self.now.shared.now }
        ensures { Gives (λ runs. runs) time_refusal result (spec.timeline_by (addressed told.now).timeline
            (addressed told.now) self.now.live end names) }
    {
        let scale = scale_of(told);
        match self.shared.timeline(told.timeline_key()) {
            Some(timeline) => Runs::from_shared(alloc, timeline, end, self.live, scale, names),
            None => {
                let duration = told.duration().unwrap_or(0);
                Runs::from_duration(alloc, duration, end, self.live, scale, names)
            }
        }
    }
}

/// The names of a Representation's segments.
fn names_of(
    alloc: Global,
    row: &RepView<'_>,
    told: &Addressing<'_>,
    media: MediaTemplate,
    base: Base,
) -> Result<Names, NoMemory>
    ensures { IfOk result (λ names. names ≡ spec.names_of (row_of row.now).description (addressed told.now) media base) }
{
    if told.is_list() {
        return Ok(Names::of_shared(list_of(alloc, told)?, base));
    }
    let id = Text::copy_of(alloc, row.id())?;
    Ok(Names::of_template(media, id, row.bandwidth(), base))
}

/// The SegmentURLs of a list.
fn list_of(alloc: Global, told: &Addressing<'_>) -> Result<SharedNames, NoMemory>
    ensures { IfOk result (λ names. names ≡ unwrap_or (addressed told.now).urls []) }
{
    match told.urls() {
        Some(names) => names.share(),
        None => SharedNames::of(alloc, RefList::new(alloc)),
    }
}

/// The timescale and offset of a Representation, and the numbering of its segments.
fn scale_of(told: &Addressing<'_>) -> Scale
    ensures { result ≡ scale_of (addressed told.now) }
{
    let ticks = told.timescale().max(1);
    let start_number = told.start_number().min(LAST_NUMBER);
    Scale {
        ticks,
        offset: told.time_offset(),
        start_number,
    }
}

/// The last number below 2^63.
const LAST_NUMBER: u64 = (1 << 63) - 1;

/// The template of the segment URLs.
fn media_of(
    alloc: Global,
    told: &Addressing<'_>,
    place: Place,
    former: &mut Former,
) -> Result<MediaTemplate, PresentationFault>
    ensures { Gives (λ template. template) refusal result (spec.media_of place (addressed told.now)) }
{
    match former.media(alloc, told.media().unwrap_or("")) {
        Ok(template) => Ok(template),
        Err(fault) => Err(at_template(fault, place)),
    }
}

/// The template of the init segment's URL, where the attribute gives it.
fn init_of(
    alloc: Global,
    told: &Addressing<'_>,
    place: Place,
    former: &mut Former,
) -> Result<Option<MediaTemplate>, PresentationFault>
    ensures { Gives (λ template. template) refusal result (spec.init_of place (addressed told.now)) }
{
    let Some(text) = told.init_template() else {
        return Ok(None);
    };
    match init_template(alloc, text, former) {
        Ok(template) => Ok(Some(template)),
        Err(fault) => Err(at_template(fault, place)),
    }
}

fn init_template(
    alloc: Global,
    text: &str,
    former: &mut Former,
) -> Result<MediaTemplate, TemplateFault>
    ensures { Gives (λ template. template) template_refusal result (spec.init_template_of text.now) }
{
    let init = former.init(alloc, text)?;
    let template = init.template();
    if template.uses_number() || template.uses_time() {
        return Err(TemplateFault::Unknown);
    }
    Ok(init)
}

/// The base that the BaseURLs of a Representation give.
fn base_of(
    alloc: Global,
    url: &Base,
    row: &RepView<'_>,
    former: &mut Former,
) -> Result<Base, PresentationFault>
    ensures { Gives (λ base. base) refusal result (spec.base_of url.now (row_of row.now).description) }
{
    match former.base(alloc, url, row.base_references()) {
        Ok(base) => Ok(base),
        Err(fault) => Err(at_url(fault, row.place())),
    }
}

/// The init segment of a Representation.
fn initialization_of(
    alloc: Global,
    row: &RepView<'_>,
    told: &Addressing<'_>,
    template: &Option<MediaTemplate>,
    base: &Base,
    former: &mut Former,
) -> Result<Part, PresentationFault>
    ensures { Gives (λ part. part) refusal result
        (spec.initialization_of (row_of row.now).description (addressed told.now) template.now base.now) }
{
    match init_address(alloc, row, told, template, base, former) {
        Ok(address) => Ok(Part {
            address,
            range: told.init_range(),
        }),
        Err(fault) => Err(at_url(fault, row.place())),
    }
}

fn init_address(
    alloc: Global,
    row: &RepView<'_>,
    told: &Addressing<'_>,
    template: &Option<MediaTemplate>,
    base: &Base,
    former: &mut Former,
) -> Result<Address, UrlFault>
    ensures { Gives (λ address. address) url_refusal result
        (referred base.now (spec.init_reference (row_of row.now).description (addressed told.now) template.now)) }
{
    match template {
        Some(template) => named_address(alloc, row, template, base, former),
        None => refer(alloc, base, told.init_reference(), former),
    }
}

/// The URL of an init segment's name against a base.
fn named_address(
    alloc: Global,
    row: &RepView<'_>,
    template: &MediaTemplate,
    base: &Base,
    former: &mut Former,
) -> Result<Address, UrlFault>
    ensures { Gives (λ address. address) url_refusal result
        (resolve base.now (spec.init_name (row_of row.now).description template.now)) }
{
    let _ = base.as_str(); // opens the value, for its invariant
    let short = short_of(row, template);
    if is_too_long(row, short) {
        return Err(UrlFault::TooLong);
    }
    let name = init_name(alloc, row, short)?;
    former.address(alloc, base, name.as_str())
}

/// The shortest template whose name for the init segment gives the same URL.
fn short_of<'a>(row: &RepView<'_>, template: &'a MediaTemplate) -> &'a Template
    ensures { spec.NamesSame (row_of row.now).description template.now result.now }
{
    let _ = row.bandwidth(); // for its bound
    template.for_id(row.id())
}

/// Whether an init segment's name is known to be longer than any URL before it is put together.
fn is_too_long(row: &RepView<'_>, template: &Template) -> bool
    ensures { result ≡ true → (let name = spec.init_name (row_of row.now).description template.now in
        (list_all is_segment_byte name ≡ true) × (2048 < length name)) }
{
    let id = row.id();
    let bandwidth = row.bandwidth();
    template.least_len(id, bandwidth) > MAX_URL_LEN && template.names_segments(id, bandwidth)
}

fn init_name(alloc: Global, row: &RepView<'_>, template: &Template) -> Result<Text, NoMemory>
    ensures { IfOk result (λ name. name ≡ spec.init_name (row_of row.now).description template.now) }
{
    let id = Text::copy_of(alloc, row.id())?;
    let ids = Ids {
        id,
        bandwidth: row.bandwidth(),
        number: 0,
        time: 0,
    };
    Ok(template.name(alloc, &ids)?)
}

/// The URL of a reference against a base. A missing reference is the base itself.
#[tactic(auto, using(crate::proofs::OwnAddress::own_address))]
fn refer(
    alloc: Global,
    base: &Base,
    reference: Option<&str>,
    former: &mut Former,
) -> Result<Address, UrlFault>
    ensures { Gives (λ address. address) url_refusal result (referred base.now (option_map (λ text. text.now) reference.entry)) }
{
    match reference {
        Some(reference) => former.address(alloc, base, reference),
        None => former.address(alloc, base, base.as_str()),
    }
}

fn at_template(fault: TemplateFault, place: Place) -> PresentationFault
    ensures { result ≡ spec.template_told place fault }
{
    match fault {
        TemplateFault::Memory => PresentationFault::Memory,
        _ => PresentationFault::Template(fault, place),
    }
}

fn at_url(fault: UrlFault, place: Place) -> PresentationFault
    ensures { result ≡ spec.url_told place fault }
{
    match fault {
        UrlFault::Memory => PresentationFault::Memory,
        _ => PresentationFault::Url(fault, Spot::At(place)),
    }
}

fn at_times(fault: TimeFault, place: Place) -> PresentationFault
    ensures { result ≡ spec.times_told place fault }
{
    match fault {
        TimeFault::Memory => PresentationFault::Memory,
        _ => PresentationFault::Timeline(fault, place),
    }
}
