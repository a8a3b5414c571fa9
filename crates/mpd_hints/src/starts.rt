// Whether segments can be decoded without those before them.
ghost use Rattle.std.specs.Prelude.{◌≡◌, option_map};
ghost use Rattle.std.specs.List.{list_all, list_any};
ghost use Rattle.bridge_io.specs.declared.media.Kind.TheVariants.{Video};
ghost use Rattle.presentation.specs.Order.{is_of};
ghost use Rattle.mpd_hints.specs.declared.tracks.Told.{Told};
ghost use Rattle.mpd_tree.specs.Nodes.{element_of};
ghost use Rattle.mpd_rules.specs.Kept.{periods_of};
ghost use Rattle.mpd_hints.specs.Starts as spec;

use crate::elements::{is_period, is_representation, is_set, kind_or, kind_over};
use crate::tracks::Told;
use bridge_io::Kind;
use mpd_profile::{is_dynamic, value_named};
use mpd_tree::Node;

/// The attribute that says that each segment begins with a stream access point (ISO/IEC 23009-1, 5.3.7.2).
#[derive(Clone, Copy)]
pub enum Sap {
    /// `startWithSAP`, of MPDs whose segments are addressed one by one.
    Segments,
    /// `subsegmentStartsWithSAP`, of MPDs whose files have a `sidx`.
    Subsegments,
}

impl Sap {
    fn attribute(self) -> &'static str
        ensures { result.now ≡ spec.attribute_of self }
    {
        match self {
            Sap::Segments => "startWithSAP",
            Sap::Subsegments => "subsegmentStartsWithSAP",
        }
    }
}

/// The attribute that tells where decoding can begin, and the kind of tracks that must have it.
#[derive(Clone, Copy)]
pub(crate) struct Asked {
    pub(crate) sap: Sap,
    pub(crate) kind: Kind,
}

impl Asked {
    pub(crate) fn of(sap: Sap, tracks: &[Told]) -> Asked
        ensures { result ≡ spec.asked_of sap tracks.now }
    {
        Asked {
            sap,
            kind: asked_kind(tracks),
        }
    }

    /// Whether each segment of the kind asked for can be decoded without the one before it.
    pub(crate) fn is_independent(self, mpd: Node<'_>) -> bool
        ensures { result ≡ spec.is_independent self (element_of mpd.entry) }
    {
        !is_dynamic(mpd) && self.all_start(mpd)
    }

    fn all_start(self, mpd: Node<'_>) -> bool
        ensures { result ≡ list_all (spec.period_starts self) (periods_of (element_of mpd.entry)) }
    {
        for period in mpd.children() {
            if is_period(period) && !self.period_starts(period) {
                return false;
            }
        }
        true
    }

    fn period_starts(self, period: Node<'_>) -> bool
        ensures { result ≡ spec.period_starts self (element_of period.entry) }
    {
        for set in period.children() {
            if is_set(set) && !self.set_starts(set) {
                return false;
            }
        }
        true
    }

    fn set_starts(self, set: Node<'_>) -> bool
        ensures { result ≡ spec.set_starts self (element_of set.entry) }
    {
        let media_type = value_named(set, "mimeType");
        let kind = kind_or(set, None);
        let start = value_named(set, self.sap.attribute());
        for child in set.children() {
            if is_representation(media_type, child) && !self.starts(kind, start, child) {
                return false;
            }
        }
        true
    }

    fn starts(self, of_set: Option<Kind>, start: Option<&str>, representation: Node<'_>) -> bool
        ensures { result ≡ spec.starts_over self of_set (option_map (λ text. text.now) start.entry) (element_of representation.entry) }
    {
        let own = value_named(representation, self.sap.attribute());
        match own.or(start) {
            Some(text) => text == "1" || text == "2",
            None => kind_over(of_set, representation) != self.kind,
        }
    }
}

/// Video, and where there is none, audio.
fn asked_kind(tracks: &[Told]) -> Kind
    ensures { result ≡ spec.asked_kind tracks.now }
{
    if has_video(tracks) {
        return Kind::Video;
    }
    Kind::Audio
}

fn has_video(tracks: &[Told]) -> bool
    ensures { result ≡ list_any (λ (told : Told). is_of Video told.kind) tracks.now }
{
    tracks.iter().any(|told| told.kind == Kind::Video)
}
