// Features that are rejected with an error code of their own.
ghost use Rattle.std.specs.Prelude.{◌≡◌, map, option_map};
ghost use Rattle.mpd_tree.specs.Views.{attribute_shown};
ghost use Rattle.mpd_profile.specs.Features as spec;
ghost use Rattle.mpd_profile.specs.Rows.{shown};

use crate::fault::RuleFault;
use crate::left_out::ESSENTIAL;
use crate::listed::{Listed, named_in};
use crate::tables;
use bridge_io::Place;
use mpd_tree::Attr;
use mpd_values::{Blank, has_foreign_code, kind_of, trimmed};

/// A feature that is rejected wherever it occurs.
#[derive(Clone, Copy)]
pub(crate) enum Feature {
    Encryption,
    Events,
    LowLatency,
    Remote,
    Essential,
    Unsupported,
}

impl Feature {
    pub(crate) fn at(self, place: Place) -> RuleFault
        ensures { result ≡ spec.fault_at self place }
    {
        match self {
            Feature::Encryption => RuleFault::Encryption(place),
            Feature::Events => RuleFault::Events(place),
            Feature::LowLatency => RuleFault::LowLatency(place),
            Feature::Remote => RuleFault::Remote(place),
            Feature::Essential => RuleFault::Essential(place),
            Feature::Unsupported => RuleFault::Unsupported(place),
        }
    }
}

/// The feature that an element is, by its name and its parent, or because it is the second of an element that a
/// parent may have only once.
pub(crate) fn element_feature(parent: Listed, is_second: bool, name: &str) -> Option<Feature>
    ensures { result ≡ spec.feature_if parent is_second name.now }
{
    if is_essential_in(parent, name) {
        return Some(Feature::Essential);
    }
    if is_second {
        return Some(Feature::Unsupported);
    }
    named_in(refused_elements(), name)
}

fn refused_elements() -> &'static [(&'static str, Feature)]
    ensures { map shown result.now ≡ spec.refused_elements }
{
    &tables::REFUSED_ELEMENTS
}

fn is_essential_in(parent: Listed, name: &str) -> bool
    ensures { result ≡ spec.is_essential_in parent name.now }
{
    match parent {
        Listed::Mpd | Listed::Period => name == ESSENTIAL,
        _ => false,
    }
}

/// Whether one of the codecs is of another kind than a Representation of this media type.
pub(crate) fn has_foreign(media_type: Option<&str>, codecs: Option<&str>) -> bool
    ensures { result ≡ spec.has_foreign (spec.kind_named (option_map (λ text. text.now) media_type.entry))
        (option_map (λ text. text.now) codecs.entry) }
{
    match (media_type, codecs) {
        (Some(media_type), Some(codecs)) => match kind_of(media_type) {
            Some(kind) => has_foreign_code(codecs, kind),
            None => false,
        },
        _ => false,
    }
}

/// The feature of an attribute.
#[tactic(auto, using(crate::proofs::Untold::entry_untold))]
pub(crate) fn attribute_feature(dynamic: bool, listed: Listed, attr: Attr<'_>) -> Option<Feature>
    ensures { result ≡ spec.attribute_feature dynamic listed (attribute_shown attr.entry) }
{
    match listed {
        Listed::S if is_entry_value(attr.name) => None,
        _ => refused_feature(dynamic, listed, attr),
    }
}

fn refused_feature(dynamic: bool, listed: Listed, attr: Attr<'_>) -> Option<Feature>
    ensures { result ≡ spec.attribute_feature dynamic listed (attribute_shown attr.entry) }
{
    if attr.name == "availabilityTimeComplete" && trimmed(attr.value, Blank::Space) == "false" {
        return Some(Feature::LowLatency);
    }
    named_in(refused_attributes(dynamic, listed), attr.name)
}

/// Whether a name is one of the usual attributes of an S, none of which is a feature.
pub(crate) fn is_entry_value(name: &str) -> bool
    ensures { result ≡ spec.is_entry_value name.now }
{
    name == "t" || name == "d" || name == "r"
}

fn refused_attributes(dynamic: bool, listed: Listed) -> &'static [(&'static str, Feature)]
    ensures { map shown result.now ≡ spec.refused_attributes dynamic listed }
{
    match (dynamic, listed) {
        (true, Listed::S) => &tables::REFUSED_IN_DYNAMIC_S,
        (true, _) => &tables::REFUSED_IN_DYNAMIC,
        (false, Listed::S) => &tables::REFUSED_IN_S,
        (false, _) => &tables::REFUSED,
    }
}
