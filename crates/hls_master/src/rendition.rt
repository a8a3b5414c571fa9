// Renditions: EXT-X-MEDIA.
ghost use Rattle.std.specs.Prelude.{◌≡◌, [], bytes_eq, option_map, option_and_then, unwrap_or};
ghost use Rattle.std.specs.Option.{option_eq};
ghost use Rattle.bridge_io.specs.Answer.{Gives};
ghost use Rattle.bridge_io.specs.Firsts.{first_some};
ghost use Rattle.hls_lines.specs.Attributes.{attributes_of};
ghost use Rattle.mpd_values.specs.Languages.{is_language};
ghost use Rattle.hls_master.specs.Faults.{answer, mapped, refusal};
ghost use Rattle.hls_master.specs.Renditions.{rendition_fault, rendition_faults, rendition_value, rendition_with, type_fault, kind_of_type};
ghost use Rattle.hls_master.specs.Renditions.{uri_fault, malformed, same_kind, same_rendition_set};
ghost use Rattle.hls_master.specs.SeenTags.{rendition_seen, text_seen};

use crate::MasterFault;
use crate::address::read_address;
use crate::attribute::required;
use bridge_io::{Kind, Place};
use hls_lines::{Attributes, read_attributes};
use mpd_values::is_language;
use std::alloc::Global;
use url_parts::{Address, Base};

/// An audio or text rendition (RFC 8216 4.3.4.1).
#[derive(Drop)]
pub struct Rendition<'a> {
    /// Audio or text, by TYPE.
    pub kind: Kind,
    /// GROUP-ID.
    pub group: &'a str,
    /// NAME.
    pub name: &'a str,
    /// LANGUAGE.
    pub language: Option<&'a str>,
    /// The URL of the URI.
    pub address: Address,
}

impl Rendition<'_> {
    /// Whether both have the same kind, name and language.
    pub fn has_set_of(&self, other: &Rendition<'_>) -> bool
        ensures { result ≡ same_rendition_set (rendition_seen self.now) (rendition_seen other.now) }
    {
        same_kind(self.kind, other.kind)
            && self.name == other.name
            && same_text(self.language, other.language)
    }
}

pub(crate) fn same_kind(one: Kind, other: Kind) -> bool
    ensures { result ≡ same_kind one other }
{
    match one {
        Kind::Video => matches!(other, Kind::Video),
        Kind::Audio => matches!(other, Kind::Audio),
        Kind::Text => matches!(other, Kind::Text),
    }
}

pub(crate) fn same_text(one: Option<&str>, other: Option<&str>) -> bool
    ensures { result ≡ option_eq bytes_eq (text_seen one.entry) (text_seen other.entry) }
{
    match one {
        None => other.is_none(),
        Some(one) => match other {
            None => false,
            Some(other) => one == other,
        },
    }
}

/// The rendition of an EXT-X-MEDIA; `None` for closed captions.
pub fn read_rendition<'a>(
    alloc: Global,
    base: &Base,
    rest: &'a str,
    place: Place,
) -> Result<Option<Rendition<'a>>, MasterFault>
    ensures { Gives (option_map rendition_seen) refusal result
        (answer (rendition_fault base.now place (attributes_of rest.now place)) (rendition_value base.now (attributes_of rest.now place))) }
{
    let attributes = read_attributes(alloc, rest, place)?;
    match read_kind(attributes.get("TYPE"), place)? {
        None => Ok(None),
        Some(kind) => Ok(Some(rendition_of(alloc, base, &attributes, kind, place)?)),
    }
}

/// The kind of a rendition by its TYPE.
fn read_kind(kind: Option<&str>, place: Place) -> Result<Option<Kind>, MasterFault>
    ensures { result ≡ answer (type_fault place (text_seen kind.entry)) (option_and_then kind_of_type (text_seen kind.entry)) }
{
    match kind {
        None => Err(MasterFault::Missing(place)),
        Some("AUDIO") => Ok(Some(Kind::Audio)),
        Some("SUBTITLES") => Ok(Some(Kind::Text)),
        Some("CLOSED-CAPTIONS") => Ok(None),
        Some("VIDEO") => Err(MasterFault::Unsupported(place)),
        Some(_) => Err(MasterFault::Value(place)),
    }
}

fn rendition_of<'a>(
    alloc: Global,
    base: &Base,
    attributes: &Attributes<'a>,
    kind: Kind,
    place: Place,
) -> Result<Rendition<'a>, MasterFault>
    ensures { Gives rendition_seen refusal result
        (answer (first_some (rendition_faults base.now place attributes.now kind)) (rendition_with base.now attributes.now kind)) }
{
    let group = required(attributes, "GROUP-ID", place)?;
    let name = required(attributes, "NAME", place)?;
    let language = read_language(attributes.get("LANGUAGE"), place)?;
    let uri = read_uri(attributes.get("URI"), kind, place)?;
    let address = read_address(alloc, base, uri, place)?;
    Ok(Rendition {
        kind,
        group,
        name,
        language,
        address,
    })
}

fn read_language(language: Option<&str>, place: Place) -> Result<Option<&str>, MasterFault>
    ensures { mapped text_seen result ≡ answer (malformed is_language place (text_seen language.entry)) (text_seen language.entry) }
{
    match language {
        Some(text) if !is_language(text) => Err(MasterFault::Value(place)),
        language => Ok(language),
    }
}

fn read_uri(uri: Option<&str>, kind: Kind, place: Place) -> Result<&str, MasterFault>
    ensures { mapped (λ uri. uri.now) result ≡ answer (uri_fault kind place (text_seen uri.entry)) (unwrap_or (text_seen uri.entry) []) }
{
    match (uri, kind) {
        (Some(uri), _) => Ok(uri),
        (None, Kind::Audio) => Err(MasterFault::Muxed(place)),
        (None, _) => Err(MasterFault::Missing(place)),
    }
}
