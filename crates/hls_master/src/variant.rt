// Variants: EXT-X-STREAM-INF and the URI after it.
ghost use Rattle.std.specs.Prelude.{◌≡◌, [], ◌∷◌, codes, option_and_then, unwrap_or};
ghost use Rattle.std.specs.Option.{is_some};
ghost use Rattle.bridge_io.specs.Answer.{Gives};
ghost use Rattle.bridge_io.specs.Firsts.{first_some};
ghost use Rattle.hls_lines.specs.Attributes.{attributes_of, value_of};
ghost use Rattle.mpd_values.specs.Codecs.{are_read_codes};
ghost use Rattle.mpd_values.specs.Numbers.{numeral_of};
ghost use Rattle.hls_master.specs.Codes.{has_code_in};
ghost use Rattle.hls_master.specs.Faults.{answer, mapped, refusal};
ghost use Rattle.hls_master.specs.Renditions.{malformed, missing, text_at};
ghost use Rattle.hls_master.specs.SeenTags.{rate_seen, shown_seen, text_seen, variant_seen};
ghost use Rattle.hls_master.specs.Tracks.{group_of, is_audio_variant, variant_kind};
ghost use Rattle.hls_master.specs.Values.{is_bandwidth, rate_of, rate_within, size_of, size_within};
ghost use Rattle.hls_master.specs.Variants.{attributes_or_none, shown_faults, shown_value, variant_fault, variant_faults, variant_with};

use crate::MasterFault;
use crate::address::read_address;
use crate::attribute::required;
use crate::codes::has_code;
use crate::value::{read_frame_rate, read_number, read_size};
use bridge_io::{Kind, Place, Ratio, Size};
use hls_lines::{Attributes, read_attributes};
use mpd_values::are_codes;
use std::alloc::Global;
use url_parts::{Address, Base};

/// A variant (RFC 8216 4.3.4.2).
#[derive(Drop)]
pub struct Variant<'a> {
    /// The position of its EXT-X-STREAM-INF.
    pub place: Place,
    /// BANDWIDTH, in bits per second.
    pub bandwidth: u64,
    /// The properties of its media.
    pub shown: Shown<'a>,
    /// AUDIO, the group of its audio renditions.
    pub audio: Option<&'a str>,
    /// SUBTITLES, the group of its text renditions.
    pub subtitles: Option<&'a str>,
    /// The URL of the URI.
    pub address: Address,
}

/// The properties of a variant's media.
#[derive(Clone, Copy)]
pub struct Shown<'a> {
    /// CODECS, a list of codecs (RFC 6381).
    pub codecs: Option<&'a str>,
    /// RESOLUTION, in pixels.
    pub size: Option<Size>,
    /// FRAME-RATE, in frames per second, to thousandths.
    pub frame_rate: Option<Ratio>,
}

/// The variant of an EXT-X-STREAM-INF and a URI.
pub fn read_variant<'a>(
    alloc: Global,
    base: &Base,
    rest: &'a str,
    place: Place,
    uri: &str,
    uri_place: Place,
) -> Result<Variant<'a>, MasterFault>
    ensures { Gives variant_seen refusal result
        (answer (variant_fault base.now place uri.now uri_place (attributes_of rest.now place))
        (variant_with base.now place uri.now (attributes_or_none (attributes_of rest.now place)))) }
{
    let attributes = read_attributes(alloc, rest, place)?;
    variant_of(alloc, base, &attributes, place, uri, uri_place)
}

fn variant_of<'a>(
    alloc: Global,
    base: &Base,
    attributes: &Attributes<'a>,
    place: Place,
    uri: &str,
    uri_place: Place,
) -> Result<Variant<'a>, MasterFault>
    ensures { Gives variant_seen refusal result
        (answer (first_some (variant_faults base.now place uri.now uri_place attributes.now))
        (variant_with base.now place uri.now attributes.now)) }
{
    let text = required(attributes, "BANDWIDTH", place)?;
    let bandwidth = read_bandwidth(text, place)?;
    let shown = read_shown(attributes, place)?;
    let address = read_address(alloc, base, uri, uri_place)?;
    let audio = attributes.get("AUDIO");
    let subtitles = attributes.get("SUBTITLES");
    Ok(Variant {
        place,
        bandwidth,
        shown,
        audio,
        subtitles,
        address,
    })
}

fn read_bandwidth(text: &str, place: Place) -> Result<u64, MasterFault>
    ensures { result ≡ answer (malformed is_bandwidth place (Some text.now)) (unwrap_or (numeral_of text.now) 0) }
{
    match read_number(text, 1 << 32) {
        None | Some(0) => Err(MasterFault::Value(place)),
        Some(bandwidth) => Ok(bandwidth),
    }
}

fn read_shown<'a>(attributes: &Attributes<'a>, place: Place) -> Result<Shown<'a>, MasterFault>
    ensures { mapped shown_seen result ≡ answer (first_some (shown_faults place attributes.now)) (shown_value attributes.now) }
{
    let codecs = read_codecs(attributes.get("CODECS"), place)?;
    let size = read_resolution(attributes.get("RESOLUTION"), place)?;
    let frame_rate = read_rate(attributes.get("FRAME-RATE"), place)?;
    if attributes.get("VIDEO").is_some() {
        return Err(MasterFault::Unsupported(place));
    }
    Ok(Shown {
        codecs,
        size,
        frame_rate,
    })
}

fn read_codecs(codecs: Option<&str>, place: Place) -> Result<Option<&str>, MasterFault>
    ensures { mapped text_seen result ≡ answer (malformed are_read_codes place (text_seen codecs.entry)) (text_seen codecs.entry) }
{
    match codecs {
        Some(codes) if !are_codes(codes) => Err(MasterFault::Value(place)),
        codecs => Ok(codecs),
    }
}

fn read_resolution(size: Option<&str>, place: Place) -> Result<Option<Size>, MasterFault>
    ensures { result ≡ answer (malformed (λ text. is_some (size_within text)) place (text_seen size.entry))
        (option_and_then size_of (text_seen size.entry)) }
{
    match size {
        None => Ok(None),
        Some(text) => match read_size(text) {
            None => Err(MasterFault::Value(place)),
            Some(size) => Ok(Some(size)),
        },
    }
}

fn read_rate(rate: Option<&str>, place: Place) -> Result<Option<Ratio>, MasterFault>
    ensures { mapped rate_seen result ≡ answer (malformed (λ text. is_some (rate_within text)) place (text_seen rate.entry))
        (option_and_then rate_of (text_seen rate.entry)) }
{
    match rate {
        None => Ok(None),
        Some(text) => match read_frame_rate(text) {
            None => Err(MasterFault::Value(place)),
            Some(rate) => Ok(Some(rate)),
        },
    }
}

impl<'a> Variant<'a> {
    /// Whether CODECS has a codec for a track of this kind.
    pub fn has_code(&self, kind: Kind) -> bool
        ensures { result ≡ has_code_in kind (text_seen self.now.shown.codecs) }
    {
        match self.shown.codecs {
            None => false,
            Some(codes) => has_code(kind, codes),
        }
    }

    /// Whether it is audio only: CODECS has an audio codec, and none of video or of an unknown class.
    pub fn is_audio(&self) -> bool
        ensures { result ≡ is_audio_variant (variant_seen self.now) }
    {
        self.has_code(Kind::Audio) && !self.has_code(Kind::Video)
    }

    /// The kind of its track: audio where it is audio only, otherwise video.
    pub(crate) fn kind(&self) -> Kind
        ensures { result ≡ variant_kind (variant_seen self.now) }
    {
        if self.is_audio() {
            Kind::Audio
        } else {
            Kind::Video
        }
    }

    /// The group of a kind that it names.
    pub fn group(&self, kind: Kind) -> Option<&'a str>
        ensures { text_seen result ≡ group_of kind (variant_seen self.now) }
    {
        match kind {
            Kind::Video => None,
            Kind::Audio => self.audio,
            Kind::Text => self.subtitles,
        }
    }
}
