// Faults that are tried after all lines.
ghost use Rattle.std.specs.Prelude.{◌≡◌, not, map, IfOk};
ghost use Rattle.hls_master.specs.Masters.{groups_in, is_known, names_unknown_group, is_muxed, first_place};
ghost use Rattle.hls_master.specs.SeenTags.{rendition_seen, variant_seen, text_seen};
ghost use Rattle.hls_master.specs.Texts.{SameTexts};

use crate::rendition::{Rendition, same_kind};
use crate::texts::Texts;
use crate::variant::Variant;
use bridge_io::{Kind, NoMemory, Place};
use std::alloc::Global;

/// The position of the first variant that names a group which no rendition of that type has.
pub(crate) fn find_unknown_group(
    alloc: Global,
    renditions: &[Rendition<'_>],
    variants: &[Variant<'_>],
) -> Result<Option<Place>, NoMemory>
    ensures { IfOk result (λ place. place ≡ first_place (names_unknown_group (groups_in Kind.Audio (map rendition_seen renditions.now))
        (groups_in Kind.Text (map rendition_seen renditions.now))) (map variant_seen variants.now)) }
{
    let audio = groups_of(alloc, renditions, Kind::Audio)?;
    let text = groups_of(alloc, renditions, Kind::Text)?;
    Ok(first_unknown(&audio, &text, variants))
}

/// The groups of the renditions of a kind.
fn groups_of<'a>(
    alloc: Global,
    renditions: &[Rendition<'a>],
    kind: Kind,
) -> Result<Texts<'a>, NoMemory>
    ensures { IfOk result (λ groups. SameTexts groups (groups_in kind (map rendition_seen renditions.now))) }
{
    let mut groups = Texts::new(alloc);
    for rendition in renditions {
        if same_kind(kind, rendition.kind) {
            groups.add(rendition.group)?;
        }
    }
    Ok(groups)
}

fn first_unknown(audio: &Texts<'_>, text: &Texts<'_>, variants: &[Variant<'_>]) -> Option<Place>
    ensures { result ≡ first_place (names_unknown_group audio.now text.now) (map variant_seen variants.now) }
{
    for variant in variants {
        if !(is_known(audio, variant.audio) && is_known(text, variant.subtitles)) {
            return Some(variant.place);
        }
    }
    None
}

fn is_known(groups: &Texts<'_>, group: Option<&str>) -> bool
    ensures { result ≡ is_known groups.now (text_seen group.entry) }
{
    match group {
        None => true,
        Some(group) => groups.has(group),
    }
}

/// The position of the first variant with audio and other media.
pub(crate) fn find_muxed(
    alloc: Global,
    renditions: &[Rendition<'_>],
    variants: &[Variant<'_>],
) -> Result<Option<Place>, NoMemory>
    ensures { IfOk result (λ place. place ≡ first_place
        (is_muxed (map (λ rendition. rendition.address) (map rendition_seen renditions.now))) (map variant_seen variants.now)) }
{
    let addresses = addresses_of(alloc, renditions)?;
    Ok(first_muxed(&addresses, variants))
}

fn addresses_of<'a>(alloc: Global, renditions: &'a [Rendition<'_>]) -> Result<Texts<'a>, NoMemory>
    ensures { IfOk result (λ addresses. SameTexts addresses (map (λ rendition. rendition.address) (map rendition_seen renditions.now))) }
{
    let mut addresses = Texts::new(alloc);
    for rendition in renditions {
        addresses.add(rendition.address.as_str())?;
    }
    Ok(addresses)
}

fn first_muxed(addresses: &Texts<'_>, variants: &[Variant<'_>]) -> Option<Place>
    ensures { result ≡ first_place (is_muxed addresses.now) (map variant_seen variants.now) }
{
    for variant in variants {
        if is_muxed(addresses, variant) {
            return Some(variant.place);
        }
    }
    None
}

/// Whether a variant, whose URL no rendition has, isn't audio only, names no audio group, and has an audio codec.
fn is_muxed(addresses: &Texts<'_>, variant: &Variant<'_>) -> bool
    ensures { result ≡ is_muxed addresses.now (variant_seen variant.now) }
{
    !addresses.has(variant.address.as_str())
        && !variant.is_audio()
        && variant.audio.is_none()
        && variant.has_code(Kind::Audio)
}
