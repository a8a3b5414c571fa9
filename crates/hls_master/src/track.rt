// The tracks of a master playlist.
ghost use Rattle.std.specs.Prelude.{◌≡◌, ◌++◌, map, filter, option_map, option_and_then, IfOk, OnOk};
ghost use Rattle.hls_master.specs.Codes.{selected};
ghost use Rattle.hls_master.specs.SeenTags.{rendition_seen, text_seen, variant_seen};
ghost use Rattle.hls_master.specs.SeenTracks.{mention_seen, track_seen};
ghost use Rattle.hls_master.specs.Tracks.{group_codecs, rendition_bandwidth, rendition_track, same_set, track_of, tracks_among};
ghost use Rattle.hls_master.specs.Tracks.{tracks_of_sets, variant_track};

use crate::codes::select_codes;
use crate::mention::{Mention, find_sets};
use crate::rendition::{Rendition, same_text};
use crate::variant::Variant;
use bridge_io::{Kind, NoMemory, Ratio, Sequence, Size, Text};
use std::alloc::Global;
use url_parts::Address;

/// A track of a master playlist.
#[derive(Drop)]
pub struct MasterTrack {
    /// Its kind.
    pub kind: Kind,
    /// The number of its set in the order of the tracks, from 0: all video tracks are one set; so are the renditions of
    /// the same kind, NAME and LANGUAGE, and the audio tracks that no EXT-X-MEDIA mentions.
    pub set: usize,
    /// The URL of its media playlist.
    pub address: Address,
    /// The LANGUAGE of a rendition (RFC 8216 4.3.4.1).
    pub language: Option<Text>,
    /// Its codecs, joined by `,` (RFC 6381).
    pub codecs: Option<Text>,
    /// Bits per second: the BANDWIDTH of a variant (RFC 8216 4.3.4.2); 128,000 for an audio rendition and 1,000 for a
    /// text rendition, for which a master playlist gives none.
    pub bandwidth: u64,
    /// The RESOLUTION of a variant, in pixels.
    pub size: Option<Size>,
    /// The FRAME-RATE of a variant, in frames per second, to thousandths.
    pub frame_rate: Option<Ratio>,
}

/// The tracks of a master playlist in order.
pub type MasterTracks = Sequence<MasterTrack>;

/// The tracks of first mentions, in order.
pub(crate) fn read_tracks(
    alloc: Global,
    variants: &[Variant<'_>],
    firsts: &[Mention<'_, '_>],
) -> Result<MasterTracks, NoMemory>
    ensures { IfOk result (λ tracks. map track_seen tracks ≡ tracks_among (map variant_seen variants.now) (map mention_seen firsts.now)) }
{
    let sets = find_sets(alloc, firsts)?;
    Ok(tracks_of_sets(alloc, variants, firsts, sets.as_slice())?)
}

fn tracks_of_sets(
    alloc: Global,
    variants: &[Variant<'_>],
    firsts: &[Mention<'_, '_>],
    sets: &[Mention<'_, '_>],
) -> Result<MasterTracks, NoMemory>
    ensures { IfOk result (λ tracks. map track_seen tracks ≡ tracks_of_sets (map variant_seen variants.now) (map mention_seen firsts.now) 0
        (map mention_seen sets.now)) }
{
    let mut tracks = MasterTracks::new(alloc);
    for (number, set) in sets.iter().enumerate() {
        add_set(alloc, &mut tracks, variants, firsts, number, *set)?;
    }
    Ok(tracks)
}

/// Adds the tracks of a set.
fn add_set(
    alloc: Global,
    tracks: &mut MasterTracks,
    variants: &[Variant<'_>],
    firsts: &[Mention<'_, '_>],
    number: usize,
    set: Mention<'_, '_>,
) -> Result<(), NoMemory>
    ensures { OnOk result (map track_seen tracks.new ≡ map track_seen tracks.old ++ map (track_of (map variant_seen variants.now) number)
        (filter (same_set (mention_seen set.entry)) (map mention_seen firsts.now))) }
{
    for mention in firsts {
        if set.has_set_of(*mention) {
            tracks.push(track_of(alloc, variants, *mention, number)?)?;
        }
    }
    Ok(())
}

fn track_of(
    alloc: Global,
    variants: &[Variant<'_>],
    mention: Mention<'_, '_>,
    set: usize,
) -> Result<MasterTrack, NoMemory>
    ensures { IfOk result (λ track. track_seen track ≡ track_of (map variant_seen variants.now) set (mention_seen mention.entry)) }
{
    match mention {
        Mention::Rendition(rendition) => rendition_track(alloc, variants, rendition, set),
        Mention::Variant(variant) => variant_track(alloc, variant, set),
    }
}

fn rendition_track(
    alloc: Global,
    variants: &[Variant<'_>],
    rendition: &Rendition<'_>,
    set: usize,
) -> Result<MasterTrack, NoMemory>
    ensures { IfOk result (λ track. track_seen track ≡ rendition_track (map variant_seen variants.now) set (rendition_seen rendition.now)) }
{
    let kind = rendition.kind;
    let codecs = find_codecs(variants, kind, rendition.group);
    Ok(MasterTrack {
        kind,
        set,
        address: rendition.address.copy(alloc)?,
        language: copy_of(alloc, rendition.language)?,
        codecs: select(alloc, kind, codecs)?,
        bandwidth: rendition_bandwidth(kind),
        size: None,
        frame_rate: None,
    })
}

fn variant_track(alloc: Global, variant: &Variant<'_>, set: usize) -> Result<MasterTrack, NoMemory>
    ensures { IfOk result (λ track. track_seen track ≡ variant_track set (variant_seen variant.now)) }
{
    let kind = variant.kind();
    Ok(MasterTrack {
        kind,
        set,
        address: variant.address.copy(alloc)?,
        language: None,
        codecs: select(alloc, kind, variant.shown.codecs)?,
        bandwidth: variant.bandwidth,
        size: variant.shown.size,
        frame_rate: variant.shown.frame_rate,
    })
}

fn rendition_bandwidth(kind: Kind) -> u64
    ensures { result ≡ rendition_bandwidth kind }
{
    match kind {
        Kind::Text => 1000,
        _ => 128_000,
    }
}

/// The CODECS of the first variant that names a group and has some.
fn find_codecs<'a>(variants: &[Variant<'a>], kind: Kind, group: &str) -> Option<&'a str>
    ensures { text_seen result ≡ group_codecs kind group.now (map variant_seen variants.now) }
{
    for variant in variants {
        if same_text(variant.group(kind), Some(group)) && variant.shown.codecs.is_some() {
            return variant.shown.codecs;
        }
    }
    None
}

fn select(alloc: Global, kind: Kind, codecs: Option<&str>) -> Result<Option<Text>, NoMemory>
    ensures { IfOk result (λ text. text ≡ option_and_then (selected kind) (text_seen codecs.entry)) }
{
    match codecs {
        None => Ok(None),
        Some(codes) => select_codes(alloc, kind, codes),
    }
}

fn copy_of(alloc: Global, text: Option<&str>) -> Result<Option<Text>, NoMemory>
    ensures { IfOk result (λ copy. copy ≡ text_seen text.entry) }
{
    match text {
        None => Ok(None),
        Some(text) => Ok(Some(Text::copy_of(alloc, text)?)),
    }
}
