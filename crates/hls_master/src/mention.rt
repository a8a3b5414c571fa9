// Lines that mention URLs.
ghost use Rattle.std.specs.Prelude.{◌≡◌, [], ◌++◌, map, filter, option_map, IfOk, OnOk};
ghost use Rattle.std.specs.List.{list_any};
ghost use Rattle.hls_master.specs.SeenTags.{rendition_seen, variant_seen};
ghost use Rattle.hls_master.specs.SeenTracks.{mention_seen};
ghost use Rattle.hls_master.specs.Tracks.{address_of, by_kind, by_rendition, by_variant, few, firsts_behind, has_kind, kind_of, same_set};
ghost use Rattle.hls_master.specs.Tracks.{sets_behind};

use crate::rendition::{Rendition, same_kind};
use crate::texts::Texts;
use crate::variant::Variant;
use bridge_io::{Kind, NoMemory};
use std::alloc::Global;
use url_parts::Address;

/// A line that mentions a URL.
#[derive(Clone, Copy)]
pub(crate) enum Mention<'m, 'a> {
    Rendition(&'m Rendition<'a>),
    Variant(&'m Variant<'a>),
}

/// The most tracks that a master has.
const MAX_TRACKS: usize = 200;

impl<'m, 'a> Mention<'m, 'a> {
    fn address(self) -> &'m Address
        ensures { result.now ≡ address_of (mention_seen self.entry) }
    {
        match self {
            Mention::Rendition(rendition) => &rendition.address,
            Mention::Variant(variant) => &variant.address,
        }
    }

    fn kind(self) -> Kind
        ensures { result ≡ kind_of (mention_seen self.entry) }
    {
        match self {
            Mention::Rendition(rendition) => rendition.kind,
            Mention::Variant(variant) => variant.kind(),
        }
    }

    /// Whether both are of the same set.
    pub(crate) fn has_set_of(self, other: Mention<'_, '_>) -> bool
        ensures { result ≡ same_set (mention_seen self.entry) (mention_seen other.entry) }
    {
        match (self, other) {
            (Mention::Rendition(one), Mention::Rendition(other)) => one.has_set_of(other),
            (Mention::Variant(one), Mention::Variant(other)) => {
                same_kind(one.kind(), other.kind())
            }
            _ => false,
        }
    }
}

/// Renditions, then variants.
pub(crate) fn mentions_of<'m, 'a>(
    alloc: Global,
    renditions: &'m [Rendition<'a>],
    variants: &'m [Variant<'a>],
) -> Result<Vec<Mention<'m, 'a>>, NoMemory>
    ensures { IfOk result (λ all. map mention_seen all.items ≡ map by_rendition (map rendition_seen renditions.now)
        ++ map by_variant (map variant_seen variants.now)) }
{
    let mut mentions = Vec::with_capacity(alloc, renditions.len() + variants.len())?;
    for rendition in renditions {
        mentions.push(Mention::Rendition(rendition))?;
    }
    for variant in variants {
        mentions.push(Mention::Variant(variant))?;
    }
    Ok(mentions)
}

/// The first mention of each URL; `None` where there are more than 200.
pub(crate) fn find_firsts<'m, 'a>(
    alloc: Global,
    mentions: &[Mention<'m, 'a>],
) -> Result<Option<Vec<Mention<'m, 'a>>>, NoMemory>
    ensures { IfOk result (λ found. option_map (λ firsts. map mention_seen firsts.items) found
        ≡ few (firsts_behind [] (map mention_seen mentions.now))) }
{
    let mut firsts = Vec::new(alloc);
    let mut addresses = Texts::new(alloc);
    for mention in mentions {
        if addresses.add(mention.address().as_str())? {
            if firsts.len() == MAX_TRACKS {
                return Ok(None);
            }
            firsts.push(*mention)?;
        }
    }
    Ok(Some(firsts))
}

/// The first mention of each set, by kind: video, audio, text.
pub(crate) fn find_sets<'m, 'a>(
    alloc: Global,
    firsts: &[Mention<'m, 'a>],
) -> Result<Vec<Mention<'m, 'a>>, NoMemory>
    ensures { IfOk result (λ sets. map mention_seen sets.items ≡ sets_behind [] (by_kind (map mention_seen firsts.now))) }
{
    let mut ordered = Vec::new(alloc);
    add_kind(&mut ordered, firsts, Kind::Video)?;
    add_kind(&mut ordered, firsts, Kind::Audio)?;
    add_kind(&mut ordered, firsts, Kind::Text)?;
    first_of_sets(alloc, ordered.as_slice())
}

/// Adds the mentions of a kind.
fn add_kind<'m, 'a>(
    ordered: &mut Vec<Mention<'m, 'a>>,
    firsts: &[Mention<'m, 'a>],
    kind: Kind,
) -> Result<(), NoMemory>
    ensures { OnOk result (map mention_seen ordered.new.items ≡ map mention_seen ordered.old.items
        ++ filter (has_kind kind) (map mention_seen firsts.now)) }
{
    for mention in firsts {
        if same_kind(kind, mention.kind()) {
            ordered.push(*mention)?;
        }
    }
    Ok(())
}

fn first_of_sets<'m, 'a>(
    alloc: Global,
    ordered: &[Mention<'m, 'a>],
) -> Result<Vec<Mention<'m, 'a>>, NoMemory>
    ensures { IfOk result (λ sets. map mention_seen sets.items ≡ sets_behind [] (map mention_seen ordered.now)) }
{
    let mut sets = Vec::new(alloc);
    for mention in ordered {
        if !has_set(sets.as_slice(), *mention) {
            sets.push(*mention)?;
        }
    }
    Ok(sets)
}

fn has_set(sets: &[Mention<'_, '_>], mention: Mention<'_, '_>) -> bool
    ensures { result ≡ list_any (same_set (mention_seen mention.entry)) (map mention_seen sets.now) }
{
    for set in sets {
        if mention.has_set_of(*set) {
            return true;
        }
    }
    false
}
