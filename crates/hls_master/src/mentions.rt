// What the lines of a master playlist mention.
ghost use Rattle.std.specs.Prelude.{◌≡◌, [], ◌∷◌, ◌++◌, Some, OnOk};
ghost use Rattle.bridge_io.specs.Answer.{Gives};
ghost use Rattle.hls_master.specs.Entries.{entries_of, known_lines};
ghost use Rattle.hls_master.specs.Faults.{answer, refusal};
ghost use Rattle.hls_master.specs.Mentions.{entry_fault, mentions_behind, reading, nothing, with_rendition, with_variant};
ghost use Rattle.hls_master.specs.Names.{NamesOf};
ghost use Rattle.hls_master.specs.Renditions.{same_name};
ghost use Rattle.hls_master.specs.Seen.{entry_seen};
ghost use Rattle.hls_master.specs.SeenMentions.{mentions_seen};
ghost use Rattle.hls_master.specs.SeenTags.{rendition_seen, variant_seen};

use crate::names::Names;
use crate::{Entry, MasterFault, Rendition, Variant, next_entry, read_rendition, read_variant};
use bridge_io::Place;
use hls_lines::Lines;
use std::alloc::Global;
use url_parts::Base;

/// The renditions and the variants of a master playlist, each in the order of the lines.
#[derive(Drop)]
pub(crate) struct Mentions<'a> {
    pub(crate) renditions: Vec<Rendition<'a>>,
    pub(crate) variants: Vec<Variant<'a>>,
}

/// The renditions and variants of lines, or the first fault of a line.
pub(crate) fn read_mentions<'a>(
    alloc: Global,
    base: &Base,
    mut lines: Lines<'a>,
) -> Result<Mentions<'a>, MasterFault>
    ensures { Gives mentions_seen refusal result (reading base.now nothing (entries_of (known_lines lines.entry))) }
{
    let mut mentions = Mentions::new(alloc);
    let mut names = Names::new(alloc);
    while let Some(entry) = next_entry(&mut lines) {
        mentions.add(alloc, base, &mut names, entry)?;
    }
    Ok(mentions)
}

impl<'a> Mentions<'a> {
    fn new(alloc: Global) -> Mentions<'a>
        ensures { mentions_seen result ≡ nothing }
    {
        Mentions {
            renditions: Vec::new(alloc),
            variants: Vec::new(alloc),
        }
    }

    /// Adds what an entry mentions, or returns its first fault. The names are those of the renditions.
    fn add(
        &mut self,
        alloc: Global,
        base: &Base,
        names: &mut Names<'a>,
        entry: Entry<'a>,
    ) -> Result<(), MasterFault>
        requires { NamesOf names.old (mentions_seen self.old).renditions }
        ensures added { Gives (λ _. mentions_seen self.new) refusal result
            (answer (entry_fault base.now (mentions_seen self.old).renditions (entry_seen entry.entry))
            (mentions_behind base.now (mentions_seen self.old) (entry_seen entry.entry ∷ []))) }
        ensures named { OnOk result (NamesOf names.new (mentions_seen self.new).renditions) }
    {
        match entry {
            Entry::Rendition { rest, place } => match read_rendition(alloc, base, rest, place)? {
                None => Ok(()),
                Some(rendition) => self.add_rendition(names, rendition, place),
            },
            Entry::Variant {
                rest,
                place,
                uri,
                uri_place,
            } => self.add_variant(read_variant(alloc, base, rest, place, uri, uri_place)?),
            Entry::Stray(fault) => Err(fault),
        }
    }

    fn add_rendition(
        &mut self,
        names: &mut Names<'a>,
        rendition: Rendition<'a>,
        place: Place,
    ) -> Result<(), MasterFault>
        requires { NamesOf names.old (mentions_seen self.old).renditions }
        ensures added { Gives (λ _. mentions_seen self.new) refusal result
            (answer (same_name (mentions_seen self.old).renditions place (Some (rendition_seen rendition.entry)))
            (with_rendition (mentions_seen self.old) (rendition_seen rendition.entry))) }
        ensures named { OnOk result (NamesOf names.new (mentions_seen self.new).renditions) }
    {
        if !names.add(&rendition)? {
            return Err(MasterFault::SameName(place));
        }
        self.renditions.push(rendition)?;
        Ok(())
    }

    fn add_variant(&mut self, variant: Variant<'a>) -> Result<(), MasterFault>
        ensures { Gives (λ _. mentions_seen self.new) refusal result
            (Ok (with_variant (mentions_seen self.old) (variant_seen variant.entry))) }
    {
        self.variants.push(variant)?;
        Ok(())
    }
}
