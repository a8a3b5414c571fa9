// The groups and names of renditions.
ghost use Rattle.std.specs.Prelude.{◌≡◌, [], ◌∷◌, ◌++◌, not, IfOk, OnOk, List};
ghost use Rattle.hls_master.specs.Names.{number_of, is_named, NamesOf};
ghost use Rattle.hls_master.specs.Renditions.{RenditionValue};
ghost use Rattle.hls_master.specs.SeenTags.{rendition_seen};

use crate::Rendition;
use bridge_io::{Kind, NoMemory};
use std::alloc::Global;
use std::collections::BTreeSet;

/// The kinds, groups and names of renditions.
#[derive(Drop)]
pub(crate) struct Names<'a> {
    keys: BTreeSet<(u8, &'a str, &'a str)>,
}

impl<'a> Names<'a> {
    pub(crate) fn new(alloc: Global) -> Names<'a>
        ensures { NamesOf result [] }
    {
        Names {
            keys: BTreeSet::new(alloc),
        }
    }

    /// Adds the kind, group and name of a rendition, and returns whether they are new.
    pub(crate) fn add(&mut self, rendition: &Rendition<'a>) -> Result<bool, NoMemory>
        ensures fresh { IfOk result (λ fresh. fresh ≡ not (is_named self.old (rendition_seen rendition.now))) }
        ensures added { OnOk result ((before : List RenditionValue) → NamesOf self.old before
            → NamesOf self.new (before ++ rendition_seen rendition.now ∷ [])) }
    {
        let key = (number_of(rendition.kind), rendition.group, rendition.name);
        Ok(self.keys.insert(key)?)
    }
}

fn number_of(kind: Kind) -> u8
    ensures { result ≡ number_of kind }
{
    match kind {
        Kind::Video => 0,
        Kind::Audio => 1,
        Kind::Text => 2,
    }
}
