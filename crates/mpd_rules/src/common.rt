// What Representations inherit from their AdaptationSet.
ghost use Rattle.std.specs.Prelude.{◌≡◌, IfOk};
ghost use Rattle.mpd_tree.specs.Nodes.{element_of};
ghost use Rattle.mpd_rules.specs.Fits.{FitsCommon, FitsTrack};
ghost use Rattle.mpd_rules.specs.Typed as spec;

use crate::frame_rate::{FrameRate, rate_over};
use crate::readings::{base_reference, frame_rate, number, text};
use crate::rows::Description;
use bridge_io::{Kind, NoMemory, Sequence, Size, Text};
use mpd_levels::{SharedText, share_text};
use mpd_profile::value_named;
use mpd_tree::Node;
use mpd_values::kind_of;
use std::alloc::Global;

/// What Representations inherit from their AdaptationSet (ISO/IEC 23009-1, 5.3.7.1).
#[derive(Drop)]
pub(crate) struct Common {
    /// Its index among the Period's kept AdaptationSets.
    pub(crate) place: usize,
    pub(crate) kind: Option<Kind>,
    pub(crate) language: Option<SharedText>,
    pub(crate) codecs: Option<SharedText>,
    pub(crate) width: Option<u32>,
    pub(crate) height: Option<u32>,
    pub(crate) frame_rate: Option<FrameRate>,
    /// The first BaseURL of each level that has one, from the MPD down to the AdaptationSet.
    pub(crate) bases: Sequence<SharedText>,
}

impl Common {
    pub(crate) fn of(
        alloc: Global,
        set: Node<'_>,
        place: usize,
        above: &Sequence<SharedText>,
    ) -> Result<Common, NoMemory>
        requires { FitsCommon (element_of set).head }
        ensures { IfOk result (λ common. common ≡ spec.common_of place above.now (element_of set.entry)) }
    {
        let language = text(alloc, set, "lang")?;
        let codecs = text(alloc, set, "codecs")?;
        let bases = bases_below(alloc, above, set)?;
        Ok(Common {
            place,
            kind: kind_or(set, None),
            language,
            codecs,
            width: number(set, "width"),
            height: number(set, "height"),
            frame_rate: frame_rate(set),
            bases,
        })
    }

    /// The values of a Representation, merged with its AdaptationSet.
    pub(crate) fn describe(
        &self,
        alloc: Global,
        representation: Node<'_>,
    ) -> Result<Description, NoMemory>
        requires { FitsTrack (element_of representation) }
        ensures { IfOk result (λ description. description ≡ spec.description_in self.now (element_of representation.entry)) }
    {
        let id = Text::copy_of(alloc, value_named(representation, "id").unwrap_or(""))?;
        let language = share_text(&self.language)?;
        let codecs = self.codecs_over(alloc, representation)?;
        let bases = bases_below(alloc, &self.bases, representation)?;
        Ok(Description {
            kind: kind_or(representation, self.kind).unwrap_or(Kind::Video),
            set: self.place,
            id,
            bandwidth: number(representation, "bandwidth").unwrap_or(0),
            language,
            codecs,
            size: self.size_over(representation),
            frame_rate: rate_over(frame_rate(representation), &self.frame_rate),
            bases,
            place: representation.place(),
        })
    }

    fn codecs_over(
        &self,
        alloc: Global,
        representation: Node<'_>,
    ) -> Result<Option<SharedText>, NoMemory>
        ensures { IfOk result (λ codecs. codecs ≡ spec.codecs_in self.now (element_of representation.entry)) }
    {
        match text(alloc, representation, "codecs")? {
            Some(codecs) => Ok(Some(codecs)),
            None => share_text(&self.codecs),
        }
    }

    fn size_over(&self, representation: Node<'_>) -> Option<Size>
        requires { FitsCommon (element_of representation).head }
        ensures { result ≡ spec.size_in self.now (element_of representation.entry) }
    {
        let width = number(representation, "width").or(self.width)?;
        let height = number(representation, "height").or(self.height)?;
        Some(Size { width, height })
    }
}

/// The kind of an element's media type, and where it has none, the other one.
fn kind_or(node: Node<'_>, other: Option<Kind>) -> Option<Kind>
    ensures { result ≡ spec.kind_in other (element_of node.entry) }
{
    match value_named(node, "mimeType") {
        Some(text) => kind_of(text),
        None => other,
    }
}

/// The base references of an element: those above it, followed by its first BaseURL.
pub(crate) fn bases_below(
    alloc: Global,
    above: &Sequence<SharedText>,
    node: Node<'_>,
) -> Result<Sequence<SharedText>, NoMemory>
    ensures { IfOk result (λ bases. bases ≡ spec.bases_below above.now (element_of node.entry)) }
{
    let mut bases = share_all(alloc, above.as_slice())?;
    if let Some(reference) = base_reference(node) {
        bases.push(SharedText::copy_of(alloc, reference)?)?;
    }
    Ok(bases)
}

/// The same texts again.
fn share_all(alloc: Global, texts: &[SharedText]) -> Result<Sequence<SharedText>, NoMemory>
    ensures { IfOk result (λ shared. shared ≡ texts.now) }
{
    let mut shared = Sequence::new(alloc);
    for text in texts {
        shared.push(text.share()?)?;
    }
    Ok(shared)
}
