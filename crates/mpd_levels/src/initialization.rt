// Initializations.
ghost use Rattle.std.specs.Prelude.{◌≡◌, IfOk};
ghost use Rattle.mpd_tree.specs.Nodes.{element_of};
ghost use Rattle.mpd_profile.specs.Heads.{or_else};
ghost use Rattle.mpd_levels.specs.Segments.{initialization_in, initialization_of};

use crate::readings::{child_named, range, text};
use crate::shared_text::{SharedText, share_text};
use bridge_io::NoMemory;
use mpd_tree::Node;
use std::alloc::Global;
use url_parts::Range;

/// An Initialization (ISO/IEC 23009-1, 5.3.9.2).
#[derive(Drop)]
pub(crate) struct Initialization {
    pub(crate) reference: Option<SharedText>,
    pub(crate) range: Option<Range>,
}

impl Initialization {
    pub(crate) fn of(alloc: Global, node: Node<'_>) -> Result<Initialization, NoMemory>
        ensures { IfOk result (λ i. i ≡ initialization_of (element_of node.entry)) }
    {
        let reference = text(alloc, node, "sourceURL")?;
        Ok(Initialization {
            reference,
            range: range(node, "range"),
        })
    }

    /// The same again.
    pub(crate) fn share(&self) -> Result<Initialization, NoMemory>
        ensures { IfOk result (λ i. i ≡ self.now) }
    {
        let reference = share_text(&self.reference)?;
        Ok(Initialization {
            reference,
            range: self.range,
        })
    }
}

/// That of an element, if it has one.
pub(crate) fn initialization_in(
    alloc: Global,
    node: Node<'_>,
) -> Result<Option<Initialization>, NoMemory>
    ensures { IfOk result (λ i. i ≡ initialization_in (element_of node.entry)) }
{
    match child_named(node, "Initialization") {
        Some(child) => Ok(Some(Initialization::of(alloc, child)?)),
        None => Ok(None),
    }
}

/// The same again, if there is one.
pub(crate) fn share_initialization(
    of: &Option<Initialization>,
) -> Result<Option<Initialization>, NoMemory>
    ensures { IfOk result (λ i. i ≡ of.now) }
{
    match of {
        Some(of) => Ok(Some(of.share()?)),
        None => Ok(None),
    }
}

/// An Initialization, or where there is none, the other one.
pub(crate) fn initialization_over(
    own: Option<Initialization>,
    higher: &Option<Initialization>,
) -> Result<Option<Initialization>, NoMemory>
    ensures { IfOk result (λ i. i ≡ or_else own higher.now) }
{
    match own {
        Some(own) => Ok(Some(own)),
        None => share_initialization(higher),
    }
}
