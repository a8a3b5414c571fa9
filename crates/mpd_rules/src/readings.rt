// Values of attributes.
ghost use Rattle.std.specs.Prelude.{◌≡◌, IfOk, option_map};
ghost use Rattle.mpd_tree.specs.Nodes.{element_of};
ghost use Rattle.mpd_profile.specs.Heads.{value_named};
ghost use Rattle.mpd_rules.specs.Readings as spec;

use crate::frame_rate::FrameRate;
use bridge_io::{NoMemory, Text};
use exact_time::Nanos;
use iso_time::{Instant, read_duration, read_instant};
use mpd_levels::SharedText;
use mpd_profile::value_named;
use mpd_tree::Node;
use mpd_values::{Blank, read_frame_rate, read_number, trimmed};
use std::alloc::Global;

/// A duration below 10^19 nanoseconds.
pub(crate) fn duration(node: Node<'_>, name: &str) -> Option<Nanos>
    ensures { result ≡ spec.duration_within_named name.now (element_of node.entry).head }
{
    read_duration(trimmed(value_named(node, name)?, Blank::Space)).ok()
}

pub(crate) fn instant(node: Node<'_>, name: &str) -> Option<Instant>
    ensures { result ≡ spec.instant_named name.now (element_of node.entry).head }
{
    read_instant(trimmed(value_named(node, name)?, Blank::Space)).ok()
}

/// A number below 2^32.
pub(crate) fn number(node: Node<'_>, name: &str) -> Option<u32>
    ensures { result ≡ spec.number_within_named name.now (element_of node.entry).head }
{
    u32::try_from(read_number(value_named(node, name)?, 0, 1 << 32)?).ok()
}

/// A frame rate of numbers below 2^32.
pub(crate) fn frame_rate(node: Node<'_>) -> Option<FrameRate>
    ensures { result ≡ spec.frame_rate_within_named (element_of node.entry).head }
{
    let rate = read_frame_rate(value_named(node, "frameRate")?)?;
    Some(FrameRate::of(rate))
}

/// A text, shared by those that inherit it.
pub(crate) fn text(
    alloc: Global,
    node: Node<'_>,
    name: &str,
) -> Result<Option<SharedText>, NoMemory>
    ensures { IfOk result (λ text. text ≡ value_named name.now (element_of node.entry).head) }
{
    match value_named(node, name) {
        Some(text) => Ok(Some(SharedText::copy_of(alloc, text)?)),
        None => Ok(None),
    }
}

/// The id of a Period.
pub(crate) fn id(alloc: Global, node: Node<'_>) -> Result<Option<Text>, NoMemory>
    ensures { IfOk result (λ id. id ≡ spec.id_of (element_of node.entry)) }
{
    match value_named(node, "id") {
        Some(text) => Ok(Some(Text::copy_of(alloc, text)?)),
        None => Ok(None),
    }
}

/// The text of an element's first BaseURL, spaces and line ends around it dropped.
pub(crate) fn base_reference(node: Node<'_>) -> Option<&str>
    ensures { option_map (λ text. text.now) result ≡ spec.base_reference (element_of node.entry) }
{
    let base = first_base(node)?;
    Some(trimmed(base.text(), Blank::SpaceOrLineEnd))
}

fn first_base(node: Node<'_>) -> Option<Node<'_>>
    ensures { option_map element_of result ≡ spec.base_in (element_of node.entry) }
{
    node.children().find(|child| child.name() == "BaseURL")
}
