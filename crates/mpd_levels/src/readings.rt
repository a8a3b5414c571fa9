// Values of attributes.
ghost use Rattle.std.specs.Prelude.{◌≡◌, IfOk, option_and_then, option_map};
ghost use Rattle.mpd_tree.specs.Nodes.{element_of};
ghost use Rattle.mpd_profile.specs.Heads.{value_named};
ghost use Rattle.mpd_levels.specs.Fits.{number_within};
ghost use Rattle.mpd_levels.specs.Readings as spec;
ghost use Rattle.mpd_values.specs.Numbers.{number_between};

use crate::shared_text::SharedText;
use bridge_io::NoMemory;
use mpd_profile::value_named;
use mpd_tree::Node;
use mpd_values::{Blank, read_number, trimmed};
use std::alloc::Global;
use url_parts::{Range, read_range};

/// A number, at least `least` and below `bound`.
pub(crate) fn number(node: Node<'_>, name: &str, least: u64, bound: u64) -> Option<u64>
    ensures { result ≡ number_within least bound name.now (element_of node.entry).head }
{
    number_in(value_named(node, name), least, bound)
}

/// The same of a text.
pub(crate) fn number_in(text: Option<&str>, least: u64, bound: u64) -> Option<u64>
    ensures { result ≡ option_and_then (number_between least bound) (option_map (λ text. text.now) text.entry) }
{
    read_number(text?, least, bound)
}

pub(crate) fn range(node: Node<'_>, name: &str) -> Option<Range>
    ensures { result ≡ spec.range_named name.now (element_of node.entry).head }
{
    read_range(trimmed(value_named(node, name)?, Blank::Space))
}

pub(crate) fn text(
    alloc: Global,
    node: Node<'_>,
    name: &str,
) -> Result<Option<SharedText>, NoMemory>
    ensures { IfOk result (λ text. text ≡ value_named name.now (element_of node.entry).head) }
{
    match value_named(node, name) {
        Some(text) => Ok(Some(SharedText::copy_of(alloc, text)?)),
        None => Ok(None),
    }
}

/// The first child of that name.
pub(crate) fn child_named<'a>(node: Node<'a>, name: &str) -> Option<Node<'a>>
    ensures { option_map element_of result ≡ spec.child_named name.now (element_of node.entry) }
{
    node.children().find(|child| child.name() == name)
}

/// How many children have that name.
pub(crate) fn count_named(node: Node<'_>, name: &str) -> usize {
    let mut count: usize = 0;
    for child in node.children() {
        if child.name() == name {
            count = count.saturating_add(1);
        }
    }
    count
}
