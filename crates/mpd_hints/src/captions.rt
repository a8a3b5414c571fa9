// Closed captions in video streams.
ghost use Rattle.std.specs.Prelude.{◌≡◌};
ghost use Rattle.std.specs.List.{list_any};
ghost use Rattle.mpd_tree.specs.Nodes.{element_of};
ghost use Rattle.mpd_tree.specs.Views.{side_by_side};
ghost use Rattle.mpd_hints.specs.Captions as spec;

use crate::descriptors::has_scheme;
use crate::elements::{is_period, is_representation, is_set, kind_or, kind_over};
use bridge_io::Kind;
use mpd_profile::value_named;
use mpd_tree::Node;

/// Whether a video stream may contain closed captions.
pub(crate) fn has_captions(mpd: Node<'_>) -> bool
    ensures { result ≡ spec.has_captions (element_of mpd.entry) }
{
    for period in mpd.children() {
        if is_period(period) && has_captions_in(period) {
            return true;
        }
    }
    false
}

fn has_captions_in(period: Node<'_>) -> bool
    ensures { result ≡ spec.has_captions_in (element_of period.entry) }
{
    for set in period.children() {
        if is_set(set) && is_captioned(set) {
            return true;
        }
    }
    false
}

fn is_captioned(set: Node<'_>) -> bool
    ensures { result ≡ spec.is_captioned (element_of set.entry) }
{
    tells_captions(set) && has_video(set)
}

fn tells_captions(set: Node<'_>) -> bool
    ensures { result ≡ list_any spec.is_caption (side_by_side (element_of set.entry).children) }
{
    set.children().any(|child| is_caption(child))
}

fn is_caption(node: Node<'_>) -> bool
    ensures { result ≡ spec.is_caption (element_of node.entry) }
{
    node.name() == "Accessibility"
        && (has_scheme(node, "urn:scte:dash:cc:cea-608:2015")
            || has_scheme(node, "urn:scte:dash:cc:cea-708:2015"))
}

/// Whether a kept Representation of the set is video.
fn has_video(set: Node<'_>) -> bool
    ensures { result ≡ spec.has_video (element_of set.entry) }
{
    let media_type = value_named(set, "mimeType");
    let kind = kind_or(set, None);
    for child in set.children() {
        if is_representation(media_type, child) && kind_over(kind, child) == Kind::Video {
            return true;
        }
    }
    false
}
