// The kept elements, and their values.
ghost use Rattle.std.specs.Prelude.{◌≡◌, ◌&&◌, codes, not, option_map};
ghost use Rattle.mpd_tree.specs.Nodes.{element_of};
ghost use Rattle.mpd_profile.specs.Heads.{is_named, is_word, value_named};
ghost use Rattle.mpd_profile.specs.LeftOut.{is_representation_left_out, is_set_left_out};
ghost use Rattle.mpd_rules.specs.Typed.{kind_in};
ghost use Rattle.mpd_hints.specs.Tracks.{kind_over};

use bridge_io::Kind;
use mpd_profile::{is_representation_left_out, is_set_left_out, value_named};
use mpd_tree::Node;
use mpd_values::kind_of;

pub(crate) fn is_period(node: Node<'_>) -> bool
    ensures { result ≡ is_named (codes "Period") (element_of node.entry) }
{
    node.name() == "Period"
}

/// Whether a child of a Period is an AdaptationSet that is kept.
pub(crate) fn is_set(node: Node<'_>) -> bool
    ensures { result ≡ (is_named (codes "AdaptationSet") (element_of node.entry) && not (is_set_left_out (element_of node.entry))) }
{
    node.name() == "AdaptationSet" && !is_set_left_out(node)
}

/// Whether a child of an AdaptationSet with this media type is a Representation that is kept.
pub(crate) fn is_representation(media_type: Option<&str>, node: Node<'_>) -> bool
    ensures { result ≡ (is_named (codes "Representation") (element_of node.entry)
        && not (is_representation_left_out (option_map (λ text. text.now) media_type.entry) (element_of node.entry))) }
{
    node.name() == "Representation" && !is_representation_left_out(media_type, node)
}

/// The kind of an element's media type, and where it has none, the other one.
pub(crate) fn kind_or(node: Node<'_>, other: Option<Kind>) -> Option<Kind>
    ensures { result ≡ kind_in other (element_of node.entry) }
{
    match value_named(node, "mimeType") {
        Some(text) => kind_of(text),
        None => other,
    }
}

/// The kind of a kept Representation of a set of this kind.
pub(crate) fn kind_over(of_set: Option<Kind>, node: Node<'_>) -> Kind
    ensures { result ≡ kind_over of_set (element_of node.entry) }
{
    kind_or(node, of_set).unwrap_or(Kind::Video)
}

/// Whether an attribute has this value.
pub(crate) fn is_word(node: Node<'_>, name: &str, word: &str) -> bool
    ensures { result ≡ is_word word.now (value_named name.now (element_of node.entry).head) }
{
    match value_named(node, name) {
        Some(text) => text == word,
        None => false,
    }
}
