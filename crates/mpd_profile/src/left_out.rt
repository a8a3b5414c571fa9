// What is dropped.
ghost use Rattle.std.specs.Prelude.{◌≡◌, option_map};
ghost use Rattle.std.specs.List.{list_all};
ghost use Rattle.mpd_tree.specs.Nodes.{element_of};
ghost use Rattle.mpd_tree.specs.Views.{side_by_side};
ghost use Rattle.mpd_profile.specs.LeftOut as spec;

use crate::heads::{has_child, value_named};
use crate::listed::Listed;
use mpd_tree::Node;
use mpd_values::kind_of;

/// A property without whose support an element can't be played (ISO/IEC 23009-1, 5.8.4.8).
pub(crate) const ESSENTIAL: &str = "EssentialProperty";

/// Whether an element is dropped, by its kind and the media type of its parent. Only AdaptationSets and
/// Representations are.
pub fn is_left_out(media_type: Option<&str>, listed: Option<Listed>, node: Node<'_>) -> bool
    ensures { result ≡ spec.is_left_out_by (option_map (λ text. text.now) media_type.entry) listed (element_of node.entry) }
{
    match listed {
        Some(Listed::AdaptationSet) => is_set_left_out(node),
        Some(Listed::Representation) => is_representation_left_out(media_type, node),
        _ => false,
    }
}

/// Whether an AdaptationSet is dropped: it has an EssentialProperty, or all its Representations are dropped.
#[tactic(auto, unfolding(crate::specs::LeftOut::is_set_left_out))]
pub fn is_set_left_out(set: Node<'_>) -> bool
    ensures { result ≡ spec.is_set_left_out (element_of set.entry) }
{
    has_child(set, ESSENTIAL) || has_none_kept(set)
}

/// Whether a Representation of an AdaptationSet with this media type is dropped: its effective media type isn't
/// supported, or it has an EssentialProperty.
#[tactic(auto, unfolding(crate::specs::LeftOut::is_representation_left_out))]
pub fn is_representation_left_out(media_type: Option<&str>, representation: Node<'_>) -> bool
    ensures { result ≡ spec.is_representation_left_out (option_map (λ text. text.now) media_type.entry) (element_of representation.entry) }
{
    let own = value_named(representation, "mimeType");
    has_child(representation, ESSENTIAL) || is_other_type(own.or(media_type))
}

fn has_none_kept(set: Node<'_>) -> bool
    ensures { result ≡ list_all (spec.is_none_kept (spec.type_of (element_of set.entry).head))
        (side_by_side (element_of set.entry).children) }
{
    let media_type = value_named(set, "mimeType");
    set.children().all(|child| is_none_kept(media_type, child))
}

/// Whether a child of an AdaptationSet isn't a Representation, or is dropped.
fn is_none_kept(media_type: Option<&str>, child: Node<'_>) -> bool
    ensures { result ≡ spec.is_none_kept (option_map (λ text. text.now) media_type.entry) (element_of child.entry) }
{
    child.name() != "Representation" || is_representation_left_out(media_type, child)
}

fn is_other_type(media_type: Option<&str>) -> bool
    ensures { result ≡ spec.is_other_type (option_map (λ text. text.now) media_type.entry) }
{
    match media_type {
        Some(text) => kind_of(text).is_none(),
        None => false,
    }
}
