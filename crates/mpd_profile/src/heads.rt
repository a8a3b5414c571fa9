// The attributes and children of elements.
ghost use Rattle.std.specs.Prelude.{◌≡◌, option_map};
ghost use Rattle.mpd_tree.specs.Nodes.{element_of};
ghost use Rattle.mpd_profile.specs.Heads as spec;

use mpd_tree::Node;

/// The value of the attribute of that name.
pub fn value_named<'a>(node: Node<'a>, name: &str) -> Option<&'a str>
    ensures { option_map (λ text. text.now) result ≡ spec.value_named name.now (element_of node.entry).head }
{
    Some(node.attribute(name)?.value)
}

/// Whether a name is shorter than all names of rejected elements and of elements that a parent may have only once, so
/// that it is none of them.
pub(crate) fn is_short(name: &str) -> bool
    ensures { result ≡ spec.is_short name.now }
{
    name.len() < 6
}

/// Whether some child has this name.
pub fn has_child(node: Node<'_>, name: &str) -> bool
    ensures { result ≡ spec.has_child name.now (element_of node.entry).children }
{
    node.children().any(|child| child.name() == name)
}

/// Whether an MPD is dynamic: exactly where its type is `dynamic`.
pub fn is_dynamic(mpd: Node<'_>) -> bool
    ensures { result ≡ spec.is_dynamic (element_of mpd.entry).head }
{
    match value_named(mpd, "type") {
        Some(text) => text == "dynamic",
        None => false,
    }
}
