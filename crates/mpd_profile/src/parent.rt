// The parents of elements.
ghost use Rattle.std.specs.Prelude.{◌≡◌, codes, option_map};
ghost use Rattle.mpd_tree.specs.Nodes.{element_of};
ghost use Rattle.mpd_profile.specs.Heads.{value_named};

use crate::heads::value_named;
use crate::listed::Listed;
use mpd_tree::Node;

/// An element that is read, as the parent of others. What its children may inherit from it is looked up once.
#[derive(Clone, Copy)]
pub(crate) struct Parent<'a> {
    pub(crate) listed: Listed,
    pub(crate) node: Node<'a>,
    pub(crate) dynamic: bool,
    pub(crate) media_type: Option<&'a str>,
    pub(crate) codecs: Option<&'a str>,
    ghost has_media_type: { option_map (λ text. text.now) media_type ≡ value_named (codes "mimeType") (element_of node).head },
    ghost has_codecs: { option_map (λ text. text.now) codecs ≡ value_named (codes "codecs") (element_of node).head },
}

impl<'a> Parent<'a> {
    pub(crate) fn of(listed: Listed, node: Node<'a>, dynamic: bool) -> Parent<'a>
        ensures listed { result.listed ≡ listed }
        ensures node { element_of result.node ≡ element_of node.entry }
        ensures dynamic { result.dynamic ≡ dynamic }
    {
        Parent {
            listed,
            node,
            dynamic,
            media_type: value_named(node, "mimeType"),
            codecs: value_named(node, "codecs"),
        }
    }
}
