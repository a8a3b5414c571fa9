// An attribute as callers see it.
ghost use Rattle.std.specs.Prelude.{◌≡◌, ◌≤◌, length};
ghost use Rattle.std.specs.String.{string_bytes};

use crate::tree::Tree;
use bridge_io::Place;

/// An attribute of an element.
#[derive(Clone, Copy)]
pub struct Attr<'a> {
    /// Its name, with its prefix.
    pub name: &'a str,
    /// Its value, normalized by XML 1.0 3.3.3: line ends, white space and references.
    pub value: &'a str,
    pub(crate) tree: &'a Tree,
    // Where its name begins in the source.
    pub(crate) at: usize,
    ghost within: { at ≤ length (string_bytes tree.now.source) },
}

impl Attr<'_> {
    ghost use Rattle.mpd_tree.specs.Views.{attribute_shown};

    /// The position of its name. Each call looks it up.
    pub fn place(&self) -> Place
        ensures { result ≡ (attribute_shown self.now).place }
    {
        self.tree.place_of(self.at)
    }
}
