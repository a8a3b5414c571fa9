// Elements of a tree, and iterators over their contents.
ghost use Rattle.std.specs.Prelude.{◌≡◌, ◌<◌, ◌≤◌, ◌++◌, All, Some, length, map, option_map, slice_get, vec_len};
ghost use Rattle.std.specs.String.{string_bytes};
ghost use Rattle.mpd_tree.specs.Rows.{HasAttributesWithin, IsAttributeKept, IsElementKept};

use crate::attr::Attr;
use crate::tree::{AttributeRow, ElementRow, Tree};
use bridge_io::Place;

/// An element of a tree.
#[derive(Clone, Copy)]
pub struct Node<'a> {
    tree: &'a Tree,
    // Its index in document order; the root is 0.
    index: usize,
    ghost within: { index < length tree.now.elements },
}

/// An iterator over the attributes of an element, in document order.
#[derive(Drop)]
pub struct AttrWalk<'a> {
    tree: &'a Tree,
    rest: &'a [AttributeRow],
    ghost kept: { All (IsAttributeKept (string_bytes tree.now.source) (string_bytes tree.now.source ++ string_bytes tree.now.read))
        rest.now },
}

/// An iterator over the children of an element, in document order.
#[derive(Drop)]
pub struct NodeWalk<'a> {
    tree: &'a Tree,
    at: usize,
    end: usize,
    ghost within: { end ≤ length tree.now.elements },
}

impl<'a> Node<'a> {
    ghost use Rattle.mpd_tree.specs.Nodes.{attribute_in, attributes_left, element_of, element_of_row, elements_left, kept_of};
    ghost use Rattle.mpd_tree.specs.Trees.{Attribute};
    ghost use Rattle.mpd_tree.specs.Views.{attribute_named, attribute_shown, side_by_side};

    pub(crate) fn at(tree: &'a Tree, index: usize) -> Node<'a>
        requires { index < length tree.now.elements }
        ensures tree { result.tree.now ≡ tree.now }
        ensures index { result.index ≡ index }
    {
        Node { tree, index }
    }

    /// Its name, with its prefix.
    pub fn name(&self) -> &'a str
        ensures { result.now ≡ (element_of self.now).head.name }
    {
        self.tree.text_of(self.row().name)
    }

    /// The position of its `<`.
    pub fn place(&self) -> Place
        ensures { result ≡ (element_of self.now).head.place }
    {
        self.tree.place_of(self.row().name.start() - 1)
    }

    /// The character data directly inside it, with line ends and references resolved.
    pub fn text(&self) -> &'a str
        ensures { result.now ≡ (element_of self.now).head.text }
    {
        self.tree.text_of(self.row().text)
    }

    fn row(&self) -> ElementRow
        ensures row { slice_get self.now.tree.now.elements self.now.index ≡ Some result }
        ensures shows { element_of self.now ≡ element_of_row self.now.tree.now self.now.index result }
        ensures after { self.now.index < result.next }
        ensures within { result.next ≤ length self.now.tree.now.elements }
        ensures kept { IsElementKept (string_bytes self.now.tree.now.source) (kept_of self.now.tree.now) result }
        ensures attributes { HasAttributesWithin (vec_len self.now.tree.now.attributes) result }
    {
        self.tree.elements.get(self.index)
    }

    fn attribute_rows(&self) -> &'a [AttributeRow]
        ensures shown { map (attribute_in self.now.tree.now) result.now ≡ (element_of self.now).head.attributes }
        ensures kept { All (IsAttributeKept (string_bytes self.now.tree.now.source)
            (string_bytes self.now.tree.now.source ++ string_bytes self.now.tree.now.read)) result.now }
    {
        let row = self.row();
        &self.tree.attributes[row.attributes as usize..row.attributes_end as usize]
    }

    /// The attribute of that name; `None` exactly where the tag has no such attribute.
    pub fn attribute(&self, name: &str) -> Option<Attr<'a>>
        ensures { option_map attribute_shown result ≡ attribute_named name.now (element_of self.now).head.attributes }
    {
        for row in self.attribute_rows() {
            if self.tree.text_of(row.name) == name {
                return Some(self.tree.attr(row));
            }
        }
        None
    }

    /// Its attributes, in document order.
    pub fn attributes(&self) -> AttrWalk<'a>
        ensures { attributes_left result ≡ (element_of self.now).head.attributes }
    {
        AttrWalk {
            tree: self.tree,
            rest: self.attribute_rows(),
        }
    }

    /// The elements directly inside it, in document order.
    pub fn children(&self) -> NodeWalk<'a>
        ensures { elements_left result ≡ side_by_side (element_of self.now).children }
    {
        let end = self.row().next as usize;
        NodeWalk {
            tree: self.tree,
            at: self.index + 1,
            end,
        }
    }
}

impl<'a> Iterator for AttrWalk<'a> {
    ghost use Rattle.std.specs.Iterator.{YieldsFirstBy, item_count};
    ghost use Rattle.mpd_tree.specs.Nodes.{attributes_left};
    ghost use Rattle.mpd_tree.specs.Views.{attribute_shown};

    type Item = Attr<'a>;

    ghost next_gives = { YieldsFirstBy attribute_shown attributes_left };

    ghost remaining = { item_count attributes_left };

    fn next(&mut self) -> Option<Attr<'a>> {
        match self.rest {
            [first, rest @ ..] => {
                self.rest = rest;
                Some(self.tree.attr(first))
            }
            [] => None,
        }
    }
}

impl<'a> Iterator for NodeWalk<'a> {
    ghost use Rattle.std.specs.Iterator.{YieldsFirstBy, item_count};
    ghost use Rattle.mpd_tree.specs.Nodes.{element_of, elements_left};

    type Item = Node<'a>;

    ghost next_gives = { YieldsFirstBy element_of elements_left };

    ghost remaining = { item_count elements_left };

    #[tactic(auto, using(crate::proofs::ForestLemmas::forest_none))]
    fn next(&mut self) -> Option<Node<'a>> {
        if self.at >= self.end {
            return None;
        }
        let node = Node {
            tree: self.tree,
            index: self.at,
        };
        self.at = node.row().next as usize;
        Some(node)
    }
}
