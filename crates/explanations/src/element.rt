// The element or the attribute of an MPD at a place.

use bridge_io::NoMemory;
use mpd_profile::{Addressing, Listed};
use mpd_text::read_tree;
use mpd_tree::{Attr, Node, TextFault, Tree};
use std::alloc::Global;

/// The most bytes of a manifest.
const MOST_LEN: usize = 8_388_608;

/// The most elements from the root down.
const DEPTH: usize = 33;

/// An element with those above it, or an attribute of it.
#[derive(Drop)]
pub(crate) struct Found<'a> {
    /// The elements from below the root down to it.
    pub(crate) levels: Vec<Node<'a>>,
    /// The element itself.
    pub(crate) node: Node<'a>,
    /// The attribute, unless the place is that of the element.
    pub(crate) attribute: Option<Attr<'a>>,
}

impl<'a> Found<'a> {
    /// What is at a byte of the text; `None` where neither an element nor an attribute begins there.
    pub(crate) fn at(
        alloc: Global,
        tree: &'a Tree,
        at: u64,
    ) -> Result<Option<Found<'a>>, NoMemory> {
        let mut levels = Vec::new(alloc);
        let mut node = tree.root();
        for _ in 0..DEPTH {
            let Some(child) = child_around(node, at) else {
                break;
            };
            levels.push(child)?;
            node = child;
        }
        let attribute = node.attributes().find(|attr| attr.place().at == at);
        if attribute.is_none() && node.place().at != at {
            return Ok(None);
        }
        Ok(Some(Found {
            levels,
            node,
            attribute,
        }))
    }

    /// Which element of the profile it is, also of an MPD with SegmentBase.
    pub(crate) fn listed(&self) -> Option<Listed> {
        let mut listed = Listed::Mpd;
        for node in self.levels.as_slice() {
            listed = listed.child(node.name(), Addressing::Index)?;
        }
        Some(listed)
    }
}

/// The tree that an MPD's bytes spell, if they spell one.
pub(crate) fn tree_of(alloc: Global, bytes: &[u8]) -> Result<Option<Tree>, NoMemory> {
    if bytes.len() > MOST_LEN {
        return Ok(None);
    }
    match read_tree(alloc, bytes) {
        Ok(tree) => Ok(Some(tree)),
        Err(TextFault::Memory) => Err(NoMemory),
        Err(_) => Ok(None),
    }
}

/// The last child that begins at a byte or before it.
fn child_around(node: Node<'_>, at: u64) -> Option<Node<'_>> {
    let mut around = None;
    for child in node.children() {
        if child.place().at > at {
            break;
        }
        around = Some(child);
    }
    around
}
