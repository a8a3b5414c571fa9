// The tree that a text spells, in document order.
ghost use Rattle.std.specs.Prelude.{◌≡◌, ◌≤◌, ◌/◌, ◌++◌, All, length, vec_len};
ghost use Rattle.std.specs.String.{string_bytes};
ghost use Rattle.mpd_tree.specs.Lines.{AreCounted, block_size};
ghost use Rattle.mpd_tree.specs.Rows.{IsKept, IsElementKept, IsAttributeKept, HasAttributesWithin};
ghost use Rattle.mpd_tree.specs.Roots.{HasOneRoot};

use crate::TextFault;
use crate::attr::Attr;
use crate::element_table::ElementTable;
use crate::lines::LineCounts;
use crate::node::Node;
use crate::stop::Stop;
use bridge_io::Place;
use std::alloc::Global;

/// A span of the source, or, with offsets continuing from its end, of the text that differs from the source once
/// read.
#[derive(Clone, Copy)]
pub struct KeptSpan {
    /// Its first byte.
    pub start: u32,
    /// The byte after its last one.
    pub end: u32,
}

impl KeptSpan {
    ghost use Rattle.std.specs.Prelude.{IfErr, IfOk};
    ghost use Rattle.mpd_tree.specs.declared.stop.Stop.TheVariants.{Memory};

    /// The empty span.
    pub const NOTHING: KeptSpan = KeptSpan { start: 0, end: 0 };

    /// The span between two offsets. An error from 4 GiB on.
    pub fn between(start: usize, end: usize) -> Result<KeptSpan, Stop>
        ensures span { IfOk result (λ span. (span.start ≡ start) × (span.end ≡ end)) }
        ensures fault { IfErr result (λ e. e ≡ Memory) }
    {
        match (u32::try_from(start), u32::try_from(end)) {
            (Ok(start), Ok(end)) => Ok(KeptSpan { start, end }),
            _ => Err(Stop::Memory),
        }
    }

    /// Its first byte.
    pub fn start(self) -> usize
        ensures { result ≡ self.start }
    {
        self.start as usize
    }

    /// The byte after its last one.
    pub fn end(self) -> usize
        ensures { result ≡ self.end }
    {
        self.end as usize
    }
}

/// An element: its attributes are those from `attributes` to `attributes_end`, and the elements inside it follow up
/// to `next`.
#[derive(Clone, Copy)]
pub struct ElementRow {
    /// Its name, in the start tag.
    pub name: KeptSpan,
    /// Its character data.
    pub text: KeptSpan,
    /// The number of its first attribute.
    pub attributes: u32,
    /// The number after that of its last attribute.
    pub attributes_end: u32,
    /// The number of the first element after it that isn't inside it.
    pub next: u32,
}

/// An attribute.
#[derive(Clone, Copy)]
pub struct AttributeRow {
    /// Its name.
    pub name: KeptSpan,
    /// Its value, normalized.
    pub value: KeptSpan,
}

/// The result of reading a text, without the text itself.
#[derive(Drop)]
pub struct Rows {
    /// What differs from the source once read: texts of elements, and values with references.
    pub read: String,
    /// The elements in document order.
    pub elements: ElementTable,
    /// The attributes in document order.
    pub attributes: Vec<AttributeRow>,
    pub ghost attributes_within: { All (HasAttributesWithin (vec_len attributes)) elements },
}

/// The elements of a text, from the root on.
#[derive(Drop)]
pub struct Tree {
    pub(crate) source: String,
    // As the rows have it.
    pub(crate) read: String,
    pub(crate) lines: LineCounts,
    pub(crate) elements: ElementTable,
    pub(crate) attributes: Vec<AttributeRow>,
    ghost counted: { AreCounted (string_bytes source) (length (string_bytes source) / block_size) lines.before.items },
    ghost elements_kept: { All (IsElementKept (string_bytes source) (string_bytes source ++ string_bytes read)) elements },
    ghost attributes_kept: { All (IsAttributeKept (string_bytes source) (string_bytes source ++ string_bytes read)) attributes.items },
    ghost attributes_within: { All (HasAttributesWithin (vec_len attributes)) elements },
    ghost has_one_root: { HasOneRoot (string_bytes source) (string_bytes read) elements attributes.items },
}

impl Tree {
    ghost use Rattle.bridge_io.specs.Places.{place_of};
    ghost use Rattle.std.specs.Prelude.{IfErr, IfOk};
    ghost use Rattle.mpd_tree.specs.Nodes.{attribute_in, element_of, kept_of, root_in, root_of};
    ghost use Rattle.mpd_tree.specs.declared.fault.TextFault.TheVariants.{Memory};
    ghost use Rattle.mpd_tree.specs.Views.{attribute_shown, bytes_of};

    /// The tree of a text, by the rows that were read from it.
    ///
    /// # Errors
    ///
    /// [`TextFault::Memory`] only.
    pub fn of_rows(alloc: Global, source: String, rows: Rows) -> Result<Tree, TextFault>
        requires elements_kept { All (IsElementKept (string_bytes source) (string_bytes source ++ string_bytes rows.read)) rows.elements }
        requires attributes_kept { All (IsAttributeKept (string_bytes source) (string_bytes source ++ string_bytes rows.read))
            rows.attributes.items }
        requires has_one_root { HasOneRoot (string_bytes source) (string_bytes rows.read) rows.elements rows.attributes.items }
        ensures root { IfOk result (λ tree. root_of tree ≡ root_in (string_bytes source) rows) }
        ensures fault { IfErr result (λ fault. fault ≡ Memory) }
    {
        let lines = LineCounts::new(alloc, source.as_bytes())?;
        let Rows {
            read,
            elements,
            attributes,
        } = rows;
        Ok(Tree {
            source,
            read,
            lines,
            elements,
            attributes,
        })
    }

    /// The root element.
    pub fn root(&self) -> Node<'_>
        ensures { element_of result ≡ root_of self.now }
    {
        Node::at(self, 0)
    }

    #[tactic(auto, using(crate::proofs::KeptLemmas::kept_texts))]
    pub(crate) fn text_of(&self, span: KeptSpan) -> &str
        requires { IsKept (string_bytes self.now.source) (kept_of self.now) span }
        ensures { result.now ≡ bytes_of (kept_of self.now) span }
    {
        let (start, end, len) = (span.start(), span.end(), self.source.len());
        if end <= len {
            &self.source.as_str()[start..end]
        } else {
            &self.read.as_str()[start - len..end - len]
        }
    }

    pub(crate) fn place_of(&self, at: usize) -> Place
        requires { at ≤ length (string_bytes self.now.source) }
        ensures { result ≡ place_of (string_bytes self.now.source) at }
    {
        self.lines.place_of(self.source.as_bytes(), at)
    }

    pub(crate) fn attr(&self, row: &AttributeRow) -> Attr<'_>
        requires { IsAttributeKept (string_bytes self.now.source) (kept_of self.now) row.now }
        ensures { attribute_shown result ≡ attribute_in self.now row.now }
    {
        Attr {
            name: self.text_of(row.name),
            value: self.text_of(row.value),
            tree: self,
            at: row.name.start(),
        }
    }
}
