// The result so far while a text is read: its rows, and what differs from the source once read.
ghost use Rattle.std.specs.Prelude.{◌≡◌, ◌≤◌, ◌<◌, ◌-◌, ◌+◌, ◌++◌, ◌∷◌, ◌⊎◌, [], suc, All, List, length, vec_len, IfOk, IfErr, OnOk};
ghost use Rattle.std.specs.Prelude.{IsUtf8};
ghost use Rattle.std.specs.String.{string_bytes};
ghost use Rattle.bridge_io.specs.Answer.{Gives};
ghost use Rattle.mpd_text.specs.Rests.{IsBehind};
ghost use Rattle.mpd_tree.specs.Rows.{HasAttributesWithin, IsAttributeKept, IsElementKept};
ghost use Rattle.mpd_tree.specs.declared.stop.Stop.TheVariants.{Memory};
ghost use Rattle.mpd_tree.specs.Grammar as spec;
ghost use Rattle.mpd_tree.specs.Positions.{place_before};
ghost use Rattle.mpd_tree.specs.Reading.{fault_in};
ghost use Rattle.mpd_tree.specs.Runs as runs;

use crate::marked::Marked;
use crate::text::{add_text, plain_of};
use mpd_tree::{AttributeRow, ElementRow, ElementTable, KeptSpan, Rows, Stop, count, syntax};
use std::alloc::Global;

#[derive(Drop)]
pub(crate) struct Kept<'a> {
    pub(crate) alloc: Global,
    pub(crate) source: &'a str,
    pub(crate) marked: Marked,
    pub(crate) elements: ElementTable,
    pub(crate) attributes: Vec<AttributeRow>,
    pub(crate) read: String,
    /// Texts that were stored already, whose buffers are reused.
    spare: Vec<String>,
    ghost utf8: { ∥ IsUtf8 source.now ∥₁ },
    ghost elements_kept: { All (IsElementKept source.now (source.now ++ string_bytes read)) elements },
    ghost attributes_kept: { All (IsAttributeKept source.now (source.now ++ string_bytes read)) attributes.items },
    ghost attributes_within: { All (HasAttributesWithin (vec_len attributes)) elements },
}

impl<'a> Kept<'a> {
    ghost use Rattle.mpd_tree.specs.Forests.{Shown};
    ghost use Rattle.mpd_text.specs.Keeping.{Adds, Grows, ShowsRoot, attributes_from, attributes_in, head_at, kept_of, shown_in};
    ghost use Rattle.mpd_tree.specs.Nodes.{root_in};
    ghost use Rattle.mpd_tree.specs.Roots.{HasOneRoot};
    ghost use Rattle.mpd_tree.specs.Rows.{IsKept};
    ghost use Rattle.mpd_tree.specs.Trees.{Attribute, Element};
    ghost use Rattle.mpd_tree.specs.Views.{bytes_of};

    #[tactic(auto, unfolding(crate::specs::Keeping::shown_in, crate::specs::Keeping::attributes_in))]
    pub(crate) fn new(alloc: Global, source: &'a str) -> Kept<'a>
        ensures source { result.source.now ≡ source.now }
        ensures elements { shown_in result ≡ [] }
    {
        Kept {
            alloc,
            source,
            marked: Marked::new(),
            elements: ElementTable::new(alloc),
            attributes: Vec::new(alloc),
            read: String::new(alloc),
            spare: Vec::new(alloc),
        }
    }

    /// An empty text.
    pub(crate) fn new_text(&mut self) -> String
        ensures text { string_bytes result ≡ [] }
        ensures adds { Adds [] self.old self.new }
    {
        let mut text = self.spare.pop().unwrap_or(String::new(self.alloc));
        text.clear();
        text
    }

    /// How many attributes were read.
    #[tactic(auto, using(crate::proofs::KeptRows::lengths), unfolding(crate::specs::Keeping::attributes_in))]
    pub(crate) fn attribute_count(&self) -> usize
        ensures { result ≡ length (attributes_in self.now) }
    {
        self.attributes.len()
    }

    /// The span of the source from where `bytes` begin to where `rest` begins.
    pub(crate) fn span(&self, bytes: &[u8], rest: &[u8]) -> Result<KeptSpan, Stop>
        requires bytes { length bytes.now ≤ length self.now.source.now }
        requires rest { length rest.now ≤ length bytes.now }
        ensures span { IfOk result (λ span. (span.start ≡ length self.now.source.now - length bytes.now)
            × (span.end ≡ length self.now.source.now - length rest.now)) }
        ensures fault { IfErr result (λ e. e ≡ Memory) }
    {
        let len = self.source.len();
        KeptSpan::between(len - bytes.len(), len - rest.len())
    }

    fn end(&self) -> usize
        ensures { result ≡ length (kept_of self.now) }
    {
        self.source.len() + self.read.len()
    }

    /// Reads the leading value, up to that quote, and returns the bytes after the quote. A value that is equal to its
    /// source is stored as a span of the source.
    pub(crate) fn value_of(
        &mut self,
        quote: u8,
        bytes: &'a [u8],
    ) -> Result<(KeptSpan, &'a [u8]), Stop>
        requires quote { (quote ≡ 34) ⊎ (quote ≡ 39) }
        requires rest { IsBehind self.old.source.now bytes.now }
        ensures read { Gives (λ x. (bytes_of (kept_of self.new) x.0, x.1.now)) fault_in result (spec.value quote bytes.now).read }
        ensures kept { IfOk result (λ x. IsKept self.new.source.now (kept_of self.new) x.0) }
        ensures adds { OnOk result (Adds [] self.old self.new) }
        ensures rest { IfOk result (λ x. IsBehind self.old.source.now x.1.now) }
    {
        let (_, marked) = plain_of(self.marked.in_value(quote), bytes);
        match marked {
            [first, after @ ..] if *first == quote => {
                let span = self.span(bytes, marked)?;
                Ok((span, after))
            }
            _ => self.read_value(quote, bytes),
        }
    }

    #[tactic(auto, unfolding(mpd_tree::specs::Grammar::value))]
    #[cold]
    fn read_value(&mut self, quote: u8, bytes: &'a [u8]) -> Result<(KeptSpan, &'a [u8]), Stop>
        requires quote { (quote ≡ 34) ⊎ (quote ≡ 39) }
        requires rest { IsBehind self.old.source.now bytes.now }
        ensures read { Gives (λ x. (bytes_of (kept_of self.new) x.0, x.1.now)) fault_in result (spec.value quote bytes.now).read }
        ensures kept { IfOk result (λ x. IsKept self.new.source.now (kept_of self.new) x.0) }
        ensures adds { OnOk result (Adds [] self.old self.new) }
        ensures rest { IfOk result (λ x. IsBehind self.old.source.now x.1.now) }
    {
        let mut text = self.new_text();
        let rest = add_text(
            self.source,
            quote,
            self.marked.in_value(quote),
            bytes,
            &mut text,
        )?;
        let span = self.keep_text(text)?;
        match rest {
            [_, after @ ..] => Ok((span, after)),
            [] => Err(syntax(rest)),
        }
    }

    /// Stores a text.
    fn keep(&mut self, text: &str) -> Result<KeptSpan, Stop>
        ensures text { IfOk result (λ span. bytes_of (kept_of self.new) span ≡ text.now) }
        ensures kept { IfOk result (λ span. IsKept self.new.source.now (kept_of self.new) span) }
        ensures adds { OnOk result (Adds [] self.old self.new) }
        ensures fault { IfErr result (λ e. e ≡ Memory) }
    {
        if text.is_empty() {
            return Ok(KeptSpan::NOTHING);
        }
        let start = self.end();
        self.read.push_str(text)?;
        let span = KeptSpan::between(start, self.end())?;
        Ok(span)
    }

    /// Stores a text, and keeps its buffer for reuse.
    pub(crate) fn keep_text(&mut self, text: String) -> Result<KeptSpan, Stop>
        ensures text { IfOk result (λ span. bytes_of (kept_of self.new) span ≡ string_bytes text) }
        ensures kept { IfOk result (λ span. IsKept self.new.source.now (kept_of self.new) span) }
        ensures adds { OnOk result (Adds [] self.old self.new) }
        ensures fault { IfErr result (λ e. e ≡ Memory) }
    {
        let span = self.keep(text.as_str())?;
        self.spare.push(text)?;
        Ok(span)
    }

    /// Adds an attribute. Its name is the bytes up to the rest.
    #[inline(always)]
    pub(crate) fn add_attribute(
        &mut self,
        bytes: &[u8],
        rest: &[u8],
        value: KeptSpan,
    ) -> Result<(), Stop>
        requires bytes { IsBehind self.old.source.now bytes.now }
        requires rest { rest.now ≡ (runs.name_at bytes.now).1 }
        requires value { IsKept self.old.source.now (kept_of self.old) value }
        ensures adds { OnOk result (Adds (record {
          name = (runs.name_at bytes.now).0;
          value = bytes_of (kept_of self.old) value;
          place = place_before self.old.source.now (length bytes.now);
        } ∷ []) self.old self.new) }
        ensures fault { IfErr result (λ e. e ≡ Memory) }
    {
        let name = self.span(bytes, rest)?;
        self.attributes.push(AttributeRow { name, value })?;
        Ok(())
    }

    /// Adds an element without content, and returns its row. Its name is the bytes up to the rest, and its attributes are
    /// those from `attributes` on.
    #[tactic(auto, unfolding(crate::specs::Keeping::attributes_in))]
    pub(crate) fn add_element(
        &mut self,
        bytes: &[u8],
        rest: &[u8],
        attributes: usize,
    ) -> Result<usize, Stop>
        requires bytes { IsBehind self.old.source.now bytes.now }
        requires rest { rest.now ≡ (runs.name_at bytes.now).1 }
        requires attributes { attributes ≤ length (attributes_in self.old) }
        ensures row { IfOk result (λ row. row ≡ length (shown_in self.old)) }
        ensures grows { OnOk result (Grows (record {
          head = head_at self.old.source.now (length bytes.now + 1) bytes.now (attributes_from self.old attributes);
          next = suc (length (shown_in self.old));
        } ∷ []) self.old self.new) }
        ensures attributes { OnOk result (attributes_in self.new ≡ attributes_in self.old) }
        ensures fault { IfErr result (λ e. e ≡ Memory) }
    {
        let name = self.span(bytes, rest)?;
        let row = self.elements.len();
        let first = count(attributes)?;
        let end = count(self.attributes.len())?;
        let next = count(row + 1)?;
        self.elements.push(ElementRow {
            name,
            text: KeptSpan::NOTHING,
            attributes: first,
            attributes_end: end,
            next,
        })?;
        Ok(row)
    }

    /// Ends the element in that row: all elements after it are inside it, and `text` is its character data.
    pub(crate) fn end_element(&mut self, row: usize, text: KeptSpan) -> Result<(), Stop>
        requires row { row < length (shown_in self.old) }
        requires text { IsKept self.old.source.now (kept_of self.old) text }
        ensures same { self.new.source.now ≡ self.old.source.now }
        ensures ended { OnOk result ((before inner : List Shown) (s : Shown) → shown_in self.old ≡ before ++ s ∷ inner → length before ≡ row
            → shown_in self.new ≡ before ++ record {
              head = record s.head { text = bytes_of (kept_of self.old) text };
              next = length (shown_in self.old);
            } ∷ inner) }
        ensures fault { IfErr result (λ e. e ≡ Memory) }
    {
        let next = count(self.elements.len())?;
        let element = self.elements.get(row);
        self.elements.set(
            row,
            ElementRow {
                name: element.name,
                text,
                attributes: element.attributes,
                attributes_end: element.attributes_end,
                next,
            },
        )?;
        Ok(())
    }

    /// The rows of a text that was read to its end.
    pub(crate) fn finish(self) -> Rows
        requires { (root : Element) × ShowsRoot self root }
        ensures root { (root : Element) → ShowsRoot self.entry root → root_in self.entry.source.now result ≡ root }
        ensures has_one_root { HasOneRoot self.entry.source.now (string_bytes result.read) result.elements result.attributes.items }
        ensures elements_kept { All (IsElementKept self.entry.source.now (self.entry.source.now ++ string_bytes result.read))
            result.elements }
        ensures attributes_kept { All (IsAttributeKept self.entry.source.now (self.entry.source.now ++ string_bytes result.read))
            result.attributes.items }
    {
        Rows {
            read: self.read,
            elements: self.elements,
            attributes: self.attributes,
        }
    }
}
