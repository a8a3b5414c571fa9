// Texts by number.
ghost use Rattle.std.specs.Prelude.{◌≡◌, ◌<◌, ◌++◌, ◌∷◌, [], false, length, map, option_map, IfOk, OnOk, OnErr};
ghost use Rattle.std.specs.Str.{bytes_eq};
ghost use Rattle.bridge_io.specs.Texts.{is_among};
ghost use Rattle.text_lists.specs.Lists.{texts_of, parts_of, parts_in};
ghost use Rattle.text_lists.specs.Numbers.{IsNumbered, IsOnce, Grows, AreBelow, text_by, texts_by};

use bridge_io::NoMemory;
use std::alloc::Global;
use std::collections::BTreeMap;

/// Texts, each once, by number: in the order in which they were added.
#[derive(Drop)]
pub(crate) struct TextTable<'a> {
    pub(crate) texts: Vec<&'a str>,
    pub(crate) numbers: BTreeMap<&'a str, usize>,
    ghost numbered: { IsNumbered numbers (texts_of texts.items) },
}

impl<'a> TextTable<'a> {
    pub(crate) fn new(alloc: Global) -> TextTable<'a>
        ensures { result.texts.items ≡ [] }
    {
        TextTable {
            texts: Vec::new(alloc),
            numbers: BTreeMap::new(alloc),
        }
    }

    pub(crate) fn as_slice(&self) -> &[&'a str]
        ensures texts { result.now ≡ self.now.texts.items }
        ensures once { IsOnce (texts_of result.now) }
    {
        self.texts.as_slice()
    }

    /// The numbers of the texts between the commas of a text, and none where there is no text.
    pub(crate) fn numbers_in(
        &mut self,
        alloc: Global,
        text: Option<&'a str>,
    ) -> Result<Vec<usize>, NoMemory>
        ensures grows { Grows (texts_of self.old.texts.items) (texts_of self.new.texts.items) }
        ensures numbers { IfOk result (λ numbers. texts_by (texts_of self.new.texts.items) numbers.items
            ≡ parts_in (option_map (λ text. text.now) text.entry)) }
        ensures below { IfOk result (λ numbers. AreBelow (texts_of self.new.texts.items) numbers.items) }
    {
        match text {
            Some(text) => self.numbers_of(alloc, text),
            None => Ok(Vec::new(alloc)),
        }
    }

    fn numbers_of(&mut self, alloc: Global, text: &'a str) -> Result<Vec<usize>, NoMemory>
        ensures grows { Grows (texts_of self.old.texts.items) (texts_of self.new.texts.items) }
        ensures numbers { IfOk result (λ numbers. texts_by (texts_of self.new.texts.items) numbers.items ≡ parts_of text.now) }
        ensures below { IfOk result (λ numbers. AreBelow (texts_of self.new.texts.items) numbers.items) }
    {
        let mut numbers = Vec::new(alloc);
        for part in text.split(',') {
            numbers.push(self.number_of(part)?)?;
        }
        Ok(numbers)
    }

    /// The number of a text, which is added where it is new.
    fn number_of(&mut self, text: &'a str) -> Result<usize, NoMemory>
        ensures grows { Grows (texts_of self.old.texts.items) (texts_of self.new.texts.items) }
        ensures below { IfOk result (λ number. number < length self.new.texts.items) }
        ensures number { IfOk result (λ number. text_by (texts_of self.new.texts.items) number ≡ text.now) }
    {
        match self.numbers.get(text) {
            Some(number) => Ok(*number),
            None => self.add(text),
        }
    }

    /// Adds a new text. An error leaves the texts as they were.
    fn add(&mut self, text: &'a str) -> Result<usize, NoMemory>
        requires { is_among text.now (texts_of self.old.texts.items) ≡ false }
        ensures ok { IfOk result (λ number. number ≡ length self.old.texts.items) }
        ensures added { OnOk result (self.new.texts.items ≡ self.old.texts.items ++ text.entry ∷ []) }
        ensures err { OnErr result (self.new.texts.items ≡ self.old.texts.items) }
    {
        let number = self.texts.len();
        self.texts.push(text)?;
        match self.numbers.insert(text, number) {
            Ok(_) => Ok(number),
            Err(_) => {
                self.texts.pop();
                Err(NoMemory)
            }
        }
    }
}
