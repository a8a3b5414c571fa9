// Lists of texts.
ghost use Rattle.std.specs.Prelude.{◌≡◌, ◌++◌, ◌∷◌, [], option_map, IfOk, OnOk};
ghost use Rattle.text_lists.specs.Lists.{texts_of, parts_in, merged};

use crate::found::Found;
use crate::table::TextTable;
use bridge_io::NoMemory;
use std::alloc::Global;
use std::marker::Model;

/// Lists of texts by index. A text in many lists is compared with the others only when it is added.
#[derive(Drop)]
pub struct TextLists<'a> {
    alloc: Global,
    table: TextTable<'a>,
    lists: Vec<Vec<usize>>,
}

impl<'a> Model for TextLists<'a> {
    ghost use Rattle.std.specs.Prelude.{ℕ, List, map, All};
    ghost use Rattle.text_lists.specs.Lists.{texts_of};
    ghost use Rattle.text_lists.specs.Numbers.{AreBelow, texts_by};

    ghost Value = { List (List (List ℕ)) };

    ghost view = { λ l. map (λ numbers. texts_by (texts_of l.table.texts.items) numbers.items) l.lists.items };

    ghost invariant = { λ l. All (λ numbers. AreBelow (texts_of l.table.texts.items) numbers.items) l.lists.items };
}

impl<'a> TextLists<'a> {
    /// No lists. It allocates nothing.
    pub fn new(alloc: Global) -> TextLists<'a>
        ensures { result ≡ [] }
    {
        TextLists {
            alloc,
            table: TextTable::new(alloc),
            lists: Vec::new(alloc),
        }
    }

    /// Adds the list of the texts between the commas of a text, and an empty list where there is no text.
    pub fn add(&mut self, text: Option<&'a str>) -> Result<(), NoMemory>
        ensures { OnOk result (self.new ≡ self.old ++ parts_in (option_map (λ text. text.now) text.entry) ∷ []) }
    {
        let numbers = self.table.numbers_in(self.alloc, text)?;
        self.lists.push(numbers)?;
        Ok(())
    }

    /// The texts of the lists at some indices, each once, in order. An index without a list is ignored.
    pub fn merged(&self, places: &[usize]) -> Result<Vec<&'a str>, NoMemory>
        ensures { IfOk result (λ found. texts_of found.items ≡ merged self.now places.now) }
    {
        let texts = self.table.as_slice();
        let mut found = Found::none_of(self.alloc, texts)?;
        found.add_lists(texts, &self.lists, places)?;
        Ok(found.texts)
    }
}
