// Sets of texts in the order in which they were found.
ghost use Rattle.std.specs.Prelude.{◌≡◌, ◌<◌, [], All, length, map, OnOk, IfOk};
ghost use Rattle.text_lists.specs.Lists.{texts_of, with_text, with_texts, merged_from};
ghost use Rattle.text_lists.specs.Numbers.{IsMarked, IsOnce, AreBelow, numbers_at, text_by, texts_by};

use bridge_io::NoMemory;
use std::alloc::Global;

/// Texts with numbers in the order in which they were found, each once.
#[derive(Drop)]
pub(crate) struct Found<'a> {
    pub(crate) texts: Vec<&'a str>,
    /// Whether the text of a number was found.
    pub(crate) seen: Vec<bool>,
}

impl<'a> Found<'a> {
    /// The empty set of numbered texts.
    pub(crate) fn none_of(alloc: Global, texts: &[&'a str]) -> Result<Found<'a>, NoMemory>
        ensures none { IfOk result (λ found. found.texts.items ≡ []) }
        ensures marked { IfOk result (λ found. IsMarked (texts_of texts.now) found.seen.items (texts_of found.texts.items)) }
    {
        Ok(Found {
            texts: Vec::new(alloc),
            seen: vec![in alloc; false; texts.len()]?,
        })
    }

    /// Adds the texts of the lists at some indices.
    pub(crate) fn add_lists(
        &mut self,
        texts: &[&'a str],
        lists: &[Vec<usize>],
        places: &[usize],
    ) -> Result<(), NoMemory>
        requires once { IsOnce (texts_of texts.now) }
        requires below { All (λ numbers. AreBelow (texts_of texts.now) numbers.items) lists.now }
        requires marked { IsMarked (texts_of texts.now) self.old.seen.items (texts_of self.old.texts.items) }
        ensures { let all = map (λ numbers. texts_by (texts_of texts.now) numbers.items) lists.now in
            OnOk result (texts_of self.new.texts.items ≡ merged_from all (texts_of self.old.texts.items) places.now) }
    {
        for place in places {
            self.add_all(texts, numbers_at(lists, *place))?;
        }
        Ok(())
    }

    /// Adds the texts with some numbers.
    fn add_all(&mut self, texts: &[&'a str], numbers: &[usize]) -> Result<(), NoMemory>
        requires once { IsOnce (texts_of texts.now) }
        requires below { AreBelow (texts_of texts.now) numbers.now }
        requires marked { IsMarked (texts_of texts.now) self.old.seen.items (texts_of self.old.texts.items) }
        ensures found { OnOk result (texts_of self.new.texts.items ≡ with_texts (texts_of self.old.texts.items)
            (texts_by (texts_of texts.now) numbers.now)) }
        ensures marked { OnOk result (IsMarked (texts_of texts.now) self.new.seen.items (texts_of self.new.texts.items)) }
    {
        for number in numbers {
            self.add(texts, *number)?;
        }
        Ok(())
    }

    fn add(&mut self, texts: &[&'a str], number: usize) -> Result<(), NoMemory>
        requires once { IsOnce (texts_of texts.now) }
        requires below { number < length texts.now }
        requires marked { IsMarked (texts_of texts.now) self.old.seen.items (texts_of self.old.texts.items) }
        ensures found { OnOk result (texts_of self.new.texts.items ≡ with_text (texts_of self.old.texts.items)
            (text_by (texts_of texts.now) number)) }
        ensures marked { OnOk result (IsMarked (texts_of texts.now) self.new.seen.items (texts_of self.new.texts.items)) }
    {
        if self.seen[number] {
            return Ok(());
        }
        self.texts.push(texts[number])?;
        self.seen[number] = true;
        Ok(())
    }
}

/// The numbers of the list at an index, and none where there is no list.
fn numbers_at(lists: &[Vec<usize>], place: usize) -> &[usize]
    ensures { result.now ≡ numbers_at (λ numbers. numbers.items) lists.now place }
{
    match lists.get(place) {
        Some(numbers) => numbers.as_slice(),
        None => &[],
    }
}
