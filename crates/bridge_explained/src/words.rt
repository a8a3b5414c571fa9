// Whether a command line asks for explanations.
ghost use Rattle.std.specs.Prelude.{◌≡◌, IfOk};
ghost use Rattle.bridge_explained.specs.Words as spec;

use bridge_io::{NoMemory, Sequence, Text};
use std::alloc::Global;

/// The option that asks for explanations.
const EXPLAIN: &str = "--explain";

/// The place of the first `--explain` among the words before `--`, if there is one.
pub(crate) fn explain_place(words: &[Text]) -> Option<usize>
    ensures { result ≡ spec.explain_place 0 words.now }
{
    for (place, word) in words.iter().enumerate() {
        if word.as_str() == "--" {
            return None;
        }
        if word.as_str() == EXPLAIN {
            return Some(place);
        }
    }
    None
}

/// The words without the one at a place.
pub(crate) fn words_without(
    alloc: Global,
    words: &[Text],
    place: usize,
) -> Result<Sequence<Text>, NoMemory>
    ensures { IfOk result (λ rest. rest ≡ spec.without place 0 words.now) }
{
    let mut rest = Sequence::new(alloc);
    for (index, word) in words.iter().enumerate() {
        if index != place {
            rest.push(Text::copy_of(alloc, word.as_str())?)?;
        }
    }
    Ok(rest)
}
