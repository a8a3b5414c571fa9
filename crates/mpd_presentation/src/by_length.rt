// What is kept for texts, by their lengths.
use bridge_io::NoMemory;

/// What is kept for a text.
pub(crate) trait HasLength {
    /// The text's length in bytes.
    fn length(&self) -> usize;
}

/// Keeps what was made of a text, in place of what was kept for one whose length has as many binary digits.
///
/// A text that many Representations inherit only makes way for one of at least half its length, which stands between them in
/// the MPD. So what is made of texts more than once takes time by the MPD's bytes, and what is kept at most twice their
/// room.
pub(crate) fn keep<T: HasLength + Drop>(kept: &mut Vec<T>, new: T) -> Result<(), NoMemory> {
    let count = digits(new.length());
    match kept.iter().position(|old| digits(old.length()) == count) {
        Some(place) => replace(kept, place, new),
        None => kept.push(new)?,
    }
    Ok(())
}

fn replace<T: Drop>(kept: &mut Vec<T>, place: usize, new: T) {
    if let Some(old) = kept.get_mut(place) {
        *old = new;
    }
}

/// How many binary digits a number has.
fn digits(number: usize) -> u32 {
    usize::BITS - number.leading_zeros()
}
