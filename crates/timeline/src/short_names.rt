// Names without what takes no part in their URLs.
ghost use Rattle.std.specs.Prelude.{◌≡◌, ◌<◌, ◌^◌, ℕ, true, IfOk, string_bytes};
ghost use Rattle.template_ids.specs.Filled.{goes_on_in_path, name_of, rest_of};
ghost use Rattle.timeline.specs.Makers.{AreShortened, AreShortenedSlots, IsShortened, IsShortenedSlot};
ghost use Rattle.url_parts.specs.Addresses.{resolve};
ghost use Rattle.url_parts.specs.Alike.{IsInLineAs};

use bridge_io::{NoMemory, Text};
use std::alloc::Global;
use template_ids::{Filled, Slot};
use url_parts::Base;

/// Names without tabs and line ends.
pub fn in_line(alloc: Global, names: Filled) -> Result<Filled, NoMemory>
    ensures { IfOk result (λ line. (number time : ℕ) → IsInLineAs (name_of names number time) (name_of line number time)) }
{
    if !have_line_bytes(&names) {
        return Ok(names);
    }
    let line = shortened(alloc, &names, false)?;
    Ok(line)
}

fn have_line_bytes(names: &Filled) -> bool {
    url_parts::has_line_bytes(names.front.as_str())
        || names
            .slots
            .iter()
            .any(|slot| url_parts::has_line_bytes(slot.before.as_str()))
        || url_parts::has_line_bytes(names.last.as_str())
}

/// Names whose rests give the same URLs against the base, where the segments are left out that `..` takes back.
pub fn without_detours(alloc: Global, names: Filled, base: &Base) -> Result<Filled, NoMemory>
    requires { goes_on_in_path names ≡ true }
    ensures { IfOk result (λ short. (number time : ℕ) → number < 2 ^ 64 → time < 2 ^ 64
        → resolve base.now (rest_of short number time) ≡ resolve base.now (rest_of names number time)) }
{
    let _ = base.as_str(); // opens the value, for its invariant
    if !have_detours(&names) {
        return Ok(names);
    }
    let short = shortened(alloc, &names, true)?;
    if !short.goes_on_in_path() {
        return Ok(names);
    }
    Ok(short)
}

fn have_detours(names: &Filled) -> bool {
    names
        .slots
        .iter()
        .any(|slot| url_parts::has_detours(slot.before.as_str()))
        || url_parts::has_detours(names.last.as_str())
}

/// Names with shorter texts: without tabs and line ends, or in a path without the segments that `..` takes back.
fn shortened(alloc: Global, names: &Filled, in_path: bool) -> Result<Filled, NoMemory>
    ensures { IfOk result (AreShortened in_path names.now) }
{
    let front = shortened_text(alloc, names.front.as_str(), in_path)?;
    let slots = shortened_slots(alloc, &names.slots, in_path)?;
    let last = shortened_text(alloc, names.last.as_str(), in_path)?;
    Ok(Filled { front, slots, last })
}

fn shortened_slots(alloc: Global, slots: &[Slot], in_path: bool) -> Result<Vec<Slot>, NoMemory>
    ensures { IfOk result (λ short. AreShortenedSlots in_path slots.now short.items) }
{
    let mut short = Vec::with_capacity(alloc, slots.len())?;
    for slot in slots {
        short.push(shortened_slot(alloc, slot, in_path)?)?;
    }
    Ok(short)
}

fn shortened_slot(alloc: Global, slot: &Slot, in_path: bool) -> Result<Slot, NoMemory>
    ensures { IfOk result (IsShortenedSlot in_path slot.now) }
{
    let before = Text::from(shortened_text(alloc, slot.before.as_str(), in_path)?);
    Ok(Slot {
        before,
        counter: slot.counter,
        width: slot.width,
    })
}

/// A shorter text that stands for another one: as a part of a path, or as a part of any reference.
pub fn shortened_text(alloc: Global, text: &str, in_path: bool) -> Result<String, NoMemory>
    ensures { IfOk result (λ short. IsShortened in_path text.now (string_bytes short)) }
{
    if in_path {
        url_parts::without_detours(alloc, text)
    } else {
        url_parts::in_line(alloc, text)
    }
}
