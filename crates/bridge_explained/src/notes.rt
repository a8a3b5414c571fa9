// The lines that explain a report.
ghost use Rattle.std.specs.Prelude.{◌≡◌, ◌≤◌};

use crate::dropped::dropped_of;
use crate::heard::Heard;
use bridge_io::{Bytes, Name, NoMemory, Store, Text};
use bridge_report::content_of;
use explanations::{explanation, refused_file};
use std::alloc::Global;

/// The lines that explain what was refused, and what was dropped. Files are read again for them; what can't be read isn't shown.
pub(crate) fn notes_of<F: Store>(
    alloc: Global,
    heard: &Heard,
    words: &[Text],
    store: &mut F,
) -> Result<Text, NoMemory>
    ensures files { F.files store.new ≡ F.files store.old }
    ensures writes { F.write_faults store.new ≡ F.write_faults store.old }
    ensures reads { F.read_faults store.old ≤ F.read_faults store.new }
{
    let mut notes = String::new(alloc);
    for line in heard.refusals.as_slice() {
        let note = note_of(alloc, line.as_str(), store)?;
        notes.push_str(note.as_str())?;
    }
    if heard.dropped.is_some() {
        let note = dropped_of(alloc, words, store)?;
        notes.push_str(note.as_str())?;
    }
    Ok(Text::from(notes))
}

/// The lines that explain a refusal. An update's, which further lines may follow, has its own line before them.
fn note_of<F: Store>(alloc: Global, line: &str, store: &mut F) -> Result<Text, NoMemory>
    ensures files { F.files store.new ≡ F.files store.old }
    ensures writes { F.write_faults store.new ≡ F.write_faults store.old }
    ensures reads { F.read_faults store.old ≤ F.read_faults store.new }
{
    let source = match refused_file(line) {
        Some(file) => bytes_at(alloc, file, store),
        None => None,
    };
    let note = explanation(alloc, line, source.as_ref().map(|bytes| bytes.as_slice()))?;
    if line.starts_with("frame ") {
        let note = note.as_str();
        return Ok(Text::from(format!(in alloc; "  {line}:\n{note}")?));
    }
    Ok(note)
}

/// The bytes of a file, where it can be read.
pub(crate) fn bytes_at<F: Store>(alloc: Global, file: &str, store: &mut F) -> Option<Bytes>
    ensures files { F.files store.new ≡ F.files store.old }
    ensures writes { F.write_faults store.new ≡ F.write_faults store.old }
    ensures reads { F.read_faults store.old ≤ F.read_faults store.new }
{
    let name = Name::read(alloc, file).ok()?;
    content_of(alloc, store, &name).ok()
}
