// Laws of the definitions.
ghost use Rattle.std.specs.Prelude.{◌≢◌, ℕ, List, Err};
ghost use Rattle.mpd_tree.specs.Escapes.{IsReadBack};
ghost use Rattle.mpd_tree.specs.Meaning.{IsOneReading, reading_of};
ghost use Rattle.mpd_tree.specs.declared.fault.TextFault.TheVariants.{Memory};

/// Either exactly one tree spells the bytes, and they have no fault, or none does, and they have exactly one fault;
/// `reading_of` is this tree or this fault.
pub fn one_reading()
    ensures { (bytes : List ℕ) → IsOneReading bytes (reading_of bytes) }
{}

/// No text has the fault `Memory`.
pub fn no_memory()
    ensures { (bytes : List ℕ) → reading_of bytes ≢ Err Memory }
{}

/// An escaped text without characters below U+0020 reads back as the text, as a value in `"`.
pub fn reads_back()
    ensures { (text : List ℕ) → IsReadBack text }
{}
