// A set of the names of one tag where there are many, so that a malicious tag doesn't take quadratic time.
ghost use Rattle.std.specs.Prelude.{◌≡◌, ◌≤◌, ◌++◌, ◌∷◌, [], ℕ, List, All, IfErr, IfOk, OnOk, length, not, false, slice_range};
ghost use Rattle.bridge_io.specs.Texts.{is_among};
ghost use Rattle.mpd_text.specs.Names.{HasNameWithin, name_in, names_in};
ghost use Rattle.mpd_tree.specs.declared.stop.Stop.TheVariants.{Memory};

use mpd_tree::{AttributeRow, Stop};
use std::alloc::Global;
use std::collections::BTreeSet;

/// Up to this many attributes are compared one by one.
pub(crate) const FEW: usize = 16;

#[derive(Drop)]
pub(crate) struct ManyNames<'a> {
    names: BTreeSet<&'a [u8]>,
}

impl<'a> ManyNames<'a> {
    ghost use Rattle.bridge_io.specs.Texts.{is_among};
    ghost use Rattle.mpd_text.specs.ManyNames.{HasNames, IsPrepared};
    ghost use Rattle.mpd_text.specs.Names.{names_in};

    pub(crate) fn new(alloc: Global) -> ManyNames<'a>
        ensures { HasNames result [] }
    {
        ManyNames {
            names: BTreeSet::new(alloc),
        }
    }

    /// Adds the names of attributes.
    pub(crate) fn add_all(&mut self, bytes: &'a [u8], rows: &[AttributeRow]) -> Result<(), Stop>
        requires { All (HasNameWithin (length bytes.now)) rows.now }
        ensures names { HasNames self.old [] → OnOk result (HasNames self.new (names_in bytes.now rows.now)) }
        ensures fault { IfErr result (λ fault. fault ≡ Memory) }
    {
        for row in rows {
            self.add(name_of(bytes, row))?;
        }
        Ok(())
    }

    /// Adds a name after those of many attributes, and returns whether one of these has it.
    #[cold]
    pub(crate) fn repeats(
        &mut self,
        bytes: &'a [u8],
        before: &[AttributeRow],
        name: &'a [u8],
    ) -> Result<bool, Stop>
        requires within { All (HasNameWithin (length bytes.now)) before.now }
        requires many { 16 ≤ length before.now }
        ensures read { IsPrepared self.old (names_in bytes.now before.now) → IfOk result (λ repeated.
            (repeated ≡ is_among name.now (names_in bytes.now before.now)) ×
            (repeated ≡ false → IsPrepared self.new (names_in bytes.now before.now ++ name.now ∷ []))) }
        ensures fault { IfErr result (λ fault. fault ≡ Memory) }
    {
        if before.len() == FEW {
            self.add_all(bytes, before)?;
        }
        Ok(!self.add(name)?)
    }

    /// Adds a name, and returns whether it is new.
    pub(crate) fn add(&mut self, name: &'a [u8]) -> Result<bool, Stop>
        ensures name { (names : List (List ℕ)) → HasNames self.old names →
            IfOk result (λ is_new. (is_new ≡ not (is_among name.now names)) × HasNames self.new (names ++ name.now ∷ [])) }
        ensures fault { IfErr result (λ fault. fault ≡ Memory) }
    {
        Ok(self.names.insert(name)?)
    }
}

/// The name of an attribute.
pub(crate) fn name_of<'a>(bytes: &'a [u8], row: &AttributeRow) -> &'a [u8]
    requires { HasNameWithin (length bytes.now) row.now }
    ensures { result.now ≡ name_in bytes.now row.now }
{
    &bytes[row.name.start()..row.name.end()]
}

/// Whether one of these attributes has that name.
pub(crate) fn is_name_of_any(bytes: &[u8], rows: &[AttributeRow], name: &[u8]) -> bool
    requires { All (HasNameWithin (length bytes.now)) rows.now }
    ensures { result ≡ is_among name.now (names_in bytes.now rows.now) }
{
    for row in rows {
        if name == name_of(bytes, row) {
            return true;
        }
    }
    false
}
