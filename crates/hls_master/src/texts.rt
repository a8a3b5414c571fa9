// Sets of texts.
ghost use Rattle.std.specs.Prelude.{◌≡◌, [], ◌∷◌, not, IfOk, OnOk};
ghost use Rattle.std.specs.Bool.{OnFalse};

use bridge_io::NoMemory;
use std::alloc::Global;
use std::collections::BTreeSet;
use std::marker::Model;

/// A set of texts.
#[derive(Drop)]
pub(crate) struct Texts<'a> {
    texts: BTreeSet<&'a str>,
}

impl<'a> Model for Texts<'a> {
    ghost use Rattle.std.specs.Prelude.{ℕ, List, map};

    ghost Value = { List (List ℕ) };

    ghost view = { λ t. map (λ text. text.now) t.texts.keys };
}

impl<'a> Texts<'a> {
    ghost use Rattle.bridge_io.specs.Texts.{is_among};
    ghost use Rattle.hls_master.specs.Texts.{SameTexts};

    pub(crate) fn new(alloc: Global) -> Texts<'a>
        ensures { result ≡ [] }
    {
        Texts {
            texts: BTreeSet::new(alloc),
        }
    }

    /// Adds a text, and returns whether it is new.
    pub(crate) fn add(&mut self, text: &'a str) -> Result<bool, NoMemory>
        ensures fresh { IfOk result (λ fresh. fresh ≡ not (is_among text.now self.old)) }
        ensures kept { IfOk result (λ fresh. OnFalse fresh (self.new ≡ self.old)) }
        ensures added { OnOk result (SameTexts self.new (text.now ∷ self.old)) }
    {
        Ok(self.texts.insert(text)?)
    }

    /// Whether a text is a member.
    pub(crate) fn has(&self, text: &str) -> bool
        ensures { result ≡ is_among text.now self.now }
    {
        self.texts.contains(text)
    }
}
