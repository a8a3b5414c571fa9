// Texts shared by several elements.
ghost use Rattle.std.specs.Prelude.{◌≡◌, IfOk};
ghost use Rattle.mpd_profile.specs.Heads.{or_else};

use bridge_io::{NoMemory, Text};
use std::alloc::Global;
use std::marker::Model;
use std::rc::Rc;

/// A text that is stored once for all that have it.
///
/// In a contract it is the text's bytes.
#[derive(Drop)]
pub struct SharedText {
    text: Rc<Text>,
}

impl Model for SharedText {
    ghost use Rattle.std.specs.Prelude.{ℕ, List};

    ghost Value = { List ℕ };

    ghost view = { λ t. t.text.value };
}

impl SharedText {
    /// A copy of a text, to be shared.
    pub fn copy_of(alloc: Global, text: &str) -> Result<SharedText, NoMemory>
        ensures { IfOk result (λ copy. copy ≡ text.now) }
    {
        let text = Rc::new(alloc, Text::copy_of(alloc, text)?)?;
        Ok(SharedText { text })
    }

    /// The same text again, without a copy.
    pub fn share(&self) -> Result<SharedText, NoMemory>
        ensures { IfOk result (λ shared. shared ≡ self.now) }
    {
        let text = self.text.clone()?;
        Ok(SharedText { text })
    }

    /// The text itself.
    pub fn as_str(&self) -> &str
        ensures { result.now ≡ self.now }
    {
        self.text.as_str()
    }
}

/// The same text again, where there is one.
pub fn share_text(text: &Option<SharedText>) -> Result<Option<SharedText>, NoMemory>
    ensures { IfOk result (λ shared. shared ≡ text.now) }
{
    match text {
        Some(text) => Ok(Some(text.share()?)),
        None => Ok(None),
    }
}

/// A text, or where there is none, the other one.
pub(crate) fn text_over(
    own: Option<SharedText>,
    higher: &Option<SharedText>,
) -> Result<Option<SharedText>, NoMemory>
    ensures { IfOk result (λ text. text ≡ or_else own higher.now) }
{
    match own {
        Some(text) => Ok(Some(text)),
        None => share_text(higher),
    }
}
