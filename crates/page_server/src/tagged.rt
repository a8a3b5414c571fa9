// Texts that are sent, with their ETags.
ghost use Rattle.std.specs.Prelude.{◌≡◌, IfOk};
ghost use Rattle.http_header.specs.FieldValue.{plain_value};
ghost use Rattle.page_server.specs.Tags.{tag_of};

use crate::known::tag_of;
use bridge_io::NoMemory;
use bytes::Bytes;
use http::HeaderValue;
use std::alloc::Global;
use std::marker::Model;

/// A text with its ETag. In a contract it is the text.
#[derive(Drop)]
pub struct Tagged {
    text: Bytes,
    tag: HeaderValue,
}

impl Model for Tagged {
    ghost use Rattle.std.specs.Prelude.{◌≡◌, ℕ, List};
    ghost use Rattle.http_header.specs.FieldValue.{plain_value};
    ghost use Rattle.page_server.specs.Tags.{tag_of};

    ghost Value = { List ℕ };

    ghost view = { λ t. t.text };

    ghost invariant = { λ t. t.tag ≡ plain_value (tag_of t.text) };
}

impl Tagged {
    /// A copy of a text, with its ETag.
    pub fn of(alloc: Global, text: &[u8]) -> Result<Tagged, NoMemory>
        ensures { IfOk result (λ tagged. tagged ≡ text.now) }
    {
        let tag = tag_of(alloc, text)?;
        let text = Bytes::copy_from_slice(alloc, text)?;
        Ok(Tagged { text, tag })
    }

    /// The same text again. Its bytes aren't copied.
    pub fn share(&self) -> Result<Tagged, NoMemory>
        ensures { IfOk result (λ tagged. tagged ≡ self.now) }
    {
        Ok(Tagged {
            text: self.text.clone()?,
            tag: self.tag.clone()?,
        })
    }

    /// The text. Its bytes aren't copied.
    pub fn text(&self) -> Result<Bytes, NoMemory>
        ensures { IfOk result (λ text. text ≡ self.now) }
    {
        Ok(self.text.clone()?)
    }

    /// The ETag.
    pub fn tag(&self) -> Result<HeaderValue, NoMemory>
        ensures { IfOk result (λ tag. tag ≡ plain_value (tag_of self.now)) }
    {
        Ok(self.tag.clone()?)
    }
}
