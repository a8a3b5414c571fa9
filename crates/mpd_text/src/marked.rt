// The bytes that end plain text.
ghost use Rattle.std.specs.Prelude.{◌≡◌, ◌⊎◌, IsTrue};
ghost use Rattle.byte_scan.specs.ByteSet.{all_ascii};
ghost use Rattle.mpd_tree.specs.Marked.{marked_in_content, marked_in_value};

use byte_scan::ByteSet;

/// The bytes that end plain text: in content, in values between `"`, and in values between `'`.
#[derive(Drop)]
pub(crate) struct Marked {
    pub(crate) content: ByteSet,
    double: ByteSet,
    single: ByteSet,
    ghost content_is: { content ≡ marked_in_content },
    ghost double_is: { double ≡ marked_in_value 34 },
    ghost single_is: { single ≡ marked_in_value 39 },
}

impl Marked {
    pub(crate) fn new() -> Marked {
        Marked {
            content: ByteSet::new(*b"<&\r<<<<<"),
            double: ByteSet::new(*b"\"<&\t\n\r\"\""),
            single: ByteSet::new(*b"'<&\t\n\r''"),
        }
    }

    /// Those of a value between these quotes.
    pub(crate) fn in_value(&self, quote: u8) -> &ByteSet
        ensures ascii { IsTrue (all_ascii result.now) }
        ensures marked { (quote ≡ 34) ⊎ (quote ≡ 39) → result.now ≡ marked_in_value quote }
    {
        if quote == b'"' {
            &self.double
        } else {
            &self.single
        }
    }
}
