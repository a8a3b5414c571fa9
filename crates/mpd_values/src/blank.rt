// What is dropped around a value.
ghost use Rattle.std.specs.Prelude.{◌≡◌};
ghost use Rattle.std.specs.List.{prefix_len, suffix_len};
ghost use Rattle.mpd_values.specs.Blanks as spec;

/// The characters that are dropped around a value.
#[derive(Clone, Copy)]
pub enum Blank {
    /// The space U+0020, around numbers, durations, timestamps, booleans, ranges and codecs.
    Space,
    /// The space, LF and CR, around the text of a BaseURL.
    SpaceOrLineEnd,
}

impl Blank {
    fn has(self, byte: u8) -> bool
        ensures { result ≡ spec.is_blank self byte }
    {
        match self {
            Blank::Space => byte == b' ',
            Blank::SpaceOrLineEnd => byte == b' ' || byte == b'\n' || byte == b'\r',
        }
    }
}

/// The text without the blanks around it.
#[tactic(auto, unfolding(crate::specs::Blanks::trimmed))]
pub fn trimmed(text: &str, blank: Blank) -> &str
    ensures { result.now ≡ spec.trimmed blank text.now }
{
    without_front(without_end(text, blank), blank)
}

fn without_front(text: &str, blank: Blank) -> &str
    ensures { result.now ≡ spec.without_front (spec.is_blank blank) text.now }
{
    &text[front_len(text, blank)..]
}

fn without_end(text: &str, blank: Blank) -> &str
    ensures { result.now ≡ spec.without_end (spec.is_blank blank) text.now }
{
    &text[..text.len() - end_len(text, blank)]
}

/// How many blanks the text begins with.
fn front_len(text: &str, blank: Blank) -> usize
    ensures { result ≡ prefix_len (spec.is_blank blank) text.now }
{
    text.as_bytes()
        .iter()
        .take_while(|byte| blank.has(**byte))
        .count()
}

/// How many blanks the text ends with.
fn end_len(text: &str, blank: Blank) -> usize
    ensures { result ≡ suffix_len (spec.is_blank blank) text.now }
{
    text.as_bytes()
        .iter()
        .rev()
        .take_while(|byte| blank.has(**byte))
        .count()
}
