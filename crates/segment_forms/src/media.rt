// The media text of a SegmentTemplate.
ghost use Rattle.std.specs.Prelude.{◌≡◌, ◌++◌, ◌<◌, ◌≤◌, decimal, string_bytes, OnOk};
ghost use Rattle.segment_forms.specs.Patterns.{IsPlaced};
ghost use Rattle.segment_forms.specs.Media.{doubled, media_text, number_identifier};

use crate::Pattern;
use bridge_io::NoMemory;

/// Appends the media text of a pattern.
pub fn push_media(text: &mut String, first: &str, pattern: Pattern) -> Result<(), NoMemory>
    requires { IsPlaced first.now pattern }
    ensures { OnOk result (string_bytes text.new ≡ string_bytes text.old ++ media_text first.now pattern) }
{
    push_literal(text, &first[..pattern.prefix_len])?;
    push_identifier(text, pattern.width)?;
    push_literal(text, &first[pattern.suffix_start..])
}

/// Appends a text as a template that names it, whatever the segment: each `$` is written twice (ISO/IEC 23009-1, 5.3.9.4.4).
pub fn push_literal(text: &mut String, part: &str) -> Result<(), NoMemory>
    ensures { OnOk result (string_bytes text.new ≡ string_bytes text.old ++ doubled part.now) }
{
    let mut rest = part;
    while let Some((front, back)) = rest.split_once('$') {
        text.push_str(front)?;
        text.push_str("$$")?;
        rest = back;
    }
    text.push_str(rest)?;
    Ok(())
}

/// Appends the identifier of a number that is padded to a width.
fn push_identifier(text: &mut String, width: u8) -> Result<(), NoMemory>
    requires { width ≤ 20 }
    ensures { OnOk result (string_bytes text.new ≡ string_bytes text.old ++ number_identifier width) }
{
    if width == 0 {
        text.push_str("$Number$")?;
        return Ok(());
    }
    text.push_str("$Number%0")?;
    push_width(text, width)?;
    text.push_str("d$")?;
    Ok(())
}

/// Appends a width in decimal.
fn push_width(text: &mut String, width: u8) -> Result<(), NoMemory>
    requires { width ≤ 20 }
    ensures { OnOk result (string_bytes text.new ≡ string_bytes text.old ++ decimal width) }
{
    if width < 10 {
        return push_digit(text, width);
    }
    push_digit(text, width / 10)?;
    push_digit(text, width % 10)?;
    Ok(())
}

fn push_digit(text: &mut String, digit: u8) -> Result<(), NoMemory>
    requires { digit < 10 }
    ensures { OnOk result (string_bytes text.new ≡ string_bytes text.old ++ decimal digit) }
{
    text.push(char::from(b'0' + digit))?;
    Ok(())
}
