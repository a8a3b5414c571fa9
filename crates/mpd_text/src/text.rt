// Values and character data, up to the byte that ends them.
ghost use Rattle.std.specs.Prelude.{◌≡◌, IfOk, IsTrue};
ghost use Rattle.std.specs.String.{string_bytes};
ghost use Rattle.bridge_io.specs.Answer.{Gives};
ghost use Rattle.byte_scan.specs.ByteSet.{all_ascii};
ghost use Rattle.mpd_tree.specs.Grammar as spec;
ghost use Rattle.mpd_tree.specs.Reading.{fault_in};
ghost use Rattle.mpd_tree.specs.Runs as runs;
ghost use Rattle.mpd_text.specs.Rests.{IsAt, IsBehind};

use crate::references::reference_of;
use byte_scan::{ByteSet, first_of_set};
use mpd_tree::{Stop, syntax};

/// The bytes before the first one that ends plain text, and the bytes from it on.
#[inline(always)]
pub(crate) fn plain_of<'a>(marks: &ByteSet, bytes: &'a [u8]) -> (&'a [u8], &'a [u8])
    ensures plain { result.0.now ≡ (runs.plain_at marks.now bytes.now).0 }
    ensures rest { result.1.now ≡ (runs.plain_at marks.now bytes.now).1 }
{
    let len = first_of_set(bytes, marks).unwrap_or(bytes.len());
    bytes.split_at(len)
}

fn line_end(stop: u8) -> char
    ensures { result ≡ spec.line_end stop }
{
    if stop == b'<' { '\n' } else { ' ' }
}

/// Skips the LF of a CR LF.
fn after_line_feed(bytes: &[u8]) -> &[u8]
    ensures { result.now ≡ runs.after_line_feed bytes.now }
{
    match bytes {
        [b'\n', rest @ ..] => rest,
        _ => bytes,
    }
}

/// Appends what the leading byte, which ended plain text, stands for; whether it ends the text.
#[tactic(auto, unfolding(mpd_tree::specs::Grammar::marked))]
fn add_marked<'a>(stop: u8, bytes: &'a [u8], read: &mut String) -> Result<(bool, &'a [u8]), Stop>
    ensures { Gives (λ x. (string_bytes read.new, x.0, x.1.now)) fault_in result
        (spec.marked stop (string_bytes read.old) bytes.now).read }
{
    match bytes {
        [end, ..] if *end == stop => Ok((true, bytes)),
        [b'&', rest @ ..] => {
            let (character, rest) = reference_of(bytes.len(), rest)?;
            read.push(character)?;
            Ok((false, rest))
        }
        [b'\r', rest @ ..] => {
            read.push(line_end(stop))?;
            Ok((false, after_line_feed(rest)))
        }
        [] | [b'<', ..] => Err(syntax(bytes)),
        [_, rest @ ..] => {
            read.push(' ')?;
            Ok((false, rest))
        }
    }
}

/// Appends what the leading text is read as, and returns the bytes from its end on. `bytes` is a suffix of the source.
#[inline(always)]
pub(crate) fn add_text<'a>(
    source: &str,
    stop: u8,
    marks: &ByteSet,
    bytes: &'a [u8],
    read: &mut String,
) -> Result<&'a [u8], Stop>
    requires rest { IsBehind source.now bytes.now }
    requires ascii { IsTrue (all_ascii marks.now) }
    ensures rest { IfOk result (λ rest. IsAt stop source.now rest.now) }
    ensures read { Gives (λ rest. (string_bytes read.new, rest.now)) fault_in result
        (spec.text (string_bytes read.old) marks.now stop bytes.now).read }
{
    let mut rest = bytes;
    for _ in 0..bytes.len() + 1 {
        let (plain, marked) = plain_of(marks, rest);
        let at = source.len() - rest.len();
        read.push_str(&source[at..at + plain.len()])?;
        let (is_ended, after) = add_marked(stop, marked, read)?;
        rest = after;
        if is_ended {
            return Ok(rest);
        }
    }
    Err(syntax(&[]))
}
