// Comments and end tags, after their `<`.
ghost use Rattle.bridge_io.specs.Answer.{Gives};
ghost use Rattle.mpd_tree.specs.Grammar as spec;
ghost use Rattle.mpd_tree.specs.Reading.{fault_in};

use crate::class::{after_white, name_of, starts_name};
use mpd_tree::{Stop, Wrong, decided, syntax};

/// Skips a leading `>`.
#[tactic(auto, unfolding(mpd_tree::specs::Grammar::greater_than))]
pub(crate) fn closed_of(bytes: &[u8]) -> Result<&[u8], Stop>
    ensures { Gives (λ x. x.now) fault_in result (spec.greater_than bytes.now).read }
{
    match bytes {
        [b'>', rest @ ..] => Ok(rest),
        _ => Err(syntax(bytes)),
    }
}

/// Skips the end of a comment, after its `--`.
#[tactic(auto, unfolding(mpd_tree::specs::Grammar::behind_dashes, mpd_tree::specs::Grammar::greater_than))]
fn behind_dashes(bytes: &[u8]) -> Result<&[u8], Stop>
    ensures { Gives (λ x. x.now) fault_in result (spec.behind_dashes bytes.now).read }
{
    match bytes {
        [b'-', rest @ ..] => closed_of(rest),
        _ => closed_of(bytes),
    }
}

/// The bytes after the first occurrence of these two bytes next to each other.
#[tactic(auto, unfolding(mpd_tree::specs::Grammar::behind_two))]
pub(crate) fn behind_two(one: u8, other: u8, bytes: &[u8]) -> Result<&[u8], Stop>
    ensures { Gives (λ x. x.now) fault_in result (spec.behind_two one other bytes.now).read }
{
    let mut rest = bytes;
    for _ in 0..bytes.len() {
        match rest {
            [first, second, after @ ..] if *first == one && *second == other => return Ok(after),
            [_, after @ ..] => rest = after,
            [] => {}
        }
    }
    Err(syntax(&[]))
}

#[tactic(auto, unfolding(mpd_tree::specs::Grammar::second_dash))]
fn second_dash(bytes: &[u8]) -> Result<&[u8], Stop>
    ensures { Gives (λ x. x.now) fault_in result (spec.second_dash bytes.now).read }
{
    match bytes {
        [b'-', rest @ ..] => {
            let rest = behind_two(b'-', b'-', rest)?;
            behind_dashes(rest)
        }
        _ => Err(syntax(bytes)),
    }
}

/// Skips a comment, after its `<!`. `left` bytes are left from its `<`.
#[tactic(auto, unfolding(mpd_tree::specs::Grammar::comment))]
pub(crate) fn comment_of(left: usize, bytes: &[u8]) -> Result<&[u8], Stop>
    ensures { Gives (λ x. x.now) fault_in result (spec.comment left bytes.now).read }
{
    match bytes {
        [b'-', rest @ ..] => second_dash(rest),
        [b'D', ..] => Err(decided(Wrong::Doctype, left, bytes)),
        [b'[', ..] => Err(decided(Wrong::Cdata, left, bytes)),
        _ => Err(syntax(bytes)),
    }
}

#[tactic(auto, unfolding(mpd_tree::specs::Grammar::end_name))]
fn end_name_of<'a>(name: &[u8], left: usize, bytes: &'a [u8]) -> Result<&'a [u8], Stop>
    ensures { Gives (λ x. x.now) fault_in result (spec.end_name name.now left bytes.now).read }
{
    let (found, rest) = name_of(bytes);
    if found == name {
        return Ok(rest);
    }
    Err(decided(Wrong::TagMismatch, left, rest))
}

/// Skips an end tag, after its `</`. `left` bytes are left from its `<`.
#[tactic(auto, unfolding(mpd_tree::specs::Grammar::end_tag))]
pub(crate) fn end_tag_of<'a>(name: &[u8], left: usize, bytes: &'a [u8]) -> Result<&'a [u8], Stop>
    ensures { Gives (λ x. x.now) fault_in result (spec.end_tag name.now left bytes.now).read }
{
    match bytes {
        [first, ..] if starts_name(*first) => {
            let rest = end_name_of(name, left, bytes)?;
            closed_of(after_white(rest))
        }
        _ => Err(syntax(bytes)),
    }
}
