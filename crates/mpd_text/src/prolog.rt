// What is around the root: the byte order mark, the declaration, white space and comments.
ghost use Rattle.std.specs.Prelude.{◌≡◌, false};
ghost use Rattle.bridge_io.specs.Answer.{Gives};
ghost use Rattle.mpd_tree.specs.Grammar as spec;
ghost use Rattle.mpd_tree.specs.Reading.{fault_in};
ghost use Rattle.mpd_tree.specs.Runs as runs;

use crate::class::{after_white, is_white};
use crate::markup::{behind_two, comment_of};
use crate::references::common;
use mpd_tree::{Stop, Wrong, decided, syntax};

/// Skips a byte order mark, if there is one.
fn after_mark(bytes: &[u8]) -> &[u8]
    ensures { result.now ≡ runs.after_mark bytes.now }
{
    if bytes.starts_with(b"\xef\xbb\xbf") {
        &bytes[3..]
    } else {
        bytes
    }
}

/// Skips a declaration, after its `<?xml`. `left` bytes are left from its `<`.
#[tactic(auto, unfolding(mpd_tree::specs::Grammar::declared))]
fn declared_of(left: usize, bytes: &[u8]) -> Result<&[u8], Stop>
    ensures { Gives (λ x. x.now) fault_in result (spec.declared left bytes.now).read }
{
    match bytes {
        [white, rest @ ..] if is_white(*white) => behind_two(b'?', b'>', rest),
        _ => Err(decided(Wrong::Instruction, left, bytes)),
    }
}

/// The same after its `<?`.
#[tactic(auto, unfolding(mpd_tree::specs::Grammar::declaration))]
fn declaration_of(left: usize, bytes: &[u8]) -> Result<&[u8], Stop>
    ensures { Gives (λ x. x.now) fault_in result (spec.declaration left bytes.now).read }
{
    let len = common(b"xml", bytes);
    let rest = &bytes[len..];
    if len == 3 {
        declared_of(left, rest)
    } else {
        Err(decided(Wrong::Instruction, left, rest))
    }
}

/// Skips a byte order mark and a declaration, where there are any.
#[tactic(auto, unfolding(mpd_tree::specs::Grammar::beginning))]
pub(crate) fn after_beginning(bytes: &[u8]) -> Result<&[u8], Stop>
    ensures { Gives (λ x. x.now) fault_in result (spec.beginning bytes.now).read }
{
    let marked = after_mark(bytes);
    if marked.starts_with(b"<?") {
        declaration_of(marked.len(), &marked[2..])
    } else {
        Ok(marked)
    }
}

/// Skips a leading comment and the white space after it; whether there is none.
#[tactic(auto, unfolding(mpd_tree::specs::Grammar::next_comment))]
fn next_comment(bytes: &[u8]) -> Result<(bool, &[u8]), Stop>
    ensures { Gives (λ x. (tt, x.0, x.1.now)) fault_in result (spec.next_comment tt bytes.now).read }
{
    if bytes.starts_with(b"<!") {
        let rest = comment_of(bytes.len(), &bytes[2..])?;
        Ok((false, after_white(rest)))
    } else {
        Ok((true, bytes))
    }
}

/// Skips white space and comments.
pub(crate) fn after_misc(bytes: &[u8]) -> Result<&[u8], Stop>
    ensures { Gives (λ x. x.now) fault_in result (spec.misc bytes.now).read }
{
    let mut rest = after_white(bytes);
    for _ in 0..rest.len() + 1 {
        let (is_ended, after) = next_comment(rest)?;
        rest = after;
        if is_ended {
            return Ok(rest);
        }
    }
    Err(syntax(&[]))
}

fn expect_nothing(bytes: &[u8]) -> Result<(), Stop>
    ensures { Gives (λ x. x) fault_in result (spec.at_end bytes.now).read }
{
    match bytes {
        [] => Ok(()),
        [b'<', b'?', ..] => Err(decided(Wrong::Instruction, bytes.len(), &bytes[1..])),
        [b'<', more @ ..] => Err(syntax(more)),
        _ => Err(syntax(bytes)),
    }
}

/// Checks that only white space and comments follow the root.
#[tactic(auto, unfolding(mpd_tree::specs::Grammar::ending))]
pub(crate) fn expect_end(bytes: &[u8]) -> Result<(), Stop>
    ensures { Gives (λ x. x) fault_in result (spec.ending bytes.now).read }
{
    let rest = after_misc(bytes)?;
    expect_nothing(rest)
}
