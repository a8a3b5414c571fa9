// The attributes of a tag, left to right.
ghost use Rattle.std.specs.Prelude.{◌≡◌, ◌≤◌, ◌++◌, ◌∷◌, ◌⊎◌, [], false, length, IfOk, IfErr, OnOk};
ghost use Rattle.bridge_io.specs.Answer.{Gives};
ghost use Rattle.bridge_io.specs.Texts.{is_among};
ghost use Rattle.mpd_text.specs.Attributes.{AreKnown, GoesOn, IsNew};
ghost use Rattle.mpd_text.specs.Keeping.{Stays, attributes_from, attributes_in, names_from};
ghost use Rattle.mpd_text.specs.ManyNames.{IsPrepared};
ghost use Rattle.mpd_tree.specs.Grammar as spec;
ghost use Rattle.mpd_tree.specs.Reading.{fault_in};
ghost use Rattle.mpd_tree.specs.Runs as runs;
ghost use Rattle.mpd_text.specs.Rests.{IsBehind, IsEnd};
ghost use Rattle.mpd_tree.specs.declared.stop.Stop.TheVariants.{Memory};

use crate::class::{after_white, name_of, starts_name};
use crate::kept::Kept;
use crate::many_names::{FEW, ManyNames, is_name_of_any};
use mpd_tree::{Stop, Wrong, decided, syntax};

/// Skips a leading `=`, with white space around it.
#[tactic(auto, unfolding(mpd_tree::specs::Grammar::equals))]
fn after_equals(bytes: &[u8]) -> Result<&[u8], Stop>
    ensures { Gives (λ x. x.now) fault_in result (spec.equals bytes.now).read }
{
    match after_white(bytes) {
        [b'=', rest @ ..] => Ok(after_white(rest)),
        rest => Err(syntax(rest)),
    }
}

/// The leading quote, and the bytes after it.
#[tactic(auto, unfolding(mpd_tree::specs::Grammar::quote_mark))]
fn quote_of(bytes: &[u8]) -> Result<(u8, &[u8]), Stop>
    ensures quote { IfOk result (λ x. (x.0 ≡ 34) ⊎ (x.0 ≡ 39)) }
    ensures read { Gives (λ x. (x.0, x.1.now)) fault_in result (spec.quote_mark bytes.now).read }
{
    match bytes {
        [quote @ (b'"' | b'\''), rest @ ..] => Ok((*quote, rest)),
        _ => Err(syntax(bytes)),
    }
}

/// The attributes of one tag so far: those from a row on, with a set of their names where there are many.
#[derive(Drop)]
struct Names<'a> {
    from: usize,
    many: ManyNames<'a>,
}

/// Whether an earlier attribute of the same tag has that name.
#[tactic(auto, using(crate::proofs::KeptRows::lengths), unfolding(crate::specs::Keeping::attributes_in))]
fn is_repeated<'a>(kept: &Kept<'a>, names: &mut Names<'a>, name: &'a [u8]) -> Result<bool, Stop>
    requires known { AreKnown kept.now names.old }
    ensures read { IfOk result (λ repeated. (repeated ≡ is_among name.now (names_from kept.now names.old.from))
        × (repeated ≡ false → IsPrepared names.new.many (names_from kept.now names.old.from ++ name.now ∷ []))) }
    ensures from { names.new.from ≡ names.old.from }
    ensures fault { IfErr result (λ e. e ≡ Memory) }
{
    let source = kept.source.as_bytes();
    let before = &kept.attributes[names.from..];
    if before.len() < FEW {
        return Ok(is_name_of_any(source, before, name));
    }
    names.many.repeats(source, before, name)
}

/// The bytes after the leading name, which no earlier attribute of the same tag has.
#[tactic(auto, unfolding(mpd_tree::specs::Grammar::new_name))]
fn new_name_of<'a>(
    kept: &Kept<'a>,
    names: &mut Names<'a>,
    bytes: &'a [u8],
) -> Result<&'a [u8], Stop>
    requires known { AreKnown kept.now names.old }
    ensures read { Gives (λ rest. ((runs.name_at bytes.now).0, rest.now)) fault_in result
        (spec.new_name (names_from kept.now names.old.from) bytes.now).read }
    ensures is_new { IfOk result (λ rest. IsNew kept.now names.old names.new bytes.now rest.now) }
{
    let (name, rest) = name_of(bytes);
    if is_repeated(kept, names, name)? {
        return Err(decided(Wrong::DoubleAttribute, bytes.len(), rest));
    }
    Ok(rest)
}

/// Reads the leading attribute.
#[tactic(auto, unfolding(mpd_tree::specs::Grammar::attribute))]
fn attribute_of<'a>(
    kept: &mut Kept<'a>,
    names: &mut Names<'a>,
    bytes: &'a [u8],
) -> Result<&'a [u8], Stop>
    requires known { AreKnown kept.old names.old }
    requires rest { IsBehind kept.old.source.now bytes.now }
    ensures read { Gives (λ rest. (attributes_from kept.new names.old.from, rest.now)) fault_in result
        (spec.attribute kept.old.source.now (attributes_from kept.old names.old.from) bytes.now).read }
    ensures goes_on { IfOk result (λ rest. GoesOn kept.old kept.new names.old names.new rest.now) }
{
    let name_rest = new_name_of(kept, names, bytes)?;
    let rest = after_equals(name_rest)?;
    let (quote, rest) = quote_of(rest)?;
    let (value, rest) = kept.value_of(quote, rest)?;
    kept.add_attribute(bytes, name_rest, value)?;
    Ok(rest)
}

/// Reads the attribute after leading white space, or reaches the tag's end; whether it is the end.
#[tactic(auto, using(crate::proofs::Rests::white_left, crate::proofs::Rests::ends), unfolding(mpd_tree::specs::Grammar::next_attribute))]
fn next_of<'a>(
    kept: &mut Kept<'a>,
    names: &mut Names<'a>,
    bytes: &'a [u8],
) -> Result<(bool, &'a [u8]), Stop>
    requires known { AreKnown kept.old names.old }
    requires rest { IsEnd kept.old.source.now bytes.now }
    ensures read { Gives (λ x. (attributes_from kept.new names.old.from, x.0, x.1.now)) fault_in result
        (spec.next_attribute kept.old.source.now (attributes_from kept.old names.old.from) bytes.now).read }
    ensures goes_on { IfOk result (λ x. GoesOn kept.old kept.new names.old names.new x.1.now) }
{
    let rest = after_white(bytes);
    match rest {
        [b'>' | b'/', ..] => Ok((true, rest)),
        [first, ..] if starts_name(*first) && rest.len() < bytes.len() => {
            let rest = attribute_of(kept, names, rest)?;
            Ok((false, rest))
        }
        _ => Err(syntax(rest)),
    }
}

/// Reads the leading attributes, up to the `>` or `/` of their tag.
pub(crate) fn attributes_of<'a>(kept: &mut Kept<'a>, bytes: &'a [u8]) -> Result<&'a [u8], Stop>
    requires { IsEnd kept.old.source.now bytes.now }
    ensures read { Gives (λ rest. (attributes_from kept.new (length (attributes_in kept.old)), rest.now)) fault_in result
        (spec.attributes kept.old.source.now bytes.now).read }
    ensures stays { OnOk result (Stays kept.old kept.new) }
    ensures more { OnOk result (length (attributes_in kept.old) ≤ length (attributes_in kept.new)) }
    ensures rest { IfOk result (λ rest. IsEnd kept.old.source.now rest.now) }
{
    let mut names = Names {
        from: kept.attribute_count(),
        many: ManyNames::new(kept.alloc),
    };
    let mut rest = bytes;
    for _ in 0..bytes.len() + 1 {
        let (is_ended, after) = next_of(kept, &mut names, rest)?;
        rest = after;
        if is_ended {
            return Ok(rest);
        }
    }
    Err(syntax(&[]))
}
