// Elements: tags, and the content between them.
ghost use Rattle.std.specs.Prelude.{◌≡◌, ◌<◌, ◌+◌, ◌++◌, [], ◌∷◌, suc, List, length, IfOk, IfSome, MatchResult, OnOk, Ok, Err};
ghost use Rattle.std.specs.String.{string_bytes};
ghost use Rattle.bridge_io.specs.Answer.{Gives};
ghost use Rattle.mpd_tree.specs.Forests.{Shown, flat};
ghost use Rattle.mpd_text.specs.Keeping.{Grows, IsFilled, IsLeft, IsPieceKept, IsPieceRead, IsSpanRead, IsTag, ShowsRoot};
ghost use Rattle.mpd_text.specs.Keeping.{content_step, element_at, kept_of, last_head, piece_of, shown_in};
ghost use Rattle.mpd_tree.specs.Grammar as spec;
ghost use Rattle.mpd_tree.specs.Reading.{fault_in};
ghost use Rattle.mpd_tree.specs.Pieces.{Inside};
ghost use Rattle.mpd_text.specs.Rests.{IsBehind, IsEnd};
ghost use Rattle.mpd_tree.specs.Trees.{Element, Forest};
ghost use Rattle.mpd_tree.specs.Views.{bytes_of};

use crate::attributes::attributes_of;
use crate::class::{name_of, starts_name};
use crate::kept::Kept;
use crate::markup::{closed_of, comment_of, end_tag_of};
use crate::text::{add_text, plain_of};
use mpd_tree::{KeptSpan, Stop, Wrong, decided, syntax};

/// The greatest nesting depth of elements.
const DEEPEST: usize = 32;

/// A start tag: its element's row and name, and how many nesting levels are left in it.
#[derive(Drop)]
struct Begun<'a> {
    row: usize,
    name: &'a [u8],
    room: usize,
}

/// What follows some character data.
#[derive(Drop)]
enum Piece<'a> {
    Comment,
    Empty,
    Begun(Begun<'a>),
    Ended,
}

/// Whether a tag is an empty one, and the bytes after it.
#[tactic(auto, unfolding(mpd_tree::specs::Grammar::tag_end, mpd_tree::specs::Grammar::greater_than))]
fn tag_end_of(bytes: &[u8]) -> Result<(bool, &[u8]), Stop>
    ensures { Gives (λ x. (x.0, x.1.now)) fault_in result (spec.tag_end bytes.now).read }
{
    match bytes {
        [b'/', rest @ ..] => {
            let rest = closed_of(rest)?;
            Ok((true, rest))
        }
        _ => {
            let rest = closed_of(bytes)?;
            Ok((false, rest))
        }
    }
}

/// Reads an element's tag from its name on, with `room` nesting levels left, including its own.
#[tactic(auto, unfolding(mpd_tree::specs::Grammar::tag))]
#[inline(always)]
fn tag_of<'a>(
    kept: &mut Kept<'a>,
    room: usize,
    left: usize,
    bytes: &'a [u8],
) -> Result<(Piece<'a>, &'a [u8]), Stop>
    requires rest { IsBehind kept.old.source.now bytes.now }
    requires left { left ≡ length bytes.now + 1 }
    requires room { 0 < room }
    ensures read { Gives (λ x. (piece_of (last_head kept.old kept.new left bytes.now) x.0, x.1.now)) fault_in result
        (spec.tag kept.old.source.now left bytes.now).read }
    ensures kept { IfOk result (λ x. IsPieceKept room (last_head kept.old kept.new left bytes.now) kept.old kept.new x.0) }
    ensures rest { IfOk result (λ x. IsBehind kept.old.source.now x.1.now) }
    ensures tag { IfOk result (λ x. IsTag x.0) }
{
    let (name, behind) = name_of(bytes);
    let attributes = kept.attribute_count();
    let rest = attributes_of(kept, behind)?;
    let (is_empty, rest) = tag_end_of(rest)?;
    let row = kept.add_element(bytes, behind, attributes)?;
    if is_empty {
        return Ok((Piece::Empty, rest));
    }
    let begun = Begun {
        row,
        name,
        room: room - 1,
    };
    Ok((Piece::Begun(begun), rest))
}

/// Reads a comment or tag after its `<`, inside the element of that name.
#[tactic(auto, unfolding(mpd_tree::specs::Grammar::piece))]
fn piece_of<'a>(
    kept: &mut Kept<'a>,
    room: usize,
    name: &[u8],
    left: usize,
    bytes: &'a [u8],
) -> Result<(Piece<'a>, &'a [u8]), Stop>
    requires rest { IsBehind kept.old.source.now bytes.now }
    requires left { left ≡ length bytes.now + 1 }
    ensures read { Gives (λ x. (piece_of (last_head kept.old kept.new left bytes.now) x.0, x.1.now)) fault_in result
        (spec.piece kept.old.source.now room name.now left bytes.now).read }
    ensures piece { IfOk result (λ x. IsPieceRead room (last_head kept.old kept.new left bytes.now) kept.old kept.new x.0 x.1.now) }
{
    match bytes {
        [b'/', rest @ ..] => {
            let rest = end_tag_of(name, left, rest)?;
            Ok((Piece::Ended, rest))
        }
        [b'!', rest @ ..] => {
            let rest = comment_of(left, rest)?;
            Ok((Piece::Comment, rest))
        }
        [b'?', ..] => Err(decided(Wrong::Instruction, left, bytes)),
        [first, ..] if starts_name(*first) => {
            if room == 0 {
                return Err(decided(Wrong::Depth, left, bytes));
            }
            tag_of(kept, room, left, bytes)
        }
        _ => Err(syntax(bytes)),
    }
}

/// Reads the content of the element that was begun last.
#[cycle(content)]
fn inside_of<'a>(kept: &mut Kept<'a>, begun: Begun<'a>, bytes: &'a [u8]) -> Result<&'a [u8], Stop>
    requires rest { IsBehind kept.old.source.now bytes.now }
    requires row { begun.row < length (shown_in kept.old) }
    ensures read { MatchResult result
        (λ rest. (i : Inside) × ((spec.inside (suc begun.entry.room) kept.old.source.now begun.entry.name.now bytes.now).read
        ≡ Ok (i, rest.now))
        × IsFilled begun.entry.row i kept.old kept.new)
        (λ e. IfSome (fault_in e) (λ f. (spec.inside (suc begun.entry.room) kept.old.source.now begun.entry.name.now bytes.now).read
        ≡ Err f)) }
    ensures rest { IfOk result (λ rest. IsBehind kept.old.source.now rest.now) }
{
    let (text, rest) = content_of(kept, begun.room, begun.name, bytes)?;
    kept.end_element(begun.row, text)?;
    Ok(rest)
}

/// Appends the leading character data to the text, and reads the piece after them; whether that ends the element.
#[cycle(content)]
fn next_content<'a>(
    kept: &mut Kept<'a>,
    room: usize,
    name: &[u8],
    text: &mut String,
    bytes: &'a [u8],
) -> Result<(bool, &'a [u8]), Stop>
    requires { IsBehind kept.old.source.now bytes.now }
    ensures read { (front : List Shown) (children : Forest) → shown_in kept.old ≡ front ++ flat (length front) children → MatchResult result
        (λ x. (later : Forest) × ((content_step room kept.old.source.now name.now children (string_bytes text.old) bytes.now).read
        ≡ Ok (record { children = later; text = string_bytes text.new }, x.0, x.1.now))
        × (shown_in kept.new ≡ front ++ flat (length front) later))
        (λ e. IfSome (fault_in e) (λ f.
        (content_step room kept.old.source.now name.now children (string_bytes text.old) bytes.now).read ≡ Err f)) }
    ensures left { IfOk result (λ x. IsLeft kept.old kept.new x.1.now) }
{
    let markup = add_text(kept.source, b'<', &kept.marked.content, bytes, text)?;
    let (piece, rest) = piece_of(kept, room, name, markup.len(), &markup[1..])?;
    match piece {
        Piece::Ended => Ok((true, rest)),
        Piece::Begun(begun) => {
            let rest = inside_of(kept, begun, rest)?;
            Ok((false, rest))
        }
        Piece::Comment => Ok((false, rest)),
        Piece::Empty => Ok((false, rest)),
    }
}

/// The bytes after a leading `</`, if there is one.
fn behind_end_start(bytes: &[u8]) -> Option<&[u8]>
    ensures { IfSome result (λ rest. bytes.now ≡ 60 ∷ 47 ∷ rest.now) }
{
    match bytes {
        [b'<', b'/', rest @ ..] => Some(rest),
        _ => None,
    }
}

/// Reads the leading content and the end tag after it, inside the element of that name. A single text that is equal to
/// its source is stored as a span of the source.
#[cycle(content)]
fn content_of<'a>(
    kept: &mut Kept<'a>,
    room: usize,
    name: &[u8],
    bytes: &'a [u8],
) -> Result<(KeptSpan, &'a [u8]), Stop>
    requires { IsBehind kept.old.source.now bytes.now }
    ensures read { MatchResult result
        (λ x. (i : Inside) × ((spec.inside (suc room) kept.old.source.now name.now bytes.now).read ≡ Ok (i, x.1.now))
        × Grows (flat (length (shown_in kept.old)) i.children) kept.old kept.new × (bytes_of (kept_of kept.new) x.0 ≡ i.text))
        (λ e. IfSome (fault_in e) (λ f. (spec.inside (suc room) kept.old.source.now name.now bytes.now).read ≡ Err f)) }
    ensures span { IfOk result (λ x. IsSpanRead kept.old kept.new x.0 x.1.now) }
{
    let (_, marked) = plain_of(&kept.marked.content, bytes);
    if let Some(end) = behind_end_start(marked) {
        let span = kept.span(bytes, marked)?;
        let rest = end_tag_of(name, marked.len(), end)?;
        return Ok((span, rest));
    }
    let mut text = kept.new_text();
    let mut rest = bytes;
    for _ in 0..bytes.len() + 1 {
        let (is_ended, after) = next_content(kept, room, name, &mut text, rest)?;
        rest = after;
        if is_ended {
            let span = kept.keep_text(text)?;
            return Ok((span, rest));
        }
    }
    Err(syntax(&[]))
}

/// Reads the root element from its name on, with its content.
fn element_of<'a>(kept: &mut Kept<'a>, left: usize, bytes: &'a [u8]) -> Result<&'a [u8], Stop>
    requires rest { IsBehind kept.old.source.now bytes.now }
    requires left { left ≡ length bytes.now + 1 }
    requires first { shown_in kept.old ≡ [] }
    ensures read { MatchResult result
        (λ rest. (root : Element) × ((element_at kept.old.source.now left bytes.now).read ≡ Ok (root, rest.now)) × ShowsRoot kept.new root)
        (λ e. IfSome (fault_in e) (λ f. (element_at kept.old.source.now left bytes.now).read ≡ Err f)) }
    ensures same { OnOk result (kept.new.source.now ≡ kept.old.source.now) }
{
    let (piece, rest) = tag_of(kept, DEEPEST, left, bytes)?;
    match piece {
        Piece::Begun(begun) => {
            let rest = inside_of(kept, begun, rest)?;
            Ok(rest)
        }
        Piece::Empty => Ok(rest),
        Piece::Comment => Ok(rest),
        Piece::Ended => Ok(rest),
    }
}

/// Reads the root after its `<`.
#[tactic(auto, unfolding(mpd_tree::specs::Grammar::behind_root_start))]
fn root_behind<'a>(kept: &mut Kept<'a>, left: usize, bytes: &'a [u8]) -> Result<&'a [u8], Stop>
    requires rest { IsBehind kept.old.source.now bytes.now }
    requires left { left ≡ length bytes.now + 1 }
    requires first { shown_in kept.old ≡ [] }
    ensures read { MatchResult result
        (λ rest. (root : Element) × ((spec.behind_root_start kept.old.source.now left bytes.now).read ≡ Ok (root, rest.now))
        × ShowsRoot kept.new root)
        (λ e. IfSome (fault_in e) (λ f. (spec.behind_root_start kept.old.source.now left bytes.now).read ≡ Err f)) }
    ensures same { OnOk result (kept.new.source.now ≡ kept.old.source.now) }
{
    match bytes {
        [b'?', ..] => Err(decided(Wrong::Instruction, left, bytes)),
        [first, ..] if starts_name(*first) => element_of(kept, left, bytes),
        _ => Err(syntax(bytes)),
    }
}

/// Reads the root.
#[tactic(auto, unfolding(mpd_tree::specs::Grammar::root))]
pub(crate) fn root_of<'a>(kept: &mut Kept<'a>, bytes: &'a [u8]) -> Result<&'a [u8], Stop>
    requires rest { IsEnd kept.old.source.now bytes.now }
    requires first { shown_in kept.old ≡ [] }
    ensures read { MatchResult result
        (λ rest. (root : Element) × ((spec.root kept.old.source.now bytes.now).read ≡ Ok (root, rest.now)) × ShowsRoot kept.new root)
        (λ e. IfSome (fault_in e) (λ f. (spec.root kept.old.source.now bytes.now).read ≡ Err f)) }
    ensures same { OnOk result (kept.new.source.now ≡ kept.old.source.now) }
{
    match bytes {
        [b'<', rest @ ..] => root_behind(kept, bytes.len(), rest),
        _ => Err(syntax(bytes)),
    }
}
