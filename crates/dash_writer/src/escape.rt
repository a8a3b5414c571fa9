// Escaping of texts for values.
ghost use Rattle.std.specs.Prelude.{◌≡◌, true};
ghost use Rattle.byte_scan.specs.ByteSet.{is_member};
ghost use Rattle.bridge_io.specs.Adding.{Adds};
ghost use Rattle.mpd_tree.specs.Escapes.{escape_all, escape_of};
ghost use Rattle.dash_writer.specs.Escaped.{four};

use bridge_io::{Fail, Piece, Sheet, Store};
use byte_scan::{ByteSet, first_of_set};

/// Writes a text with `&`, `<`, `>` and `"` as references (XML 1.0, 2.4 and 4.6). What is between two of them is written at
/// once.
pub(crate) fn push_escaped<F: Store>(sheet: &mut Sheet<F>, text: &[u8]) -> Result<(), Fail>
    ensures { Adds F.Store (escape_all text.now) sheet.old sheet.new result }
{
    let escaped = ByteSet::new(*b"&<>\"&<>\"");
    let mut rest = text;
    while let Some(place) = first_of_set(rest, &escaped) {
        let (front, back) = rest.split_at(place);
        let reference = reference_to(back[0]);
        sheet.push_pieces(&[Piece::Text(front), Piece::Text(reference)])?;
        rest = &back[1..];
    }
    sheet.push_pieces(&[Piece::Text(rest)])
}

/// The reference for one of the four bytes.
fn reference_to(byte: u8) -> &'static [u8]
    requires { is_member four byte ≡ true }
    ensures { result.now ≡ escape_of byte }
{
    match byte {
        b'&' => b"&amp;",
        b'<' => b"&lt;",
        b'>' => b"&gt;",
        _ => b"&quot;",
    }
}
