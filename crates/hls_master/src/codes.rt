// Lists of codecs.
ghost use Rattle.std.specs.Prelude.{◌≡◌, map, filter, IfOk};
ghost use Rattle.mpd_values.specs.Codecs.{codes_of};
ghost use Rattle.hls_master.specs.Codes.{belongs, is_of, has_code, selected};

use bridge_io::{Kind, NoMemory, Text};
use mpd_values::{Blank, trimmed};
use std::alloc::Global;
use url_parts::{CodeClass, code_class};

/// Whether a track of a kind has codecs of a class.
fn belongs(kind: Kind, class: CodeClass) -> bool
    ensures { result ≡ belongs kind class }
{
    match kind {
        Kind::Video => matches!(class, CodeClass::Video | CodeClass::Unknown),
        Kind::Audio => matches!(class, CodeClass::Audio),
        Kind::Text => matches!(class, CodeClass::Text),
    }
}

fn is_of(kind: Kind, code: &str) -> bool
    ensures { result ≡ is_of kind code.now }
{
    belongs(kind, code_class(code))
}

/// Whether a list of codecs has one for a track of this kind.
#[tactic(auto, unfolding(crate::specs::Codes::has_code))]
pub(crate) fn has_code(kind: Kind, codes: &str) -> bool
    ensures { result ≡ has_code kind codes.now }
{
    codes
        .split(',')
        .any(|code| is_of(kind, trimmed(code, Blank::Space)))
}

/// The codecs of a list for a track of this kind, joined by `,`.
#[tactic(auto, unfolding(crate::specs::Codes::selected))]
pub(crate) fn select_codes(alloc: Global, kind: Kind, codes: &str) -> Result<Option<Text>, NoMemory>
    ensures { IfOk result (λ text. text ≡ selected kind codes.now) }
{
    let chosen = chosen_codes(alloc, kind, codes)?;
    if chosen.is_empty() {
        return Ok(None);
    }
    Ok(Some(Text::from(chosen.join(alloc, ",")?)))
}

fn chosen_codes<'a>(alloc: Global, kind: Kind, codes: &'a str) -> Result<Vec<&'a str>, NoMemory>
    ensures { IfOk result (λ chosen. map (λ code. code.now) chosen.items ≡ filter (is_of kind) (codes_of codes.now)) }
{
    let mut chosen = Vec::new(alloc);
    for code in codes.split(',') {
        let code = trimmed(code, Blank::Space);
        if is_of(kind, code) {
            chosen.push(code)?;
        }
    }
    Ok(chosen)
}
