// The command line of a run.
ghost use Rattle.std.specs.Prelude.{◌≡◌, IfOk, OnOk};
ghost use Rattle.std.specs.Option.{option_copied};
ghost use Rattle.bridge_pages.specs.Runs as spec;

use crate::verb::Verb;
use bridge_io::{NoMemory, Sequence, Text};
use std::alloc::Global;

/// The command line of the run that writes the files of a manifest to a folder of its own name. Only `hls` takes a
/// time.
pub fn words_of(
    alloc: Global,
    verb: Verb,
    base: &str,
    now: Option<&Text>,
    manifest: &str,
) -> Result<Sequence<Text>, NoMemory>
    ensures { IfOk result (λ words. words ≡ spec.words_by verb base.now (option_copied now.entry) manifest.now) }
{
    let mut words = Sequence::new(alloc);
    words.push(Text::copy_of(alloc, verb.word())?)?;
    words.push(Text::copy_of(alloc, manifest)?)?;
    words.push(Text::from(format!(in alloc; "--base={base}")?))?;
    words.push(Text::from(format!(in alloc; "--out={manifest}")?))?;
    push_now(alloc, verb, now, &mut words)?;
    Ok(words)
}

/// Adds the `--now` word, where a time is given and the command takes it.
fn push_now(
    alloc: Global,
    verb: Verb,
    now: Option<&Text>,
    words: &mut Sequence<Text>,
) -> Result<(), NoMemory>
    ensures { OnOk result (words.new ≡ spec.with_now verb (option_copied now.entry) words.old) }
{
    match (verb, now) {
        (Verb::Hls, Some(now)) => {
            let now = now.as_str();
            words.push(Text::from(format!(in alloc; "--now={now}")?))
        }
        (Verb::Hls, None) | (Verb::HlsIndex | Verb::Dash, _) => Ok(()),
    }
}
