// The files of a command.
ghost use Rattle.std.specs.Prelude.{◌≡◌, ◌≢◌, IfOk, IfSome};
ghost use Rattle.bridge_io.specs.Answer.{Gives};
ghost use Rattle.hls_media.specs.Laws.{IsBounded};
ghost use Rattle.bridge_report.specs.declared.reading.Halt.TheVariants.{ReadFault};
ghost use Rattle.bridge_report.specs.Reading as spec;

use crate::refusal::Refusal;
use bridge_io::{Bytes, Name, NoMemory, Slurp, Store, Text, slurp};
use hls_media::{Media, MediaFault, read_update, what_is_read_is_bounded};
use std::alloc::Global;
use url_parts::Base;

/// The most bytes of a manifest.
const MANIFEST_LIMIT: u64 = 8_388_608;

/// Why the files of a command aren't read.
#[derive(Drop)]
pub enum Halt {
    /// The file of this name is rejected.
    Refused(Text, Refusal),
    /// A read failed.
    ReadFault,
    /// Out of memory, which says nothing about the files.
    Memory,
}

impl Halt {
    /// A file is rejected, unless memory runs out for its name.
    pub fn refused(alloc: Global, file: &Name, refusal: Refusal) -> Halt
        ensures told { IfSome (spec.halted result) (λ told. told ≡ (file.now, refusal)) }
        ensures no_fault { result ≢ ReadFault }
    {
        match Text::copy_of(alloc, file.as_str()) {
            Ok(name) => Halt::Refused(name, refusal),
            Err(NoMemory) => Halt::Memory,
        }
    }
}

impl From<NoMemory> for Halt {
    ghost use Rattle.std.specs.Prelude.{◌≡◌};
    ghost use Rattle.bridge_report.specs.declared.reading.Halt.TheVariants.{Memory};

    ghost from_gives = { λ _ halt. halt ≡ Memory };

    fn from(_: NoMemory) -> Halt {
        Halt::Memory
    }
}

/// The whole content of a file of at most 8,388,608 bytes. [`Halt::ReadFault`] comes only where the store's count of failed
/// reads rose.
pub fn content_of<F: Store>(alloc: Global, store: &mut F, file: &Name) -> Result<Bytes, Halt>
    ensures { spec.ReadsAs F.Store store.old store.new (λ bytes. bytes) (spec.content_of file.now) result }
{
    match slurp(alloc, store, file, MANIFEST_LIMIT) {
        Ok(bytes) => Ok(bytes),
        Err(Slurp::TooLong(place)) => Err(Halt::refused(alloc, file, Refusal::TooLong(place))),
        Err(Slurp::Absent) => Err(Halt::refused(alloc, file, Refusal::Absent)),
        Err(Slurp::Fault) => Err(Halt::ReadFault),
        Err(Slurp::Memory) => Err(Halt::Memory),
    }
}

/// The media playlist of a file with this URL. [`Halt::ReadFault`] comes only where the store's count of failed reads rose.
pub fn media_at<F: Store>(
    alloc: Global,
    store: &mut F,
    file: &Name,
    url: &Base,
) -> Result<Media, Halt>
    ensures reads { spec.ReadsAs F.Store store.old store.new (λ media. media) (spec.media_at file.now url.now) result }
    ensures bounded { IfOk result IsBounded }
{
    update_at(alloc, store, file, url, None)
}

/// The same. It shares the texts of URLs that a former playlist has under the same sequence numbers.
#[tactic(auto, unfolding(crate::specs::Reading::media_at))]
pub fn update_at<F: Store>(
    alloc: Global,
    store: &mut F,
    file: &Name,
    url: &Base,
    former: Option<&Media>,
) -> Result<Media, Halt>
    ensures reads { spec.ReadsAs F.Store store.old store.new (λ media. media) (spec.media_at file.now url.now) result }
    ensures bounded { IfOk result IsBounded }
{
    let bytes = content_of(alloc, store, file)?;
    media_in(alloc, file, url, bytes.as_slice(), former)
}

/// A file's bytes as a media playlist.
fn media_in(
    alloc: Global,
    file: &Name,
    url: &Base,
    bytes: &[u8],
    former: Option<&Media>,
) -> Result<Media, Halt>
    ensures media { Gives (λ media. media) spec.halted result (spec.media_in file.now url.now bytes.now) }
    ensures bounded { IfOk result IsBounded }
    ensures no_fault { spec.IsNoReadFault result }
{
    what_is_read_is_bounded();
    match read_update(alloc, bytes, url, former) {
        Ok(media) => Ok(media),
        Err(MediaFault::Memory) => Err(Halt::Memory),
        Err(fault) => Err(Halt::refused(alloc, file, Refusal::Media(fault))),
    }
}
