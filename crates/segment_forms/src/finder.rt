// The pattern of addresses that come one after another.
ghost use Rattle.std.specs.Prelude.{◌≡◌, [], ◌∷◌, ◌++◌, string_bytes, IfOk, OnErr, OnOk};
ghost use Rattle.segment_forms.specs.{Media.media_of, Patterns.pattern_of};

use crate::Pattern;
use crate::address_log::{AddressLog, Given};
use crate::media::push_media;
use crate::progress::Progress;
use crate::steps::{pattern_so_far, progress_with};
use bridge_io::NoMemory;
use std::alloc::Global;
use std::marker::Model;

/// Finds the pattern of the addresses of segments that come one after another: in a contract the list of the addresses so far.
/// The first address is kept, and nothing else that grows.
#[derive(Drop)]
pub struct PatternFinder {
    first: String,
    progress: Progress,
    log: AddressLog,
}

impl Model for PatternFinder {
    ghost use Rattle.std.specs.Prelude.{List, ℕ, string_bytes};

    ghost Value = { List (List ℕ) };

    ghost use Rattle.segment_forms.specs.Seen.{IsKept};

    ghost view = { λ finder. finder.log.addresses };

    ghost invariant = { λ finder. IsKept (string_bytes finder.first) finder.progress finder.log.addresses };
}

impl PatternFinder {
    /// A finder that was given no address.
    pub fn new(alloc: Global) -> PatternFinder
        ensures { result ≡ [] }
    {
        PatternFinder {
            first: String::new(alloc),
            progress: Progress::Empty,
            log: AddressLog::new(),
        }
    }

    /// Takes the next segment's address. Only the first one takes memory.
    pub fn push(&mut self, address: &str) -> Result<(), NoMemory>
        ensures ok { OnOk result (self.new ≡ self.old ++ address.now ∷ []) }
        ensures err { OnErr result (self.new ≡ self.old) }
    {
        self.progress = progress_with(&mut self.first, self.progress, address)?;
        self.log = self.log.and(&Given { address });
        Ok(())
    }

    /// The pattern of the addresses so far, if they have one.
    pub fn pattern(&self) -> Option<Pattern>
        ensures { result ≡ pattern_of self.now }
    {
        pattern_so_far(self.first.as_str(), self.progress)
    }

    /// Appends the media text of a SegmentTemplate for the addresses so far, and returns their pattern; appends nothing where they
    /// have none.
    pub fn push_media(&self, text: &mut String) -> Result<Option<Pattern>, NoMemory>
        ensures pattern { IfOk result (λ pattern. pattern ≡ pattern_of self.now) }
        ensures text { OnOk result (string_bytes text.new ≡ string_bytes text.old ++ media_of self.now) }
    {
        let first = self.first.as_str();
        let pattern = pattern_so_far(first, self.progress);
        if let Some(pattern) = pattern {
            push_media(text, first, pattern)?;
        }
        Ok(pattern)
    }
}
