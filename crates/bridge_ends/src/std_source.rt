// Standard input as a source.
ghost use Rattle.std.specs.Prelude.{◌≡◌, None};

use crate::fault::counted;
use bridge_io::{Fail, Source};
use std::io::Read;

/// A reader as a source, as standard input. It doesn't model its bytes.
#[derive(Drop)]
pub struct StdSource<R: Read> {
    reader: R,
    faults: u64,
}

impl<R: Read> StdSource<R> {
    /// A source over a reader, with no error counted.
    pub fn new(reader: R) -> StdSource<R>
        ensures { ⟦<StdSource<R> as Source>⟧.faults result ≡ 0 }
    {
        StdSource { reader, faults: 0 }
    }
}

impl<R: Read> Source for StdSource<R> {
    ghost remaining = { λ _. None };

    ghost faults = { λ s. s.faults };

    /// Makes one read.
    fn read(&mut self, buf: &mut [u8]) -> Result<usize, Fail> {
        match self.reader.read(buf) {
            Ok(n) => Ok(n),
            Err(error) => Err(counted(&mut self.faults, error)),
        }
    }
}
