// Standard output as a sink.
ghost use Rattle.std.specs.Prelude.{◌≡◌, None};

use crate::fault::counted;
use bridge_io::{Fail, Sink};
use std::io;
use std::io::Write;

/// A writer as a sink, as standard output. It doesn't model its bytes.
#[derive(Drop)]
pub struct StdSink<W: Write> {
    writer: W,
    faults: u64,
}

impl<W: Write> StdSink<W> {
    /// A sink over a writer, with no error counted.
    pub fn new(writer: W) -> StdSink<W>
        ensures { ⟦<StdSink<W> as Sink>⟧.faults result ≡ 0 }
    {
        StdSink { writer, faults: 0 }
    }
}

impl<W: Write> Sink for StdSink<W> {
    ghost written = { λ _. None };

    ghost faults = { λ s. s.faults };

    /// Writes until the whole piece is taken, and flushes.
    fn write(&mut self, piece: &[u8]) -> Result<(), Fail> {
        match write_through(&mut self.writer, piece) {
            Ok(()) => Ok(()),
            Err(error) => Err(counted(&mut self.faults, error)),
        }
    }
}

fn write_through<W: Write>(writer: &mut W, piece: &[u8]) -> io::Result<()> {
    writer.write_all(piece)?;
    writer.flush()
}
