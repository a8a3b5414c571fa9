// A sink that remembers what can be explained.
ghost use Rattle.std.specs.Prelude.{◌≡◌};

use crate::heard::Heard;
use bridge_io::{Fail, Sink};
use std::alloc::Global;

/// A sink that passes everything on, and remembers the lines that can be explained.
#[derive(Drop)]
pub struct Overheard<P: Sink + Drop> {
    alloc: Global,
    sink: P,
    pub(crate) heard: Heard,
}

impl<P: Sink + Drop> Overheard<P> {
    /// Nothing is passed on so far.
    pub fn new(alloc: Global, sink: P) -> Overheard<P>
        ensures written { ⟦<Overheard<P> as Sink>⟧.written result ≡ P.Sink.written sink }
        ensures faults { ⟦<Overheard<P> as Sink>⟧.faults result ≡ P.Sink.faults sink }
    {
        Overheard {
            alloc,
            sink,
            heard: Heard::new(alloc),
        }
    }
}

impl<P: Sink + Drop> Overheard<P> {
    /// Where everything is passed on to.
    pub fn sink(&self) -> &P {
        &self.sink
    }
}

impl<P: Sink + Drop> Sink for Overheard<P> {
    ghost written = { λ o. P.Sink.written o.sink };

    ghost faults = { λ o. P.Sink.faults o.sink };

    fn write(&mut self, piece: &[u8]) -> Result<(), Fail> {
        self.heard.hear(self.alloc, piece);
        self.sink.write(piece)
    }
}
