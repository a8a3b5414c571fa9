// The lines of a report that can be explained.
use bridge_io::{NoMemory, Sequence, Text};
use explanations::{is_refusal, left_out_count};
use std::alloc::Global;

/// How many bytes of a line are kept: a refusal is shorter.
const LINE_LIMIT: usize = 1024;

/// How many refusals are kept, the first ones.
const REFUSAL_LIMIT: usize = 100;

/// The lines of a report that can be explained.
#[derive(Drop)]
pub(crate) struct Heard {
    /// The first refusals, without their line ends.
    pub(crate) refusals: Sequence<Text>,
    /// The last line that says that something was dropped.
    pub(crate) dropped: Option<Text>,
    /// The line that isn't ended yet, or its first bytes.
    line: Vec<u8>,
}

impl Heard {
    /// No line.
    pub(crate) fn new(alloc: Global) -> Heard {
        Heard {
            refusals: Sequence::new(alloc),
            dropped: None,
            line: Vec::new(alloc),
        }
    }

    /// Further bytes of the report. A line is lost where memory is short.
    pub(crate) fn hear(&mut self, alloc: Global, piece: &[u8]) {
        for byte in piece {
            if *byte != b'\n' {
                self.push(*byte);
            } else {
                let _ = self.end_line(alloc);
                self.line.clear();
            }
        }
    }

    fn push(&mut self, byte: u8) {
        if self.line.len() < LINE_LIMIT {
            let _ = self.line.push(byte);
        }
    }

    fn end_line(&mut self, alloc: Global) -> Result<(), NoMemory> {
        let Ok(line) = str::from_utf8(self.line.as_slice()) else {
            return Ok(());
        };
        if is_refusal(line) && self.refusals.len() < REFUSAL_LIMIT {
            self.refusals.push(Text::copy_of(alloc, line)?)?;
        }
        if matches!(left_out_count(line), Some(count) if count > 0) {
            self.dropped = Some(Text::copy_of(alloc, line)?);
        }
        Ok(())
    }
}
