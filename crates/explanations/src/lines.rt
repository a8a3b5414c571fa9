// The lines for what is dropped.

use bridge_io::{NoMemory, Text};
use std::alloc::Global;
use std::fmt::Write;

/// The most lines.
const MOST: u64 = 100;

/// The lines for what is dropped.
#[derive(Drop)]
pub(crate) struct Lines {
    /// The lines that are written.
    pub(crate) text: String,
    count: u64,
}

impl Lines {
    pub(crate) fn new(alloc: Global) -> Lines {
        Lines {
            text: String::new(alloc),
            count: 0,
        }
    }

    /// Counts a line, and whether it is written.
    pub(crate) fn count_one(&mut self) -> bool {
        self.count = self.count.saturating_add(1);
        self.count <= MOST
    }

    /// All lines, and how many more there would be.
    pub(crate) fn finish(self) -> Result<Text, NoMemory> {
        let Lines { mut text, count } = self;
        if count > MOST {
            let more = count.saturating_sub(MOST);
            write!(text, "  left out: and {more} more\n")?;
        }
        Ok(Text::from(text))
    }
}
