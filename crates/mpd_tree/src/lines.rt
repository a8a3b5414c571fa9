// The lines of a text: the LF bytes are counted once, up to each block, so that looking up a position scans at most
// one block.
ghost use Rattle.std.specs.Prelude.{◌≡◌, ◌≤◌, ◌/◌, IfErr, IfOk, length};
ghost use Rattle.bridge_io.specs.Places.{place_of};
ghost use Rattle.mpd_tree.specs.Lines.{AreCounted, block_size};
ghost use Rattle.mpd_tree.specs.declared.fault.TextFault.TheVariants.{Memory};

use crate::TextFault;
use bridge_io::Place;
use byte_scan::count_lf;
use std::alloc::Global;

const BLOCK: usize = 256;

/// How many LF bytes are before each block of a text.
#[derive(Drop)]
pub(crate) struct LineCounts {
    before: Vec<u64>,
}

impl LineCounts {
    #[tactic(auto, using(crate::proofs::LineLemmas::line_counts))]
    pub(crate) fn new(alloc: Global, bytes: &[u8]) -> Result<LineCounts, TextFault>
        ensures counted { IfOk result (λ lines. AreCounted bytes.now (length bytes.now / block_size) lines.before.items) }
        ensures fault { IfErr result (λ fault. fault ≡ Memory) }
    {
        let mut before = Vec::with_capacity(alloc, bytes.len() / BLOCK + 1)?;
        let mut count = 0;
        before.push(count)?;
        for block in 0..bytes.len() / BLOCK {
            count += count_lf(&bytes[block * BLOCK..(block + 1) * BLOCK]);
            before.push(count)?;
        }
        Ok(LineCounts { before })
    }

    /// The position of a byte, or of the end.
    #[tactic(auto, using(crate::proofs::LineLemmas::line_counts))]
    pub(crate) fn place_of(&self, bytes: &[u8], at: usize) -> Place
        requires counted { AreCounted bytes.now (length bytes.now / block_size) self.now.before.items }
        requires within { at ≤ length bytes.now }
        ensures { result ≡ place_of bytes.now at }
    {
        let block = at / BLOCK;
        let before = self.before[block] + count_lf(&bytes[block * BLOCK..at]);
        Place {
            at: at as u64,
            line: before + 1,
        }
    }
}
