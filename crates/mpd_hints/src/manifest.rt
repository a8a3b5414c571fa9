// What an MPD says for players.
ghost use Rattle.std.specs.Prelude.{◌≡◌, IfOk};
ghost use Rattle.mpd_tree.specs.Nodes.{root_of};
ghost use Rattle.mpd_hints.specs.Hints.{hints_of};

use crate::captions::has_captions;
use crate::starts::{Asked, Sap};
use crate::tracks::{in_order, told_in_first};
use bridge_io::NoMemory;
use mpd_tree::Tree;
use std::alloc::Global;
use track_hints::Hints;

/// What an MPD says of its tracks, the kept Representations of its first Period: video, then audio, then text, each in document
/// order; and of the whole. `sap` is the attribute that tells where segments can be decoded from.
///
/// Any tree is taken; what is said counts where the rules accept it. The time is linear in the size of the tree, and each kept
/// Representation of the first Period takes a copy of its set's label, of at most 255 bytes.
pub fn hints(alloc: Global, tree: &Tree, sap: Sap) -> Result<Hints, NoMemory>
    ensures { IfOk result (λ hints. hints ≡ hints_of sap (root_of tree.now)) }
{
    let mpd = tree.root();
    let tolds = told_in_first(alloc, mpd)?;
    let independent = Asked::of(sap, &tolds).is_independent(mpd);
    let tracks = in_order(alloc, tolds)?;
    Ok(Hints {
        tracks,
        independent,
        captions: has_captions(mpd),
    })
}
