// What an MPD says for players.
ghost use Rattle.std.specs.Prelude.{◌≡◌, IfOk};
ghost use Rattle.mpd_tree.specs.Nodes.{root_of};
ghost use Rattle.bridge_steps.specs.Players as spec;

use bridge_io::NoMemory;
use mpd_hints::{Sap, hints};
use mpd_tree::Tree;
use segment_forms::Form;
use std::alloc::Global;
use track_hints::Hints;

/// What the MPD says for players; `None` where the plain form is asked for.
pub fn players_of(
    alloc: Global,
    form: Form,
    sap: Sap,
    tree: &Tree,
) -> Result<Option<Hints>, NoMemory>
    ensures { IfOk result (λ players. players ≡ spec.players_of form sap (root_of tree.now)) }
{
    match form {
        Form::Plain => Ok(None),
        Form::Players => Ok(Some(hints(alloc, tree, sap)?)),
    }
}
