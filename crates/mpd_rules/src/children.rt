// The kept Periods, AdaptationSets and Representations.
ghost use Rattle.std.specs.Prelude.{◌≡◌, ◌+◌, IfOk, OnOk, length, map};
ghost use Rattle.mpd_tree.specs.Nodes.{element_of};
ghost use Rattle.mpd_rules.specs.Kept as spec;

use bridge_io::{NoMemory, Place, Sequence};
use mpd_profile::{Listed, is_left_out, value_named};
use mpd_tree::Node;
use std::alloc::Global;

/// The kept children of a name, which are read as `listed`. The position of each dropped one is added to `left_out`.
pub(crate) fn kept_children<'a>(
    alloc: Global,
    parent: Node<'a>,
    listed: Listed,
    name: &str,
    left_out: &mut Sequence<Place>,
) -> Result<Vec<Node<'a>>, NoMemory>
    ensures kept { IfOk result (λ kept. map element_of kept.items ≡ spec.kept_children listed name.now (element_of parent.entry)) }
    ensures left_out { OnOk result (length left_out.new ≡ length left_out.old + spec.left_children listed name.now
        (element_of parent.entry)) }
{
    let media_type = value_named(parent, "mimeType");
    let mut kept = Vec::new(alloc);
    for child in parent.children() {
        if child.name() == name {
            if is_left_out(media_type, Some(listed), child) {
                left_out.push(child.place())?;
            } else {
                kept.push(child)?;
            }
        }
    }
    Ok(kept)
}
