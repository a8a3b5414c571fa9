// The earlier siblings of an element.
ghost use Rattle.std.specs.Prelude.{◌≡◌, ◌&&◌, ◌||◌, Bool, ◌∷◌, [], ◌++◌, List, IfErr, OnOk, option_map, if◌then◌else◌, None};
ghost use Rattle.std.specs.List.{list_any};
ghost use Rattle.mpd_tree.specs.Nodes.{element_of};
ghost use Rattle.mpd_tree.specs.Trees.{Head};
ghost use Rattle.mpd_profile.specs.Behind.{IsBehind};
ghost use Rattle.mpd_profile.specs.Features as spec;
ghost use Rattle.mpd_profile.specs.Refusals.{has_id, period_id};
ghost use Rattle.mpd_profile.specs.declared.fault.RuleFault.TheVariants.{Memory};

use crate::fault::RuleFault;
use crate::heads::{is_short, value_named};
use mpd_tree::Node;
use std::alloc::Global;
use std::collections::BTreeSet;

/// What matters of the earlier siblings of an element: which elements that may occur only once there are, and which
/// ids Periods have.
#[derive(Drop)]
pub(crate) struct Siblings<'a> {
    segments: bool,
    timeline: bool,
    initialization: bool,
    ids: BTreeSet<&'a [u8]>,
}

impl<'a> Siblings<'a> {
    pub(crate) fn new(alloc: Global, dynamic: bool) -> Siblings<'a>
        ensures { IsBehind result dynamic [] }
    {
        Siblings {
            segments: false,
            timeline: false,
            initialization: false,
            ids: BTreeSet::new(alloc),
        }
    }

    /// Whether an element of this name is the second of an element that a parent may have only once.
    pub(crate) fn is_second(&self, name: &str) -> bool
        ensures { (dynamic : Bool) (before : List Head) → IsBehind self.now dynamic before → result ≡ spec.is_second before name.now }
    {
        (is_segment_element(name) && self.segments)
            || (name == "SegmentTimeline" && self.timeline)
            || (name == "Initialization" && self.initialization)
    }

    /// Whether an earlier Period has this id.
    pub(crate) fn has_id(&self, id: &str) -> bool
        ensures { (dynamic : Bool) (before : List Head) → IsBehind self.now dynamic before
            → result ≡ (dynamic && list_any (has_id id.now) before) }
    {
        self.ids.contains(id.as_bytes())
    }

    /// Adds an element after the others; the ids of Periods only for a dynamic MPD.
    pub(crate) fn add(&mut self, node: Node<'a>, dynamic: bool) -> Result<(), RuleFault>
        ensures added { (before : List Head) → IsBehind self.old dynamic before
            → OnOk result (IsBehind self.new dynamic (before ++ (element_of node.entry).head ∷ [])) }
        ensures fault { IfErr result (λ fault. fault ≡ Memory) }
    {
        let name = node.name();
        if is_short(name) {
            return Ok(());
        }
        self.segments = either(self.segments, is_segment_element(name));
        self.timeline = either(self.timeline, name == "SegmentTimeline");
        self.initialization = either(self.initialization, name == "Initialization");
        if let Some(id) = id_to_keep(node, dynamic) {
            self.ids.insert(id.as_bytes())?;
        }
        Ok(())
    }
}

fn either(before: bool, now: bool) -> bool
    ensures { result ≡ (before || now) }
{
    before || now
}

/// The id of a Period of a dynamic MPD.
fn id_to_keep<'a>(node: Node<'a>, dynamic: bool) -> Option<&'a str>
    ensures { option_map (λ id. id.now) result ≡ (if dynamic then period_id (element_of node.entry).head else None) }
{
    if !dynamic || node.name() != "Period" {
        return None;
    }
    value_named(node, "id")
}

fn is_segment_element(name: &str) -> bool
    ensures { result ≡ spec.is_segment_element name.now }
{
    name == "SegmentTemplate" || name == "SegmentList" || name == "SegmentBase"
}
