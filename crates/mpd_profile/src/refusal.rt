// The passes over an MPD.
ghost use Rattle.std.specs.Prelude.{◌≡◌, List, [], Ok, OnOk, true};
ghost use Rattle.bridge_io.specs.Answer.{Gives};
ghost use Rattle.bridge_io.specs.Firsts.{first_fault};
ghost use Rattle.mpd_tree.specs.Nodes.{element_of, root_of};
ghost use Rattle.mpd_tree.specs.Trees.{Head};
ghost use Rattle.mpd_profile.specs.declared.listed.Listed.TheVariants.{Mpd};
ghost use Rattle.mpd_profile.specs.declared.visit.Pass.TheVariants.{Features, Values};
ghost use Rattle.mpd_profile.specs.Behind.{IsBehind};
ghost use Rattle.mpd_profile.specs.Heads.{is_dynamic};
ghost use Rattle.mpd_profile.specs.Passes as passes;
ghost use Rattle.mpd_profile.specs.Refusals.{refusal, refusals_of, root_refusals};
ghost use Rattle.mpd_profile.specs.Sound.{IsSound};
ghost use Rattle.mpd_profile.specs.Visits.{unless_empty};

use crate::fault::RuleFault;
use crate::heads::{is_dynamic, value_named};
use crate::left_out::is_left_out;
use crate::listed::{Addressing, Listed};
use crate::parent::Parent;
use crate::siblings::Siblings;
use crate::visit::{Pass, Visit};
use mpd_tree::{Node, Tree};
use mpd_values::is_alike;
use std::alloc::Global;

/// The namespace of an MPD (ISO/IEC 23009-1, 5.3.1.2).
const NAMESPACE: &str = "urn:mpeg:dash:schema:mpd:2011";

/// Finds the first error in an MPD with this addressing: of its root (ISO/IEC 23009-1, 5.3.1.2), then of features,
/// then of values (5.3), each in document order. What is dropped isn't checked.
///
/// The result is that error with its position, or `Memory`, which says nothing about the MPD.
pub fn check(alloc: Global, tree: &Tree, addressing: Addressing) -> Result<(), RuleFault>
    ensures refused { Gives (λ u. u) refusal result (first_fault (refusals_of addressing (root_of tree.now))) }
    ensures sound { OnOk result (IsSound addressing (is_dynamic (root_of tree.now).head) Mpd (root_of tree.now)) }
{
    let root = tree.root();
    check_root(root)?;
    if is_untold(alloc, root, addressing) {
        return Ok(());
    }
    check_all(alloc, root, Pass::Features)?;
    check_all(alloc, root, Pass::Values(addressing))
}

/// Whether neither pass finds an error, by one walk over an MPD without SegmentBase. Otherwise each pass is run.
fn is_untold(alloc: Global, root: Node<'_>, addressing: Addressing) -> bool
    ensures { result ≡ true → (first_fault (passes.refused_in Features (element_of root.entry)) ≡ Ok tt)
        × (first_fault (passes.refused_in (Values addressing) (element_of root.entry)) ≡ Ok tt) }
{
    match addressing {
        Addressing::Segments => check_all(alloc, root, Pass::Both).is_ok(),
        Addressing::Index => false,
    }
}

#[tactic(auto, unfolding(crate::specs::Refusals::root_refusals))]
fn check_root(root: Node<'_>) -> Result<(), RuleFault>
    ensures { result ≡ first_fault (root_refusals (element_of root.entry)) }
{
    if root.name() != "MPD" {
        return Err(RuleFault::Root(root.place()));
    }
    match value_named(root, "xmlns") {
        Some(text) if is_alike(text, NAMESPACE) => Ok(()),
        _ => Err(RuleFault::Namespace(root.place())),
    }
}

fn check_all(alloc: Global, root: Node<'_>, pass: Pass) -> Result<(), RuleFault>
    ensures { Gives (λ u. u) refusal result (first_fault (passes.refused_in pass (element_of root.entry))) }
{
    let dynamic = is_dynamic(root);
    let visit = Visit {
        node: root,
        listed: Some(Listed::Mpd),
        dynamic,
        parent: None,
        siblings: &Siblings::new(alloc, dynamic),
    };
    visit.check(pass)?;
    check_inside(alloc, &Parent::of(Listed::Mpd, root, dynamic), pass)
}

/// Checks the children of an element that is read.
#[cycle(inside)]
fn check_inside(alloc: Global, parent: &Parent<'_>, pass: Pass) -> Result<(), RuleFault>
    ensures { Gives (λ u. u) refusal result (first_fault (passes.refused_inside pass (passes.parent_shown parent.now) []
        (element_of parent.now.node).children)) }
{
    let mut siblings = Siblings::new(alloc, parent.dynamic);
    for node in parent.node.children() {
        check_child(alloc, parent, &siblings, node, pass)?;
        siblings.add(node, parent.dynamic)?;
    }
    Ok(())
}

/// Checks an element after its siblings, and its children.
#[cycle(inside)]
fn check_child<'a>(
    alloc: Global,
    parent: &Parent<'a>,
    siblings: &Siblings<'a>,
    node: Node<'a>,
    pass: Pass,
) -> Result<(), RuleFault>
    ensures { (before : List Head) → IsBehind siblings.now parent.now.dynamic before →
        Gives (λ u. u) refusal result (first_fault (passes.refused_child pass (passes.parent_shown parent.now) before
        (element_of node.entry))) }
{
    let listed = parent.listed.child(node.name(), pass.addressing());
    if is_left_out(parent.media_type, listed, node) {
        return Ok(());
    }
    let visit = Visit {
        node,
        listed,
        dynamic: parent.dynamic,
        parent: Some(parent),
        siblings,
    };
    visit.check(pass)?;
    match around_others(listed, node) {
        Some(listed) => check_inside(alloc, &Parent::of(listed, node, parent.dynamic), pass),
        None => Ok(()),
    }
}

/// The kind of an element, where it has children.
fn around_others(listed: Option<Listed>, node: Node<'_>) -> Option<Listed>
    ensures { result ≡ unless_empty (element_of node.entry).children listed }
{
    match node.children().next() {
        Some(_) => listed,
        None => None,
    }
}
