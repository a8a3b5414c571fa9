// What a pass checks at one element.
ghost use Rattle.std.specs.Prelude.{◌≡◌, ◌||◌, List, [], Some, true};
ghost use Rattle.std.specs.List.{list_all, list_any};
ghost use Rattle.bridge_io.specs.Firsts.{first_fault};
ghost use Rattle.mpd_tree.specs.Nodes.{element_of};
ghost use Rattle.mpd_tree.specs.Trees.{Head};
ghost use Rattle.mpd_tree.specs.Views.{attribute_shown};
ghost use Rattle.mpd_profile.specs.Behind.{IsBehind};
ghost use Rattle.mpd_profile.specs.Features as features;
ghost use Rattle.mpd_profile.specs.Heads.{or_else};
ghost use Rattle.mpd_profile.specs.Passes.{addressing_of, told_by, visit_shown};
ghost use Rattle.mpd_profile.specs.Plain.{feature_told, has_plain_values, is_plain_value};
ghost use Rattle.mpd_profile.specs.Refusals as refusals;
ghost use Rattle.mpd_profile.specs.declared.listed.Listed.TheVariants.{S};
ghost use Rattle.mpd_profile.specs.declared.visit.Pass.TheVariants.{Both};

use crate::fault::RuleFault;
use crate::feature::{Feature, attribute_feature, element_feature, has_foreign, is_entry_value};
use crate::heads::{is_short, value_named};
use crate::listed::{Addressing, Listed};
use crate::parent::Parent;
use crate::siblings::Siblings;
use crate::value::are_few_digits;
use mpd_tree::{Attr, Node};

/// What a pass checks.
#[derive(Clone, Copy)]
pub(crate) enum Pass {
    Features,
    Values(Addressing),
    /// Both at each element, for an MPD without SegmentBase.
    Both,
}

/// An element with its context: its parent and its earlier siblings; the root has no parent.
#[derive(Clone, Copy)]
pub(crate) struct Visit<'a, 'b> {
    pub(crate) node: Node<'a>,
    pub(crate) listed: Option<Listed>,
    pub(crate) dynamic: bool,
    pub(crate) parent: Option<&'b Parent<'a>>,
    pub(crate) siblings: &'b Siblings<'a>,
}

impl Pass {
    pub(crate) fn addressing(self) -> Addressing
        ensures { result ≡ addressing_of self }
    {
        match self {
            Pass::Features | Pass::Both => Addressing::Segments,
            Pass::Values(addressing) => addressing,
        }
    }
}

impl<'a, 'b> Visit<'a, 'b> {
    /// Checks the element itself and its attributes.
    #[tactic(auto, unfolding(crate::specs::Passes::told_by))]
    pub(crate) fn check(&self, pass: Pass) -> Result<(), RuleFault>
        ensures { (before : List Head) → IsBehind self.now.siblings.now self.now.dynamic before
            → result ≡ first_fault (told_by pass (visit_shown self.now before)) }
    {
        match pass {
            Pass::Features => self.check_features(),
            Pass::Values(addressing) => self.check_values(addressing),
            Pass::Both => self.check_both(),
        }
    }

    #[tactic(auto, unfolding(crate::specs::Passes::told_by))]
    fn check_both(&self) -> Result<(), RuleFault>
        ensures { (before : List Head) → IsBehind self.now.siblings.now self.now.dynamic before
            → result ≡ first_fault (told_by Both (visit_shown self.now before)) }
    {
        if self.is_plain_entry() {
            return self.check_feature();
        }
        self.check_features()?;
        self.check_values(Addressing::Segments)
    }

    /// Whether it is an S with nothing but numbers of few digits, as most are: no attribute is rejected.
    fn is_plain_entry(&self) -> bool
        ensures { result ≡ true → (self.now.listed ≡ Some S) × (has_plain_values (element_of self.now.node).head ≡ true) }
    {
        match self.listed {
            Some(Listed::S) => has_plain_values(self.node),
            _ => false,
        }
    }

    fn check_feature(&self) -> Result<(), RuleFault>
        ensures { (before : List Head) → IsBehind self.now.siblings.now self.now.dynamic before
            → result ≡ first_fault (feature_told (visit_shown self.now before)) }
    {
        match self.feature() {
            Some(feature) => Err(feature.at(self.node.place())),
            None => Ok(()),
        }
    }

    #[inline(always)]
    fn check_features(&self) -> Result<(), RuleFault>
        ensures { (before : List Head) → IsBehind self.now.siblings.now self.now.dynamic before
            → result ≡ first_fault (features.features_at (visit_shown self.now before)) }
    {
        match self.feature() {
            Some(feature) => Err(feature.at(self.node.place())),
            None => self.check_attribute_features(),
        }
    }

    /// The feature of the element itself.
    fn feature(&self) -> Option<Feature>
        ensures { (before : List Head) → IsBehind self.now.siblings.now self.now.dynamic before →
            let visit = visit_shown self.now before in
            result ≡ or_else (features.parent_feature visit.parent before visit.head.name)
            (features.codes_feature visit.listed visit.parent visit.head) }
    {
        match self.feature_by_name() {
            Some(feature) => Some(feature),
            None => self.feature_by_codes(),
        }
    }

    fn feature_by_name(&self) -> Option<Feature>
        ensures { (before : List Head) → IsBehind self.now.siblings.now self.now.dynamic before →
            result ≡ features.parent_feature (visit_shown self.now before).parent before (element_of self.now.node).head.name }
    {
        let name = self.node.name();
        if is_short(name) {
            return None;
        }
        match self.parent {
            Some(parent) => element_feature(parent.listed, self.siblings.is_second(name), name),
            None => None,
        }
    }

    fn feature_by_codes(&self) -> Option<Feature>
        ensures { let visit = visit_shown self.now [] in result ≡ features.codes_feature visit.listed visit.parent visit.head }
    {
        match (self.listed, self.parent) {
            (Some(Listed::Representation), Some(set)) => has_foreign(
                value_named(self.node, "mimeType").or(set.media_type),
                value_named(self.node, "codecs").or(set.codecs),
            )
            .then_some(Feature::Unsupported),
            _ => None,
        }
    }

    fn check_attribute_features(&self) -> Result<(), RuleFault>
        ensures { result ≡ first_fault (features.attributes_told self.now.listed self.now.dynamic
            (element_of self.now.node).head.attributes) }
    {
        match self.listed {
            Some(listed) => check_listed_features(self.node, listed, self.dynamic),
            None => Ok(()),
        }
    }

    #[inline(always)]
    fn check_values(&self, addressing: Addressing) -> Result<(), RuleFault>
        ensures { (before : List Head) → IsBehind self.now.siblings.now self.now.dynamic before
            → result ≡ first_fault (refusals.values_at addressing (visit_shown self.now before)) }
    {
        let Some(listed) = self.listed else {
            return Ok(());
        };
        if self.is_incomplete(listed) {
            return Err(RuleFault::Missing(self.node.place()));
        }
        self.check_attribute_values(listed, addressing)
    }

    fn check_attribute_values(
        &self,
        listed: Listed,
        addressing: Addressing,
    ) -> Result<(), RuleFault>
        ensures { (before : List Head) → IsBehind self.now.siblings.now self.now.dynamic before →
            result ≡ first_fault (refusals.attributes_told addressing (visit_shown self.now before) (Some listed)) }
    {
        for attr in self.node.attributes() {
            if self.is_refused(listed, attr, addressing) {
                return Err(RuleFault::Value(attr.place()));
            }
        }
        Ok(())
    }

    fn is_refused(&self, listed: Listed, attr: Attr<'_>, addressing: Addressing) -> bool
        ensures { (before : List Head) → IsBehind self.now.siblings.now self.now.dynamic before →
            result ≡ (refusals.is_other_value addressing listed (attribute_shown attr.entry)
            || refusals.is_repeated_id (visit_shown self.now before) listed (attribute_shown attr.entry)) }
    {
        is_other_value(addressing, listed, attr) || self.is_repeated_id(listed, attr)
    }

    fn is_repeated_id(&self, listed: Listed, attr: Attr<'_>) -> bool
        ensures { (before : List Head) → IsBehind self.now.siblings.now self.now.dynamic before →
            result ≡ refusals.is_repeated_id (visit_shown self.now before) listed (attribute_shown attr.entry) }
    {
        match listed {
            Listed::Period => self.dynamic && attr.name == "id" && self.siblings.has_id(attr.value),
            _ => false,
        }
    }

    /// Whether something required is missing.
    fn is_incomplete(&self, listed: Listed) -> bool
        ensures { let visit = visit_shown self.now [] in
            result ≡ (list_any (refusals.lacks visit.head) (refusals.required_of (Some listed) visit.dynamic)
            || refusals.has_no_type visit.listed visit.parent visit.head) }
    {
        self.lacks_required(listed) || self.has_no_type()
    }

    fn lacks_required(&self, listed: Listed) -> bool
        ensures { result ≡ list_any (refusals.lacks (element_of self.now.node).head) (refusals.required_of (Some listed) self.now.dynamic) }
    {
        match (listed, self.dynamic) {
            (Listed::Mpd, true) => self.lacks("availabilityStartTime"),
            (Listed::Period, true) => self.lacks("id"),
            (Listed::Representation, _) => self.lacks("id") || self.lacks("bandwidth"),
            (Listed::S, _) => self.lacks("d"),
            _ => false,
        }
    }

    fn lacks(&self, name: &str) -> bool
        ensures { result ≡ refusals.lacks (element_of self.now.node).head name.now }
    {
        value_named(self.node, name).is_none()
    }

    /// Whether it is a Representation without a media type, its own or its AdaptationSet's.
    fn has_no_type(&self) -> bool
        ensures { let visit = visit_shown self.now [] in result ≡ refusals.has_no_type visit.listed visit.parent visit.head }
    {
        match (self.listed, self.parent) {
            (Some(Listed::Representation), Some(set)) => value_named(self.node, "mimeType")
                .or(set.media_type)
                .is_none(),
            _ => false,
        }
    }
}

fn is_other_value(addressing: Addressing, listed: Listed, attr: Attr<'_>) -> bool
    ensures { result ≡ refusals.is_other_value addressing listed (attribute_shown attr.entry) }
{
    match listed.attribute(attr.name, addressing) {
        Some(value) => !value.accepts(attr.value),
        None => false,
    }
}

fn check_listed_features(node: Node<'_>, listed: Listed, dynamic: bool) -> Result<(), RuleFault>
    ensures { result ≡ first_fault (features.attributes_told (Some listed) dynamic (element_of node.entry).head.attributes) }
{
    for attr in node.attributes() {
        if let Some(feature) = attribute_feature(dynamic, listed, attr) {
            return Err(feature.at(attr.place()));
        }
    }
    Ok(())
}

/// Whether an element has a duration, and nothing but the usual attributes of an S with numbers of few digits.
fn has_plain_values(node: Node<'_>) -> bool
    ensures { result ≡ has_plain_values (element_of node.entry).head }
{
    are_plain_values(node) && value_named(node, "d").is_some()
}

fn are_plain_values(node: Node<'_>) -> bool
    ensures { result ≡ list_all is_plain_value (element_of node.entry).head.attributes }
{
    node.attributes().all(|attr| is_plain_value(attr))
}

#[tactic(auto, unfolding(crate::specs::Plain::is_plain_value))]
fn is_plain_value(attr: Attr<'_>) -> bool
    ensures { result ≡ is_plain_value (attribute_shown attr.entry) }
{
    is_entry_value(attr.name) && are_few_digits(attr.value)
}
