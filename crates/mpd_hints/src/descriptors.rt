// What the descriptors of an element say: roles, purposes and numbers of channels.
ghost use Rattle.std.specs.Prelude.{◌≡◌, option_map};
ghost use Rattle.mpd_tree.specs.Nodes.{element_of};
ghost use Rattle.mpd_hints.specs.Tracks as spec;

use crate::elements::is_word;
use mpd_profile::value_named;
use mpd_tree::Node;

/// The roles of ISO/IEC 23009-1, 5.8.5.5.
const ROLE: &str = "urn:mpeg:dash:role:2011";

/// The purposes of audio of TV-Anytime.
const PURPOSE: &str = "urn:tva:metadata:cs:AudioPurposeCS:2007";

/// Whether an element's scheme is this one.
pub(crate) fn has_scheme(node: Node<'_>, scheme: &str) -> bool
    ensures { result ≡ spec.has_scheme scheme.now (element_of node.entry) }
{
    is_word(node, "schemeIdUri", scheme)
}

fn is_told(node: Node<'_>, name: &str, scheme: &str, value: &str) -> bool
    ensures { result ≡ spec.is_told name.now scheme.now value.now (element_of node.entry) }
{
    node.name() == name && has_scheme(node, scheme) && is_word(node, "value", value)
}

/// Whether a set has a child of this name with this scheme and this value.
fn tells(set: Node<'_>, name: &str, scheme: &str, value: &str) -> bool
    ensures { result ≡ spec.tells name.now scheme.now value.now (element_of set.entry) }
{
    set.children()
        .any(|child| is_told(child, name, scheme, value))
}

pub(crate) fn has_role(set: Node<'_>, value: &str) -> bool
    ensures { result ≡ spec.has_role value.now (element_of set.entry) }
{
    tells(set, "Role", ROLE, value)
}

fn has_accessibility(set: Node<'_>, scheme: &str, value: &str) -> bool
    ensures { result ≡ spec.has_accessibility scheme.now value.now (element_of set.entry) }
{
    tells(set, "Accessibility", scheme, value)
}

/// Whether a set's audio describes the video.
pub(crate) fn describes(set: Node<'_>) -> bool
    ensures { result ≡ spec.describes (element_of set.entry) }
{
    has_role(set, "description")
        || has_accessibility(set, ROLE, "description")
        || has_accessibility(set, PURPOSE, "1")
}

/// Whether a set's text transcribes dialogue and sound.
pub(crate) fn transcribes(set: Node<'_>) -> bool
    ensures { result ≡ spec.transcribes (element_of set.entry) }
{
    has_role(set, "caption") || has_accessibility(set, ROLE, "caption")
}

/// Whether a set's text is to be shown although subtitles aren't chosen.
pub(crate) fn is_forced(set: Node<'_>) -> bool
    ensures { result ≡ spec.is_forced (element_of set.entry) }
{
    has_role(set, "forced-subtitle") || has_role(set, "forced_subtitle")
}

/// How many channels an element's own configuration says that there are, otherwise those of its set.
pub(crate) fn channels_over(of_set: Option<u8>, node: Node<'_>) -> Option<u8>
    ensures { result ≡ spec.channels_over of_set (spec.configuration_in (element_of node.entry)) }
{
    match configuration_in(node) {
        Some(configuration) => channels_by(configuration),
        None => of_set,
    }
}

fn channels_by(configuration: Node<'_>) -> Option<u8>
    ensures { result ≡ spec.channels_by (element_of configuration.entry) }
{
    count_in(value_named(configuration, "value")?.as_bytes())
}

/// One digit from 1 to 6.
fn count_in(text: &[u8]) -> Option<u8>
    ensures { result ≡ spec.count_in text.now }
{
    match text {
        [digit] if b'1' <= *digit && *digit <= b'6' => Some(*digit - b'0'),
        _ => None,
    }
}

fn configuration_in(node: Node<'_>) -> Option<Node<'_>>
    ensures { option_map element_of result ≡ spec.configuration_in (element_of node.entry) }
{
    node.children().find(|child| is_configuration(*child))
}

fn is_configuration(node: Node<'_>) -> bool
    ensures { result ≡ spec.is_configuration (element_of node.entry) }
{
    node.name() == "AudioChannelConfiguration"
        && (has_scheme(
            node,
            "urn:mpeg:dash:23003:3:audio_channel_configuration:2011",
        ) || has_scheme(node, "urn:mpeg:mpegB:cicp:ChannelConfiguration"))
}
