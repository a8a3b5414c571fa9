// Whether two folders have the same tracks.
ghost use Rattle.std.specs.Prelude.{◌≡◌, bytes_eq};
ghost use Rattle.std.specs.Option.{option_eq};
ghost use Rattle.meaning.specs.Differences.{is_same_kind};
ghost use Rattle.publish_core.specs.Sides as spec;

use crate::side::SideTrack;
use bridge_io::{Kind, Text};

/// Whether two masters have the same tracks: in number, order, kind, language and file.
pub(crate) fn are_same_tracks(mut news: &[SideTrack], mut olds: &[SideTrack]) -> bool
    ensures { result ≡ spec.are_same_tracks news.entry.now olds.entry.now }
{
    while let (Some((new, later_news)), Some((old, later_olds))) = (
        news.split_first(),
        olds.split_first(),
    ) {
        if !is_same_track(new, old) {
            return false;
        }
        (news, olds) = (later_news, later_olds);
    }
    news.is_empty() && olds.is_empty()
}

fn is_same_track(new: &SideTrack, old: &SideTrack) -> bool
    ensures { result ≡ spec.is_same_track new.now old.now }
{
    is_same_kind(new.kind, old.kind)
        && is_same_language(&new.language, &old.language)
        && new.file.as_str() == old.file.as_str()
}

pub(crate) fn is_same_kind(a: Kind, b: Kind) -> bool
    ensures { result ≡ is_same_kind a b }
{
    matches!(
        (a, b),
        (Kind::Video, Kind::Video) | (Kind::Audio, Kind::Audio) | (Kind::Text, Kind::Text)
    )
}

pub(crate) fn is_same_language(a: &Option<Text>, b: &Option<Text>) -> bool
    ensures { result ≡ option_eq bytes_eq a.now b.now }
{
    match (a, b) {
        (Some(a), Some(b)) => a.as_str() == b.as_str(),
        (None, None) => true,
        _ => false,
    }
}
