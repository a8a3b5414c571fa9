//! Laws of audio groups.
ghost use Rattle.audio_groups.specs.Laws.{GroupsArePure};

/// All members of a group that isn't filled ([`Filling::Pure`](crate::Filling::Pure)) have the same codecs, and it has one member of
/// each audio set that has a track with these codecs.
pub fn groups_are_pure()
    ensures { GroupsArePure }
{}
