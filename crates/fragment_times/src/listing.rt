// The listed segments whose files are read.
ghost use Rattle.std.specs.Prelude.{◌≡◌, ◌<◌, All, length};
ghost use Rattle.presentation.specs.Laws.{HasAddress};
ghost use Rattle.presentation.specs.Listable.{AreListable};
ghost use Rattle.presentation.specs.Presented.{listed_at};
ghost use Rattle.fragment_times.specs.Times.{IsTimelineAt};

use presentation::Presentation;
use timeline::{Listing, closed_ends};

/// The listed segments of a track in a section, from the first one on. It allocates nothing.
///
/// Requires that the section and the track are in range, and that each listed segment has a URL, as
/// [`presentation::playlists_can_be_listed`] says of a presentation that came from playlists.
pub fn listing_at(presentation: &Presentation, section: usize, track: usize) -> Listing<'_>
    requires listable { AreListable presentation.now }
    requires section { section < length presentation.now.sections }
    requires track { track < length presentation.now.tracks }
    ensures left { result.left ≡ listed_at presentation.now section track }
    ensures timeline { IsTimelineAt presentation.now section track result.timeline }
    ensures addressed { All (HasAddress result.timeline) result.left }
{
    closed_ends();
    let runs = presentation.runs(section, track);
    let window = presentation.window(section);
    runs.resume(&runs.seek(&window), &window)
}
