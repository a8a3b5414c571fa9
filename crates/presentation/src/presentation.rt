// Presentations.
ghost use Rattle.std.specs.Prelude.{◌≡◌, ℕ, ℤ, ◌<◌, ◌*◌, ◌+◌, ◌^◌, ◌-ℤ◌, unsigned_abs, length, All, None, Some, option_map};
ghost use Rattle.presentation.specs.Presented.{of_parts, of_placed, content_at, start_of, looked_at, following_of, IsEnded, AreFilled};
ghost use Rattle.presentation.specs.Presented.{window_of, window_at, window_from};
ghost use Rattle.iso_time.specs.Instant.{IsReadable};
ghost use Rattle.timeline.specs.Listed.{IsWindowOf};

use crate::{Content, ContentList, Parts, SectionList, TrackList};
use bridge_io::Place;
use exact_time::Nanos;
use iso_time::Instant;
use std::alloc::Global;
use std::marker::Model;
use timeline::{Runs, Window};
use url_parts::Part;

/// The timing of a followed presentation (ISO/IEC 23009-1, 5.3.1.2).
#[derive(Clone, Copy)]
pub struct Following {
    /// The current time.
    pub instant: Instant,
    /// `@availabilityStartTime`.
    pub availability_start: Instant,
    /// `@timeShiftBufferDepth`.
    pub depth: Option<Nanos>,
}

impl Following {
    /// The window of the listed segments in a Period with this start.
    pub(crate) fn window(&self, start: Nanos) -> Window
        ensures { result ≡ window_at (following_of self.now) start }
    {
        let since = minus(self.instant.0, self.availability_start.0);
        let until = minus(since, i128::from(start.0));
        let after = match self.depth {
            Some(depth) => Some(minus(until, i128::from(depth.0))),
            None => None,
        };
        Window {
            after,
            until: Some(until),
        }
    }
}

/// The difference of two times, in nanoseconds.
fn minus(time: i128, less: i128) -> i128
    requires time { unsigned_abs time < 2 ^ 100 }
    requires less { unsigned_abs less < 2 ^ 100 }
    ensures { result ≡ time -ℤ less }
{
    time - less
}

/// Tracks over sections, with their segments.
///
/// In a contract it is its tracks, its sections, the contents of the tracks in the sections, and the timing of a
/// followed one.
#[derive(Drop)]
pub struct Presentation {
    pub(crate) tracks: TrackList,
    pub(crate) sections: SectionList,
    pub(crate) contents: ContentList,
    pub(crate) left_out: u64,
    pub(crate) following: Option<Following>,
    /// The positions of the contents' Representations, where they come from an MPD.
    pub(crate) places: Vec<Place>,
}

impl Model for Presentation {
    ghost use Rattle.presentation.specs.Presented.{Presented};

    ghost Value = { Presented };

    ghost use Rattle.presentation.specs.Kept.{presented, IsKept};

    ghost view = { presented };

    ghost invariant = { IsKept };
}

impl Presentation {
    ghost use Rattle.std.specs.Option.{option_copied};
    ghost use Rattle.presentation.specs.Presented.{Presented};

    /// The presentation of these parts.
    ///
    /// Requires that there is one content for each section and track, and that no content's segments continue to an
    /// open end.
    pub fn from_parts(alloc: Global, parts: Parts) -> Presentation
        requires filled { AreFilled (length parts.sections) (length parts.tracks) (length parts.contents) }
        requires ended { All IsEnded parts.contents }
        ensures { result ≡ of_parts parts }
    {
        Presentation::from_placed(parts, None, Vec::new(alloc))
    }

    /// The presentation of these parts, with its timing where it is followed. `places` are the positions of the contents'
    /// Representations in an MPD.
    ///
    /// Requires that there is one content for each section and track, and that no content's segments continue to an open
    /// end where the presentation isn't followed.
    pub fn from_placed(
        parts: Parts,
        following: Option<Following>,
        places: Vec<Place>,
    ) -> Presentation
        requires filled { AreFilled (length parts.sections) (length parts.tracks) (length parts.contents) }
        requires ended { following ≡ None → All IsEnded parts.contents }
        ensures { result ≡ of_placed parts (option_map following_of following) places.items }
    {
        Presentation {
            tracks: parts.tracks,
            sections: parts.sections,
            contents: parts.contents,
            left_out: parts.left_out,
            following,
            places,
        }
    }

    /// The tracks in order.
    pub fn tracks(&self) -> &TrackList
        ensures { result.now ≡ self.now.tracks }
    {
        &self.tracks
    }

    /// The sections in order.
    pub fn sections(&self) -> &SectionList
        ensures { result.now ≡ self.now.sections }
    {
        &self.sections
    }

    /// How many sets and tracks were dropped.
    pub fn left_out(&self) -> u64
        ensures { result ≡ self.now.left_out }
    {
        self.left_out
    }

    /// The segments of a track in a section. The windows of all sections fit them, at each time.
    ///
    /// Requires that both are in range.
    pub fn runs(&self, section: usize, track: usize) -> &Runs
        requires section { section < length self.now.sections }
        requires track { track < length self.now.tracks }
        ensures content { option_map (λ content. content.runs) (content_at self.now section track) ≡ Some result.now }
        ensures fits { IsWindowOf result.now (window_of self.now section) }
        ensures fits_from { (now : ℤ) (start : ℕ) → IsWindowOf result.now (window_from (looked_at now self.now) start) }
    {
        &self.content(section, track).runs
    }

    /// The init segment of a track in a section.
    ///
    /// Requires that both are in range.
    pub fn initialization(&self, section: usize, track: usize) -> &Part
        requires section { section < length self.now.sections }
        requires track { track < length self.now.tracks }
        ensures { option_map (λ content. content.initialization) (content_at self.now section track) ≡ Some result.now }
    {
        &self.content(section, track).initialization
    }

    /// The window of the listed segments in a section: all in a VOD presentation.
    ///
    /// Requires that the section is in range.
    pub fn window(&self, section: usize) -> Window
        requires { section < length self.now.sections }
        ensures { result ≡ window_of self.now section }
    {
        let Some(following) = &self.following else {
            return Window {
                after: None,
                until: None,
            };
        };
        following.window(self.start_of(section))
    }

    /// The window of the listed segments in a Period with this start at another time: all in a VOD presentation. The
    /// presentation doesn't change. It allocates nothing.
    pub fn window_from(&self, start: Nanos, now: Instant) -> Window
        ensures { result ≡ window_from (looked_at now self.now) start }
    {
        let Some(mut following) = self.following else {
            return Window {
                after: None,
                until: None,
            };
        };
        following.instant = now;
        following.window(start)
    }

    /// Sets the current time of a followed presentation. A VOD one doesn't change.
    pub fn set_now(&mut self, now: Instant)
        requires { IsReadable now }
        ensures { self.new ≡ looked_at now self.old }
    {
        if let Some(following) = &mut self.following {
            following.instant = now;
        }
    }

    /// When a section's Period begins.
    pub(crate) fn start_of(&self, section: usize) -> Nanos
        requires { section < length self.now.sections }
        ensures { result ≡ start_of self.now section }
    {
        self.sections.as_slice()[section].start
    }

    /// The content of a track in a section.
    pub(crate) fn content(&self, section: usize, track: usize) -> &Content
        requires section { section < length self.now.sections }
        requires track { track < length self.now.tracks }
        ensures content { content_at self.now section track ≡ Some result.now }
        ensures fits { IsWindowOf result.now.runs (window_of self.now section) }
        ensures fits_from { (now : ℤ) (start : ℕ) → IsWindowOf result.now.runs (window_from (looked_at now self.now) start) }
    {
        &self.contents.as_slice()[self.place_in(section, track)]
    }

    /// The index of the content of a track in a section.
    pub(crate) fn place_in(&self, section: usize, track: usize) -> usize
        requires section { section < length self.now.sections }
        requires track { track < length self.now.tracks }
        ensures place { result ≡ section * length self.now.tracks + track }
        ensures within { result < length self.now.contents }
    {
        let _ = self.contents.len(); // which fits a number
        section * self.tracks.len() + track
    }
}
