// The media playlist of a followed track.
ghost use Rattle.std.specs.Prelude.{◌≡◌, ◌<◌, Some, length, slice_get, OnOk, OnErr};
ghost use Rattle.bridge_io.specs.Fault.{HasCause};
ghost use Rattle.bridge_io.specs.InOrder.{MayBegin};
ghost use Rattle.bridge_io.specs.Outside.{put, Changes};
ghost use Rattle.bridge_io.specs.declared.out_fault.OutFault.TheVariants.{WriteFault};
ghost use Rattle.hls_writer.specs.Items.{head_of, item_of};
ghost use Rattle.presentation.specs.Presented.{is_finished, looked_at};
ghost use Rattle.live_meaning.specs.Playlists.{live_text};

use bridge_io::{Name, Store};
use exact_time::Nanos;
use hls_writer::{MediaHead, MediaItem, OutFault, write_item_slices};
use iso_time::Instant;
use live_judge::{LiveTrack, Standing};
use presentation::Presentation;
use std::alloc::Global;
use std::marker::Model;
use url_parts::Spelling;

/// The current media playlist of a followed track: its header values, and the kept segments.
///
/// In a contract it is that playlist.
#[derive(Drop)]
pub struct LivePlaylist<'a> {
    pub(crate) standing: &'a Standing,
    pub(crate) track: &'a LiveTrack,
}

impl<'a> Model for LivePlaylist<'a> {
    ghost use Rattle.live_meaning.specs.Playlists.{FollowedPlaylist, playlist_with};

    ghost Value = { FollowedPlaylist };

    ghost use Rattle.live_judge.specs.Shown.{common_shown, track_shown};
    ghost use Rattle.live_session.specs.Written.{IsWritten};

    ghost view = { λ p. playlist_with (common_shown p.standing.now) (track_shown p.track.now) };

    ghost invariant = { λ p. IsWritten p.track.now };
}

impl LivePlaylist<'_> {
    /// The target duration in seconds (RFC 8216, 4.3.3.1). It never changes.
    pub fn target(&self) -> u64
        ensures { result ≡ self.now.head.target }
    {
        self.standing.target
    }

    /// The media sequence number of the first segment: how many were listed before it (RFC 8216, 4.3.3.2).
    pub fn sequence(&self) -> u64
        ensures { result ≡ self.now.head.sequence }
    {
        self.track.first
    }

    /// The section number of the first segment (RFC 8216, 4.3.3.3).
    #[tactic(auto, using(crate::proofs::Listing::first_there, crate::proofs::Listing::first_none))]
    pub fn first_section(&self) -> u64
        ensures { result ≡ self.now.head.first_section }
    {
        match self.track.items.front() {
            Some(item) => item.section,
            None => 0,
        }
    }

    /// Whether it has EXT-X-ENDLIST: the MPD in force is static (RFC 8216, 4.3.3.4).
    pub fn ended(&self) -> bool
        ensures { result ≡ self.now.head.ended }
    {
        is_finished(self.standing.force(), self.standing.instant)
    }

    /// How many segments are kept.
    #[tactic(auto, using(crate::proofs::Listing::listed))]
    pub fn len(&self) -> usize
        ensures { result ≡ length self.now.items }
    {
        self.track.items.len()
    }

    /// The segment at an index, counted from 0.
    ///
    /// Requires that the index is in range.
    #[tactic(auto, using(crate::proofs::Listing::listed))]
    pub fn item(&self, place: usize) -> &MediaItem
        requires { place < length self.now.items }
        ensures { slice_get self.now.items place ≡ Some (item_of result.now) }
    {
        item_at(self.track, place)
    }

    fn head(&self) -> MediaHead
        ensures { head_of result ≡ self.now.head }
    {
        MediaHead {
            target: self.target(),
            sequence: self.sequence(),
            first_section: self.first_section(),
            ended: self.ended(),
            digits: self.standing.digits,
        }
    }

    /// Writes it to a file, with URLs spelled so.
    ///
    /// An error leaves the file as it was, or with a prefix of the text. [`OutFault::WriteFault`] comes only where the store's
    /// count of failed writes rose.
    pub(crate) fn write<F: Store>(
        &self,
        alloc: Global,
        spelling: &Spelling,
        store: &mut F,
        name: &Name,
    ) -> Result<(), OutFault>
        ensures ok { OnOk result (Changes (put name.now (live_text spelling.now self.now)) (F.files store.old) (F.files store.new)) }
        ensures err { OnErr result (MayBegin (name.now, live_text spelling.now self.now) (F.files store.old) (F.files store.new)) }
        ensures cause { HasCause WriteFault (F.write_faults store.old) (F.write_faults store.new) result }
        ensures reads { F.read_faults store.new ≡ F.read_faults store.old }
    {
        let (front, back) = self.track.items.as_slices();
        write_item_slices(alloc, &self.head(), front, back, spelling, store, name)
    }
}

fn item_at(track: &LiveTrack, place: usize) -> &MediaItem
    requires { place < length track.now.items.items }
    ensures { slice_get track.now.items.items place ≡ Some result.now }
{
    track.items.get(place).unwrap()
}

/// Whether a presentation lists all of its segments at every time.
fn is_finished(force: &Presentation, now: Instant) -> bool
    ensures { result ≡ is_finished (looked_at now force.now) }
{
    force.window_from(Nanos(0), now).until.is_none()
}
