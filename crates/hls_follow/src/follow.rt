// Following a live HLS presentation.
ghost use Rattle.std.specs.Prelude.{◌≡◌, ◌<◌, ◌^◌, All, length, map, IfOk, IsSome, OnErr, OnOk, option_map, Some};
ghost use Rattle.bridge_io.specs.Answer.{Gives};
ghost use Rattle.iso_time.specs.Instant.{IsReadable};
ghost use Rattle.hls_media.specs.Laws.{IsBounded};
ghost use Rattle.dash_writer.specs.Live.{IsLive};
ghost use Rattle.std.specs.Option.{ForSome};
ghost use Rattle.bridge_io.specs.Fault.{HasCause};
ghost use Rattle.hls_follow.specs.Faults.{told};
ghost use Rattle.hls_follow.specs.OwnTimes.{timed_told, unread};
ghost use Rattle.hls_follow.specs.TimedRounds.{next_timed};
ghost use Rattle.hls_follow.specs.Kept.{medias_of};
ghost use Rattle.hls_follow.specs.Rounds as spec;

use crate::formers::FormerMedias;
use crate::round::{Round, follow_round};
use crate::state::Followed;
use crate::timed_round::time_round;
use crate::{LiveFault, TimedFault};
use bridge_io::{NoMemory, Store};
use dash_writer::LiveMpd;
use hls_master::Master;
use hls_presentation::MediaFiles;
use iso_time::Instant;
use std::alloc::Global;
use std::marker::Model;
use url_parts::Base;

/// A live presentation whose playlists are read repeatedly.
///
/// In a contract it is the master's tracks and the state after the accepted snapshots: which tracks are kept, their last playlists
/// with the times of their segments, and the MPD.
#[derive(Drop)]
pub struct Follow {
    alloc: Global,
    master: Master,
    followed: Option<Followed>,
}

impl Model for Follow {
    ghost use Rattle.hls_follow.specs.Rounds.{Following};

    ghost Value = { Following };

    ghost use Rattle.std.specs.Option.{ForSome};
    ghost use Rattle.hls_follow.specs.Kept.{IsSound};

    ghost view = { λ f. record { tracks = f.master; followed = f.followed } };

    ghost invariant = { λ f. ForSome f.followed IsSound };
}

/// How many segments an accepted snapshot appended, of all kept tracks: those whose sequence numbers are above all
/// earlier ones.
#[derive(Clone, Copy, PartialEq, Eq)]
pub struct Appended(pub u64);

impl Follow {
    /// The presentation of a master playlist, before the first snapshot.
    pub fn new(alloc: Global, master: Master) -> Result<Follow, NoMemory>
        ensures { IfOk result (λ f. f ≡ record { tracks = master; followed = None }) }
    {
        Ok(Follow {
            alloc,
            master,
            followed: None,
        })
    }

    /// Accepts a snapshot: one media playlist for each of the master's tracks, in order, as they were at one time. The first
    /// accepted one drops, for good, the text tracks that have a segment without map. Any error leaves the state as it was;
    /// errors come in the order of [`LiveFault`].
    ///
    /// Requires that the playlists are bounded as those that were read (`hls_media::what_is_read_is_bounded`).
    pub fn accept(&mut self, now: Instant, medias: MediaFiles) -> Result<Appended, LiveFault>
        requires now { IsReadable now }
        requires one_each { length medias ≡ length self.old.tracks }
        requires bounded { All IsBounded medias }
        ensures next { Gives (λ _. self.new) told result (spec.next_of self.old now medias) }
        ensures same { OnErr result (self.new ≡ self.old) }
        ensures appended { IfOk result (λ n. n.0 ≡ spec.appended_by self.old medias) }
    {
        let Round { followed, appended } = follow_round(
            self.alloc,
            self.master.tracks().as_slice(),
            self.followed.as_ref(),
            now,
            medias,
        )?;
        self.followed = Some(followed);
        Ok(Appended(appended))
    }

    /// Accepts a snapshot as [`accept`](Follow::accept) does, but with the media times of the segments' files in the store: for each
    /// section and track the timescale of its init segment (ISO/IEC 14496-12, 8.4.2), and the decode time of each segment's first sample
    /// (8.8.12). `folder` is the URL of the store's folder. The files of what the last accepted snapshot had aren't read again, and the
    /// store's files stay as they are. What the first accepted snapshot lists is available two of its greatest target durations before
    /// its time.
    ///
    /// Any error leaves the state as it was. Those of the playlists come in the order of [`LiveFault`], where `MapChanged` comes also
    /// after `ZeroDuration` of a track, where a section has another map than in the last accepted snapshot, and `Limit` only for too many
    /// sections or segments. Then come those of the media files, by section, then by track, the init segment first and then the segments
    /// in order, with those of a single file before those of times that don't follow each other; then `Limit` of times. After the errors
    /// of a single file `Limit` comes at the one with which more than 536,870,912 bytes of all files together come, up to the ends of the
    /// `moov` and `moof` that contain the timescales and times. `Fault` comes only where the store's count of failed reads rose.
    ///
    /// Requires that the playlists are bounded as those that were read. Each snapshot of a presentation is accepted by the same one of
    /// both calls.
    pub fn accept_timed<F: Store>(
        &mut self,
        now: Instant,
        medias: MediaFiles,
        folder: &Base,
        store: &mut F,
    ) -> Result<Appended, TimedFault>
        requires now { IsReadable now }
        requires one_each { length medias ≡ length self.old.tracks }
        requires bounded { All IsBounded medias }
        ensures next { ForSome (F.files store.old) (λ files.
            Gives (λ _. self.new) timed_told result (next_timed self.old now medias folder.now files)) }
        ensures same { OnErr result (self.new ≡ self.old) }
        ensures kept { OnOk result ((self.new.tracks ≡ self.old.tracks) × IsSome self.new.followed) }
        ensures appended { IfOk result (λ n. n.0 ≡ spec.appended_by self.old medias) }
        ensures cause { HasCause unread (F.read_faults store.old) (F.read_faults store.new) result }
        ensures files { F.files store.new ≡ F.files store.old }
        ensures writes { F.write_faults store.new ≡ F.write_faults store.old }
    {
        let Round { followed, appended } = time_round(
            self.alloc,
            self.master.tracks().as_slice(),
            self.followed.as_ref(),
            now,
            medias,
            folder,
            store,
        )?;
        self.followed = Some(followed);
        Ok(Appended(appended))
    }

    /// The playlists of the last accepted snapshot, by the master's tracks. It allocates nothing.
    pub fn formers(&self) -> FormerMedias<'_>
        ensures { result ≡ medias_of self.now.followed }
    {
        match &self.followed {
            Some(followed) => {
                FormerMedias::of(followed.kept.as_slice(), followed.tracks.as_slice())
            }
            None => FormerMedias::of(&[], &[]),
        }
    }

    /// The MPD after the last accepted snapshot. It allocates nothing.
    ///
    /// Requires that a snapshot was accepted.
    pub fn view(&self) -> &LiveMpd
        requires { IsSome self.now.followed }
        ensures mpd { option_map (λ f. f.mpd) self.now.followed ≡ Some result.now }
        ensures live { IsLive result.now }
    {
        match &self.followed {
            Some(followed) => &followed.mpd,
            None => unreachable!(),
        }
    }
}
