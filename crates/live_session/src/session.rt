// The session of a followed presentation.
ghost use Rattle.std.specs.Prelude.{◌≡◌, ◌<◌, List, [], ◌∷◌, length, None, Some, option_map};
ghost use Rattle.std.specs.Prelude.{IfOk, IsErrOf, IsNone, MatchResult, Ok, OnErr, OnOk};
ghost use Rattle.bridge_io.specs.Answer.{Gives};
ghost use Rattle.bridge_io.specs.Fault.{HasCause};
ghost use Rattle.bridge_io.specs.InOrder.{MayBegin};
ghost use Rattle.bridge_io.specs.Outside.{put, Changes};
ghost use Rattle.bridge_io.specs.declared.out_fault.OutFault.TheVariants.{WriteFault};
ghost use Rattle.iso_time.specs.Instant.{IsReadable};
ghost use Rattle.mpd_rules.specs.Views.{segments_mpd};
ghost use Rattle.presentation.specs.Counting.{count_of_all, counted};
ghost use Rattle.live_meaning.specs.Laws.{Shows};
ghost use Rattle.live_meaning.specs.Playlists.{playlist_of};
ghost use Rattle.live_meaning.specs.Refusals.{appended_by, begun_of, first_appended_by, next_of};
ghost use Rattle.live_meaning.specs.Updates.{Refresh, Reset, Terms, Tick, Update};
ghost use Rattle.live_judge.specs.Coming.{update_of};
ghost use Rattle.live_judge.specs.Faults.{told};
ghost use Rattle.live_judge.specs.declared.fault.RefreshFault.TheVariants.{Memory};
ghost use Rattle.live_session.specs.Begun.{IsBegunBy, IsFirstMpd, IsUnbegun};
ghost use Rattle.live_session.specs.Changes.{IsLeft, IsTaken};
ghost use Rattle.live_session.specs.Sessions.{Counts, Goes, refresh_by, text_of};

use crate::LivePlaylist;
use crate::begin::{check_first, first_standing, first_tracks, start_of};
use crate::change::{advance, force_by, go_on, know, prepare, presented};
use crate::growth::make_room;
use bridge_io::{Ledger, Name, Steps, Store};
use exact_time::Digits;
use hls_writer::OutFault;
use iso_time::Instant;
use live_judge::{
    Coming, LiveTrack, RefreshFault, Standing, accepted_states_stay_sound, first_states_are_sound,
};
use live_meaning::{histories_go_on, playlists_are_never_empty};
use mpd_presentation::{from_mpd, presentations_show_their_mpd};
use mpd_rules::Mpd;
use presentation::Presentation;
use std::alloc::Global;
use std::marker::Model;
use url_parts::{Base, Spelling};

/// A followed presentation: its state after the accepted updates.
///
/// In a contract it is that state: the part without the tracks; and for each track the kept segments, how many were listed
/// before them, the last one, and where its section began.
#[derive(Drop)]
pub struct Session {
    alloc: Global,
    standing: Standing,
    tracks: Vec<LiveTrack>,
}

impl Model for Session {
    ghost use Rattle.live_meaning.specs.States.{State};

    ghost Value = { State };

    ghost use Rattle.live_judge.specs.Shown.{state_shown};
    ghost use Rattle.live_session.specs.Sessions.{IsSession};

    ghost view = { λ s. state_shown s.standing s.tracks.items };

    ghost invariant = { λ s. IsSession s.standing s.tracks.items };
}

/// How many segments an accepted update appended, of all tracks.
#[derive(Clone, Copy, PartialEq, Eq)]
pub struct Appended(pub u64);

impl Session {
    /// Begins a session with a first MPD, which has to be dynamic. `base` is the MPD's own URL; durations are printed with this
    /// number of decimals.
    #[tactic(auto, using(crate::proofs::Refusing::begun_next))]
    pub fn begin<L: Ledger>(
        alloc: Global,
        mpd: &Mpd,
        base: &Base,
        now: Instant,
        digits: Digits,
        steps: &mut Steps<L>,
    ) -> Result<Session, RefreshFault>
        requires now { IsReadable now }
        ensures next { let terms : Terms = record { url = base.now; digits = digits } in
            Gives (λ session. session) told result (begun_of terms (segments_mpd mpd.now) now) }
        ensures history { let terms : Terms = record { url = base.now; digits = digits } in
            IfOk result (λ session. Shows terms (Refresh (segments_mpd mpd.now) now ∷ []) session) }
        ensures counted { let terms : Terms = record { url = base.now; digits = digits } in
            Counts (first_appended_by terms (segments_mpd mpd.now) now) steps.old steps.new result }
    {
        let _ = mpd.live(); // tells that no two Periods have one id
        presentations_show_their_mpd();
        let opened = from_mpd(alloc, mpd, base, Some(now))?;
        check_first(mpd, &opened)?;
        Session::begun(alloc, mpd, base, now, digits, opened, steps)
    }

    /// The session of a first MPD that is valid except for the URL of a segment.
    fn begun<L: Ledger>(
        alloc: Global,
        mpd: &Mpd,
        base: &Base,
        now: Instant,
        digits: Digits,
        opened: Presentation,
        steps: &mut Steps<L>,
    ) -> Result<Session, RefreshFault>
        requires now { IsReadable now }
        requires first { IsFirstMpd (record { url = base.now; digits = digits }) (segments_mpd mpd.now) now opened }
        ensures { let terms : Terms = record { url = base.now; digits = digits } in MatchResult result
            (λ session. IsBegunBy terms (segments_mpd mpd.now) now session steps.old steps.new)
            (λ fault. IsUnbegun terms (segments_mpd mpd.now) now fault steps.old steps.new) }
    {
        histories_go_on();
        first_states_are_sound();
        playlists_are_never_empty();
        let tracks = first_tracks(alloc, &opened, now, digits, start_of(mpd), steps)?;
        let standing = first_standing(alloc, mpd, base, now, digits, opened)?;
        Ok(Session {
            alloc,
            standing,
            tracks,
        })
    }

    /// Applies a new version of the MPD, or a tick. Any error leaves the session as it was. A tick allocates nothing where it brings
    /// no segments, or where it is rejected for another reason than a URL.
    ///
    /// Requires that fewer than 10,000,000 updates were accepted so far.
    pub fn refresh<L: Ledger>(
        &mut self,
        mpd: Option<&Mpd>,
        now: Instant,
        steps: &mut Steps<L>,
    ) -> Result<Appended, RefreshFault>
        requires room { self.old.common.accepted < 10000000 }
        ensures next { let mpd = option_map (λ mpd. segments_mpd mpd.now) mpd.entry in
            Gives (λ _. self.new) told result (next_of self.old (refresh_by mpd now)) }
        ensures same { OnErr result (self.new ≡ self.old) }
        ensures history { let mpd = option_map (λ mpd. segments_mpd mpd.now) mpd.entry in
            (terms : Terms) (history : List Update) → Shows terms history self.old
            → Goes terms history (refresh_by mpd now) result self.new }
        ensures appended { let mpd = option_map (λ mpd. segments_mpd mpd.now) mpd.entry in
            IfOk result (λ n. n.0 ≡ appended_by self.old (refresh_by mpd now)) }
        ensures counted { let mpd = option_map (λ mpd. segments_mpd mpd.now) mpd.entry in
            Counts (appended_by self.old (refresh_by mpd now)) steps.old steps.new result }
        ensures ticks { IsNone mpd.entry → appended_by self.old (Tick now) ≡ 0 → IsErrOf result Memory → ⊥ }
    {
        histories_go_on();
        match mpd {
            Some(mpd) => self.follow(Coming::Refresh(mpd), now, steps),
            None => self.follow(Coming::Tick, now, steps),
        }
    }

    /// Applies a version of the MPD after some that were missed: a new section begins in all tracks. Any error leaves the session
    /// as it was.
    ///
    /// Requires that fewer than 10,000,000 updates were accepted so far.
    pub fn reset<L: Ledger>(
        &mut self,
        mpd: &Mpd,
        now: Instant,
        steps: &mut Steps<L>,
    ) -> Result<Appended, RefreshFault>
        requires room { self.old.common.accepted < 10000000 }
        ensures next { Gives (λ _. self.new) told result (next_of self.old (Reset (segments_mpd mpd.now) now)) }
        ensures same { OnErr result (self.new ≡ self.old) }
        ensures history { (terms : Terms) (history : List Update) → Shows terms history self.old
            → Goes terms history (Reset (segments_mpd mpd.now) now) result self.new }
        ensures appended { IfOk result (λ n. n.0 ≡ appended_by self.old (Reset (segments_mpd mpd.now) now)) }
        ensures counted { Counts (appended_by self.old (Reset (segments_mpd mpd.now) now)) steps.old steps.new result }
    {
        histories_go_on();
        self.follow(Coming::Reset(mpd), now, steps)
    }

    /// Applies an update.
    fn follow<L: Ledger>(
        &mut self,
        coming: Coming<'_>,
        now: Instant,
        steps: &mut Steps<L>,
    ) -> Result<Appended, RefreshFault>
        requires room { self.old.common.accepted < 10000000 }
        ensures { let u = update_of coming.entry now in MatchResult result (λ n. IsTaken self.old u n.0 self.new steps.old steps.new)
            (λ fault. IsLeft self.old u fault self.new steps.old steps.new) }
    {
        histories_go_on();
        playlists_are_never_empty();
        accepted_states_stay_sound();
        self.standing.check_now(now)?;
        let newest = presented(self.alloc, &self.standing, coming, now)?;
        let plan = prepare(
            self.alloc,
            &self.standing,
            self.tracks.as_slice(),
            coming,
            force_by(&self.standing, &newest),
            now,
            steps,
        )?;
        make_room(&mut self.tracks, plan.made.as_slice())?;
        know(self.alloc, &mut self.standing.known, plan.periods)?;
        advance(&mut self.standing, newest, plan.change);
        Ok(Appended(go_on(&self.standing, &mut self.tracks, plan.made)))
    }

    /// The playlist of a track. It allocates nothing.
    ///
    /// Requires that the track is in range.
    pub fn playlist(&self, track: usize) -> LivePlaylist<'_>
        requires { track < length self.now.tracks }
        ensures { playlist_of self.now track ≡ Some result }
    {
        LivePlaylist {
            standing: &self.standing,
            track: &self.tracks[track],
        }
    }

    /// Writes the playlist of a track to a file, with URLs spelled so.
    ///
    /// Requires that the track is in range. An error leaves the file as it was, or with a prefix of the text.
    /// [`OutFault::WriteFault`] comes only where the store's count of failed writes rose.
    pub fn write<F: Store>(
        &self,
        track: usize,
        spelling: &Spelling,
        store: &mut F,
        name: &Name,
    ) -> Result<(), OutFault>
        requires { track < length self.now.tracks }
        ensures ok { OnOk result (Changes (put name.now (text_of spelling.now self.now track)) (F.files store.old) (F.files store.new)) }
        ensures err { OnErr result (MayBegin (name.now, text_of spelling.now self.now track) (F.files store.old) (F.files store.new)) }
        ensures cause { HasCause WriteFault (F.write_faults store.old) (F.write_faults store.new) result }
        ensures reads { F.read_faults store.new ≡ F.read_faults store.old }
    {
        self.playlist(track)
            .write(self.alloc, spelling, store, name)
    }

    /// The presentation of the first MPD at its time, for the master playlist.
    pub fn first(&self) -> &Presentation
        ensures first { result.now ≡ self.now.common.opened }
        ensures tracks { length result.now.tracks ≡ length self.now.tracks }
        ensures counted { counted result.now ≡ Ok (count_of_all result.now) }
    {
        &self.standing.opened
    }

    /// How many updates were accepted, including the first MPD.
    pub fn accepted(&self) -> u64
        ensures { result ≡ self.now.common.accepted }
    {
        self.standing.accepted
    }
}
