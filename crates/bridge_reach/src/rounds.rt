// Following live playlists.
ghost use Rattle.std.specs.Prelude.{◌≡◌, ℕ, ◌+◌, ◌<◌, All, length, IfErr, IfOk, IfSome, OnErr, OnOk, Some};
ghost use Rattle.bridge_io.specs.Answer.{Gives};
ghost use Rattle.iso_time.specs.Instant.{IsReadable};
ghost use Rattle.hls_media.specs.Laws.{IsBounded};
ghost use Rattle.hls_follow.specs.Rounds.{appended_by};
ghost use Rattle.bridge_jobs.specs.Frames.{most_frames};
ghost use Rattle.bridge_report.specs.Refusals.{refusal_text, refused_in};
ghost use Rattle.bridge_steps.specs.Follow.{Accepts};
ghost use Rattle.bridge_reach.specs.Rounds as spec;

use bridge_io::{Bytes, Ledger, Name, OutFault, Sequence, Source, Steps, Store};
use bridge_jobs::laws::rounds_follow;
use bridge_jobs::{BodyList, FrameFault, FramePos, Round, read_round};
use bridge_report::{FrameStop, Stop};
use bridge_steps::Follow;
use dash_writer::write_live_mpd;
use hls_follow::FormerMedias;
use hls_media::{Media, read_update, what_is_read_is_bounded};
use hls_presentation::MediaFiles;
use iso_time::Instant;
use segment_forms::Form;
use std::alloc::Global;
use url_parts::Base;

/// The URLs of playlists.
pub type BaseList = Sequence<Base>;

/// Live playlists that are followed, by snapshots.
#[derive(Drop)]
pub struct LiveHls {
    /// The playlists' URLs, by the tracks of the master playlist.
    pub urls: BaseList,
    /// How the MPD gives the segments of its tracks.
    pub form: Form,
    /// The file of the MPD.
    pub name: Name,
}

/// The state after the accepted snapshots.
#[derive(Drop)]
pub struct LiveRounds {
    /// The presentation.
    pub follow: hls_follow::Follow,
    /// How many snapshots were accepted.
    pub accepted: u64,
}

impl Follow for LiveHls {
    type Frame = Round;

    type Live = LiveRounds;

    ghost told = { λ hls _. spec.followed_rounds hls };

    ghost accepted = { λ hls live. live.accepted };

    ghost is_kept = { λ hls live. spec.IsKept hls live };

    ghost stream = { λ hls. spec.round_stream hls };

    ghost is_read = { λ hls round. spec.IsRead hls round };

    fn next<I: Source>(
        &self,
        alloc: Global,
        input: &mut I,
        at: &mut FramePos,
    ) -> Result<Option<Round>, FrameFault> {
        rounds_follow();
        read_round(alloc, input, self.urls.len(), at)
    }

    fn accept<F: Store, L: Ledger>(
        &self,
        alloc: Global,
        live: &mut LiveRounds,
        round: &Round,
        _store: &mut F,
        _steps: &mut Steps<L>,
    ) -> Result<u64, FrameStop> {
        match self.judge(alloc, live, round) {
            Ok(appended) => Ok(appended),
            Err(stop) => Err(FrameStop::of(alloc, stop)),
        }
    }

    fn publish<F: Store>(
        &self,
        alloc: Global,
        live: &LiveRounds,
        store: &mut F,
    ) -> Result<(), OutFault> {
        write_live_mpd(alloc, self.form, live.follow.view(), store, &self.name)
    }
}

impl LiveHls {
    /// Applies a snapshot, and returns how many segments it appended; or why it is rejected, and then nothing is changed.
    fn judge(&self, alloc: Global, live: &mut LiveRounds, round: &Round) -> Result<u64, Stop>
        requires few { live.old.accepted < most_frames }
        requires kept { spec.IsKept self.now live.old }
        requires read { spec.IsRead self.now round.now }
        ensures accepted { IfOk result (λ n. (made : ℕ) →
            Accepts (spec.followed_rounds self.now) live.old round.entry.now live.new n made made) }
        ensures refused { IfErr result (λ stop. IfSome (refused_in stop) (λ r.
            (spec.followed_rounds self.now).refusal live.old round.entry.now ≡ Some (refusal_text r))) }
        ensures same { OnErr result (live.new ≡ live.old) }
        ensures counts { OnOk result (live.new.accepted ≡ live.old.accepted + 1) }
        ensures kept { spec.IsKept self.now live.new }
    {
        match round_medias(alloc, self, live.follow.formers(), &round.bodies) {
            Ok(medias) => take(live, round.now, medias),
            Err(stop) => Err(stop),
        }
    }
}

/// Applies a snapshot's playlists, and returns how many segments it appended; or why it is rejected, and then nothing is
/// changed.
#[tactic(auto, unfolding(crate::specs::Rounds::taken))]
fn take(live: &mut LiveRounds, now: Instant, medias: MediaFiles) -> Result<u64, Stop>
    requires now { IsReadable now }
    requires one_each { length medias ≡ length live.old.follow.tracks }
    requires bounded { All IsBounded medias }
    requires few { live.old.accepted < most_frames }
    ensures next { Gives (λ _. live.new) refused_in result (spec.taken live.old now medias) }
    ensures same { OnErr result (live.new ≡ live.old) }
    ensures appended { IfOk result (λ n. n ≡ appended_by live.old.follow medias) }
{
    match live.follow.accept(now, medias) {
        Ok(appended) => {
            live.accepted += 1;
            Ok(appended.0)
        }
        Err(fault) => Err(Stop::of_live(fault)),
    }
}

/// Reads the playlists of a snapshot, also those of dropped tracks. They share the texts of URLs with those before.
pub(crate) fn round_medias(
    alloc: Global,
    hls: &LiveHls,
    formers: FormerMedias<'_>,
    bodies: &BodyList,
) -> Result<MediaFiles, Stop>
    requires { length bodies.now ≡ length hls.now.urls }
    ensures medias { Gives (λ medias. medias) refused_in result (spec.medias_of hls.now.urls bodies.now) }
    ensures one_each { IfOk result (λ medias. length medias ≡ length hls.now.urls) }
    ensures bounded { IfOk result (All IsBounded) }
{
    medias_of(alloc, formers, hls.urls.as_slice(), bodies.as_slice())
}

/// Reads playlists in order, each with its URL (RFC 8216, 4).
fn medias_of(
    alloc: Global,
    mut formers: FormerMedias<'_>,
    mut urls: &[Base],
    mut bodies: &[Bytes],
) -> Result<MediaFiles, Stop>
    requires { length bodies.now ≡ length urls.now }
    ensures medias { Gives (λ medias. medias) refused_in result (spec.medias_of urls.entry.now bodies.entry.now) }
    ensures one_each { IfOk result (λ medias. length medias ≡ length urls.entry.now) }
    ensures bounded { IfOk result (All IsBounded) }
{
    let mut medias = MediaFiles::new(alloc);
    while let (Some((url, later_urls)), Some((body, later_bodies))) = (
        urls.split_first(),
        bodies.split_first(),
    ) {
        medias = medias_with(alloc, medias, formers.next(), url, body.as_slice())?;
        (urls, bodies) = (later_urls, later_bodies);
    }
    Ok(medias)
}

/// Adds the playlist of bytes at a URL.
#[tactic(auto, unfolding(crate::specs::Rounds::medias_with))]
fn medias_with(
    alloc: Global,
    medias: MediaFiles,
    former: Option<&Media>,
    url: &Base,
    body: &[u8],
) -> Result<MediaFiles, Stop>
    requires { All IsBounded medias }
    ensures medias { Gives (λ medias. medias) refused_in result (spec.medias_with medias url.now body.now) }
    ensures one_more { IfOk result (λ more. length more ≡ length medias + 1) }
    ensures bounded { IfOk result (All IsBounded) }
{
    let media = media_in(alloc, former, url, body)?;
    let mut medias = medias;
    match medias.push(media) {
        Ok(()) => Ok(medias),
        Err(_) => Err(Stop::Memory),
    }
}

/// Bytes at a URL as a media playlist.
fn media_in(alloc: Global, former: Option<&Media>, url: &Base, body: &[u8]) -> Result<Media, Stop>
    ensures media { Gives (λ media. media) refused_in result (spec.media_in url.now body.now) }
    ensures bounded { IfOk result IsBounded }
{
    what_is_read_is_bounded();
    match read_update(alloc, body, url, former) {
        Ok(media) => Ok(media),
        Err(fault) => Err(Stop::of_media(fault)),
    }
}
