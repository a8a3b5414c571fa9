// Update frames of a followed MPD, by its session.
ghost use Rattle.std.specs.Prelude.{◌≡◌, ◌<◌, Some, IfOk, OnErr, option_map};
ghost use Rattle.bridge_io.specs.Answer.{Gives};
ghost use Rattle.iso_time.specs.Instant.{IsReadable};
ghost use Rattle.bridge_jobs.specs.Frames.{now_of};
ghost use Rattle.mpd_rules.specs.Views.{segments_mpd};
ghost use Rattle.presentation.specs.Counting.{count_of_all};
ghost use Rattle.bridge_io.specs.Answer.{told_as};
ghost use Rattle.live_judge.specs.Faults as faults;
ghost use Rattle.live_meaning.specs.Laws.{IsTyped};
ghost use Rattle.live_meaning.specs.Refusals.{begun_of, first_appended_by};
ghost use Rattle.live_meaning.specs.Updates.{Terms};
ghost use Rattle.bridge_report.specs.Refusals.{refused_in};
ghost use Rattle.bridge_live.specs.LiveMpds as spec;
ghost use Rattle.bridge_steps.specs.Manifests.{values_of};
ghost use Rattle.bridge_steps.specs.Players.{players_in};
ghost use Rattle.mpd_hints.specs.declared.starts.Sap.TheVariants.{Segments};

use crate::channel::Channel;
use bridge_io::{Bytes, Ledger, Steps};
use bridge_jobs::Frame;
use bridge_report::{Refusal, Stop, UpdateFault};
use bridge_steps::{values_for, values_of};
use exact_time::Digits;
use iso_time::Instant;
use live_session::{Appended, RefreshFault, Session};
use mpd_rules::Mpd;
use presentation::answers_allow_listings;
use segment_forms::Form;
use std::alloc::Global;
use track_hints::Hints;
use url_parts::Base;

/// The session that an MPD begins at a time, or why it begins none.
pub fn begin_session<L: Ledger>(
    alloc: Global,
    url: &Base,
    digits: Digits,
    mpd: &Mpd,
    now: Instant,
    steps: &mut Steps<L>,
) -> Result<Session, Stop>
    requires { IsReadable now }
    ensures state { let terms : Terms = record { url = url.now; digits = digits } in
        Gives (λ session. session) refused_in result (told_as spec.told_of (begun_of terms (segments_mpd mpd.now) now)) }
    ensures made { let terms : Terms = record { url = url.now; digits = digits } in
        spec.AreMade (first_appended_by terms (segments_mpd mpd.now) now) steps.old steps.new result }
{
    match Session::begin(alloc, mpd, url, now, digits, steps) {
        Ok(session) => Ok(session),
        Err(fault) => Err(stop_of(fault)),
    }
}

/// The channel that a first frame begins, or why it is rejected.
#[tactic(auto, unfolding(crate::specs::LiveMpds::first_state, crate::specs::LiveMpds::first_appends))]
pub(crate) fn first_frame<L: Ledger>(
    alloc: Global,
    form: Form,
    url: &Base,
    digits: Digits,
    frame: &Frame,
    steps: &mut Steps<L>,
) -> Result<Channel, Stop>
    requires { IsReadable (now_of frame.now) }
    ensures state { let terms : Terms = record { url = url.now; digits = digits } in
        Gives (λ channel. channel.session) refused_in result (spec.first_state terms frame.now) }
    ensures players { IfOk result (λ channel. channel.players ≡ spec.frame_players form frame.now) }
    ensures made { let terms : Terms = record { url = url.now; digits = digits } in
        spec.AreMade (spec.first_appends terms frame.now) steps.old steps.new result }
    ensures listed { let terms : Terms = record { url = url.now; digits = digits } in
        IfOk result (λ channel. count_of_all channel.session.common.opened ≡ spec.first_appends terms frame.now) }
    ensures first { IfOk result (λ channel. channel.session.common.accepted ≡ 1) }
{
    answers_allow_listings();
    match frame {
        Frame::Mpd { now, body } => {
            let (mpd, players) = first_values(alloc, body, form)?;
            let session = begin_session(alloc, url, digits, &mpd, *now, steps);
            drop(mpd);
            Ok(Channel {
                session: session?,
                players,
            })
        }
        Frame::Reset { .. } | Frame::Tick { .. } => Err(Stop::Refused(Refusal::NotOpen)),
    }
}

/// Applies a frame after the first one, and returns how many segments it appended; or why it is rejected.
#[tactic(auto, unfolding(crate::specs::LiveMpds::next_state, crate::specs::LiveMpds::next_appends, crate::specs::LiveMpds::update_of))]
pub(crate) fn next_frame<L: Ledger>(
    alloc: Global,
    session: &mut Session,
    frame: &Frame,
    steps: &mut Steps<L>,
) -> Result<u64, Stop>
    requires now { IsReadable (now_of frame.now) }
    requires room { session.old.common.accepted < 10000000 }
    ensures state { Gives (λ _. session.new) refused_in result (spec.next_state session.old frame.now) }
    ensures same { OnErr result (session.new ≡ session.old) }
    ensures appended { IfOk result (λ n. n ≡ spec.next_appends session.old frame.now) }
    ensures made { spec.AreMade (spec.next_appends session.old frame.now) steps.old steps.new result }
{
    match frame {
        Frame::Mpd { now, body } => {
            let mpd = values_in(alloc, body)?;
            let answer = session.refresh(Some(&mpd), *now, steps);
            drop(mpd);
            taken(answer)
        }
        Frame::Reset { now, body } => {
            let mpd = values_in(alloc, body)?;
            let answer = session.reset(&mpd, *now, steps);
            drop(mpd);
            taken(answer)
        }
        Frame::Tick { now } => taken(session.refresh(None, *now, steps)),
    }
}

/// The values of the MPD that a frame carries.
fn values_in(alloc: Global, body: &Bytes) -> Result<Mpd, Stop>
    ensures mpd { Gives segments_mpd refused_in result (values_of body.now) }
    ensures typed { IfOk result (λ mpd. IsTyped (Some (segments_mpd mpd))) }
{
    match Vec::from_slice(alloc, body.as_slice()) {
        Ok(bytes) => values_of(alloc, Bytes::from(bytes)),
        Err(_) => Err(Stop::Memory),
    }
}

/// The same, with what the MPD says for players in a form.
fn first_values(alloc: Global, body: &Bytes, form: Form) -> Result<(Mpd, Option<Hints>), Stop>
    ensures mpd { Gives (λ read. segments_mpd read.0) refused_in result (values_of body.now) }
    ensures typed { IfOk result (λ read. IsTyped (Some (segments_mpd read.0))) }
    ensures players { IfOk result (λ read. read.1 ≡ players_in form Segments body.now) }
{
    match Vec::from_slice(alloc, body.as_slice()) {
        Ok(bytes) => values_for(alloc, Bytes::from(bytes), form),
        Err(_) => Err(Stop::Memory),
    }
}

/// The session's result, in the report's terms.
fn taken(answer: Result<Appended, RefreshFault>) -> Result<u64, Stop>
    ensures { spec.IsTaken answer result }
{
    match answer {
        Ok(appended) => Ok(appended.0),
        Err(fault) => Err(stop_of(fault)),
    }
}

/// A rule that an update breaks, as in the report.
fn stop_of(fault: RefreshFault) -> Stop
    ensures { refused_in result ≡ option_map spec.told_of (faults.told fault) }
{
    match fault {
        RefreshFault::ClockBack { .. } => broken(UpdateFault::ClockBack),
        RefreshFault::Older { .. } => broken(UpdateFault::Older),
        RefreshFault::Changed => broken(UpdateFault::Changed),
        RefreshFault::Moved { .. } => broken(UpdateFault::Moved),
        RefreshFault::Rewritten { .. } => broken(UpdateFault::Rewritten),
        RefreshFault::Step { .. } => broken(UpdateFault::Step),
        RefreshFault::LongSegment { .. } => broken(UpdateFault::LongSegment),
        RefreshFault::NotDynamic => broken(UpdateFault::NotDynamic),
        RefreshFault::Ended => broken(UpdateFault::Ended),
        RefreshFault::Window { .. } => broken(UpdateFault::Window),
        RefreshFault::Presentation(fault) => Stop::of_presentation(fault),
        RefreshFault::Memory => Stop::Memory,
        RefreshFault::Uneven { .. } => broken(UpdateFault::Uneven),
    }
}

fn broken(fault: UpdateFault) -> Stop
    ensures { result ≡ Stop.Refused (Refusal.Session fault) }
{
    Stop::Refused(Refusal::Session(fault))
}
