// From the bytes of an MPD to a presentation whose segments all have URLs.
ghost use Rattle.std.specs.Prelude.{◌≡◌, ◌^◌, Ok, Some, None, IfOk, IsTrue, is_some, true};
ghost use Rattle.bridge_io.specs.Answer.{Gives};
ghost use Rattle.live_meaning.specs.Laws.{IsTyped};
ghost use Rattle.mpd_tree.specs.Meaning.{reading_of};
ghost use Rattle.mpd_tree.specs.Nodes.{root_of};
ghost use Rattle.mpd_rules.specs.Rules.{typed_mpd_of};
ghost use Rattle.mpd_rules.specs.Views.{segments_mpd};
ghost use Rattle.presentation.specs.Counting.{counted, count_of_all};
ghost use Rattle.presentation.specs.Listable.{AreListable};
ghost use Rattle.presentation.specs.Presented.{is_finished};
ghost use Rattle.bridge_io.specs.Answer.{told_as};
ghost use Rattle.presentation.specs.Verifying.{verified};
ghost use Rattle.bridge_report.specs.Reading.{IsNoReadFault, ReadsAs, halted};
ghost use Rattle.bridge_report.specs.Refusals.{refused_in};
ghost use Rattle.bridge_steps.specs.Manifests as spec;
ghost use Rattle.bridge_steps.specs.Players.{players_in};

use crate::players::players_of;
use bridge_io::{Bytes, Ledger, Steps, Store};
use bridge_playlists::StorePlace;
use bridge_report::{Halt, Refusal, Stop, content_of};
use exact_time::Digits;
use iso_time::Instant;
use mpd_hints::Sap;
use mpd_presentation::{from_mpd, static_mpds_are_finished, verified_mpds_can_be_listed};
use mpd_rules::{Mpd, rules};
use mpd_text::tree_from_bytes;
use mpd_tree::Tree;
use presentation::{Longest, Presentation};
use segment_forms::Form;
use std::alloc::Global;
use track_hints::Hints;
use url_parts::Base;

/// A presentation whose segments all have URLs, with the longest printed duration of each track.
#[derive(Drop)]
pub struct Ready {
    /// The presentation.
    pub presentation: Presentation,
    /// The longest printed duration of each track.
    pub longest: Longest,
    /// The decimals of printed durations.
    pub digits: Digits,
    /// What its MPD says for players; `None`: what is written is plain.
    pub players: Option<Hints>,
    ghost verified: { verified presentation (10 ^ digits) ≡ Ok longest },
    ghost counted: { counted presentation ≡ Ok (count_of_all presentation) },
}

/// The presentation of the MPD in the file at a location, read at a time, whose segments all have URLs; or why the file isn't
/// read. A live MPD is rejected with `live`, if that is given; then the presentation is VOD, and its segments can be listed.
/// [`Halt::ReadFault`] comes only where the store's count of failed reads rose.
#[tactic(auto, unfolding(crate::specs::Manifests::mpd_at))]
pub fn mpd_at<F: Store, L: Ledger>(
    alloc: Global,
    place: &StorePlace,
    now: Option<Instant>,
    live: Option<Refusal>,
    digits: Digits,
    store: &mut F,
    steps: &mut Steps<L>,
) -> Result<Ready, Halt>
    ensures reads { ReadsAs F.Store store.old store.new (λ ready. ready.presentation)
        (spec.mpd_at live (10 ^ digits) now place.now) result }
    ensures digits { IfOk result (λ ready. ready.digits ≡ digits) }
    ensures plain { IfOk result (λ ready. ready.players ≡ None) }
    ensures finished { IfOk result (λ ready. IsTrue (is_some live) → is_finished ready.presentation ≡ true) }
    ensures listable { IfOk result (λ ready. IsTrue (is_some live) → AreListable ready.presentation) }
{
    let bytes = content_of(alloc, store, &place.file)?;
    mpd_in(alloc, place, bytes, now, live, digits, steps)
}

/// The same, given the bytes of the file at a location.
pub fn mpd_in<L: Ledger>(
    alloc: Global,
    place: &StorePlace,
    bytes: Bytes,
    now: Option<Instant>,
    live: Option<Refusal>,
    digits: Digits,
    steps: &mut Steps<L>,
) -> Result<Ready, Halt>
    ensures mpd { Gives (λ ready. ready.presentation) halted result (spec.mpd_in live (10 ^ digits) now place.now bytes) }
    ensures digits { IfOk result (λ ready. ready.digits ≡ digits) }
    ensures plain { IfOk result (λ ready. ready.players ≡ None) }
    ensures finished { IfOk result (λ ready. IsTrue (is_some live) → is_finished ready.presentation ≡ true) }
    ensures listable { IfOk result (λ ready. IsTrue (is_some live) → AreListable ready.presentation) }
    ensures no_fault { IsNoReadFault result }
{
    static_mpds_are_finished();
    verified_mpds_can_be_listed();
    match checked_presentation(alloc, &place.url, bytes, now, live, digits, steps) {
        Ok(ready) => Ok(ready),
        Err(Stop::Refused(refusal)) => Err(Halt::refused(alloc, &place.file, refusal)),
        Err(Stop::Memory) => Err(Halt::Memory),
    }
}

/// The presentation of bytes, or the first error.
#[tactic(auto, unfolding(crate::specs::Manifests::checked_presentation))]
fn checked_presentation<L: Ledger>(
    alloc: Global,
    url: &Base,
    bytes: Bytes,
    now: Option<Instant>,
    live: Option<Refusal>,
    digits: Digits,
    steps: &mut Steps<L>,
) -> Result<Ready, Stop>
    ensures ready { Gives (λ ready. ready.presentation) refused_in result
        (spec.checked_presentation live (10 ^ digits) url.now now bytes) }
    ensures digits { IfOk result (λ ready. ready.digits ≡ digits) }
    ensures plain { IfOk result (λ ready. ready.players ≡ None) }
{
    let mpd = mpd_of(alloc, bytes, live)?;
    ready_of(alloc, &mpd, url, now, digits, None, steps)
}

/// The presentation of an MPD, read at a time, whose segments all have URLs, with what the MPD says for players, where that
/// is given; or the first error.
#[tactic(auto, unfolding(crate::specs::Manifests::ready_of))]
pub fn ready_of<L: Ledger>(
    alloc: Global,
    mpd: &Mpd,
    url: &Base,
    now: Option<Instant>,
    digits: Digits,
    players: Option<Hints>,
    steps: &mut Steps<L>,
) -> Result<Ready, Stop>
    ensures ready { Gives (λ ready. ready.presentation) refused_in result (spec.ready_of (10 ^ digits) url.now now (segments_mpd mpd.now)) }
    ensures digits { IfOk result (λ ready. ready.digits ≡ digits) }
    ensures players { IfOk result (λ ready. ready.players ≡ players) }
{
    match from_mpd(alloc, mpd, url, now) {
        Ok(presentation) => checked(alloc, presentation, digits, players, steps),
        Err(fault) => Err(Stop::of_presentation(fault)),
    }
}

/// Checks each listed segment of a presentation: whether it has a URL, and how long its printed duration is.
#[tactic(auto, unfolding(crate::specs::Manifests::checked), using(crate::proofs::Counted::all_counted))]
pub fn checked<L: Ledger>(
    alloc: Global,
    presentation: Presentation,
    digits: Digits,
    players: Option<Hints>,
    steps: &mut Steps<L>,
) -> Result<Ready, Stop>
    ensures ready { Gives (λ ready. ready.presentation) refused_in result (spec.checked (10 ^ digits) presentation) }
    ensures digits { IfOk result (λ ready. ready.digits ≡ digits) }
    ensures players { IfOk result (λ ready. ready.players ≡ players) }
{
    match presentation.verify(alloc, digits, steps) {
        Ok(longest) => Ok(Ready {
            presentation,
            longest,
            digits,
            players,
        }),
        Err(fault) => Err(Stop::of_presentation(fault)),
    }
}

/// The values of an MPD, or the first error. A live one may be rejected.
#[tactic(auto, unfolding(crate::specs::Manifests::mpd_of))]
fn mpd_of(alloc: Global, bytes: Bytes, live: Option<Refusal>) -> Result<Mpd, Stop>
    ensures { Gives segments_mpd refused_in result (spec.mpd_of live bytes) }
{
    let mpd = values_of(alloc, bytes)?;
    match live {
        Some(refusal) if mpd.live() => Err(Stop::Refused(refusal)),
        _ => Ok(mpd),
    }
}

/// The values of an MPD, live or not, or the first error.
#[tactic(auto, unfolding(crate::specs::Manifests::values_of))]
pub fn values_of(alloc: Global, bytes: Bytes) -> Result<Mpd, Stop>
    ensures mpd { Gives segments_mpd refused_in result (spec.values_of bytes) }
    ensures typed { IfOk result (λ mpd. IsTyped (Some (segments_mpd mpd))) }
{
    let tree = tree_of(alloc, bytes)?;
    typed_of(alloc, &tree)
}

/// The same, with what the MPD says for players in a form.
#[tactic(auto, unfolding(crate::specs::Manifests::values_of))]
pub fn values_for(alloc: Global, bytes: Bytes, form: Form) -> Result<(Mpd, Option<Hints>), Stop>
    ensures mpd { Gives (λ read. segments_mpd read.0) refused_in result (spec.values_of bytes) }
    ensures typed { IfOk result (λ read. IsTyped (Some (segments_mpd read.0))) }
    ensures players { IfOk result (λ read. read.1 ≡ players_in form Sap.Segments bytes) }
{
    let tree = tree_of(alloc, bytes)?;
    let mpd = typed_of(alloc, &tree)?;
    let Ok(players) = players_of(alloc, form, Sap::Segments, &tree) else {
        return Err(Stop::Memory);
    };
    Ok((mpd, players))
}

/// Parses bytes, which it consumes, into a tree.
pub fn tree_of(alloc: Global, bytes: Bytes) -> Result<Tree, Stop>
    ensures { Gives root_of refused_in result (told_as Refusal.Text (reading_of bytes)) }
{
    match tree_from_bytes(alloc, bytes) {
        Ok(tree) => Ok(tree),
        Err(fault) => Err(Stop::of_text(fault)),
    }
}

fn typed_of(alloc: Global, tree: &Tree) -> Result<Mpd, Stop>
    ensures mpd { Gives segments_mpd refused_in result (told_as Refusal.Rules (typed_mpd_of (root_of tree.now))) }
    ensures typed { IfOk result (λ mpd. IsTyped (Some (segments_mpd mpd))) }
{
    match rules(alloc, tree) {
        Ok(mpd) => Ok(mpd),
        Err(fault) => Err(Stop::of_rules(fault)),
    }
}
