// Headers of snapshots.
ghost use Rattle.std.specs.Prelude.{◌≡◌, ◌≤◌, length, sum, option_map, IfOk, IfSome};
ghost use Rattle.std.specs.Option.{option_copied};
ghost use Rattle.iso_time.specs.Instant.{IsReadable};
ghost use Rattle.bridge_jobs.specs.Rounds.{first_part, header_of, lengths_of, most_bodies, next_length, timed_lengths};

use crate::header::{body_length, cut_at_space, instant};
use bridge_io::{NoMemory, Sequence};
use iso_time::Instant;
use std::alloc::Global;

/// The most bytes that all bodies of a snapshot have together.
const MAX_BODIES: u32 = 67_108_864;

/// `round <instant> <length> ..`: when the playlists of a snapshot were read, and how many bytes each has.
#[derive(Drop)]
pub struct RoundHeader {
    pub now: Instant,
    pub lengths: Sequence<u32>,
}

impl RoundHeader {
    /// Parses a header line without its LF, with a length for each track. Its parts are separated by one space.
    #[tactic(auto, unfolding(crate::specs::Rounds::header_of))]
    pub fn of(alloc: Global, line: &[u8], tracks: usize) -> Result<Option<RoundHeader>, NoMemory>
        ensures header { IfOk result (λ header. header ≡ header_of tracks line.now) }
        ensures small { IfOk result (λ header. IfSome header (λ h. sum h.lengths ≤ most_bodies)) }
        ensures count { IfOk result (λ header. IfSome header (λ h. length h.lengths ≡ tracks)) }
        ensures readable { IfOk result (λ header. IfSome header (λ h. IsReadable h.now)) }
    {
        let Some((word, rest)) = cut_at_space(line) else {
            return Ok(None);
        };
        if word != b"round".as_slice() {
            return Ok(None);
        }
        timed_lengths(alloc, rest, tracks)
    }
}

#[tactic(auto, unfolding(crate::specs::Rounds::timed_lengths))]
fn timed_lengths(alloc: Global, text: &[u8], tracks: usize) -> Result<Option<RoundHeader>, NoMemory>
    ensures header { IfOk result (λ header. header ≡ timed_lengths tracks text.now) }
    ensures small { IfOk result (λ header. IfSome header (λ h. sum h.lengths ≤ most_bodies)) }
    ensures count { IfOk result (λ header. IfSome header (λ h. length h.lengths ≡ tracks)) }
    ensures readable { IfOk result (λ header. IfSome header (λ h. IsReadable h.now)) }
{
    let (now, rest) = first_part(text);
    let Some(now) = instant(now) else {
        return Ok(None);
    };
    let Some(lengths) = lengths(alloc, rest, tracks)? else {
        return Ok(None);
    };
    Ok(Some(RoundHeader { now, lengths }))
}

/// Parses one length per track, separated by one space; together they are at most 67,108,864.
fn lengths(
    alloc: Global,
    text: Option<&[u8]>,
    tracks: usize,
) -> Result<Option<Sequence<u32>>, NoMemory>
    ensures lengths { IfOk result (λ lengths. lengths ≡ lengths_of tracks most_bodies (option_copied text.entry)) }
    ensures small { IfOk result (λ lengths. IfSome lengths (λ all. sum all ≤ most_bodies)) }
    ensures count { IfOk result (λ lengths. IfSome lengths (λ all. length all ≡ tracks)) }
{
    let mut lengths = Sequence::new(alloc);
    let mut room = MAX_BODIES;
    let mut rest = text;
    for _track in 0..tracks {
        let Some((length, more)) = next_length(room, rest) else {
            return Ok(None);
        };
        lengths.push(length)?;
        room -= length;
        rest = more;
    }
    if rest.is_some() {
        return Ok(None);
    }
    Ok(Some(lengths))
}

/// A length that is at most `room`, and what follows it.
#[tactic(auto, unfolding(crate::specs::Rounds::next_length))]
fn next_length(room: u32, text: Option<&[u8]>) -> Option<(u32, Option<&[u8]>)>
    ensures next { option_map (λ x. (x.0, option_copied x.1)) result ≡ next_length room (option_copied text.entry) }
    ensures small { IfSome result (λ x. x.0 ≤ room) }
{
    let (length, rest) = first_part(text?);
    let length = body_length(length)?;
    if length > room {
        return None;
    }
    Some((length, rest))
}

/// What is before the first space, and what is after it, if there is one.
fn first_part(text: &[u8]) -> (&[u8], Option<&[u8]>)
    ensures { (result.0.now, option_copied result.1) ≡ first_part text.now }
{
    match cut_at_space(text) {
        Some((first, rest)) => (first, Some(rest)),
        None => (text, None),
    }
}
