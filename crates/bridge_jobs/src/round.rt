// Snapshots in a stream.
ghost use Rattle.std.specs.Prelude.{◌≡◌, ◌≤◌, ◌<◌, ◌^◌, ◌+◌, length, sum, IfOk, IfSome, IsErrOf};
ghost use Rattle.std.specs.Option.{option_map};
ghost use Rattle.iso_time.specs.Instant.{IsReadable};
ghost use Rattle.bridge_io.specs.Answer.{Gives};
ghost use Rattle.bridge_io.specs.Fault.{HasCause};
ghost use Rattle.bridge_jobs.specs.declared.frame.FrameFault.TheVariants.{Fault};
ghost use Rattle.bridge_jobs.specs.Frames.{IsBehind, IsFramePos, IsNear, IsNoFrame, LeavesBehind, ReadsFrom, header_at, most_frames};
ghost use Rattle.bridge_jobs.specs.Frames.{refusal};
ghost use Rattle.bridge_jobs.specs.Rounds.{bodies_of, bodies_size, header_of, most_bodies, most_header, next_round, round_by_line};
ghost use Rattle.bridge_jobs.specs.Rounds.{round_size, rounded_as};

use crate::frame::{FrameFault, FramePos, behind, next_line, read_piece};
use crate::lengths::RoundHeader;
use bridge_io::{Bytes, Place, Sequence, Source};
use iso_time::Instant;
use std::alloc::Global;

/// The most bytes that a header line has, with its LF.
const MAX_HEADER: usize = 2048;

/// The bodies of a snapshot: the bytes of media playlists.
pub type BodyList = Sequence<Bytes>;

/// A snapshot of the media playlists of a live presentation, all read at one time.
#[derive(Drop)]
pub struct Round {
    /// When they were read.
    pub now: Instant,
    /// Their bytes, in the order of the master playlist's tracks.
    pub bodies: BodyList,
}

/// Reads the next snapshot of a stream, and moves the position past it. `None` exactly where the stream ends at a snapshot's
/// end. The position doesn't change where no snapshot is read.
///
/// A snapshot is a header line, at most 2,048 bytes with its LF, and a body for each track, of the lengths in the header: at
/// most 8,388,608 bytes each, and 67,108,864 together. A stream has at most 10,000,000 snapshots. Errors are those of update
/// frames. Nothing behind a snapshot is read, and a failed read comes before the end of one.
pub fn read_round<I: Source>(
    alloc: Global,
    input: &mut I,
    tracks: usize,
    at: &mut FramePos,
) -> Result<Option<Round>, FrameFault>
    requires { IsFramePos at.old }
    ensures round { ReadsFrom (λ round rest. option_map (λ r. rounded_as r at.new rest) round) result (I.remaining input.old)
        (I.remaining input.new) (next_round tracks at.old) }
    ensures left { LeavesBehind result (round_size tracks at.old) (I.remaining input.old) (I.remaining input.new) }
    ensures stays { IsNoFrame result → at.new ≡ at.old }
    ensures kept { IsFramePos at.new }
    ensures counts { IfOk result (λ round. IfSome round (λ r. at.new.frames ≡ at.old.frames + 1)) }
    ensures readable { IfOk result (λ round. IfSome round (λ r. IsReadable r.now)) }
    ensures bodies { IfOk result (λ round. IfSome round (λ r. length r.bodies ≡ tracks)) }
    ensures cause { HasCause Fault (I.faults input.old) (I.faults input.new) result }
{
    let next = next_line(alloc, input, *at, MAX_HEADER)?;
    match next {
        None => Ok(None),
        Some(line) => {
            let (round, after) = read_rounded(alloc, input, tracks, *at, line.as_slice())?;
            *at = after;
            Ok(Some(round))
        }
    }
}

/// Reads the snapshot whose header line was read, and returns it with the position after it.
fn read_rounded<I: Source>(
    alloc: Global,
    input: &mut I,
    tracks: usize,
    at: FramePos,
    line: &[u8],
) -> Result<(Round, FramePos), FrameFault>
    requires pos { IsFramePos at }
    requires more { at.frames < most_frames }
    requires line { length line.now ≤ most_header }
    ensures round { ReadsFrom (λ x rest. rounded_as x.0 x.1 rest) result (I.remaining input.old) (I.remaining input.new)
        (round_by_line tracks at line.now) }
    ensures left { LeavesBehind result (λ bytes. bodies_size tracks at line.now) (I.remaining input.old) (I.remaining input.new) }
    ensures kept { IfOk result (λ x. IsFramePos x.1) }
    ensures counts { IfOk result (λ x. x.1.frames ≡ at.frames + 1) }
    ensures readable { IfOk result (λ x. IsReadable x.0.now) }
    ensures bodies { IfOk result (λ x. length x.0.bodies ≡ tracks) }
    ensures cause { HasCause Fault (I.faults input.old) (I.faults input.new) result }
{
    let header = round_header(alloc, at.place, line, tracks)?;
    let bodies_at = behind(at.place, line);
    let (bodies, place) = read_bodies(alloc, input, bodies_at, header.lengths.as_slice())?;
    let now = header.now;
    let frames = at.frames + 1;
    Ok((Round { now, bodies }, FramePos { place, frames }))
}

#[tactic(auto, unfolding(crate::specs::Frames::header_at))]
fn round_header(
    alloc: Global,
    place: Place,
    line: &[u8],
    tracks: usize,
) -> Result<RoundHeader, FrameFault>
    requires { IsNear place line.now }
    ensures header { Gives (λ header. header) refusal result (header_at most_header (header_of tracks) place line.now) }
    ensures told { IsErrOf result Fault → ⊥ }
    ensures small { IfOk result (λ header. sum header.lengths ≤ most_bodies) }
    ensures count { IfOk result (λ header. length header.lengths ≡ tracks) }
    ensures readable { IfOk result (λ header. IsReadable header.now) }
{
    match line.strip_suffix(b"\n".as_slice()) {
        Some(text) => RoundHeader::of(alloc, text, tracks)?.ok_or(FrameFault::Header(place)),
        None if line.len() == MAX_HEADER => Err(FrameFault::Header(place)),
        None => Err(FrameFault::Cut(behind(place, line))),
    }
}

/// Reads bodies of these lengths one after another from a position on, and returns them with the position after them.
fn read_bodies<I: Source>(
    alloc: Global,
    input: &mut I,
    place: Place,
    lengths: &[u32],
) -> Result<(BodyList, Place), FrameFault>
    requires at { place.at < 2 ^ 62 }
    requires line { place.line < 2 ^ 62 }
    requires small { sum lengths.now ≤ most_bodies }
    ensures bodies { ReadsFrom (λ x rest. (x.0, x.1, rest)) result (I.remaining input.old) (I.remaining input.new)
        (bodies_of place lengths.now) }
    ensures left { LeavesBehind result (λ bytes. sum lengths.now) (I.remaining input.old) (I.remaining input.new) }
    ensures place { IfOk result (λ x. IsBehind (sum lengths.now) place x.1) }
    ensures count { IfOk result (λ x. length x.0 ≡ length lengths.now) }
    ensures cause { HasCause Fault (I.faults input.old) (I.faults input.new) result }
{
    let mut bodies = Sequence::new(alloc);
    let mut at = place;
    for length in lengths {
        let (body, after) = read_piece(alloc, input, at, *length as usize)?;
        bodies.push(body)?;
        at = after;
    }
    Ok((bodies, at))
}
