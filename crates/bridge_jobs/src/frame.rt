// Update frames of a stream.
ghost use Rattle.std.specs.Prelude.{◌≡◌, ◌≢◌, ◌≤◌, ◌<◌, ◌^◌, ◌+◌, length, IfOk, IfSome, IsErrOf};
ghost use Rattle.std.specs.Option.{option_map};
ghost use Rattle.bridge_io.specs.Fault.{HasCause};
ghost use Rattle.bridge_jobs.specs.declared.frame.FrameFault.TheVariants.{Fault};
ghost use Rattle.bridge_jobs.specs.Frames.{IsFramePos, IsNoFrame, IsNear, IsBehind, ReadsFrom, framed_as, next_frame, frame_by_line};
ghost use Rattle.bridge_jobs.specs.Frames.{body_of, header_at, next_line, piece_of, behind, now_of, with_body, most_frames, most_header};
ghost use Rattle.bridge_jobs.specs.Frames.{LeavesBehind, body_size, frame_size, line_size};
ghost use Rattle.bridge_jobs.specs.Headers.{body_length, header_of, instant_at};
ghost use Rattle.iso_time.specs.Instant.{IsReadable};

use crate::header::Header;
use crate::input::{read_line, read_up_to};
use bridge_io::{Bytes, Fail, NoMemory, Place, Source};
use iso_time::Instant;
use std::alloc::{AllocError, Global};
use thiserror::Error;

/// The most bytes that a header line has, with its LF.
const MAX_HEADER: usize = 64;

/// The most update frames that a stream has.
const MAX_FRAMES: u64 = 10_000_000;

/// One update frame of a followed presentation.
#[derive(Drop)]
pub enum Frame {
    /// A new version of the MPD.
    Mpd {
        /// When it was read.
        now: Instant,
        /// Its bytes.
        body: Bytes,
    },
    /// A new version of the MPD, after versions that were missed: a new section begins.
    Reset {
        /// When it was read.
        now: Instant,
        /// Its bytes.
        body: Bytes,
    },
    /// The MPD is unchanged; only time has passed.
    Tick {
        /// The current time.
        now: Instant,
    },
}

/// The position of the next update frame in a stream.
#[derive(Clone, Copy, PartialEq, Eq)]
pub struct FramePos {
    /// The position after the frames so far.
    pub place: Place,
    /// How many frames there were so far.
    pub frames: u64,
}

impl FramePos {
    /// The position before the first frame.
    pub const START: FramePos = FramePos {
        place: Place { at: 0, line: 1 },
        frames: 0,
    };
}

/// Why no update frame was read.
#[derive(Clone, Copy, Debug, PartialEq, Eq, Error)]
pub enum FrameFault {
    /// A line isn't a valid header: the position of its first byte.
    #[error("not a frame's header")]
    Header(Place),
    /// The stream ends inside a frame: the position of that end.
    #[error("the stream ends inside a frame")]
    Cut(Place),
    /// A byte follows the 10,000,000th frame: its position.
    #[error("more than 10,000,000 frames")]
    TooMany(Place),
    /// A read failed.
    #[error("the input can't be read")]
    Fault,
    /// Out of memory.
    #[error("out of memory")]
    Memory,
}

impl From<Fail> for FrameFault {
    ghost use Rattle.bridge_jobs.specs.FrameFaults.{fault_of};

    ghost from_gives = { λ fail e. e ≡ fault_of fail };

    fn from(fail: Fail) -> FrameFault {
        match fail {
            Fail::Failed => FrameFault::Fault,
            Fail::Memory => FrameFault::Memory,
        }
    }
}

impl From<AllocError> for FrameFault {
    ghost use Rattle.bridge_jobs.specs.declared.frame.FrameFault.TheVariants.{Memory};

    ghost from_gives = { λ _ e. e ≡ Memory };

    fn from(_: AllocError) -> FrameFault {
        FrameFault::Memory
    }
}

impl From<NoMemory> for FrameFault {
    ghost use Rattle.bridge_jobs.specs.declared.frame.FrameFault.TheVariants.{Memory};

    ghost from_gives = { λ _ e. e ≡ Memory };

    fn from(_: NoMemory) -> FrameFault {
        FrameFault::Memory
    }
}

/// Reads the next update frame of a stream, and moves the position past it. `None` exactly where the stream ends at a
/// frame's end. The position doesn't change where no frame is read.
///
/// A frame is a header line, at most 64 bytes with its LF, and a body of the length in the header, at most 8,388,608
/// bytes. A stream has at most 10,000,000 frames. Nothing behind a frame is read, and a failed read comes before the end of one.
pub fn read_frame<I: Source>(
    alloc: Global,
    input: &mut I,
    at: &mut FramePos,
) -> Result<Option<Frame>, FrameFault>
    requires { IsFramePos at.old }
    ensures frame { ReadsFrom (λ frame rest. option_map (λ f. framed_as f at.new rest) frame) result (I.remaining input.old)
        (I.remaining input.new) (next_frame at.old) }
    ensures left { LeavesBehind result (frame_size at.old) (I.remaining input.old) (I.remaining input.new) }
    ensures stays { IsNoFrame result → at.new ≡ at.old }
    ensures kept { IsFramePos at.new }
    ensures counts { IfOk result (λ frame. IfSome frame (λ f. at.new.frames ≡ at.old.frames + 1)) }
    ensures readable { IfOk result (λ frame. IfSome frame (λ f. IsReadable (now_of f))) }
    ensures cause { HasCause Fault (I.faults input.old) (I.faults input.new) result }
{
    let next = next_line(alloc, input, *at, MAX_HEADER)?;
    match next {
        None => Ok(None),
        Some(line) => {
            let (frame, after) = read_framed(alloc, input, *at, line.as_slice())?;
            *at = after;
            Ok(Some(frame))
        }
    }
}

/// Reads the next line of a stream, with its LF, at most `most` bytes. `None` exactly where the stream ends.
pub(crate) fn next_line<I: Source>(
    alloc: Global,
    input: &mut I,
    at: FramePos,
    most: usize,
) -> Result<Option<Bytes>, FrameFault>
    requires { 0 < most }
    ensures line { ReadsFrom (λ line rest. (line, rest)) result (I.remaining input.old) (I.remaining input.new) (next_line most at) }
    ensures left { LeavesBehind result (line_size most) (I.remaining input.old) (I.remaining input.new) }
    ensures room { IfOk result (λ line. IfSome line (λ l. length l ≤ most)) }
    ensures more { IfOk result (λ line. IfSome line (λ _. at.frames ≢ most_frames)) }
    ensures cause { HasCause Fault (I.faults input.old) (I.faults input.new) result }
{
    let line = read_line(alloc, input, most)?;
    if line.is_empty() {
        return Ok(None);
    }
    if at.frames == MAX_FRAMES {
        return Err(FrameFault::TooMany(at.place));
    }
    Ok(Some(line))
}

/// Reads the frame whose header line was read, and returns it with the position after it.
fn read_framed<I: Source>(
    alloc: Global,
    input: &mut I,
    at: FramePos,
    line: &[u8],
) -> Result<(Frame, FramePos), FrameFault>
    requires pos { IsFramePos at }
    requires more { at.frames < most_frames }
    requires line { length line.now ≤ most_header }
    ensures frame { ReadsFrom (λ x rest. framed_as x.0 x.1 rest) result (I.remaining input.old) (I.remaining input.new)
        (frame_by_line at line.now) }
    ensures left { LeavesBehind result (λ bytes. body_size at line.now) (I.remaining input.old) (I.remaining input.new) }
    ensures kept { IfOk result (λ x. IsFramePos x.1) }
    ensures counts { IfOk result (λ x. x.1.frames ≡ at.frames + 1) }
    ensures readable { IfOk result (λ x. IsReadable (now_of x.0)) }
    ensures cause { HasCause Fault (I.faults input.old) (I.faults input.new) result }
{
    let header = header_at(at.place, line)?;
    let body_at = behind(at.place, line);
    let (frame, place) = read_body(alloc, input, body_at, &header)?;
    let frames = at.frames + 1;
    Ok((frame, FramePos { place, frames }))
}

#[tactic(auto, unfolding(crate::specs::Frames::header_at))]
fn header_at(place: Place, line: &[u8]) -> Result<Header, FrameFault>
    requires { IsNear place line.now }
    ensures header { result ≡ header_at most_header header_of place line.now }
    ensures told { IsErrOf result Fault → ⊥ }
    ensures small { IfOk result (λ header. body_length header ≤ 8388608) }
    ensures readable { IfOk result (λ header. IsReadable (instant_at header)) }
{
    match line.strip_suffix(b"\n".as_slice()) {
        Some(text) => Header::of(text).ok_or(FrameFault::Header(place)),
        None if line.len() == MAX_HEADER => Err(FrameFault::Header(place)),
        None => Err(FrameFault::Cut(behind(place, line))),
    }
}

/// Reads the body that begins at a position, and returns the frame with the position after it.
fn read_body<I: Source>(
    alloc: Global,
    input: &mut I,
    place: Place,
    header: &Header,
) -> Result<(Frame, Place), FrameFault>
    requires at { place.at < 2 ^ 62 }
    requires line { place.line < 2 ^ 62 }
    requires small { body_length header.now ≤ 8388608 }
    ensures frame { ReadsFrom (λ x rest. (x.0, x.1, rest)) result (I.remaining input.old) (I.remaining input.new)
        (body_of place header.now) }
    ensures left { LeavesBehind result (λ bytes. body_length header.now) (I.remaining input.old) (I.remaining input.new) }
    ensures place { IfOk result (λ x. IsBehind (body_length header.now) place x.1) }
    ensures now { IfOk result (λ x. now_of x.0 ≡ instant_at header.now) }
    ensures cause { HasCause Fault (I.faults input.old) (I.faults input.new) result }
{
    let (body, after) = read_piece(alloc, input, place, header.length())?;
    Ok((framed(header, body), after))
}

/// Reads `length` bytes from a position on, and returns them with the position after them.
pub(crate) fn read_piece<I: Source>(
    alloc: Global,
    input: &mut I,
    place: Place,
    length: usize,
) -> Result<(Bytes, Place), FrameFault>
    requires at { place.at < 2 ^ 63 }
    requires line { place.line < 2 ^ 63 }
    requires small { length ≤ 67108864 }
    ensures piece { ReadsFrom (λ x rest. (x.0, x.1, rest)) result (I.remaining input.old) (I.remaining input.new) (piece_of place length) }
    ensures left { LeavesBehind result (λ bytes. length) (I.remaining input.old) (I.remaining input.new) }
    ensures place { IfOk result (λ x. IsBehind length place x.1) }
    ensures cause { HasCause Fault (I.faults input.old) (I.faults input.new) result }
{
    let body = read_up_to(alloc, input, length)?;
    let after = behind(place, body.as_slice());
    if body.len() < length {
        return Err(FrameFault::Cut(after));
    }
    Ok((Bytes::from(body), after))
}

/// The position after some bytes.
pub(crate) fn behind(place: Place, bytes: &[u8]) -> Place
    requires { IsNear place bytes.now }
    ensures place { result ≡ behind place bytes.now }
    ensures within { IsBehind (length bytes.now) place result }
{
    let lines = bytes.iter().filter(|byte| **byte == b'\n').count();
    Place {
        at: place.at + bytes.len() as u64,
        line: place.line + lines as u64,
    }
}

fn framed(header: &Header, body: Bytes) -> Frame
    ensures frame { result ≡ with_body header.now body }
    ensures now { now_of result ≡ instant_at header.now }
{
    match header {
        Header::Mpd { now, .. } => Frame::Mpd { now: *now, body },
        Header::Reset { now, .. } => Frame::Reset { now: *now, body },
        Header::Tick { now } => Frame::Tick { now: *now },
    }
}
