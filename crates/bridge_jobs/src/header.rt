// Headers of update frames.
ghost use Rattle.std.specs.Prelude.{◌≡◌, ◌≤◌, ◌<◌, ◌==◌, IfSome, length, option_map, position};
ghost use Rattle.bridge_jobs.specs.Headers.{cut_at_space, header_of, length_of, manifest_of, body_length, instant_at};
ghost use Rattle.iso_time.specs.Instant.{IsReadable};
ghost use Rattle.bridge_jobs.specs.Jobs.{instant_in};

use crate::decimal::{decimal, text_of};
use iso_time::{Instant, read_instant};

/// The most bytes that a body has.
const MAX_BODY: u32 = 8_388_608;

/// A header: the kind of its update frame, the timestamp, and the body's length in bytes.
#[derive(Clone, Copy, PartialEq, Eq)]
pub enum Header {
    /// `mpd <instant> <length>`.
    Mpd { now: Instant, length: u32 },
    /// `reset <instant> <length>`.
    Reset { now: Instant, length: u32 },
    /// `tick <instant>`.
    Tick { now: Instant },
}

impl Header {
    /// Parses a header line without its LF. Its parts are separated by one space.
    #[tactic(auto, unfolding(crate::specs::Headers::header_of))]
    pub fn of(line: &[u8]) -> Option<Header>
        ensures header { result ≡ header_of line.now }
        ensures small { IfSome result (λ header. body_length header ≤ 8388608) }
        ensures readable { IfSome result (λ header. IsReadable (instant_at header)) }
    {
        let (word, rest) = cut_at_space(line)?;
        if word == b"mpd".as_slice() {
            let (now, length) = manifest(rest)?;
            return Some(Header::Mpd { now, length });
        }
        if word == b"reset".as_slice() {
            let (now, length) = manifest(rest)?;
            return Some(Header::Reset { now, length });
        }
        if word == b"tick".as_slice() {
            let now = instant(rest)?;
            return Some(Header::Tick { now });
        }
        None
    }

    /// How many bytes the body has.
    pub fn length(&self) -> usize
        ensures { result ≡ body_length self.now }
    {
        match self {
            Header::Mpd { length, .. } | Header::Reset { length, .. } => *length as usize,
            Header::Tick { .. } => 0,
        }
    }
}

/// `<instant> <length>`.
#[tactic(auto, unfolding(crate::specs::Headers::manifest_of))]
fn manifest(text: &[u8]) -> Option<(Instant, u32)>
    ensures parts { result ≡ manifest_of text.now }
    ensures small { IfSome result (λ p. p.1 ≤ 8388608) }
    ensures readable { IfSome result (λ p. IsReadable p.0) }
{
    let (now, length) = cut_at_space(text)?;
    let now = instant(now)?;
    let length = body_length(length)?;
    Some((now, length))
}

/// What is before the first space, and what is after it.
pub(crate) fn cut_at_space(text: &[u8]) -> Option<(&[u8], &[u8])>
    ensures { option_map (λ p. (p.0.now, p.1.now)) result ≡ cut_at_space text.now }
{
    let space = first_space(text)?;
    Some((&text[..space], &text[space + 1..]))
}

fn first_space(text: &[u8]) -> Option<usize>
    ensures space { result ≡ position (λ b. b == 32) text.now }
    ensures within { IfSome result (λ space. space < length text.now) }
{
    text.iter().position(|byte| *byte == b' ')
}

/// Parses a timestamp.
pub(crate) fn instant(text: &[u8]) -> Option<Instant>
    ensures instant { result ≡ instant_in text.now }
    ensures readable { IfSome result IsReadable }
{
    let text = text_of(text)?;
    read_instant(text).ok()
}

/// Parses the length of a body: 1 to 7 digits, at most 8,388,608.
#[tactic(auto, unfolding(crate::specs::Headers::length_of))]
pub(crate) fn body_length(digits: &[u8]) -> Option<u32>
    ensures length { result ≡ length_of digits.now }
    ensures small { IfSome result (λ length. length ≤ 8388608) }
{
    let length = decimal(digits, 7)?;
    if length > MAX_BODY {
        return None;
    }
    Some(length)
}
