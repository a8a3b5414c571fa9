// The report's lines during a run: those of update frames, and the last one of their stream.
ghost use Rattle.std.specs.Prelude.{◌≡◌, ◌⊎◌, ◌≤◌, ◌++◌, IfOk, IfErr, OnOk};
ghost use Rattle.std.specs.String.{string_bytes};
ghost use Rattle.bridge_io.specs.Outside.{Appends};
ghost use Rattle.bridge_courses.specs.declared.ending.Ending.TheVariants as ending;
ghost use Rattle.bridge_courses.specs.declared.status.Verdict.TheVariants as verdict;
ghost use Rattle.bridge_courses.specs.Steps.{IsCutOff};
ghost use Rattle.bridge_report.specs.Following as spec;

use bridge_courses::{Ending, Verdict};
use bridge_io::{NoMemory, Sink, Text};
use std::alloc::{AllocError, Global};
use std::fmt::Write;

/// Reports a line during a run. Where that fails, nothing more is reported; a prefix of the line may be.
pub fn tell_line<P: Sink>(line: &Text, report: &mut P) -> Result<(), Ending>
    ensures ok { OnOk result (Appends line.now (P.written report.old) (P.written report.new)) }
    ensures err { IfErr result (λ told. IsCutOff line.now told (P.faults report.old) (P.faults report.new) (P.written report.old)
        (P.written report.new)) }
    ensures never_falls { P.faults report.old ≤ P.faults report.new }
{
    match report.write(line.as_str().as_bytes()) {
        Ok(()) => Ok(()),
        Err(fail) => Err(Ending::Cut(fail)),
    }
}

/// The line of an accepted update frame, `frame <i> ok appended=<n>`: its index in the stream, counted from 0, and how many
/// segments it appended.
#[tactic(auto, unfolding(crate::specs::Following::accepted_line))]
pub fn frame_accepted(alloc: Global, frame: u64, appended: u64) -> Result<Text, NoMemory>
    ensures { IfOk result (λ line. line ≡ spec.accepted_line frame appended) }
{
    Ok(Text::from(format!(in alloc; "frame {frame} ok appended={appended}\n")?))
}

/// The line of a rejected update frame, `frame <i> refused <why>`: its index in the stream, counted from 0, and the error's
/// text.
#[tactic(auto, unfolding(crate::specs::Following::refused_frame))]
pub fn frame_refused(alloc: Global, frame: u64, refusal: &str) -> Result<Text, NoMemory>
    ensures { IfOk result (λ line. line ≡ spec.refused_frame frame refusal.now) }
{
    Ok(Text::from(format!(in alloc; "frame {frame} refused {refusal}\n")?))
}

/// How a run ends where the stream is read to its end: `done frames=<n> accepted=<n>`, unless memory runs out for it.
pub fn stream_done(alloc: Global, frames: u64, accepted: u64) -> Ending
    ensures { (result ≡ ending.Ended verdict.Done (spec.stream_line frames accepted)) ⊎ (result ≡ ending.Memory) }
{
    match stream_line(alloc, frames, accepted) {
        Ok(line) => Ending::Ended(Verdict::Done, line),
        Err(NoMemory) => Ending::Memory,
    }
}

fn stream_line(alloc: Global, frames: u64, accepted: u64) -> Result<Text, NoMemory>
    ensures { IfOk result (λ line. line ≡ spec.stream_line frames accepted) }
{
    let mut line = String::new(alloc);
    push_stream(&mut line, frames, accepted)?;
    Ok(Text::from(line))
}

#[tactic(auto, unfolding(crate::specs::Following::stream_line))]
fn push_stream(line: &mut String, frames: u64, accepted: u64) -> Result<(), AllocError>
    ensures { OnOk result (string_bytes line.new ≡ string_bytes line.old ++ spec.stream_line frames accepted) }
{
    push_frames(line, frames)?;
    push_accepted(line, accepted)
}

#[tactic(auto, unfolding(crate::specs::Following::frames_text))]
fn push_frames(line: &mut String, frames: u64) -> Result<(), AllocError>
    ensures { OnOk result (string_bytes line.new ≡ string_bytes line.old ++ spec.frames_text frames) }
{
    write!(line, "done frames={frames}")
}

#[tactic(auto, unfolding(crate::specs::Following::accepted_text))]
fn push_accepted(line: &mut String, accepted: u64) -> Result<(), AllocError>
    ensures { OnOk result (string_bytes line.new ≡ string_bytes line.old ++ spec.accepted_text accepted) }
{
    write!(line, " accepted={accepted}\n")
}
