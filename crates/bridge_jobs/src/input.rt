// Reading from a source.
ghost use Rattle.std.specs.Prelude.{◌≡◌, ◌<◌, ◌≤◌, ◌+◌, List, [], ◌∷◌, length, take, drop, IfOk, OnErr, Some};
ghost use Rattle.std.specs.Io.KnownBytes.{prepend_known, IsAtEnd};
ghost use Rattle.bridge_io.specs.Fault.{HasCause};
ghost use Rattle.bridge_io.specs.declared.outside.Fail.TheVariants.{Failed};
ghost use Rattle.bridge_jobs.specs.Inputs.{TakesByte, TakesFront};
ghost use Rattle.bridge_jobs.specs.FrameFaults.{FailsWithin};
ghost use Rattle.bridge_jobs.specs.Frames.{line_size, line_within};

use bridge_io::{Bytes, Fail, Source};
use std::alloc::Global;

/// Reads bytes into the start of a buffer until it is full or the input ends, and returns how many.
fn fill<I: Source>(input: &mut I, buf: &mut [u8]) -> Result<usize, Fail>
    ensures count { IfOk result (λ n. n ≤ length buf.new) }
    ensures bytes { IfOk result (λ n. TakesFront (take (length buf.new)) (take n buf.new) (I.remaining input.old) (I.remaining input.new)) }
    ensures fails { FailsWithin result (λ bytes. length buf.new) (I.remaining input.old) (I.remaining input.new) }
    ensures cause { HasCause Failed (I.faults input.old) (I.faults input.new) result }
{
    let mut filled = 0;
    while filled < buf.len() {
        let n = input.read(&mut buf[filled..])?;
        if n == 0 {
            return Ok(filled);
        }
        filled += n;
    }
    Ok(filled)
}

/// Reads one byte; `None` at the end of the input.
fn read_byte<I: Source>(input: &mut I) -> Result<Option<u8>, Fail>
    ensures byte { IfOk result (λ byte. TakesByte byte (I.remaining input.old) (I.remaining input.new)) }
    ensures fails { OnErr result (I.remaining input.new ≡ I.remaining input.old) }
    ensures cause { HasCause Failed (I.faults input.old) (I.faults input.new) result }
{
    let mut byte = [0];
    if input.read(&mut byte)? == 0 {
        return Ok(None);
    }
    Ok(Some(byte[0]))
}

/// Reads a line with its LF, at most `most` bytes. It has no LF where the limit or the input ends it.
pub fn read_line<I: Source>(alloc: Global, input: &mut I, most: usize) -> Result<Bytes, Fail>
    ensures bytes { IfOk result (λ line. TakesFront (line_within most) line (I.remaining input.old) (I.remaining input.new)) }
    ensures fails { FailsWithin result (line_size most) (I.remaining input.old) (I.remaining input.new) }
    ensures room { IfOk result (λ line. length line ≤ most) }
    ensures cause { HasCause Failed (I.faults input.old) (I.faults input.new) result }
{
    let mut line = Bytes::from(Vec::with_capacity(alloc, most)?);
    while line.len() < most {
        let Some(byte) = read_byte(input)? else {
            return Ok(line);
        };
        line.push(byte)?;
        if byte == b'\n' {
            return Ok(line);
        }
    }
    Ok(line)
}

/// Reads `most` bytes, or all remaining ones where they are fewer.
pub fn read_up_to<I: Source>(alloc: Global, input: &mut I, most: usize) -> Result<Vec<u8>, Fail>
    ensures bytes { IfOk result (λ bytes. TakesFront (take most) bytes.items (I.remaining input.old) (I.remaining input.new)) }
    ensures fails { FailsWithin result (λ bytes. most) (I.remaining input.old) (I.remaining input.new) }
    ensures room { IfOk result (λ bytes. length bytes.items ≤ most) }
    ensures cause { HasCause Failed (I.faults input.old) (I.faults input.new) result }
{
    let mut bytes = vec![in alloc; 0u8; most].map_err(|_| Fail::Memory)?;
    let count = fill(input, bytes.as_mut_slice())?;
    bytes.truncate(count);
    Ok(bytes)
}
