// The three I/O traits: input, report output, and the files of a directory.
ghost use Rattle.std.specs.Prelude.{◌≡◌, ℕ, ◌<◌, ◌≤◌, List, [], Option, length, is_some, IfOk, OnOk, OnErr};
ghost use Rattle.std.specs.Option.{ForSome};
ghost use Rattle.bridge_io.specs.declared.outside.Fail.TheVariants.{Failed, Memory};
ghost use Rattle.bridge_io.specs.Fault.{HasCause};
ghost use Rattle.bridge_io.specs.Outside.{Files, content_of, put, extended, Changes, MayEmpty, MayExtend, ReadsAt, Appends, AppendsFront};
ghost use Rattle.bridge_io.specs.Outside.{Takes};

use crate::{Name, NoMemory};
use std::alloc::AllocError;
use thiserror::Error;

/// Why an I/O call failed.
#[derive(Clone, Copy, Debug, PartialEq, Eq, Error)]
pub enum Fail {
    /// An I/O error, which the object's fault count includes.
    #[error("a call on the outside failed")]
    Failed,
    /// Out of memory.
    #[error("out of memory")]
    Memory,
}

impl From<NoMemory> for Fail {
    ghost from_gives = { λ _ e. e ≡ Memory };

    fn from(_: NoMemory) -> Fail {
        Fail::Memory
    }
}

impl From<AllocError> for Fail {
    ghost from_gives = { λ _ e. e ≡ Memory };

    fn from(_: AllocError) -> Fail {
        Fail::Memory
    }
}

/// Input bytes, as standard input.
pub trait Source {
    /// The unread bytes, where the source models them.
    ghost remaining: { Self → Option (List ℕ) };

    /// How often the source has failed.
    ghost faults: { Self → ℕ };

    /// Reads bytes into the start of a buffer, and returns how many. Returns 0 only at the end of the input. A failed
    /// read consumes no input.
    fn read(&mut self, buf: &mut [u8]) -> Result<usize, Fail>
        requires { 0 < length buf.old }
        ensures bound { IfOk result (λ n. n ≤ length buf.new) }
        ensures bytes { Takes result buf.new (remaining self.old) (remaining self.new) }
        ensures cause { HasCause Failed (faults self.old) (faults self.new) result };
}

/// Output bytes, as standard output.
pub trait Sink {
    /// The bytes written so far, where the sink models them.
    ghost written: { Self → Option (List ℕ) };

    /// How often the sink has failed.
    ghost faults: { Self → ℕ };

    /// Writes a whole piece. After an error only a prefix of the piece was written.
    fn write(&mut self, piece: &[u8]) -> Result<(), Fail>
        ensures ok { OnOk result (Appends piece.now (written self.old) (written self.new)) }
        ensures err { OnErr result (AppendsFront piece.now (written self.old) (written self.new)) }
        ensures cause { HasCause Failed (faults self.old) (faults self.new) result };
}

/// The files of a directory. A missing file reads as an empty one.
pub trait Store {
    /// The files, where the store models them.
    ghost files: { Self → Option Files };

    /// How often a read has failed. A missing file is no failure.
    ghost read_faults: { Self → ℕ };

    /// How often a write has failed.
    ghost write_faults: { Self → ℕ };

    /// Whether there is a file of this name.
    fn has(&mut self, name: &Name) -> Result<bool, Fail>
        ensures found { IfOk result (λ found. ForSome (files self.old) (λ all. found ≡ is_some (all name.now))) }
        ensures files { files self.new ≡ files self.old }
        ensures cause { HasCause Failed (read_faults self.old) (read_faults self.new) result }
        ensures writes { write_faults self.new ≡ write_faults self.old };

    /// Reads bytes of a file, from a byte offset, into the start of a buffer, and returns how many. Returns 0 exactly
    /// where the offset is at the file's end or past it.
    fn read_at(&mut self, name: &Name, at: u64, buf: &mut [u8]) -> Result<usize, Fail>
        requires { 0 < length buf.old }
        ensures bound { IfOk result (λ n. n ≤ length buf.new) }
        ensures bytes { IfOk result (λ n. ForSome (files self.old) (λ all. ReadsAt (content_of all name.now) at n buf.new)) }
        ensures files { files self.new ≡ files self.old }
        ensures cause { HasCause Failed (read_faults self.old) (read_faults self.new) result }
        ensures writes { write_faults self.new ≡ write_faults self.old };

    /// Truncates a file, or creates it. An error leaves it as it was, or empty.
    fn create(&mut self, name: &Name) -> Result<(), Fail>
        ensures ok { OnOk result (Changes (put name.now []) (files self.old) (files self.new)) }
        ensures err { OnErr result (MayEmpty name.now (files self.old) (files self.new)) }
        ensures cause { HasCause Failed (write_faults self.old) (write_faults self.new) result }
        ensures reads { read_faults self.new ≡ read_faults self.old };

    /// Appends a piece to a file. After an error a prefix of the piece was appended, or an absent file is still
    /// absent.
    fn append(&mut self, name: &Name, piece: &[u8]) -> Result<(), Fail>
        ensures ok { OnOk result (Changes (extended name.now piece.now) (files self.old) (files self.new)) }
        ensures err { OnErr result (MayExtend name.now piece.now (files self.old) (files self.new)) }
        ensures cause { HasCause Failed (write_faults self.old) (write_faults self.new) result }
        ensures reads { read_faults self.new ≡ read_faults self.old };
}
