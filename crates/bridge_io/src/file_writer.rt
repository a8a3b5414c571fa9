// Buffered file writing.
ghost use Rattle.std.specs.Prelude.{◌≡◌, ◌<◌, ◌≤◌, ℕ, List, ◌++◌, [], Option, length, IfOk, OnOk, OnErr};
ghost use Rattle.bridge_io.specs.declared.outside.Fail.TheVariants.{Failed};
ghost use Rattle.bridge_io.specs.Fault.{HasCause};
ghost use Rattle.bridge_io.specs.Outside.{Files, put, extended, Changes, MayEmpty, MayExtend};

use crate::{Fail, Name, Store};
use std::alloc::Global;

/// The buffer's size in bytes, and the most bytes that one write call gets.
const PIECE: usize = 4096;

/// A file that is written from its start. `push` buffers; the bytes reach the file's end in pieces of 1 to 4,096 bytes.
#[derive(Drop)]
pub struct FileWriter<'a> {
    name: &'a Name,
    held: Vec<u8>,
    ghost bounded: { length held.items ≤ 4096 },
}

impl<'a> FileWriter<'a> {
    ghost use Rattle.bridge_io.specs.Written.{target, held, IsBehind, HasFront};

    /// Truncates the file, or creates it. An error leaves it as it was, or empty.
    pub fn create<F: Store>(
        alloc: Global,
        store: &mut F,
        name: &'a Name,
    ) -> Result<FileWriter<'a>, Fail>
        ensures target { IfOk result (λ writer. target writer ≡ name.now) }
        ensures ok { IfOk result (λ writer. IsBehind writer [] (F.files store.old) (F.files store.new)) }
        ensures err { OnErr result (MayEmpty name.now (F.files store.old) (F.files store.new)) }
        ensures cause { HasCause Failed (F.write_faults store.old) (F.write_faults store.new) result }
        ensures reads { F.read_faults store.new ≡ F.read_faults store.old }
    {
        let held = Vec::with_capacity(alloc, PIECE)?;
        store.create(name)?;
        Ok(FileWriter { name, held })
    }

    /// Adds a piece of any length to the text. After an error the file holds a prefix of the text.
    #[inline(always)]
    pub fn push<F: Store>(&mut self, store: &mut F, piece: &[u8]) -> Result<(), Fail>
        ensures target { target self.new ≡ target self.old }
        ensures ok { OnOk result ((text : List ℕ) (first : Option Files) → IsBehind self.old text first (F.files store.old)
            → IsBehind self.new (text ++ piece.now) first (F.files store.new)) }
        ensures err { OnErr result ((text : List ℕ) (first : Option Files) → IsBehind self.old text first (F.files store.old)
            → HasFront (target self.old) (text ++ piece.now) first (F.files store.new)) }
        ensures cause { HasCause Failed (F.write_faults store.old) (F.write_faults store.new) result }
        ensures reads { F.read_faults store.new ≡ F.read_faults store.old }
    {
        if piece.len() <= self.room() {
            return self.hold(store, piece);
        }
        self.push_parts(store, piece)
    }

    /// How many bytes of a piece are held next: as many as the buffer has room for, or all that it can have once it is full.
    #[inline(always)]
    fn room(&self) -> usize
        ensures some { 0 < result }
        ensures bounded { result ≤ PIECE }
    {
        let room = PIECE - self.held.len();
        if room == 0 { PIECE } else { room }
    }

    /// Adds a piece in parts that fill the buffer.
    fn push_parts<F: Store>(&mut self, store: &mut F, piece: &[u8]) -> Result<(), Fail>
        ensures target { target self.new ≡ target self.old }
        ensures ok { OnOk result ((text : List ℕ) (first : Option Files) → IsBehind self.old text first (F.files store.old)
            → IsBehind self.new (text ++ piece.now) first (F.files store.new)) }
        ensures err { OnErr result ((text : List ℕ) (first : Option Files) → IsBehind self.old text first (F.files store.old)
            → HasFront (target self.old) (text ++ piece.now) first (F.files store.new)) }
        ensures cause { HasCause Failed (F.write_faults store.old) (F.write_faults store.new) result }
        ensures reads { F.read_faults store.new ≡ F.read_faults store.old }
    {
        let mut rest = piece;
        while !rest.is_empty() {
            let (front, back) = rest.split_at(rest.len().min(self.room()));
            self.hold(store, front)?;
            rest = back;
        }
        Ok(())
    }

    /// Adds a piece of at most 4,096 bytes. Flushes the buffer first where the piece doesn't fit.
    #[inline(always)]
    fn hold<F: Store>(&mut self, store: &mut F, piece: &[u8]) -> Result<(), Fail>
        requires { length piece.now ≤ PIECE }
        ensures target { target self.new ≡ target self.old }
        ensures ok { OnOk result ((text : List ℕ) (first : Option Files) → IsBehind self.old text first (F.files store.old)
            → IsBehind self.new (text ++ piece.now) first (F.files store.new)) }
        ensures err { OnErr result ((text : List ℕ) (first : Option Files) → IsBehind self.old text first (F.files store.old)
            → HasFront (target self.old) (text ++ piece.now) first (F.files store.new)) }
        ensures cause { HasCause Failed (F.write_faults store.old) (F.write_faults store.new) result }
        ensures reads { F.read_faults store.new ≡ F.read_faults store.old }
    {
        if piece.len() > PIECE - self.held.len() {
            self.flush(store)?;
        }
        self.held.extend_from_slice(piece)?;
        Ok(())
    }

    /// Writes the whole buffer to the file's end, so that the file holds the whole text. After an error it holds a
    /// prefix of it.
    pub fn flush<F: Store>(&mut self, store: &mut F) -> Result<(), Fail>
        ensures target { target self.new ≡ target self.old }
        ensures held { OnOk result (held self.new ≡ []) }
        ensures ok { OnOk result ((text : List ℕ) (first : Option Files) → IsBehind self.old text first (F.files store.old)
            → Changes (put (target self.old) text) first (F.files store.new)) }
        ensures err { OnErr result ((text : List ℕ) (first : Option Files) → IsBehind self.old text first (F.files store.old)
            → HasFront (target self.old) text first (F.files store.new)) }
        ensures cause { HasCause Failed (F.write_faults store.old) (F.write_faults store.new) result }
        ensures reads { F.read_faults store.new ≡ F.read_faults store.old }
    {
        if self.held.is_empty() {
            return Ok(());
        }
        hand_on(store, self.name, &self.held)?;
        self.held.clear();
        Ok(())
    }
}

/// Appends a piece to a file: each one that a writer hands on has 1 to 4,096 bytes.
fn hand_on<F: Store>(store: &mut F, name: &Name, piece: &[u8]) -> Result<(), Fail>
    requires some { 0 < length piece.now }
    requires bounded { length piece.now ≤ PIECE }
    ensures ok { OnOk result (Changes (extended name.now piece.now) (F.files store.old) (F.files store.new)) }
    ensures err { OnErr result (MayExtend name.now piece.now (F.files store.old) (F.files store.new)) }
    ensures cause { HasCause Failed (F.write_faults store.old) (F.write_faults store.new) result }
    ensures reads { F.read_faults store.new ≡ F.read_faults store.old }
{
    store.append(name, piece)
}
