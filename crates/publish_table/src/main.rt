//! Publications over a table: standard input has the rows, and standard output what each publication reports and leaves.
//!
//! A line of the table is a word and what follows it:
//!
//! - `means WORD TEXT` gives a word a meaning in files, before all rows. In the text `\n` and `\r` stand for a line feed and a
//!   carriage return.
//! - `row LABEL` begins a row, and is printed.
//! - `faults READS WRITES`, before the row's files, has calls of the store fail: their numbers from 0 on, between commas, or `-`.
//! - `file NAME WORD..` puts a file into the store, whose text is what these words mean.
//! - `run WORD..` publishes as these words ask for, and prints the status and the report.
//! - `show NAME..` prints files as they then are.
//! - An empty line separates rows.
#![tactic(auto)]

use bridge_ends::{CallList, MemSink, MemStore};
use bridge_io::{Bytes, Name, NoMemory, Sequence, Text};
use publish_core::{Status, publish};
use std::alloc::Global;
use std::collections::BTreeMap;
use std::io::{self, Write};
use std::process::ExitCode;

fn main(rt: HostRuntime) -> ExitCode {
    let status = tabled(&rt).unwrap_or(Status::Memory);
    ExitCode::from(status.number())
}

/// Runs the rows of the table that standard input has.
fn tabled(rt: &HostRuntime) -> Result<Status, NoMemory> {
    let alloc = rt.alloc();
    let Ok(table) = io::read_to_string(alloc, rt.reader()) else {
        return Ok(Status::ReadFault);
    };
    let answers = answers(alloc, table.as_str())?;
    match io::writer(rt).write_all(answers.as_slice()) {
        Ok(()) => Ok(Status::Done),
        Err(_) => Ok(Status::WriteFault),
    }
}

/// What words mean in files.
type Meanings = BTreeMap<String, Bytes>;

/// The table as far as it was read, and what is printed.
#[derive(Drop)]
struct Table {
    meanings: Meanings,
    /// The files of the row.
    store: MemStore,
    printed: Bytes,
}

fn answers(alloc: Global, table: &str) -> Result<Bytes, NoMemory> {
    let mut read = Table {
        meanings: Meanings::new(alloc),
        store: empty_store(alloc),
        printed: Bytes::new(alloc),
    };
    for line in table.lines() {
        take(alloc, &mut read, line)?;
    }
    Ok(read.printed)
}

fn empty_store(alloc: Global) -> MemStore {
    MemStore::new(alloc, CallList::new(alloc), CallList::new(alloc))
}

fn take(alloc: Global, table: &mut Table, line: &str) -> Result<(), NoMemory> {
    let (key, rest) = line.split_once(' ').unwrap_or((line, ""));
    match key {
        "" => Ok(()),
        "means" => means(alloc, table, rest),
        "row" => {
            table.store = empty_store(alloc);
            print_line(&mut table.printed, line)
        }
        "faults" => faults(alloc, table, rest),
        "file" => file(alloc, table, rest),
        "run" => run(alloc, table, rest),
        "show" => show(alloc, table, rest),
        _ => table.printed.extend(b"no such line\n"),
    }
}

fn print_line(printed: &mut Bytes, line: &str) -> Result<(), NoMemory> {
    printed.extend(line.as_bytes())?;
    printed.push(b'\n')
}

fn means(alloc: Global, table: &mut Table, rest: &str) -> Result<(), NoMemory> {
    let (word, text) = rest.split_once(' ').unwrap_or((rest, ""));
    let key = String::from_str(alloc, word)?;
    table.meanings.insert(key, unescaped(alloc, text)?)?;
    Ok(())
}

fn unescaped(alloc: Global, written: &str) -> Result<Bytes, NoMemory> {
    let mut text = Bytes::new(alloc);
    let mut is_escaped = false;
    for byte in written.bytes() {
        if is_escaped {
            text.push(meant(byte))?;
            is_escaped = false;
        } else if byte == b'\\' {
            is_escaped = true;
        } else {
            text.push(byte)?;
        }
    }
    Ok(text)
}

fn meant(byte: u8) -> u8 {
    match byte {
        b'n' => b'\n',
        b'r' => b'\r',
        other => other,
    }
}

/// Has calls of the row's store fail.
fn faults(alloc: Global, table: &mut Table, rest: &str) -> Result<(), NoMemory> {
    let (reads, writes) = rest.split_once(' ').unwrap_or((rest, ""));
    table.store = MemStore::new(alloc, calls(alloc, reads)?, calls(alloc, writes)?);
    Ok(())
}

fn calls(alloc: Global, numbers: &str) -> Result<CallList, NoMemory> {
    let mut calls = CallList::new(alloc);
    for number in numbers.split(',') {
        if let Ok(call) = number.parse::<u64>() {
            calls.push(call)?;
        }
    }
    Ok(calls)
}

/// Puts a file into the store.
fn file(alloc: Global, table: &mut Table, rest: &str) -> Result<(), NoMemory> {
    let (name, words) = rest.split_once(' ').unwrap_or((rest, ""));
    let Some(bytes) = text_of(alloc, &table.meanings, words)? else {
        return table.printed.extend(b"no such word\n");
    };
    match Name::read(alloc, name) {
        Ok(name) => table.store.put(name, bytes),
        Err(_) => table.printed.extend(b"no name\n"),
    }
}

/// What words mean, if each of them means something.
fn text_of(alloc: Global, meanings: &Meanings, words: &str) -> Result<Option<Bytes>, NoMemory> {
    let mut text = Bytes::new(alloc);
    for word in words.split_ascii_whitespace() {
        let Some(bytes) = meanings.get(word) else {
            return Ok(None);
        };
        text.extend(bytes.as_slice())?;
    }
    Ok(Some(text))
}

fn run(alloc: Global, table: &mut Table, rest: &str) -> Result<(), NoMemory> {
    let mut words = Sequence::new(alloc);
    for word in rest.split_ascii_whitespace() {
        words.push(Text::copy_of(alloc, word)?)?;
    }
    let mut report = MemSink::new(alloc, CallList::new(alloc));
    let status = publish(alloc, words.as_slice(), &mut table.store, &mut report);
    let told = format!(in alloc; "status {}", status.number())?;
    print_line(&mut table.printed, told.as_str())?;
    table.printed.extend(report.bytes())
}

fn show(alloc: Global, table: &mut Table, names: &str) -> Result<(), NoMemory> {
    for name in names.split_ascii_whitespace() {
        let heading = format!(in alloc; "file {name}")?;
        print_line(&mut table.printed, heading.as_str())?;
        match file_of(alloc, &table.store, name) {
            Some(bytes) => table.printed.extend(bytes)?,
            None => table.printed.extend(b"no file\n")?,
        }
    }
    Ok(())
}

fn file_of<'a>(alloc: Global, store: &'a MemStore, name: &str) -> Option<&'a [u8]> {
    match Name::read(alloc, name) {
        Ok(name) => store.file(&name),
        Err(_) => None,
    }
}
