//! Runs of the top call over a table of test cases: standard input has the rows, and standard output what each run reports and
//! writes.
//!
//! A line of the table is a word and what follows it:
//!
//! - `row READ WRITE REPORT INPUT LABEL` begins a row, and is printed. Of the store's reading calls, of its writing calls, of the
//!   report's calls and of the input's the one of that number fails, and none where there is no number.
//! - `word WORD` adds a word of the command.
//! - `text TEXT` adds a text to the next file, `line TEXT` a text and a line feed, `hex HEX` the bytes of these digits, and
//!   `times NUMBER TEXT` a text that many times.
//! - `clock NUMBER FIRST STEP TEXT` adds a text that many times; each `@` in it stands for a time of day: the first one FIRST
//!   seconds past midnight, each other one STEP seconds later than the one before.
//! - `file NAME` puts the next file into the store, and `input TEXT` adds it, and then the text, to the run's standard input.
//! - `run` runs the command, and prints its status and its report.
//! - `show NAME` prints a file as it then is, and `sum NAME` its length and the FNV-1a sum of its bytes.
//! - An empty line prints one.
//!
//! With arguments it runs that command over the current directory, and prints the files that were written.
//!
//! In a text `\n`, `\r`, `\t`, `\0` and `\\` stand for a line feed, a carriage return, a tab, a byte 0 and a `\`.
#![tactic(auto)]

ghost use Rattle.std.specs.Prelude.{◌≡◌, ◌<◌};

use bridge_core::Status;
use bridge_ends::{CallList, FolderStore, MemSink, MemSource, MemStore, StdSink, StdSource, words};
use bridge_explained::{Overheard, explained_bridge};
use bridge_io::{Bytes, Ledger, Name, NoMemory, Sequence, Sink, Steps, Store, Text, slurp};
use std::alloc::Global;
use std::io::{self, Write};
use std::marker::Brand;
use std::mem;
use std::process::ExitCode;
use std::sync::ledger::Blank;

fn main(rt: HostRuntime) -> ExitCode {
    let status = start::<Brand>(rt, Blank::new(1)).unwrap_or(Status::Memory);
    ExitCode::from(status.number())
}

/// Runs the command of the arguments, or where there are none, the rows of the table.
fn start<L: Ledger>(rt: HostRuntime, blank: Blank) -> Result<Status, NoMemory>
    requires name { blank.name ≡ L.name }
    requires parts { blank.parts ≡ L.parts }
    requires some { 0 < blank.parts }
{
    let alloc = rt.alloc();
    let words = words(&rt, alloc)?;
    if words.is_empty() {
        return tabled(&rt);
    }
    let mut input = StdSource::new(rt.reader());
    let mut store = FolderStore::new(rt, alloc, ".")?;
    let mut report = Overheard::new(alloc, StdSink::new(io::writer(&rt)));
    let mut steps = Steps::<L>::new(blank);
    let status = explained_bridge(
        alloc,
        words.as_slice(),
        &mut input,
        &mut store,
        &mut report,
        &mut steps,
    );
    for name in ["out/source.mpd", "out/manifest.mpd", "out/master.m3u8"] {
        print(alloc, &mut store, &mut report, name)?;
    }
    for track in 0..200u32 {
        let name = format!(in alloc; "out/t{track}.m3u8")?;
        print(alloc, &mut store, &mut report, name.as_str())?;
    }
    Ok(status)
}

/// Prints a file with its name, and nothing where there is none.
fn print<F: Store, P: Sink>(
    alloc: Global,
    store: &mut F,
    report: &mut P,
    name: &str,
) -> Result<(), NoMemory> {
    let heading = format!(in alloc; "== {name}\n")?;
    if let Ok(name) = Name::read(alloc, name) {
        if let Ok(bytes) = slurp(alloc, store, &name, 8_388_608) {
            let _ = report.write(heading.as_str().as_bytes());
            let _ = report.write(bytes.as_slice());
        }
    }
    Ok(())
}

/// Runs the rows of the table on standard input.
fn tabled(rt: &HostRuntime) -> Result<Status, NoMemory> {
    let alloc = rt.alloc();
    let Ok(table) = io::read_to_string(alloc, rt.reader()) else {
        return Ok(Status::ReadFault);
    };
    let answers = answers(alloc, table.as_str())?;
    match io::writer(rt).write_all(answers.as_slice()) {
        Ok(()) => Ok(Status::Done),
        Err(_) => Ok(Status::WriteFault),
    }
}

/// A row as far as it was read, and the output.
#[derive(Drop)]
struct Row {
    words: Sequence<Text>,
    /// The next file.
    next: Bytes,
    input: Bytes,
    /// The numbers of the input's calls that fail.
    input_calls: CallList,
    store: MemStore,
    report: MemSink,
    printed: Bytes,
}

fn answers(alloc: Global, table: &str) -> Result<Bytes, NoMemory> {
    let mut row = Row {
        words: Sequence::new(alloc),
        next: Bytes::new(alloc),
        input: Bytes::new(alloc),
        input_calls: CallList::new(alloc),
        store: MemStore::new(alloc, CallList::new(alloc), CallList::new(alloc)),
        report: MemSink::new(alloc, CallList::new(alloc)),
        printed: Bytes::new(alloc),
    };
    for line in table.lines() {
        read(alloc, &mut row, line)?;
    }
    Ok(row.printed)
}

fn read(alloc: Global, row: &mut Row, line: &str) -> Result<(), NoMemory> {
    let (key, rest) = line.split_once(' ').unwrap_or((line, ""));
    match key {
        "row" => {
            print_line(&mut row.printed, line)?;
            begin(alloc, row, rest)
        }
        "word" => row.words.push(Text::copy_of(alloc, rest)?),
        "text" => add(alloc, &mut row.next, rest),
        "line" => {
            add(alloc, &mut row.next, rest)?;
            row.next.push(b'\n')
        }
        "hex" => add_hex(&mut row.next, rest),
        "times" => add_times(alloc, &mut row.next, rest),
        "clock" => add_clock(alloc, &mut row.next, rest),
        "file" => file(alloc, row, rest),
        "input" => input(alloc, row, rest),
        "run" => run(alloc, row),
        "show" => show(alloc, row, rest),
        "sum" => sum(alloc, row, rest),
        "" => row.printed.push(b'\n'),
        _ => row.printed.extend(b"no such line\n"),
    }
}

/// Begins a row with the numbers of failing calls.
fn begin(alloc: Global, row: &mut Row, failing: &str) -> Result<(), NoMemory> {
    let mut numbers = failing.split(' ');
    let reads = calls(alloc, numbers.next())?;
    let writes = calls(alloc, numbers.next())?;
    let reports = calls(alloc, numbers.next())?;
    row.input_calls = calls(alloc, numbers.next())?;
    row.input = Bytes::new(alloc);
    row.words = Sequence::new(alloc);
    row.next = Bytes::new(alloc);
    row.store = MemStore::new(alloc, reads, writes);
    row.report = MemSink::new(alloc, reports);
    Ok(())
}

fn calls(alloc: Global, number: Option<&str>) -> Result<CallList, NoMemory> {
    let mut calls = CallList::new(alloc);
    if let Some(number) = number_of(number.unwrap_or("")) {
        calls.push(number)?;
    }
    Ok(calls)
}

/// The number of these digits.
fn number_of(digits: &str) -> Option<u64> {
    let mut number = None;
    for letter in digits.chars() {
        let digit = u64::from(letter.to_digit(10)?);
        number = Some(number.unwrap_or(0u64).checked_mul(10)?.checked_add(digit)?);
    }
    number
}

fn print_line(printed: &mut Bytes, line: &str) -> Result<(), NoMemory> {
    printed.extend(line.as_bytes())?;
    printed.push(b'\n')
}

/// Adds a text, with its escapes resolved.
fn add(alloc: Global, bytes: &mut Bytes, written: &str) -> Result<(), NoMemory> {
    let text = unescaped(alloc, written)?;
    bytes.extend(text.as_str().as_bytes())
}

fn unescaped(alloc: Global, written: &str) -> Result<String, NoMemory> {
    let mut text = String::with_capacity(alloc, written.len())?;
    let mut is_escaped = false;
    for letter in written.chars() {
        if is_escaped {
            text.push(meant(letter))?;
            is_escaped = false;
        } else if letter == '\\' {
            is_escaped = true;
        } else {
            text.push(letter)?;
        }
    }
    Ok(text)
}

fn meant(letter: char) -> char {
    match letter {
        't' => '\t',
        'n' => '\n',
        'r' => '\r',
        '0' => '\0',
        other => other,
    }
}

fn add_times(alloc: Global, bytes: &mut Bytes, rest: &str) -> Result<(), NoMemory> {
    let (number, written) = number_then(rest);
    let text = unescaped(alloc, written)?;
    for _ in 0..number {
        bytes.extend(text.as_str().as_bytes())?;
    }
    Ok(())
}

/// The number that a text begins with, and what follows the blank after it.
fn number_then(text: &str) -> (u64, &str) {
    let (digits, rest) = text.split_once(' ').unwrap_or((text, ""));
    (number_of(digits).unwrap_or(0), rest)
}

/// Adds a text many times with a time of day for each `@`.
fn add_clock(alloc: Global, bytes: &mut Bytes, rest: &str) -> Result<(), NoMemory> {
    let (number, rest) = number_then(rest);
    let (first, rest) = number_then(rest);
    let (step, written) = number_then(rest);
    let text = unescaped(alloc, written)?;
    let mut seconds = first;
    for _ in 0..number {
        for letter in text.as_str().bytes() {
            if letter == b'@' {
                bytes.extend(time_of_day(alloc, seconds)?.as_str().as_bytes())?;
                seconds = seconds.saturating_add(step);
            } else {
                bytes.push(letter)?;
            }
        }
    }
    Ok(())
}

fn time_of_day(alloc: Global, seconds: u64) -> Result<String, NoMemory> {
    let (hours, minutes) = (seconds / 3600, seconds / 60 % 60);
    Ok(format!(in alloc; "{hours:02}:{minutes:02}:{:02}", seconds % 60)?)
}

/// Adds the bytes of these digits, two for each.
fn add_hex(bytes: &mut Bytes, digits: &str) -> Result<(), NoMemory> {
    let mut high = None;
    for letter in digits.chars() {
        let digit = letter.to_digit(16).unwrap_or(0);
        match high {
            None => high = Some(digit),
            Some(first) => {
                bytes.push(u8::try_from(first.saturating_mul(16).saturating_add(digit)).unwrap_or(
                    0,
                ))?;
                high = None;
            }
        }
    }
    Ok(())
}

/// Adds the next file, and then a text, to the run's standard input.
fn input(alloc: Global, row: &mut Row, written: &str) -> Result<(), NoMemory> {
    let bytes = mem::replace(&mut row.next, Bytes::new(alloc));
    row.input.extend(bytes.as_slice())?;
    add(alloc, &mut row.input, written)
}

/// Puts the next file into the store.
fn file(alloc: Global, row: &mut Row, name: &str) -> Result<(), NoMemory> {
    let bytes = mem::replace(&mut row.next, Bytes::new(alloc));
    match Name::read(alloc, name) {
        Ok(name) => row.store.put(name, bytes),
        Err(_) => row.printed.extend(b"no name\n"),
    }
}

fn run(alloc: Global, row: &mut Row) -> Result<(), NoMemory> {
    let words = row.words.as_slice();
    let bytes = mem::replace(&mut row.input, Bytes::new(alloc));
    let calls = mem::replace(&mut row.input_calls, CallList::new(alloc));
    let mut input = MemSource::new(bytes, calls);
    let sink = mem::replace(&mut row.report, MemSink::new(alloc, CallList::new(alloc)));
    let mut report = Overheard::new(alloc, sink);
    let status = top::<Brand>(
        alloc,
        Blank::new(1),
        words,
        &mut input,
        &mut row.store,
        &mut report,
    );
    let told = format!(in alloc; "status {}", status.number())?;
    print_line(&mut row.printed, told.as_str())?;
    row.printed.extend(report.sink().bytes())
}

fn top<L: Ledger>(
    alloc: Global,
    blank: Blank,
    words: &[Text],
    input: &mut MemSource,
    store: &mut MemStore,
    report: &mut Overheard<MemSink>,
) -> Status
    requires name { blank.name ≡ L.name }
    requires parts { blank.parts ≡ L.parts }
    requires some { 0 < blank.parts }
{
    let mut steps = Steps::<L>::new(blank);
    explained_bridge(alloc, words, input, store, report, &mut steps)
}

fn show(alloc: Global, row: &mut Row, name: &str) -> Result<(), NoMemory> {
    let heading = format!(in alloc; "file {name}")?;
    print_line(&mut row.printed, heading.as_str())?;
    match file_of(alloc, &row.store, name) {
        Some(bytes) => row.printed.extend(bytes),
        None => row.printed.extend(b"no file\n"),
    }
}

fn file_of<'a>(alloc: Global, store: &'a MemStore, name: &str) -> Option<&'a [u8]> {
    match Name::read(alloc, name) {
        Ok(name) => store.file(&name),
        Err(_) => None,
    }
}

fn sum(alloc: Global, row: &mut Row, name: &str) -> Result<(), NoMemory> {
    let bytes = file_of(alloc, &row.store, name).unwrap_or(b"");
    let told = format!(in alloc;
        "file {name} of {} bytes with sum {}",
        bytes.len(),
        sum_of(bytes)
    )?;
    print_line(&mut row.printed, told.as_str())
}

fn sum_of(bytes: &[u8]) -> u64 {
    bytes.iter().fold(0xcbf2_9ce4_8422_2325u64, |sum, byte| {
        (sum ^ u64::from(*byte)).wrapping_mul(0x100_0000_01b3)
    })
}
