//! Calls of the lowest crates over a table of test cases: a row of standard input is a call, and a line of standard
//! output the row and its result.
//!
//! A row is fields with a tab between them. In a field `\t`, `\n`, `\r`, `\0` and `\\` stand for a tab, a line feed, a
//! carriage return, a byte 0 and a `\`. An empty line prints one.
#![tactic(auto)]

use bridge_io::{Name, NoMemory, Text};
use exact_time::Nanos;
use iso_time::{Instant, read_duration, read_instant, write_duration, write_instant_ms};
use std::alloc::Global;
use std::io::{self, BufWriter, ErrorKind, Write};
use template_ids::{Ids, Template};
use url_parts::{Base, code_class, local_name, read_range};

fn main(rt: HostRuntime) -> io::Result<()> {
    let alloc = rt.alloc();
    let table = io::read_to_string(alloc, rt.reader())?;
    let mut out = BufWriter::new(alloc, io::writer(&rt))?;
    for row in table.lines() {
        let Ok(line) = line(alloc, row) else {
            return Err(ErrorKind::OutOfMemory.into());
        };
        out.write_all(line.as_str().as_bytes())?;
        out.write_all(b"\n")?;
    }
    out.flush()
}

/// A row and its result.
fn line(alloc: Global, row: &str) -> Result<String, NoMemory> {
    let mut line = String::from_str(alloc, row)?;
    if !row.is_empty() {
        line.push_str(" = ")?;
        line.push_str(answer(alloc, row)?.as_str())?;
    }
    Ok(line)
}

/// A field, with its escapes resolved.
fn field(alloc: Global, written: &str) -> Result<String, NoMemory> {
    let mut text = String::with_capacity(alloc, written.len())?;
    let mut is_escaped = false;
    for letter in written.chars() {
        if is_escaped {
            text.push(unescaped(letter))?;
            is_escaped = false;
        } else if letter == '\\' {
            is_escaped = true;
        } else {
            text.push(letter)?;
        }
    }
    Ok(text)
}

fn unescaped(letter: char) -> char {
    match letter {
        't' => '\t',
        'n' => '\n',
        'r' => '\r',
        '0' => '\0',
        other => other,
    }
}

/// The result of a row's call: its value, or the name of its fault.
fn answer(alloc: Global, row: &str) -> Result<String, NoMemory> {
    let mut fields = row.split('\t');
    let call = fields.next().unwrap_or("");
    let first = field(alloc, fields.next().unwrap_or(""))?;
    let second = field(alloc, fields.next().unwrap_or(""))?;
    let (first, second) = (first.as_str(), second.as_str());
    match call {
        "duration" => duration(alloc, first),
        "instant" => instant(alloc, first),
        "write_duration" => written_duration(alloc, first),
        "write_instant" => written_instant(alloc, first),
        "range" => range(alloc, first),
        "code" => Ok(format!(in alloc; "{:?}", code_class(first))?),
        "name" => name(alloc, first),
        "local_name" => local(alloc, first, second),
        "of" => of(alloc, first),
        "join" => join(alloc, first, second),
        "deeper" => deeper(alloc, first, second),
        "beside" => beside(alloc, first, second),
        "template" => template(alloc, first, second),
        _ => Ok(String::from_str(alloc, "no such call")?),
    }
}

fn duration(alloc: Global, text: &str) -> Result<String, NoMemory> {
    match read_duration(text) {
        Ok(value) => Ok(format!(in alloc; "{}", value.0)?),
        Err(fault) => Ok(format!(in alloc; "{fault:?}")?),
    }
}

fn instant(alloc: Global, text: &str) -> Result<String, NoMemory> {
    match read_instant(text) {
        Ok(value) => Ok(format!(in alloc; "{}", value.0)?),
        Err(fault) => Ok(format!(in alloc; "{fault:?}")?),
    }
}

fn written_duration(alloc: Global, text: &str) -> Result<String, NoMemory> {
    let nanos = number(Some(text));
    if nanos >= 10_000_000_000_000_000_000 {
        return Ok(String::from_str(alloc, "no duration")?);
    }
    let written = write_duration(Nanos(nanos));
    Ok(String::from_str(alloc, written.as_str())?)
}

fn written_instant(alloc: Global, text: &str) -> Result<String, NoMemory> {
    let nanos = match text.strip_prefix('-') {
        Some(digits) => 0i128.checked_sub(signed(digits)).unwrap_or(0),
        None => signed(text),
    };
    if nanos < -30_610_224_000_000_000_000 || nanos >= 253_402_300_800_000_000_000 {
        return Ok(String::from_str(alloc, "no instant")?);
    }
    let written = write_instant_ms(Instant(nanos));
    let text = str::from_utf8(written.as_slice()).unwrap_or("");
    Ok(String::from_str(alloc, text)?)
}

fn range(alloc: Global, text: &str) -> Result<String, NoMemory> {
    match read_range(text) {
        Some(range) => Ok(format!(in alloc; "{} {}", range.first, range.count)?),
        None => Ok(String::from_str(alloc, "None")?),
    }
}

fn name(alloc: Global, text: &str) -> Result<String, NoMemory> {
    match Name::read(alloc, text) {
        Ok(name) => Ok(String::from_str(alloc, name.as_str())?),
        Err(fault) => Ok(format!(in alloc; "{fault:?}")?),
    }
}

fn of(alloc: Global, text: &str) -> Result<String, NoMemory> {
    match Base::of(alloc, text) {
        Ok(base) => Ok(String::from_str(alloc, base.as_str())?),
        Err(fault) => Ok(format!(in alloc; "{fault:?}")?),
    }
}

fn join(alloc: Global, base: &str, reference: &str) -> Result<String, NoMemory> {
    let Ok(base) = Base::of(alloc, base) else {
        return Ok(String::from_str(alloc, "no base")?);
    };
    match base.join(alloc, reference) {
        Ok(address) => Ok(String::from_str(alloc, address.as_str())?),
        Err(fault) => Ok(format!(in alloc; "{fault:?}")?),
    }
}

fn deeper(alloc: Global, base: &str, reference: &str) -> Result<String, NoMemory> {
    let Ok(base) = Base::of(alloc, base) else {
        return Ok(String::from_str(alloc, "no base")?);
    };
    match base.deeper(alloc, reference) {
        Ok(base) => Ok(String::from_str(alloc, base.as_str())?),
        Err(fault) => Ok(format!(in alloc; "{fault:?}")?),
    }
}

fn beside(alloc: Global, base: &str, name: &str) -> Result<String, NoMemory> {
    let (Ok(base), Ok(name)) = (Base::of(alloc, base), Name::read(alloc, name)) else {
        return Ok(String::from_str(alloc, "no base or no name")?);
    };
    match base.beside(alloc, &name) {
        Ok(address) => Ok(String::from_str(alloc, address.as_str())?),
        Err(fault) => Ok(format!(in alloc; "{fault:?}")?),
    }
}

fn local(alloc: Global, folder: &str, address: &str) -> Result<String, NoMemory> {
    let Ok(folder) = Base::of(alloc, folder) else {
        return Ok(String::from_str(alloc, "no base")?);
    };
    let Ok(address) = folder.join(alloc, address) else {
        return Ok(String::from_str(alloc, "no address")?);
    };
    match local_name(alloc, &folder, &address)? {
        Some(name) => Ok(String::from_str(alloc, name.as_str())?),
        None => Ok(String::from_str(alloc, "None")?),
    }
}

/// The second field has the id, the bandwidth, the number and the time, with a `|` between them.
fn template(alloc: Global, text: &str, values: &str) -> Result<String, NoMemory> {
    let template = match Template::read(alloc, text) {
        Ok(template) => template,
        Err(fault) => return Ok(format!(in alloc; "{fault:?}")?),
    };
    let mut values = values.split('|');
    let ids = Ids {
        id: Text::copy_of(alloc, values.next().unwrap_or(""))?,
        bandwidth: number(values.next()),
        number: number(values.next()),
        time: number(values.next()),
    };
    let name = template.name(alloc, &ids)?;
    let (uses_number, uses_time) = (template.uses_number(), template.uses_time());
    Ok(format!(in alloc; "{uses_number} {uses_time} {}", name.as_str())?)
}

fn number(text: Option<&str>) -> u64 {
    u64::try_from(digits_of(text.unwrap_or(""))).unwrap_or(0)
}

fn signed(text: &str) -> i128 {
    i128::try_from(digits_of(text)).unwrap_or(0)
}

/// The number of these digits, or 0 where it has more than 30 of them or another letter.
fn digits_of(text: &str) -> u128 {
    let mut number = 0u128;
    for letter in text.chars() {
        let Some(digit) = letter.to_digit(10) else {
            return 0;
        };
        if number >= 100_000_000_000_000_000_000_000_000_000 {
            return 0;
        }
        number = number * 10 + u128::from(digit);
    }
    number
}
