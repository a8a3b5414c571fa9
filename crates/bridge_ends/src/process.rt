// What a program begins with.
use bridge_io::{NoMemory, Sequence, Text};
use std::alloc::Global;
use std::env::FillError;
use std::io::ErrorKind;
use std::rt::{Env, Files};
use std::{env, fs, io};

/// An empty file; opened for reading, it accepts no writes.
const NOTHING: &str = "/dev/null";

/// Three descriptors of `/dev/null`, which replace standard input, output and error where these are closed, so that no file
/// that is opened later is mistaken for one of them.
pub fn held_descriptors<R: Files>(files: &R) -> [io::Result<R::File>; 3] {
    [
        fs::open(files, NOTHING),
        fs::open(files, NOTHING),
        fs::open(files, NOTHING),
    ]
}

/// The command's words without the program's own name, which may be any bytes. There are none where one isn't UTF-8. The
/// error means out of memory.
pub fn words<E: Env>(env: &E, alloc: Global) -> Result<Sequence<Text>, NoMemory> {
    let mut words = Sequence::new(alloc);
    let given = match env::args(&(WithoutName(env), alloc)) {
        Ok(given) => given,
        Err(error) if error.kind() == ErrorKind::OutOfMemory => return Err(NoMemory),
        Err(_) => return Ok(words),
    };
    for word in given {
        words.push(Text::from(word))?;
    }
    Ok(words)
}

/// The environment with the words after the program's own name.
#[derive(Drop)]
struct WithoutName<'a, E: Env>(&'a E);

impl<E: Env> Env for WithoutName<'_, E> {
    fn arg(&self, i: usize, buf: &mut [u8]) -> Result<usize, FillError> {
        self.0.arg(i.saturating_add(1), buf)
    }

    fn var(&self, name: &str, buf: &mut [u8]) -> Result<usize, FillError> {
        self.0.var(name, buf)
    }

    fn var_at(&self, i: usize, buf: &mut [u8]) -> Result<usize, FillError> {
        self.0.var_at(i, buf)
    }
}
