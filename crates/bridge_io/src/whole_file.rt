// Reading a whole file into memory.
ghost use Rattle.std.specs.Prelude.{◌≡◌, ◌<◌, ◌≤◌, ◌+◌, ◌==◌, length, take, drop, count_by, is_some, IfOk, IfErr, None};
ghost use Rattle.std.specs.Option.{ForSome};
ghost use Rattle.bridge_io.specs.declared.read_error.Slurp.TheVariants.{Fault};
ghost use Rattle.bridge_io.specs.Answer.{Gives};
ghost use Rattle.bridge_io.specs.Fault.{HasCause};
ghost use Rattle.bridge_io.specs.Outside.{content_of};
ghost use Rattle.bridge_io.specs.Places.{place_of};
ghost use Rattle.bridge_io.specs.Slurped.{whole_file, unread, IsFront};

use crate::{Bytes, Name, Place, Slurp, Store};
use std::alloc::Global;

/// The most bytes that one read asks for.
const PIECE: usize = 1 << 16;

/// Reads a whole file of at most `limit` bytes. The store's files stay as they are.
///
/// `TooLong` comes exactly where the file is longer, and `Absent` exactly where the store hasn't the name, unless an
/// I/O error or lack of memory came first.
pub fn slurp<F: Store>(
    alloc: Global,
    store: &mut F,
    name: &Name,
    limit: u64,
) -> Result<Bytes, Slurp>
    ensures file { ForSome (F.files store.old) (λ files. Gives (λ bytes. bytes) unread result (whole_file limit name.now files)) }
    ensures cause { HasCause Fault (F.read_faults store.old) (F.read_faults store.new) result }
    ensures files { F.files store.new ≡ F.files store.old }
    ensures writes { F.write_faults store.new ≡ F.write_faults store.old }
{
    if !store.has(name)? {
        return Err(Slurp::Absent);
    }
    let mut piece = vec![in alloc; 0u8; PIECE].map_err(|_| Slurp::Memory)?;
    let mut bytes = Bytes::new(alloc);
    while bytes.len() as u64 <= limit {
        if read_more(store, name, piece.as_mut_slice(), &mut bytes)? == 0 {
            return Ok(bytes);
        }
    }
    Err(Slurp::TooLong(place_in(bytes.as_slice(), limit)))
}

/// Reads the next piece of a file into the end of what was read of it, and returns how many bytes came: 0 at the
/// file's end.
fn read_more<F: Store>(
    store: &mut F,
    name: &Name,
    piece: &mut [u8],
    bytes: &mut Bytes,
) -> Result<usize, Slurp>
    requires { 0 < length piece.old }
    ensures count { IfOk result (λ n. length bytes.new ≡ length bytes.old + n) }
    ensures file { ForSome (F.files store.old) (λ files. IsFront bytes.old (content_of files name.now)
        → IfOk result (λ n. IsFront bytes.new (content_of files name.now) × (n ≡ 0 → content_of files name.now ≡ bytes.new))) }
    ensures refusal { IfErr result (λ e. unread e ≡ None) }
    ensures cause { HasCause Fault (F.read_faults store.old) (F.read_faults store.new) result }
    ensures files { F.files store.new ≡ F.files store.old }
    ensures writes { F.write_faults store.new ≡ F.write_faults store.old }
{
    let n = store.read_at(name, bytes.len() as u64, piece)?;
    bytes.extend(&piece[..n])?;
    Ok(n)
}

fn place_in(bytes: &[u8], at: u64) -> Place
    requires { at < length bytes.now }
    ensures { result ≡ place_of bytes.now at }
{
    let before = &bytes[..at as usize];
    Place {
        at,
        line: before.iter().filter(|byte| **byte == b'\n').count() as u64 + 1,
    }
}
