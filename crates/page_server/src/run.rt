// A run over one connection.
ghost use Rattle.page_server.specs.Answers.{Run, site};

use crate::{Maker, Origin};
use bridge_io::Store;
use http_server::{Config, Connection, serve};
use std::alloc::Global;
use std::hash::RandomState;
use std::io;
use std::io::{Read, Write};

/// Reads requests, answers each, and writes the responses in order, until the connection is done.
pub fn serve_pages<F: Store + Drop, M: Maker + Drop, R: Read, W: Write>(
    alloc: Global,
    keys: RandomState,
    config: Config,
    origin: &mut Origin<F, M>,
    reader: &mut R,
    writer: &mut W,
) -> io::Result<()>
    ensures { Run config
        (site (M.making origin.old.workshop.maker) origin.old.terms (F.files origin.old.store) (F.read_faults origin.old.store))
        (site (M.making origin.new.workshop.maker) origin.new.terms (F.files origin.new.store) (F.read_faults origin.new.store))
        (R.remaining reader.old) (R.remaining reader.new) (W.contents writer.old) (W.contents writer.new) result }
{
    let mut connection = Connection::new(alloc, keys, config);
    serve(&mut connection, origin, reader, writer)
}
