// The file that lines are written to.
ghost use Rattle.bridge_io.specs.Adding.{Adds};
ghost use Rattle.bridge_io.specs.Pieces.{piece_text, pieces_text};

use crate::{Fail, FileWriter, Piece, Store};
use itoa::Buffer;

/// A file that is written, with its store.
#[derive(Drop)]
pub struct Sheet<'w, 'n, 's, F: Store> {
    /// Writes the file.
    pub writer: &'w mut FileWriter<'n>,
    /// Holds the file.
    pub store: &'s mut F,
}

impl<F: Store> Sheet<'_, '_, '_, F> {
    /// Adds pieces in order.
    pub fn push_pieces(&mut self, pieces: &[Piece<'_>]) -> Result<(), Fail>
        ensures { Adds F.Store (pieces_text pieces.now) self.old self.new result }
    {
        for piece in pieces {
            self.push_piece(piece)?;
        }
        Ok(())
    }

    fn push_piece(&mut self, piece: &Piece<'_>) -> Result<(), Fail>
        ensures { Adds F.Store (piece_text piece.now) self.old self.new result }
    {
        match *piece {
            Piece::Text(bytes) => self.push(bytes),
            Piece::Number(number) => self.push(Buffer::new().format(number).as_bytes()),
            Piece::Wide(number) => self.push(Buffer::new().format(number).as_bytes()),
        }
    }

    fn push(&mut self, bytes: &[u8]) -> Result<(), Fail>
        ensures { Adds F.Store bytes.now self.old self.new result }
    {
        self.writer.push(self.store, bytes)
    }
}
