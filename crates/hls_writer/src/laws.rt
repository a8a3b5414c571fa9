//! Laws of the definitions, as contracts of functions that do nothing.
ghost use Rattle.hls_writer.specs.Laws.{LinesAreReadAgain};

/// Lines without an inner LF are recovered by splitting their text at each LF.
pub fn lines_are_read_again()
    ensures { LinesAreReadAgain }
{}
