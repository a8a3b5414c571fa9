// Laws of written lines.
ghost use Rattle.laws_of_playlists.specs.ReadLines.{WrittenLinesAreRead};

/// Written lines are read back with their values, each at its position, where they are UTF-8 without control characters, don't
/// end with a space, and no URI is empty or begins with `#`.
pub fn written_lines_are_read()
    ensures { WrittenLinesAreRead }
{}
