//! Laws of lines and attribute lists. The functions do nothing: what they ensure is the law.
ghost use Rattle.hls_lines.specs.Grammar.{AttributesAreTold, DoublesAreRefused, OtherTextsAreRefused, ReadAreWritten, WrittenOneWay};
ghost use Rattle.hls_lines.specs.LineGrammar.{FileFaultsAreInOrder, FirstControlIsFirst, LinesAreSaid};

/// An attribute list is read from exactly the texts that write it (RFC 8216 4.2): `NAME=value` once or more, joined by
/// commas with spaces around them; a value is one or more characters without `"`, `,` and white space, or is in `"` and
/// has none.
pub fn attributes_are_as_written()
    ensures { ReadAreWritten }
{}

/// No text writes two different attribute lists.
pub fn attributes_are_written_one_way()
    ensures { WrittenOneWay }
{}

/// An attribute list is accepted where a text writes it and no name is repeated; a text that writes no list is
/// rejected, and so is one that writes a list with a repeated name.
pub fn attribute_faults_are_sentences()
    ensures told { AttributesAreTold }
    ensures refused { OtherTextsAreRefused }
    ensures double { DoublesAreRefused }
{}

/// Lines are read from exactly the bytes that are UTF-8 without control characters, whose first line is `#EXTM3U`, and
/// whose lines mean them (RFC 8216 4.1). A text is its lines, joined by LF; trailing blanks of a line are dropped; what
/// begins with `#EXT` is a tag, whose name goes up to the first `:`; other lines with `#` and blank ones are ignored;
/// every other line is a URI. A line's position is the number of bytes before it, and its line number one more than the LF
/// before it.
pub fn lines_are_as_written()
    ensures { LinesAreSaid }
{}

/// Bytes that aren't UTF-8 are rejected first, then those with a control character, at the byte where the first one
/// begins, then those without header.
pub fn file_faults_are_in_order()
    ensures order { FileFaultsAreInOrder }
    ensures control { FirstControlIsFirst }
{}
