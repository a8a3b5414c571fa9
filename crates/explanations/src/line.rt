// The report's lines.

/// Where an error is, as the report's line has it.
#[derive(Clone, Copy)]
pub(crate) enum Spot {
    /// A byte of a media file, counted from 0.
    Byte(u64),
    /// A byte of a manifest, counted from 0, and its line, counted from 1.
    Line {
        /// The byte.
        at: u64,
        /// The line.
        line: u64,
    },
}

/// A refusal in the report.
#[derive(Clone, Copy)]
pub(crate) struct Refused<'a> {
    /// The file, `-` where there is none. An update has none.
    pub(crate) file: Option<&'a str>,
    /// The layer that rejects.
    pub(crate) layer: &'a str,
    /// The number of the error in that layer.
    pub(crate) number: &'a str,
    /// Where it is, unless by segments or not at all.
    pub(crate) spot: Option<Spot>,
}

impl<'a> Refused<'a> {
    /// Reads a line of the report, without its line end.
    pub(crate) fn read(line: &'a str) -> Option<Refused<'a>> {
        let Some(rest) = line.strip_prefix("refused ") else {
            return Refused::of_update(line);
        };
        let (file, error) = rest.split_once(' ')?;
        Refused::error(Some(file), error)
    }

    /// `frame <i> refused <error>`, which may have the name of a playlist before the error: its bytes are those of the
    /// update, and not those of a file.
    fn of_update(line: &'a str) -> Option<Refused<'a>> {
        let (number, rest) = line.strip_prefix("frame ")?.split_once(" refused ")?;
        number.parse::<u64>().ok()?;
        match Refused::error(None, rest) {
            Some(refused) => Some(refused),
            None => {
                let (_name, error) = rest.split_once(' ')?;
                Refused::error(None, error)
            }
        }
    }

    /// `<layer> <number> <Name><position>`.
    fn error(file: Option<&'a str>, text: &'a str) -> Option<Refused<'a>> {
        let (layer, rest) = text.split_once(' ')?;
        let (number, rest) = rest.split_once(' ')?;
        number.parse::<u64>().ok()?;
        Some(Refused {
            file,
            layer,
            number,
            spot: spot_behind(rest),
        })
    }
}

/// The position behind an error's name: ` at <byte>`, which may have ` line <line>` behind it.
fn spot_behind(text: &str) -> Option<Spot> {
    let (_name, spot) = text.split_once(" at ")?;
    match spot.split_once(" line ") {
        Some((at, line)) => Some(Spot::Line {
            at: at.parse::<u64>().ok()?,
            line: line.parse::<u64>().ok()?,
        }),
        None => Some(Spot::Byte(spot.parse::<u64>().ok()?)),
    }
}

/// Whether a line of the report is a refusal: of the input as a whole, or of an update.
pub fn is_refusal(line: &str) -> bool {
    Refused::read(line).is_some()
}

/// The file that a refusal names, if it names one: not that of an update, and not `-`.
pub fn refused_file(line: &str) -> Option<&str> {
    Refused::read(line)?.file.filter(|file| *file != "-")
}

/// How many sets and tracks were dropped, as a line of the report says: the number behind `left-out=`.
pub fn left_out_count(line: &str) -> Option<u64> {
    let (_, rest) = line.split_once(" left-out=")?;
    let (count, _) = rest.split_once(' ').unwrap_or((rest, ""));
    count.parse::<u64>().ok()
}
