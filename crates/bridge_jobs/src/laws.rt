//! Laws of the definitions, as contracts of functions that do nothing.
ghost use Rattle.bridge_jobs.specs.CommandLines.{CommandLinesAreRead};
ghost use Rattle.bridge_jobs.specs.Laws.{FoldersHoldTheirFiles, FramesFollow, PlacesAreOfTheStream, RoundsFollow, SizesAreOfFrames};
ghost use Rattle.bridge_jobs.specs.Laws.{FramesAreLeft, RoundsAreLeft, SizesAreOfRounds};

/// In each directory that a command accepts, each file that is written has a valid name: `t<k>.m3u8` with k up to
/// 199, `master.m3u8`, `manifest.mpd`, `source.mpd` and `live.mpd`.
pub fn folders_hold_their_files()
    ensures { FoldersHoldTheirFiles }
{}

/// The update frames of a stream are those that are read one after another.
pub fn frames_follow()
    ensures { FramesFollow }
{}

/// The snapshots of a stream are those that are read one after another.
pub fn rounds_follow()
    ensures { RoundsFollow }
{}

/// An update frame, or a snapshot, that is read whole has all bytes that are asked for it, and what follows it follows these. So the bytes
/// of the first ones are all there, and what is left when they are read is the stream of the others.
pub fn sizes_are_of_frames()
    ensures frames { SizesAreOfFrames }
    ensures rounds { SizesAreOfRounds }
    ensures frames_left { FramesAreLeft }
    ensures rounds_left { RoundsAreLeft }
{
    frames_follow();
    rounds_follow();
}

/// The positions of frames are those of their bytes in the whole stream.
pub fn places_are_of_the_stream()
    ensures { PlacesAreOfTheStream }
{}

/// How command lines are parsed, for each command.
///
/// The command word is followed by its files, which are positional, and its options, in any order. An option is
/// `--name=value`, with any value, or `--name value`, where the value doesn't begin with a hyphen or is `-` alone; an
/// empty value is a value. Each word after `--` is positional, whatever it looks like. These are usage errors: an option
/// that the command doesn't have, one without its value, one that is repeated, a short option, a request for help, a
/// surplus positional word, and a missing file or required option.
pub fn command_lines_are_read()
    ensures { CommandLinesAreRead }
{}
