// Laws of written MPDs, in each of their forms.
ghost use Rattle.laws_of_mpds.specs.Told.{ListsAreRead, TimedListsAreRead};
ghost use Rattle.laws_of_mpds.specs.Contents.{ContentsAreMeant, TimedContentsAreMeant};
ghost use Rattle.laws_of_mpds.specs.Forms.{FormsGiveTheSame, FormsMeanTheSame, LiveFormsMeanTheSame, TimedFormsMeanTheSame};
ghost use Rattle.laws_of_mpds.specs.Live.{LiveTextsAreRead};
ghost use Rattle.laws_of_mpds.specs.Meant.{TreesMean};
ghost use Rattle.laws_of_mpds.specs.Texts.{TextsMean};
ghost use Rattle.laws_of_mpds.specs.Timed.{TimedBeginInRow, TimedKeepTheirFiles, TimedTextsAreRead, TimedTextsMean};

use iso_time::laws::{durations_are_read_again, instants_are_read_again};
use mpd_tree::printed_trees_are_read;
use segment_forms::laws::{literals_name, templates_name};

/// The segments of a Representation whose only child is a written SegmentList or SegmentTemplate, where its AdaptationSet and
/// its Period have only AdaptationSets and Representations as children, are read back as they were written (ISO/IEC 23009-1,
/// 5.3.9).
pub fn written_lists_are_read()
    ensures { ListsAreRead }
{}

/// So are those with any timescale, media time of the Period's start and time of the first segment: a missing time of the start
/// is 0 (ISO/IEC 23009-1, 5.3.9.2 and 5.3.9.6).
pub fn timed_lists_are_read()
    ensures { TimedListsAreRead }
{}

/// A SegmentTemplate with the numbers of its files, and the SegmentLists of both forms, give the same segments, whatever the URL of
/// the MPD and the end of its Period, and whichever segments can be seen, where each has a duration and a URL of its own (ISO/IEC
/// 23009-1, 5.3.9.4 and 5.3.9.6).
pub fn forms_give_the_same()
    ensures { FormsGiveTheSame }
{
    templates_name();
    literals_name();
}

/// The content of a track in a section, read back from the written segments, means the same, whatever the URL of the MPD and the
/// end of its Period, where segments begin with the section and follow one another, each with a duration and a URL of its own
/// (ISO/IEC 23009-1, 5.3.9.6).
pub fn written_contents_mean_the_same()
    ensures { ContentsAreMeant }
{
    templates_name();
    literals_name();
}

/// So it does at any media time of the section's start, and where the first segment begins after the section's start
/// (ISO/IEC 23009-1, 5.3.9.2 and 5.3.9.6).
pub fn timed_contents_mean_the_same()
    ensures { TimedContentsAreMeant }
{
    templates_name();
    literals_name();
}

/// The tree of a presentation's MPD means what the presentation means, at any URL and time, where the presentation is VOD
/// and has a section, its tracks are in order, and each has segments of its own in each section (ISO/IEC 23009-1, 5.3.1 to
/// 5.3.9).
pub fn written_trees_mean_the_same()
    ensures { TreesMean }
{
    templates_name();
    literals_name();
}

/// The text of a presentation's MPD means what the presentation means, at any URL and time, where also languages and codecs
/// are texts that a value can contain (ISO/IEC 23009-1, 5.3; XML 1.0, 2.2 and 3.3.3).
pub fn written_texts_mean_the_same()
    ensures { TextsMean }
{
    templates_name();
    literals_name();
    printed_trees_are_read();
}

/// The text of an MPD with the decode times of its files means the same tracks, files and init segments, in sections that last
/// until their last track ends: each segment begins at its media time minus that of the section's start, and has the duration by
/// its files (ISO/IEC 23009-1, 5.3.9.2 and 5.3.9.6).
pub fn timed_texts_mean_their_times()
    ensures { TimedTextsMean }
{
    templates_name();
    literals_name();
    printed_trees_are_read();
}

/// With the decode times of its files a presentation means the same tracks, init segments, URLs and byte ranges in the same
/// order as before, and the segments of each track in each section follow one another, the first one at its media time minus that
/// of the section's start.
pub fn timed_presentations_keep_their_files()
    ensures files { TimedKeepTheirFiles }
    ensures begin { TimedBeginInRow }
{}

/// For each track in each section it has the timescale, the media times of the section's start and of the first segment, each
/// segment's duration, the init segment, and the URLs and byte ranges of the segments or the template of the URLs; for each section
/// its start.
pub fn timed_texts_are_read()
    ensures { TimedTextsAreRead }
{
    printed_trees_are_read();
    durations_are_read_again();
}

/// The text of a live MPD is read back with its values, whatever is available at a time: until the presentation has ended, that it
/// is dynamic, when the presentation begins and when the text was made, in whole milliseconds; each Period's id and start; and for
/// each track in each Period its segments, whose first S has the time of the first one, with the durations, the init segment, and the
/// URLs and byte ranges or the template of the URLs, as they were written (ISO/IEC 23009-1, 5.3.1 to 5.3.9). This holds where
/// languages and codecs are texts that a value can contain.
pub fn live_texts_are_read()
    ensures { LiveTextsAreRead }
{
    printed_trees_are_read();
    durations_are_read_again();
    instants_are_read_again();
}

/// Both forms of a presentation's MPD mean the same, at any URL and time: without the decode times of the files, with them, and
/// where the presentation is live, whatever is available at the time (ISO/IEC 23009-1, 5.3.1 to 5.3.9).
pub fn forms_mean_the_same()
    ensures texts { FormsMeanTheSame }
    ensures timed { TimedFormsMeanTheSame }
    ensures live { LiveFormsMeanTheSame }
{
    written_texts_mean_the_same();
    timed_texts_mean_their_times();
    templates_name();
    literals_name();
    printed_trees_are_read();
    durations_are_read_again();
    instants_are_read_again();
}
