// The first publication.
ghost use Rattle.std.specs.Prelude.{◌≡◌, ◌≤◌, ◌&&◌, [], length, IfOk};
ghost use Rattle.bridge_io.specs.Answer.{Gives};
ghost use Rattle.publish_core.specs.Decisions as spec;
ghost use Rattle.publish_core.specs.Refusals.{stopped};
ghost use Rattle.publish_core.specs.Reports.{first_line};
ghost use Rattle.publish_core.specs.Sides.{AreWritable, IsNoReadFault, IsWritableList, segment_limit, segments_of};

use crate::decision::{Decision, FileList, NewFile};
use crate::job::PublishJob;
use crate::limits::text_within;
use crate::names::{MASTER, name_in};
use crate::refusal::{Refused, Stop};
use crate::report::first_line;
use crate::side::{Side, SideTrack, segment_count};
use bridge_io::{Name, NoMemory, Text};
use hls_writer::MediaHead;
use std::alloc::Global;

/// What is written where nothing is served: the new playlists, with the greater one of their target duration and the job's.
#[tactic(auto, unfolding(crate::specs::Decisions::first_of))]
pub(crate) fn first_publication(
    alloc: Global,
    job: &PublishJob,
    new: Side,
) -> Result<Decision, Stop>
    requires writable { AreWritable new.tracks }
    requires few { segments_of new.tracks ≤ segment_limit }
    ensures decision { Gives (λ decision. decision) stopped result (spec.first_of job.now new) }
    ensures no_fault { IsNoReadFault result }
{
    let line = first_report(alloc, new.tracks.as_slice())?;
    let ended = is_ending(job, new.tracks.as_slice());
    let files = all_files(alloc, job, ended, new)?;
    Ok(Decision { files, line })
}

/// The files of the playlists, and then that of the master.
#[tactic(auto, unfolding(crate::specs::Decisions::all_first))]
fn all_files(alloc: Global, job: &PublishJob, ended: bool, new: Side) -> Result<FileList, Stop>
    requires { AreWritable new.tracks }
    ensures files { Gives (λ files. files) stopped result (spec.all_first job.now ended new) }
    ensures no_fault { IsNoReadFault result }
{
    let mut files = first_files(alloc, job, &new.file, ended, new.tracks.as_slice())?;
    let name = served_name(alloc, job, &new.file, MASTER)?;
    files.push(NewFile {
        name,
        text: new.text,
    })?;
    Ok(files)
}

/// The line of the report.
fn first_report(alloc: Global, tracks: &[SideTrack]) -> Result<Text, NoMemory>
    requires { segments_of tracks.now ≤ segment_limit }
    ensures { IfOk result (λ line. line ≡ first_line (length tracks.now) (segments_of tracks.now)) }
{
    first_line(alloc, tracks.len(), segment_count(tracks))
}

/// Whether EXT-X-ENDLIST is written.
fn is_ending(job: &PublishJob, tracks: &[SideTrack]) -> bool
    ensures { result ≡ (job.now.options.end && spec.all_ended tracks.now) }
{
    job.options.end && are_all_ended(tracks)
}

fn are_all_ended(tracks: &[SideTrack]) -> bool
    ensures { result ≡ spec.all_ended tracks.now }
{
    tracks.iter().all(|track| track.list.head.ended)
}

/// The files of some tracks, in order.
fn first_files(
    alloc: Global,
    job: &PublishJob,
    master: &Name,
    ended: bool,
    tracks: &[SideTrack],
) -> Result<FileList, Stop>
    requires { AreWritable tracks.now }
    ensures files { Gives (λ files. files) stopped result (spec.first_files job.now master.now ended [] tracks.now) }
    ensures no_fault { IsNoReadFault result }
{
    let mut files = FileList::new(alloc);
    for track in tracks {
        files.push(first_file(alloc, job, master, ended, track)?)?;
    }
    Ok(files)
}

#[tactic(auto, unfolding(crate::specs::Decisions::first_file))]
fn first_file(
    alloc: Global,
    job: &PublishJob,
    master: &Name,
    ended: bool,
    track: &SideTrack,
) -> Result<NewFile, Stop>
    requires { IsWritableList track.now.list }
    ensures file { Gives (λ file. file) stopped result (spec.first_file job.now master.now ended track.now) }
    ensures no_fault { IsNoReadFault result }
{
    let name = served_name(alloc, job, master, track.file.as_str())?;
    let head = first_head(job, ended, &track.list.head);
    let text = text_within(alloc, &track.name, &head, &track.list.items)?;
    Ok(NewFile { name, text })
}

fn first_head(job: &PublishJob, ended: bool, head: &MediaHead) -> MediaHead
    ensures { result ≡ spec.first_head job.now ended head.now }
{
    MediaHead {
        target: head.target.max(job.target),
        sequence: head.sequence,
        first_section: head.first_section,
        ended,
        digits: head.digits,
    }
}

/// The name of a file in the served folder. A master whose tracks have no room there isn't taken.
fn served_name(alloc: Global, job: &PublishJob, master: &Name, file: &str) -> Result<Name, Stop>
    ensures name { Gives (λ name. name) stopped result (spec.served_name job.now master.now file.now) }
    ensures no_fault { IsNoReadFault result }
{
    match name_in(alloc, &job.served, file)? {
        Some(name) => Ok(name),
        None => Err(Stop::at(alloc, master, Refused::Form)),
    }
}
