// A publication where something is served.
ghost use Rattle.std.specs.Prelude.{◌≡◌, ◌≢◌, [], All, IfOk, IfSome, Some};
ghost use Rattle.bridge_io.specs.Answer.{Gives};
ghost use Rattle.laws_of_publishing.specs.Laws.{IsWritableChange, IsWritableTrack};
ghost use Rattle.publish_law.specs.Lists.{saturated};
ghost use Rattle.publish_law.specs.Plans.{published, refusal};
ghost use Rattle.publish_core.specs.Decisions as spec;
ghost use Rattle.publish_core.specs.declared.refusal.Stop.TheVariants.{ReadFault};
ghost use Rattle.publish_core.specs.Refusals.{stopped};
ghost use Rattle.publish_core.specs.Sides.{AreWritable, IsNoReadFault, IsWritableList};

use crate::decision::{Decision, FileList, NewFile};
use crate::job::PublishJob;
use crate::limits::text_within;
use crate::refusal::{Refused, Stop};
use crate::report::{Counts, counts_line, unchanged_line};
use crate::same::are_same_tracks;
use crate::side::{SEGMENT_LIMIT, Side, SideTracks, copy_of};
use bridge_io::{Name, NoMemory, Sequence, Text};
use followed_text::FollowedText;
use laws_of_publishing::what_is_published_can_be_written;
use publish_law::{Change, Options, Publication, PublishFault, Track, published};
use std::alloc::Global;

/// The names of a track's new file and of its served one.
#[derive(Drop)]
struct FileNames {
    new: Name,
    served: Name,
}

/// The tracks of both sides, in the masters' order.
#[derive(Drop)]
struct Tracks {
    names: Sequence<FileNames>,
    tracks: Sequence<Track>,
}

/// What is written: the playlists of the tracks that change, and the master last where its text is another one.
#[tactic(auto, unfolding(crate::specs::Decisions::next_of))]
pub(crate) fn next_publication(
    alloc: Global,
    job: &PublishJob,
    new: Side,
    served: Side,
) -> Result<Decision, Stop>
    requires new { AreWritable new.tracks }
    requires served { AreWritable served.tracks }
    ensures decision { Gives (λ decision. decision) stopped result (spec.next_of job.now new served) }
    ensures no_fault { IsNoReadFault result }
{
    if !are_same_tracks(new.tracks.as_slice(), served.tracks.as_slice()) {
        return Err(Stop::at(alloc, &new.file, Refused::Tracks));
    }
    let is_other_master = new.text.as_slice() != served.text.as_slice();
    let both = paired(alloc, new.tracks, served.tracks)?;
    let publication = match published_of(alloc, both.tracks.as_slice(), job.options) {
        Ok(publication) => publication,
        Err(fault) => return Err(stop_of(alloc, &new.file, both.names.as_slice(), fault)),
    };
    let mut files = files_of(alloc, &new.file, &both, &publication)?;
    if is_other_master {
        files.push(NewFile {
            name: served.file,
            text: new.text,
        })?;
    }
    let line = line_of(alloc, &files, &publication)?;
    Ok(Decision { files, line })
}

/// The tracks of both sides, which are the same ones.
fn paired(alloc: Global, new: SideTracks, served: SideTracks) -> Result<Tracks, NoMemory>
    ensures names { IfOk result (λ both. both.names ≡ spec.names_of new served) }
    ensures tracks { IfOk result (λ both. both.tracks ≡ spec.paired new served) }
{
    let mut names = Sequence::new(alloc);
    let mut tracks = Sequence::new(alloc);
    let mut news = new.into_vec().into_iter();
    let mut olds = served.into_vec().into_iter();
    while let Some(new) = news.next() {
        let Some(served) = olds.next() else {
            return Ok(Tracks { names, tracks });
        };
        names.push(FileNames {
            new: new.name,
            served: served.name,
        })?;
        tracks.push(Track::of(alloc, served.list, new.list)?)?;
    }
    Ok(Tracks { names, tracks })
}

/// What becomes of the served playlists, which can be written.
fn published_of(
    alloc: Global,
    tracks: &[Track],
    options: Options,
) -> Result<Publication, PublishFault>
    requires { All IsWritableTrack tracks.now }
    ensures publication { Gives (λ publication. publication) refusal result (published options tracks.now) }
    ensures writable { IfOk result (λ publication. All IsWritableChange publication.changes) }
{
    what_is_published_can_be_written();
    published(alloc, tracks, options)
}

/// The files of the tracks that change, unless the playlists that are served then have too many segments together.
fn files_of(
    alloc: Global,
    master: &Name,
    both: &Tracks,
    publication: &Publication,
) -> Result<FileList, Stop>
    requires { All IsWritableChange publication.now.changes }
    ensures files { Gives (λ files. files) stopped result
        (spec.next_files master.now both.now.names both.now.tracks publication.now.changes) }
    ensures no_fault { IsNoReadFault result }
{
    let changes = publication.changes.as_slice();
    let files = changed_files(alloc, both.names.as_slice(), changes)?;
    if segments_after(both.tracks.as_slice(), changes) > SEGMENT_LIMIT {
        return Err(Stop::at(alloc, master, Refused::Limit));
    }
    Ok(files)
}

fn changed_files(
    alloc: Global,
    mut names: &[FileNames],
    mut changes: &[Change],
) -> Result<FileList, Stop>
    requires { All IsWritableChange changes.now }
    ensures files { Gives (λ files. files) stopped result (spec.changed_files [] names.entry.now changes.entry.now) }
    ensures no_fault { IsNoReadFault result }
{
    let mut files = FileList::new(alloc);
    while let (Some((pair, later_names)), Some((change, later_changes))) = (
        names.split_first(),
        changes.split_first(),
    ) {
        files = with_list(alloc, files, pair, &change.list)?;
        (names, changes) = (later_names, later_changes);
    }
    Ok(files)
}

fn with_list(
    alloc: Global,
    mut files: FileList,
    names: &FileNames,
    list: &Option<FollowedText>,
) -> Result<FileList, Stop>
    requires { IfSome list.now IsWritableList }
    ensures files { Gives (λ files. files) stopped result (spec.with_list files names.now list.now) }
    ensures no_fault { IsNoReadFault result }
{
    if let Some(list) = list {
        files.push(changed_file(alloc, names, list)?)?;
    }
    Ok(files)
}

fn changed_file(alloc: Global, names: &FileNames, list: &FollowedText) -> Result<NewFile, Stop>
    requires { IsWritableList list.now }
    ensures file { Gives (λ file. file) stopped result (spec.changed_file names.now list.now) }
    ensures no_fault { IsNoReadFault result }
{
    let text = text_within(alloc, &names.new, &list.head, &list.items)?;
    let name = copy_of(alloc, &names.served)?;
    Ok(NewFile { name, text })
}

/// How many segments are served then, at most `usize::MAX`.
fn segments_after(mut tracks: &[Track], mut changes: &[Change]) -> usize
    ensures { result ≡ saturated (spec.segments_after tracks.entry.now changes.entry.now) }
{
    let mut count: usize = 0;
    while let (Some((track, later_tracks)), Some((change, later_changes))) = (
        tracks.split_first(),
        changes.split_first(),
    ) {
        count = count.saturating_add(list_after(track, change).items.len());
        (tracks, changes) = (later_tracks, later_changes);
    }
    count
}

/// The playlist that is served then.
fn list_after<'a>(track: &'a Track, change: &'a Change) -> &'a FollowedText
    ensures { result.now ≡ spec.list_after track.now change.now }
{
    match &change.list {
        Some(list) => list,
        None => &track.served,
    }
}

/// The line of the report: `unchanged` where no file is written.
fn line_of(alloc: Global, files: &FileList, publication: &Publication) -> Result<Text, NoMemory>
    ensures { IfOk result (λ line. line ≡ spec.line_of files.now publication.now) }
{
    if files.is_empty() {
        return unchanged_line(alloc);
    }
    counts_line(
        alloc,
        publication.course,
        counts_of(publication.changes.as_slice()),
    )
}

/// How many segments are appended and removed in all tracks, each at most `usize::MAX`.
fn counts_of(changes: &[Change]) -> Counts
    ensures { result ≡ spec.counts_of changes.now }
{
    let mut counts = Counts {
        appended: 0,
        removed: 0,
    };
    for change in changes {
        counts.appended = counts.appended.saturating_add(change.appended);
        counts.removed = counts.removed.saturating_add(change.removed);
    }
    counts
}

/// Why nothing is published, with the file to be named.
fn stop_of(alloc: Global, master: &Name, names: &[FileNames], fault: PublishFault) -> Stop
    ensures told { IfSome (stopped result)
        (λ told. (told ≡ spec.named_fault master.now names.now fault) × (refusal fault ≡ Some fault)) }
    ensures no_fault { result ≢ ReadFault }
{
    match fault {
        PublishFault::Digits(track) => stop_at(alloc, master, names, track, Refused::Digits),
        PublishFault::Ended => Stop::at(alloc, master, Refused::Ended),
        PublishFault::Back => Stop::at(alloc, master, Refused::Back),
        PublishFault::LongSegment(track, segment) => stop_at(
            alloc,
            master,
            names,
            track,
            Refused::LongSegment(segment),
        ),
        PublishFault::Memory => Stop::Memory,
    }
}

/// The refusal of a track's new file; of the master where there is no such track.
fn stop_at(
    alloc: Global,
    master: &Name,
    names: &[FileNames],
    track: usize,
    refused: Refused,
) -> Stop
    ensures told { IfSome (stopped result) (λ told. told ≡ (spec.name_at master.now track names.now, refused)) }
    ensures no_fault { result ≢ ReadFault }
{
    let file = match names.get(track) {
        Some(names) => &names.new,
        None => master,
    };
    Stop::at(alloc, file, refused)
}
