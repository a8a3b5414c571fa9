// The times of a snapshot's segments, by their files.
ghost use Rattle.std.specs.Prelude.{◌≡◌, ◌<◌, ◌+◌, ◌*◌, All, IfOk, IfSome, length};
ghost use Rattle.std.specs.Option.{ForSome, option_copied};
ghost use Rattle.bridge_io.specs.Answer.{Gives};
ghost use Rattle.bridge_io.specs.Fault.{HasCause};
ghost use Rattle.fragment_times.specs.Times.{IsScaled};
ghost use Rattle.hls_follow.specs.Faults.{told};
ghost use Rattle.hls_follow.specs.Kept.{HasScale, HasScales};
ghost use Rattle.hls_follow.specs.OwnTimes.{map_of, part_of, snapshot_of, timed_told, unread};
ghost use Rattle.hls_follow.specs.Readings as spec;
ghost use Rattle.hls_follow.specs.Stretches.{stretch_of};

use crate::snapshot::{Snapshot, period_in, run_at};
use crate::stretches::Stretch;
use crate::{LiveFault, TimedFault};
use bridge_io::{NoMemory, Store};
use dash_writer::{LivePeriod, LiveRun};
use fragment_times::{SegmentTimes, StartList, Stated, TimesList, part_scale, part_start};
use hls_media::MediaSegment;
use std::alloc::Global;
use url_parts::Part;

/// The most bytes of media files that a snapshot needs, up to the ends of the boxes that contain timescales and times.
const MOST_BYTES: u64 = 536_870_912;

/// What was read of media files.
#[derive(Drop)]
pub(crate) struct Read<X> {
    pub(crate) value: X,
    /// How many more bytes may come.
    pub(crate) left: u64,
}

/// What a box of a file states, where its end isn't behind the bytes that may come.
fn charged<X: Copy>(told: Stated<X>, left: u64) -> Result<Read<X>, TimedFault>
    ensures { result ≡ spec.charged told.end told.value left }
{
    if left < told.end {
        return Err(TimedFault::Live(LiveFault::Limit));
    }
    Ok(Read {
        value: told.value,
        left: left - told.end,
    })
}

impl Snapshot<'_> {
    /// The media times of all segments, by section, then by track. A segment that the last accepted snapshot listed keeps its time, a
    /// section that it had keeps its tracks' timescales, and the files of all others are read: by section, then by track, the init
    /// segment first and then the segments in order. `Limit` comes at the first file with which they need too many bytes.
    pub(crate) fn times<F: Store>(
        &self,
        alloc: Global,
        store: &mut F,
    ) -> Result<TimesList, TimedFault>
        requires known { All HasScales self.now.periods.now }
        ensures times { ForSome (F.files store.old) (λ files.
            Gives (λ times. times) timed_told result (spec.read_times (snapshot_of self.now) files)) }
        ensures filled { IfOk result (λ times. length times ≡ length self.now.sections.now * length self.now.tracks.now) }
        ensures scaled { IfOk result (λ times. All IsScaled times) }
        ensures cause { HasCause unread (F.read_faults store.old) (F.read_faults store.new) result }
        ensures files { F.files store.new ≡ F.files store.old }
        ensures writes { F.write_faults store.new ≡ F.write_faults store.old }
    {
        let mut read = Read {
            value: TimesList::new(alloc),
            left: MOST_BYTES,
        };
        let mut place = 0;
        for number in self.sections {
            let known = period_in(*number, self.periods);
            read = self.with_section(alloc, known, place, read, store)?;
            place += 1;
        }
        Ok(read.value)
    }

    /// Adds those of the section at an index, track by track.
    fn with_section<F: Store>(
        &self,
        alloc: Global,
        known: Option<&LivePeriod>,
        place: usize,
        former: Read<TimesList>,
        store: &mut F,
    ) -> Result<Read<TimesList>, TimedFault>
        requires known { IfSome (option_copied known) HasScales }
        requires scaled { All IsScaled former.value }
        ensures times { ForSome (F.files store.old) (λ files. Gives (λ read. read) timed_told result
            (spec.after former (spec.read_section (snapshot_of self.now) files (option_copied known.entry) place))) }
        ensures filled { IfOk result (λ read. length read.value ≡ length former.value + length self.now.tracks.now) }
        ensures scaled { IfOk result (λ read. All IsScaled read.value) }
        ensures cause { HasCause unread (F.read_faults store.old) (F.read_faults store.new) result }
        ensures files { F.files store.new ≡ F.files store.old }
        ensures writes { F.write_faults store.new ≡ F.write_faults store.old }
    {
        let Read {
            value: mut times,
            mut left,
        } = former;
        for track in 0..self.tracks.len() {
            let stretch = self.tracks[track].at(place);
            let own = self.track_times(alloc, run_at(known, track), stretch, left, store)?;
            times.push(own.value)?;
            left = own.left;
        }
        Ok(Read { value: times, left })
    }

    /// The timescale of a track in a section, and the times of its segments there.
    fn track_times<F: Store>(
        &self,
        alloc: Global,
        known: Option<&LiveRun>,
        stretch: Stretch<'_>,
        left: u64,
        store: &mut F,
    ) -> Result<Read<SegmentTimes>, TimedFault>
        requires known { IfSome (option_copied known) HasScale }
        ensures times { ForSome (F.files store.old) (λ files. Gives (λ read. read) timed_told result
            (spec.read_track self.now.folder.now files (option_copied known.entry) (stretch_of stretch.entry) left)) }
        ensures scaled { IfOk result (λ read. IsScaled read.value) }
        ensures cause { HasCause unread (F.read_faults store.old) (F.read_faults store.new) result }
        ensures files { F.files store.new ≡ F.files store.old }
        ensures writes { F.write_faults store.new ≡ F.write_faults store.old }
    {
        let scale = self.scale_of(alloc, known, stretch, left, store)?;
        let starts = self.starts_of(alloc, stretch, scale.left, store)?;
        Ok(Read {
            value: SegmentTimes {
                scale: scale.value,
                starts: starts.value,
            },
            left: starts.left,
        })
    }

    /// The timescale of a track in a section: the known one, or that of its init segment.
    fn scale_of<F: Store>(
        &self,
        alloc: Global,
        known: Option<&LiveRun>,
        stretch: Stretch<'_>,
        left: u64,
        store: &mut F,
    ) -> Result<Read<u32>, TimedFault>
        requires known { IfSome (option_copied known) HasScale }
        ensures scale { ForSome (F.files store.old) (λ files. Gives (λ read. read) timed_told result
            (spec.read_scale self.now.folder.now files (option_copied known.entry) (stretch_of stretch.entry) left)) }
        ensures positive { IfOk result (λ read. 0 < read.value) }
        ensures cause { HasCause unread (F.read_faults store.old) (F.read_faults store.new) result }
        ensures files { F.files store.new ≡ F.files store.old }
        ensures writes { F.write_faults store.new ≡ F.write_faults store.old }
    {
        if let Some(run) = known {
            return Ok(Read {
                value: run.scale,
                left,
            });
        }
        let map = map_of(stretch.segments)?;
        let scale = part_scale(alloc, self.folder, map, store)?;
        charged(scale, left)
    }

    /// The times of a track's segments in a section: the known ones, and then those of the other segments' files.
    fn starts_of<F: Store>(
        &self,
        alloc: Global,
        stretch: Stretch<'_>,
        mut left: u64,
        store: &mut F,
    ) -> Result<Read<StartList>, TimedFault>
        ensures starts { ForSome (F.files store.old) (λ files. Gives (λ read. read) timed_told result
            (spec.read_starts self.now.folder.now files (stretch_of stretch.entry) left)) }
        ensures cause { HasCause unread (F.read_faults store.old) (F.read_faults store.new) result }
        ensures files { F.files store.new ≡ F.files store.old }
        ensures writes { F.write_faults store.new ≡ F.write_faults store.old }
    {
        let mut starts = StartList::new(alloc);
        starts.extend(stretch.known)?;
        for segment in stretch.new_segments() {
            let part = part_of(alloc, segment)?;
            let start = part_start(alloc, self.folder, &part, store)?;
            let read = charged(start, left)?;
            starts.push(read.value)?;
            left = read.left;
        }
        Ok(Read {
            value: starts,
            left,
        })
    }
}

/// The map of the first segment.
pub(crate) fn map_of(segments: &[MediaSegment]) -> Result<&Part, LiveFault>
    ensures { Gives (λ map. map.now) told result (map_of segments.now) }
{
    match segments.first() {
        Some(MediaSegment { map: Some(map), .. }) => Ok(map),
        _ => Err(LiveFault::NoMap),
    }
}

/// The file of a segment, or its byte range of one.
fn part_of(alloc: Global, segment: &MediaSegment) -> Result<Part, NoMemory>
    ensures { IfOk result (λ part. part ≡ part_of segment.now) }
{
    let address = segment.address.copy(alloc)?;
    let range = segment.range;
    Ok(Part { address, range })
}
