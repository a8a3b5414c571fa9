// The lines of the report.
ghost use Rattle.std.specs.Prelude.{◌≡◌, IfOk, codes};
ghost use Rattle.publish_core.specs.Reports as spec;

use bridge_io::{NoMemory, Text};
use publish_law::Course;
use std::alloc::Global;

/// How many segments are appended and removed in all tracks.
#[derive(Clone, Copy)]
pub(crate) struct Counts {
    pub(crate) appended: usize,
    pub(crate) removed: usize,
}

#[tactic(auto, unfolding(crate::specs::Reports::first_line))]
pub(crate) fn first_line(alloc: Global, tracks: usize, segments: usize) -> Result<Text, NoMemory>
    ensures { IfOk result (λ line. line ≡ spec.first_line tracks segments) }
{
    Ok(Text::from(format!(in alloc; "first tracks={tracks} segments={segments}\n")?))
}

pub(crate) fn unchanged_line(alloc: Global) -> Result<Text, NoMemory>
    ensures { IfOk result (λ line. line ≡ codes "unchanged\n") }
{
    Text::copy_of(alloc, "unchanged\n")
}

#[tactic(auto, unfolding(crate::specs::Reports::counts_line))]
pub(crate) fn counts_line(alloc: Global, course: Course, counts: Counts) -> Result<Text, NoMemory>
    ensures { IfOk result (λ line. line ≡ spec.counts_line course counts) }
{
    let word = word_of(course);
    let Counts { appended, removed } = counts;
    Ok(Text::from(format!(in alloc; "{word} appended={appended} removed={removed}\n")?))
}

fn word_of(course: Course) -> &'static str
    ensures { result.now ≡ spec.word_of course }
{
    match course {
        Course::Unchanged | Course::Joined => "joined",
        Course::Stepped => "stepped",
        Course::Ended => "ended",
    }
}
