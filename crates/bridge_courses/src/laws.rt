//! Laws of runs. The functions do nothing: what they ensure is the law.
ghost use Rattle.bridge_courses.specs.Laws.{DoneIsWhole, VerdictKeepsSteps, ReadFaultKeepsFiles, ReadFaultRose, WriteFaultRose, IsComplete};
ghost use Rattle.bridge_courses.specs.Laws.{OthersStay, ExecutionLeavesSteps, ReadFaultLeavesSteps, ExecutionMakesSteps, VerdictTellsSteps};
ghost use Rattle.bridge_courses.specs.Laws.{ReadFaultTellsSteps, WriteFaultTellsSteps, ExecutionTellsFronts};
ghost use Rattle.bridge_courses.specs.Laws.{ExecutionReadsSteps, ReadFaultReadsFewer, VerdictReadsAll};

/// A successful run has written the files of its course, and its whole report.
pub fn done_is_whole()
    ensures { DoneIsWhole }
{}

/// A run that ends neither with an I/O error nor out of memory ends as its course says, with the files of all its
/// steps: none, where the input is rejected before anything is written.
pub fn a_verdict_keeps_the_steps()
    ensures { VerdictKeepsSteps }
{}

/// Where a course reads before it writes, a run that ends with a read error wrote nothing.
pub fn a_read_fault_keeps_the_files()
    ensures { ReadFaultKeepsFiles }
{}

/// A run ends with an I/O error only where a count of faults rose in it.
pub fn a_fault_has_a_cause()
    ensures read { ReadFaultRose }
    ensures write { WriteFaultRose }
{}

/// A run in which no count of faults rose ends as its course says, or out of memory.
pub fn a_calm_execution_is_complete()
    ensures { IsComplete }
{}

/// However a run ends, each file that its course doesn't name is unchanged.
pub fn other_files_stay()
    ensures { OthersStay }
{}

/// However a run ends, it has written the files of some first steps, and of the next one none, or some with one possibly
/// truncated, or all; after a read error none of the next one.
pub fn an_execution_leaves_its_steps()
    ensures steps { ExecutionLeavesSteps }
    ensures read_fault { ReadFaultLeavesSteps }
{}

/// However a run ends, it read of standard input what the steps ask for that are done, and at most what the next one asks for; after a
/// read error, where no read of a file failed, less than that; and all that is asked for where it ends with a verdict.
pub fn an_execution_reads_no_further()
    ensures steps { ExecutionReadsSteps }
    ensures verdict { VerdictReadsAll }
    ensures read_fault { ReadFaultReadsFewer }
{}

/// However a run of a counting course ends, it made the segments of some first steps, and some of the next one.
pub fn an_execution_makes_the_segments_of_its_steps()
    ensures { ExecutionMakesSteps }
{}

/// Where the sink doesn't fail, a run reports the whole report of its course, or the lines of some first steps and then
/// its fault. However it ends, it reported a prefix of the report, and then a prefix of a line.
pub fn an_execution_tells_its_steps()
    ensures verdict { VerdictTellsSteps }
    ensures read_fault { ReadFaultTellsSteps }
    ensures write_fault { WriteFaultTellsSteps }
    ensures fronts { ExecutionTellsFronts }
{}
