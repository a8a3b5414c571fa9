//! Laws of commands and of followed presentations. The functions do nothing: what they ensure is the law.
ghost use Rattle.bridge_report.specs.Laws.{CommandsReadFirst, ReadFaultOfCommandsKeepsFiles, FilesAreOfAccepted, FileIsOfAccepted};
ghost use Rattle.bridge_report.specs.Laws.{JudgedAlike, MirrorsHaveOneCourse};

/// A command reads everything before it writes, so that a run that ends with a read error wrote nothing.
pub fn commands_read_before_they_write()
    ensures first { CommandsReadFirst }
    ensures read_fault { ReadFaultOfCommandsKeepsFiles }
{}

/// After some update frames of a followed presentation the files are those that are written for the accepted ones, and one
/// that is written again for each has the text of the state after these.
pub fn accepted_frames_make_the_files<S, X>()
    ensures files { FilesAreOfAccepted S X }
    ensures file { FileIsOfAccepted S X }
{}

/// Where a definition over histories and one over their states agree, both have the same course.
pub fn one_course_for_both_tellings<S, T, X>()
    ensures { MirrorsHaveOneCourse S T X }
{}

/// Where what a frame is judged by doesn't depend on the store's files, the course is that of the frames alone.
pub fn one_course_where_files_do_not_matter<S, X>()
    ensures { JudgedAlike S X }
{}
