//! Why the input of a command is rejected, the report's lines for it, and how a command ends.
#![tactic(auto)]

mod base;
mod ending;
mod fault_words;
mod frame_stop;
mod index_refusal;
mod laws;
mod lines;
mod reading;
mod refusal;
mod spot;
mod times_refusal;
mod update_fault;

pub use base::{file_url, folder_url};
pub use ending::{halted, refused};
pub use frame_stop::FrameStop;
pub use index_refusal::IndexRefusal;
pub use laws::{
    accepted_frames_make_the_files, commands_read_before_they_write, one_course_for_both_tellings,
    one_course_where_files_do_not_matter,
};
pub use lines::{frame_accepted, frame_refused, stream_done, tell_line};
pub use reading::{Halt, content_of, media_at, update_at};
pub use refusal::{Refusal, Stop, file_refusal_text, refusal_line, refusal_text};
pub use spot::Spot;
pub use times_refusal::TimesRefusal;
pub use update_fault::UpdateFault;
