//! The input of the bridge: its command line, and the update frames of a followed presentation.
#![tactic(auto)]

mod decimal;
mod frame;
mod given;
mod header;
mod input;
mod jobs;
pub mod laws;
mod lengths;
mod round;
mod values;
mod verb;
mod words;

pub use frame::{Frame, FrameFault, FramePos, read_frame};
pub use jobs::{
    Addresses, AgreeJob, CheckJob, CompareJob, FollowJob, HlsJob, IndexJob, Job, MakeJob,
    MasterJob, ReloadJob, ShowJob,
};
pub use round::{BodyList, Round, read_round};
pub use words::job;
