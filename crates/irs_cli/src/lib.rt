//! The program as a library: `run`, which prints what its words ask for, over any source of files and
//! any sink.
#![tactic(auto)]

mod causes;
mod commands;
mod fetching;
mod laws;
mod naming;
mod page;
mod params;
mod program;
mod putting;
mod refusals;
mod rows;
mod sharing;

pub use causes::{RunCause, RunReply};
pub use commands::Role;
pub use irs_answers::{Cause, Common, Front, Note, Spot, Unfixed};
pub use irs_base::Status;
pub use irs_bulk::{bulk_calendar, bulk_doc};
pub use irs_outside::{
    FetchErr, Files, MemFiles, MemSink, PutFailed, RealFiles, RealSink, Sink, SureFiles, SureSink,
};
pub use laws::a_run_without_faults_is_complete;
pub use naming::{file_name, files_are_named};
pub use program::{cause_of_run, reply_for, run, run_with};
pub use sharing::read_common;
