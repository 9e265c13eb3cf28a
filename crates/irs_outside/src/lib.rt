//! The outside world of the program: where its files come from, and where its text goes.
#![tactic(auto)]

mod file_map;
mod files;
mod memory_files;
mod memory_sink;
mod real;
mod sink;
mod sure_files;
mod sure_sink;

pub use files::{FetchErr, Files};
pub use memory_files::MemFiles;
pub use memory_sink::MemSink;
pub use real::{RealFiles, RealSink};
pub use sink::{PutFailed, Sink};
pub use sure_files::SureFiles;
pub use sure_sink::SureSink;
