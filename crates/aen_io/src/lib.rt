//! The outside as the program sees it: files that are read and a sink that is written, each with
//! a count of faults, so that a fault is told from every other answer. One pair stands in memory
//! and fails where it is told to; the other is the system's.
#![tactic(auto)]

mod files;
mod mem_files;
mod mem_sink;
mod plan;
mod read_log;
mod reading;
mod real_files;
mod real_sink;
mod sink;
mod write_log;
mod writing;

pub use files::{Failed, Files};
pub use mem_files::MemFiles;
pub use mem_sink::MemSink;
pub use read_log::ReadLog;
pub use reading::{ReadAll, read_all};
pub use real_files::RealFiles;
pub use real_sink::RealSink;
pub use sink::Sink;
pub use write_log::WriteLog;
pub use writing::write_all;
