//! The outside of the program: files, sources and sinks of bytes, their forms in memory and over std, and the statuses.
#![tactic(auto)]

mod count;
mod dir_files;
mod mem_files;
mod mem_sink;
mod mem_source;
mod outside;
mod status;
mod std_sink;
mod std_source;

pub use dir_files::DirFiles;
pub use mem_files::MemFiles;
pub use mem_sink::MemSink;
pub use mem_source::MemSource;
pub use outside::{Failed, FileFault, Files, Sink, Source};
pub use status::Status;
pub use std_sink::StdSink;
pub use std_source::StdSource;
