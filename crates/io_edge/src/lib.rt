//! The edge of the program: files and a sink as traits, in memory and real.
#![tactic(auto)]

mod fetch;
mod files;
mod mem_files;
mod mem_sink;
mod real_files;
mod real_sink;
mod sink;

pub use crate::fetch::{Interruption, fetch_file};
pub use files::{Files, ReadRefusal};
pub use mem_files::{Entry, MemFiles, Read};
pub use mem_sink::MemSink;
pub use real_files::RealFiles;
pub use real_sink::RealSink;
pub use sink::{Failed, Sink, write_all};
