//! The outside: files that are fetched and sinks that take bytes, in memory and over the host;
//! begin with `Files` and `Sink`.
#![tactic(auto)]

pub mod files;
pub mod host;
pub mod memory;
pub mod sink;
pub mod steps;

pub use files::{FetchFault, Files};
pub use host::{HostFiles, HostSink};
pub use memory::{MemoryFiles, MemorySink};
pub use sink::{Sink, SinkFailed, WriteFault, write_whole};
