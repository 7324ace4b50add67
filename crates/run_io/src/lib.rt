//! Sources of bytes and sinks for bytes, which count their faults.
#![tactic(auto)]

mod failed;
mod fault_count;
mod feed;
mod file_source;
mod memory_sink;
mod memory_source;
mod names;
mod plan;
mod rest;
mod sink;
mod source;
mod std_sink;
mod std_source;
mod sure_source;

pub use failed::Failed;
pub use file_source::FileSource;
pub use memory_sink::MemorySink;
pub use memory_source::MemorySource;
pub use rest::{NoRest, read_rest};
pub use sink::{Sink, put_all};
pub use source::Source;
pub use std_sink::StdSink;
pub use std_source::StdSource;
pub use sure_source::SureSource;
