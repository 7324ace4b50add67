//! Sources and sinks in memory that fail at a call, each made of what was made for it.

use run_io::{MemorySink, MemorySource};
use std::alloc::{AllocError, Global};

/// The bytes of a text.
pub fn bytes_of(alloc: Global, text: &str) -> Result<Vec<u8>, AllocError> {
    Vec::from_slice(alloc, text.as_bytes())
}

/// A source of these bytes that fails at these calls.
pub fn source_of(
    bytes: Result<Vec<u8>, AllocError>,
    fails: Result<Vec<u32>, AllocError>,
) -> Result<MemorySource, AllocError> {
    let bytes = bytes?;
    Ok(MemorySource::new(bytes, fails?))
}

/// A sink with so much room that takes so many bytes a write, and fails at a call; 0 for none.
pub fn sink_of(
    alloc: Global,
    room: usize,
    step: usize,
    fails: u32,
) -> Result<MemorySink, AllocError> {
    MemorySink::new(alloc, room, step, Vec::from_slice(alloc, &[fails])?)
}
