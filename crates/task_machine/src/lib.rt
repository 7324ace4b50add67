//! The machine, which runs the code of one task instance until it needs something from outside.
#![tactic(auto)]

mod calls;
mod fills;
mod frequent;
mod heads;
mod jumps;
mod launches;
mod numbers;
mod operations;
mod partitioning;
mod pointers;
mod regions;
mod running;
mod segment;
mod steps;
mod touches;

pub use machine_terms::{
    After, Before, CallOut, Frame, Made, PartitionValue, Ran, RegionValue, Stack, Value, Yield,
};
pub use segment::{run, run_segment};
