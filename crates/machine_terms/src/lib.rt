//! What the machine runs on and gives: values, frames, segments, and a run in order. The definitions
//! say what each segment of any code leaves.
#![tactic(auto)]

mod copies;
mod frame;
mod order;
mod outcome;
mod ran;
mod stack;
mod value;

pub use frame::{Before, DEEPEST, Frame};
pub use order::{Contents, Ended, Instance, Resumed, Root};
pub use outcome::{After, CallOut, Made, Yield};
pub use ran::Ran;
pub use stack::Stack;
pub use value::{PartitionValue, RegionValue, Value};
