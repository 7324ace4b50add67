//! What a segment that is given back makes of the parts of a board's state. Each call takes its memory before it changes
//! anything; a refusal leaves what the segment left as it was.
#![tactic(auto)]

mod ending;
mod parking;
mod parting;
mod returning;
mod rooting;
mod telling;
mod waiting;

pub use ending::{end, fail, frame_of_roots, leave, take_parts};
pub use parking::{Waits, wait_for_nothing};
pub use parting::{is_here, make_partition};
pub use returning::give_parts;
pub use rooting::make_root;
pub use telling::{tell, untell};
pub use waiting::{await_child, want};
