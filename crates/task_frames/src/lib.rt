//! Frames in which tasks begin and go on.
#![tactic(auto)]

mod needs;
mod opening;
mod settling;
mod starting;

pub use needs::needs_on;
pub use opening::opening_frame;
pub use settling::settled;
pub use starting::{first_frame, may_start};
