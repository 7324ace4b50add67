//! What a board that has finished comes to, written into memory that was taken before.
#![tactic(auto)]

mod imaging;
mod telling;

pub use imaging::{fill_image, room_for};
pub use telling::tell;
