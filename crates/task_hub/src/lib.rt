//! A board behind a lock, and the seats of the workers that share it. The steps of all seats are counted by a ledger,
//! and by another one the seats that were told that all is over.
#![tactic(auto)]

mod hub;
mod locked;
mod seat;

pub use hub::Hub;
pub use locked::Locked;
pub use seat::Seat;
pub use task_core::Board;
