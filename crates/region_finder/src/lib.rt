//! What a finder of earlier operations is, and what it asks of a region tree.
//!
//! A finder lists operations with their needs and tells which of them interfere with new needs. It sees a
//! tree through [`Paths`] and [`Probe`] alone, and the latter counts its tests of points.
#![tactic(auto)]

mod finder;
mod laws;
mod paths;
mod steps;

pub use finder::Finder;
pub use laws::{answers_stay, listings_stay};
pub use paths::{Paths, Probe};
pub use steps::Steps;
