//! Finders of earlier operations (the dependence analysis of Legion, SC 2012).
#![tactic(auto)]

mod conflicts;
mod covers;
mod entries;
mod entry;
mod found;
mod placed;
mod ranges;
mod scan;
mod user;
mod users;
mod walk;
mod ways;

pub use scan::ScanFinder;
pub use walk::WalkFinder;
