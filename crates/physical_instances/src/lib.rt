//! What the regions hold on a board: for each live root, field and point a number (logical regions and physical
//! instances: Legion, SC 2012).
//!
//! `Contents` is proved against the logical map of `logical_map`; `specs/Kept` says how contracts see it.
#![tactic(auto)]

mod contents;
mod copying;
mod current;
mod fields;
mod fill;
mod folding;
mod instances;
mod marks;
mod roots;

pub use contents::Contents;
pub use copying::copy_part;
pub use fill::{Fill, Filled};
