//! Region trees (OOPSLA 2013), and what tasks need of their regions (Legion, SC 2012).
//!
//! A root is a set of points. A partition divides a region into sets, one for each colour, which
//! are regions themselves. A task needs some points of a root, in a field and a mode.
#![tactic(auto)]

mod content;
mod coverage;
mod fault;
mod interference;
mod modes;
mod needs;
mod path;
mod piece;
mod refusal;
mod required;
mod required_part;
mod required_within;
mod sweep;
mod tree;

pub use content::Node;
pub use coverage::within;
pub use fault::TreeFault;
pub use interference::interferes;
pub use needs::{Need, Needs};
pub use piece::{Part, Piece};
pub use required::Required;
pub use required_part::part_of;
pub use required_within::are_within;
pub use sweep::least_shared;
pub use tree::{OpNumber, RootId, Tree};
