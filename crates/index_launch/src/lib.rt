//! Loops whose calls can be issued in one step: index launches (Regent, SC 2015; Legion, SC 2012).
//!
//! `specs/Shapes` says which loops are launches, and `specs/Points` which calls a launch issues.
#![tactic(auto)]

mod points;
mod shape;
mod view;

pub use points::{LaunchArg, PointArg, points_of};
pub use shape::launch_shape;
pub use view::{ArgKind, ArgView, LaunchShape, LoopView, Reason};
