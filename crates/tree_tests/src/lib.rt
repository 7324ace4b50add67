//! Each public call of region_tree, physical_instances and index_launch with memory at hand.
//!
//! They stand in a crate of their own so that a crate is proved once, without its tests.
#![tactic(auto)]

#[cfg(test)]
mod instances;
#[cfg(test)]
mod launches;
#[cfg(test)]
mod trees;
