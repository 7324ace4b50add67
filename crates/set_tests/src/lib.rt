//! Each public call of bit_planes, point_sets, lane_kernels and partitions with memory at hand.
//!
//! They stand in a crate of their own so that a crate is proved once, without its tests.
#![tactic(auto)]

#[cfg(test)]
mod kernels;
#[cfg(test)]
mod largest;
#[cfg(test)]
mod numbers;
#[cfg(test)]
mod parts;
#[cfg(test)]
mod planes;
#[cfg(test)]
mod rows;
#[cfg(test)]
mod sets;
