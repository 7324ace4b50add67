//! Two small machines, which keep what the laws of boards ask of a machine.
//!
//! The definitions are under specs/, the proofs of what is asked under proofs/.
#![tactic(auto)]
