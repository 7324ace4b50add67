//! Accesses to a field of a region, held or wanted.

use crate::facts::Term;
use lane_kernels::Op;

/// What is done with a field.
#[derive(Clone, Copy, Debug, PartialEq, Eq)]
pub enum Access {
    Read,
    Write,
    Reduce(Op),
}

/// A privilege: an access to a field of a region, which is named by its binding.
#[derive(Clone, Copy, Debug, PartialEq, Eq)]
pub struct Right {
    pub region: u32,
    pub field: u8,
    pub access: Access,
}

/// What a statement or a call wants of a region.
#[derive(Clone, Copy, Debug, PartialEq, Eq)]
pub struct Wanted {
    pub term: Term,
    pub field: u8,
    pub access: Access,
}
