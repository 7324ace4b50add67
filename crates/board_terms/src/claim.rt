//! Claims.

use region_tree::OpNumber;

/// An operation that a seat has claimed. The turn is how many claims there were before on the board: no two
/// claims have the same.
#[derive(Clone, Copy, Debug, PartialEq, Eq)]
pub struct Claim {
    pub op: OpNumber,
    pub seat: u16,
    pub turn: u64,
}
