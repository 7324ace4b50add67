//! Why there is no new partition.

use std::alloc::AllocError;
use thiserror::Error;

/// Why a partition is refused.
#[derive(Debug, Drop, Error)]
pub enum TreeFault {
    /// The set of a colour has a point that the region lacks.
    #[error("colour {colour} leaves the region at point {point}")]
    NotWithin { colour: u32, point: u32 },
    /// The sets of two colours share a point, though the partition is to be disjoint.
    #[error("colours {a} and {b} share point {point}")]
    NotDisjoint { a: u32, b: u32, point: u32 },
    /// There is no memory.
    #[error(transparent)]
    Memory(AllocError),
}

impl From<AllocError> for TreeFault {
    ghost use Rattle.std.specs.Prelude.{◌≡◌};
    ghost use Rattle.region_tree.specs.declared.fault.TreeFault.TheVariants.{Memory};

    ghost from_gives = { λ x e. e ≡ Memory x };

    fn from(error: AllocError) -> TreeFault {
        TreeFault::Memory(error)
    }
}
