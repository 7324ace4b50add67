//! Copies of names.

ghost use Rattle.std.specs.Prelude.{◌≡◌, IfOk};

use regent_tree::{Name, Sequence};
use std::alloc::{AllocError, Global};

/// A second copy of a name.
pub fn copy_name(alloc: Global, name: &Name) -> Result<Name, AllocError>
    ensures { IfOk result (λ copy. copy ≡ name.now) }
{
    Sequence::from_slice(alloc, name.as_slice())
}
