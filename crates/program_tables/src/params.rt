//! Look-ups among parameters and fields, of which a list has few.

ghost use Rattle.std.specs.Prelude.{◌≡◌, is_some, IfOk, IfSome, IfNone, length};
ghost use Rattle.program_tables.specs.Lookups.{place_named};
ghost use Rattle.regent_tree.specs.Lookup.{has_param};
ghost use Rattle.regent_tree.specs.StaticTypes.{place_in};

use regent_tree::{Name, Param};
use std::alloc::AllocError;

/// The place of a name among parameters or fields.
pub fn place_in(params: &[Param], name: &Name) -> Option<usize>
    ensures found { is_some result ≡ has_param params.now name.now }
    ensures place { IfSome result (λ p. p ≡ place_in params.now name.now) }
    ensures missing { IfNone result (place_in params.now name.now ≡ length params.now) }
{
    first_place(params, name)
}

/// The place of a name among parameters or fields, or where there is none their number. A place
/// that needs more than 32 bits counts as a want of memory.
pub fn place_or_len(params: &[Param], name: &Name) -> Result<u32, AllocError>
    ensures { IfOk result (λ p. p ≡ place_in params.now name.now) }
{
    let place = first_place(params, name).unwrap_or(params.len());
    u32::try_from(place).map_err(|_| AllocError)
}

fn first_place(params: &[Param], name: &Name) -> Option<usize>
    ensures { result ≡ place_named (λ p. p.name) params.now name.now }
{
    params.iter().position(|param| param.name == *name)
}
