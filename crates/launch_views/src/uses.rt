//! How the called task uses the regions of arguments.

ghost use Rattle.std.specs.Prelude.{◌≡◌, IfOk};
ghost use Rattle.check_rules.specs.launches.Views.{mode_of, space_of, uses_of, uses_on};

use lane_kernels::Mode;
use plain_values::Sequence;
use regent_tree::{Access, Right, StaticType};
use std::alloc::{AllocError, Global};

fn mode_of(access: Access) -> Mode
    ensures { result ≡ mode_of access }
{
    match access {
        Access::Read => Mode::Read,
        Access::Write => Mode::Write,
        Access::Reduce(op) => Mode::Reduce(op),
    }
}

/// The privileges on the parameter at a place, as uses of fields.
fn uses_on(
    alloc: Global,
    rights: &[Right],
    place: usize,
) -> Result<Sequence<(u8, Mode)>, AllocError>
    ensures { IfOk result (λ uses. uses ≡ uses_on rights.now place) }
{
    let mut uses = Sequence::new(alloc);
    for right in rights {
        if right.region as usize == place {
            uses.push((right.field, mode_of(right.access)))?;
        }
    }
    Ok(uses)
}

/// How an argument is used: it has no uses where it isn't a region of the parameter's field space.
pub fn uses_of(
    alloc: Global,
    wanted: &StaticType,
    t: &StaticType,
    rights: &[Right],
    place: usize,
) -> Result<Sequence<(u8, Mode)>, AllocError>
    ensures { IfOk result (λ uses. uses ≡ uses_of wanted.now t.now rights.now place) }
{
    match (wanted, t) {
        (StaticType::Region { space, .. }, StaticType::Region { space: other, .. })
            if *space == *other => { uses_on(alloc, rights, place) }
        _ => Ok(Sequence::new(alloc)),
    }
}

/// The field space of a region; 0 of anything else.
pub fn space_of(t: &StaticType) -> u32
    ensures { result ≡ space_of t.now }
{
    match t {
        StaticType::Region { space, .. } => *space,
        _ => 0,
    }
}
