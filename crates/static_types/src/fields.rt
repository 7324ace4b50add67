//! Fields of regions.

ghost use Rattle.std.specs.Prelude.{◌≡◌};
ghost use Rattle.regent_tree.specs.Lookup.{has_field};
ghost use Rattle.regent_tree.specs.PlainProgram.{tree_of};
ghost use Rattle.check_rules.specs.types.Lookup.{region_has};

use crate::looking::has_param;
use program_tables::Tables;
use regent_tree::{Name, StaticType};

/// Whether the field space at a place has a field.
fn has_field(tables: &Tables, space: u32, field: &Name) -> bool
    ensures { result ≡ has_field (tree_of tables.now) space field.now }
{
    match tables.space_at(space) {
        Some(space) => has_param(space.fields.as_slice(), field),
        None => false,
    }
}

/// Whether a region has a field; of what isn't a region nothing is said.
pub fn region_has(tables: &Tables, t: &StaticType, field: &Name) -> bool
    ensures { result ≡ region_has (tree_of tables.now) t.now field.now }
{
    match t {
        StaticType::Region { space, .. } => has_field(tables, *space, field),
        _ => true,
    }
}
