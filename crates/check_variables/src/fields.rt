//! Fields of the regions that names stand for.

ghost use Rattle.std.specs.Prelude.{◌≡◌, ◌||◌, IfOk, not};
ghost use Rattle.regent_tree.specs.Lookup.{has_field};
ghost use Rattle.regent_tree.specs.PlainProgram.{tree_of};
ghost use Rattle.regent_tree.specs.StaticTypes.{field_type, space_at};
ghost use Rattle.check_rules.specs.types.Declarations.{is_flawed_field, known_field};
ghost use Rattle.check_rules.specs.types.Params.{type_unless};
ghost use Rattle.check_rules.specs.types.Lookup.{region_has};
ghost use Rattle.check_rules.specs.rules.Names.{is_unknown_region_field};
ghost use Rattle.check_expressions.specs.Sites.{tree_at};

use check_expressions::{Declared, Site};
use program_tables::Names;
use regent_tree::{Name, Reach, StaticType};
use static_types::region_has;
use std::alloc::{AllocError, Global};
use written_types::names_region;

/// The type of a field of a field space with these arguments; where it has no such field, the type is
/// unknown.
fn field_of_space(
    alloc: Global,
    declared: &Declared,
    space: u32,
    args: &[Reach],
    field: &Name,
) -> Result<StaticType, AllocError>
    ensures { IfOk result (λ u. u ≡ type_unless (not (has_field (tree_of declared.now) space field.now)
        || is_flawed_field (tree_of declared.now) space field.now)
        (field_type (tree_of declared.now) space args.now field.now)) }
{
    match declared.field(space, field) {
        Some((_, found)) => declared.field_said(alloc, space, args, &found.term),
        None => Ok(StaticType::Unknown),
    }
}

/// The type of a field of what has a type: unknown, where that is no region or has no such field.
pub fn known_field(site: &Site, t: &StaticType, field: &Name) -> Result<StaticType, AllocError>
    ensures { IfOk result (λ u. u ≡ known_field (tree_at site.now) t.now field.now) }
{
    match t {
        StaticType::Region { space, args, .. } => {
            field_of_space(site.alloc, site.declared, *space, args.as_slice(), field)
        }
        _ => Ok(StaticType::Unknown),
    }
}

/// Whether a name is bound to no region, or to one whose field space hasn't a field.
pub fn is_unknown_region_field(
    declared: &Declared,
    names: &Names,
    region: &Name,
    field: &Name,
) -> bool
    ensures { result ≡ is_unknown_region_field (tree_of declared.now) names.now region.now field.now }
{
    match names.bound_to(region) {
        Some(bound) => {
            !names_region(names, region)
                || !region_has(declared.tables(), &bound.static_type, field)
        }
        None => true,
    }
}
