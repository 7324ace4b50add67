//! Fields: the width at which a value is kept there.

ghost use Rattle.std.specs.Prelude.{◌≡◌};
ghost use Rattle.lane_kernels.specs.Numbers.{width_of};
ghost use Rattle.regent_tree.specs.StaticTypes.{field_kind};
ghost use Rattle.compile_types.specs.Here.{where_of};

use compile_tables::kind_said;
use compile_types::Here;
use lane_kernels::Width;

/// The width of the field at a place of a field space.
pub fn width_of_field(here: &Here, space: u32, place: u8) -> Width
    ensures { result ≡ width_of (field_kind (where_of here.now).tree space place) }
{
    let Some(found) = here.tables().space_at(space) else {
        return Width::W64;
    };
    match found.fields.as_slice().get(place as usize) {
        Some(field) => kind_said(&field.term).width(),
        None => Width::W64,
    }
}
