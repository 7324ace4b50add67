//! What the roots hold.

ghost use Rattle.std.specs.Prelude.{◌≡◌, pos, get_or, length};
ghost use Rattle.machine_terms.specs.Contents.{image_in, kind_of, kinds_of, no_contents};
ghost use Rattle.lane_kernels.specs.declared.numbers.FieldKind.TheVariants.{Truth};

use lane_kernels::FieldKind;
use machine_terms::{Contents, Root};
use plain_values::Sequence;
use region_tree::RootId;
use std::alloc::Global;
use task_code::Code;

/// Before anything is made.
pub fn no_contents(alloc: Global) -> Contents
    ensures { result ≡ no_contents }
{
    Contents {
        made: 0,
        roots: Sequence::new(alloc),
    }
}

/// The number at a place, or 0.
pub fn number_in(column: &[i64], point: u32) -> i64
    ensures { result ≡ get_or column.now point (pos 0) }
{
    match column.get(point as usize) {
        Some(number) => *number,
        None => 0,
    }
}

/// The place of the field space of a root among those of the code; 0 of a root that isn't there.
fn space_of(roots: &[Root], root: RootId) -> u32
    ensures { result ≡ (image_in roots.now root.0).space }
{
    for held in roots {
        if held.id.0 == root.0 {
            return held.image.space;
        }
    }
    0
}

/// How many fields a field space has.
pub fn count_fields(code: &Code, space: u32) -> usize
    ensures { result ≡ length (kinds_of code.now space) }
{
    match code.spaces.as_slice().get(space as usize) {
        Some(space) => space.fields.len(),
        None => 0,
    }
}

/// The kind of a field of a field space.
fn kind_in(code: &Code, space: u32, field: u8) -> FieldKind
    ensures { result ≡ get_or (kinds_of code.now space) field Truth }
{
    match code.spaces.as_slice().get(space as usize) {
        Some(space) => match space.fields.as_slice().get(field as usize) {
            Some(found) => found.kind,
            None => FieldKind::Truth,
        },
        None => FieldKind::Truth,
    }
}

/// The kind of a field of a root.
pub fn kind_of(code: &Code, contents: &Contents, root: RootId, field: u8) -> FieldKind
    ensures { result ≡ kind_of code.now contents.now root.0 field }
{
    kind_in(code, space_of(contents.roots.as_slice(), root), field)
}

/// How many fields a root has.
pub fn fields_of(code: &Code, contents: &Contents, root: RootId) -> usize
    ensures { result ≡ length (kinds_of code.now (image_in contents.now.roots root.0).space) }
{
    count_fields(code, space_of(contents.roots.as_slice(), root))
}
