//! What roots hold, written into memory that was taken before.

ghost use Rattle.std.specs.Prelude.{◌≡◌, ◌<◌, ◌≤◌, IfOk, length, map};
ghost use Rattle.std.specs.Prelude.{get_or, set, []};
ghost use Rattle.board_facts.specs.Rooms.{IsRoomFor, shape_made};
ghost use Rattle.board_outcomes.specs.Images.{numbers_in};
ghost use Rattle.logical_map.specs.Maps.{column_of, columns_of};
ghost use Rattle.physical_instances.specs.Kept.{map_of};

use physical_instances::Contents;
use plain_values::Sequence;
use region_tree::RootId;
use std::alloc::{AllocError, Global};
use std::mem;
use task_code::Code;

/// Room for what a new root of a field space holds: a number for each field and point. More fields than a need can
/// name count as a want of memory.
pub fn room_for(
    alloc: Global,
    code: &Code,
    space: u32,
    count: u32,
) -> Result<Sequence<Sequence<i64>>, AllocError>
    ensures shape { IfOk result (λ fields. map length fields ≡ shape_made code.now count space) }
    ensures few { IfOk result (λ fields. length fields ≤ 256) }
{
    let fields = match code.spaces.as_slice().get(space as usize) {
        Some(found) => found.fields.len(),
        None => 0,
    };
    if fields > 256 {
        return Err(AllocError);
    }
    let mut rooms = Vec::with_capacity(alloc, fields)?;
    for _ in 0..fields {
        rooms.push_reserved(zeros(alloc, count)?);
    }
    Ok(Sequence::from_vec(rooms))
}

/// So many zeros.
fn zeros(alloc: Global, count: u32) -> Result<Sequence<i64>, AllocError>
    ensures { IfOk result (λ numbers. length numbers ≡ count) }
{
    let mut numbers = Vec::new(alloc);
    numbers.resize(count as usize, 0)?;
    Ok(Sequence::from_vec(numbers))
}

/// Writes what a root holds into room for it.
pub fn fill_image(
    alloc: Global,
    contents: &Contents,
    root: RootId,
    fields: &mut Sequence<Sequence<i64>>,
)
    requires { IsRoomFor (map_of contents.now) root.0 fields.old }
    ensures { fields.new ≡ numbers_in (columns_of (map_of contents.now) root.0) }
{
    let mut filled = mem::replace(fields, Sequence::new(alloc)).into_vec();
    if contents.count(root, 0).is_none() {
        return;
    }
    for place in 0..filled.len() {
        fill_field(alloc, contents, root, place as u8, &mut filled[place]);
    }
    *fields = Sequence::from_vec(filled);
}

/// Writes what a field holds into room for it.
fn fill_field(alloc: Global, contents: &Contents, root: RootId, field: u8, into: &mut Sequence<i64>)
    requires { length into.old ≡ length (column_of (map_of contents.now) root.0 field).points }
    ensures { into.new ≡ (column_of (map_of contents.now) root.0 field).numbers }
{
    let mut numbers = mem::replace(into, Sequence::new(alloc)).into_vec();
    contents.image(root, field, &mut numbers);
    *into = Sequence::from_vec(numbers);
}
