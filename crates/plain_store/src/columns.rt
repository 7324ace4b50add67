//! The numbers of one field of a root.

ghost use Rattle.std.specs.Prelude.{◌≡◌, ◌<◌, [], get_or, length, slice_set, IfOk, IfSome, OnOk};
ghost use Rattle.std.specs.List.{list_any};
ghost use Rattle.machine_terms.specs.Contents.{image_in};
ghost use Rattle.plain_store.specs.Columns.{IsPlaceOf, IsThere, column_of, is_root, put_column};

use machine_terms::{Contents, Root};
use plain_values::Sequence;
use regent_tree::RootImage;
use region_tree::RootId;
use std::alloc::{AllocError, Global};
use std::mem;

/// The numbers of a field of a root; none of a root or field that isn't there.
pub fn column_of(contents: &Contents, root: RootId, field: u8) -> &[i64]
    ensures { result.now ≡ column_of contents.now root.0 field }
{
    column_in(contents.roots.as_slice(), root, field)
}

fn column_in(roots: &[Root], root: RootId, field: u8) -> &[i64]
    ensures { result.now ≡ get_or (image_in roots.now root.0).fields field [] }
{
    for held in roots {
        if held.id.0 == root.0 {
            return column_at(&held.image, field);
        }
    }
    &[]
}

fn column_at(image: &RootImage, field: u8) -> &[i64]
    ensures { result.now ≡ get_or image.now.fields field [] }
{
    match image.fields.as_slice().get(field as usize) {
        Some(column) => column.as_slice(),
        None => &[],
    }
}

/// Puts a list of numbers in the place of a field's, and returns these. A root that isn't there, or is
/// there twice, and a field that it lacks count as out of memory.
pub fn swap_column(
    alloc: Global,
    contents: &mut Contents,
    root: RootId,
    field: u8,
    column: Sequence<i64>,
) -> Result<Sequence<i64>, AllocError>
    ensures there { OnOk result (IsThere contents.old root.0 field) }
    ensures contents { OnOk result (contents.new ≡ put_column root.0 field column contents.old) }
    ensures column { IfOk result (λ old. old ≡ column_of contents.old root.0 field) }
{
    let Some(place) = place_of(contents.roots.as_slice(), root) else {
        return Err(AllocError);
    };
    let mut roots = mem::replace(&mut contents.roots, Sequence::new(alloc)).into_vec();
    let old = swap_in(alloc, &mut roots[place].image, field, column)?;
    contents.roots = Sequence::from_vec(roots);
    Ok(old)
}

/// The place of the only root with a number.
fn place_of(roots: &[Root], root: RootId) -> Option<usize>
    ensures { IfSome result (IsPlaceOf roots.now root.0) }
{
    for place in 0..roots.len() {
        if roots[place].id.0 == root.0 {
            return if has_root(&roots[place + 1..], root) {
                None
            } else {
                Some(place)
            };
        }
    }
    None
}

fn has_root(roots: &[Root], root: RootId) -> bool
    ensures { result ≡ list_any (is_root root.0) roots.now }
{
    roots.iter().any(|held| held.id.0 == root.0)
}

/// Puts a list of numbers in the place of a field's, and gives these.
fn swap_in(
    alloc: Global,
    image: &mut RootImage,
    field: u8,
    column: Sequence<i64>,
) -> Result<Sequence<i64>, AllocError>
    ensures inside { IfOk result (λ old. field < length image.old.fields) }
    ensures column { IfOk result (λ old. old ≡ get_or image.old.fields field []) }
    ensures image { OnOk result (image.new
        ≡ record image.old { fields = slice_set image.old.fields field column }) }
{
    let mut fields = mem::replace(&mut image.fields, Sequence::new(alloc)).into_vec();
    let place = field as usize;
    if place >= fields.len() {
        return Err(AllocError);
    }
    let old = mem::replace(&mut fields[place], column);
    image.fields = Sequence::from_vec(fields);
    Ok(old)
}
