//! The final contents of the entry task's roots.

ghost use Rattle.std.specs.Prelude.{◌≡◌, ◌++◌, IfOk, OnOk, length, true};
ghost use Rattle.std.specs.List.{list_all};
ghost use Rattle.run_report.specs.Dumps.{dump_text, field_line, field_lines, fits_spaces, is_of_space, region_line, root_lines, roots_from};

use crate::values::{push_number, push_values};
use plain_values::Sequence;
use regent_tree::{Ending, Outcome, RootImage};
use std::alloc::{AllocError, Global};
use task_code::{Code, FieldCode, SpaceCode};

/// Adds the line of a field.
fn push_field(text: &mut Vec<u8>, field: &FieldCode, numbers: &[i64]) -> Result<(), AllocError>
    ensures { OnOk result (text.new.items ≡ text.old.items ++ field_line field.now numbers.now) }
{
    text.extend_from_slice(field.name.as_slice())?;
    push_values(text, field.kind, numbers)?;
    text.push(b'\n')?;
    Ok(())
}

/// Adds a line for each field.
fn push_fields(
    text: &mut Vec<u8>,
    fields: &[FieldCode],
    columns: &[Sequence<i64>],
) -> Result<(), AllocError>
    requires { length columns.now ≡ length fields.now }
    ensures { OnOk result (text.new.items ≡ text.old.items ++ field_lines fields.now columns.now) }
{
    for (place, field) in fields.iter().enumerate() {
        push_field(text, field, columns[place].as_slice())?;
    }
    Ok(())
}

/// Adds the line that names a root, by its place among the roots.
fn push_region(text: &mut Vec<u8>, place: usize, name: &[u8], count: u32) -> Result<(), AllocError>
    ensures { OnOk result (text.new.items ≡ text.old.items ++ region_line place name.now count) }
{
    text.extend_from_slice(b"region ")?;
    push_number(text, place)?;
    text.push(b' ')?;
    text.extend_from_slice(name)?;
    text.push(b' ')?;
    push_number(text, count)?;
    text.push(b'\n')?;
    Ok(())
}

/// Adds the lines of a root.
fn push_root(
    text: &mut Vec<u8>,
    spaces: &[SpaceCode],
    place: usize,
    root: &RootImage,
) -> Result<(), AllocError>
    requires { is_of_space spaces.now root.now ≡ true }
    ensures { OnOk result (text.new.items ≡ text.old.items ++ root_lines spaces.now place root.now) }
{
    let space = &spaces[root.space as usize];
    push_region(text, place, space.name.as_slice(), root.count)?;
    push_fields(text, space.fields.as_slice(), root.fields.as_slice())
}

/// Adds the lines of all roots.
fn push_roots(
    text: &mut Vec<u8>,
    spaces: &[SpaceCode],
    roots: &[RootImage],
) -> Result<(), AllocError>
    requires { list_all (is_of_space spaces.now) roots.now ≡ true }
    ensures { OnOk result (text.new.items ≡ text.old.items ++ roots_from 0 spaces.now roots.now) }
{
    for (place, root) in roots.iter().enumerate() {
        push_root(text, spaces, place, root)?;
    }
    Ok(())
}

/// The final contents of the roots that the entry task made: a line for each root and one for each
/// of its fields. A run that didn't finish has none. `fits_spaces` tests the precondition.
pub fn dump_text(alloc: Global, code: &Code, outcome: &Outcome) -> Result<Vec<u8>, AllocError>
    requires { fits_spaces code.now outcome.now ≡ true }
    ensures { IfOk result (λ text. text.items ≡ dump_text code.now outcome.now) }
{
    let mut text = Vec::new(alloc);
    if let Ending::Finished(roots) = &outcome.ending {
        push_roots(&mut text, code.spaces.as_slice(), roots.as_slice())?;
    }
    Ok(text)
}
