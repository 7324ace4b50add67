//! The values that fields keep, as text.

ghost use Rattle.std.specs.Prelude.{◌≡◌, ◌++◌, OnOk};
ghost use Rattle.regent_tree.specs.Values.{target_kept};
ghost use Rattle.run_report.specs.Dumps.{target_text, truth_text, value_text, values_text};

use itoa::{Buffer, Integer};
use lane_kernels::FieldKind;
use std::alloc::AllocError;

/// A kept pointer is this many times its position, plus its point.
const POINTS: u64 = 1 << 32;

/// Adds a number in decimal.
pub fn push_number<I: Integer>(text: &mut Vec<u8>, number: I) -> Result<(), AllocError>
    ensures { OnOk result (text.new.items ≡ text.old.items ++ I.text number) }
{
    text.extend_from_slice(Buffer::new().format(number).as_bytes())
}

fn truth_text(truth: bool) -> &'static [u8]
    ensures { result.now ≡ truth_text truth }
{
    if truth { b"true" } else { b"false" }
}

/// Adds a pointer, given its kept number.
fn push_pointer(text: &mut Vec<u8>, number: i64) -> Result<(), AllocError>
    ensures { OnOk result (text.new.items ≡ text.old.items ++ target_text (target_kept number)) }
{
    let Ok(kept) = u64::try_from(number) else {
        return text.extend_from_slice(b"null");
    };
    push_number(text, kept % POINTS)?;
    text.push(b'@')?;
    push_number(text, kept / POINTS)
}

/// Adds the meaning of a kept number in a field of a kind.
fn push_value(text: &mut Vec<u8>, kind: FieldKind, number: i64) -> Result<(), AllocError>
    ensures { OnOk result (text.new.items ≡ text.old.items ++ value_text kind number) }
{
    match kind {
        FieldKind::Truth => text.extend_from_slice(truth_text(number != 0)),
        FieldKind::Pointer => push_pointer(text, number),
        FieldKind::Int32 | FieldKind::Int64 | FieldKind::Index => push_number(text, number),
    }
}

/// Adds the values of a field at all points, each after a blank.
pub fn push_values(text: &mut Vec<u8>, kind: FieldKind, numbers: &[i64]) -> Result<(), AllocError>
    ensures { OnOk result (text.new.items ≡ text.old.items ++ values_text kind numbers.now) }
{
    for number in numbers {
        text.push(b' ')?;
        push_value(text, kind, *number)?;
    }
    Ok(())
}
