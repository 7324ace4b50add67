//! The text of a print.

ghost use Rattle.std.specs.Prelude.{◌≡◌, IfOk, string_bytes};
ghost use Rattle.std.specs.Fmt.{signed_decimal};
ghost use Rattle.machine_terms.specs.Calls.{count_numbers, text_of};

use machine_terms::Value;
use plain_values::Sequence;
use std::alloc::{AllocError, Global};
use task_code::PrintPart;

/// A number in decimal.
fn decimal(alloc: Global, z: i64) -> Result<String, AllocError>
    ensures { IfOk result (λ text. string_bytes text ≡ signed_decimal z) }
{
    format!(in alloc; "{z}")
}

/// How many numbers parts print.
pub fn count_numbers(parts: &[PrintPart]) -> usize
    ensures { result ≡ count_numbers parts.now }
{
    let mut count = 0;
    for part in parts {
        if let PrintPart::Number = part {
            count += 1;
        }
    }
    count
}

/// The text of parts, with values for their numbers; None where one is no number.
#[inline(never)]
pub fn text_of(
    alloc: Global,
    parts: &[PrintPart],
    values: &[Value],
) -> Result<Option<Sequence<u8>>, AllocError>
    ensures { IfOk result (λ text. text ≡ text_of parts.now values.now) }
{
    let mut text = Sequence::new(alloc);
    let mut place = 0;
    for part in parts {
        match part {
            PrintPart::Text(bytes) => text.extend(bytes.as_slice())?,
            PrintPart::Number => {
                let Some(Value::Number(z)) = values.get(place) else {
                    return Ok(None);
                };
                text.extend(decimal(alloc, *z)?.as_bytes())?;
                place += 1;
            }
        }
    }
    Ok(Some(text))
}
