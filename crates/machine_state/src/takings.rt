//! Values that are taken off a stack.

ghost use Rattle.std.specs.Prelude.{◌≡◌, [], IfOk};
ghost use Rattle.machine_terms.specs.Calls.{is_pending, take_values};
ghost use Rattle.machine_state.specs.Takings.{taken_off};

use machine_terms::{Stack, Value};
use std::alloc::{AllocError, Global};

/// Whether a value is a child's that wasn't awaited.
fn is_pending(value: &Value) -> bool
    ensures { result ≡ is_pending value.now }
{
    matches!(value, Value::Pending(_))
}

/// Takes so many values off a stack's top, the lowest first. None where there are fewer, or one is
/// pending; then what is left isn't said.
#[inline(never)]
pub fn take_values(
    alloc: Global,
    stack: &mut Stack,
    count: usize,
) -> Result<Option<Vec<Value>>, AllocError>
    ensures { IfOk result (λ values. take_values count stack.old [] ≡ taken_off values stack.new) }
{
    let mut values = Vec::new(alloc);
    for _ in 0..count {
        let Some(value) = stack.pop() else {
            return Ok(None);
        };
        if is_pending(&value) {
            return Ok(None);
        }
        values.push(value)?;
    }
    values.reverse();
    Ok(Some(values))
}
