//! Values of children that were awaited.

ghost use Rattle.std.specs.Prelude.{◌≡◌, IfOk, map};
ghost use Rattle.machine_terms.specs.Orders.{settled};

use machine_terms::Value;
use plain_values::Sequence;
use std::alloc::{AllocError, Global};

/// The values where the value of a child stands in place of the pending child.
pub fn settled(
    alloc: Global,
    child: u64,
    number: i64,
    values: Sequence<Value>,
) -> Result<Sequence<Value>, AllocError>
    ensures { IfOk result (λ vs. vs ≡ map (settled child number) values) }
{
    let mut after = Vec::new(alloc);
    for value in values.into_vec() {
        after.push(settled_in(child, number, value))?;
    }
    Ok(Sequence::from_vec(after))
}

fn settled_in(child: u64, number: i64, value: Value) -> Value
    ensures { result ≡ settled child number value }
{
    match value {
        Value::Pending(pending) => {
            if child == pending {
                Value::Number(number)
            } else {
                Value::Pending(pending)
            }
        }
        other => other,
    }
}
