//! Frames in which tasks begin.

ghost use Rattle.std.specs.Prelude.{◌≡◌, ◌++◌, pos, replicate, IfOk, OnOk};
ghost use Rattle.machine_terms.specs.declared.value.Value.TheVariants.{Number as a_number};
ghost use Rattle.machine_terms.specs.Opening.{opening};

use crate::needs::needs_on;
use machine_terms::{Frame, Stack, Value};
use plain_values::Sequence;
use region_tree::Needs;
use std::alloc::{AllocError, Global};
use task_code::TaskCode;

/// The frame in which a task begins: the arguments in the first slots, 0 in the others.
pub fn opening_frame(
    alloc: Global,
    turns: u64,
    depth: u8,
    number: u32,
    task: &TaskCode,
    values: Sequence<Value>,
) -> Result<Frame, AllocError>
    ensures { IfOk result (λ f. f ≡ opening turns depth number task.now values) }
{
    let items = needs_on(alloc, task.needs.as_slice(), values.as_slice())?;
    let mut slots = values;
    let more = (task.slots as usize).saturating_sub(slots.len());
    add_zeros(&mut slots, more)?;
    Ok(Frame {
        task: number,
        pc: 0,
        slots,
        stack: Stack::new(alloc),
        turns,
        depth,
        needs: Needs { items },
        own: Sequence::new(alloc),
        children: 0,
        later: None,
    })
}

fn add_zeros(slots: &mut Sequence<Value>, count: usize) -> Result<(), AllocError>
    ensures { OnOk result (slots.new ≡ slots.old ++ replicate count (a_number (pos 0))) }
{
    for _place in 0..count {
        slots.push(Value::Number(0))?;
    }
    Ok(())
}
