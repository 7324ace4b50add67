//! The jumps behind the blocks of an `if`.

ghost use Rattle.std.specs.Prelude.{◌≡◌, OnOk};
ghost use Rattle.compile_statements.specs.Branches.{joined};

use compile_expressions::Body;
use std::alloc::AllocError;
use task_code::Instr;

/// Puts the jumps to the end into these places, the last one first.
pub fn join(body: &mut Body, skips: &[u32], line: u32) -> Result<(), AllocError>
    ensures { OnOk result (body.new ≡ joined line skips.now body.old) }
{
    let count = skips.len();
    for after in 0..count {
        let past = body.place()?;
        body.put(skips[count - 1 - after], Instr::Jump(past), line);
    }
    Ok(())
}
