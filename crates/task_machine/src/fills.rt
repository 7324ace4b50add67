//! Fills.

ghost use Rattle.std.specs.Prelude.{IfOk};
ghost use Rattle.task_machine.specs.Acts.{Does};
ghost use Rattle.machine_terms.specs.Regions.{fill};

use crate::running::{Act, Running};
use lane_kernels::Width;
use machine_state::{Lack, region_in};
use machine_terms::Yield;
use std::alloc::AllocError;

impl Running {
    /// Pops a number, and writes it to a field at each point of the region in a slot.
    #[inline(never)]
    pub(crate) fn fill(
        &mut self,
        pc: u32,
        slot: u32,
        field: u8,
        width: Width,
    ) -> Result<Act, AllocError>
        ensures { IfOk result (Does (fill slot field width) pc self.old self.new) }
    {
        let Some(region) = region_in(&self.slots, slot) else {
            return Ok(Act::broken());
        };
        let Some(z) = self.frame.stack.pop_number() else {
            return Ok(Act::broken());
        };
        let root = region.root;
        match self.held.fill(root, field, width, z, region.points.get()) {
            None => Ok(Act::Next),
            Some(Lack::Refused) => Ok(Act::broken()),
            Some(Lack::Missing) => {
                self.frame.stack.push_number(z)?;
                Ok(self.stop_at(pc, Yield::Want { root, field }))
            }
        }
    }
}
