//! Reads, writes and reductions through kept pointers.

ghost use Rattle.std.specs.Prelude.{IfOk};
ghost use Rattle.task_machine.specs.Acts.{Does};
ghost use Rattle.machine_terms.specs.Pointers.{read, set};

use crate::running::{Act, Running};
use lane_kernels::{Mode, Width};
use machine_state::{Aim, Lack, aim_through, same_width, written};
use machine_terms::Yield;
use plain_values::Sequence;
use std::alloc::AllocError;

impl Running {
    /// Replaces a pointer on top by the number of a field at its point.
    #[inline(never)]
    pub(crate) fn read(
        &mut self,
        pc: u32,
        regions: &Sequence<u32>,
        field: u8,
        line: u32,
    ) -> Result<Act, AllocError>
        ensures { IfOk result (Does (read regions.now field line) pc self.old self.new) }
    {
        let Some(z) = self.frame.stack.pop_number() else {
            return Ok(Act::broken());
        };
        match aim_through(&self.slots, regions, z) {
            Aim::Nowhere => Ok(Act::broken()),
            Aim::Fails(kind) => Ok(Act::fault(kind, line)),
            Aim::At(root, point) => match self.held.find(root, field, point) {
                Ok(element) => {
                    if let Mode::Reduce(_) = element.mode {
                        return Ok(Act::broken());
                    }
                    self.frame.stack.push_number(element.value)?;
                    Ok(Act::Next)
                }
                Err(Lack::Refused) => Ok(Act::broken()),
                Err(Lack::Missing) => {
                    self.frame.stack.push_number(z)?;
                    Ok(self.stop_at(pc, Yield::Want { root, field }))
                }
            },
        }
    }

    /// `Write` and `Reduce`, by the mode of the access.
    #[inline(never)]
    pub(crate) fn set(
        &mut self,
        pc: u32,
        access: Mode,
        regions: &Sequence<u32>,
        field: u8,
        width: Width,
        line: u32,
    ) -> Result<Act, AllocError>
        ensures { IfOk result (Does (set access regions.now field width line)
            pc self.old self.new) }
    {
        let Some(p) = self.frame.stack.pop_number() else {
            return Ok(Act::broken());
        };
        let Some(v) = self.frame.stack.pop_number() else {
            return Ok(Act::broken());
        };
        match aim_through(&self.slots, regions, p) {
            Aim::Nowhere => Ok(Act::broken()),
            Aim::Fails(kind) => Ok(Act::fault(kind, line)),
            Aim::At(root, point) => match self.held.find(root, field, point) {
                Ok(element) => {
                    if !same_width(element.kind.width(), width) {
                        return Ok(Act::broken());
                    }
                    let Some(z) = written(access, element.mode, width, element.value, v) else {
                        return Ok(Act::broken());
                    };
                    self.held.put(element.spot, z);
                    Ok(Act::Next)
                }
                Err(Lack::Refused) => Ok(Act::broken()),
                Err(Lack::Missing) => {
                    self.frame.stack.push_number(v)?;
                    self.frame.stack.push_number(p)?;
                    Ok(self.stop_at(pc, Yield::Want { root, field }))
                }
            },
        }
    }
}
