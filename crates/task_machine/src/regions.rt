//! Instructions on index spaces, roots and children.

ghost use Rattle.std.specs.Prelude.{IfOk};
ghost use Rattle.task_machine.specs.Acts.{Does};
ghost use Rattle.machine_terms.specs.Machine.{on_number};
ghost use Rattle.machine_terms.specs.Regions.{child, colors, new_root};
ghost use Rattle.machine_terms.specs.Regions.{space};

use crate::running::{Act, Running};
use index_spaces::Ispace;
use machine_state::{coloured, partition_in};
use machine_terms::{Made, Value, Yield};
use regent_tree::FaultKind;
use std::alloc::AllocError;
use task_code::Code;

impl Running {
    /// Replaces a number on top by the index space of so many points.
    #[inline(never)]
    pub(crate) fn space(&mut self, pc: u32, line: u32) -> Result<Act, AllocError>
        ensures { IfOk result (Does (λ m. on_number m.frame.stack m
            (λ z st. space z line st m)) pc self.old self.new) }
    {
        let Some(z) = self.frame.stack.pop_number() else {
            return Ok(Act::broken());
        };
        match Ispace::line(z) {
            Ok(space) => {
                let _size = space.volume();
                self.frame.stack.push(Value::Space(space))?;
                Ok(Act::Next)
            }
            Err(_) => Ok(Act::fault(FaultKind::BadSize, line)),
        }
    }

    /// Pushes the colour space of the partition in a slot.
    #[inline(never)]
    pub(crate) fn colors(&mut self, pc: u32, slot: u32) -> Result<Act, AllocError>
        ensures { IfOk result (Does (colors slot) pc self.old self.new) }
    {
        let Some(partition) = partition_in(&self.slots, slot) else {
            return Ok(Act::broken());
        };
        let count = partition.children.get().len();
        if count > 4_194_304 {
            return Ok(Act::broken());
        }
        let Ok(space) = Ispace::line(count as i64) else {
            return Ok(Act::broken());
        };
        self.push(pc, Value::Space(space))
    }

    /// Pops an index space, and has a root made over it.
    #[inline(never)]
    pub(crate) fn new_root(&mut self, pc: u32, code: &Code, fields: u32) -> Act
        ensures { Does (new_root code.now fields) pc self.old self.new result }
    {
        let Some(space) = self.frame.stack.pop_space() else {
            return Act::broken();
        };
        match code.spaces.as_slice().get(fields as usize) {
            Some(found) if found.fields.len() <= 256 => {
                self.yield_behind(pc, Yield::Make(Made::Root { space, fields }))
            }
            _ => Act::broken(),
        }
    }

    /// Replaces a colour on top by the region that the partition in a slot has for it.
    #[inline(never)]
    pub(crate) fn child(&mut self, pc: u32, slot: u32, line: u32) -> Result<Act, AllocError>
        ensures { IfOk result (Does (child slot line) pc self.old self.new) }
    {
        let Some(partition) = partition_in(&self.slots, slot) else {
            return Ok(Act::broken());
        };
        let Some(z) = self.frame.stack.pop_number() else {
            return Ok(Act::broken());
        };
        let Some(region) = coloured(partition.children.get(), z) else {
            return Ok(Act::fault(FaultKind::BadColor, line));
        };
        let region = region.copy()?;
        self.frame.stack.push(Value::Region(region))?;
        Ok(Act::Next)
    }
}
