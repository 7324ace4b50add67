//! Instructions that have partitions made.

ghost use Rattle.std.specs.Prelude.{IfOk};
ghost use Rattle.task_machine.specs.Acts.{Does};
ghost use Rattle.machine_terms.specs.Regions.{by_field, equal, image, join, meet};
ghost use Rattle.machine_terms.specs.Regions.{minus, partition, preimage};

use crate::running::{Act, Running};
use machine_state::{
    Column, Division, divide_by_both, divide_by_either, divide_by_field, divide_by_image,
    divide_by_preimage, divide_equally, divide_without, lies_in, partition_in, region_in,
};
use machine_terms::{Made, Value, Yield};
use partitions::COLOUR_LIMIT;
use regent_tree::FaultKind;
use std::alloc::AllocError;

impl Running {
    /// A partition of a region is to be made.
    fn make(&mut self, pc: u32, division: Division) -> Act
        ensures { Does (λ m. partition division.region division.sets division.disjoint m.frame.stack m)
            pc self.old self.new result }
    {
        let Division {
            region,
            sets,
            disjoint,
        } = division;
        self.yield_behind(
            pc,
            Yield::Make(Made::Partition {
                region,
                sets,
                disjoint,
            }),
        )
    }

    /// Pops a colour space, and has the region in a slot divided in blocks.
    #[inline(never)]
    pub(crate) fn equal(&mut self, pc: u32, slot: u32, line: u32) -> Result<Act, AllocError>
        ensures { IfOk result (Does (equal slot line) pc self.old self.new) }
    {
        let Some(region) = region_in(&self.slots, slot) else {
            return Ok(Act::broken());
        };
        let Some(colours) = self.frame.stack.pop_space() else {
            return Ok(Act::broken());
        };
        if colours.volume() > COLOUR_LIMIT {
            return Ok(Act::fault(FaultKind::BadSize, line));
        }
        let division = divide_equally(self.alloc, region, colours.volume())?;
        Ok(self.make(pc, division))
    }

    /// Has the partition made of what two partitions share, colour by colour.
    #[inline(never)]
    pub(crate) fn meet(
        &mut self,
        pc: u32,
        first: u32,
        second: u32,
        slot: u32,
    ) -> Result<Act, AllocError>
        ensures { IfOk result (Does (meet first second slot) pc self.old self.new) }
    {
        let Some(p) = partition_in(&self.slots, first) else {
            return Ok(Act::broken());
        };
        let Some(q) = partition_in(&self.slots, second) else {
            return Ok(Act::broken());
        };
        let Some(region) = region_in(&self.slots, slot) else {
            return Ok(Act::broken());
        };
        let division = divide_by_both(self.alloc, p, q, region)?;
        Ok(self.make(pc, division))
    }

    /// Has the partition made of what either of two partitions has, colour by colour.
    #[inline(never)]
    pub(crate) fn join(
        &mut self,
        pc: u32,
        first: u32,
        second: u32,
        slot: u32,
    ) -> Result<Act, AllocError>
        ensures { IfOk result (Does (join first second slot) pc self.old self.new) }
    {
        let Some(p) = partition_in(&self.slots, first) else {
            return Ok(Act::broken());
        };
        let Some(q) = partition_in(&self.slots, second) else {
            return Ok(Act::broken());
        };
        let Some(region) = region_in(&self.slots, slot) else {
            return Ok(Act::broken());
        };
        let division = divide_by_either(self.alloc, p, q, region)?;
        Ok(self.make(pc, division))
    }

    /// Has the partition made of what one partition has and another lacks, colour by colour.
    #[inline(never)]
    pub(crate) fn minus(
        &mut self,
        pc: u32,
        first: u32,
        second: u32,
        slot: u32,
    ) -> Result<Act, AllocError>
        ensures { IfOk result (Does (minus first second slot) pc self.old self.new) }
    {
        let Some(p) = partition_in(&self.slots, first) else {
            return Ok(Act::broken());
        };
        let Some(q) = partition_in(&self.slots, second) else {
            return Ok(Act::broken());
        };
        let Some(region) = region_in(&self.slots, slot) else {
            return Ok(Act::broken());
        };
        let division = divide_without(self.alloc, p, q, region)?;
        Ok(self.make(pc, division))
    }

    /// Pops a colour space, and has the region in a slot divided by the numbers of a field.
    #[inline(never)]
    pub(crate) fn by_field(
        &mut self,
        pc: u32,
        slot: u32,
        field: u8,
        line: u32,
    ) -> Result<Act, AllocError>
        ensures { IfOk result (Does (by_field slot field line) pc self.old self.new) }
    {
        let Some(region) = region_in(&self.slots, slot) else {
            return Ok(Act::broken());
        };
        let Some(colours) = self.frame.stack.pop_space() else {
            return Ok(Act::broken());
        };
        if colours.volume() > COLOUR_LIMIT {
            return Ok(Act::fault(FaultKind::BadSize, line));
        }
        let root = region.root;
        match self.held.column(region, field)? {
            Column::Unread => Ok(Act::broken()),
            Column::Awaited => {
                self.frame.stack.push(Value::Space(colours))?;
                Ok(self.stop_at(pc, Yield::Want { root, field }))
            }
            Column::Numbers(numbers, _) => {
                let count = colours.volume();
                let division = divide_by_field(self.alloc, region, numbers.as_slice(), count)?;
                Ok(self.make(pc, division))
            }
        }
    }

    /// Has the partition made of the points to which a field points from those of each colour.
    #[inline(never)]
    pub(crate) fn image(
        &mut self,
        pc: u32,
        slot: u32,
        divided: u32,
        through: u32,
        field: u8,
    ) -> Result<Act, AllocError>
        ensures { IfOk result (Does (image slot divided through field) pc self.old self.new) }
    {
        let Some(parent) = region_in(&self.slots, slot) else {
            return Ok(Act::broken());
        };
        let Some(partition) = partition_in(&self.slots, divided) else {
            return Ok(Act::broken());
        };
        let Some(read) = region_in(&self.slots, through) else {
            return Ok(Act::broken());
        };
        if !lies_in(partition, read) {
            return Ok(Act::broken());
        }
        let root = read.root;
        match self.held.column(read, field)? {
            Column::Unread => Ok(Act::broken()),
            Column::Awaited => Ok(self.stop_at(pc, Yield::Want { root, field })),
            Column::Numbers(numbers, pointers) => {
                let values = numbers.as_slice();
                let alloc = self.alloc;
                let division = divide_by_image(alloc, parent, partition, read, values, pointers)?;
                Ok(self.make(pc, division))
            }
        }
    }

    /// Has the partition made of the points from which a field points to those of each colour.
    #[inline(never)]
    pub(crate) fn preimage(
        &mut self,
        pc: u32,
        slot: u32,
        divided: u32,
        through: u32,
        field: u8,
    ) -> Result<Act, AllocError>
        ensures { IfOk result (Does (preimage slot divided through field) pc self.old self.new) }
    {
        let Some(parent) = region_in(&self.slots, slot) else {
            return Ok(Act::broken());
        };
        let Some(partition) = partition_in(&self.slots, divided) else {
            return Ok(Act::broken());
        };
        let Some(read) = region_in(&self.slots, through) else {
            return Ok(Act::broken());
        };
        if parent.root.0 != read.root.0 || !parent.points.get().within(read.points.get()) {
            return Ok(Act::broken());
        }
        let root = read.root;
        match self.held.column(read, field)? {
            Column::Unread => Ok(Act::broken()),
            Column::Awaited => Ok(self.stop_at(pc, Yield::Want { root, field })),
            Column::Numbers(numbers, pointers) => {
                let values = numbers.as_slice();
                let alloc = self.alloc;
                let division = divide_by_preimage(
                    alloc, parent, partition, read, values, pointers,
                )?;
                Ok(self.make(pc, division))
            }
        }
    }
}
