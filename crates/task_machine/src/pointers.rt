//! Instructions on kept pointers.

ghost use Rattle.std.specs.Prelude.{IfOk};
ghost use Rattle.std.specs.Prelude.{not};
ghost use Rattle.regent_tree.specs.Values.{target_kept};
ghost use Rattle.task_machine.specs.Acts.{Does};
ghost use Rattle.machine_terms.specs.Machine.{on_number};
ghost use Rattle.machine_terms.specs.Numbers.{replaced};
ghost use Rattle.machine_terms.specs.Pointers.{cast, cast_pointer, compare, element};
ghost use Rattle.machine_terms.specs.Pointers.{is_null, move, point};
ghost use Rattle.machine_terms.specs.Pointers.{region_slot, regions_in};

use crate::running::{Act, Running};
use machine_state::{
    Pointer, are_same, cast_to, held_point, kept_truth, number_to_cast, region_in,
};
use plain_values::Sequence;
use regent_tree::FaultKind;
use std::alloc::AllocError;

impl Running {
    /// Replaces a pointer on top by its point.
    #[inline(never)]
    pub(crate) fn point(&mut self, pc: u32, line: u32) -> Result<Act, AllocError>
        ensures { IfOk result (Does (λ m. on_number m.frame.stack m
            (λ z st. point (target_kept z) line st m)) pc self.old self.new) }
    {
        let Some(z) = self.frame.stack.pop_number() else {
            return Ok(Act::broken());
        };
        match Pointer::kept(z) {
            Some(p) => {
                self.frame.stack.push_number(i64::from(p.point))?;
                Ok(Act::Next)
            }
            None => Ok(Act::fault(FaultKind::NullPointer, line)),
        }
    }

    /// Replaces a pointer on top by whether it is null.
    #[inline(never)]
    pub(crate) fn is_null(&mut self, pc: u32) -> Result<Act, AllocError>
        ensures { IfOk result (Does (replaced is_null) pc self.old self.new) }
    {
        let Some(z) = self.frame.stack.pop_number() else {
            return Ok(Act::broken());
        };
        let truth = kept_truth(Pointer::kept(z).is_none());
        self.frame.stack.push_number(truth)?;
        Ok(Act::Next)
    }

    /// Pops two pointers, and pushes whether both are null or have the same point.
    #[inline(never)]
    pub(crate) fn same_pointers(&mut self, pc: u32) -> Result<Act, AllocError>
        ensures { IfOk result (Does (compare (λ b. b)) pc self.old self.new) }
    {
        let Some(b) = self.frame.stack.pop_number() else {
            return Ok(Act::broken());
        };
        let Some(a) = self.frame.stack.pop_number() else {
            return Ok(Act::broken());
        };
        let truth = kept_truth(are_same(a, b));
        self.frame.stack.push_number(truth)?;
        Ok(Act::Next)
    }

    /// Pops two pointers, and pushes whether that is not so.
    #[inline(never)]
    pub(crate) fn other_pointers(&mut self, pc: u32) -> Result<Act, AllocError>
        ensures { IfOk result (Does (compare not) pc self.old self.new) }
    {
        let Some(b) = self.frame.stack.pop_number() else {
            return Ok(Act::broken());
        };
        let Some(a) = self.frame.stack.pop_number() else {
            return Ok(Act::broken());
        };
        let truth = kept_truth(!are_same(a, b));
        self.frame.stack.push_number(truth)?;
        Ok(Act::Next)
    }

    /// Gives a pointer on top the position that stands in a list at its old one.
    #[inline(never)]
    pub(crate) fn move_pointer(&mut self, pc: u32, places: &Sequence<u8>) -> Result<Act, AllocError>
        ensures { IfOk result (Does (λ m. on_number m.frame.stack m
            (λ z st. move places.now (target_kept z) st m)) pc self.old self.new) }
    {
        let Some(z) = self.frame.stack.pop_number() else {
            return Ok(Act::broken());
        };
        let moved = match Pointer::kept(z) {
            None => -1,
            Some(p) if p.position == 0 => i64::from(p.point),
            Some(p) => {
                let Some(place) = places.as_slice().get(p.position as usize - 1) else {
                    return Ok(Act::broken());
                };
                let position = u32::from(*place);
                let point = p.point;
                Pointer { point, position }.number()
            }
        };
        self.frame.stack.push_number(moved)?;
        Ok(Act::Next)
    }

    /// Replaces a number on top by the pointer to its point through the region in a slot.
    pub(crate) fn element(&mut self, pc: u32, slot: u32, line: u32) -> Result<Act, AllocError>
        ensures { IfOk result (Does (λ m. on_number m.frame.stack m
            (λ z st. element (region_slot m slot) z line st m)) pc self.old self.new) }
    {
        let Some(z) = self.frame.stack.pop_number() else {
            return Ok(Act::broken());
        };
        let Some(region) = region_in(&self.slots, slot) else {
            return Ok(Act::broken());
        };
        let Some(point) = held_point(region.points.get(), z) else {
            return Ok(Act::fault(FaultKind::OutOfRegion, line));
        };
        let position = 1;
        let pointer = Pointer { point, position }.number();
        self.frame.stack.push_number(pointer)?;
        Ok(Act::Next)
    }

    /// Replaces a number on top by the pointer to its point through the first of some regions that has it.
    #[inline(never)]
    pub(crate) fn cast(&mut self, pc: u32, regions: &Sequence<u32>) -> Result<Act, AllocError>
        ensures { IfOk result (Does (λ m. on_number m.frame.stack m
            (λ z st. cast (regions_in m.frame.slots regions.now) z st m)) pc self.old self.new) }
    {
        let Some(z) = self.frame.stack.pop_number() else {
            return Ok(Act::broken());
        };
        let Some(kept) = cast_to(&self.slots, regions.as_slice(), z)? else {
            return Ok(Act::broken());
        };
        self.frame.stack.push_number(kept)?;
        Ok(Act::Next)
    }

    /// Does the same with the point of a pointer on top.
    #[tactic(auto, using(crate::proofs::Casting::cast_pointer_is))]
    #[inline(never)]
    pub(crate) fn cast_pointer(
        &mut self,
        pc: u32,
        regions: &Sequence<u32>,
    ) -> Result<Act, AllocError>
        ensures { IfOk result (Does (λ m. on_number m.frame.stack m (λ z st.
            cast_pointer (regions_in m.frame.slots regions.now) (target_kept z) st m))
            pc self.old self.new) }
    {
        let Some(z) = self.frame.stack.pop_number() else {
            return Ok(Act::broken());
        };
        let number = number_to_cast(z);
        let Some(kept) = cast_to(&self.slots, regions.as_slice(), number)? else {
            return Ok(Act::broken());
        };
        self.frame.stack.push_number(kept)?;
        Ok(Act::Next)
    }
}
