//! Where code is made, and the slots that are used there.

ghost use Rattle.std.specs.Prelude.{◌≡◌, ◌+◌, IfOk, length, map};
ghost use Rattle.compile_types.specs.Here.{where_of};
ghost use Rattle.code_rules.specs.Slots.{beside, bound, counter, own_slot, slot, slot_bound, slot_named, slot_of_reach, slots_of, result as result_slot, spare, stays};
ghost use Rattle.code_rules.specs.Initializers.{new_place};

use crate::symbols::Symbols;
use constraint_check::Facts;
use plain_values::Sequence;
use program_tables::{Names, Tables};
use regent_tree::{Name, Reach, StaticType, Term};
use std::alloc::{AllocError, Global};

/// A task: its program's names, its result, and how many parameters it has.
#[derive(Clone, Copy)]
pub struct Site<'a> {
    pub alloc: Global,
    pub symbols: &'a Symbols<'a>,
    pub result: &'a StaticType,
    pub params: u32,
}

/// A place in a task: the names in scope, what is known of regions, the number of the next binding, and the
/// line of the statement.
#[derive(Clone, Copy)]
pub struct Here<'a> {
    pub site: &'a Site<'a>,
    pub names: &'a Names,
    pub facts: &'a Facts,
    pub next: u32,
    pub line: u32,
}

/// A number of 64 bits as one of 32. A greater one counts as a want of memory.
fn narrow(number: u64) -> Result<u32, AllocError>
    ensures { IfOk result (λ n. n ≡ number) }
{
    match u32::try_from(number) {
        Ok(number) => Ok(number),
        Err(_) => Err(AllocError),
    }
}

impl<'a> Here<'a> {
    pub fn alloc(&self) -> Global {
        self.site.alloc
    }

    /// The tables of the program's names.
    pub fn tables(&self) -> &Tables<'a>
        ensures { result.now ≡ self.now.site.now.symbols.now }
    {
        self.site.symbols.tables()
    }

    /// The slot of a place, in 64 bits.
    fn wide_slot(&self, place: u32) -> u64
        ensures { result ≡ slot (where_of self.now) place }
    {
        let beyond = place.saturating_sub(self.site.params);
        place as u64 + 2 * (beyond as u64)
    }

    /// The slot of the value at a place.
    pub fn slot(&self, place: u32) -> Result<u32, AllocError>
        ensures { IfOk result (λ s. s ≡ slot (where_of self.now) place) }
    {
        narrow(self.wide_slot(place))
    }

    /// The slot of a loop's counter.
    pub fn counter(&self, place: u32) -> Result<u32, AllocError>
        ensures { IfOk result (λ s. s ≡ counter (where_of self.now) place) }
    {
        narrow(self.wide_slot(place) + 1)
    }

    /// The slot of a loop's limit or domain, or of the region of a pointer into a child.
    pub fn beside(&self, place: u32) -> Result<u32, AllocError>
        ensures { IfOk result (λ s. s ≡ beside (where_of self.now) place) }
    {
        narrow(self.wide_slot(place) + 2)
    }

    /// The place of the name that is bound next.
    pub fn next_place(&self) -> Result<u32, AllocError>
        ensures { IfOk result (λ p. p ≡ new_place (where_of self.now)) }
    {
        narrow(self.names.len() as u64)
    }

    /// The slot of a child's region that is in use at a depth.
    pub fn spare(&self, depth: u32) -> Result<u32, AllocError>
        ensures { IfOk result (λ s. s ≡ spare (where_of self.now) depth) }
    {
        self.beside(self.place_behind(depth)?)
    }

    /// The slot of a result at a depth.
    pub fn result(&self, depth: u32) -> Result<u32, AllocError>
        ensures { IfOk result (λ s. s ≡ result_slot (where_of self.now) depth) }
    {
        self.slot(self.place_behind(depth)?)
    }

    /// A place behind those of the names in scope.
    fn place_behind(&self, depth: u32) -> Result<u32, AllocError>
        ensures { IfOk result (λ p. p ≡ length (where_of self.now).scope.names + depth) }
    {
        let next = self.next_place()?;
        narrow(next as u64 + depth as u64)
    }

    /// The place of what a name is bound to.
    pub fn place_named(&self, name: &Name) -> u32
        ensures { result ≡ (bound (where_of self.now) name.now).place }
    {
        match self.names.bound_to(name) {
            Some(bound) => bound.place,
            None => 0,
        }
    }

    /// The slot of what a name is bound to.
    pub fn slot_named(&self, name: &Name) -> Result<u32, AllocError>
        ensures { IfOk result (λ s. s ≡ slot_named (where_of self.now) name.now) }
    {
        self.slot(self.place_named(name))
    }

    /// The slot of what is bound with a number.
    pub fn slot_bound(&self, number: u32) -> Result<u32, AllocError>
        ensures { IfOk result (λ s. s ≡ slot_bound (where_of self.now) number) }
    {
        match self.names.bound_as(number) {
            Some(bound) => self.slot(bound.place),
            None => self.slot(0),
        }
    }

    fn slot_of_reach(&self, own: u32, reach: &Reach) -> Result<u32, AllocError>
        ensures { IfOk result (λ s. s ≡ slot_of_reach (where_of self.now) own reach.now) }
    {
        match reach {
            Some(Term::Name(number)) => self.slot_bound(*number),
            Some(Term::Child { .. }) => Ok(own),
            None => Ok(0),
        }
    }

    fn slots_of_reaches(&self, own: u32, reaches: &[Reach]) -> Result<Sequence<u32>, AllocError>
        ensures { IfOk result (λ slots. slots ≡ map (slot_of_reach (where_of self.now) own) reaches.now) }
    {
        let mut slots = Sequence::new(self.site.alloc);
        for reach in reaches {
            let slot = self.slot_of_reach(own, reach)?;
            slots.push(slot)?;
        }
        Ok(slots)
    }

    /// The slots of the regions that a pointer's type names; that of a child's is given.
    pub fn slots_of(&self, own: u32, t: &StaticType) -> Result<Sequence<u32>, AllocError>
        ensures { IfOk result (λ slots. slots ≡ slots_of (where_of self.now) own t.now) }
    {
        match t {
            StaticType::Pointer { regions, .. } => self.slots_of_reaches(own, regions.as_slice()),
            _ => Ok(Sequence::new(self.site.alloc)),
        }
    }

    /// The slot with the region of a variable's value.
    pub fn own_slot(&self, t: &StaticType, place: u32) -> Result<u32, AllocError>
        ensures { IfOk result (λ s. s ≡ own_slot (where_of self.now) t.now place) }
    {
        if stays(t) {
            self.slot(place)
        } else {
            self.beside(place)
        }
    }
}

/// Whether a value of a type stays in its slot while an access goes through it.
pub fn stays(t: &StaticType) -> bool
    ensures { result ≡ stays t.now }
{
    matches!(t, StaticType::Region { .. } | StaticType::Partition { .. })
}
