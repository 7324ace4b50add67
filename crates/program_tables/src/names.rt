//! The names in scope.

ghost use Rattle.std.specs.Prelude.{◌≡◌, ◌-◌, ◌∷◌, ◌++◌, [], drop, is_some, length, IfNone, IfSome, List, OnErr, OnOk, IsSome, bytes_eq, ℕ, if◌then◌else◌, ◌==◌, reverse};
ghost use Rattle.regent_tree.specs.Lookup.{is_bound};
ghost use Rattle.regent_tree.specs.Scopes.{bound_as, bound_to, unbound};
ghost use Rattle.regent_tree.specs.declared.typing.Bound.{Bound};
ghost use Rattle.std.specs.HashMap.{get};
ghost use Rattle.std.specs.List.{find};
ghost use Rattle.std.specs.Option.{option_copied};
ghost use Rattle.program_tables.specs.Hiding.{bindings_of, has_number};

use crate::copies::copy_name;
use indexmap::IndexMap;
use regent_tree::{Bound, Name, StaticType};
use std::alloc::{AllocError, Global};
use std::marker::Model;

/// A binding, and the place of the one that it hides.
#[derive(Drop)]
struct Entry {
    bound: Bound,
    hides: Option<u32>,
}

/// The names in scope, seen as the list of their bindings, innermost first.
#[derive(Drop)]
pub struct Names {
    alloc: Global,
    entries: Vec<Entry>,
    innermost: IndexMap<Name, u32>,
}

/// Takes a binding out of an index, where the one that it hides comes back.
fn unhide(index: &mut IndexMap<Name, u32>, entry: Entry)
    requires { IsSome (get bytes_eq index.old entry.bound.name) }
    ensures { (n : List ℕ) → get bytes_eq index.new n
        ≡ (if bytes_eq entry.bound.name n then entry.hides else get bytes_eq index.old n) }
{
    let Entry { bound, hides } = entry;
    let Bound { name, .. } = bound;
    match hides {
        Some(place) => {
            index.insert(name, place).unwrap();
        }
        None => {
            index.swap_remove(&name);
        }
    }
}

/// The newest entry with a number.
fn find_number(entries: &[Entry], number: u32) -> Option<&Entry>
    ensures { option_copied result ≡ find (λ e. e.bound.number == number) (reverse entries.now) }
{
    let mut newest_first = entries.iter().rev();
    newest_first.find(|entry| entry.bound.number == number)
}

impl Model for Names {
    ghost use Rattle.std.specs.Prelude.{List, reverse};
    ghost use Rattle.regent_tree.specs.declared.typing.Bound.{Bound};
    ghost use Rattle.program_tables.specs.Hiding.{bindings_of, IsIndexed};

    ghost Value = { List Bound };

    ghost view = { λ s. bindings_of (reverse s.entries.items) };

    ghost invariant = { λ s. IsIndexed s.innermost (reverse s.entries.items) };
}

impl Names {
    /// No names; it takes no memory.
    pub fn new(alloc: Global) -> Names
        ensures { result ≡ [] }
    {
        Names {
            alloc,
            entries: Vec::new(alloc),
            innermost: IndexMap::new(alloc),
        }
    }

    pub fn len(&self) -> usize
        ensures { result ≡ length self.now }
    {
        self.entries.len()
    }

    /// Binds one more name. So many names that a place needs more than 32 bits count as a want of
    /// memory.
    pub fn bind(
        &mut self,
        name: Name,
        number: u32,
        static_type: StaticType,
        by_loop: bool,
    ) -> Result<(), AllocError>
        ensures ok { OnOk result (self.new ≡ record {
          name = name;
          number = number;
          place = length self.old;
          static_type = static_type;
          by_loop = by_loop;
        } ∷ self.old) }
        ensures err { OnErr result (self.new ≡ self.old) }
    {
        if self.entries.len() >= u32::MAX as usize {
            return Err(AllocError);
        }
        let place = self.entries.len() as u32;
        let key = copy_name(self.alloc, &name)?;
        self.entries.reserve(1)?;
        let hides = self.innermost.insert(key, place)?;
        let bound = Bound {
            name,
            number,
            place,
            static_type,
            by_loop,
        };
        self.entries.push(Entry { bound, hides })?;
        Ok(())
    }

    /// Forgets the innermost name, if there is one.
    fn forget_innermost(&mut self)
        ensures { self.new ≡ drop 1 self.old }
    {
        if let Some(entry) = self.entries.pop() {
            unhide(&mut self.innermost, entry);
        }
    }

    /// Forgets the innermost names until there are no more than `len`, as at the end of a block
    /// that began with `len` names.
    pub fn forget_to(&mut self, len: usize)
        ensures dropped { self.new ≡ drop (length self.old - len) self.old }
        ensures back { (inner outer : List Bound) → self.old ≡ inner ++ outer → length outer ≡ len
            → self.new ≡ outer }
    {
        while self.len() > len {
            self.forget_innermost();
        }
    }

    /// What a name is bound to.
    pub fn bound_to(&self, name: &Name) -> Option<&Bound>
        ensures found { is_some result ≡ is_bound self.now name.now }
        ensures bound { IfSome result (λ b. b.now ≡ bound_to self.now name.now) }
        ensures free { IfNone result (bound_to self.now name.now ≡ unbound) }
    {
        let place = *self.innermost.get(name)?;
        Some(&self.entries[place as usize].bound)
    }

    /// The binding with a number.
    pub fn bound_as(&self, number: u32) -> Option<&Bound>
        ensures found { is_some result ≡ has_number self.now number }
        ensures bound { IfSome result (λ b. b.now ≡ bound_as self.now number) }
        ensures free { IfNone result (bound_as self.now number ≡ unbound) }
    {
        let entry = find_number(&self.entries, number)?;
        Some(&entry.bound)
    }
}
