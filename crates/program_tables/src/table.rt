//! Lists of named items, and the place of the first item of each name.

ghost use Rattle.std.specs.Prelude.{◌≡◌, [], ◌∷◌, ◌++◌, length, slice_get, OnOk};
ghost use Rattle.std.specs.Option.{option_copied};
ghost use Rattle.program_tables.specs.Lookups.{place_named, first_named};

use crate::copies::copy_name;
use indexmap::IndexMap;
use regent_tree::{FieldSpace, Name, Task};
use std::alloc::{AllocError, Global};
use std::marker::Model;

/// What has a name.
pub trait Named {
    ghost use Rattle.std.specs.Prelude.{◌≡◌, List, ℕ};

    ghost name: { Self → List ℕ };

    fn name(&self) -> &Name
        ensures { result.now ≡ name self.now };
}

impl Named for Task {
    ghost name = { λ t. t.name };

    fn name(&self) -> &Name {
        &self.name
    }
}

impl Named for FieldSpace {
    ghost name = { λ s. s.name };

    fn name(&self) -> &Name {
        &self.name
    }
}

impl Named for Name {
    ghost name = { λ n. n };

    fn name(&self) -> &Name {
        self
    }
}

/// Items in the order of adding, seen as the list of them. Items may share a name.
#[derive(Drop)]
pub struct Table<'a, T: Named> {
    alloc: Global,
    items: Vec<&'a T>,
    first: IndexMap<Name, u32>,
}

impl<'a, T: Named> Model for Table<'a, T> {
    ghost use Rattle.std.specs.Prelude.{List, map};
    ghost use Rattle.program_tables.specs.Lookups.{IsTableOf};

    ghost Value = { List T };

    ghost view = { λ t. map (λ r. r.now) t.items.items };

    ghost invariant = { λ t. IsTableOf T.name t.first (map (λ r. r.now) t.items.items) };
}

impl<'a, T: Named> Table<'a, T> {
    pub fn new(alloc: Global) -> Table<'a, T>
        ensures { result ≡ [] }
    {
        Table {
            alloc,
            items: Vec::new(alloc),
            first: IndexMap::new(alloc),
        }
    }

    /// One more item. So many that a place needs more than 32 bits count as a want of memory.
    pub fn add(&mut self, item: &'a T) -> Result<(), AllocError>
        ensures { OnOk result (self.new ≡ self.old ++ item.now ∷ []) }
    {
        if self.items.len() >= u32::MAX as usize {
            return Err(AllocError);
        }
        let place = self.items.len() as u32;
        let name = item.name();
        self.items.reserve(1)?;
        if !self.first.contains_key(name) {
            let key = copy_name(self.alloc, name)?;
            self.first.insert(key, place)?;
        }
        self.items.push(item)?;
        Ok(())
    }

    pub fn len(&self) -> u32
        ensures { result ≡ length self.now }
    {
        self.items.len() as u32
    }

    /// The place of the first item with a name.
    pub fn place(&self, name: &Name) -> Option<u32>
        ensures { result ≡ place_named T.name self.now name.now }
    {
        self.first.get(name).copied()
    }

    /// The item at a place.
    pub fn get(&self, place: u32) -> Option<&'a T>
        ensures { option_copied result ≡ slice_get self.now place }
    {
        self.items.get(place as usize).copied()
    }

    /// The first item with a name.
    #[tactic(auto, using(crate::proofs::Indexing::first_at_place))]
    pub fn first(&self, name: &Name) -> Option<&'a T>
        ensures { option_copied result ≡ first_named T.name self.now name.now }
    {
        self.get(self.place(name)?)
    }
}
