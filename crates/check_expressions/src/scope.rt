//! A scope: the names that are bound at a place of a body, with what is known of regions there.

ghost use Rattle.std.specs.Prelude.{◌≡◌, ◌++◌, ◌∷◌, [], ◌-◌, drop, length, IfOk, OnOk, suc};
ghost use Rattle.regent_tree.specs.Scopes.{with_name, knowing};
ghost use Rattle.regent_tree.specs.declared.facts.Known.TheVariants.{Made};
ghost use Rattle.check_expressions.specs.Seen.{seen, made_in};

use constraint_check::Facts;
use program_tables::Names;
use regent_tree::{Known, Name, StaticType};
use std::alloc::{AllocError, Global};
use std::marker::Model;

/// The names in scope, what is known, and the number of the next binding.
#[derive(Drop)]
pub struct Scoped {
    pub names: Names,
    pub facts: Facts,
    pub next: u32,
}

/// A scope, with the regions that the task has made so far.
#[derive(Drop)]
pub struct Scope {
    scoped: Scoped,
    made: Vec<u32>,
}

impl Model for Scope {
    ghost use Rattle.std.specs.Prelude.{◌≡◌};
    ghost use Rattle.check_expressions.specs.declared.scope.Scoped.{Scoped};
    ghost use Rattle.check_expressions.specs.contracts.scope.Scoped as scoped_type;
    ghost use Rattle.check_expressions.specs.Seen.{made_in};

    ghost Value = { Scoped };

    ghost coded = { scoped_type.the_row.coded };

    ghost view = { λ s. s.scoped };

    ghost invariant = { λ s. made_in s.scoped.facts ≡ s.made.items };
}

impl Scope {
    /// The scope without names; it takes no memory.
    pub fn new(alloc: Global) -> Result<Scope, AllocError>
        ensures { IfOk result (λ s. seen s ≡ record { names = []; known = []; next = 0 }) }
    {
        Ok(Scope {
            scoped: Scoped {
                names: Names::new(alloc),
                facts: Facts::new(alloc)?,
                next: 0,
            },
            made: Vec::new(alloc),
        })
    }

    pub fn names(&self) -> &Names
        ensures { result.now ≡ self.now.names }
    {
        &self.scoped.names
    }

    pub fn facts(&self) -> &Facts
        ensures { result.now ≡ self.now.facts }
    {
        &self.scoped.facts
    }

    /// The number of the next binding.
    pub fn next(&self) -> u32
        ensures { result ≡ self.now.next }
    {
        self.scoped.next
    }

    /// The regions that the task has made, by the numbers of their bindings.
    pub fn made(&self) -> &[u32]
        ensures { result.now ≡ made_in self.now.facts }
    {
        self.made.as_slice()
    }

    /// Binds one more name. A number that passes 32 bits counts as a want of memory.
    pub fn bind(&mut self, name: Name, t: StaticType, by_loop: bool) -> Result<(), AllocError>
        ensures { OnOk result (seen self.new ≡ with_name (seen self.old) name t by_loop) }
    {
        let number = self.scoped.next;
        let Some(next) = number.checked_add(1) else {
            return Err(AllocError);
        };
        self.scoped.names.bind(name, number, t, by_loop)?;
        self.scoped.next = next;
        Ok(())
    }

    /// One more fact is known, which isn't that a region was made.
    #[tactic(auto, using(crate::proofs::Made::made_without))]
    fn know_relation(&mut self, known: Known) -> Result<(), AllocError>
        requires { made_in (known ∷ []) ≡ [] }
        ensures { OnOk result (seen self.new ≡ knowing (seen self.old) (known ∷ [])) }
    {
        self.scoped.facts.add(known)?;
        Ok(())
    }

    /// The region that was bound with a number was made by the task.
    #[tactic(auto, using(crate::proofs::Made::made_with))]
    fn know_made(&mut self, number: u32) -> Result<(), AllocError>
        ensures { OnOk result (seen self.new ≡ knowing (seen self.old) (Made number ∷ [])) }
    {
        self.made.push(number)?;
        match self.scoped.facts.add(Known::Made(number)) {
            Ok(()) => Ok(()),
            Err(error) => {
                self.made.pop();
                Err(error)
            }
        }
    }

    /// One more fact is known.
    pub fn know(&mut self, known: Known) -> Result<(), AllocError>
        ensures { OnOk result (seen self.new ≡ knowing (seen self.old) (known ∷ [])) }
    {
        match known {
            Known::Made(number) => self.know_made(number),
            Known::Within(..) | Known::Apart(..) | Known::PartOf { .. } => {
                self.know_relation(known)
            }
        }
    }

    /// Goes back to the names that a block began with, by how many they were.
    pub fn leave(&mut self, len: usize)
        ensures { self.new ≡ record self.old { names = drop (length self.old.names - len) self.old.names } }
    {
        self.scoped.names.forget_to(len);
    }
}
