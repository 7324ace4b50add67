//! The held privileges.

ghost use Rattle.std.specs.Prelude.{◌≡◌, ◌↔◌, ◌++◌, [], ◌∷◌, All, IsOk, IsOkAnd, IfErr, OnErr, OnOk, IsTrue};
ghost use Rattle.privilege_types.specs.Privileges.{IsHeld, IsAllowed, IsGranted, IsFirstBreach};
ghost use Rattle.regent_tree.specs.Rights.{gives, is_held, allows};

use crate::breach::Breach;
use constraint_check::{Facts, Term};
use regent_tree::{Access, Right, Wanted};
use std::alloc::{AllocError, Global};
use std::marker::Model;

/// The privileges that a task holds, seen as their list in the order of adding.
#[derive(Debug, Drop)]
pub struct Held {
    rights: Vec<Right>,
}

impl Model for Held {
    ghost use Rattle.std.specs.Prelude.{List};
    ghost use Rattle.regent_tree.specs.declared.rights.Right.{Right};

    ghost Value = { List Right };

    ghost view = { λ a. a.rights.items };
}

impl Held {
    /// No privileges; it takes no memory.
    pub fn new(alloc: Global) -> Result<Held, AllocError>
        ensures { IsOkAnd result (λ held. held ≡ []) }
    {
        Ok(Held {
            rights: Vec::new(alloc),
        })
    }

    /// One more privilege.
    pub fn add(&mut self, region: u32, field: u8, access: Access) -> Result<(), AllocError>
        ensures ok { OnOk result
            (self.new ≡ self.old ++ record { region = region; field = field; access = access } ∷ []) }
        ensures err { OnErr result (self.new ≡ self.old) }
    {
        self.rights.push(Right {
            region,
            field,
            access,
        })?;
        Ok(())
    }

    /// Whether an access to a field of a region is allowed.
    pub fn allows(&self, facts: &Facts, term: &Term, field: u8, access: Access) -> bool
        ensures computed { result ≡ allows self.now facts.now term.now field access }
        ensures derivable { IsTrue result ↔ IsAllowed self.now facts.now term.now field access }
    {
        is_allowed(&self.rights, facts, term, field, access)
    }

    /// Whether all that a call wants is allowed; the breach is the first place that is not.
    pub fn implies_call(&self, facts: &Facts, wanted: &[Wanted]) -> Result<(), Breach>
        ensures ok { IsOk result ↔ All (IsGranted self.now facts.now) wanted.now }
        ensures breach { IfErr result (λ b. IsFirstBreach self.now facts.now wanted.now b.at) }
    {
        for (at, place) in wanted.iter().enumerate() {
            if !self.allows(facts, &place.term, place.field, place.access) {
                return Err(Breach { at });
            }
        }
        Ok(())
    }
}

/// Whether an access is held, or for a reduction both reading and writing are.
fn is_allowed(rights: &[Right], facts: &Facts, term: &Term, field: u8, access: Access) -> bool
    ensures { result ≡ allows rights.now facts.now term.now field access }
{
    match access {
        Access::Read | Access::Write => is_held(rights, facts, term, field, access),
        Access::Reduce(_) => {
            is_held(rights, facts, term, field, access)
                || is_held(rights, facts, term, field, Access::Read)
                    && is_held(rights, facts, term, field, Access::Write)
        }
    }
}

/// Whether an access is held on a region within which the term lies.
fn is_held(rights: &[Right], facts: &Facts, term: &Term, field: u8, access: Access) -> bool
    ensures { result ≡ is_held rights.now facts.now term.now field access }
{
    rights
        .iter()
        .any(|right| gives(right, facts, term, field, access))
}

/// Whether a privilege is for the field and the access, on a region within which the term lies.
fn gives(right: &Right, facts: &Facts, term: &Term, field: u8, access: Access) -> bool
    ensures { result ≡ gives facts.now term.now field access right.now }
{
    right.field == field
        && right.access == access
        && facts.subregion(term, &Term::Name(right.region))
}
