//! A scope: the names that are bound at a place of a body, with what is known of regions there.

ghost use Rattle.std.specs.Prelude.{◌≡◌, ◌++◌, ◌∷◌, ◌-◌, ◌≤◌, [], drop, length, take, IfOk, OnOk};
ghost use Rattle.regent_tree.specs.Plain.{expression_of};
ghost use Rattle.regent_tree.specs.Scopes.{knowing, with_name};
ghost use Rattle.code_rules.specs.Emitted.{emitted};
ghost use Rattle.code_rules.specs.Expressions.{expr_code};
ghost use Rattle.compile_types.specs.Here.{where_at, where_of};
ghost use Rattle.compile_statements.specs.Scopes.{as_of, mark_of, seen, where_in};

use crate::at::At;
use compile_expressions::{Body, expression};
use compile_types::Here;
use constraint_check::Facts;
use program_tables::Names;
use regent_tree::{Expr, Known, Name, StaticType};
use std::alloc::{AllocError, Global};
use std::marker::Model;

/// The names in scope, what is known, and the number of the next binding.
#[derive(Drop)]
pub struct Scoped {
    pub names: Names,
    pub facts: Facts,
    pub next: u32,
}

/// A scope, with the list of what is known.
#[derive(Drop)]
pub struct Scope {
    scoped: Scoped,
    known: Vec<Known>,
}

/// How many names and facts a scope had, and the number of its next binding.
#[derive(Clone, Copy)]
pub struct Mark {
    pub names: usize,
    pub known: usize,
    pub next: u32,
}

impl Model for Scope {
    ghost use Rattle.std.specs.Prelude.{◌≡◌};
    ghost use Rattle.compile_statements.specs.declared.scope.Scoped.{Scoped};
    ghost use Rattle.compile_statements.specs.contracts.scope.Scoped as scoped_type;

    ghost Value = { Scoped };

    ghost coded = { scoped_type.the_row.coded };

    ghost view = { λ s. s.scoped };

    ghost invariant = { λ s. s.known.items ≡ s.scoped.facts };
}

/// A table of facts.
fn facts_of(alloc: Global, known: &[Known]) -> Result<Facts, AllocError>
    ensures { IfOk result (λ facts. facts ≡ known.now) }
{
    let mut facts = Facts::new(alloc)?;
    for fact in known {
        facts.add(*fact)?;
    }
    Ok(facts)
}

impl Scope {
    /// The scope without names; it takes no memory.
    pub fn new(alloc: Global) -> Result<Scope, AllocError>
        ensures { IfOk result (λ s. seen s ≡ record { names = []; known = []; next = 0 }) }
    {
        Ok(Scope {
            scoped: Scoped {
                names: Names::new(alloc),
                facts: Facts::new(alloc)?,
                next: 0,
            },
            known: Vec::new(alloc),
        })
    }

    /// The place of a statement in this scope.
    pub fn here<'a>(&'a self, at: &At<'a>) -> Here<'a>
        ensures { where_of result ≡ where_in at.now self.now }
    {
        Here {
            site: at.site,
            names: &self.scoped.names,
            facts: &self.scoped.facts,
            next: self.scoped.next,
            line: at.line,
        }
    }

    /// Binds one more name. A number that passes 32 bits counts as a want of memory.
    pub fn bind(&mut self, name: Name, t: StaticType, by_loop: bool) -> Result<(), AllocError>
        ensures { OnOk result (seen self.new ≡ with_name (seen self.old) name t by_loop) }
    {
        let number = self.scoped.next;
        let Some(next) = number.checked_add(1) else {
            return Err(AllocError);
        };
        self.scoped.names.bind(name, number, t, by_loop)?;
        self.scoped.next = next;
        Ok(())
    }

    /// One more fact is known.
    pub fn know(&mut self, known: Known) -> Result<(), AllocError>
        ensures { OnOk result (seen self.new ≡ knowing (seen self.old) (known ∷ [])) }
    {
        self.known.push(known)?;
        match self.scoped.facts.add(known) {
            Ok(()) => Ok(()),
            Err(error) => {
                self.known.pop();
                Err(error)
            }
        }
    }

    /// How far the scope has come.
    pub fn mark(&self) -> Mark
        ensures { result ≡ mark_of (seen self.now) }
    {
        Mark {
            names: self.scoped.names.len(),
            known: self.known.len(),
            next: self.scoped.next,
        }
    }

    /// Goes back to the names that a block began with.
    pub fn leave(&mut self, mark: Mark)
        ensures { self.new ≡ record self.old { names = drop (length self.old.names - mark.names) self.old.names } }
    {
        self.scoped.names.forget_to(mark.names);
    }
}

/// An expression where this is known.
fn expression_knowing(
    at: &At,
    scope: &Scope,
    next: u32,
    facts: &Facts,
    body: &mut Body,
    e: &Expr,
) -> Result<(), AllocError>
    ensures { OnOk result (body.new ≡ emitted body.old (expr_code (where_at at.now.site.now
        (record { names = scope.now.names; known = facts.now; next = next }) at.now.line) 0 (expression_of e.now))) }
{
    let here = Here {
        site: at.site,
        names: &scope.scoped.names,
        facts,
        next,
        line: at.line,
    };
    expression(&here, body, 0, e)?;
    Ok(())
}

/// An expression that stands in the scope as it was at a mark, where the names are the same again: what has come
/// to be known since isn't known there.
pub fn expression_as_of(
    at: &At,
    scope: &Scope,
    mark: Mark,
    body: &mut Body,
    e: &Expr,
) -> Result<(), AllocError>
    ensures { OnOk result (body.new ≡ emitted body.old (expr_code (where_at at.now.site.now
        (as_of mark (seen scope.now)) at.now.line) 0 (expression_of e.now))) }
{
    if mark.known >= scope.known.len() {
        return expression_knowing(at, scope, mark.next, &scope.scoped.facts, body, e);
    }
    let facts = facts_of(at.site.alloc, &scope.known[..mark.known])?;
    expression_knowing(at, scope, mark.next, &facts, body, e)
}
