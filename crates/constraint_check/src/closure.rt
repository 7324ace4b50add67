//! The known facts, closed at each addition.

ghost use Rattle.std.specs.List.{list_any};
ghost use Rattle.std.specs.Prelude.{◌≡◌, ◌↔◌, [], ◌∷◌, ◌++◌, IsOkAnd, OnOk, OnErr, IsTrue};
ghost use Rattle.regent_tree.specs.Facts.{is_subregion, are_disjoint};
ghost use Rattle.regent_tree.specs.declared.facts.Term.TheVariants.{Name};
ghost use Rattle.constraint_check.specs.Derivations.{IsSubregion, IsDisjoint};

use crate::question::{is_below, is_below_any, is_certain, parts_either};
use crate::raising::rows_raising;
use crate::row::{Row, add_fact};
use regent_tree::{Known, Term};
use std::alloc::{AllocError, Global};
use std::marker::Model;

/// What is known of regions, seen as the list of facts in the order of adding.
#[derive(Drop)]
pub struct Facts {
    alloc: Global,
    rows: Vec<Row>,
}

impl Model for Facts {
    ghost use Rattle.std.specs.List.{list_any};
    ghost use Rattle.std.specs.Prelude.{List};
    ghost use Rattle.regent_tree.specs.declared.facts.Known.{Known};
    ghost use Rattle.constraint_check.specs.Rows.{facts_of, IsClosed};

    ghost Value = { List Known };

    ghost view = { λ a. facts_of a.rows.items };

    ghost invariant = { λ a. IsClosed a.rows.items };
}

impl Facts {
    /// No facts; it takes no memory.
    pub fn new(alloc: Global) -> Result<Facts, AllocError>
        ensures { IsOkAnd result (λ facts. facts ≡ []) }
    {
        Ok(Facts {
            alloc,
            rows: Vec::new(alloc),
        })
    }

    /// One more fact. What follows from it is worked out here.
    pub fn add(&mut self, known: Known) -> Result<(), AllocError>
        ensures ok { OnOk result (self.new ≡ self.old ++ known ∷ []) }
        ensures err { OnErr result (self.new ≡ self.old) }
    {
        add_fact(self.alloc, &mut self.rows, known)?;
        Ok(())
    }

    /// Whether `a <= b` follows. A child of an unknown colour lies within what its partition's
    /// parent does, and nothing is known to lie within it, not even itself.
    pub fn subregion(&self, a: &Term, b: &Term) -> bool
        ensures computed { result ≡ is_subregion self.now a.now b.now }
        ensures derivable { IsTrue result ↔ IsSubregion self.now a.now b.now }
    {
        is_certain(b) && is_below(&self.rows, a, b)
    }

    /// Whether `a <= b` follows for one of these names b. The rows are gone through once; the names are
    /// then looked for in those from the first to the last that raise a.
    pub fn lies_in_any(&self, a: &Term, names: &[u32]) -> bool
        ensures { result ≡ list_any (λ n. is_subregion self.now a.now (Name n)) names.now }
    {
        is_below_any(rows_raising(&self.rows, a), a, names)
    }

    /// Whether `a * b` follows: a and b share no point.
    pub fn disjoint(&self, a: &Term, b: &Term) -> bool
        ensures computed { result ≡ are_disjoint self.now a.now b.now }
        ensures derivable { IsTrue result ↔ IsDisjoint self.now a.now b.now }
    {
        let over_a = rows_raising(&self.rows, a);
        let over_b = rows_raising(&self.rows, b);
        self.rows
            .iter()
            .any(|row| parts_either(over_a, over_b, a, b, row.known()))
    }
}
