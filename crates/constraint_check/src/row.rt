//! A fact beside all that its upper end lies within, and what a further fact adds to it.

ghost use Rattle.std.specs.List.{list_any};
ghost use Rattle.std.specs.Prelude.{◌≡◌, IfOk, OnErr, OnOk};
ghost use Rattle.regent_tree.specs.Facts.{Row, raises, is_child_of, with_term, united, all_above, above_end, widened, with_row, with_fact};

use regent_tree::{Known, Term};
use std::alloc::{AllocError, Global};
use std::marker::Model;

/// A fact, and all that its upper end lies within, the upper end included.
#[derive(Drop)]
pub struct Row {
    known: Known,
    above: Vec<Term>,
}

impl Model for Row {
    ghost use Rattle.std.specs.Prelude.{List};
    ghost use Rattle.regent_tree.specs.declared.facts.Known.{Known};
    ghost use Rattle.regent_tree.specs.declared.facts.Term.{Term};

    ghost Value = { Known × List Term };

    ghost view = { λ a. (a.known, a.above.items) };
}

impl Row {
    pub fn known(&self) -> &Known
        ensures { result.now ≡ self.now.0 }
    {
        &self.known
    }

    /// The terms that the fact's upper end lies within.
    pub fn above(&self) -> &[Term]
        ensures { result.now ≡ self.now.1 }
    {
        &self.above
    }

    /// The row with further terms above it, if a new fact raises one of its terms.
    fn widened(&self, alloc: Global, known: &Known, more: &[Term]) -> Result<Row, AllocError>
        ensures { IfOk result (λ row. row ≡ widened known.now more.now self.now) }
    {
        let mut above = Vec::from_slice(alloc, &self.above)?;
        if widens(self, known) {
            unite(&mut above, more)?;
        }
        Ok(Row {
            known: self.known,
            above,
        })
    }
}

/// Whether a fact says that a term lies within the fact's upper end.
pub fn raises(known: &Known, term: &Term) -> bool
    ensures { result ≡ raises known.now term.now }
{
    match known {
        Known::Within(a, _) => a == term,
        Known::PartOf { partition, .. } => is_child_of(*partition, term),
        Known::Apart(..) | Known::Made(_) => false,
    }
}

fn is_child_of(parent: u32, term: &Term) -> bool
    ensures { result ≡ is_child_of parent term.now }
{
    match term {
        Term::Child { partition, .. } => parent == *partition,
        Term::Name(_) => false,
    }
}

/// Adds a term, unless it is there.
fn add_new(terms: &mut Vec<Term>, term: Term) -> Result<(), AllocError>
    ensures { OnOk result (terms.new.items ≡ with_term terms.old.items term) }
{
    if !terms.iter().any(|other| term == *other) {
        terms.push(term)?;
    }
    Ok(())
}

/// Adds the terms that are not there yet.
fn unite(terms: &mut Vec<Term>, more: &[Term]) -> Result<(), AllocError>
    ensures { OnOk result (terms.new.items ≡ united terms.old.items more.now) }
{
    for term in more {
        add_new(terms, *term)?;
    }
    Ok(())
}

/// A term, and all that it lies within.
fn all_above(alloc: Global, rows: &[Row], term: &Term) -> Result<Vec<Term>, AllocError>
    ensures { IfOk result (λ v. v.items ≡ all_above rows.now term.now) }
{
    let mut above = Vec::from_slice(alloc, &[*term])?;
    for row in rows {
        if raises(row.known(), term) {
            unite(&mut above, row.above())?;
        }
    }
    Ok(above)
}

/// The upper end of a fact, and all that it lies within.
fn above_end(alloc: Global, rows: &[Row], known: &Known) -> Result<Vec<Term>, AllocError>
    ensures { IfOk result (λ v. v.items ≡ above_end rows.now known.now) }
{
    match known {
        Known::Within(_, end) => all_above(alloc, rows, end),
        Known::PartOf { parent, .. } => all_above(alloc, rows, &Term::Name(*parent)),
        Known::Apart(..) | Known::Made(_) => Ok(Vec::new(alloc)),
    }
}

/// Whether a new fact raises one of the terms above a row's fact.
fn widens(row: &Row, known: &Known) -> bool
    ensures { result ≡ list_any (raises known.now) row.now.1 }
{
    row.above().iter().any(|term| raises(known, term))
}

/// Whether a new fact raises a term above some row's fact.
fn widens_any(rows: &[Row], known: &Known) -> bool
    ensures { result ≡ list_any (λ (row : Row). list_any (raises known.now) row.1) rows.now }
{
    match known {
        Known::Within(..) | Known::PartOf { .. } => rows.iter().any(|row| widens(row, known)),
        Known::Apart(..) => false,
        Known::Made(_) => false,
    }
}

/// The rows with one more, by which the others are widened.
fn with_row(
    alloc: Global,
    rows: &[Row],
    known: Known,
    above: Vec<Term>,
) -> Result<Vec<Row>, AllocError>
    ensures { IfOk result (λ v. v.items ≡ with_row rows.now known above.items) }
{
    let mut all = Vec::with_capacity(alloc, rows.len() + 1)?;
    for row in rows {
        let wider = row.widened(alloc, &known, &above)?;
        all.push(wider)?;
    }
    all.push(Row { known, above })?;
    Ok(all)
}

/// Adds a fact. The rows are made anew only where it widens one of them, as no fact on a new name
/// does.
pub fn add_fact(alloc: Global, rows: &mut Vec<Row>, known: Known) -> Result<(), AllocError>
    ensures ok { OnOk result (rows.new.items ≡ with_fact rows.old.items known) }
    ensures err { OnErr result (rows.new.items ≡ rows.old.items) }
{
    let above = above_end(alloc, rows, &known)?;
    if widens_any(rows, &known) {
        let all = with_row(alloc, rows, known, above)?;
        *rows = all;
        return Ok(());
    }
    rows.push(Row { known, above })?;
    Ok(())
}
