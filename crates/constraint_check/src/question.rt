//! What the rows of a table say of two terms.

ghost use Rattle.std.specs.List.{list_any};
ghost use Rattle.std.specs.Prelude.{◌≡◌, ◌||◌};
ghost use Rattle.regent_tree.specs.Facts.{is_certain, raises_to, any_above, is_below, differ, is_other_child, is_earlier, has_sibling_above};
ghost use Rattle.regent_tree.specs.declared.facts.Term.TheVariants.{Name};
ghost use Rattle.constraint_check.specs.Looking.{is_met_by, parts_over};

use crate::row::{Row, raises};
use regent_tree::{Colour, Known, Term};

/// What is looked for above a term.
#[derive(Clone, Copy)]
enum Sought {
    /// This very term.
    This(Term),
    /// A name that was bound before this one.
    Earlier(u32),
    /// A child of the partition by another number than the colour.
    OtherChild { partition: u32, colour: Colour },
}

impl Sought {
    fn is_met_by(&self, term: &Term) -> bool
        ensures { result ≡ is_met_by self.now term.now }
    {
        match self {
            Sought::This(wanted) => wanted == term,
            Sought::Earlier(name) => is_earlier(*name, term),
            Sought::OtherChild { partition, colour } => is_other_child(*partition, colour, term),
        }
    }
}

fn is_earlier(name: u32, term: &Term) -> bool
    ensures { result ≡ is_earlier name term.now }
{
    match term {
        Term::Name(other) => *other < name,
        Term::Child { .. } => false,
    }
}

fn is_other_child(parent: u32, colour: &Colour, term: &Term) -> bool
    ensures { result ≡ is_other_child parent colour.now term.now }
{
    match term {
        Term::Name(_) => false,
        Term::Child {
            partition,
            colour: other,
        } => parent == *partition && differ(colour, other),
    }
}

/// Whether two colours are two different numbers.
fn differ(one: &Colour, other: &Colour) -> bool
    ensures { result ≡ differ one.now other.now }
{
    match (one, other) {
        (Colour::Constant(i), Colour::Constant(j)) => i != j,
        _ => false,
    }
}

/// Whether a term stands for one region: a child of an unknown colour is the same as nothing.
pub fn is_certain(term: &Term) -> bool
    ensures { result ≡ is_certain term.now }
{
    match term {
        Term::Name(_) => true,
        Term::Child { colour, .. } => !matches!(colour, Colour::Unknown),
    }
}

/// Whether a row's fact raises a term to what is looked for.
fn raises_to(row: &Row, sought: &Sought, term: &Term) -> bool
    ensures { result ≡ raises_to (is_met_by sought.now) term.now row.now }
{
    raises(row.known(), term) && row.above().iter().any(|above| sought.is_met_by(above))
}

/// Whether a term, or one that it lies within, is what is looked for.
fn any_above(rows: &[Row], sought: &Sought, term: &Term) -> bool
    ensures { result ≡ any_above rows.now (is_met_by sought.now) term.now }
{
    sought.is_met_by(term) || rows.iter().any(|row| raises_to(row, sought, term))
}

/// Whether `a <= b`, as the terms are written.
pub fn is_below(rows: &[Row], a: &Term, b: &Term) -> bool
    ensures { result ≡ is_below rows.now a.now b.now }
{
    any_above(rows, &Sought::This(*b), a)
}

/// Whether a lies within one of these names.
pub fn is_below_any(rows: &[Row], a: &Term, names: &[u32]) -> bool
    ensures { result ≡ list_any (λ n. is_below rows.now a.now (Name n)) names.now }
{
    for name in names {
        if is_below(rows, a, &Term::Name(*name)) {
            return true;
        }
    }
    false
}

/// Whether x is a child of the partition, and b lies within another one.
fn has_sibling_above(over_b: &[Row], parent: u32, b: &Term, x: &Term) -> bool
    ensures { result ≡ has_sibling_above over_b.now parent b.now x.now }
{
    match x {
        Term::Name(_) => false,
        Term::Child { partition, colour } => {
            let sought = Sought::OtherChild {
                partition: parent,
                colour: *colour,
            };
            parent == *partition && any_above(over_b, &sought, b)
        }
    }
}

/// Whether a row's fact raises a to a child of the partition, and b lies within another one.
fn raises_to_sibling(row: &Row, over_b: &[Row], parent: u32, a: &Term, b: &Term) -> bool
    ensures { result ≡ raises_to (has_sibling_above over_b.now parent b.now) a.now row.now }
{
    let above = row.above();
    raises(row.known(), a)
        && above
            .iter()
            .any(|x| has_sibling_above(over_b, parent, b, x))
}

/// Whether a and b lie within two children of the partition by different numbers.
fn are_in_siblings(over_a: &[Row], over_b: &[Row], parent: u32, a: &Term, b: &Term) -> bool
    ensures { result ≡ any_above over_a.now (has_sibling_above over_b.now parent b.now) a.now }
{
    has_sibling_above(over_b, parent, b, a)
        || over_a
            .iter()
            .any(|row| raises_to_sibling(row, over_b, parent, a, b))
}

/// Whether a fact parts a from b, in this order.
fn parts(over_a: &[Row], over_b: &[Row], a: &Term, b: &Term, known: &Known) -> bool
    ensures { result ≡ parts_over over_a.now over_b.now a.now b.now known.now }
{
    match known {
        Known::Within(..) => false,
        Known::Apart(x, y) => is_below(over_a, a, x) && is_below(over_b, b, y),
        Known::PartOf {
            partition,
            disjoint,
            ..
        } => *disjoint && are_in_siblings(over_a, over_b, *partition, a, b),
        Known::Made(name) => is_below(over_a, a, &Term::Name(*name))
            && any_above(over_b, &Sought::Earlier(*name), b),
    }
}

/// Whether a fact parts a and b, in one order or the other; `over_a` is asked what a lies within, and
/// `over_b` what b does.
pub fn parts_either(over_a: &[Row], over_b: &[Row], a: &Term, b: &Term, known: &Known) -> bool
    ensures { result ≡ (parts_over over_a.now over_b.now a.now b.now known.now
        || parts_over over_b.now over_a.now b.now a.now known.now) }
{
    parts(over_a, over_b, a, b, known) || parts(over_b, over_a, b, a, known)
}
