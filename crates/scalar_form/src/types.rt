//! Types of scalars.

ghost use Rattle.std.specs.Prelude.{◌≡◌};
ghost use Rattle.scalar_form.specs.ScalarForm.{is_scalar_if_said, is_scalar_number, is_scalar_term};

use regent_tree::{NumberTerm, TypeTerm};

/// Whether a number type is of integers, and of no index.
pub fn is_scalar_number(term: NumberTerm) -> bool
    ensures { result ≡ is_scalar_number term }
{
    match term {
        NumberTerm::Int32 | NumberTerm::Int64 => true,
        NumberTerm::Index(_) => false,
    }
}

/// Whether a type is of integers or truths.
pub fn is_scalar_term(term: &TypeTerm) -> bool
    ensures { result ≡ is_scalar_term term.now }
{
    match term {
        TypeTerm::Number(number) => is_scalar_number(*number),
        TypeTerm::Truth => true,
        TypeTerm::Pointer(_)
        | TypeTerm::Ispace(_)
        | TypeTerm::Region { .. }
        | TypeTerm::Partition { .. } => false,
    }
}

/// The same of a type that may be left out.
pub fn is_scalar_if_said(term: &Option<TypeTerm>) -> bool
    ensures { result ≡ is_scalar_if_said term.now }
{
    match term {
        None => true,
        Some(term) => is_scalar_term(term),
    }
}
