//! The types that type terms say.

ghost use Rattle.std.specs.Prelude.{◌≡◌, IfOk};
ghost use Rattle.regent_tree.specs.PlainProgram.{tree_of};
ghost use Rattle.regent_tree.specs.StaticTypes.{number_type, written_pointer, type_said};

use crate::looking::{Looking, all_looked_up, binding_of};
use program_tables::Tables;
use regent_tree::{NumberTerm, PointerTerm, StaticType, Term, TypeTerm, Width};
use std::alloc::{AllocError, Global};

/// The type of a number term.
pub fn number_type(term: NumberTerm) -> StaticType
    ensures { result ≡ number_type term }
{
    match term {
        NumberTerm::Int32 => StaticType::Integer(Width::W32),
        NumberTerm::Int64 => StaticType::Integer(Width::W64),
        NumberTerm::Index(kind) => StaticType::Index(kind),
    }
}

/// The type of a pointer term.
pub fn written_pointer<L: Looking>(
    alloc: Global,
    tables: &Tables,
    look: &L,
    term: &PointerTerm,
) -> Result<StaticType, AllocError>
    ensures { IfOk result (λ t. t ≡ written_pointer (tree_of tables.now) (L.looks look.now) term.now) }
{
    Ok(StaticType::Pointer {
        kind: term.kind,
        space: tables.place_of_space(&term.space.name),
        args: all_looked_up(alloc, look, term.space.args.as_slice())?,
        regions: all_looked_up(alloc, look, term.regions.as_slice())?,
    })
}

/// The type that a type term says of the binding with a number.
pub fn type_said<L: Looking>(
    alloc: Global,
    tables: &Tables,
    look: &L,
    own: u32,
    term: &TypeTerm,
) -> Result<StaticType, AllocError>
    ensures { IfOk result (λ t. t ≡ type_said (tree_of tables.now) (L.looks look.now) own term.now) }
{
    Ok(match term {
        TypeTerm::Number(number) => number_type(*number),
        TypeTerm::Truth => StaticType::Truth,
        TypeTerm::Pointer(pointer) => written_pointer(alloc, tables, look, pointer)?,
        TypeTerm::Ispace(kind) => StaticType::Ispace(*kind),
        TypeTerm::Region { kind, space } => StaticType::Region {
            kind: *kind,
            space: tables.place_of_space(&space.name),
            args: all_looked_up(alloc, look, space.args.as_slice())?,
            term: Term::Name(own),
        },
        TypeTerm::Partition {
            disjoint,
            region,
            ..
        } => StaticType::Partition {
            disjoint: *disjoint,
            parent: binding_of(&look.look(region)?),
            own,
        },
    })
}
