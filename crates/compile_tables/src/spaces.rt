//! The code of a program's field spaces.

ghost use Rattle.std.specs.Prelude.{◌≡◌, IfOk, map};
ghost use Rattle.regent_tree.specs.PlainProgram.{tree_of};
ghost use Rattle.regent_tree.specs.StaticTypes.{kind_said, number_kind, spaces_of};
ghost use Rattle.code_rules.specs.Programs.{space_code};
ghost use Rattle.compile_tables.specs.Spaces.{field_code};

use lane_kernels::FieldKind;
use plain_values::Sequence;
use program_tables::copy_name;
use regent_tree::{FieldSpace, ItemKind, NumberTerm, Param, Program, TypeTerm};
use std::alloc::{AllocError, Global};
use task_code::{FieldCode, SpaceCode};

fn number_kind(term: NumberTerm) -> FieldKind
    ensures { result ≡ number_kind term }
{
    match term {
        NumberTerm::Int32 => FieldKind::Int32,
        NumberTerm::Int64 => FieldKind::Int64,
        NumberTerm::Index(_) => FieldKind::Index,
    }
}

/// What the kept numbers of a field mean.
pub fn kind_said(term: &TypeTerm) -> FieldKind
    ensures { result ≡ kind_said term.now }
{
    match term {
        TypeTerm::Number(number) => number_kind(*number),
        TypeTerm::Pointer(_) => FieldKind::Pointer,
        _ => FieldKind::Truth,
    }
}

fn field_code(alloc: Global, field: &Param) -> Result<FieldCode, AllocError>
    ensures { IfOk result (λ code. code ≡ field_code field.now) }
{
    Ok(FieldCode {
        name: copy_name(alloc, &field.name)?,
        kind: kind_said(&field.term),
    })
}

fn fields_code(alloc: Global, fields: &[Param]) -> Result<Sequence<FieldCode>, AllocError>
    ensures { IfOk result (λ codes. codes ≡ map field_code fields.now) }
{
    let mut codes = Sequence::new(alloc);
    for field in fields {
        codes.push(field_code(alloc, field)?)?;
    }
    Ok(codes)
}

fn space_code(alloc: Global, space: &FieldSpace) -> Result<SpaceCode, AllocError>
    ensures { IfOk result (λ code. code ≡ space_code space.now) }
{
    Ok(SpaceCode {
        name: copy_name(alloc, &space.name)?,
        fields: fields_code(alloc, space.fields.as_slice())?,
    })
}

/// The code of a program's field spaces, in the order of the text.
pub fn spaces_of_program(
    alloc: Global,
    program: &Program,
) -> Result<Sequence<SpaceCode>, AllocError>
    ensures { IfOk result (λ codes. codes ≡ map space_code (spaces_of (tree_of program.now))) }
{
    let mut codes = Sequence::new(alloc);
    for item in &program.items {
        if let ItemKind::Space(space) = &item.what {
            codes.push(space_code(alloc, space)?)?;
        }
    }
    Ok(codes)
}
