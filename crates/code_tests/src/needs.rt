//! Each public call with memory at hand. What is expected is worked out by hand.

use compile_tables::{declared_needs, parts_of, spaces_of_program, used_slots};
use lane_kernels::{FieldKind, Mode, Op};
use plain_values::Sequence;
use program_tables::Tables;
use regent_tree::{
    Clause, FieldSpace, Grant, Item, ItemKind, Kind, Name, NumberTerm, Param, Place, Program,
    SpaceUse, Task, TypeTerm,
};
use std::alloc::{AllocError, Global};
use std::test::Fail;
use task_code::{FieldCode, Instr, Line, NeedCode, PrintPart, SpaceCode};

fn name(alloc: Global, byte: u8) -> Result<Name, AllocError> {
    Sequence::from_slice(alloc, &[byte])
}

fn param(alloc: Global, byte: u8, term: TypeTerm) -> Result<Param, AllocError> {
    Ok(Param {
        line: 1,
        name: name(alloc, byte)?,
        term,
    })
}

/// The field space s with the 32-bit field f and the truth g.
fn space(alloc: Global) -> Result<FieldSpace, AllocError> {
    let number = param(alloc, b'f', TypeTerm::Number(NumberTerm::Int32))?;
    let truth = param(alloc, b'g', TypeTerm::Truth)?;
    let fields = Sequence::from_vec(vec![in alloc; number, truth]?);
    Ok(FieldSpace {
        name: name(alloc, b's')?,
        params: Sequence::new(alloc),
        fields,
    })
}

/// A clause that grants these fields of r, or all.
fn clause(
    alloc: Global,
    grant: Grant,
    fields: Option<Sequence<Name>>,
) -> Result<Clause, AllocError> {
    let region = name(alloc, b'r')?;
    let places = Sequence::from_vec(vec![in alloc; Place { region, fields }]?);
    Ok(Clause::Grants {
        grants: Sequence::from_slice(alloc, &[grant])?,
        places,
    })
}

/// `where reads(r.g), reduces +(r)`
fn clauses(alloc: Global) -> Result<Sequence<Clause>, AllocError> {
    let truth = name(alloc, b'g')?;
    let only = Sequence::from_vec(vec![in alloc; truth]?);
    let reads = clause(alloc, Grant::Reads, Some(only))?;
    let reduces = clause(alloc, Grant::Reduces(Op::Sum), None)?;
    Ok(Sequence::from_vec(vec![in alloc; reads, reduces]?))
}

/// The number x and the region r.
fn params(alloc: Global) -> Result<Sequence<Param>, AllocError> {
    let number = param(alloc, b'x', TypeTerm::Number(NumberTerm::Int64))?;
    let space = SpaceUse {
        name: name(alloc, b's')?,
        args: Sequence::new(alloc),
    };
    let kind = Kind::Ptr;
    let region = param(alloc, b'r', TypeTerm::Region { kind, space })?;
    Ok(Sequence::from_vec(vec![in alloc; number, region]?))
}

/// The task t of them.
fn task(alloc: Global) -> Result<Task, AllocError> {
    let name = name(alloc, b't')?;
    let params = params(alloc)?;
    let clauses = clauses(alloc)?;
    Ok(Task {
        name,
        params,
        result: None,
        clauses,
        body: Vec::new(alloc),
    })
}

fn program(alloc: Global) -> Result<Program, AllocError> {
    let task = Item {
        line: 1,
        what: ItemKind::Task(task(alloc)?),
    };
    let space = Item {
        line: 1,
        what: ItemKind::Space(space(alloc)?),
    };
    Ok(Program {
        items: vec![in alloc; task, space]?,
    })
}

fn need(field: u8, mode: Mode) -> NeedCode {
    NeedCode {
        param: 1,
        field,
        mode,
    }
}

/// Whether a task of the program has its needs.
fn has_needs(alloc: Global, program: &Program, task: &Task) -> Result<bool, AllocError> {
    let tables = Tables::new(alloc, program)?;
    let needs = declared_needs(alloc, &tables, task)?;
    let expected = [
        need(1, Mode::Read),
        need(0, Mode::Reduce(Op::Sum)),
        need(1, Mode::Reduce(Op::Sum)),
    ];
    Ok(needs.as_slice() == expected.as_slice())
}

fn needs_are_told(alloc: Global) -> Result<bool, AllocError> {
    let task = task(alloc)?;
    let program = program(alloc)?;
    has_needs(alloc, &program, &task)
}

fn is_field(field: &FieldCode, byte: u8, kind: FieldKind) -> bool {
    field.name.as_slice() == [byte].as_slice() && field.kind == kind
}

/// Whether this is the code of the field space s.
fn is_space(code: &SpaceCode) -> bool {
    let has_fields = match code.fields.as_slice() {
        [number, truth] => {
            is_field(number, b'f', FieldKind::Int32) && is_field(truth, b'g', FieldKind::Truth)
        }
        _ => false,
    };
    has_fields && code.name.as_slice() == b"s".as_slice()
}

fn spaces_are_told(alloc: Global) -> Result<bool, AllocError> {
    let program = program(alloc)?;
    let spaces = spaces_of_program(alloc, &program)?;
    Ok(match spaces.as_slice() {
        [space] => is_space(space),
        _ => false,
    })
}

fn parts_are_told(alloc: Global) -> Result<bool, AllocError> {
    let parts = parts_of(alloc, b"5%%%lld%d!")?;
    Ok(match parts.as_slice() {
        [
            PrintPart::Text(first),
            PrintPart::Number,
            PrintPart::Number,
            PrintPart::Text(last),
        ] => first.as_slice() == b"5%".as_slice() && last.as_slice() == b"!".as_slice(),
        _ => false,
    })
}

fn line(instr: Instr) -> Line {
    Line { instr, line: 1 }
}

fn slots_are_counted(alloc: Global) -> Result<bool, AllocError> {
    let regions = Sequence::from_slice(alloc, &[3, 1])?;
    let body = vec![in alloc;
        line(Instr::Load(2)),
        line(Instr::Read(regions, 9)),
        line(Instr::NextNumber(5, 7, 6, 90)),
        line(Instr::Jump(80)),
    ]?;
    Ok(used_slots(0, &body)? == 8 && used_slots(9, &body)? == 9)
}

#[test]
fn tables_are_made_with_memory_at_hand(rt: HostRuntime) -> Result<(), Fail> {
    let alloc = rt.alloc();
    let told = [
        needs_are_told(alloc)?,
        spaces_are_told(alloc)?,
        parts_are_told(alloc)?,
        slots_are_counted(alloc)?,
    ];
    assert_eq!(rt; told, [true; 4]);
    Ok(())
}
