//! Texts of runs, computed by hand or taken from programs whose outcome is known.

use lane_kernels::FieldKind;
use plain_values::Sequence;
use regent_tree::{Ending, Fault, FaultKind, Outcome, RootImage};
use run_report::{dump_text, fault_text, fits_spaces};
use std::alloc::{AllocError, Global};
use std::process::Abort;
use std::test::Fail;
use task_code::{Code, FieldCode, SpaceCode};

/// Each field with its field space, that of the fields before it or the next one.
static FIELDS: [(&str, &str, FieldKind); 10] = [
    ("f", "x", FieldKind::Int64),
    ("node", "c", FieldKind::Int64),
    ("node", "q", FieldKind::Int64),
    ("wire", "a", FieldKind::Pointer),
    ("wire", "b", FieldKind::Pointer),
    ("wire", "i", FieldKind::Int64),
    ("mixed", "n", FieldKind::Int32),
    ("mixed", "is_set", FieldKind::Truth),
    ("mixed", "at", FieldKind::Index),
    ("mixed", "to", FieldKind::Pointer),
];

/// Roots, each by its field space, its points and the numbers of its fields, and their dump.
static DUMPS: [(&[(u32, u32, &[&[i64]])], &str); 4] = [
    (&[], ""),
    (
        &[(0, 1, &[&[i64::MIN]])],
        "region 0 f 1\nx -9223372036854775808\n",
    ),
    (
        &[
            (1, 4, &[&[0, 10, 20, 30], &[40, 0, 0, -40]]),
            (
                2,
                4,
                &[
                    &[4294967296, 4294967297, 4294967298, 4294967299],
                    &[4294967297, 4294967298, 4294967299, 4294967296],
                    &[-10, -10, -10, 30],
                ],
            ),
        ],
        "region 0 node 4\nc 0 10 20 30\nq 40 0 0 -40\nregion 1 wire 4\na 0@1 1@1 2@1 3@1\nb 1@1 2@1 3@1 0@1\ni -10 -10 -10 30\n",
    ),
    (
        &[
            (3, 0, &[&[], &[], &[], &[]]),
            (
                3,
                3,
                &[
                    &[-1, 0, 7],
                    &[0, 1, 0],
                    &[0, -5, 4194303],
                    &[-1, 6, 17184063487],
                ],
            ),
        ],
        "region 0 mixed 0\nn\nis_set\nat\nto\nregion 1 mixed 3\nn -1 0 7\nis_set false true false\nat 0 -5 4194303\nto null 6@0 4194303@4\n",
    ),
];

static FAULTS: [(FaultKind, u32, &str); 8] = [
    (
        FaultKind::DivideByZero,
        6,
        "fault: DivideByZero at line 6\n",
    ),
    (FaultKind::OutOfRegion, 8, "fault: OutOfRegion at line 8\n"),
    (FaultKind::NullPointer, 8, "fault: NullPointer at line 8\n"),
    (FaultKind::BadColor, 5, "fault: BadColor at line 5\n"),
    (
        FaultKind::AssertFailed,
        4294967295,
        "fault: AssertFailed at line 4294967295\n",
    ),
    (FaultKind::Turns, 2, "fault: Turns at line 2\n"),
    (FaultKind::Depth, 3, "fault: Depth at line 3\n"),
    (FaultKind::BadSize, 10, "fault: BadSize at line 10\n"),
];

fn name_of(alloc: Global, name: &str) -> Result<Sequence<u8>, AllocError> {
    Sequence::from_slice(alloc, name.as_bytes())
}

/// The fields of a field space.
fn fields_of(alloc: Global, space: &str) -> Result<Sequence<FieldCode>, AllocError> {
    let mut fields = Sequence::new(alloc);
    for (owner, name, kind) in &FIELDS {
        if *owner == space {
            let name = name_of(alloc, name)?;
            fields.push(FieldCode { name, kind: *kind })?;
        }
    }
    Ok(fields)
}

/// The code of these field spaces, without a task.
fn code(alloc: Global) -> Result<Code, AllocError> {
    let mut spaces = Sequence::new(alloc);
    for space in ["f", "node", "wire", "mixed"] {
        let fields = fields_of(alloc, space)?;
        let name = name_of(alloc, space)?;
        spaces.push(SpaceCode { name, fields })?;
    }
    Ok(Code {
        tasks: Sequence::new(alloc),
        spaces,
        start: 0,
    })
}

/// What a root holds.
fn root_of(
    alloc: Global,
    space: u32,
    count: u32,
    columns: &[&[i64]],
) -> Result<RootImage, AllocError> {
    let mut fields = Sequence::new(alloc);
    for numbers in columns {
        fields.push(Sequence::from_slice(alloc, numbers)?)?;
    }
    Ok(RootImage {
        space,
        count,
        fields,
    })
}

/// An outcome that ends so, and whose text plays no part.
fn ended(alloc: Global, ending: Ending) -> Result<Outcome, AllocError> {
    Ok(Outcome {
        text: name_of(alloc, "printed")?,
        ending,
    })
}

fn finished(alloc: Global, roots: &[(u32, u32, &[&[i64]])]) -> Result<Outcome, AllocError> {
    let mut images = Sequence::new(alloc);
    for (space, count, columns) in roots {
        images.push(root_of(alloc, *space, *count, columns)?)?;
    }
    ended(alloc, Ending::Finished(images))
}

/// The dump of an outcome that fits; another has none.
fn dump_of(alloc: Global, code: &Code, outcome: &Outcome) -> Result<Option<Vec<u8>>, AllocError> {
    if fits_spaces(code, outcome) {
        Ok(Some(dump_text(alloc, code, outcome)?))
    } else {
        Ok(None)
    }
}

fn is_text(text: &Option<Vec<u8>>, wanted: &str) -> bool {
    match text {
        Some(text) => text.as_slice() == wanted.as_bytes(),
        None => false,
    }
}

#[test]
fn each_row_has_its_dump(rt: HostRuntime) -> Result<(), Fail> {
    let alloc = rt.alloc();
    let code = code(alloc)?;
    for (roots, wanted) in &DUMPS {
        let outcome = finished(alloc, roots)?;
        let text = dump_of(alloc, &code, &outcome)?;
        assert!(&rt; is_text(&text, wanted), "{wanted}");
    }
    Ok(())
}

#[test]
fn each_fault_has_its_line(rt: HostRuntime) -> Result<(), Fail> {
    let alloc = rt.alloc();
    for (kind, line, wanted) in &FAULTS {
        let fault = Fault {
            kind: *kind,
            line: *line,
        };
        let text = fault_text(alloc, &fault)?;
        assert_eq!(&rt; text.as_slice(), wanted.as_bytes());
    }
    Ok(())
}

/// A run that didn't finish has no roots to show.
#[test]
fn no_dump_behind_a_fault(rt: HostRuntime) -> Result<(), Fail> {
    let alloc = rt.alloc();
    let code = code(alloc)?;
    let fault = Fault {
        kind: FaultKind::Turns,
        line: 2,
    };
    let outcome = ended(alloc, Ending::Faulted(fault))?;
    let text = dump_of(alloc, &code, &outcome)?;
    assert!(&rt; is_text(&text, ""));
    Ok(())
}
