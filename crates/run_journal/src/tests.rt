//! Journals that are written and read, and lines that aren't of journals.

use crate::{Entry, JournalFault, StepKind, journal_read, journal_text};
use region_tree::OpNumber;
use std::alloc::AllocError;

fn entry(kind: StepKind, op: u64, seat: u16) -> Entry {
    let op = OpNumber(op);
    Entry { kind, op, seat }
}

#[test]
fn lines_are_written_and_read(rt: HostRuntime) -> Result<(), AllocError> {
    let alloc = rt.alloc();
    let rows: [(Entry, &str); 4] = [
        (entry(StepKind::Claim, 0, 0), "claim 0 by 0\n"),
        (entry(StepKind::Copy, 10, 7), "copy 10 by 7\n"),
        (
            entry(StepKind::Give, u64::MAX, 65_535),
            "give 18446744073709551615 by 65535\n",
        ),
        (entry(StepKind::Back, 4_097, 63), "back 4097 by 63\n"),
    ];
    for (entry, line) in rows {
        let text = journal_text(alloc, &[entry])?;
        assert_eq!(rt; text.as_slice(), line.as_bytes(), "written: {line}");
        let read = journal_read(alloc, line.as_bytes());
        assert!(rt;
            matches!(&read, Ok(journal) if journal.as_slice() == [entry].as_slice()),
            "read: {line}"
        );
    }
    Ok(())
}

#[test]
fn whole_journals(rt: HostRuntime) -> Result<(), AllocError> {
    let alloc = rt.alloc();
    let journal = [
        entry(StepKind::Claim, 0, 0),
        entry(StepKind::Copy, 0, 0),
        entry(StepKind::Give, 0, 0),
    ];
    let text = journal_text(alloc, &journal)?;
    assert_eq!(rt;
        text.as_slice(),
        b"claim 0 by 0\ncopy 0 by 0\ngive 0 by 0\n".as_slice(),
        "three lines"
    );
    let read = journal_read(alloc, text.as_slice());
    assert!(rt;
        matches!(&read, Ok(read) if read.as_slice() == journal.as_slice()),
        "read back"
    );
    assert!(rt;
        matches!(journal_read(alloc, b""), Ok(read) if read.is_empty()),
        "no line"
    );
    assert!(rt; journal_text(alloc, &[])?.is_empty(), "no entry");
    Ok(())
}

/// The number of the line that is refused, or 0.
fn bad_line(read: Result<Vec<Entry>, JournalFault>) -> u64 {
    match read {
        Err(JournalFault::BadLine { line }) => line,
        _ => 0,
    }
}

#[test]
fn bad_lines(rt: HostRuntime) {
    let rows: [(&str, u64); 16] = [
        ("claim x\n", 1),
        ("claim 0 by 0", 1),
        ("claim 0 by 0\n\n", 2),
        ("\n", 1),
        ("Claim 0 by 0\n", 1),
        ("claim  0 by 0\n", 1),
        ("claim 00 by 0\n", 1),
        ("claim 0 by 01\n", 1),
        ("claim +1 by 0\n", 1),
        ("claim 18446744073709551616 by 0\n", 1),
        ("claim 0 by 65536\n", 1),
        ("claim 0 by 0 \n", 1),
        ("claim 0 by 0\r\n", 1),
        ("claim by 0\n", 1),
        ("back 1 by 2\ngive 3 by 4\ncopy 5 by\n", 3),
        ("copy 1 by 2\ncopy 1 by 2 copy 1 by 2\n", 2),
    ];
    for (text, want) in rows {
        let line = bad_line(journal_read(rt.alloc(), text.as_bytes()));
        assert_eq!(rt; line, want, "{text}");
    }
}
