//! The line of a fault.

ghost use Rattle.std.specs.Prelude.{◌≡◌, IfOk};
ghost use Rattle.run_report.specs.FaultLines.{fault_text, name_of};

use regent_tree::{Fault, FaultKind};
use std::alloc::{AllocError, Global};

fn name_of(kind: FaultKind) -> &'static str
    ensures { result.now ≡ name_of kind }
{
    match kind {
        FaultKind::DivideByZero => "DivideByZero",
        FaultKind::OutOfRegion => "OutOfRegion",
        FaultKind::NullPointer => "NullPointer",
        FaultKind::BadColor => "BadColor",
        FaultKind::AssertFailed => "AssertFailed",
        FaultKind::Turns => "Turns",
        FaultKind::Depth => "Depth",
        FaultKind::BadSize => "BadSize",
    }
}

/// The line that reports a fault.
pub fn fault_text(alloc: Global, fault: &Fault) -> Result<Vec<u8>, AllocError>
    ensures { IfOk result (λ text. text.items ≡ fault_text fault.now) }
{
    let name = name_of(fault.kind);
    let line = fault.line;
    let text = format!(in alloc; "fault: {name} at line {line}\n")?;
    Ok(text.into_bytes())
}
