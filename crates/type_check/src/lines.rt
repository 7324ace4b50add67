//! What is told of a statement is told on its line.

ghost use Rattle.std.specs.Prelude.{◌≡◌};
ghost use Rattle.type_check.specs.Lines.{on_line};

use check_items::{Halt, halt_on};
use static_types::Stop;

/// What is told, on a line.
pub fn on_line<T>(line: u32, told: Result<T, Stop>) -> Result<T, Halt>
    ensures { result ≡ on_line line told }
{
    match told {
        Ok(found) => Ok(found),
        Err(stop) => Err(halt_on(line, stop)),
    }
}
