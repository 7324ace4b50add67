//! The checker: whether a program keeps the rules.
#![tactic(auto)]

ghost use Rattle.std.specs.Prelude.{◌≡◌, [], IfErr, IfOk};
ghost use Rattle.regent_tree.specs.Limits.{WithinLimits};
ghost use Rattle.regent_tree.specs.PlainProgram.{tree_of};
ghost use Rattle.check_rules.specs.Acceptance.{input_widths};
ghost use Rattle.check_rules.specs.Breaches.{breaches};
ghost use Rattle.check_rules.specs.first.FirstInItems.{first_breach};
ghost use Rattle.check_rules.specs.launches.Shapes.{loops};
ghost use Rattle.check_items.specs.Halting.{TellsAt};
ghost use Rattle.type_check.specs.Items.{first_in_items};
ghost use Rattle.type_check.specs.Refusals.{Refuses};

mod bodies;
mod check_fault;
mod lines;
mod loops;
mod statements;

use bodies::check_bodies;
use check_expressions::Declared;
pub use check_fault::CheckFault;
use check_items::{Halt, check_declarations, check_entry, check_names, input_widths};
pub use check_rules::Accepted;
use check_rules::LoopShape;
use lane_kernels::Width;
use plain_values::Sequence;
use program_tables::Tables;
use regent_tree::Program;
use std::alloc::Global;

/// The first breach in what the whole text shares, or the widths of its inputs: names that are given
/// twice, the entry task, and what the items declare.
fn items_checked(alloc: Global, tables: &Tables) -> Result<Vec<Width>, Halt>
    ensures { TellsAt (λ ws. ws.items ≡ input_widths (tree_of tables.now)) result
        (first_in_items (tree_of tables.now)) }
{
    check_names(alloc, tables.program())?;
    check_entry(alloc, tables)?;
    check_declarations(alloc, tables)?;
    Ok(input_widths(alloc, tables)?)
}

/// What is found in a program: the widths of its inputs, and the shapes of its loops.
#[derive(Drop)]
struct Findings {
    inputs: Vec<Width>,
    loops: Sequence<LoopShape>,
}

/// The first breach of a program, or what is found in it: the items, and then the bodies of the
/// tasks.
#[tactic(auto, using(check_rules::proofs::Written::all_is_sound))]
fn checked(alloc: Global, program: &Program) -> Result<Findings, Halt>
    ensures { TellsAt (λ found. (found.inputs.items ≡ input_widths (tree_of program.now)) × (found.loops ≡ loops (tree_of program.now))) result
        (first_breach (tree_of program.now)) }
{
    let tables = Tables::new(alloc, program)?;
    let inputs = items_checked(alloc, &tables)?;
    let declared = Declared::new(tables);
    let loops = check_bodies(alloc, &declared)?;
    Ok(Findings { inputs, loops })
}

/// Whether a program keeps the rules.
///
/// It is gone through once, up to the first breach. A breach is told by its rule's number and the line
/// of the statement, parameter or item in which it stands, and the program comes back with it. Where
/// memory ran out the program is dropped.
#[tactic(auto, using(check_rules::proofs::FirstInItems::first_is_one, check_rules::proofs::FirstInItems::none_without_first))]
pub fn check(alloc: Global, program: Program) -> Result<Accepted, CheckFault>
    requires { WithinLimits (tree_of program) }
    ensures same { IfOk result (λ accepted. accepted ≡ program) }
    // A program is accepted exactly where it has no breach, unless memory ran out.
    ensures accepted { IfOk result (λ _. breaches (tree_of program) ≡ []) }
    ensures refused { IfErr result (Refuses program) }
{
    match checked(alloc, &program) {
        Ok(found) => Ok(Accepted::new(program, found.inputs, found.loops)),
        Err(Halt::Breach { rule, line }) => Err(CheckFault::Refused {
            program,
            rule: rule.number(),
            line,
        }),
        Err(Halt::Memory(error)) => Err(CheckFault::Memory(error)),
    }
}
