//! Programs that are accepted.

ghost use Rattle.std.specs.Prelude.{◌≡◌, IfNone, IfSome, None, Some, []};
ghost use Rattle.regent_tree.specs.PlainProgram.{tree_of};
ghost use Rattle.check_rules.specs.Acceptance.{IsAccepted, input_widths};
ghost use Rattle.check_rules.specs.Breaches.{breaches};
ghost use Rattle.check_rules.specs.launches.Shapes.{loops, nth_on, shape_on};

use crate::loop_shape::LoopShape;
use index_launch::LaunchShape;
use lane_kernels::Width;
use plain_values::Sequence;
use regent_tree::Program;
use std::marker::Model;

/// A program that is within the limits and keeps the rules, seen as the program.
#[derive(Drop)]
pub struct Accepted {
    program: Program,
    inputs: Vec<Width>,
    loops: Sequence<LoopShape>,
}

impl Model for Accepted {
    ghost use Rattle.regent_tree.specs.declared.program.Program.{Program};
    ghost use Rattle.regent_tree.specs.contracts.program.Program as program_type;
    ghost use Rattle.regent_tree.specs.PlainProgram.{tree_of};
    ghost use Rattle.check_rules.specs.Acceptance.{IsAccepted};

    ghost Value = { Program };

    ghost coded = { program_type.the_row.coded };

    ghost view = { λ a. a.program };

    ghost invariant = { λ a. IsAccepted (tree_of a.program) a.inputs.items a.loops };
}

impl Accepted {
    /// A program of which it is known that it is within the limits and keeps the rules, with the
    /// widths of its inputs and the shapes of its loops.
    pub fn new(program: Program, inputs: Vec<Width>, loops: Sequence<LoopShape>) -> Accepted
        requires { IsAccepted (tree_of program) inputs.items loops }
        ensures { result ≡ program }
    {
        Accepted {
            program,
            inputs,
            loops,
        }
    }

    /// The program.
    pub fn program(&self) -> &Program
        ensures { result.now ≡ self.now }
    {
        &self.program
    }

    /// The widths of the numbers that the entry task takes, in the order of its parameters.
    pub fn inputs(&self) -> &[Width]
        ensures { result.now ≡ input_widths (tree_of self.now) }
    {
        self.inputs.as_slice()
    }

    /// The shapes of all loops, in the order of the text, of a program that keeps the rules.
    pub fn loops(&self) -> &[LoopShape]
        ensures all { result.now ≡ loops (tree_of self.now) }
        ensures sound { breaches (tree_of self.now) ≡ [] }
    {
        self.loops.as_slice()
    }

    /// The shape of a loop: of the nth `for` that begins on a line, counted from 0 in the order of the text.
    pub fn shape(&self, line: u32, nth: u32) -> Option<&LaunchShape>
        ensures some { IfSome result (λ s. shape_on (tree_of self.now) line nth ≡ Some s.now) }
        ensures none { IfNone result (shape_on (tree_of self.now) line nth ≡ None) }
    {
        nth_on(self.loops.as_slice(), line, nth)
    }
}

/// The shape of the nth of these loops that begins on a line.
fn nth_on(loops: &[LoopShape], line: u32, nth: u32) -> Option<&LaunchShape>
    ensures some { IfSome result (λ s. nth_on loops.now line nth ≡ Some s.now) }
    ensures none { IfNone result (nth_on loops.now line nth ≡ None) }
{
    let mut before = nth;
    for one in loops {
        if one.line == line {
            if before == 0 {
                return Some(&one.shape);
            }
            before -= 1;
        }
    }
    None
}
