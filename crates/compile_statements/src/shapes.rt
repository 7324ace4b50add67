//! The shapes of a program's loops, taken one by one.

ghost use Rattle.std.specs.Prelude.{◌≡◌, drop};
ghost use Rattle.compile_statements.specs.Shaped.{first_is_launch};

use check_rules::LoopShape;
use index_launch::LaunchShape;
use std::marker::Model;

/// The shapes of the loops that are still to come in the text, seen as the list of them.
#[derive(Drop)]
pub struct Shapes<'a> {
    rest: &'a [LoopShape],
}

impl<'a> Model for Shapes<'a> {
    ghost use Rattle.std.specs.Prelude.{List};
    ghost use Rattle.check_rules.specs.declared.loop_shape.LoopShape.{LoopShape};

    ghost Value = { List LoopShape };

    ghost view = { λ s. s.rest.now };
}

impl<'a> Shapes<'a> {
    pub fn new(all: &'a [LoopShape]) -> Shapes<'a>
        ensures { result ≡ all.now }
    {
        Shapes { rest: all }
    }

    /// Takes the shape of the next loop, and tells whether it is a launch. A loop that has none isn't one.
    pub fn next_is_launch(&mut self) -> bool
        ensures first { result ≡ first_is_launch self.old }
        ensures rest { self.new ≡ drop 1 self.old }
    {
        match self.rest {
            [next, rest @ ..] => {
                let launches = matches!(next.shape, LaunchShape::Launch);
                self.rest = rest;
                launches
            }
            [] => false,
        }
    }
}
