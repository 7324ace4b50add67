//! The body of a task, as far as its code stands.

ghost use Rattle.std.specs.Prelude.{◌≡◌, [], length, IfOk, OnOk};
ghost use Rattle.code_rules.specs.Emitted.{added, opened, put_in};

use plain_values::Sequence;
use std::alloc::{AllocError, Global};
use std::marker::Model;
use task_code::{Instr, Line};

/// Instructions with their lines, seen as the list of them.
#[derive(Drop)]
pub struct Body {
    lines: Sequence<Line>,
}

impl Model for Body {
    ghost use Rattle.std.specs.Prelude.{List};
    ghost use Rattle.task_code.specs.declared.code.Line.{Line};

    ghost Value = { List Line };

    ghost view = { λ b. b.lines };
}

impl Body {
    pub fn new(alloc: Global) -> Body
        ensures { result ≡ [] }
    {
        Body {
            lines: Sequence::new(alloc),
        }
    }

    /// One more instruction of a statement that begins on a line.
    pub fn add(&mut self, instr: Instr, line: u32) -> Result<(), AllocError>
        ensures { OnOk result (self.new ≡ added self.old instr line) }
    {
        self.lines.push(Line { instr, line })
    }

    /// The place of the next instruction. One that passes 32 bits counts as a want of memory.
    pub fn place(&self) -> Result<u32, AllocError>
        ensures { IfOk result (λ p. p ≡ length self.now) }
    {
        match u32::try_from(self.lines.len()) {
            Ok(place) => Ok(place),
            Err(_) => Err(AllocError),
        }
    }

    /// Keeps a place free, and tells which it is.
    pub fn open(&mut self, line: u32) -> Result<u32, AllocError>
        ensures place { IfOk result (λ p. p ≡ length self.old) }
        ensures body { OnOk result (self.new ≡ opened self.old line) }
    {
        let place = self.place()?;
        self.add(Instr::Jump(0), line)?;
        Ok(place)
    }

    /// Puts an instruction into a place.
    #[tactic(auto, using(crate::proofs::Placing::put_past))]
    pub fn put(&mut self, place: u32, instr: Instr, line: u32)
        ensures { self.new ≡ put_in self.old place instr line }
    {
        if (place as usize) < self.lines.len() {
            self.lines.set(place as usize, Line { instr, line });
        }
    }

    /// The whole body.
    pub fn finish(self) -> Sequence<Line>
        ensures { result ≡ self }
    {
        self.lines
    }
}
