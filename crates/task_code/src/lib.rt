//! The code that programs are compiled to, and jobs: code with the numbers and the turns of a run.
#![tactic(auto)]

mod code;
mod instr;
mod job;

pub use code::{Code, FieldCode, Line, NeedCode, SpaceCode, TaskCode};
pub use instr::{Instr, PrintPart};
pub use job::Job;
