//! The syntax tree of a program, and what programs mean.
//!
//! The tree is what the reader gives and the checker and the compiler take. The definitions under
//! specs/ say what a tree means as a plain tree without memory, and what running that tree prints
//! and leaves in its regions: a sequential interpreter (Regent's sequential semantics, SC 2015).
#![tactic(auto)]

mod expression;
mod facts;
pub mod invariants;
mod limits;
mod outcome;
mod program;
mod rights;
mod statement;
mod types;
mod typing;

pub use expression::{Arithmetic, Comparison, Expr, Link, Operator, Sign, Step};
pub use facts::{Colour, Known, Term};
pub use lane_kernels::{FieldKind, Mode, Op, Width};
pub use limits::{Counted, Excess};
pub use outcome::{Ending, Fault, FaultKind, Outcome, RootImage};
pub use plain_values::{Sequence, Shared};
pub use program::{Clause, FieldSpace, Grant, Item, ItemKind, Place, Program, Task};
pub use rights::{Access, Right, Wanted};
pub use statement::{Arm, How, Init, Stmt, What};
pub use types::{Kind, Name, NumberTerm, Param, PointerTerm, Ref, SpaceUse, TypeTerm};
pub use typing::{Bound, Reach, StaticType};
