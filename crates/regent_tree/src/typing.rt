//! Static types, and the names in scope.

use crate::facts::Term;
use crate::types::{Kind, Name};
use lane_kernels::Width;
use plain_values::Sequence;

/// A region that a type names, or None for `wild`.
pub type Reach = Option<Term>;

/// The type that an expression has wherever it is evaluated. A field space is named by its place
/// among the program's, a partition and its parent by the numbers of their bindings.
#[derive(Debug, PartialEq, Eq, Drop)]
pub enum StaticType {
    Integer(Width),
    Truth,
    Index(Kind),
    /// A pointer into one of the `regions`, which are of this field space with these arguments.
    Pointer {
        kind: Kind,
        space: u32,
        args: Sequence<Reach>,
        regions: Sequence<Reach>,
    },
    Ispace(Kind),
    /// The region that a term names.
    Region {
        kind: Kind,
        space: u32,
        args: Sequence<Reach>,
        term: Term,
    },
    Partition {
        disjoint: bool,
        parent: u32,
        own: u32,
    },
    /// What a call of a task without a result has.
    Nothing,
    /// What a breach of the rules leaves without a type.
    Unknown,
}

/// A name that is bound. Its number is that of the binding, which is never used again within the
/// task; its place is where its value stands among those of the names in scope.
#[derive(Debug, PartialEq, Eq, Drop)]
pub struct Bound {
    pub name: Name,
    pub number: u32,
    pub place: u32,
    pub static_type: StaticType,
    pub by_loop: bool,
}
