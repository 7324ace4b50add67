//! Names, and types as they are written.

use plain_values::Sequence;

/// A name, as its bytes.
pub type Name = Sequence<u8>;

/// The kind of an index space: `int1d` is structured, `ptr` is not.
#[derive(Clone, Copy, Debug, PartialEq, Eq)]
pub enum Kind {
    Int1d,
    Ptr,
}

/// A region's name in a list of arguments, or `wild`.
#[derive(Debug, PartialEq, Eq, Drop)]
pub enum Ref {
    Named(Name),
    Wild,
}

/// A field space with its arguments.
#[derive(Debug, PartialEq, Eq, Drop)]
pub struct SpaceUse {
    pub name: Name,
    pub args: Sequence<Ref>,
}

/// A pointer type: the regions into which a pointer of this type may go.
#[derive(Debug, PartialEq, Eq, Drop)]
pub struct PointerTerm {
    pub kind: Kind,
    pub space: SpaceUse,
    pub regions: Sequence<Ref>,
}

/// A number type: what a conversion may convert to. `int` and `int32` are one type.
#[derive(Clone, Copy, Debug, PartialEq, Eq)]
pub enum NumberTerm {
    Int32,
    Int64,
    Index(Kind),
}

/// A type as it is written. `region(fs)` has the kind `ptr`.
#[derive(Debug, PartialEq, Eq, Drop)]
pub enum TypeTerm {
    Number(NumberTerm),
    Truth,
    Pointer(PointerTerm),
    Ispace(Kind),
    Region {
        kind: Kind,
        space: SpaceUse,
    },
    Partition {
        disjoint: bool,
        region: Name,
        colours: Option<Name>,
    },
}

/// A parameter of a task or a field space, or a field; `line` is that of its name.
#[derive(Debug, PartialEq, Eq, Drop)]
pub struct Param {
    pub line: u32,
    pub name: Name,
    pub term: TypeTerm,
}
