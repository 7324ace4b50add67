//! Region terms, and what is known of regions (region trees, OOPSLA 2013).

/// The colour of a child as it is written: a number, a loop variable by the number of its binding,
/// or anything else.
#[derive(Clone, Copy, Debug, PartialEq, Eq)]
pub enum Colour {
    Constant(i64),
    Loop(u32),
    Unknown,
}

/// A region as it is written: a name, or a child of a partition. Names are the numbers of their
/// bindings, which rise in the order of binding.
#[derive(Clone, Copy, Debug, PartialEq, Eq)]
pub enum Term {
    Name(u32),
    Child { partition: u32, colour: Colour },
}

/// What is known: one region lies within another, two share no point, a partition has a parent, or
/// a region was made at its binding.
#[derive(Clone, Copy, Debug, PartialEq, Eq)]
pub enum Known {
    Within(Term, Term),
    Apart(Term, Term),
    PartOf {
        partition: u32,
        parent: u32,
        disjoint: bool,
    },
    Made(u32),
}
