//! What is counted in a program.

/// What a program has a limited number of: tasks, field spaces, the fields of one field space, the
/// parameters of one task or field space, and the regions of one pointer type.
#[derive(Clone, Copy, Debug, PartialEq, Eq)]
pub enum Counted {
    Tasks,
    Spaces,
    Fields,
    Parameters,
    Regions,
}

/// Something counted of which there are more than its limit, and how many there are.
#[derive(Clone, Copy, Debug, PartialEq, Eq)]
pub struct Excess {
    pub what: Counted,
    pub count: usize,
}
