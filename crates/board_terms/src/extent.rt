//! Extents of roots.

/// Of a root its field space, by its place in the code, and how many points it has.
#[derive(Clone, Copy, Debug, PartialEq, Eq)]
pub struct Extent {
    pub space: u32,
    pub count: u32,
}
