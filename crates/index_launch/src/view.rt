//! What is looked at of a loop, and what is told of it.

use lane_kernels::Mode;
use plain_values::Sequence;

/// The form of an argument of the loop's call.
#[derive(Clone, Copy, Debug, PartialEq, Eq)]
pub enum ArgKind {
    /// The child of a partition by the loop's variable. Partitions are told apart by their numbers, and
    /// `disjoint` is the partition's flag.
    Child { partition: u32, disjoint: bool },
    /// A literal, or a name that is bound outside of the loop.
    Fixed,
    /// The loop's variable, or a conversion of it.
    Point,
    /// None of these forms.
    Other,
}

/// An argument: its form, the field space of its region, and how the called task uses which fields of it.
/// An argument that is no region has no uses, whatever its space.
#[derive(Debug, Drop)]
pub struct ArgView {
    pub kind: ArgKind,
    pub space: u32,
    pub uses: Sequence<(u8, Mode)>,
}

/// A `for` loop.
#[derive(Debug, Drop)]
pub struct LoopView {
    /// Whether it is over an index space.
    pub over_space: bool,
    /// Whether its body is one call, whose result isn't used.
    pub one_call: bool,
    pub args: Sequence<ArgView>,
    /// The pairs of arguments, by their places, whose regions are known to share no point. The region of a
    /// child is its partition's parent here, since arguments are looked at across different colours.
    pub apart: Sequence<(u32, u32)>,
}

/// Why the calls of a loop can't be issued in one step. Arguments are named by their places from 0.
#[derive(Clone, Copy, Debug, PartialEq, Eq)]
pub enum Reason {
    NotOverSpace,
    NotOneCall,
    /// The argument has none of the forms.
    Argument(u32),
    /// The two arguments, or the one with itself, interfere across different colours.
    Interferes(u32, u32),
}

/// Whether a loop is an index launch, or a plain loop for a reason.
#[derive(Clone, Copy, Debug, PartialEq, Eq)]
pub enum LaunchShape {
    Launch,
    Plain(Reason),
}
