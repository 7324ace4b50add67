//! The calls that a launch issues.

ghost use Rattle.std.specs.Prelude.{◌≡◌, IfOk, map};
ghost use Rattle.plain_values.specs.Points.{points};
ghost use Rattle.index_launch.specs.Points.{at_colour, call_at, calls_of};

use std::alloc::{AllocError, Global};

/// An argument of a launch. Partitions, and arguments that are kept, are named by their slots.
#[derive(Clone, Copy, Debug, PartialEq, Eq)]
pub enum LaunchArg {
    /// The child of a partition, at the call's colour.
    Child(u32),
    /// What a slot holds.
    Keep(u32),
    /// A literal.
    Number(i64),
    /// The call's colour itself.
    Point,
}

/// An argument of one call of a launch.
#[derive(Clone, Copy, Debug, PartialEq, Eq)]
pub enum PointArg {
    Child { slot: u32, colour: u32 },
    Keep(u32),
    Number(i64),
}

/// The arguments of each call, colour by colour, as the loop would pass them.
pub fn points_of(
    alloc: Global,
    colours: u32,
    args: &[LaunchArg],
) -> Result<Vec<Vec<PointArg>>, AllocError>
    ensures { IfOk result (λ calls. map (λ call. call.items) calls.items ≡ calls_of colours args.now) }
{
    let mut calls = Vec::with_capacity(alloc, colours as usize)?;
    for colour in 0..colours {
        calls.push(call_at(alloc, colour, args)?)?;
    }
    Ok(calls)
}

fn call_at(alloc: Global, colour: u32, args: &[LaunchArg]) -> Result<Vec<PointArg>, AllocError>
    ensures { IfOk result (λ call. call.items ≡ call_at args.now colour) }
{
    let mut call = Vec::with_capacity(alloc, args.len())?;
    for arg in args {
        call.push(arg.at(colour))?;
    }
    Ok(call)
}

impl LaunchArg {
    /// The argument of the call at a colour.
    fn at(self, colour: u32) -> PointArg
        ensures { result ≡ at_colour colour self }
    {
        match self {
            LaunchArg::Child(slot) => PointArg::Child { slot, colour },
            LaunchArg::Keep(slot) => PointArg::Keep(slot),
            LaunchArg::Number(number) => PointArg::Number(number),
            LaunchArg::Point => PointArg::Number(i64::from(colour)),
        }
    }
}
