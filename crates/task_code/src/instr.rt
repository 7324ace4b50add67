//! Instructions.

use index_launch::LaunchArg;
use lane_kernels::{Op, Width};
use plain_values::Sequence;

/// A part of what is printed.
#[derive(Debug, PartialEq, Eq, Drop)]
pub enum PrintPart {
    /// These bytes.
    Text(Sequence<u8>),
    /// The next of the numbers that the instruction pops, in decimal.
    Number,
}

/// An instruction of a task's body.
///
/// A task instance has slots, named by their numbers from 0, and a stack of values. A place is that of
/// an instruction in the body, from 0. A pointer is kept as one number, -1 for null and else 2^32 times
/// its position plus its point; where an instruction looks a position up, it has a list of slots that
/// hold regions, that of position 1 first. A truth is 1 or 0. Where two operands are popped, the right
/// one is popped first.
#[derive(PartialEq, Eq, Drop)]
pub enum Instr {
    /// Pushes a number.
    Num(i64),
    /// Pushes the value of a slot; a child that is pending there is awaited first.
    Load(u32),
    /// Pops into a slot.
    Store(u32),
    /// Pops.
    Drop,
    /// Pushes the sum of two numbers at a width, as the next ones do for other operators.
    Add(Width),
    Sub(Width),
    Mul(Width),
    /// Division truncates towards zero; division by 0 is a fault, of the remainder too.
    Div(Width),
    Rem(Width),
    /// Replaces a number by its negative at a width.
    Neg(Width),
    /// Replaces a number by what is left of it at a width.
    Wrap(Width),
    /// Pushes whether two numbers compare so, as the next ones do.
    Eq,
    Ne,
    Lt,
    Le,
    Gt,
    Ge,
    /// Pushes whether two kept pointers are both null or have the same point.
    PtrEq,
    PtrNe,
    /// Replaces 0 by 1, and all else by 0.
    Not,
    /// Goes to a place.
    Jump(u32),
    /// Pops, and goes to a place on 0.
    JumpIfNot(u32),
    /// Pops; on 0 pushes 0 and goes to a place.
    AndJump(u32),
    /// Pops; on anything but 0 pushes 1 and goes to a place.
    OrJump(u32),
    /// Replaces a kept pointer by its point; null is a fault.
    Point,
    /// Replaces a kept pointer by whether it is null.
    IsNull,
    /// Replaces a number by the pointer into the first of these regions that holds it, or by null.
    Cast(Sequence<u32>),
    /// The same of a kept pointer's point; null stays.
    CastPtr(Sequence<u32>),
    /// Replaces the position i of a kept pointer by the number at i - 1 of the list; position 0 and null
    /// stay.
    Move(Sequence<u8>),
    /// Replaces a number by the pointer with position 1 into the region of a slot; a number that it
    /// lacks is a fault.
    At(u32),
    /// Replaces a kept pointer into these regions by a field of what it aims at.
    Read(Sequence<u32>, u8),
    /// Pops a kept pointer and then a number, which is written into the field, wrapped.
    Write(Sequence<u32>, u8, Width),
    /// Pops a kept pointer and then a number, which is folded into the field, wrapped.
    Reduce(Sequence<u32>, u8, Op, Width),
    /// Pops a number and writes it, wrapped, at all points of the region of a slot.
    Fill(u32, u8, Width),
    /// Replaces a number by the index space of that size.
    Space,
    /// Pushes the index space of the colours of a slot's partition.
    Colors(u32),
    /// Pops an index space, and has a root of a field space made; its region is pushed.
    NewRoot(u32),
    /// Pops the colours, and has the equal partition of a slot's region made, which is pushed; the next
    /// ones do the same for other partitions.
    Equal(u32),
    /// By the field of a region.
    ByField(u32, u8),
    /// Of the first region: the image of the partition in the second slot by a field of the region in the
    /// third.
    Image(u32, u32, u32, u8),
    Preimage(u32, u32, u32, u8),
    /// Of two partitions; the region stands in the third slot.
    Meet(u32, u32, u32),
    Join(u32, u32, u32),
    Minus(u32, u32, u32),
    /// Replaces a number by the region of that colour in a slot's partition; another number is a fault.
    Child(u32),
    /// Takes a turn.
    Turn,
    /// The head of a counted loop, by the slots of its counter, limit and variable, and the place behind
    /// the loop: goes there where the counter isn't below the limit, and else takes a turn, puts the
    /// counter into the variable and raises it.
    NextNumber(u32, u32, u32, u32),
    /// The head of a loop over the points of a space or region, by the slots of its domain, counter and
    /// variable, whether the variable is a pointer, and the place behind the loop.
    NextPoint(u32, u32, u32, bool, u32),
    /// Pops so many arguments, takes a turn, and has a task called; the pending child is pushed.
    Call(u32, u8),
    /// Has a task called once for each point of the index space in a slot, in rising order, each time with these
    /// arguments at that point, up to the first fault. Each round of the loop takes a turn, and so does its call; the
    /// line is that of the call's faults.
    Launch(u32, u32, u32, Sequence<LaunchArg>),
    /// Pops a number for each `Number` part, the last one first, and writes the parts in order.
    Print(Sequence<PrintPart>),
    /// Pops; 0 is a fault.
    Assert,
    /// Ends the task instance without a value.
    Return,
    /// Ends it with the popped number.
    ReturnValue,
}
