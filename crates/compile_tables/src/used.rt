//! How many slots a body uses.

ghost use Rattle.std.specs.Prelude.{◌≡◌, ◌++◌, [], ◌∷◌, flat_map, suc, IfOk, List, ℕ};
ghost use Rattle.code_rules.specs.Used.{above_all, greatest, slots_named, slots_of_lines, slots_used};

use index_launch::LaunchArg;
use std::alloc::AllocError;
use task_code::{Instr, Line};

fn greatest(a: u64, b: u64) -> u64
    ensures { result ≡ greatest a b }
{
    if a < b { b } else { a }
}

/// A number above that of a slot.
fn above(slot: u32) -> u64
    ensures { result ≡ suc slot }
{
    slot as u64 + 1
}

fn above_all(slots: &[u32]) -> u64
    ensures { result ≡ above_all slots.now }
{
    let mut least = 0;
    let count = slots.len();
    for after in 0..count {
        least = greatest(above(slots[count - 1 - after]), least);
    }
    least
}

fn above_three(a: u32, b: u32, c: u32) -> u64
    ensures { result ≡ above_all (a ∷ b ∷ c ∷ []) }
{
    greatest(above(a), greatest(above(b), greatest(above(c), 0)))
}

/// A number above that of the slot that an argument of a launch names, and above those that are below another.
fn above_named(arg: LaunchArg, least: u64) -> u64
    ensures { (slots : List ℕ) → least ≡ above_all slots → result ≡ above_all (slots_named arg ++ slots) }
{
    match arg {
        LaunchArg::Child(slot) | LaunchArg::Keep(slot) => greatest(above(slot), least),
        LaunchArg::Number(_) | LaunchArg::Point => least,
    }
}

/// A number above those of the slots that the arguments of a launch name.
fn above_args(args: &[LaunchArg]) -> u64
    ensures { result ≡ above_all (flat_map slots_named args.now) }
{
    let mut least = 0;
    let count = args.len();
    for after in 0..count {
        least = above_named(args[count - 1 - after], least);
    }
    least
}

/// A number above those of the slots that an instruction names.
fn slots_used(instr: &Instr) -> u64
    ensures { result ≡ slots_used instr.now }
{
    match instr {
        Instr::Load(s)
        | Instr::Store(s)
        | Instr::At(s)
        | Instr::Fill(s, _, _)
        | Instr::Colors(s)
        | Instr::Equal(s)
        | Instr::ByField(s, _)
        | Instr::Child(s) => above(*s),
        Instr::Cast(slots)
        | Instr::CastPtr(slots)
        | Instr::Read(slots, _)
        | Instr::Write(slots, _, _)
        | Instr::Reduce(slots, _, _, _) => above_all(slots.as_slice()),
        Instr::Image(a, b, c, _)
        | Instr::Preimage(a, b, c, _)
        | Instr::Meet(a, b, c)
        | Instr::Join(a, b, c)
        | Instr::Minus(a, b, c)
        | Instr::NextNumber(a, b, c, _)
        | Instr::NextPoint(a, b, c, _, _) => above_three(*a, *b, *c),
        Instr::Launch(_, space, _, args) => greatest(above(*space), above_args(args.as_slice())),
        _ => 0,
    }
}

/// How many slots the lines use.
fn slots_of_lines(least: u64, body: &[Line]) -> u64
    ensures { result ≡ slots_of_lines least body.now }
{
    let mut used = least;
    let count = body.len();
    for after in 0..count {
        used = greatest(slots_used(&body[count - 1 - after].instr), used);
    }
    used
}

/// How many slots a body uses, where there are at least some. A number that passes 32 bits counts as a want of
/// memory.
pub fn used_slots(least: u32, body: &[Line]) -> Result<u32, AllocError>
    ensures { IfOk result (λ slots. slots ≡ slots_of_lines least body.now) }
{
    match u32::try_from(slots_of_lines(least as u64, body)) {
        Ok(slots) => Ok(slots),
        Err(_) => Err(AllocError),
    }
}
