//! Where jumps may go.

ghost use Rattle.std.specs.Prelude.{◌≡◌, IfSome, true};
ghost use Rattle.machine_state.specs.Operands.{IsBranch};
ghost use Rattle.machine_terms.specs.Jumps.{may_jump, turns_back};

use task_code::{Instr, Line};

/// Whether a jump may go back to this instruction: each round then takes a turn, or leaves for a later
/// place.
#[inline(always)]
fn turns_back(from: u32, instr: &Instr) -> bool
    ensures { result ≡ turns_back from instr.now }
{
    match instr {
        Instr::Turn => true,
        Instr::NextNumber(_, _, _, exit) | Instr::NextPoint(_, _, _, _, exit) => from < *exit,
        _ => false,
    }
}

/// Whether a jump may go from a place to another.
#[inline(always)]
pub fn may_jump(body: &[Line], from: u32, to: u32) -> bool
    ensures { result ≡ may_jump body.now from to }
{
    if from < to {
        return true;
    }
    match body.get(to as usize) {
        Some(line) => turns_back(from, &line.instr),
        None => false,
    }
}

/// Where a jump on 0 leads from a place.
#[inline(always)]
pub fn branch(body: &[Line], pc: u32, to: u32, z: i64) -> Option<u32>
    ensures { IfSome result (IsBranch body.now pc to z) }
{
    if z != 0 {
        pc.checked_add(1)
    } else if may_jump(body, pc, to) {
        Some(to)
    } else {
        None
    }
}

/// Where a jump leads that may be made.
#[inline(never)]
pub fn place_of_jump(body: &[Line], pc: u32, to: u32) -> Option<u32>
    ensures to { IfSome result (λ place. place ≡ to) }
    ensures may { IfSome result (λ place. may_jump body.now pc to ≡ true) }
{
    if may_jump(body, pc, to) {
        Some(to)
    } else {
        None
    }
}
