//! What operations said, woven with what their children told.

ghost use Rattle.std.specs.Prelude.{◌≡◌, ◌≤◌, ◌+◌, ◌++◌, length};
ghost use Rattle.std.specs.Vec.{vec_capacity, vec_len};
ghost use Rattle.board_outcomes.specs.Tellings.{said_before, said_behind, said_whole, told_among};
ghost use Rattle.board_terms.specs.Outcomes.{stop_of};

use board_terms::{Activity, Ending, Operation, Said};
use region_tree::OpNumber;

/// Writes what is told of an operation with its children of so many levels, behind a text that has room for it, and
/// returns where it stops, if it does.
pub fn tell(
    operations: &[Operation],
    levels: usize,
    op: OpNumber,
    text: &mut Vec<u8>,
) -> Option<Ending>
    requires { vec_len text.old + length (told_among levels operations.now op.0).text ≤ vec_capacity text.old }
    ensures text { text.new.items ≡ text.old.items ++ (told_among levels operations.now op.0).text }
    ensures stop { result ≡ (told_among levels operations.now op.0).stop }
    ensures capacity { vec_capacity text.new ≡ vec_capacity text.old }
{
    if levels == 0 {
        return None;
    }
    let operation = operations.get(op.0 as usize)?;
    let children = operation.children.as_slice();
    let mut said = operation.said.as_slice();
    for place in 0..children.len() {
        said = say_before(said, place as u64, text);
        let stop = tell(operations, levels - 1, children[place], text);
        if stop.is_some() {
            return stop;
        }
    }
    say_rest(said, text);
    stop_of(&operation.activity)
}

/// Writes the pieces that were said before a child, and returns those behind them.
fn say_before<'a>(said: &'a [Said], place: u64, text: &mut Vec<u8>) -> &'a [Said]
    requires { vec_len text.old + length (said_before place said.now) ≤ vec_capacity text.old }
    ensures text { text.new.items ≡ text.old.items ++ said_before place said.now }
    ensures rest { result.now ≡ said_behind place said.now }
    ensures capacity { vec_capacity text.new ≡ vec_capacity text.old }
{
    let mut rest = said;
    while let [piece, others @ ..] = rest {
        if piece.children != place {
            break;
        }
        write(piece.text.as_slice(), text);
        rest = others;
    }
    rest
}

/// Writes the pieces that were said behind all children.
fn say_rest(said: &[Said], text: &mut Vec<u8>)
    requires { vec_len text.old + length (said_whole said.now) ≤ vec_capacity text.old }
    ensures text { text.new.items ≡ text.old.items ++ said_whole said.now }
    ensures capacity { vec_capacity text.new ≡ vec_capacity text.old }
{
    for piece in said {
        write(piece.text.as_slice(), text);
    }
}

/// Writes bytes for which there is room.
fn write(bytes: &[u8], text: &mut Vec<u8>)
    requires { vec_len text.old + length bytes.now ≤ vec_capacity text.old }
    ensures text { text.new.items ≡ text.old.items ++ bytes.now }
    ensures capacity { vec_capacity text.new ≡ vec_capacity text.old }
{
    for &byte in bytes {
        text.push_reserved(byte);
    }
}

/// Where an operation's own work stopped.
fn stop_of(activity: &Activity) -> Option<Ending>
    ensures { result ≡ stop_of activity.now }
{
    match activity {
        Activity::Closing(Ending::Fault(fault)) => Some(Ending::Fault(*fault)),
        Activity::Closing(Ending::Broken) => Some(Ending::Broken),
        _ => None,
    }
}
