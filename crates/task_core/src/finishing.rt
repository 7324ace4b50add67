//! What a board comes to, told in memory that was taken before.

ghost use Rattle.std.specs.Prelude.{◌≡◌, ◌≤◌, ◌<◌, ◌+◌, ◌++◌, [], IfNone, IfOk, length, map};
ghost use Rattle.std.specs.Vec.{vec_capacity, vec_len};
ghost use Rattle.board_terms.specs.Outcomes.{ending_by, image_of, outcome, result as result_of, told};
ghost use Rattle.board_terms.specs.States.{operation_at};
ghost use Rattle.task_core.specs.Rooms.{AreRooms, IsImageFor, IsRoomOf, listed, main_makes};

use board_outcomes::{fill_image, room_for, tell};
use board_state::BoardState;
use board_terms::Ending as Stop;
use machine_terms::{After, Made, Yield};
use plain_values::Sequence;
use regent_tree::{Ending, Outcome, RootImage};
use region_tree::{OpNumber, RootId};
use std::alloc::{AllocError, Global};
use std::mem;
use task_code::Code;

/// What is needed for the outcome behind a segment: how much operations will have said, and an image where main makes
/// a root.
#[derive(Drop)]
pub struct Room {
    pub said: usize,
    pub image: Option<RootImage>,
}

/// Takes the memory for the outcome behind a segment. More text than a number counts counts as a want of memory.
pub fn make_room(
    alloc: Global,
    code: &Code,
    op: OpNumber,
    said: usize,
    text: &mut Vec<u8>,
    images: &mut Vec<RootImage>,
    after: &After,
) -> Result<Room, AllocError>
    ensures said { IfOk result (λ r. r.said ≡ said + length after.now.text) }
    ensures text { text.new.items ≡ text.old.items }
    ensures grows { vec_capacity text.old ≤ vec_capacity text.new }
    ensures room { IfOk result (λ r. r.said ≤ vec_capacity text.new) }
    ensures images { images.new.items ≡ images.old.items }
    ensures place { IfOk result (λ r. vec_len images.new < vec_capacity images.new) }
    ensures image { IfOk result (λ r. IsImageFor code.now (main_makes op.0 after.now.ends) r.image) }
{
    let said = said.checked_add(after.text.len()).ok_or(AllocError)?;
    text.reserve(said)?;
    images.reserve(1)?;
    let image = image_for(alloc, code, op, &after.ends)?;
    Ok(Room { said, image })
}

/// An image for the root that main makes, if it makes one.
fn image_for(
    alloc: Global,
    code: &Code,
    op: OpNumber,
    ends: &Yield,
) -> Result<Option<RootImage>, AllocError>
    ensures { IfOk result (IsImageFor code.now (main_makes op.0 ends.now)) }
{
    match ends {
        Yield::Make(Made::Root { space, fields }) if op.0 == 0 => {
            let count = space.volume();
            Ok(Some(RootImage {
                space: *fields,
                count,
                fields: room_for(alloc, code, *fields, count)?,
            }))
        }
        _ => Ok(None),
    }
}

/// An image is put behind the others, if there is one. It takes no memory.
pub fn push_image(images: &mut Vec<RootImage>, image: Option<RootImage>)
    requires { vec_len images.old < vec_capacity images.old }
    ensures { images.new.items ≡ images.old.items ++ listed image }
{
    if let Some(image) = image {
        images.push_reserved(image);
    }
}

/// The outcome of a board, where no operation is left that isn't over. It takes no memory.
pub fn finished(
    alloc: Global,
    state: &BoardState,
    text: &mut Vec<u8>,
    images: &mut Vec<RootImage>,
) -> Option<Outcome>
    requires empty { text.old.items ≡ [] }
    requires room { length (told state.now).text ≤ vec_capacity text.old }
    requires images { AreRooms state.now (operation_at state.now 0).frame.own images.old.items }
    ensures outcome { result ≡ result_of state.now }
    ensures text { IfNone result ((text.new.items ≡ []) × (vec_capacity text.new ≡ vec_capacity text.old)) }
    ensures images { IfNone result (images.new.items ≡ images.old.items) }
{
    if state.has_finished() {
        Some(outcome(alloc, state, text, images))
    } else {
        None
    }
}

/// What a board comes to.
fn outcome(
    alloc: Global,
    state: &BoardState,
    text: &mut Vec<u8>,
    images: &mut Vec<RootImage>,
) -> Outcome
    requires empty { text.old.items ≡ [] }
    requires room { length (told state.now).text ≤ vec_capacity text.old }
    requires images { AreRooms state.now (operation_at state.now 0).frame.own images.old.items }
    ensures { result ≡ outcome state.now }
{
    let mut told = mem::replace(text, Vec::new(alloc));
    let operations = state.operations();
    let stop = tell(operations, operations.len(), OpNumber(0), &mut told);
    Outcome {
        text: Sequence::from_vec(told),
        ending: ending_by(alloc, state, stop, images),
    }
}

/// How a board ends that stopped there, or didn't stop.
fn ending_by(
    alloc: Global,
    state: &BoardState,
    stop: Option<Stop>,
    images: &mut Vec<RootImage>,
) -> Ending
    requires { AreRooms state.now (operation_at state.now 0).frame.own images.old.items }
    ensures { result ≡ ending_by state.now stop }
{
    match stop {
        None => Ending::Finished(fill_images(alloc, state, images)),
        Some(Stop::Fault(fault)) => Ending::Faulted(fault),
        Some(_) => Ending::Broken,
    }
}

/// What main's own roots hold.
fn fill_images(
    alloc: Global,
    state: &BoardState,
    images: &mut Vec<RootImage>,
) -> Sequence<RootImage>
    requires { AreRooms state.now (operation_at state.now 0).frame.own images.old.items }
    ensures { result ≡ map (image_of state.now) (operation_at state.now 0).frame.own }
{
    let own = main_roots(state);
    let mut filled = mem::replace(images, Vec::new(alloc));
    for place in 0..filled.len() {
        fill_root(alloc, state, own[place], &mut filled[place]);
    }
    Sequence::from_vec(filled)
}

/// The roots that main made.
fn main_roots(state: &BoardState) -> &[RootId]
    ensures { result.now ≡ (operation_at state.now 0).frame.own }
{
    match state.operations() {
        [main, ..] => main.frame.own.as_slice(),
        [] => &[],
    }
}

/// What a root holds, in its image.
fn fill_root(alloc: Global, state: &BoardState, root: RootId, image: &mut RootImage)
    requires { IsRoomOf state.now root image.old }
    ensures { image.new ≡ image_of state.now root }
{
    fill_image(alloc, state.contents(), root, &mut image.fields);
}
