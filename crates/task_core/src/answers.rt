//! What calls of a board answer.

use machine_terms::{Before, Ran};
use plain_values::Shared;

/// What a copy comes to: elements are left, or a segment may be run from this, or the claim isn't being filled.
#[derive(Drop)]
pub enum Copied {
    More,
    Start(Shared<Before>),
    Gone,
}

/// What a give comes to: the run was taken, or it is a stranger's. That one comes back with what the claim's segment
/// is to be run from, or with nothing where the claim isn't out.
#[derive(Drop)]
pub enum Given {
    Taken,
    Stranger(Ran, Option<Shared<Before>>),
}
