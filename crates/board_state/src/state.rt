//! The state of a board.

ghost use Rattle.std.specs.Prelude.{◌≡◌};

use board_gives::Waits;
use board_terms::{Extent, Operation};
use physical_instances::Contents;
use region_forest::Forest;
use std::marker::Model;

/// The state of a board: the regions that were made, the roots' extents, what the live roots hold, the operations in
/// order of issue, what waits for what among them, and how many claims there were.
#[derive(Drop)]
pub struct BoardState {
    pub(crate) tree: Forest,
    pub(crate) roots: Vec<Extent>,
    pub(crate) contents: Contents,
    pub(crate) operations: Vec<Operation>,
    pub(crate) graph: Waits,
    pub(crate) turns: u64,
}

impl Model for BoardState {
    ghost use Rattle.board_state.specs.Kept.{IsKept, state_of};
    ghost use Rattle.board_terms.specs.States.{State};
    ghost use Rattle.physical_instances.specs.Kept.{map_of};

    ghost Value = { State };

    ghost view = { λ b. state_of b.tree b.roots.items (map_of b.contents) b.operations.items b.graph b.turns };

    ghost invariant = { λ b. IsKept (state_of b.tree b.roots.items (map_of b.contents) b.operations.items b.graph b.turns) };
}
