//! Parts of regions' fields.

use crate::same::{Same, are_same, are_same_points};
use lane_kernels::equal;
use region_tree::{Part, Piece};

impl Same for Piece {
    fn is_same(&self, other: &Piece) -> bool {
        self.mode == other.mode
            && are_same_points(&self.points, &other.points)
            && equal(self.values.as_slice(), other.values.as_slice())
    }
}

impl Same for Part {
    fn is_same(&self, other: &Part) -> bool {
        self.root.0 == other.root.0
            && self.field == other.field
            && self.kind == other.kind
            && are_same(self.pieces.as_slice(), other.pieces.as_slice())
    }
}
