//! Points that are required, whatever they are the points of.

use crate::tree::RootId;
use lane_kernels::Mode;
use plain_values::Shared;
use point_sets::PointSet;
use std::marker::Model;

/// Points of a root that are needed in a field and a mode.
#[derive(Drop)]
pub struct Required {
    pub root: RootId,
    pub points: Shared<PointSet>,
    pub field: u8,
    pub mode: Mode,
}

impl Model for Required {
    ghost use Rattle.region_tree.specs.Requirements.{Requirement};

    ghost Value = { Requirement };

    ghost view = { λ r. record {
      root = r.root.0;
      points = r.points;
      field = r.field;
      mode = r.mode;
    } };
}
