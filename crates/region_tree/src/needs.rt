//! Needs of regions.

ghost use Rattle.std.specs.Prelude.{◌≡◌, All, IfOk};
ghost use Rattle.region_tree.specs.Needs.{AreNeeds, IsNeed, requirement_of, requirements_of};
ghost use Rattle.region_tree.specs.Requirements.{IsPartOf, PartsAreApart, part_of};

use crate::content::Node;
use crate::required::Required;
use crate::required_part::part_of;
use crate::tree::{RootId, Tree};
use lane_kernels::Mode;
use plain_values::{Sequence, Shared};
use point_sets::PointSet;
use std::alloc::AllocError;

/// What a task needs of a region (region requirements: Legion, SC 2012): all its points, in a field
/// and a mode.
#[derive(Clone, Copy, Debug, PartialEq, Eq)]
pub struct Need {
    pub root: RootId,
    pub node: Node,
    pub field: u8,
    pub mode: Mode,
}

/// All that a task needs, in any order. A field may be needed several times at one point.
#[derive(Debug, PartialEq, Eq, Drop)]
pub struct Needs {
    pub items: Sequence<Need>,
}

impl Needs {
    /// The points that these needs have in a field of a root, by the join of the modes there. Only
    /// modes that have points are listed, in the order Read, Write, Sum, Product, Least, Greatest.
    pub fn part(
        &self,
        tree: &Tree,
        root: RootId,
        field: u8,
    ) -> Result<Vec<(PointSet, Mode)>, AllocError>
        requires { AreNeeds tree.now self.now.items }
        ensures value { IfOk result (λ v. v.items
            ≡ part_of (requirements_of tree.now self.now.items) root.0 field) }
        ensures exact { IfOk result (λ v.
            All (IsPartOf (requirements_of tree.now self.now.items) root.0 field) v.items) }
        ensures apart { IfOk result (λ v. PartsAreApart v.items) }
    {
        let required = required_by(tree, self.items.as_slice())?;
        part_of(tree.allocator(), required.as_slice(), root, field)
    }
}

/// The points that needs require.
fn required_by(tree: &Tree, needs: &[Need]) -> Result<Vec<Required>, AllocError>
    requires { AreNeeds tree.now needs.now }
    ensures { IfOk result (λ v. v.items ≡ requirements_of tree.now needs.now) }
{
    let mut required = Vec::new(tree.allocator());
    for need in needs {
        required.push(required_of(tree, need)?)?;
    }
    Ok(required)
}

fn required_of(tree: &Tree, need: &Need) -> Result<Required, AllocError>
    requires { IsNeed tree.now need.now }
    ensures { IfOk result (λ r. r ≡ requirement_of tree.now need.now) }
{
    let points = tree.set(need.node).copy()?;
    Ok(Required {
        root: need.root,
        points: Shared::new(tree.allocator(), points)?,
        field: need.field,
        mode: need.mode,
    })
}
