//! Values of slots and of the stack.

ghost use Rattle.std.specs.Prelude.{◌≡◌, IfOk};
ghost use Rattle.machine_terms.specs.declared.value.Value.TheVariants.{Number};

use index_spaces::Ispace;
use plain_values::{Sequence, Shared};
use point_sets::PointSet;
use region_tree::{Node, RootId};
use std::alloc::AllocError;

/// A logical region: the root of which it is a part, its node in the region tree, and its points.
#[derive(Drop)]
pub struct RegionValue {
    pub root: RootId,
    pub node: Node,
    pub points: Shared<PointSet>,
}

/// A partition: the root of its region, whether no two colours share a point, and the region of each
/// colour, from 0.
#[derive(Drop)]
pub struct PartitionValue {
    pub root: RootId,
    pub disjoint: bool,
    pub children: Shared<Sequence<RegionValue>>,
}

/// A value. A truth, an index and a kept pointer are numbers.
#[derive(Drop)]
pub enum Value {
    Number(i64),
    Space(Ispace),
    Region(RegionValue),
    Partition(PartitionValue),
    /// The result of a child that wasn't awaited yet, by the child's place among those of the frame,
    /// from 0.
    Pending(u64),
}

impl RegionValue {
    /// A second value of the same region, which shares its points.
    pub fn copy(&self) -> Result<RegionValue, AllocError>
        ensures { IfOk result (λ r. r ≡ self.now) }
    {
        Ok(RegionValue {
            root: self.root,
            node: self.node,
            points: self.points.share()?,
        })
    }
}

impl PartitionValue {
    /// A second value of the same partition, which shares its regions.
    pub fn copy(&self) -> Result<PartitionValue, AllocError>
        ensures { IfOk result (λ r. r ≡ self.now) }
    {
        Ok(PartitionValue {
            root: self.root,
            disjoint: self.disjoint,
            children: self.children.share()?,
        })
    }
}

impl Value {
    /// Puts a number in the value's place.
    #[inline(always)]
    pub fn set_number(&mut self, z: i64)
        ensures { self.new ≡ Number z }
    {
        match self {
            Value::Number(old) => *old = z,
            other => replace(other, z),
        }
    }

    /// A second value that is the same. What a region or partition holds is shared.
    pub fn copy(&self) -> Result<Value, AllocError>
        ensures { IfOk result (λ r. r ≡ self.now) }
    {
        match self {
            Value::Number(z) => Ok(Value::Number(*z)),
            Value::Space(space) => Ok(Value::Space(*space)),
            Value::Region(region) => Ok(Value::Region(region.copy()?)),
            Value::Partition(partition) => Ok(Value::Partition(partition.copy()?)),
            Value::Pending(child) => Ok(Value::Pending(*child)),
        }
    }
}

/// Drops a value, and puts a number in its place.
#[cold]
#[inline(never)]
fn replace(value: &mut Value, z: i64)
    ensures { value.new ≡ Number z }
{
    *value = Value::Number(z);
}
