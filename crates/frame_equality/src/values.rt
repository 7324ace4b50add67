//! Values of slots and of the stack.

ghost use Rattle.std.specs.Prelude.{◌≡◌, ◌↔◌, IsTrue};

use crate::same::{Same, are_same, are_same_points};
use machine_terms::{PartitionValue, RegionValue, Value};

impl Same for RegionValue {
    fn is_same(&self, other: &RegionValue) -> bool {
        self.root.0 == other.root.0
            && self.node.0 == other.node.0
            && are_same_points(self.points.get(), other.points.get())
    }
}

impl Same for Value {
    fn is_same(&self, other: &Value) -> bool {
        match (self, other) {
            (Value::Number(number), Value::Number(to)) => number == to,
            (Value::Space(space), Value::Space(to)) => space.volume() == to.volume(),
            (Value::Region(region), Value::Region(to)) => region.is_same(to),
            (Value::Partition(partition), Value::Partition(to)) => is_same_partition(partition, to),
            (Value::Pending(child), Value::Pending(to)) => child == to,
            _ => false,
        }
    }
}

fn is_same_partition(partition: &PartitionValue, other: &PartitionValue) -> bool
    ensures { IsTrue result ↔ (partition.now ≡ other.now) }
{
    partition.root.0 == other.root.0
        && partition.disjoint == other.disjoint
        && are_same(
            partition.children.get().as_slice(),
            other.children.get().as_slice(),
        )
}
