//! How the nodes of a new partition stand.

ghost use Rattle.std.specs.Prelude.{◌≡◌, ◌+◌, ◌≤◌, ◌++◌, vec_capacity, vec_len};
ghost use Rattle.region_forest.specs.Standings.{partition_standings};

use crate::standing::Standing;
use region_tree::Node;

/// Adds how a partition of a region and its children stand, for which there is room.
pub fn add_standings(standings: &mut Vec<Standing>, region: Node, partition: Node, colours: u32)
    requires { vec_len standings.old + 1 + colours ≤ vec_capacity standings.old }
    ensures { standings.new.items
        ≡ standings.old.items ++ partition_standings region partition colours }
{
    standings.push_reserved(Standing::Partition { region });
    for colour in 0..colours {
        standings.push_reserved(Standing::Child { partition, colour });
    }
}
