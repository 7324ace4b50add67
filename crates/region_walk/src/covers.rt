//! Which needs a later one covers.

ghost use Rattle.std.specs.Prelude.{◌≡◌, ◌==◌};
ghost use Rattle.std.specs.List.{list_any};
ghost use Rattle.lane_kernels.specs.declared.numbers.Mode.TheVariants.{Write};
ghost use Rattle.region_finder.specs.Listings.{covers};
ghost use Rattle.region_tree.specs.Requirements.{same_mode};

use lane_kernels::Mode;
use region_tree::{Need, Node};

/// Whether a mode is exclusive.
pub fn is_write(mode: Mode) -> bool
    ensures { result ≡ same_mode mode Write }
{
    matches!(mode, Mode::Write)
}

/// Whether a node stands on a way.
fn stands_on(node: Node, way: &[(Node, u32)]) -> bool
    ensures { result ≡ list_any (λ u. u.0.0 == node.0) way.now }
{
    way.iter().any(|step| step.0.0 == node.0)
}

/// Whether a need writes the field of another one at all of its points. The way leads up from that one's node, or
/// down to it.
pub fn covers(by: &Need, need: &Need, way: &[(Node, u32)]) -> bool
    ensures { result ≡ covers (record { need = need.now; way = way.now }) by.now }
{
    is_write(by.mode)
        && by.root.0 == need.root.0
        && by.field == need.field
        && (by.node.0 == need.node.0 || stands_on(by.node, way))
}
