//! Operations that another one waits for.

ghost use Rattle.std.specs.Prelude.{◌≡◌};
ghost use Rattle.dependence_graph.specs.Awaited.{awaited_ops};

use plain_values::Sequence;
use region_tree::OpNumber;

/// Operations that another one waits for. One alone takes no memory.
#[derive(Drop)]
pub enum Awaited {
    One([OpNumber; 1]),
    Many(Sequence<OpNumber>),
}

impl Awaited {
    pub fn as_slice(&self) -> &[OpNumber]
        ensures { result.now ≡ awaited_ops self.now }
    {
        match self {
            Awaited::One(one) => one,
            Awaited::Many(many) => many.as_slice(),
        }
    }
}
