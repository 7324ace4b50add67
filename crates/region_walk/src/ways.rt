//! Ways from a root's region down to nodes: what stands above them, from the top.

ghost use Rattle.std.specs.Prelude.{◌≡◌};
ghost use Rattle.region_walk.specs.Ranges.{begins};
ghost use Rattle.region_walk.specs.Sides.{is_less, is_on_side, leaves, numbers_of};

use region_tree::Node;

/// Whether a way comes before another one, by the numbers of its steps.
pub fn are_less(way: &[(Node, u32)], other: &[(Node, u32)]) -> bool
    ensures { result ≡ is_less (numbers_of way.now) (numbers_of other.now) }
{
    let shorter = way.len().min(other.len());
    for place in 0..shorter {
        let (one, two) = (way[place], other[place]);
        if one.0.0 != two.0.0 {
            return one.0.0 < two.0.0;
        }
        if one.1 != two.1 {
            return one.1 < two.1;
        }
    }
    way.len() < other.len()
}

/// Whether a colour is less than another one, or greater.
fn is_on_side(side: bool, colour: u32, other: u32) -> bool
    ensures { result ≡ is_on_side side colour other }
{
    if side { other < colour } else { colour < other }
}

/// Whether another way goes along for so many steps, and then to a colour on that side of the same partition.
#[tactic(auto, using(crate::proofs::Leaving::leaves_step))]
pub fn leaves(way: &[(Node, u32)], other: &[(Node, u32)], steps: usize, side: bool) -> bool
    ensures { result ≡ leaves steps side way.now other.now }
{
    if way.len() <= steps {
        return false;
    }
    if other.len() <= steps {
        return false;
    }
    for place in 0..steps {
        let (one, two) = (way[place], other[place]);
        if one.0.0 != two.0.0 || one.1 != two.1 {
            return false;
        }
    }
    way[steps].0.0 == other[steps].0.0 && is_on_side(side, way[steps].1, other[steps].1)
}

/// Whether another way goes on from one.
#[tactic(auto, using(crate::proofs::Heads::begins_step))]
pub fn begins(way: &[(Node, u32)], other: &[(Node, u32)]) -> bool
    ensures { result ≡ begins (numbers_of way.now) (numbers_of other.now) }
{
    if other.len() < way.len() {
        return false;
    }
    for place in 0..way.len() {
        let (one, two) = (way[place], other[place]);
        if one.0.0 != two.0.0 || one.1 != two.1 {
            return false;
        }
    }
    true
}
