//! Needs of a forest's regions.

ghost use Rattle.std.specs.Prelude.{◌≡◌, IsTrue};
ghost use Rattle.dependence_graph.specs.Issues.{AreAllNeeds};
ghost use Rattle.region_tree.specs.Needs.{AreNeeds, IsNeed};

use lane_kernels::{Mode, Op};
use plain_values::Sequence;
use region_finder::Paths;
use region_forest::Forest;
use region_tree::{Need, Needs, Node};
use std::alloc::{AllocError, Global};

/// A need of a region, with its root: none of a number that isn't a region's.
pub fn need_at(forest: &Forest, node: Node, field: u8, mode: Mode) -> Option<Need> {
    if forest.is_region(node) {
        Some(Need {
            root: forest.root_of(node),
            node,
            field,
            mode,
        })
    } else {
        None
    }
}

/// A mode by its letter, and what stands behind that.
fn mode_of(word: &str) -> Option<(Mode, &str)> {
    for (letter, mode) in [
        ("r", Mode::Read),
        ("w", Mode::Write),
        ("s", Mode::Reduce(Op::Sum)),
        ("l", Mode::Reduce(Op::Least)),
    ] {
        if let Some(place) = word.strip_prefix(letter) {
            return Some((mode, place));
        }
    }
    None
}

/// A need from a word, as `w2` of field 0 of the region 2, or `w2.1` of field 1.
fn need_of(forest: &Forest, word: &str) -> Option<Need> {
    let (mode, place) = mode_of(word)?;
    let (node, field) = place.split_once('.').unwrap_or((place, "0"));
    let node = node.parse::<u64>().ok()?;
    let field = field.parse::<u8>().ok()?;
    need_at(forest, Node(node), field, mode)
}

/// Needs from a word, with commas between: what isn't a need of the forest is left out.
pub fn needs_of(alloc: Global, forest: &Forest, word: &str) -> Result<Needs, AllocError> {
    let mut items = Sequence::new(alloc);
    for one in word.split(',') {
        if let Some(need) = need_of(forest, one) {
            items.push(need)?;
        }
    }
    Ok(Needs { items })
}

fn is_need(forest: &Forest, need: &Need) -> bool
    ensures { IsTrue result → IsNeed forest.now need.now }
{
    forest.is_region(need.node) && forest.root_of(need.node).0 == need.root.0
}

fn are_all(forest: &Forest, needs: &[Need]) -> bool
    ensures { IsTrue result → AreNeeds forest.now needs.now }
{
    for need in needs {
        if !is_need(forest, need) {
            return false;
        }
    }
    true
}

/// Whether all of these are needs of the forest's regions.
pub fn are_needs(forest: &Forest, needs: &Needs) -> bool
    ensures { IsTrue result → AreNeeds forest.now needs.now.items }
{
    are_all(forest, needs.items.as_slice())
}

/// Whether the needs of all operations are.
pub fn are_all_needs(forest: &Forest, all: &[Needs]) -> bool
    ensures { IsTrue result → AreAllNeeds forest.now all.now }
{
    for needs in all {
        if !are_needs(forest, needs) {
            return false;
        }
    }
    true
}
