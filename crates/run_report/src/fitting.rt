//! Whether an outcome fits the field spaces of code.

ghost use Rattle.std.specs.Prelude.{◌≡◌};
ghost use Rattle.std.specs.List.{list_all};
ghost use Rattle.run_report.specs.Dumps.{fits_spaces, has_points, is_of_space};

use plain_values::Sequence;
use regent_tree::{Ending, Outcome, RootImage};
use task_code::{Code, SpaceCode};

/// Whether each list has a number for each point.
fn has_points(columns: &[Sequence<i64>], count: u32) -> bool
    ensures { result ≡ has_points count columns.now }
{
    for numbers in columns {
        if numbers.len() != count as usize {
            return false;
        }
    }
    true
}

fn is_of_space(spaces: &[SpaceCode], root: &RootImage) -> bool
    ensures { result ≡ is_of_space spaces.now root.now }
{
    let place = root.space as usize;
    place < spaces.len()
        && root.fields.len() == spaces[place].fields.len()
        && has_points(root.fields.as_slice(), root.count)
}

fn are_of_spaces(spaces: &[SpaceCode], roots: &[RootImage]) -> bool
    ensures { result ≡ list_all (is_of_space spaces.now) roots.now }
{
    for root in roots {
        if !is_of_space(spaces, root) {
            return false;
        }
    }
    true
}

/// Whether each root is of a field space of the code, and has for each of its fields a number for
/// each point. An outcome without roots fits all code.
pub fn fits_spaces(code: &Code, outcome: &Outcome) -> bool
    ensures { result ≡ fits_spaces code.now outcome.now }
{
    match &outcome.ending {
        Ending::Finished(roots) => are_of_spaces(code.spaces.as_slice(), roots.as_slice()),
        Ending::Faulted(_) | Ending::Broken => true,
    }
}
