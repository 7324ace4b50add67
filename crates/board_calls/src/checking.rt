//! Whether the needs that a task declares are of regions and fields that are there.

ghost use Rattle.std.specs.Prelude.{◌≡◌, slice_get, Some};
ghost use Rattle.board_calls.specs.Calls.{place};
ghost use Rattle.board_terms.specs.Calls.{are_declared, has_field, is_there};
ghost use Rattle.board_terms.specs.Makes.{is_here};
ghost use Rattle.machine_terms.specs.Pointers.{region_in};
ghost use Rattle.physical_instances.specs.Kept.{map_of};

use board_gives::is_here;
use machine_terms::{RegionValue, Value};
use physical_instances::Contents;
use region_forest::Forest;
use task_code::NeedCode;

/// Whether each declared need is of a region of the tree whose root has the field.
pub fn are_declared(
    tree: &Forest,
    contents: &Contents,
    needs: &[NeedCode],
    values: &[Value],
) -> bool
    ensures { result ≡ are_declared (place tree.now (map_of contents.now)) needs.now values.now }
{
    for need in needs {
        if !is_declared(tree, contents, need, values) {
            return false;
        }
    }
    true
}

fn is_declared(tree: &Forest, contents: &Contents, need: &NeedCode, values: &[Value]) -> bool
    ensures { result ≡ has_field (place tree.now (map_of contents.now)) need.now.field
        (region_in (slice_get values.now need.now.param)) }
{
    match values.get(need.param as usize) {
        Some(value) => has_field(tree, contents, value, need.field),
        None => false,
    }
}

fn has_field(tree: &Forest, contents: &Contents, value: &Value, field: u8) -> bool
    ensures { result ≡ has_field (place tree.now (map_of contents.now)) field (region_in (Some value.now)) }
{
    match value {
        Value::Region(region) => is_here(tree, region) && is_there(contents, region, field),
        Value::Number(_) | Value::Space(_) | Value::Partition(_) | Value::Pending(_) => false,
    }
}

/// Whether the root of a region has a field.
fn is_there(contents: &Contents, region: &RegionValue, field: u8) -> bool
    ensures { result ≡ is_there (map_of contents.now) region.now.root.0 field }
{
    contents.count(region.root, field).is_some()
}
