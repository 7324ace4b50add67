//! What tasks need.

ghost use Rattle.std.specs.Prelude.{◌≡◌, ◌++◌, [], Some, slice_get, IfOk, OnOk};
ghost use Rattle.machine_terms.specs.Opening.{need_on, needs_on};
ghost use Rattle.machine_terms.specs.Pointers.{region_in};

use machine_terms::{RegionValue, Value};
use plain_values::Sequence;
use region_tree::Need;
use std::alloc::{AllocError, Global};
use task_code::NeedCode;

/// What declared needs are on arguments. A region without points is never needed.
pub fn needs_on(
    alloc: Global,
    declared: &[NeedCode],
    values: &[Value],
) -> Result<Sequence<Need>, AllocError>
    ensures { IfOk result (λ ns. ns ≡ needs_on declared.now values.now) }
{
    let mut needs = Vec::new(alloc);
    for need in declared {
        add_need(&mut needs, need, values)?;
    }
    Ok(Sequence::from_vec(needs))
}

fn add_need(needs: &mut Vec<Need>, declared: &NeedCode, values: &[Value]) -> Result<(), AllocError>
    ensures { OnOk result (needs.new.items ≡ needs.old.items
        ++ need_on declared.now (region_in (slice_get values.now declared.now.param)) []) }
{
    match values.get(declared.param as usize) {
        Some(value) => add_need_on(needs, declared, value),
        None => Ok(()),
    }
}

fn add_need_on(needs: &mut Vec<Need>, declared: &NeedCode, value: &Value) -> Result<(), AllocError>
    ensures { OnOk result (needs.new.items ≡ needs.old.items
        ++ need_on declared.now (region_in (Some value.now)) []) }
{
    match value {
        Value::Region(region) => add_region(needs, declared, region),
        Value::Number(_) | Value::Space(_) | Value::Partition(_) | Value::Pending(_) => Ok(()),
    }
}

fn add_region(
    needs: &mut Vec<Need>,
    declared: &NeedCode,
    region: &RegionValue,
) -> Result<(), AllocError>
    ensures { OnOk result (needs.new.items ≡ needs.old.items
        ++ need_on declared.now (Some region.now) []) }
{
    if region.points.get().len() > 0 {
        needs.push(Need {
            root: region.root,
            node: region.node,
            field: declared.field,
            mode: declared.mode,
        })?;
    }
    Ok(())
}
