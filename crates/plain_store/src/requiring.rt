//! What a task instance needs, with the points.

ghost use Rattle.std.specs.Prelude.{◌≡◌, ◌++◌, [], slice_get, IfOk, OnOk};
ghost use Rattle.machine_terms.specs.Makes.{root_requirements};
ghost use Rattle.machine_terms.specs.Opening.{required_on, requirements_on, with_points};
ghost use Rattle.machine_terms.specs.Pointers.{region_in};

use crate::contents::fields_of;
use lane_kernels::Mode;
use machine_terms::{Contents, RegionValue, Value};
use plain_values::{Sequence, Shared};
use point_sets::PointSet;
use region_tree::{Required, RootId};
use std::alloc::{AllocError, Global};
use task_code::{Code, NeedCode};

/// What declared needs require on arguments; None where a parameter is no region, or its root has no such
/// field. A region without points is never needed.
pub fn requirements_on(
    alloc: Global,
    code: &Code,
    contents: &Contents,
    declared: &[NeedCode],
    values: &[Value],
) -> Result<Option<Sequence<Required>>, AllocError>
    ensures { IfOk result (λ rs. rs ≡ requirements_on code.now contents.now declared.now values.now) }
{
    let mut required = Vec::new(alloc);
    for need in declared {
        match required_on(code, contents, need, values)? {
            Some(one) => add_required(&mut required, one)?,
            None => return Ok(None),
        }
    }
    Ok(Some(Sequence::from_vec(required)))
}

/// What a declared need requires on arguments.
fn required_on(
    code: &Code,
    contents: &Contents,
    declared: &NeedCode,
    values: &[Value],
) -> Result<Option<Required>, AllocError>
    ensures { IfOk result (λ r. r ≡ required_on code.now contents.now declared.now
        (region_in (slice_get values.now declared.now.param))) }
{
    match values.get(declared.param as usize) {
        Some(Value::Region(region)) => required_of(code, contents, declared, region),
        _ => Ok(None),
    }
}

fn required_of(
    code: &Code,
    contents: &Contents,
    declared: &NeedCode,
    region: &RegionValue,
) -> Result<Option<Required>, AllocError>
    ensures { IfOk result (λ r. r ≡ required_on code.now contents.now declared.now (Some region.now)) }
{
    if (declared.field as usize) < fields_of(code, contents, region.root) {
        Ok(Some(Required {
            root: region.root,
            points: region.points.share()?,
            field: declared.field,
            mode: declared.mode,
        }))
    } else {
        Ok(None)
    }
}

fn add_required(required: &mut Vec<Required>, one: Required) -> Result<(), AllocError>
    ensures { OnOk result (required.new.items
        ≡ required.old.items ++ with_points one.points one []) }
{
    if one.points.get().len() > 0 {
        required.push(one)?;
    }
    Ok(())
}

/// Adds that the first fields of a new root are needed for writing. A field above the 256th counts as a
/// want of memory.
pub fn add_root_requirements(
    needs: &mut Sequence<Required>,
    root: RootId,
    points: &Shared<PointSet>,
    fields: usize,
) -> Result<(), AllocError>
    ensures { OnOk result (needs.new ≡ needs.old ++ root_requirements root.0 points.now fields) }
{
    for field in 0..fields {
        let field = u8::try_from(field).map_err(|_| AllocError)?;
        needs.push(Required {
            root,
            points: points.share()?,
            field,
            mode: Mode::Write,
        })?;
    }
    Ok(())
}
