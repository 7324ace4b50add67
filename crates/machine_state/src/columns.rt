//! A field at each point of a region.

ghost use Rattle.std.specs.Prelude.{◌≡◌, IfOk, IfSome, length};
ghost use Rattle.regent_tree.specs.Initializers.{keeps_pointers};
ghost use Rattle.machine_state.specs.Columns.{IsAsLong, columned};
ghost use Rattle.machine_terms.specs.Regions.{column_of, numbers_in, readable};
ghost use Rattle.machine_terms.specs.Parts.{cell_at};
ghost use Rattle.machine_terms.specs.declared.frame.Frame.{Frame};

use crate::holdings::{Holdings, Lack, find_in};
use lane_kernels::{FieldKind, Mode};
use machine_terms::RegionValue;
use plain_values::Sequence;
use point_sets::PointSet;
use region_tree::Part;
use std::alloc::{AllocError, Global};

/// A field at each point of a region.
#[derive(Drop)]
pub enum Column {
    /// It may not be read.
    Unread,
    /// Its part isn't held.
    Awaited,
    /// The numbers, and whether they are pointers.
    Numbers(Sequence<i64>, bool),
}

/// Whether a field keeps pointers.
fn keeps_pointers(kind: FieldKind) -> bool
    ensures { result ≡ keeps_pointers kind }
{
    match kind {
        FieldKind::Pointer => true,
        _ => false,
    }
}

/// The number at a point of a part, where it may be read.
fn number_at(part: &Part, point: u32) -> Option<i64>
    ensures { result ≡ readable (cell_at part.now.pieces point) }
{
    match find_in(part, 0, point) {
        None => None,
        Some(element) => match element.mode {
            Mode::Reduce(_) => None,
            _ => Some(element.value),
        },
    }
}

/// The numbers at points of a part; None where one may not be read.
fn numbers_in(
    alloc: Global,
    part: &Part,
    points: &PointSet,
) -> Result<Option<Sequence<i64>>, AllocError>
    ensures value { IfOk result (λ r. r ≡ numbers_in part.now points.now) }
    ensures long { IfOk result (λ r. IfSome r (λ zs. length zs ≡ length points.now)) }
{
    let count = points.len();
    let mut numbers = Vec::with_capacity(alloc, count as usize)?;
    for place in 0..count {
        let Some(point) = points.at(place) else {
            unreachable!()
        };
        let Some(number) = number_at(part, point) else {
            return Ok(None);
        };
        numbers.push(number)?;
    }
    Ok(Some(Sequence::from_vec(numbers)))
}

impl Holdings {
    /// A field at each point of a region; of no points nothing is read.
    pub fn column(&self, region: &RegionValue, field: u8) -> Result<Column, AllocError>
        ensures column { IfOk result (λ c. (frame : Frame) → frame.needs.items ≡ self.now.needs
            → column_of (record { frame = frame; parts = self.now.parts }) region.now field
            region.now.points ≡ columned c) }
        ensures long { IfOk result (IsAsLong region.now.points) }
    {
        let alloc = self.allocator();
        if region.points.get().len() == 0 {
            return Ok(Column::Numbers(Sequence::new(alloc), false));
        }
        match self.part_of(region.root, field) {
            Err(Lack::Refused) => Ok(Column::Unread),
            Err(Lack::Missing) => Ok(Column::Awaited),
            Ok(part) => match numbers_in(alloc, part, region.points.get())? {
                None => Ok(Column::Unread),
                Some(numbers) => Ok(Column::Numbers(numbers, keeps_pointers(part.kind))),
            },
        }
    }
}
