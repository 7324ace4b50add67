//! Numbers that are written at each point of a region.

ghost use Rattle.std.specs.Prelude.{◌≡◌};
ghost use Rattle.machine_state.specs.Fills.{behind};
ghost use Rattle.machine_terms.specs.Machine.{Machine, Stepped, next};
ghost use Rattle.machine_terms.specs.Parts.{find};
ghost use Rattle.machine_terms.specs.Regions.{fill_cell, fill_points};
ghost use Rattle.machine_terms.specs.declared.frame.Frame.{Frame};
ghost use Rattle.machine_terms.specs.declared.value.Value.{Value as MachineValue};
ghost use Rattle.std.specs.Prelude.{List};

use crate::aims::same_width;
use crate::holdings::{Holdings, Lack};
use lane_kernels::{Mode, Width};
use point_sets::PointSet;
use region_tree::RootId;

impl Holdings {
    /// Writes a number, wrapped, at a point; what lacks for it.
    fn fill_at(
        &mut self,
        root: RootId,
        field: u8,
        width: Width,
        number: i64,
        point: u32,
    ) -> Option<Lack>
        ensures needs { self.new.needs ≡ self.old.needs }
        ensures cell { (frame : Frame) (more : Machine → Stepped) → fill_cell root.0 field width
            point number (find self.old.needs self.old.parts root.0 field point)
            (record { frame = frame; parts = self.old.parts }) more
            ≡ behind result root.0 field (record { frame = frame; parts = self.new.parts }) more }
    {
        match self.find(root, field, point) {
            Err(lack) => Some(lack),
            Ok(element) => {
                if !same_width(element.kind.width(), width) {
                    return Some(Lack::Refused);
                }
                match element.mode {
                    Mode::Write => {
                        self.put(element.spot, width.wrap(number));
                        None
                    }
                    _ => Some(Lack::Refused),
                }
            }
        }
    }

    /// Writes a number, wrapped, at each of these points, up to one for which something lacks.
    pub fn fill(
        &mut self,
        root: RootId,
        field: u8,
        width: Width,
        number: i64,
        points: &PointSet,
    ) -> Option<Lack>
        ensures needs { self.new.needs ≡ self.old.needs }
        ensures cells { (frame : Frame) (st : List MachineValue) → frame.needs.items ≡ self.old.needs
            → fill_points root.0 field width number points.now st
            (record { frame = frame; parts = self.old.parts })
            ≡ behind result root.0 field (record { frame = frame; parts = self.new.parts }) (next st) }
    {
        for place in 0..points.len() {
            let Some(point) = points.at(place) else {
                unreachable!()
            };
            if let Some(lack) = self.fill_at(root, field, width, number, point) {
                return Some(lack);
            }
        }
        None
    }
}
