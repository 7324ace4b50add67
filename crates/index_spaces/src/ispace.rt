//! Index spaces of one dimension.

ghost use Rattle.std.specs.Prelude.{◌≡◌, ◌↔◌, ◌⊎◌, ◌≤◌, ◌<ℤ◌, pos, IfOk};
ghost use Rattle.plain_values.specs.Points.{IsPoints, points};
ghost use Rattle.point_sets.specs.declared.TheConstants.{POINT_LIMIT};

use point_sets::{POINT_LIMIT, PointSet};
use std::alloc::{AllocError, Global};
use std::marker::Model;

/// Why there is no index space.
#[derive(Clone, Copy, Debug, PartialEq, Eq)]
pub enum SpaceFault {
    /// The size is below 0 or over the number of points.
    BadSize,
}

/// An index space, which contracts see as its size.
#[derive(Clone, Copy, Debug, PartialEq, Eq)]
pub struct Ispace {
    size: u32,
}

impl Model for Ispace {
    ghost use Rattle.std.specs.Prelude.{◌≤◌, ℕ};
    ghost use Rattle.point_sets.specs.declared.TheConstants.{POINT_LIMIT};

    ghost Value = { ℕ };

    ghost view = { λ s. s.size };

    ghost invariant = { λ s. s.size ≤ POINT_LIMIT };

    ghost inverse = { λ n. record { size = n } };
}

impl Ispace {
    /// The index space of so many points.
    pub fn line(n: i64) -> Result<Ispace, SpaceFault>
        ensures size { IfOk result (λ space. n ≡ pos space) }
        ensures bad_size { (result ≡ Err SpaceFault.BadSize)
            ↔ ((n <ℤ pos 0) ⊎ (pos POINT_LIMIT <ℤ n)) }
    {
        match u32::try_from(n) {
            Ok(size) if size <= POINT_LIMIT => Ok(Ispace { size }),
            _ => Err(SpaceFault::BadSize),
        }
    }

    /// How many points the space has.
    pub fn volume(&self) -> u32
        ensures size { result ≡ self.now }
        ensures limit { self.now ≤ POINT_LIMIT }
    {
        self.size
    }

    /// The points of the space: 0 to its size less 1.
    pub fn points(&self, alloc: Global) -> Result<PointSet, AllocError>
        ensures value { IfOk result (λ r. r ≡ points self.now) }
        ensures set { IfOk result (IsPoints POINT_LIMIT) }
    {
        PointSet::range(alloc, 0, self.size)
    }
}

#[cfg(test)]
mod tests {
    use super::*;

    #[test]
    fn sizes_and_points(rt: HostRuntime) -> Result<(), AllocError> {
        let rows: [(i64, Result<&[u32], SpaceFault>); 7] = [
            (0, Ok(&[])),
            (1, Ok(&[0])),
            (3, Ok(&[0, 1, 2])),
            (-1, Err(SpaceFault::BadSize)),
            (4_194_305, Err(SpaceFault::BadSize)),
            (i64::MIN, Err(SpaceFault::BadSize)),
            (i64::MAX, Err(SpaceFault::BadSize)),
        ];
        for (n, want) in rows {
            match (Ispace::line(n), want) {
                (Ok(space), Ok(points)) => {
                    let set = space.points(rt.alloc())?;
                    assert_eq!(rt; space.volume() as usize, points.len());
                    for (place, point) in (0..set.len()).zip(points) {
                        assert_eq!(rt; set.at(place), Some(*point));
                    }
                }
                (Err(fault), Err(wanted)) => assert_eq!(rt; fault, wanted),
                _ => assert!(rt; false, "line({n})"),
            }
        }
        Ok(())
    }

    #[test]
    fn largest(rt: HostRuntime) -> Result<(), AllocError> {
        for n in [4_194_304] {
            let Ok(space) = Ispace::line(n) else {
                assert!(rt; false, "line({n})");
                return Ok(());
            };
            let set = space.points(rt.alloc())?;
            assert_eq!(rt; (space.volume(), set.len()), (4_194_304, 4_194_304));
            assert_eq!(rt; set.at(4_194_303), Some(4_194_303));
        }
        Ok(())
    }
}
