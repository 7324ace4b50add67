//! Links between points, which the numbers of a field make.

ghost use Rattle.std.specs.Prelude.{[], ◌≡◌, ◌∷◌, ◌++◌, All, IfOk, OnOk, filter, length, map};
ghost use Rattle.std.specs.List.Sorted.{IsPermutation};
ghost use Rattle.std.specs.Option.{option_to_list};
ghost use Rattle.plain_values.specs.Points.{IsPoints, points};
ghost use Rattle.point_sets.specs.declared.TheConstants.{POINT_LIMIT};
ghost use Rattle.regent_tree.specs.Partitions.{point_named};
ghost use Rattle.partitions.specs.Links.{in_range, leads_from, links_at, links_of};
ghost use Rattle.partitions.specs.Links.{targets_at, targets_of};

use crate::listing::{gathered, know_points, listed};
use point_sets::{POINT_LIMIT, PointSet};
use std::alloc::{AllocError, Global};
use std::marker::Model;

/// A step from one point to another.
#[derive(Clone, Copy, Debug)]
pub struct Link {
    pub from: u32,
    pub to: u32,
}

/// Which way a link goes between a point and the point that its number names.
#[derive(Clone, Copy, Debug)]
pub enum Direction {
    Forward,
    Backward,
}

/// Links in the order of the points from which they go; contracts see their list.
#[derive(Debug, Drop)]
pub struct Links {
    links: Vec<Link>,
}

impl Model for Links {
    ghost use Rattle.std.specs.Prelude.{List};
    ghost use Rattle.partitions.specs.Links.{AreLinks};
    ghost use Rattle.partitions.specs.declared.links.Link.{Link};

    ghost Value = { List Link };

    ghost view = { λ a. a.links.items };

    ghost invariant = { λ a. AreLinks a.links.items };
}

impl Links {
    ghost use Rattle.partitions.specs.Links.{AreLinks};

    /// The links of a region's points that end in the parent, with one number for each point.
    pub fn new(
        alloc: Global,
        direction: Direction,
        parent: &PointSet,
        region: &PointSet,
        values: &[i64],
        pointers: bool,
    ) -> Result<Links, AllocError>
        requires { length values.now ≡ length region.now }
        ensures links { IfOk result (λ r.
            IsPermutation (links_of direction parent.now pointers region.now values.now) r) }
        ensures parent { IsPoints POINT_LIMIT parent.now }
        ensures region { IsPoints POINT_LIMIT region.now }
    {
        know_points(parent);
        let points = listed(alloc, region)?;
        let mut links = links_in(
            alloc,
            direction,
            parent,
            points.as_slice(),
            values,
            pointers,
        )?;
        links.sort_unstable_by_key(|link| link.from);
        Ok(Links { links })
    }

    /// The points to which links lead from some point of a list.
    pub fn targets(&self, alloc: Global, points: &[u32]) -> Result<PointSet, AllocError>
        ensures { IfOk result (λ r. r ≡ targets_of self.now points.now) }
    {
        self.know_links();
        let mut targets = Vec::new(alloc);
        for point in points {
            self.add_targets(*point, &mut targets)?;
        }
        gathered(alloc, targets)
    }

    /// The sets of points to which links lead from each of some sets.
    pub fn targets_of_each(
        &self,
        alloc: Global,
        sets: &[PointSet],
    ) -> Result<Vec<PointSet>, AllocError>
        ensures value { IfOk result (λ r. r.items ≡ map (targets_of self.now) sets.now) }
        ensures points { IfOk result (λ r. All (IsPoints POINT_LIMIT) sets.now) }
    {
        let mut targets = Vec::with_capacity(alloc, sets.len())?;
        for set in sets {
            let points = listed(alloc, set)?;
            targets.push(self.targets(alloc, points.as_slice())?)?;
        }
        Ok(targets)
    }

    /// The sets of points to which links lead from each of the first points by itself.
    pub fn targets_of_first(&self, alloc: Global, count: u32) -> Result<Vec<PointSet>, AllocError>
        ensures { IfOk result (λ r.
            r.items ≡ map (λ x. targets_of self.now (x ∷ [])) (points count)) }
    {
        let mut targets = Vec::with_capacity(alloc, count as usize)?;
        for point in 0..count {
            targets.push(self.targets(alloc, &[point])?)?;
        }
        Ok(targets)
    }

    /// Says what links are known to be.
    fn know_links(&self)
        ensures { AreLinks self.now }
    {
        let _ = self.links.len();
    }

    /// Adds the points to which links lead from a point.
    fn add_targets(&self, point: u32, targets: &mut Vec<u32>) -> Result<(), AllocError>
        ensures { OnOk result
            (targets.new.items ≡ targets.old.items ++ targets_at self.now point) }
    {
        for link in self.links_from(point) {
            targets.push(link.to)?;
        }
        Ok(())
    }

    /// The links from a point.
    fn links_from(&self, point: u32) -> &[Link]
        ensures { result.now ≡ filter (leads_from point) self.now }
    {
        let links = self.links.as_slice();
        let first = links.partition_point(|link| link.from < point);
        let rest = &links[first..];
        let count = rest.partition_point(|link| link.from <= point);
        &rest[..count]
    }
}

/// The links of all points, point by point.
fn links_in(
    alloc: Global,
    direction: Direction,
    parent: &PointSet,
    points: &[u32],
    values: &[i64],
    pointers: bool,
) -> Result<Vec<Link>, AllocError>
    requires { length values.now ≡ length points.now }
    ensures { IfOk result (λ r.
        r.items ≡ links_of direction parent.now pointers points.now values.now) }
{
    let mut links = Vec::new(alloc);
    for (place, point) in points.iter().enumerate() {
        let named = named_point(pointers, values[place]);
        if let Some(link) = link_at(direction, parent, *point, named) {
            links.push(link)?;
        }
    }
    Ok(links)
}

/// The point that a field's number names, where there can be a point with its number.
fn named_point(pointers: bool, value: i64) -> Option<u32>
    ensures { result ≡ in_range (point_named pointers value) }
{
    let number = u64::try_from(value).ok()?;
    let number = if pointers { number % (1 << 32) } else { number };
    let point = u32::try_from(number).ok()?;
    if point < POINT_LIMIT {
        Some(point)
    } else {
        None
    }
}

/// The link of a point, where its number names a point and the link ends in the parent.
fn link_at(direction: Direction, parent: &PointSet, point: u32, named: Option<u32>) -> Option<Link>
    ensures { option_to_list result ≡ links_at direction parent.now point named }
{
    let named = named?;
    let link = match direction {
        Direction::Forward => Link {
            from: point,
            to: named,
        },
        Direction::Backward => Link {
            from: named,
            to: point,
        },
    };
    if parent.has(link.to) {
        Some(link)
    } else {
        None
    }
}
