//! Points, sets and numbers as text: `0-2 5` is the set of 0, 1, 2 and 5, and `0 1; ; 5;` are three sets.

use bit_planes::{Plane, PlaneBuilder};
use point_sets::{POINT_LIMIT, PointSet};
use std::alloc::{AllocError, Global};

/// How many points there are.
pub const LIMIT: u32 = POINT_LIMIT;

/// The first point of a word `2-4` or `2`, and the end behind its last one.
fn range_of(word: &str) -> (u32, u32) {
    let (first, last) = word.split_once('-').unwrap_or((word, word));
    let first = first.parse::<u32>().unwrap_or(LIMIT);
    let last = last.parse::<u32>().unwrap_or(0);
    (first, last.saturating_add(1))
}

/// The set of some points.
pub fn set_of(alloc: Global, text: &str) -> Result<PointSet, AllocError> {
    let mut set = PointSet::empty(alloc)?;
    for word in text.split_whitespace() {
        let (first, end) = range_of(word);
        set = set.union(&PointSet::range(alloc, first, end.min(POINT_LIMIT))?)?;
    }
    Ok(set)
}

/// Sets, each of which has a semicolon after it.
pub fn sets_of(alloc: Global, text: &str) -> Result<Vec<PointSet>, AllocError> {
    let mut sets = Vec::new(alloc);
    let mut rest = text;
    for _ in 0..text.len() {
        let Some((one, more)) = rest.split_once(';') else {
            break;
        };
        sets.push(set_of(alloc, one)?)?;
        rest = more;
    }
    Ok(sets)
}

/// Some numbers.
pub fn numbers_of(alloc: Global, text: &str) -> Result<Vec<i64>, AllocError> {
    let mut numbers = Vec::new(alloc);
    for word in text.split_whitespace() {
        numbers.push(word.parse::<i64>().unwrap_or(0))?;
    }
    Ok(numbers)
}

/// Whether a set has these points, each at its place, and no others.
pub fn has_points(set: &PointSet, text: &str) -> bool {
    let mut place = 0_u32;
    for word in text.split_whitespace() {
        let (point, _) = range_of(word);
        if set.at(place) != Some(point) {
            return false;
        }
        place = place.wrapping_add(1);
    }
    set.len() == place
}

/// The same for a set that was made.
pub fn are_points(made: Result<PointSet, AllocError>, text: &str) -> Result<bool, AllocError> {
    let set = made?;
    Ok(has_points(&set, text))
}

/// Whether sets have these points, colour by colour.
pub fn have_points(sets: &[PointSet], text: &str) -> bool {
    let mut rest = text;
    for set in sets {
        let Some((one, more)) = rest.split_once(';') else {
            return false;
        };
        if !has_points(set, one) {
            return false;
        }
        rest = more;
    }
    rest.is_empty()
}

/// The points from one to below another.
pub fn plane_range(alloc: Global, start: u32, end: u32) -> Result<Plane, AllocError> {
    if start >= end || end > LIMIT {
        return PlaneBuilder::new(alloc, 0, 0)?.finish();
    }
    let mut builder = PlaneBuilder::new(alloc, start, end - 1)?;
    builder.set_range(start, end);
    builder.finish()
}

/// The plane of some points.
pub fn plane_of(alloc: Global, text: &str) -> Result<Plane, AllocError> {
    let mut plane = plane_range(alloc, 0, 0)?;
    for word in text.split_whitespace() {
        let (first, end) = range_of(word);
        plane = plane.union(&plane_range(alloc, first, end)?)?;
    }
    Ok(plane)
}

/// Whether a plane has these points, each at its place, and no others.
pub fn plane_has_points(plane: &Plane, text: &str) -> bool {
    let mut place = 0_u32;
    for word in text.split_whitespace() {
        let (point, _) = range_of(word);
        let found = (plane.at(place), plane.place_of(point), plane.has(point));
        if found != (Some(point), Some(place), true) {
            return false;
        }
        place = place.wrapping_add(1);
    }
    plane.len() == place
}
