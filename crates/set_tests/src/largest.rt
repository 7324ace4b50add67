//! The operations at their largest sizes.

ghost use Rattle.std.specs.Prelude.{◌≡◌, length};

use partitions::{both, by_field, either_of, equal, image, preimage, without};
use point_sets::{POINT_LIMIT, PointSet};
use std::alloc::{AllocError, Global};

/// Numbers at so many points: the place times a factor, modulo a bound.
fn spread(alloc: Global, count: u32, factor: u32, bound: u32) -> Result<Vec<i64>, AllocError> {
    let mut values = Vec::with_capacity(alloc, count as usize)?;
    for place in 0..count {
        let number = u64::from(place) * u64::from(factor) % u64::from(bound.max(1));
        values.push(number.cast_signed())?;
    }
    Ok(values)
}

/// The points of all sets together.
fn total(sets: &[PointSet]) -> u64 {
    let mut sum = 0_u64;
    for set in sets {
        sum = sum.wrapping_add(u64::from(set.len()));
    }
    sum
}

/// All points in 65536 equal sets.
fn all_parts(alloc: Global) -> Result<Vec<PointSet>, AllocError> {
    let region = PointSet::range(alloc, 0, POINT_LIMIT)?;
    let (sets, _) = equal(alloc, &region, 65_536)?;
    Ok(sets)
}

/// All points by a field that spreads them over 65536 colours.
fn all_by_field(
    alloc: Global,
    region: Result<PointSet, AllocError>,
    values: Result<Vec<i64>, AllocError>,
) -> Result<Vec<PointSet>, AllocError> {
    let region = region?;
    let values = values?;
    if region.len() as usize != values.len() {
        return Ok(Vec::new(alloc));
    }
    let (sets, _) = by_field(alloc, &region, values.as_slice(), 65_536)?;
    Ok(sets)
}

/// Whether 65536 sets that were made have 64 points each of all, and the one at a place begins with these two.
fn largest_come_out(
    sets: Result<Vec<PointSet>, AllocError>,
    place: usize,
    points: [u32; 2],
) -> Result<bool, AllocError> {
    let sets = sets?;
    let Some(set) = sets.get(place) else {
        return Ok(false);
    };
    let [first, second] = points;
    Ok(
        (sets.len(), total(sets.as_slice()), set.len()) == (65_536, 4_194_304, 64)
            && [set.at(0), set.at(1)] == [Some(first), Some(second)],
    )
}

#[test]
fn largest_parts(rt: HostRuntime) -> Result<(), AllocError> {
    let alloc = rt.alloc();
    let equal = largest_come_out(all_parts(alloc), 65_535, [4_194_240, 4_194_241])?;
    let region = PointSet::range(alloc, 0, POINT_LIMIT);
    let values = spread(alloc, POINT_LIMIT, 40_503, 65_536);
    let sets = all_by_field(alloc, region, values);
    let fields = largest_come_out(sets, 40_503, [1, 65_537])?;
    assert_eq!(rt; [equal, fields], [true; 2]);
    Ok(())
}

/// How many colours and points an operation gives.
fn sizes(made: Result<(Vec<PointSet>, bool), AllocError>) -> Result<(usize, u64), AllocError> {
    let (sets, _) = made?;
    Ok((sets.len(), total(sets.as_slice())))
}

/// The sizes of what both, either and only the first of the same sets twice have.
fn sizes_of(alloc: Global, sets: &[PointSet]) -> Result<[(usize, u64); 3], AllocError> {
    let same = sizes(both(alloc, sets, sets, true))?;
    let all = sizes(either_of(alloc, sets, sets))?;
    let rest = sizes(without(alloc, sets, sets, false))?;
    Ok([same, all, rest])
}

#[test]
fn largest_set_operations(rt: HostRuntime) -> Result<(), AllocError> {
    let sets = all_parts(rt.alloc())?;
    assert_eq!(rt;
        sizes_of(rt.alloc(), sets.as_slice())?,
        [(65_536, 4_194_304), (65_536, 4_194_304), (65_536, 0)]
    );
    Ok(())
}

/// The images of a thousand equal parts of a region within it.
fn images_of_parts(
    alloc: Global,
    region: &PointSet,
    values: &[i64],
) -> Result<Vec<PointSet>, AllocError>
    requires { length values.now ≡ length region.now }
{
    let (parts, _) = equal(alloc, region, 1_000)?;
    let (images, _) = image(alloc, region, parts.as_slice(), region, values, false)?;
    Ok(images)
}

/// The preimages of sets within a region.
fn preimages_of(
    alloc: Global,
    sets: &[PointSet],
    region: &PointSet,
    values: &[i64],
) -> Result<Vec<PointSet>, AllocError>
    requires { length values.now ≡ length region.now }
{
    let (back, _) = preimage(alloc, region, sets, region, values, false, false)?;
    Ok(back)
}

/// Whether images and their preimages are as many as told, and the second ones begin and end as told.
fn are_thousands(images: &[PointSet], back: &[PointSet]) -> bool {
    let counts = [images.len(), back.len()] == [1_000, 1_000];
    let (Some(image), Some(part)) = (images.get(1), back.get(1)) else {
        return false;
    };
    let points = [image.at(0), image.at(1), part.at(0), part.at(999)];
    counts
        && [total(images), total(back)] == [1_000_000, 1_000_000]
        && points == [Some(7_000), Some(7_007), Some(1_000), Some(1_999)]
}

/// Whether the images of a thousand parts of a region and their preimages are as told.
fn images_are_thousands(
    alloc: Global,
    region: &PointSet,
    values: &[i64],
) -> Result<bool, AllocError> {
    if region.len() as usize != values.len() {
        return Ok(false);
    }
    let images = images_of_parts(alloc, region, values)?;
    let back = preimages_of(alloc, images.as_slice(), region, values)?;
    Ok(are_thousands(images.as_slice(), back.as_slice()))
}

/// Whether they are so for a region and values that were made.
fn large_images_come_out(
    alloc: Global,
    region: Result<PointSet, AllocError>,
    values: Result<Vec<i64>, AllocError>,
) -> Result<bool, AllocError> {
    let region = region?;
    let values = values?;
    images_are_thousands(alloc, &region, values.as_slice())
}

#[test]
fn large_images(rt: HostRuntime) -> Result<(), AllocError> {
    let alloc = rt.alloc();
    let region = PointSet::range(alloc, 0, 1_000_000);
    let values = spread(alloc, 1_000_000, 7, 1_000_000);
    assert!(rt; large_images_come_out(alloc, region, values)?);
    Ok(())
}
