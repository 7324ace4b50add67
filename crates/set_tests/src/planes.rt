//! Small planes against lists by hand, the edges of words, and planes of all even and all third points.

ghost use Rattle.std.specs.Prelude.{◌*◌, ◌<◌, ◌≤◌};
ghost use Rattle.plain_values.specs.Points.{IsPoints};

use crate::rows::{LIMIT, plane_has_points, plane_of, plane_range};
use bit_planes::{Plane, PlaneBuilder, WORD_LIMIT};
use std::alloc::{AllocError, Global};

/// Every so many-th point from 0 on.
fn every(alloc: Global, step: u32) -> Result<Plane, AllocError>
    requires some { 0 < step }
    requires few { step ≤ 100 }
{
    let mut builder = PlaneBuilder::new(alloc, 0, LIMIT - 1)?;
    let mut point = 0;
    while point < LIMIT {
        builder.set_range(point, point + 1);
        point += step;
    }
    builder.finish()
}

/// Whether the union, the meet and the difference of two planes have the points of these texts.
fn come_out(a: &Plane, b: &Plane, texts: [&str; 3]) -> Result<bool, AllocError> {
    let [either, both, rest] = texts;
    let union = has_form(a.union(b), either, None)?;
    let meet = has_form(a.meet(b), both, None)?;
    let minus = has_form(a.minus(b), rest, None)?;
    Ok(union && meet && minus)
}

/// Whether two planes that were made are related as their meet and difference are, and these have the points of the texts.
fn pair_comes_out(
    a: Result<Plane, AllocError>,
    b: Result<Plane, AllocError>,
    texts: [&str; 3],
) -> Result<bool, AllocError> {
    let a = a?;
    let b = b?;
    let [_, both, rest] = texts;
    let related = [a.meets(&b), a.within(&b)] == [!both.is_empty(), rest.is_empty()];
    Ok(come_out(&a, &b, texts)? && related)
}

/// How many points either of two planes has, both have, and the first alone has.
fn sizes(a: &Plane, b: &Plane) -> Result<[u32; 3], AllocError> {
    let either = a.union(b)?;
    let both = a.meet(b)?;
    let rest = a.minus(b)?;
    Ok([either.len(), both.len(), rest.len()])
}

#[test]
fn small_planes(rt: HostRuntime) -> Result<(), AllocError> {
    let alloc = rt.alloc();
    let rows = [
        ("", "", ["", "", ""]),
        ("", "2-4", ["2 3 4", "", ""]),
        ("2-4", "", ["2 3 4", "", "2 3 4"]),
        ("1 4", "2-4", ["1 2 3 4", "4", "1"]),
        (
            "62-65",
            "64-69",
            ["62 63 64 65 66 67 68 69", "64 65", "62 63"],
        ),
        ("0 64 128", "64", ["0 64 128", "64", "0 128"]),
        ("127-128", "127", ["127 128", "127", "128"]),
        ("5", "200", ["5 200", "", "5"]),
        (
            "4194302-4194303",
            "4194303",
            ["4194302 4194303", "4194303", "4194302"],
        ),
    ];
    for (left, right, texts) in rows {
        let comes_out = pair_comes_out(plane_of(alloc, left), plane_of(alloc, right), texts)?;
        assert!(rt; comes_out, "{left} and {right}");
    }
    Ok(())
}

/// The plane of a list.
fn of_list(alloc: Global, points: &[u32]) -> Result<Plane, AllocError>
    requires { IsPoints (64 * WORD_LIMIT) points.now }
{
    Plane::from_sorted(alloc, points)
}

/// Whether the stretches of 3, 63, 64 and 200 are found from before, within and after them.
fn stretches_are_found(plane: Result<Plane, AllocError>) -> Result<bool, AllocError> {
    let plane = plane?;
    for (point, stretch) in [
        (0, Some(3..4)),
        (4, Some(63..65)),
        (64, Some(64..65)),
        (65, Some(200..201)),
        (201, None),
    ] {
        if plane.stretch_from(point) != stretch {
            return Ok(false);
        }
    }
    Ok(true)
}

/// A copy of a plane without the points below 65.
fn without_first(alloc: Global, plane: Result<Plane, AllocError>) -> Result<Plane, AllocError> {
    let plane = plane?;
    let rest = plane.minus(&plane_range(alloc, 0, 65)?)?;
    rest.copy()
}

/// Whether a plane that was made has these points and no others, in so many words and stretches where they are given.
fn has_form(
    plane: Result<Plane, AllocError>,
    points: &str,
    form: Option<(usize, u32)>,
) -> Result<bool, AllocError> {
    let plane = plane?;
    let is_formed = match form {
        Some(form) => (plane.words(), plane.stretches()) == form,
        None => true,
    };
    Ok(is_formed && plane_has_points(&plane, points))
}

#[test]
fn lists_and_words(rt: HostRuntime) -> Result<(), AllocError> {
    let alloc = rt.alloc();
    let points = [3, 63, 64, 200];
    let rest = without_first(alloc, of_list(alloc, &points));
    let found = [
        has_form(of_list(alloc, &points), "3 63 64 200", Some((4, 3)))?,
        has_form(rest, "200", Some((1, 1)))?,
        has_form(of_list(alloc, &[]), "", Some((0, 0)))?,
        stretches_are_found(of_list(alloc, &points))?,
    ];
    assert_eq!(rt; found, [true; 4]);
    Ok(())
}

/// Whether planes of the even points and of every third one that were made are sized and related as told.
fn thirds_come_out(
    even: Result<Plane, AllocError>,
    third: Result<Plane, AllocError>,
) -> Result<bool, AllocError> {
    let even = even?;
    let third = third?;
    let sizes = sizes(&even, &third)?;
    let points = [even.at(1_000_000), even.at(2_097_152)];
    let places = [even.place_of(4_194_302), even.place_of(3)];
    Ok(
        [even.len(), third.len(), even.stretches()] == [2_097_152, 1_398_102, 2_097_152]
            && sizes == [2_796_203, 699_051, 1_398_101]
            && [even.meets(&third), even.within(&third)] == [true, false]
            && points == [Some(2_000_000), None]
            && places == [Some(2_097_151), None],
    )
}

#[test]
fn even_and_third_points(rt: HostRuntime) -> Result<(), AllocError> {
    let alloc = rt.alloc();
    assert!(rt; thirds_come_out(every(alloc, 2), every(alloc, 3))?);
    Ok(())
}

/// Whether the planes of all points, of the even and of the odd ones are sized and related as told.
fn planes_come_out(all: &Plane, even: &Plane, odd: &Plane) -> Result<bool, AllocError> {
    let related = [
        odd.meets(even),
        odd.within(all),
        all.within(odd),
        all.has(LIMIT),
    ];
    let sizes = sizes(odd, even)?;
    Ok(
        (all.len(), all.words(), all.stretches()) == (LIMIT, 65_536, 1)
            && all.stretch_from(100) == Some(100..LIMIT)
            && sizes == [LIMIT, 0, 2_097_152]
            && related == [false, true, false, false],
    )
}

/// Whether they are so for planes of all points and of the even ones that were made.
fn all_come_out(
    all: Result<Plane, AllocError>,
    even: Result<Plane, AllocError>,
) -> Result<bool, AllocError> {
    let all = all?;
    let even = even?;
    let odd = all.minus(&even)?;
    planes_come_out(&all, &even, &odd)
}

#[test]
fn all_points(rt: HostRuntime) -> Result<(), AllocError> {
    let alloc = rt.alloc();
    assert!(rt; all_come_out(plane_range(alloc, 0, LIMIT), every(alloc, 2))?);
    Ok(())
}
