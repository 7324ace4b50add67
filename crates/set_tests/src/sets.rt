//! Small sets against lists by hand, the edges, and sets of two million runs.

ghost use Rattle.std.specs.Prelude.{IfOk};
ghost use Rattle.plain_values.specs.Points.{IsPoints};

use crate::rows::{are_points, set_of};
use point_sets::{POINT_LIMIT, PointSet};
use std::alloc::{AllocError, Global};

/// Whether the union, the meet and the difference of two sets have the points of these texts.
fn come_out(a: &PointSet, b: &PointSet, texts: [&str; 3]) -> Result<bool, AllocError> {
    let [either, both, rest] = texts;
    let union = are_points(a.union(b), either)?;
    let meet = are_points(a.meet(b), both)?;
    let minus = are_points(a.minus(b), rest)?;
    Ok(union && meet && minus)
}

/// Whether two sets that were made are related as their meet and difference are, and these have the points of the texts.
fn pair_comes_out(
    a: Result<PointSet, AllocError>,
    b: Result<PointSet, AllocError>,
    texts: [&str; 3],
) -> Result<bool, AllocError> {
    let a = a?;
    let b = b?;
    let [_, both, rest] = texts;
    let related = [a.meets(&b), a.within(&b)] == [!both.is_empty(), rest.is_empty()];
    Ok(come_out(&a, &b, texts)? && related)
}

/// How many points a set that was made has.
fn size(made: Result<PointSet, AllocError>) -> Result<u32, AllocError> {
    Ok(made?.len())
}

/// Every second point.
fn evens(alloc: Global) -> Result<Vec<u32>, AllocError>
    ensures { IfOk result (λ v. IsPoints POINT_LIMIT v.items) }
{
    let mut points = Vec::with_capacity(alloc, 2_097_152)?;
    for half in 0..POINT_LIMIT / 2 {
        points.push(2 * half)?;
    }
    Ok(points)
}

#[test]
fn small_sets(rt: HostRuntime) -> Result<(), AllocError> {
    let alloc = rt.alloc();
    let rows = [
        ("", "", ["", "", ""]),
        ("", "2-4", ["2 3 4", "", ""]),
        ("2-4", "", ["2 3 4", "", "2 3 4"]),
        ("1 4", "2-4", ["1 2 3 4", "4", "1"]),
        ("7", "7", ["7", "7", ""]),
        ("7", "8", ["7 8", "", "7"]),
        ("3", "1-5", ["1 2 3 4 5", "3", ""]),
        (
            "0-1 4-5 8-9",
            "2-3 6-7",
            ["0 1 2 3 4 5 6 7 8 9", "", "0 1 4 5 8 9"],
        ),
        (
            "0-2 5-7 10-11",
            "2-5 7-10",
            ["0 1 2 3 4 5 6 7 8 9 10 11", "2 5 7 10", "0 1 6 11"],
        ),
        (
            "4194302-4194303",
            "4194303",
            ["4194302 4194303", "4194303", "4194302"],
        ),
    ];
    for (left, right, texts) in rows {
        let comes_out = pair_comes_out(set_of(alloc, left), set_of(alloc, right), texts)?;
        assert!(rt; comes_out, "{left} and {right}");
    }
    Ok(())
}

/// Whether the set of all points and one of none that were made have their sizes, their last points and their places.
fn edges_come_out(
    all: Result<PointSet, AllocError>,
    none: Result<PointSet, AllocError>,
) -> Result<bool, AllocError> {
    let all = all?;
    let none = none?;
    let points = [all.at(4_194_303), all.at(4_194_304), none.at(0)];
    let places = [all.place_of(4_194_303), all.place_of(4_194_304)];
    let related = [all.has(4_194_304), none.within(&all)];
    Ok(
        [all.len(), none.len()] == [4_194_304, 0]
            && points == [Some(4_194_303), None, None]
            && places == [Some(4_194_303), None]
            && related == [false, true],
    )
}

#[test]
fn edges(rt: HostRuntime) -> Result<(), AllocError> {
    let alloc = rt.alloc();
    let all = set_of(alloc, "0-4194303");
    assert!(rt; edges_come_out(all, set_of(alloc, "5-1"))?);
    Ok(())
}

/// How many points the set of a list has, and how many its copy has.
fn sizes(alloc: Global, points: &[u32]) -> Result<(u32, u32), AllocError>
    requires { IsPoints POINT_LIMIT points.now }
{
    let set = PointSet::from_sorted(alloc, points)?;
    Ok((set.len(), size(set.copy())?))
}

#[test]
fn lists_are_held_and_copied(rt: HostRuntime) -> Result<(), AllocError> {
    let alloc = rt.alloc();
    let found = [sizes(alloc, &[])?, sizes(alloc, &[3, 4, 5, 9])?];
    assert_eq!(rt; found, [(0, 0), (4, 4)]);
    Ok(())
}

#[test]
fn two_points(rt: HostRuntime) -> Result<(), AllocError> {
    let pair = PointSet::from_sorted(rt.alloc(), &[1, 4])?;
    let rows = [
        (0, false, None, Some(1)),
        (1, true, Some(0), Some(4)),
        (4, true, Some(1), None),
        (5, false, None, None),
    ];
    for (number, held, place, point) in rows {
        let found = (pair.has(number), pair.place_of(number), pair.at(number));
        assert_eq!(rt; found, (held, place, point));
    }
    Ok(())
}

/// Whether each even point is at its half's place among the even ones, and none of them among the odd ones.
fn halves_are_places(even: &PointSet, odd: &PointSet) -> bool {
    for half in 0..POINT_LIMIT / 2 {
        let point = 2 * half;
        let found = (even.at(half), even.place_of(point), odd.has(point));
        if found != (Some(point), Some(half), false) {
            return false;
        }
    }
    true
}

/// How many points a copy of the even ones has, the odd ones, both together, and those of all points that are odd.
fn run_sizes(all: &PointSet, even: &PointSet, odd: &PointSet) -> Result<[u32; 4], AllocError> {
    let copied = size(even.copy())?;
    let together = size(even.union(odd))?;
    let meet = size(all.meet(odd))?;
    Ok([copied, odd.len(), together, meet])
}

/// The set of the even points.
fn even_points(alloc: Global) -> Result<PointSet, AllocError> {
    let points = evens(alloc)?;
    PointSet::from_sorted(alloc, points.as_slice())
}

/// Whether the sets of all points, of the even and of the odd ones are related and sized as told.
fn runs_come_out(all: &PointSet, even: &PointSet, odd: &PointSet) -> Result<bool, AllocError> {
    let related = [even.meets(odd), odd.within(all), all.within(odd)];
    let sizes = run_sizes(all, even, odd)?;
    Ok(
        related == [false, true, false]
            && sizes == [2_097_152, 2_097_152, 4_194_304, 2_097_152]
            && halves_are_places(even, odd),
    )
}

/// Whether they are so for sets of all points and of the even ones that were made.
fn halves_come_out(
    all: Result<PointSet, AllocError>,
    even: Result<PointSet, AllocError>,
) -> Result<bool, AllocError> {
    let all = all?;
    let even = even?;
    let odd = all.minus(&even)?;
    runs_come_out(&all, &even, &odd)
}

#[test]
fn two_million_runs(rt: HostRuntime) -> Result<(), AllocError> {
    let alloc = rt.alloc();
    let all = set_of(alloc, "0-4194303");
    assert!(rt; halves_come_out(all, even_points(alloc))?);
    Ok(())
}

/// How many words a set that was made takes.
fn words_of(made: Result<PointSet, AllocError>) -> Result<usize, AllocError> {
    Ok(made?.words())
}

#[test]
fn sets_take_the_fewest_words(rt: HostRuntime) -> Result<(), AllocError> {
    let alloc = rt.alloc();
    let rows = [
        ("", 0),
        ("0-4194303", 1),
        ("4 6", 1),
        ("63 65", 2),
        ("62 64 66", 2),
        ("0 2 4194303", 3),
        ("126 128 0-99", 3),
        ("0 2 1", 1),
    ];
    for (points, words) in rows {
        assert_eq!(rt; words_of(set_of(alloc, points))?, words, "{points}");
    }
    Ok(())
}
