//! The operations against tables by hand.

use crate::rows::{have_points, numbers_of, set_of, sets_of};
use partitions::{both, by_field, either_of, equal, image, preimage, without};
use point_sets::PointSet;
use std::alloc::{AllocError, Global};

/// Whether the sets that an operation gave have the points of a text, and this flag beside them.
fn come_out(
    given: Result<(Vec<PointSet>, bool), AllocError>,
    flag: bool,
    text: &str,
) -> Result<bool, AllocError> {
    let (sets, disjoint) = given?;
    Ok(disjoint == flag && have_points(sets.as_slice(), text))
}

/// Whether the equal parts of a region have the points of a text.
fn equal_come_out(
    alloc: Global,
    region: Result<PointSet, AllocError>,
    colours: u32,
    text: &str,
) -> Result<bool, AllocError> {
    let region = region?;
    come_out(equal(alloc, &region, colours), true, text)
}

#[test]
fn equal_parts(rt: HostRuntime) -> Result<(), AllocError> {
    let alloc = rt.alloc();
    let rows = [
        ("0-9", 4, "0 1; 2 3 4; 5 6; 7 8 9;"),
        ("0-2", 0, ""),
        ("", 2, ";;"),
        ("5", 3, ";; 5;"),
        ("2 3 9", 1, "2 3 9;"),
        ("2 3 9 40", 3, "2; 3; 9 40;"),
        ("1 4194303", 2, "1; 4194303;"),
    ];
    for (region, colours, text) in rows {
        let parts = equal_come_out(alloc, set_of(alloc, region), colours, text)?;
        assert!(rt; parts, "{colours} of {region}");
    }
    Ok(())
}

/// Whether the parts of a region by a field, in three colours at most, have the points of a text.
fn fields_come_out(
    alloc: Global,
    region: Result<PointSet, AllocError>,
    values: Result<Vec<i64>, AllocError>,
    colours: u32,
    text: &str,
) -> Result<bool, AllocError> {
    let region = region?;
    let values = values?;
    if region.len() as usize != values.len() || colours > 3 {
        return Ok(false);
    }
    come_out(
        by_field(alloc, &region, values.as_slice(), colours),
        true,
        text,
    )
}

#[test]
fn fields(rt: HostRuntime) -> Result<(), AllocError> {
    let alloc = rt.alloc();
    let rows = [
        ("0-3", "0 7 1 0", 2, "0 3; 2;"),
        ("0-3", "-1 2 1 3", 3, "; 2; 1;"),
        ("4 9", "1 0", 2, "9; 4;"),
        ("4 9", "1 0", 0, ""),
        ("", "", 1, ";"),
        (
            "1-3",
            "4294967296 9223372036854775807 -9223372036854775808",
            1,
            ";",
        ),
    ];
    for (region, values, colours, text) in rows {
        let (region, values) = (set_of(alloc, region), numbers_of(alloc, values));
        let parts = fields_come_out(alloc, region, values, colours, text)?;
        assert!(rt; parts, "{text}");
    }
    Ok(())
}

/// A field at the points of a region, both as texts.
#[derive(Clone, Copy)]
struct Field<'a> {
    region: &'a str,
    values: &'a str,
    are_pointers: bool,
}

impl Field<'_> {
    /// Whether the images of sets within a parent by the field have the points of a text.
    fn has_images(
        self,
        alloc: Global,
        parent: &PointSet,
        sets: &[PointSet],
        text: &str,
    ) -> Result<bool, AllocError> {
        let region = set_of(alloc, self.region)?;
        let values = numbers_of(alloc, self.values)?;
        if region.len() as usize != values.len() {
            return Ok(false);
        }
        let values = values.as_slice();
        let images = image(alloc, parent, sets, &region, values, self.are_pointers);
        come_out(images, false, text)
    }

    /// The same for preimages, with a flag that tells whether the sets share no points.
    fn has_preimages(
        self,
        alloc: Global,
        parent: &PointSet,
        sets: &[PointSet],
        flag: bool,
        text: &str,
    ) -> Result<bool, AllocError> {
        let region = set_of(alloc, self.region)?;
        let values = numbers_of(alloc, self.values)?;
        if region.len() as usize != values.len() {
            return Ok(false);
        }
        let values = values.as_slice();
        let back = preimage(
            alloc,
            parent,
            sets,
            &region,
            values,
            self.are_pointers,
            flag,
        );
        come_out(back, flag, text)
    }
}

/// Whether the images of sets that were made within a parent that was made have the points of a text.
fn images_come_out(
    alloc: Global,
    parent: Result<PointSet, AllocError>,
    sets: Result<Vec<PointSet>, AllocError>,
    field: Field<'_>,
    text: &str,
) -> Result<bool, AllocError> {
    let parent = parent?;
    let sets = sets?;
    field.has_images(alloc, &parent, sets.as_slice(), text)
}

#[test]
fn images(rt: HostRuntime) -> Result<(), AllocError> {
    let alloc = rt.alloc();
    let rows = [
        ("0-3", "0 1;", "0-2", "2 2 0", false, "2;"),
        ("0-3", "0 1;", "0-2", "-1 4294967299 0", true, "3;"),
        ("0-3", "0 1;", "0-2", "-1 4294967299 0", false, ";"),
        ("0-3", "", "0", "0", false, ""),
        ("0-3", "; 5;", "5", "1", false, "; 1;"),
        ("1 2", "0-2;", "0-2", "3 2 0", false, "2;"),
        (
            "0-3",
            "7 8; 8 9; 7 8;",
            "7-9",
            "3 0 1",
            false,
            "0 3; 0 1; 0 3;",
        ),
        (
            "0 4194303",
            "0-2;",
            "0-2",
            "4194304 4194303 9223372036854775807",
            false,
            "4194303;",
        ),
    ];
    for (parent, sets, region, values, are_pointers, text) in rows {
        let (parent, sets) = (set_of(alloc, parent), sets_of(alloc, sets));
        let field = Field {
            region,
            values,
            are_pointers,
        };
        assert!(rt;
            images_come_out(alloc, parent, sets, field, text)?,
            "{values}: {text}"
        );
    }
    Ok(())
}

/// Whether the preimages of sets that were made within a parent that was made have the points of a text.
fn preimages_come_out(
    alloc: Global,
    parent: Result<PointSet, AllocError>,
    sets: Result<Vec<PointSet>, AllocError>,
    field: Field<'_>,
    flag: bool,
    text: &str,
) -> Result<bool, AllocError> {
    let parent = parent?;
    let sets = sets?;
    field.has_preimages(alloc, &parent, sets.as_slice(), flag, text)
}

#[test]
fn preimages(rt: HostRuntime) -> Result<(), AllocError> {
    let alloc = rt.alloc();
    let rows = [
        ("0-2", "0; 2;", "2 2 0", false, true, "2; 0 1;"),
        ("1", "0; 2;", "2 2 0", false, true, "; 1;"),
        (
            "0-2",
            "0 2; 2;; 0-2;",
            "2 1 0",
            false,
            false,
            "0 2; 0;; 0 1 2;",
        ),
        ("0-2", "0; 3;", "-1 4294967299 3", true, true, "; 1 2;"),
        ("0-2", "0; 3;", "-1 4294967299 3", false, true, "; 2;"),
        ("0-2", "", "0 0 0", false, true, ""),
        (
            "0-2",
            "4194303;",
            "4194303 4194304 -9223372036854775808",
            false,
            true,
            "0;",
        ),
    ];
    for (parent, sets, values, are_pointers, flag, text) in rows {
        let (parent, sets) = (set_of(alloc, parent), sets_of(alloc, sets));
        let field = Field {
            region: "0-2",
            values,
            are_pointers,
        };
        let comes_out = preimages_come_out(alloc, parent, sets, field, flag, text)?;
        assert!(rt; comes_out, "{values}: {text}");
    }
    Ok(())
}

/// Whether the operations on sets, colour by colour, have the points of these texts, with each flag.
fn operations_on(
    alloc: Global,
    p: &[PointSet],
    q: &[PointSet],
    texts: [&str; 3],
) -> Result<bool, AllocError> {
    let [meet, union, rest] = texts;
    let mut are_well = come_out(either_of(alloc, p, q), false, union)?;
    for flag in [false, true] {
        let met = come_out(both(alloc, p, q, flag), flag, meet)?;
        let left = come_out(without(alloc, p, q, flag), flag, rest)?;
        are_well = are_well && met && left;
    }
    Ok(are_well)
}

/// Whether the operations on sets that were made have the points of these texts.
fn operations_come_out(
    alloc: Global,
    left: Result<Vec<PointSet>, AllocError>,
    right: Result<Vec<PointSet>, AllocError>,
    texts: [&str; 3],
) -> Result<bool, AllocError> {
    let left = left?;
    let right = right?;
    operations_on(alloc, left.as_slice(), right.as_slice(), texts)
}

#[test]
fn set_operations(rt: HostRuntime) -> Result<(), AllocError> {
    let alloc = rt.alloc();
    let rows = [
        ("0 1;", "", [";", "0 1;", "0 1;"]),
        ("", "0 1;", ["", "", ""]),
        (
            "0 1; 1 2;;",
            "1 2; 1 2; 3;",
            ["1; 1 2;;", "0 1 2; 1 2; 3;", "0;;;"],
        ),
        ("4; 4 6 8;", "4;", ["4;;", "4; 4 6 8;", "; 4 6 8;"]),
        (
            "0 4194303;",
            "1 4194303; 7;",
            ["4194303;", "0 1 4194303;", "0;"],
        ),
    ];
    for (left, right, texts) in rows {
        let (p, q) = (sets_of(alloc, left), sets_of(alloc, right));
        assert!(rt;
            operations_come_out(alloc, p, q, texts)?,
            "{left} and {right}"
        );
    }
    Ok(())
}
