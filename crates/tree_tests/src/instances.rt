//! Lists of calls on contents. What each leaves or answers is worked out by hand.

use lane_kernels::{FieldKind, Mode, Op};
use physical_instances::{Contents, Fill, Filled};
use plain_values::Sequence;
use point_sets::PointSet;
use region_tree::{Part, Piece, RootId};
use std::alloc::{AllocError, Global};
use std::test::Fail;

const ROOT: RootId = RootId(5);

const GREATEST: i64 = 2_147_483_647;

/// Numbers that are each its place.
const RISING: [i64; 12] = [0, 1, 2, 3, 4, 5, 6, 7, 8, 9, 10, 11];

/// A call, and what comes of it.
#[derive(Clone, Copy)]
enum Call {
    /// A part with this number from one point up to another is put back.
    Put(Mode, u32, u32, i64),
    /// Such a part is added as a reduction, and so many of its pieces are left.
    Fold(Mode, u32, u32, i64, usize),
    /// A field holds the first so many of these numbers.
    Holds(u8, usize, [i64; 4]),
    /// A field holds at each of twelve points the point's number.
    Rises(u8),
    /// A field of a root has so many points.
    Counts(u64, u8, Option<usize>),
    /// A point of a field holds this number.
    Value(u8, u32, i64),
    /// Room is made for such a part.
    Reserve(Mode, u32, u32, i64),
    /// The root is closed.
    Close,
    /// It is opened anew with so many points.
    Open(u32),
    /// A fill up to a point ends in its first chunk, and has this number at each.
    Fills(Mode, u32, i64),
    /// A fill of 4,097 zeros goes on behind its first chunk; the rest of it has what was put back meanwhile.
    GoesOn(i64),
}

/// The points from a first one up to another.
fn stretch(alloc: Global, first: u32, end: u32) -> Result<PointSet, AllocError> {
    if end > 10_000 {
        return Err(AllocError);
    }
    PointSet::range(alloc, first, end)
}

/// A piece with the same number at each point.
fn piece(alloc: Global, mode: Mode, points: PointSet, number: i64) -> Result<Piece, AllocError> {
    let values = Sequence::from_vec(vec![in alloc; number; points.len() as usize]?);
    Ok(Piece {
        points,
        mode,
        values,
    })
}

/// A part of one piece.
fn part_of(alloc: Global, kind: FieldKind, piece: Piece) -> Result<Part, AllocError> {
    let mut pieces = Sequence::new(alloc);
    pieces.push(piece)?;
    Ok(Part {
        root: ROOT,
        field: 0,
        kind,
        pieces,
    })
}

/// A part with the same number at each point from a first one up to another.
fn part(
    alloc: Global,
    kind: FieldKind,
    mode: Mode,
    stretch: Result<PointSet, AllocError>,
    number: i64,
) -> Result<Part, AllocError> {
    part_of(alloc, kind, piece(alloc, mode, stretch?, number)?)
}

/// Opens a root of so many points.
fn open(
    contents: &mut Contents,
    root: RootId,
    points: Result<PointSet, AllocError>,
    kinds: &[FieldKind],
) -> Result<bool, AllocError> {
    contents.open_root(root, &points?, kinds)?;
    Ok(true)
}

/// Puts a part back.
fn put(contents: &mut Contents, part: Result<Part, AllocError>) -> Result<bool, AllocError> {
    contents.put_back(part?);
    Ok(true)
}

/// Makes room for a part.
fn reserve(contents: &mut Contents, part: Result<Part, AllocError>) -> Result<bool, AllocError> {
    contents.reserve(&[part?])?;
    Ok(true)
}

/// Adds a part's reductions, and tells whether so many of its pieces are left.
fn fold(
    contents: &mut Contents,
    part: Result<Part, AllocError>,
    left: usize,
) -> Result<bool, AllocError> {
    let mut part = part?;
    contents.add_reduction(&mut part)?;
    Ok(part.pieces.len() == left)
}

/// Whether a field of the root holds these numbers.
fn holds(
    alloc: Global,
    contents: &Contents,
    field: u8,
    wanted: usize,
    numbers: &[i64],
) -> Result<bool, AllocError> {
    let Some(count) = contents.count(ROOT, field) else {
        return Ok(false);
    };
    let mut image = vec![in alloc; 99; count]?;
    contents.image(ROOT, field, image.as_mut_slice());
    Ok(image.iter().eq(numbers.iter().take(wanted)))
}

/// A fill of one piece.
fn started(
    contents: &mut Contents,
    alloc: Global,
    mode: Mode,
    points: PointSet,
) -> Result<Fill, AllocError> {
    let wanted = vec![in alloc; (points, mode)]?;
    contents.start_fill(ROOT, 0, wanted)
}

/// Whether a fill that was started is full with its next chunk.
fn is_full(contents: &mut Contents, fill: &mut Fill) -> bool {
    contents.count(fill.root(), fill.field()).is_some() && contents.fill_chunk(fill) == Filled::Full
}

/// Whether each number of a part's only piece is this one.
fn is_all(part: &Part, number: i64) -> bool {
    match part.pieces.as_slice() {
        [piece] => piece.values.as_slice().iter().all(|value| *value == number),
        _ => false,
    }
}

/// How many numbers of a part's first piece are this one.
fn counted(part: &Part, number: i64) -> usize {
    match part.pieces.as_slice() {
        [] => 0,
        [piece, ..] => piece
            .values
            .as_slice()
            .iter()
            .filter(|value| **value == number)
            .count(),
    }
}

/// Whether a fill of two chunks has zeros, and behind them what is put back after the first one.
fn goes_on(
    contents: &mut Contents,
    alloc: Global,
    part: Result<Part, AllocError>,
    number: i64,
) -> Result<bool, AllocError> {
    let mut fill = started(contents, alloc, Mode::Read, stretch(alloc, 0, 4097)?)?;
    let goes_on = !is_full(contents, &mut fill);
    contents.put_back(part?);
    let is_full = is_full(contents, &mut fill);
    let part = fill.part();
    Ok(goes_on && is_full && (counted(&part, 0), counted(&part, number)) == (4096, 1))
}

/// Whether a fill is full with its first chunk, and has this number at each point.
fn fills(
    contents: &mut Contents,
    alloc: Global,
    mode: Mode,
    points: Result<PointSet, AllocError>,
    number: i64,
) -> Result<bool, AllocError> {
    let mut fill = started(contents, alloc, mode, points?)?;
    Ok(is_full(contents, &mut fill) && is_all(&fill.part(), number))
}

/// Makes a call, and tells whether it came out so.
fn comes_out(
    contents: &mut Contents,
    alloc: Global,
    kind: FieldKind,
    call: Call,
) -> Result<bool, AllocError> {
    match call {
        Call::Put(mode, first, end, number) => put(
            contents,
            part(alloc, kind, mode, stretch(alloc, first, end), number),
        ),
        Call::Fold(mode, first, end, number, left) => fold(
            contents,
            part(alloc, kind, mode, stretch(alloc, first, end), number),
            left,
        ),
        Call::Holds(field, count, numbers) => holds(alloc, contents, field, count, &numbers),
        Call::Rises(field) => holds(alloc, contents, field, 12, &RISING),
        Call::Counts(root, field, count) => Ok(contents.count(RootId(root), field) == count),
        Call::Value(field, point, number) => Ok(contents.value(ROOT, field, point) == number),
        Call::Reserve(mode, first, end, number) => reserve(
            contents,
            part(alloc, kind, mode, stretch(alloc, first, end), number),
        ),
        Call::GoesOn(number) => goes_on(
            contents,
            alloc,
            part(alloc, kind, Mode::Write, stretch(alloc, 0, 4097), number),
            number,
        ),
        Call::Close => {
            contents.close_root(ROOT);
            Ok(true)
        }
        Call::Open(end) => open(contents, ROOT, stretch(alloc, 0, end), &[kind]),
        Call::Fills(mode, end, number) => {
            fills(contents, alloc, mode, stretch(alloc, 0, end), number)
        }
    }
}

/// The place of the first call that doesn't come out, on a root of so many points beside another one.
fn first_wrong(
    alloc: Global,
    count: u32,
    kinds: &[FieldKind],
    calls: &[Call],
) -> Result<Option<usize>, AllocError> {
    let mut contents = Contents::new(alloc)?;
    open(
        &mut contents,
        RootId(4),
        stretch(alloc, 0, 1),
        &[FieldKind::Truth],
    )?;
    open(&mut contents, ROOT, stretch(alloc, 0, count), kinds)?;
    first_of(&mut contents, alloc, kinds, calls)
}

/// The place of the first call that doesn't come out.
fn first_of(
    contents: &mut Contents,
    alloc: Global,
    kinds: &[FieldKind],
    calls: &[Call],
) -> Result<Option<usize>, AllocError> {
    let kind = kinds.first().copied().unwrap_or(FieldKind::Int64);
    for (place, call) in calls.iter().enumerate() {
        if !comes_out(contents, alloc, kind, *call)? {
            return Ok(Some(place));
        }
    }
    Ok(None)
}

#[test]
fn calls_come_out(rt: HostRuntime) -> Result<(), Fail> {
    let sum = Mode::Reduce(Op::Sum);
    let least = Mode::Reduce(Op::Least);
    let product = Mode::Reduce(Op::Product);
    let rows: [(u32, &[FieldKind], &[Call]); 5] = [
        // new roots hold zeros
        (
            3,
            &[FieldKind::Int64, FieldKind::Pointer, FieldKind::Int32],
            &[
                Call::Value(0, 1, 0),
                Call::Holds(0, 3, [0, 0, 0, 0]),
                Call::Holds(1, 3, [-1, -1, -1, 0]),
                Call::Counts(5, 3, None),
                Call::Close,
                Call::Counts(5, 0, None),
                Call::Counts(4, 0, Some(1)),
            ],
        ),
        // reductions are folded
        (
            3,
            &[FieldKind::Int64],
            &[
                Call::Reserve(sum, 1, 2, 4),
                Call::Fold(sum, 1, 2, 4, 0),
                Call::Value(0, 1, 4),
                Call::Fold(least, 0, 2, 3, 0),
                Call::Fold(sum, 1, 3, 10, 0),
                Call::Holds(0, 3, [0, 13, 10, 0]),
                Call::Fold(Mode::Write, 0, 1, 8, 1),
                Call::Put(Mode::Write, 0, 1, 8),
                Call::Holds(0, 3, [8, 13, 10, 0]),
                Call::Fold(sum, 0, 3, 1, 0),
                Call::Close,
                Call::Open(2),
                Call::Holds(0, 2, [0, 0, 0, 0]),
            ],
        ),
        // later pieces decide
        (
            12,
            &[FieldKind::Int64],
            &[
                Call::Put(Mode::Write, 0, 12, 0),
                Call::Put(Mode::Read, 0, 12, 50),
                Call::Put(Mode::Write, 1, 12, 1),
                Call::Put(Mode::Read, 0, 12, 50),
                Call::Put(Mode::Write, 2, 12, 2),
                Call::Put(Mode::Read, 0, 12, 50),
                Call::Put(Mode::Write, 3, 12, 3),
                Call::Put(Mode::Read, 0, 12, 50),
                Call::Put(Mode::Write, 4, 12, 4),
                Call::Put(Mode::Read, 0, 12, 50),
                Call::Put(Mode::Write, 5, 12, 5),
                Call::Put(Mode::Read, 0, 12, 50),
                Call::Put(Mode::Write, 6, 12, 6),
                Call::Put(Mode::Read, 0, 12, 50),
                Call::Put(Mode::Write, 7, 12, 7),
                Call::Put(Mode::Read, 0, 12, 50),
                Call::Put(Mode::Write, 8, 12, 8),
                Call::Put(Mode::Read, 0, 12, 50),
                Call::Put(Mode::Write, 9, 12, 9),
                Call::Put(Mode::Read, 0, 12, 50),
                Call::Put(Mode::Write, 10, 12, 10),
                Call::Put(Mode::Read, 0, 12, 50),
                Call::Put(Mode::Write, 11, 12, 11),
                Call::Put(Mode::Read, 0, 12, 50),
                Call::Rises(0),
            ],
        ),
        // fills go on in chunks
        (
            4097,
            &[FieldKind::Int64],
            &[
                Call::GoesOn(7),
                Call::Fills(Mode::Read, 4096, 7),
                Call::Fills(Mode::Write, 4096, 7),
                Call::Fills(product, 4096, 1),
            ],
        ),
        // narrow kinds wrap
        (
            2,
            &[FieldKind::Int32],
            &[
                Call::Put(Mode::Write, 0, 2, GREATEST),
                Call::Fold(sum, 1, 2, 1, 0),
                Call::Holds(0, 2, [GREATEST, -2_147_483_648, 0, 0]),
                Call::Fills(least, 2, GREATEST),
            ],
        ),
    ];
    for (count, kinds, calls) in rows {
        let wrong = first_wrong(rt.alloc(), count, kinds, calls)?;
        assert_eq!(rt; wrong, None, "{count} points");
    }
    Ok(())
}
