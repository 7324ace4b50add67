//! Operators, widths and modes by hand.

use lane_kernels::{FieldKind, Mode, Op, Width};

const LEAST_32: i64 = -0x8000_0000;

const MOST_32: i64 = 0x7fff_ffff;

#[test]
fn operators(rt: HostRuntime) {
    let rows = [
        (Op::Sum, Width::W32, MOST_32, 1, LEAST_32),
        (Op::Sum, Width::W64, MOST_32, 1, 0x8000_0000),
        (Op::Sum, Width::W64, i64::MAX, 1, i64::MIN),
        (Op::Product, Width::W32, 65_536, 65_537, 65_536),
        (Op::Product, Width::W64, -3, 7, -21),
        (Op::Product, Width::W64, i64::MIN, -1, i64::MIN),
        (Op::Least, Width::W32, LEAST_32, MOST_32, LEAST_32),
        (Op::Least, Width::W64, 5, -5, -5),
        (Op::Greatest, Width::W32, -1, -2, -1),
        (Op::Greatest, Width::W64, i64::MIN, i64::MAX, i64::MAX),
    ];
    for (op, width, a, b, want) in rows {
        let found = [
            op.apply(width, a, b),
            op.apply(width, op.identity(width), a),
        ];
        assert_eq!(rt; found, [want, a], "{op:?} of {a} and {b}");
    }
}

#[test]
fn modes(rt: HostRuntime) {
    let sum = Mode::Reduce(Op::Sum);
    let least = Mode::Reduce(Op::Least);
    let rows = [
        (Mode::Read, Mode::Read, Mode::Read, false),
        (Mode::Read, Mode::Write, Mode::Write, true),
        (Mode::Write, Mode::Write, Mode::Write, true),
        (Mode::Read, sum, Mode::Write, true),
        (sum, sum, sum, false),
        (sum, least, Mode::Write, true),
    ];
    for (a, b, joined, conflict) in rows {
        let found = (a.join(b), b.conflicts(a));
        assert_eq!(rt; found, (joined, conflict), "{a:?} and {b:?}");
    }
}

#[test]
fn widths(rt: HostRuntime) {
    let found = [
        FieldKind::Int32.width(),
        FieldKind::Int64.width(),
        FieldKind::Truth.width(),
        FieldKind::Index.width(),
        FieldKind::Pointer.width(),
    ];
    let wide = Width::W64;
    assert_eq!(rt; found, [Width::W32, wide, wide, wide, wide]);
    assert_eq!(rt; Width::W32.wrap(0x1_8000_0001), LEAST_32 + 1);
}
