//! Widths, reduction operators, privilege modes and kinds of fields.

ghost use Rattle.std.specs.Prelude.{◌≡◌, ◌≢◌, ◌↔◌, IsTrue};
ghost use Rattle.lane_kernels.specs.declared.numbers.Mode.TheVariants.{Write};
ghost use Rattle.lane_kernels.specs.declared.numbers.Width.TheVariants.{W64};

/// The width of a number: 32 or 64 bits, signed.
#[derive(Clone, Copy, Debug, PartialEq, Eq)]
pub enum Width {
    W32,
    W64,
}

/// A reduction operator (Regent, SC 2015): `+`, `*`, `min` or `max`.
#[derive(Clone, Copy, Debug, PartialEq, Eq)]
pub enum Op {
    Sum,
    Product,
    Least,
    Greatest,
}

/// How a task uses a field of a region (region requirements: Legion, SC 2012).
#[derive(Clone, Copy, Debug, PartialEq, Eq)]
pub enum Mode {
    Read,
    Write,
    Reduce(Op),
}

/// What the numbers that are kept in a field mean.
#[derive(Clone, Copy, Debug, PartialEq, Eq)]
pub enum FieldKind {
    Int32,
    Int64,
    Truth,
    Index,
    Pointer,
}

impl FieldKind {
    ghost use Rattle.lane_kernels.specs.Numbers.{width_of};

    /// The width of the numbers that the field keeps.
    pub fn width(self) -> Width
        ensures { result ≡ width_of self }
    {
        match self {
            FieldKind::Int32 => Width::W32,
            FieldKind::Int64 | FieldKind::Truth | FieldKind::Index | FieldKind::Pointer => {
                Width::W64
            }
        }
    }
}

impl Width {
    ghost use Rattle.lane_kernels.specs.Numbers.{wrapped};

    /// What is left of a number at this width.
    pub fn wrap(self, number: i64) -> i64
        ensures { result ≡ wrapped self number }
    {
        match self {
            Width::W32 => {
                let low = (number.cast_unsigned() & 0xffff_ffff) as u32;
                i64::from(low.cast_signed())
            }
            Width::W64 => number,
        }
    }
}

impl Op {
    ghost use Rattle.lane_kernels.specs.Laws.{HasIdentity, IsAssociative, IsClosed, IsCommutative};
    ghost use Rattle.lane_kernels.specs.Numbers.{applied, identity_of};

    /// The operator's identity at a width.
    pub fn identity(self, width: Width) -> i64
        ensures { result ≡ identity_of self width }
    {
        match (self, width) {
            (Op::Sum, _) => 0,
            (Op::Product, _) => 1,
            (Op::Least, Width::W32) => i64::from(i32::MAX),
            (Op::Least, Width::W64) => i64::MAX,
            (Op::Greatest, Width::W32) => i64::from(i32::MIN),
            (Op::Greatest, Width::W64) => i64::MIN,
        }
    }

    /// The operator's result at a width, which wraps. With it the numbers of the width are a
    /// commutative monoid.
    pub fn apply(self, width: Width, a: i64, b: i64) -> i64
        ensures value { result ≡ applied self width a b }
        ensures closed { IsClosed self width }
        ensures associative { IsAssociative self width }
        ensures commutative { IsCommutative self width }
        ensures identity { HasIdentity self width }
    {
        width.wrap(self.apply_64(a, b))
    }

    fn apply_64(self, a: i64, b: i64) -> i64
        ensures { result ≡ applied self W64 a b }
    {
        match self {
            Op::Sum => a.wrapping_add(b),
            Op::Product => a.wrapping_mul(b),
            Op::Least => a.min(b),
            Op::Greatest => a.max(b),
        }
    }
}

impl Mode {
    ghost use Rattle.lane_kernels.specs.Modes.{Commute, in_conflict, joined};

    /// The mode that covers this one and another.
    pub fn join(self, other: Mode) -> Mode
        ensures value { result ≡ joined self other }
        ensures same { self ≡ other → result ≡ self }
        ensures different { self ≢ other → result ≡ Write }
    {
        if self == other { self } else { Mode::Write }
    }

    /// Whether uses of one place in these two modes depend on their order.
    pub fn conflicts(self, other: Mode) -> bool
        ensures value { result ≡ in_conflict self other }
        ensures unless { IsTrue result ↔ ¬ Commute self other }
    {
        match (self, other) {
            (Mode::Read, Mode::Read) => false,
            (Mode::Reduce(p), Mode::Reduce(q)) => p != q,
            _ => true,
        }
    }
}
