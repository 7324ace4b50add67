//! Texts, and what they come to. What is expected is taken from the language's tables, by hand.

use regent_lex::LexKind;
use regent_reader::{ReadFault, read};
use regent_tree::Counted;
use std::alloc::{AllocError, Global};

/// What a text comes to, with the line or the count that is told.
#[derive(Clone, Copy, Debug, PartialEq, Eq)]
enum Told {
    Program,
    TooLong,
    Lex(LexKind, u32),
    TooDeep(u32),
    NoProgram(u32),
    TooMany(Counted, u32),
    NoMemory,
}

fn outcome_of(alloc: Global, text: &str) -> Told {
    match read(alloc, text.as_bytes()) {
        Ok(_) => Told::Program,
        Err(ReadFault::TooLong) => Told::TooLong,
        Err(ReadFault::Lex { kind, line }) => Told::Lex(kind, line),
        Err(ReadFault::TooDeep { line }) => Told::TooDeep(line),
        Err(ReadFault::NoProgram { line }) => Told::NoProgram(line),
        Err(ReadFault::TooMany { what, count }) => Told::TooMany(what, count),
        Err(ReadFault::Memory(_)) => Told::NoMemory,
    }
}

/// Programs, each a paragraph.
const PROGRAMS: &str = r#"import "regent"
task main()
  var x : int64 = 3
  x = x * 2 + 1
  regentlib.c.printf("%lld\n", x)
end
regentlib.start(main)

task main() end

fspace f { x : int64 }
task main()
  var r = region(ispace(int1d, 10), f)
  var p = partition(equal, r, ispace(int1d, 4))
  for c in p.colors do
    var n = 0
    for x in p[c] do n += 1 end
    regentlib.c.printf("%d ", n)
  end
end

fspace f { x : int64 }
task add(r : region(ispace(int1d), f), k : int64) where reduces +(r.x) do r[0].x += k end
task main()
  var r = region(ispace(int1d, 1), f)
  for k = 1, 5 do add(r, k) end
  regentlib.c.printf("%lld\n", r[0].x)
end

fspace f { x : int64 }
task add(r : region(ispace(int1d), f), k : int64) where reduces +(r.x) do r[0].x += k end
task main()
  var r = region(ispace(int1d, 1), f)
  r[0].x = 9223372036854775807 add(r, 1)
  regentlib.c.printf("%lld\n", r[0].x)
end

fspace f { x : int64 }
task a(r : region(ispace(int1d), f))
where reads writes(r) do
  regentlib.c.printf("a")
  for i = 0, 1000 do r[0].x += 1 end
  r[0].x = 1 / (r[0].x - 1000)
end
task b(r : region(ispace(int1d), f)) where reads writes(r) do
  regentlib.c.printf("b")
  regentlib.assert(false, "b")
end
task main()
  var r = region(ispace(int1d, 2), f)
  var p = partition(equal, r, ispace(int1d, 2))
  a(p[0]) b(p[1])
end

fspace f { x : int64 }
task t(r : region(ispace(int1d), f))
where reads(r.x) do
  r[0].x = 1
end
task main() end

fspace f { x : int64 }
task main()
  var r = region(ispace(int1d, 10), f)
  var p = partition(equal, r, ispace(int1d, 4))
  for x in p[4] do end
end

fspace f { x : int64, to : int1d }
task main()
  var s = region(ispace(int1d, 4), f)
  var q = partition(equal, s, ispace(int1d, 8))
  var r = region(ispace(int1d, 4), f)
  var w = preimage(r, q, r.to)
  for x in w[0] do regentlib.c.printf("x") end
  for x in w[1] do regentlib.c.printf("x") end
end

fspace f { x : int64 }
task w(r : region(ispace(int1d), f)) where writes(r.x) do for p in r do p.x = 5 end end
task main()
  var r = region(ispace(int1d, 4), f)
  r[1].x = 7
  r[2].x = 1
  var p = partition(r.x, ispace(int1d, 2))
  var q = p | p
  w(p[0]) w(q[1])
  __demand(__index_launch) for c in q.colors do w(q[c]) end
end

fspace f { x : int64 }
task g(a : region(ispace(int1d), f), b : region(ispace(int1d), f))
where reads(a.x), reduces +(b.x) do b[0].x += 5 regentlib.c.printf("%lld", a[0].x) end
task main()
  var r = region(ispace(int1d, 2), f)
  var p = partition(equal, r, ispace(int1d, 1))
  var q = p | p
  g(p[0], q[0])
end

task main()
  for i = 0, 5 do end
end

task main(n : int64) regentlib.c.printf("%lld", n) end

fspace f { x : int32 }
task low(r : region(ispace(int1d), f), k : int64) where reduces min(r.x) do r[0].x min= k end
task main()
  var r = region(ispace(int1d, 1), f)
  r[0].x = 5
  low(r, 7) low(r, 5)
  r[0].x min= -2147483649
end

fspace cell { v : int64, w : int64, nbr : int1d }
task setup(r : region(ispace(int1d), cell), n : int64)
where writes(r.{v, nbr}) do
  for x in r do
    x.v = int64(x)
    x.nbr = (x + 1) % n
  end
end
task step(r : region(ispace(int1d), cell), g : region(ispace(int1d), cell))
where reads(r.{v, nbr}, g.v), writes(r.w) do
  for x in r do x.w = x.v + g[x.nbr].v end
end
task main()
  var r = region(ispace(int1d, 8), cell)
  var p = partition(equal, r, ispace(int1d, 4))
  for k in p.colors do setup(p[k], 8) end
  var g = image(r, p, r.nbr)
  for k in p.colors do step(p[k], g[k]) end
  var sum = 0LL
  for x in r do regentlib.c.printf("%lld ", x.w) sum += x.w end
  regentlib.c.printf("%lld", sum)
end

fspace f { x : int64 }
task w(r : region(ispace(int1d), f)) where reads writes(r) do
  for p in r do p.x = 10 * p.x end
end
task main()
  var r = region(ispace(int1d, 4194305), f)
  var p = partition(equal, r, ispace(int1d, 2))
  r[0].x = 1
  w(p[0]) w(p[1])
  var sum = 0LL
  for x in r do sum += x.x end
  regentlib.c.printf("%lld", sum + 1)
end

task d()
  regentlib.c.printf("x")
  d()
end
task main() d() end

task main()
  var m = -9223372036854775807 - 1
  regentlib.c.printf("%lld %lld %lld", m / -1, m % -1, -7 / 2)
end

local c = regentlib.c
fspace node { c : int64, q : int64 }
fspace wire(rn : region(ispace(int1d), node)) {
  a : int1d(node, rn), b : int1d(node, rn), i : int64
}
task flow(rn : region(ispace(int1d), node), rw : region(ispace(int1d), wire(rn)))
where reads(rn.c, rw.{a, b}), writes(rw.i), rn * rw do
  for w in rw do w.i = w.a.c - w.b.c end
end
task spread(rn : region(ispace(int1d), node), rw : region(ispace(int1d), wire(rn)))
where reads(rw), reduces +(rn.q) do
  for w in rw do
    w.a.q += -w.i
    w.b.q += w.i
  end
end
task main()
  var rn = region(ispace(int1d, 4), node)
  var rw = region(ispace(int1d, 4), wire(rn))
  for n in rn do n.c = 10 * int64(n) end
  for w in rw do
    w.a = dynamic_cast(int1d(node, rn), w)
    w.b = dynamic_cast(int1d(node, rn), (w + 1) % 4)
  end
  var p = partition(equal, rw, ispace(int1d, 2))
  for k in p.colors do flow(rn, p[k]) end
  for k in p.colors do spread(rn, p[k]) end
  for n in rn do c.printf("%lld ", n.q) end
end
regentlib.start(main)

fspace f { x : int64 }
task t(r : region(ispace(int1d), f), k : int64) where reads(r) do
  regentlib.c.printf("%lld", k)
end
task main()
  var r = region(ispace(int1d, 4), f)
  var p = partition(equal, r, ispace(int1d, 2))
  var c = ispace(int1d, 3)
  for k in c do t(p[k], int64(k)) end
end

fspace f { x : int64 }
task main()
  var r = region(ispace(int1d, 2), f)
  var a = dynamic_cast(int1d(f, r), 1)
  var b = dynamic_cast(int1d(f, r), 2)
  a.x = 6
  if isnull(b) then regentlib.c.printf("%lld", a.x) end
  b.x = 1
end

import "regent"
fspace cell { v : int64, w : int64, nbr : int1d }
fspace sum { s : int64 }
task setup(r : region(ispace(int1d), cell), n : int64)
where writes(r.{v, nbr}) do
  for x in r do
    x.v = int64(x)
    x.nbr = (x + 1) % n
  end
end
task step(r : region(ispace(int1d), cell), g : region(ispace(int1d), cell))
where reads(r.{v, nbr}, g.v), writes(r.w) do
  for x in r do x.w = x.v + g[x.nbr].v end
end
task back(r : region(ispace(int1d), cell))
where reads(r.w), writes(r.v) do
  for x in r do x.v = x.w end
end
task add(r : region(ispace(int1d), cell), t : region(ispace(int1d), sum))
where reads(r.v), reduces +(t.s) do
  for x in r do t[0].s += x.v end
end
task main()
  var r = region(ispace(int1d, 4096), cell)
  var t = region(ispace(int1d, 1), sum)
  var c = ispace(int1d, 1)
  var p = partition(equal, r, c)
  __demand(__index_launch)
  for k in c do setup(p[k], 4096) end
  var g = image(r, p, r.nbr)
  for i = 0, 4 do
    __demand(__index_launch)
    for k in c do step(p[k], g[k]) end
    __demand(__index_launch)
    for k in c do back(p[k]) end
  end
  __demand(__index_launch)
  for k in c do add(p[k], t) end
  regentlib.c.printf("%lld cells, total %lld\n", 4096, t[0].s)
end
regentlib.start(main)

fspace f { }

fspace f(a : int1d, b : ptr) { x : int; y : bool; }

task a(r : region(fs(r, wild)), p : partition(aliased, r, c), q : ispace(ptr), b : bool) : int32
where r <= p, reads writes reduces max(r.{x}, p) do
  var x; var y : ptr(f(r), p, wild); var q = p & p; regentlib.assert(y == q)
  if not - not b then elseif b or true and false then else return end
  while 1 ~= 2 do do end end
  fill(r.{x, y}, null(ptr(f, r)));
  x[1].y[2] max= [int1d](ispace(ptr, 3)) * a() x.y *= 1
  return 1;
end"#;

#[test]
fn programs_are_read(rt: HostRuntime) {
    for text in PROGRAMS.split("\n\n") {
        assert_eq!(rt; outcome_of(rt.alloc(), text), Told::Program, "{text}");
    }
}

/// Texts that stop at the first token of their second line, each a paragraph.
const STOPS: &str = r#"task main() end
x

import
"other"

local c = regentlib.
d

fspace f
end

fspace f(
) { }

fspace f { x
, y : int }

fspace f { x : int,
, y : int }

fspace f { x : int
y : int }

task a(x : int,
) end

task a() :
where reads(r) do end

task a(x : ispace(
int)) end

task a(x : ispace(int1d
, 3)) end

task a(x : region(ispace(int1d)
)) end

task a(x : region(f(
))) end

task a(x : ptr(f
)) end

task a(x : int1d(f, a
.b)) end

task a(x : partition(
equal, r)) end

task a() where
do end

task a() where reads
do end

task a() where reads(
) do end

task a() where reads(r.{
}) do end

task a() where reduces
-(r) do end

task a() where r
+ s do end

task a() where r * s
end

task a() return 1
x = 1 end

task a() end
return

task a() var
int end

task a() var x :
= 1 end

task a() var x =
end

task a() var r = region(ispace(int1d, 1)
) end

task a() var p = partition(equal,
1) end

task a() var p = partition(r.
1, c) end

task a() var p = image(r, p, r
) end

task a() var p = preimage(r,
1, r.f) end

task a() var p = q &
1 end

task a() var p = q |
(q) end

task a() if true
x = 1 end

task a() if true then else
else end end

task a() while true
end

task a() __demand(__index_launch)
while true do end end

task a() for i = 1
do end end

task a() for i
+ 1 do end end

task a() for i in
do end end

task a() fill(r
, 1) end

task a() fill(r.x
) end

task a() regentlib.assert(true,
1) end

task a() regentlib.c.printf(
1) end

task a() c.printf("%d"
1) end

task a() regentlib.c.
print("x") end

task a() a(1,
) end

task a() x
1 end

task a() x min
1 end

task a() x =
* 1 end

task a() x = 1 +
end

task a() x = 1 <
< 2 end

task a() x = (1
end

task a() x = a[1
end

task a() x.
1 = 2 end

task a() x = int
1 end

task a() x = [
bool](1) end

task a() x = [int]
1 end

task a()
isnull(p) end

task a() x = isnull(
) end

task a() x = null(
int) end

task a() x = dynamic_cast(
1, x) end

task a() x = ispace(
1) end

task a() x = not
end

regentlib.start(
) "#;

#[test]
fn stops_are_told(rt: HostRuntime) {
    for text in STOPS.split("\n\n") {
        assert_eq!(rt; outcome_of(rt.alloc(), text), Told::NoProgram(2), "{text}");
    }
}

/// Adds the piece, as often as told.
fn push_repeated(text: &mut String, piece: &str, times: u32) -> Result<(), AllocError> {
    for _ in 0..times {
        text.push_str(piece)?;
    }
    Ok(())
}

/// A text that has a piece in it as often as told, and as often what closes it.
fn composed(
    alloc: Global,
    first: &str,
    (opening, closing): (&str, &str),
    times: u32,
    last: &str,
) -> Result<String, AllocError> {
    let mut text = String::from_str(alloc, first)?;
    push_repeated(&mut text, opening, times)?;
    push_repeated(&mut text, closing, times)?;
    text.push_str(last)?;
    Ok(text)
}

/// What a text that was made comes to.
fn outcome_made(alloc: Global, text: Result<String, AllocError>) -> Result<Told, AllocError> {
    let text = text?;
    Ok(outcome_of(alloc, text.as_str()))
}

/// Texts, and the first cause that is told of them.
static CAUSES: [(&str, Told); 11] = [
    ("", Told::NoProgram(1)),
    ("\n--\n", Told::NoProgram(3)),
    ("task main(", Told::NoProgram(1)),
    ("task main()\n  y = @\nend", Told::Lex(LexKind::BadByte, 2)),
    ("end \n\"a", Told::Lex(LexKind::Unclosed, 2)),
    ("end\n--[[ a\n", Told::Lex(LexKind::Unclosed, 2)),
    (
        "end\nx = 1.5 9223372036854775808",
        Told::Lex(LexKind::BadByte, 2),
    ),
    ("task a() x = 9223372036854775807 end", Told::Program),
    (
        "task a() x = 9223372036854775808 end",
        Told::Lex(LexKind::NumberTooLarge, 1),
    ),
    (
        "task a(p : ptr(f, a, b, c, d, e)) end\nend",
        Told::NoProgram(2),
    ),
    (
        "task a(p : ptr(f, a, b, c, d, e, wild)) var x : ptr(f, a, b, c, d, e) end",
        Told::TooMany(Counted::Regions, 6),
    ),
];

#[test]
fn the_first_cause_is_told(rt: HostRuntime) {
    for (text, wanted) in &CAUSES {
        assert_eq!(rt; outcome_of(rt.alloc(), text), *wanted, "{text}");
    }
}

#[test]
fn what_is_too_deep_is_told_after_bad_bytes(rt: HostRuntime) -> Result<(), AllocError> {
    let alloc = rt.alloc();
    for (last, wanted) in [
        ("", Told::TooDeep(2)),
        ("\n@", Told::Lex(LexKind::BadByte, 3)),
    ] {
        let text = composed(alloc, "end\n", ("(", ""), 65, last);
        assert_eq!(rt; outcome_made(alloc, text)?, wanted, "{last}");
    }
    Ok(())
}

/// The first part of a text, a piece that stands in it as often as told and what closes it, and
/// the last part; that is a program, and once more comes to this.
static LIMITS: [(&str, (&str, &str), u32, &str, Told); 11] = [
    (
        "",
        ("task a() end ", ""),
        256,
        "",
        Told::TooMany(Counted::Tasks, 257),
    ),
    (
        "",
        ("fspace f { } ", ""),
        256,
        "",
        Told::TooMany(Counted::Spaces, 257),
    ),
    (
        "fspace f { ",
        ("x : int, ", ""),
        16,
        "}",
        Told::TooMany(Counted::Fields, 17),
    ),
    (
        "task a(b : int",
        (", b : int", ""),
        15,
        ") end",
        Told::TooMany(Counted::Parameters, 17),
    ),
    (
        "fspace f(b : int",
        (", b : int", ""),
        15,
        ") { }",
        Told::TooMany(Counted::Parameters, 17),
    ),
    (
        "task a(p : ptr(f",
        (", r", ""),
        4,
        ")) end",
        Told::TooMany(Counted::Regions, 5),
    ),
    (
        "task ",
        ("a", ""),
        64,
        "() end",
        Told::Lex(LexKind::NameTooLong, 1),
    ),
    ("task a() ", ("f(", ")"), 64, " end", Told::TooDeep(1)),
    ("task a() ", ("do ", "end "), 64, "end", Told::TooDeep(1)),
    ("task a() end", (" ", ""), 1_048_564, "", Told::TooLong),
    (
        "task main() ",
        ("x = f(1) + 2 ", ""),
        80_658,
        "end",
        Told::TooLong,
    ),
];

#[test]
fn each_limit_may_be_reached(rt: HostRuntime) -> Result<(), AllocError> {
    let alloc = rt.alloc();
    for (first, pieces, times, last, past) in &LIMITS {
        let found = [
            outcome_made(alloc, composed(alloc, first, *pieces, *times, last))?,
            outcome_made(
                alloc,
                composed(alloc, first, *pieces, times.saturating_add(1), last),
            )?,
        ];
        assert_eq!(rt; found, [Told::Program, *past], "{first}");
    }
    Ok(())
}
