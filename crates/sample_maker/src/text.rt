//! The text of the sample program, in five parts with a number between each two.

ghost use Rattle.std.specs.Prelude.{◌≡◌, ◌++◌, IfOk, OnOk};
ghost use Rattle.sample_maker.specs.Texts.{end_text, front_text, rest_text, rounds_text, sample_text, setup_text, sums_text, tasks_text};

use itoa::{Buffer, Integer};
use std::alloc::{AllocError, Global};

/// The tasks, and the beginning of the main task up to the number of cells.
#[tactic(auto, unfolding(crate::specs::Texts::tasks_text))]
fn tasks_text() -> &'static str
    ensures { result.now ≡ tasks_text }
{
    "import \"regent\"
fspace cell { v : int64, w : int64, nbr : int1d }
fspace sum { s : int64 }
task setup(r : region(ispace(int1d), cell), n : int64)
where writes(r.{v, nbr}) do
  for x in r do
    x.v = int64(x)
    x.nbr = (x + 1) % n
  end
end
task step(r : region(ispace(int1d), cell), g : region(ispace(int1d), cell))
where reads(r.{v, nbr}, g.v), writes(r.w) do
  for x in r do x.w = x.v + g[x.nbr].v end
end
task back(r : region(ispace(int1d), cell))
where reads(r.w), writes(r.v) do
  for x in r do x.v = x.w end
end
task add(r : region(ispace(int1d), cell), t : region(ispace(int1d), sum))
where reads(r.v), reduces +(t.s) do
  for x in r do t[0].s += x.v end
end
task main()
  var r = region(ispace(int1d, "
}

/// The part before the number of colours.
#[tactic(auto, unfolding(crate::specs::Texts::sums_text))]
fn sums_text() -> &'static str
    ensures { result.now ≡ sums_text }
{
    "), cell)
  var t = region(ispace(int1d, 1), sum)
  var c = ispace(int1d, "
}

/// The part before the number that determines neighbours.
#[tactic(auto, unfolding(crate::specs::Texts::setup_text))]
fn setup_text() -> &'static str
    ensures { result.now ≡ setup_text }
{
    ")
  var p = partition(equal, r, c)
  __demand(__index_launch)
  for k in c do setup(p[k], "
}

/// The part before the printed number of cells.
#[tactic(auto, unfolding(crate::specs::Texts::rounds_text))]
fn rounds_text() -> &'static str
    ensures { result.now ≡ rounds_text }
{
    ") end
  var g = image(r, p, r.nbr)
  for i = 0, 4 do
    __demand(__index_launch)
    for k in c do step(p[k], g[k]) end
    __demand(__index_launch)
    for k in c do back(p[k]) end
  end
  __demand(__index_launch)
  for k in c do add(p[k], t) end
  regentlib.c.printf(\"%lld cells, total %lld\\n\", "
}

/// The part after it.
#[tactic(auto, unfolding(crate::specs::Texts::end_text))]
fn end_text() -> &'static str
    ensures { result.now ≡ end_text }
{
    ", t[0].s)
end
regentlib.start(main)
"
}

/// Adds a number in decimal.
fn push_number<I: Integer>(text: &mut String, number: I) -> Result<(), AllocError>
    ensures { OnOk result (text.new.bytes.items ≡ text.old.bytes.items ++ I.text number) }
{
    text.push_str(Buffer::new().format(number))
}

/// Adds the text before the loop that sets the cells up.
fn push_front(text: &mut String, cells: u64, colours: u32) -> Result<(), AllocError>
    ensures { OnOk result (text.new.bytes.items ≡ text.old.bytes.items ++ front_text cells colours) }
{
    text.push_str(tasks_text())?;
    push_number(text, cells)?;
    text.push_str(sums_text())?;
    push_number(text, colours)
}

/// Adds the text from there on.
fn push_rest(text: &mut String, cells: u64) -> Result<(), AllocError>
    ensures { OnOk result (text.new.bytes.items ≡ text.old.bytes.items ++ rest_text cells) }
{
    text.push_str(setup_text())?;
    push_number(text, cells)?;
    text.push_str(rounds_text())?;
    push_number(text, cells)?;
    text.push_str(end_text())
}

/// The sample program with this many colours, and 4,096 cells for each. It makes a ring of cells,
/// in which each cell has a neighbour, adds each neighbour's value four times over to that of each
/// cell, block by block, and prints the number of cells and the sum of all values. Its loops are
/// demanded as index launches.
pub fn sample(alloc: Global, colours: u32) -> Result<String, AllocError>
    ensures { IfOk result (λ text. text.bytes.items ≡ sample_text colours) }
{
    let cells = 4096 * colours as u64;
    let mut text = String::new(alloc);
    push_front(&mut text, cells, colours)?;
    push_rest(&mut text, cells)?;
    Ok(text)
}
