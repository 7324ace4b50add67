//! The rows that raise a term: mostly few among many, so that a question asks these alone.

ghost use Rattle.std.specs.List.{list_any};
ghost use Rattle.std.specs.Prelude.{◌≡◌, ◌≤◌, drop, false, length, take};
ghost use Rattle.regent_tree.specs.Facts.{Row, raises};
ghost use Rattle.constraint_check.specs.Looking.{StandFor};

use crate::row::{Row, raises};
use regent_tree::Term;

/// How many rows there are up to the last that raises a term.
fn raising_end(rows: &[Row], term: &Term) -> usize
    ensures within { result ≤ length rows.now }
    ensures behind { list_any (λ (row : Row). raises row.0 term.now) (drop result rows.now) ≡ false }
{
    let mut count = 0;
    for (place, row) in rows.iter().enumerate() {
        if raises(row.known(), term) {
            count = place + 1;
        }
    }
    count
}

/// How many rows there are before the first that raises a term.
fn raising_start(rows: &[Row], term: &Term) -> usize
    ensures within { result ≤ length rows.now }
    ensures before { list_any (λ (row : Row). raises row.0 term.now) (take result rows.now) ≡ false }
{
    for (place, row) in rows.iter().enumerate() {
        if raises(row.known(), term) {
            return place;
        }
    }
    rows.len()
}

/// The rows from the first to the last that raise a term.
pub fn rows_raising<'a>(rows: &'a [Row], term: &Term) -> &'a [Row]
    ensures { StandFor result.now rows.now term.now }
{
    let front = &rows[..raising_end(rows, term)];
    &front[raising_start(front, term)..]
}
