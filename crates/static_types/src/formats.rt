//! The text of a `printf`: how many numbers it prints.

ghost use Rattle.std.specs.Prelude.{◌≡◌, ℕ, List, ◌∷◌};
ghost use Rattle.check_rules.specs.rules.Formats.{is_count, numbers_in};
ghost use Rattle.static_types.specs.Formats.{counted_at, counted_by};

/// Where a byte stands: in the text, or behind `%`, `%l` or `%ll`.
#[derive(Clone, Copy, Debug, PartialEq, Eq)]
pub enum Spot {
    Text,
    Percent,
    OneL,
    TwoL,
}

/// What a byte does: it leads to a spot, ends a number, or is wrong there.
#[derive(Clone, Copy, Debug, PartialEq, Eq)]
pub enum Reading {
    Leads(Spot),
    Number,
    Wrong,
}

fn read_byte(spot: Spot, byte: u8) -> Reading
    ensures { (rest : List ℕ) → counted_at spot (byte ∷ rest) ≡ counted_by result rest }
{
    match (spot, byte) {
        (Spot::Text, b'%') => Reading::Leads(Spot::Percent),
        (Spot::Text, _) => Reading::Leads(Spot::Text),
        (Spot::Percent, b'%') => Reading::Leads(Spot::Text),
        (Spot::Percent, b'l') => Reading::Leads(Spot::OneL),
        (Spot::OneL, b'l') => Reading::Leads(Spot::TwoL),
        (Spot::Percent | Spot::OneL | Spot::TwoL, b'd') => Reading::Number,
        _ => Reading::Wrong,
    }
}

/// How many numbers a text prints, or None where a `%` has no right ending.
fn numbers_in(format: &[u8]) -> Option<usize>
    ensures { result ≡ numbers_in format.now }
{
    let mut count: usize = 0;
    let mut spot = Spot::Text;
    for byte in format {
        match read_byte(spot, *byte) {
            Reading::Leads(next) => spot = next,
            Reading::Number => {
                count += 1;
                spot = Spot::Text;
            }
            Reading::Wrong => return None,
        }
    }
    if spot == Spot::Text {
        Some(count)
    } else {
        None
    }
}

/// Whether a text prints so many numbers.
pub fn prints(format: &[u8], count: usize) -> bool
    ensures { result ≡ is_count count (numbers_in format.now) }
{
    match numbers_in(format) {
        None => false,
        Some(wanted) => count == wanted,
    }
}
