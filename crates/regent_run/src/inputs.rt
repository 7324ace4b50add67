//! The numbers that words spell.

ghost use Rattle.std.specs.Prelude.{◌≡◌, ◌↔◌, IfOk, IsTrue, map};
ghost use Rattle.lane_kernels.specs.Numbers.{FitsWidth};
ghost use Rattle.regent_run.specs.Inputs.{AreFound, IsFound, IsRead, digits_in};

use plain_values::Sequence;
use regent_tree::Width;
use std::alloc::{AllocError, Global};

/// The part after a `-`.
fn digits_in(word: &[u8]) -> &[u8]
    ensures { result.now ≡ digits_in word.now }
{
    match word {
        [b'-', rest @ ..] => rest,
        _ => word,
    }
}

/// The number of a word, if it is one of 64 bits: an optional `-` and 1 to 20 digits.
fn read_word(word: &str) -> Option<i64>
    ensures { IsRead word.now result }
{
    if digits_in(word.as_bytes()).len() > 20 || word.as_bytes().first() == Some(&b'+') {
        return None;
    }
    word.parse::<i64>().ok()
}

/// Whether the width has a number.
fn fits(width: Width, number: i64) -> bool
    ensures { IsTrue result ↔ FitsWidth width number }
{
    match width {
        Width::W32 => -2_147_483_648 <= number && number <= 2_147_483_647,
        Width::W64 => true,
    }
}

/// The number of a word, if the width has it.
fn number_of(width: Width, word: &str) -> Option<i64>
    ensures { IsFound width word.now result }
{
    match read_word(word) {
        Some(number) => {
            if fits(width, number) {
                Some(number)
            } else {
                None
            }
        }
        None => None,
    }
}

/// The numbers of the words, if there is one for each width.
pub fn numbers_of(
    alloc: Global,
    widths: &[Width],
    words: &[&str],
) -> Result<Option<Sequence<i64>>, AllocError>
    ensures { IfOk result (AreFound widths.now (map (λ word. word.now) words.now)) }
{
    if widths.len() != words.len() {
        return Ok(None);
    }
    let mut numbers = Sequence::new(alloc);
    for (place, width) in widths.iter().enumerate() {
        match number_of(*width, words[place]) {
            Some(number) => numbers.push(number)?,
            None => return Ok(None),
        }
    }
    Ok(Some(numbers))
}
