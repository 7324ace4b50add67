//! Words of 64 bits, and lists of them.

ghost use Rattle.std.specs.Prelude.{◌≡◌, ℕ, ◌+◌, ◌*◌, ◌^◌, ◌<◌, ◌≤◌, ◌&&◌, length, nat_lt, nat_le, true};
ghost use Rattle.bit_planes.specs.Planes.{count_below, has_point, is_last};
ghost use Rattle.bit_planes.specs.Words.{IsFirst, number_of, told, word_at};

use crate::WORD_LIMIT;

/// The word of a number, where the first word has the number `first`: zero where no word is.
pub fn word_at(first: usize, words: &[u64], number: usize) -> u64
    ensures { result ≡ word_at first words.now number }
{
    if number < first {
        0
    } else {
        words.get(number - first).copied().unwrap_or(0)
    }
}

/// Whether a word has a one at a bit.
pub fn has_bit(word: u64, bit: u32) -> bool
    requires { bit < 64 }
    ensures { result ≡ has_point word bit }
{
    (word >> bit) & 1 == 1
}

/// The word with ones from one bit to below another.
pub fn ones_between(low: u32, high: u32) -> u64
    requires order { low < high }
    requires word { high ≤ 64 }
    ensures { (i : ℕ) → has_point result i ≡ (nat_le low i && nat_lt i high) }
{
    (u64::MAX << low) & (u64::MAX >> (64 - high))
}

/// The first one of a word at a bit or above it, or 64.
pub fn first_one(word: u64, from: u32) -> u32
    requires { from ≤ 64 }
    ensures { IsFirst (has_point word) from 64 result }
{
    if from == 64 {
        return 64;
    }
    let rest = word >> from;
    if rest == 0 {
        64
    } else {
        from + rest.trailing_zeros()
    }
}

/// The one of a word below which so many others stand.
pub fn one_at(word: u64, place: u32) -> u32
    requires { place < count_below (has_point word) 64 }
    ensures word { result < 64 }
    ensures one { has_point word result ≡ true }
    ensures place { count_below (has_point word) result ≡ place }
{
    let mut bit = first_one(word, 0);
    for _ in 0..place {
        bit = first_one(word, bit + 1);
    }
    bit
}

/// A word, or the word with its zeros and ones turned over.
fn turned(word: u64, one: bool) -> u64
    ensures { (i : ℕ) → i < 64 → has_point result i ≡ told one word i }
{
    if one { word } else { !word }
}

/// The first one from a place on, or else the first zero, or the end of the words.
pub fn first_bit(words: &[u64], one: bool, from: usize) -> usize
    requires short { length words.now ≤ WORD_LIMIT }
    requires inside { from ≤ 64 * length words.now }
    ensures { IsFirst (told one (number_of words.now)) from (64 * length words.now) result }
{
    let end = 64 * words.len();
    let mut place = from;
    while place < end {
        let number = place / 64;
        let bit = first_one(turned(words[number], one), (place % 64) as u32);
        if bit < 64 {
            return 64 * number + bit as usize;
        }
        place = 64 * (number + 1);
    }
    end
}

/// The ones of a word behind which a zero stands, where it is known which word is the next.
fn last_ones(word: u64, next: u64) -> u64
    ensures { (i : ℕ) → i < 64 → has_point result i ≡ is_last (next * 2 ^ 64 + word) i }
{
    word & !(word >> 1 | next << 63)
}

/// How many stretches of ones words have.
pub fn count_stretches(words: &[u64]) -> u32
    requires { length words.now ≤ WORD_LIMIT }
    ensures { result ≡ count_below (is_last (number_of words.now)) (64 * length words.now) }
{
    let mut total = 0;
    for number in 0..words.len() {
        total += last_ones(words[number], word_at(0, words, number + 1)).count_ones();
    }
    total
}
