//! Rows by hand, and each kernel at lengths about a vector's and at a long one.

ghost use Rattle.std.specs.Prelude.{◌≡◌, IfOk, length};

use lane_kernels::{
    Op, Width, and_words, any_common, copy_masked, equal, fold, fold_masked, minus_words, or_words,
};
use std::alloc::{AllocError, Global};

/// Whether a fold of two numbers into two others gives these, and one behind a mask leaves the first as it was.
fn fold_comes_out(
    (op, width): (Op, Width),
    before: [i64; 2],
    from: [i64; 2],
    after: [i64; 2],
) -> bool {
    let mut into = before;
    fold(op, width, &mut into, &from);
    let mut masked = before;
    fold_masked(op, width, &mut masked, &from, &[false, true]);
    into == after && masked == [before[0], after[1]]
}

#[test]
fn folds_by_hand(rt: HostRuntime) {
    let found = [
        fold_comes_out(
            (Op::Sum, Width::W32),
            [0x7fff_ffff, -1],
            [1, 1],
            [-0x8000_0000, 0],
        ),
        fold_comes_out(
            (Op::Sum, Width::W64),
            [0x7fff_ffff, i64::MAX],
            [1, 1],
            [0x8000_0000, i64::MIN],
        ),
        fold_comes_out(
            (Op::Product, Width::W32),
            [65_536, -3],
            [65_537, 7],
            [65_536, -21],
        ),
        fold_comes_out((Op::Least, Width::W64), [3, 9], [5, 5], [3, 5]),
        fold_comes_out((Op::Greatest, Width::W32), [3, -9], [5, -10], [5, -9]),
    ];
    assert_eq!(rt; found, [true; 5]);
}

/// Whether copies behind a mask are made where it is set.
fn copies_are_masked() -> bool {
    let mut copied = [1, 2, 3];
    copy_masked(&mut copied, &[7, 8, 9], &[true, false, true]);
    copied == [7, 2, 9]
}

/// Whether the meet, the union and the difference of a word of 6 with one of 3 are these.
fn words_are_combined() -> bool {
    let (mut both, mut either, mut rest) = ([6], [6], [6]);
    and_words(&mut both, &[3]);
    or_words(&mut either, &[3]);
    minus_words(&mut rest, &[3]);
    (both, either, rest) == ([2], [7], [4])
}

#[test]
fn copies_and_words_by_hand(rt: HostRuntime) {
    let alike = [equal(&[], &[]), equal(&[1], &[])];
    let common = [any_common(&[6], &[1]), any_common(&[6], &[3])];
    let made = [copies_are_masked(), words_are_combined()];
    assert_eq!(rt;
        [alike, common, made],
        [[true, false], [false, true], [true, true]]
    );
}

/// So many of one item.
fn all<T: Copy>(alloc: Global, item: T, count: usize) -> Result<Vec<T>, AllocError>
    ensures { IfOk result (λ v. length v.items ≡ count) }
{
    Vec::from_elem(alloc, item, count)
}

/// Whether a list is equal to one of the same length with one number at each place.
fn are_all(alloc: Global, numbers: &[i64], number: i64) -> Result<bool, AllocError> {
    let expected = all(alloc, number, numbers.len())?;
    Ok(equal(numbers, &expected))
}

/// Whether sums of 2 with numbers that are all 3 come out right.
fn sums_come_out(alloc: Global, from: &[i64]) -> Result<bool, AllocError> {
    let mut sums = all(alloc, 2, from.len())?;
    fold(Op::Sum, Width::W32, &mut sums, from);
    Ok(are_all(alloc, &sums, 5)? && equal(&sums, from) == from.is_empty())
}

/// Whether products of 2 with numbers that are all 3 come out right behind a mask that is set.
fn products_come_out(alloc: Global, from: &[i64]) -> Result<bool, AllocError> {
    let mask = all(alloc, true, from.len())?;
    let mut products = all(alloc, 2, from.len())?;
    fold_masked(Op::Product, Width::W64, &mut products, from, &mask);
    are_all(alloc, &products, 6)
}

/// Whether numbers are copied over 2 behind a mask that is set, and are not where it isn't.
fn copies_come_out(alloc: Global, from: &[i64], is_set: bool) -> Result<bool, AllocError> {
    let mask = all(alloc, is_set, from.len())?;
    let mut copied = all(alloc, 2, from.len())?;
    copy_masked(&mut copied, from, &mask);
    if is_set {
        return Ok(equal(&copied, from));
    }
    are_all(alloc, &copied, 2)
}

/// Whether folds and copies of 3 into 2 come out right at each place of lists of a length.
fn numbers_come_out(alloc: Global, length: usize) -> Result<bool, AllocError> {
    let from = all(alloc, 3, length)?;
    let folds = sums_come_out(alloc, &from)? && products_come_out(alloc, &from)?;
    Ok(folds && copies_come_out(alloc, &from, true)? && copies_come_out(alloc, &from, false)?)
}

/// Whether a list of this number is unlike itself with another last one.
fn last_is_unlike(alloc: Global, length: usize) -> Result<bool, AllocError> {
    let numbers = all(alloc, 4, length)?;
    let mut other = all(alloc, 4, length)?;
    if let Some(last) = other.last_mut() {
        *last = -4;
    }
    Ok(equal(&numbers, &other) == (length == 0))
}

/// Whether words share a bit only with another last word.
fn last_is_common(alloc: Global, length: usize) -> Result<bool, AllocError> {
    let bits = all(alloc, 1, length)?;
    let mut word = all(alloc, 6, length)?;
    let apart = !any_common(&word, &bits);
    if let Some(last) = word.last_mut() {
        *last = 3;
    }
    Ok(apart && any_common(&bits, &word) == (length > 0))
}

/// Whether the last of a list of a length plays its part.
fn last_is_seen(alloc: Global, length: usize) -> Result<bool, AllocError> {
    Ok(last_is_unlike(alloc, length)? && last_is_common(alloc, length)?)
}

/// Whether words are all the same one.
fn words_are(words: &[u64], expected: u64) -> bool {
    for word in words {
        if *word != expected {
            return false;
        }
    }
    true
}

/// An operation on words.
#[derive(Clone, Copy)]
enum Words {
    And,
    Or,
    Minus,
}

/// Whether an operation on words that were made comes out as this word at each place.
fn operation_comes_out(
    words: Result<Vec<u64>, AllocError>,
    operation: Words,
    from: &[u64],
    expected: u64,
) -> Result<bool, AllocError> {
    let mut words = words?;
    if words.len() != from.len() {
        return Ok(false);
    }
    match operation {
        Words::And => and_words(&mut words, from),
        Words::Or => or_words(&mut words, from),
        Words::Minus => minus_words(&mut words, from),
    }
    Ok(words_are(&words, expected))
}

/// Whether the words of 6 and 3 come out right at each place of lists of a length.
fn words_come_out(alloc: Global, length: usize) -> Result<bool, AllocError> {
    let from = all(alloc, 3, length)?;
    for (operation, expected) in [(Words::And, 2), (Words::Or, 7), (Words::Minus, 4)] {
        if !operation_comes_out(all(alloc, 6, length), operation, &from, expected)? {
            return Ok(false);
        }
    }
    Ok(true)
}

#[test]
fn each_length(rt: HostRuntime) -> Result<(), AllocError> {
    let alloc = rt.alloc();
    for length in [0, 1, 7, 8, 9, 4_097] {
        let found = [
            numbers_come_out(alloc, length)?,
            last_is_seen(alloc, length)?,
            words_come_out(alloc, length)?,
        ];
        assert_eq!(rt; found, [true; 3], "{length}");
    }
    Ok(())
}
