//! The kernels.

ghost use Rattle.std.specs.Prelude.{◌≡◌, ◌↔◌, length, IsTrue};
ghost use Rattle.std.specs.Simd.Lanes.{sel_l};
ghost use Rattle.lane_kernels.specs.Kernels.{anded, folded, lessened, ored, share_a_bit};

use crate::masked::update_masked;
use crate::pair_test::{Differs, SharesBit, any_pair};
use crate::pairing::pair_all;
use crate::update::Update;
use crate::word_operator::WordOperator;
use crate::{Op, Width};

/// Whether two lists hold the same numbers in the same order.
pub fn equal(a: &[i64], b: &[i64]) -> bool
    ensures { IsTrue result ↔ (a.now ≡ b.now) }
{
    a.len() == b.len() && !any_pair(Differs, a, b)
}

/// Folds each number into the one beside it, at a width.
pub fn fold(op: Op, width: Width, into: &mut [i64], from: &[i64])
    requires { length into.old ≡ length from.now }
    ensures { into.new ≡ folded op width into.old from.now }
{
    pair_all(Update::Fold(op, width), into, from);
}

/// Folds where the mask is set, and leaves the other numbers as they are.
pub fn fold_masked(op: Op, width: Width, into: &mut [i64], from: &[i64], mask: &[bool])
    requires numbers { length into.old ≡ length from.now }
    requires marks { length into.old ≡ length mask.now }
    ensures { into.new ≡ sel_l mask.now (folded op width into.old from.now) into.old }
{
    update_masked(Update::Fold(op, width), into, from, mask);
}

/// Copies where the mask is set, and leaves the other numbers as they are.
pub fn copy_masked(into: &mut [i64], from: &[i64], mask: &[bool])
    requires numbers { length into.old ≡ length from.now }
    requires marks { length into.old ≡ length mask.now }
    ensures { into.new ≡ sel_l mask.now from.now into.old }
{
    update_masked(Update::Copy, into, from, mask);
}

/// Leaves of each word the bits that the one beside it has too.
pub fn and_words(into: &mut [u64], from: &[u64])
    requires { length into.old ≡ length from.now }
    ensures { into.new ≡ anded into.old from.now }
{
    pair_all(WordOperator::And, into, from);
}

/// Gives each word the bits of the one beside it as well.
pub fn or_words(into: &mut [u64], from: &[u64])
    requires { length into.old ≡ length from.now }
    ensures { into.new ≡ ored into.old from.now }
{
    pair_all(WordOperator::Or, into, from);
}

/// Leaves of each word the bits that the one beside it lacks.
pub fn minus_words(into: &mut [u64], from: &[u64])
    requires { length into.old ≡ length from.now }
    ensures { into.new ≡ lessened into.old from.now }
{
    pair_all(WordOperator::Minus, into, from);
}

/// Whether any two words beside each other share a bit.
pub fn any_common(a: &[u64], b: &[u64]) -> bool
    requires { length a.now ≡ length b.now }
    ensures { result ≡ share_a_bit a.now b.now }
{
    any_pair(SharesBit, a, b)
}
