//! Arithmetic and comparison of numbers.

ghost use Rattle.std.specs.Prelude.{◌≡◌};
ghost use Rattle.lane_kernels.specs.declared.numbers.Width.TheVariants.{W64};
ghost use Rattle.regent_tree.specs.Numbers.{compared, computed};
ghost use Rattle.regent_tree.specs.Values.{kept_truth};
ghost use Rattle.machine_terms.specs.Numbers.{negated};

use lane_kernels::Width;
use regent_tree::{Arithmetic, Comparison};

/// The result of an operator at 64 bits; None for a division by 0.
#[tactic(auto, using(std::proofs::lemmas::Int::wrapping_add_is, std::proofs::lemmas::Int::wrapping_sub_is, std::proofs::lemmas::Int::wrapping_mul_is))]
#[inline(always)]
fn compute_wide(operator: Arithmetic, a: i64, b: i64) -> Option<i64>
    ensures { result ≡ computed operator W64 a b }
{
    match operator {
        Arithmetic::Add => Some(a.wrapping_add(b)),
        Arithmetic::Subtract => Some(a.wrapping_sub(b)),
        Arithmetic::Multiply => Some(a.wrapping_mul(b)),
        Arithmetic::Divide => {
            if b == 0 {
                None
            } else {
                Some(a.wrapping_div(b))
            }
        }
        Arithmetic::Remainder => {
            if b == 0 {
                None
            } else {
                Some(a.wrapping_rem(b))
            }
        }
    }
}

/// The result of an operator at a width; None for a division by 0.
#[inline(always)]
pub fn compute(operator: Arithmetic, width: Width, a: i64, b: i64) -> Option<i64>
    ensures { result ≡ computed operator width a b }
{
    match compute_wide(operator, a, b) {
        Some(z) => Some(width.wrap(z)),
        None => None,
    }
}

/// Whether a comparison of two numbers holds.
#[inline(always)]
pub fn compare(comparison: Comparison, a: i64, b: i64) -> bool
    ensures { result ≡ compared comparison a b }
{
    match comparison {
        Comparison::Equal => a == b,
        Comparison::NotEqual => a != b,
        Comparison::Less => a < b,
        Comparison::AtMost => a <= b,
        Comparison::Greater => a > b,
        Comparison::AtLeast => a >= b,
    }
}

/// A truth as it is kept.
#[inline(always)]
pub fn kept_truth(truth: bool) -> i64
    ensures { result ≡ kept_truth truth }
{
    if truth { 1 } else { 0 }
}

/// The negative of a number at a width.
#[tactic(auto, using(std::proofs::lemmas::Int::wrapping_neg_is))]
pub fn negate(width: Width, z: i64) -> i64
    ensures { result ≡ negated width z }
{
    width.wrap(z.wrapping_neg())
}
