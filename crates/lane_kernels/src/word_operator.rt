//! Operators on words of 64 bits.

ghost use Rattle.std.specs.Prelude.{◌≡◌, length};
ghost use Rattle.std.specs.Simd.Lanes.{zip2};
ghost use Rattle.lane_kernels.specs.Fronts.{word_of};

use crate::pairing::Pairing;
use std::simd::prelude::*;

/// An operator on the bits of two words.
#[derive(Clone, Copy, Debug)]
pub enum WordOperator {
    And,
    Or,
    /// The bits of the first word that the second lacks.
    Minus,
}

impl Pairing<u64> for WordOperator {
    ghost paired = { word_of };

    fn one(self, a: u64, b: u64) -> u64 {
        match self {
            WordOperator::And => a & b,
            WordOperator::Or => a | b,
            WordOperator::Minus => a & !b,
        }
    }

    fn eight(self, into: &mut [u64], from: &[u64], at: usize) {
        let left = u64x8::from_slice(&into[at..]);
        let right = u64x8::from_slice(&from[at..]);
        self.lanes(left, right).copy_to_slice(&mut into[at..]);
    }
}

impl WordOperator {
    /// The results on eight words.
    fn lanes(self, a: u64x8, b: u64x8) -> u64x8
        requires left { length a ≡ 8 }
        requires right { length b ≡ 8 }
        ensures { result ≡ zip2 (word_of self) a b }
    {
        match self {
            WordOperator::And => a & b,
            WordOperator::Or => a | b,
            WordOperator::Minus => a & !b,
        }
    }
}
