//! The number types that all crates share, and kernels over lists of numbers and of words, eight lanes at a time.
#![tactic(auto)]

mod kernels;
mod load;
mod masked;
mod numbers;
mod pair_test;
mod pairing;
mod update;
mod word_operator;

pub use kernels::{
    and_words, any_common, copy_masked, equal, fold, fold_masked, minus_words, or_words,
};
pub use numbers::{FieldKind, Mode, Op, Width};
