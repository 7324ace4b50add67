//! Terminals: tokens with what they spell.

use lane_kernels::Width;
use plain_values::Sequence;
use regent_lex::{Mark, Word};
use regent_tree::Name;

/// What a token spells: a name's bytes, a number with the width of its type, the bytes that a string
/// stands for, or a word or sign of the language. `Unknown` is a word or sign that isn't in the tables;
/// no text has one.
#[derive(Debug, PartialEq, Eq, Drop)]
pub enum Symbol {
    Name(Name),
    Number { value: i64, width: Width },
    Text(Sequence<u8>),
    Word(Word),
    Mark(Mark),
    Unknown,
}

/// A token with what it spells, and its line.
#[derive(Debug, PartialEq, Eq, Drop)]
pub struct Terminal {
    pub symbol: Symbol,
    pub line: u32,
}
