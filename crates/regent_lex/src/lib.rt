//! The tokens of a Regent text.
//!
//! `tokens` reads a text of bytes into its list of tokens, or tells its first fault and the line of
//! that. The language's lexical rules stand in `specs/`: the tables of reserved words and of signs
//! in `Tables`, that of tokens in `Tokens`, blanks and comments in `Trivia`, the faults in `Faults`,
//! whole texts in `Texts`. The scanner finds one input element after the other (`Scan`); that it
//! finds what the rules say is proved in `proofs/`, and that a text has one outcome at most is the
//! law of `theorems`.
#![tactic(auto)]

mod bytes;
mod fault;
mod input_element;
mod lex;
mod numbers;
mod scan;
mod search;
mod strings;
mod tables;
pub mod theorems;
mod token;
mod trivia;
mod values;
mod words;

pub use fault::{LexFault, LexKind};
pub use lex::tokens;
pub use tables::{Mark, Word, mark_of, word_of};
pub use token::{Token, TokenKind, spelling};
pub use values::{has_suffix, number_value, quoted_bytes};
