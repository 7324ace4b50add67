//! Each public call of regent_lex, regent_grammar, regent_reader, constraint_check and
//! program_tables with memory at hand.
//!
//! They stand in a crate of their own so that a crate is proved once, without its tests.
#![tactic(auto)]

#[cfg(test)]
mod facts;
#[cfg(test)]
mod grammar;
#[cfg(test)]
mod tables;
#[cfg(test)]
mod texts;
#[cfg(test)]
mod tokens;
