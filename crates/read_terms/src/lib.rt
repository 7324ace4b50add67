//! Types, expressions and names of fields, read from the terminals of a text by recursive descent with one terminal in hand.
//!
//! Each function that reads takes the terminals that are left and gives what it read with those that are
//! left then. Its clause names the rule of the grammar by which it reads.
#![tactic(auto)]

mod ahead;
mod expressions;
mod heads;
mod names;
mod nodes;
mod operators;
mod stop;
mod take;
mod types;

pub use ahead::{comes_mark, comes_name_before, comes_word, is_name, line_of};
pub use expressions::{arguments, expression, more_arguments, steps};
pub use names::{fields, next_name};
pub use stop::Stop;
pub use take::{
    before_mark, before_word, is_mark, is_named, is_word, take_library, take_mark, take_name,
    take_named, take_opening, take_text, take_word, with_first,
};
pub use types::{declared_type, parameter, space_use, type_term};
