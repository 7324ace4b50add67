//! What a run of code stands on: the values of slots, the parts that are held, and what instructions make
//! of them.
#![tactic(auto)]

mod aims;
mod arithmetic;
mod casts;
mod colours;
mod columns;
mod copies;
mod divisions;
mod fills;
mod holdings;
mod jumps;
mod operands;
mod pointers;
mod points;
mod slots;
mod takings;
mod texts;

pub use aims::{Aim, aim_through, same_width, written};
pub use arithmetic::{compare, compute, kept_truth, negate};
pub use casts::{cast_to, number_to_cast};
pub use colours::{coloured, partition_in};
pub use columns::Column;
pub use copies::copy_parts;
pub use divisions::{
    Division, divide_by_both, divide_by_either, divide_by_field, divide_by_image,
    divide_by_preimage, divide_equally, divide_without, lies_in,
};
pub use holdings::{Holdings, Lack};
pub use jumps::{branch, may_jump, place_of_jump};
pub use operands::{operand, operation, pointer_at};
pub use pointers::{Pointer, are_same, held_point, region_in};
pub use points::{Upcoming, loop_value, next_of};
pub use slots::Slots;
pub use takings::take_values;
pub use texts::{count_numbers, text_of};
