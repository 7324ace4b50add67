//! Static types: what type terms say, what operators give, and what fits what.
#![tactic(auto)]

mod elements;
mod fields;
mod fitting;
mod formats;
mod looking;
mod operators;
mod params;
mod said;
mod sorts;
mod stop;

pub use elements::{pointer_into, type_of_element};
pub use fields::region_has;
pub use fitting::{agree_all, alike, fits, fits_param, has_wild, is_region_like};
pub use formats::prints;
pub use looking::{
    Among, Arguments, Looking, all_looked_up, binding_of, has_param, number_at, number_bound,
    place_in,
};
pub use operators::{
    after_operator, after_sign, arithmetic_type, counting_as, is_ill_typed_operation,
};
pub use params::{bind_written, differ_in, misfit_in, mispartition_in, put_in, said_params};
pub use said::{number_type, type_said, written_pointer};
pub use sorts::{
    copy_reaches, copy_type, is_collection, is_index, is_integer, is_number, is_partition,
    is_pointer, is_region, is_space, is_truth, is_unknown, is_unstructured, is_value,
};
pub use stop::Stop;
