//! The compiler's part on types: static types of expressions, and the places and slots where code is made.
#![tactic(auto)]

mod calls;
mod here;
mod moving;
mod static_type;
mod symbols;
mod typing;

pub use calls::{params_at, result_of, result_type};
pub use here::{Here, Site, stays};
pub use moving::positions;
pub use static_type::{
    field_type, operated, signed_type, type_of_element, type_of_field, type_of_name,
    width_computed, width_of_type, written_pointer,
};
pub use symbols::Symbols;
pub use typing::{access_type, type_of};
