//! The rules on written types.
#![tactic(auto)]

mod type_rules;

pub use type_rules::{
    check_type, is_unknown_name, miscolours_in_type, miscounts_in_type, misfits_in_type,
    names_partition, names_region, names_unknown, said_pointer, unbound_name_in_type,
    wrong_region_in_type,
};
