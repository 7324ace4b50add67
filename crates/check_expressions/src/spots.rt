//! What may stand at a place, by the type of what stands there.

ghost use Rattle.std.specs.Prelude.{[]};
ghost use Rattle.check_rules.specs.first.FirstInExpressions.{first_of_standing};
ghost use Rattle.check_rules.specs.rules.Standing.{stands, integer_spot, truth_spot, number_spot, pointer_spot, value_spot, space_spot, domain_spot, typed_spot, param_spot};
ghost use Rattle.static_types.specs.Telling.{Tells, Anything};

use check_rules::Rule;
use constraint_check::Facts;
use regent_tree::StaticType;
use static_types::{
    Stop, fits, fits_param, is_collection, is_integer, is_number, is_pointer, is_region, is_space,
    is_truth, is_unknown, is_value,
};

/// An integer.
pub fn integer(t: &StaticType) -> Result<(), Stop>
    ensures { Tells Anything result (first_of_standing [] (stands t.now integer_spot)) }
{
    Stop::at(is_collection(t), Rule::Place)?;
    Stop::at(!(is_unknown(t) || is_integer(t)), Rule::Type)
}

/// A truth.
pub fn truth(t: &StaticType) -> Result<(), Stop>
    ensures { Tells Anything result (first_of_standing [] (stands t.now truth_spot)) }
{
    Stop::at(is_collection(t), Rule::Place)?;
    Stop::at(!(is_unknown(t) || is_truth(t)), Rule::Type)
}

/// An integer, an index or a pointer.
pub fn number(t: &StaticType) -> Result<(), Stop>
    ensures { Tells Anything result (first_of_standing [] (stands t.now number_spot)) }
{
    Stop::at(is_collection(t), Rule::Place)?;
    Stop::at(!(is_unknown(t) || is_number(t)), Rule::Type)
}

/// A pointer.
pub fn pointer(t: &StaticType) -> Result<(), Stop>
    ensures { Tells Anything result (first_of_standing [] (stands t.now pointer_spot)) }
{
    Stop::at(is_collection(t), Rule::Place)?;
    Stop::at(!(is_unknown(t) || is_pointer(t)), Rule::Type)
}

/// Any number, truth or pointer.
pub fn value(t: &StaticType) -> Result<(), Stop>
    ensures { Tells Anything result (first_of_standing [] (stands t.now value_spot)) }
{
    Stop::at(is_collection(t), Rule::Place)
}

/// An index space.
pub fn space(t: &StaticType) -> Result<(), Stop>
    ensures { Tells Anything result (first_of_standing [] (stands t.now space_spot)) }
{
    Stop::at(!(is_unknown(t) || is_space(t)), Rule::Type)
}

/// A region or an index space, which a loop goes over.
pub fn domain(t: &StaticType) -> Result<(), Stop>
    ensures { Tells Anything result (first_of_standing [] (stands t.now domain_spot)) }
{
    Stop::at(!(is_unknown(t) || is_region(t) || is_space(t)), Rule::Type)
}

/// What fits a type.
pub fn typed(facts: &Facts, t: &StaticType, wanted: &StaticType) -> Result<(), Stop>
    ensures { Tells Anything result (first_of_standing facts.now (stands t.now (typed_spot wanted.now))) }
{
    Stop::at(is_value(wanted) && is_collection(t), Rule::Place)?;
    Stop::at(!fits(facts, t, wanted), Rule::Type)
}

/// What fits a parameter's type.
pub fn param(facts: &Facts, t: &StaticType, wanted: &StaticType) -> Result<(), Stop>
    ensures { Tells Anything result (first_of_standing facts.now (stands t.now (param_spot wanted.now))) }
{
    Stop::at(is_value(wanted) && is_collection(t), Rule::Place)?;
    Stop::at(!fits_param(facts, t, wanted), Rule::Type)
}
