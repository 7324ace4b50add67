//! Examples of the rules that the checker checks: programs that breach none, and small programs with
//! their exact breaches.
//!
//! Each function has an empty body; its contract says which breaches some programs have, as pairs
//! of a rule and a line.
#![tactic(auto)]

ghost use Rattle.check_examples.specs.Accepted.{numbers_accepted, reductions_accepted, partitions_accepted, images_accepted, statements_accepted, calls_accepted, pointers_accepted, limits_accepted};
ghost use Rattle.check_examples.specs.NameExamples.{parameters_of_one_name_breaks, after_unknown_breaks, beside_the_unbound_breaks, causes_alone_breaks, clause_on_nothing_breaks, missing_things_breaks, named_by_each_other_breaks, parameter_of_no_type_breaks, past_its_block_breaks, pointer_into_unknown_breaks, pointer_to_number_breaks, two_of_a_name_breaks, unbound_name_breaks};
ghost use Rattle.check_examples.specs.TypeExamples.{region_for_number_breaks, elements_as_targets_breaks, wrong_types_breaks, integer_for_index_breaks, wrong_count_breaks, region_as_value_breaks, fixed_targets_breaks, wrong_formats_breaks, field_of_bad_type_breaks, unknown_child_breaks, differences_breaks, misbegun_regions_breaks, no_result_breaks};
ghost use Rattle.check_examples.specs.PrivilegeExamples.{write_under_reads_breaks, read_under_writes_breaks, other_reduction_breaks, two_regions_breaks, call_without_privilege_breaks, partition_by_field_breaks, privileges_of_parts_breaks};
ghost use Rattle.check_examples.specs.ConstraintExamples.{overlapping_children_breaks, within_the_other_breaks};
ghost use Rattle.check_examples.specs.RegionExamples.{wild_pointer_breaks, wrong_pointers_breaks, other_space_breaks, aliased_for_disjoint_breaks, after_misbegun_breaks, image_of_another_breaks, set_of_two_parents_breaks, other_arguments_breaks};
ghost use Rattle.check_examples.specs.ItemExamples.{calls_by_wrong_clauses_breaks, wrong_clauses_breaks, wrong_returns_breaks, nothing_to_start_breaks, wrong_starts_breaks, demanded_loops_breaks};

// ---- accepted programs

/// Numbers, and what is printed of them.
#[tactic(auto, using(crate::proofs::Accepted::numbers_holds))]
pub fn numbers()
    ensures { numbers_accepted }
{}

/// Reductions of fields.
#[tactic(auto, using(crate::proofs::Accepted::reductions_holds))]
pub fn reductions()
    ensures { reductions_accepted }
{}

/// Partitions and their colours.
#[tactic(auto, using(crate::proofs::Accepted::partitions_holds))]
pub fn partitions()
    ensures { partitions_accepted }
{}

/// Images and preimages.
#[tactic(auto, using(crate::proofs::Accepted::images_holds))]
pub fn images()
    ensures { images_accepted }
{}

/// Statements of each form.
#[tactic(auto, using(crate::proofs::Accepted::statements_holds))]
pub fn statements()
    ensures { statements_accepted }
{}

/// Calls that share a region.
#[tactic(auto, using(crate::proofs::Accepted::calls_holds))]
pub fn calls()
    ensures { calls_accepted }
{}

/// Pointers, casts and null.
#[tactic(auto, using(crate::proofs::Accepted::pointers_holds))]
pub fn pointers()
    ensures { pointers_accepted }
{}

/// Turns, depth and sizes.
#[tactic(auto, using(crate::proofs::Accepted::limits_holds))]
pub fn limits()
    ensures { limits_accepted }
{}

// ---- breaches

/// A name that isn't bound: what follows from it is no breach.
#[tactic(auto, using(crate::proofs::NameExamples::unbound_name_holds))]
pub fn unbound_name()
    ensures { unbound_name_breaks }
{}

/// A task, an alias, a field space and a field that aren't there.
#[tactic(auto, using(crate::proofs::NameExamples::missing_things_holds))]
pub fn missing_things()
    ensures { missing_things_breaks }
{}

/// A name behind the end of its block.
#[tactic(auto, using(crate::proofs::NameExamples::past_its_block_holds))]
pub fn past_its_block()
    ensures { past_its_block_breaks }
{}

/// Two tasks, and two fields, of one name.
#[tactic(auto, using(crate::proofs::NameExamples::two_of_a_name_holds))]
pub fn two_of_a_name()
    ensures { two_of_a_name_breaks }
{}

/// A truth for an integer, an integer for a test, a sum of a truth, and neither type nor start
/// value.
#[tactic(auto, using(crate::proofs::TypeExamples::wrong_types_holds))]
pub fn wrong_types()
    ensures { wrong_types_breaks }
{}

/// An integer fits an index; an index fits no integer.
#[tactic(auto, using(crate::proofs::TypeExamples::integer_for_index_holds))]
pub fn integer_for_index()
    ensures { integer_for_index_breaks }
{}

/// A call with one argument too many, and a field space without its argument.
#[tactic(auto, using(crate::proofs::TypeExamples::wrong_count_holds))]
pub fn wrong_count()
    ensures { wrong_count_breaks }
{}

/// A region in a sum, and as an initializer.
#[tactic(auto, using(crate::proofs::TypeExamples::region_as_value_holds))]
pub fn region_as_value()
    ensures { region_as_value_breaks }
{}

/// A loop variable, a parameter, a region and an index as targets.
#[tactic(auto, using(crate::proofs::TypeExamples::fixed_targets_holds))]
pub fn fixed_targets()
    ensures { fixed_targets_breaks }
{}

/// A `printf` with an argument too few, an argument that is a truth, and a `%x`.
#[tactic(auto, using(crate::proofs::TypeExamples::wrong_formats_holds))]
pub fn wrong_formats()
    ensures { wrong_formats_breaks }
{}

/// A field written under `reads`.
#[tactic(auto, using(crate::proofs::PrivilegeExamples::write_under_reads_holds))]
pub fn write_under_reads()
    ensures { write_under_reads_breaks }
{}

/// A field read, and reduced, under `writes` alone.
#[tactic(auto, using(crate::proofs::PrivilegeExamples::read_under_writes_holds))]
pub fn read_under_writes()
    ensures { read_under_writes_breaks }
{}

/// A reduction under that of another operator; both reading and writing allow it.
#[tactic(auto, using(crate::proofs::PrivilegeExamples::other_reduction_holds))]
pub fn other_reduction()
    ensures { other_reduction_breaks }
{}

/// A pointer into two regions, one of which may not be written.
#[tactic(auto, using(crate::proofs::PrivilegeExamples::two_regions_holds))]
pub fn two_regions()
    ensures { two_regions_breaks }
{}

/// A call whose privilege the caller lacks.
#[tactic(auto, using(crate::proofs::PrivilegeExamples::call_without_privilege_holds))]
pub fn call_without_privilege()
    ensures { call_without_privilege_breaks }
{}

/// Two children for parameters that share no point: p[0] and p[1] are apart; p[0] with itself,
/// and with p[k], isn't known to be.
#[tactic(auto, using(crate::proofs::ConstraintExamples::overlapping_children_holds))]
pub fn overlapping_children()
    ensures { overlapping_children_breaks }
{}

/// A constraint `a <= b`, the right way round and the wrong one.
#[tactic(auto, using(crate::proofs::ConstraintExamples::within_the_other_holds))]
pub fn within_the_other()
    ensures { within_the_other_breaks }
{}

/// A field of a pointer whose list holds `wild`.
#[tactic(auto, using(crate::proofs::RegionExamples::wild_pointer_holds))]
pub fn wild_pointer()
    ensures { wild_pointer_breaks }
{}

/// `wild` in a pointer type's own list, and a region of another field space.
#[tactic(auto, using(crate::proofs::RegionExamples::wrong_pointers_holds))]
pub fn wrong_pointers()
    ensures { wrong_pointers_breaks }
{}

/// A region of another field space than the parameter's.
#[tactic(auto, using(crate::proofs::RegionExamples::other_space_holds))]
pub fn other_space()
    ensures { other_space_breaks }
{}

/// An aliased partition for a disjoint parameter, and one of another region.
#[tactic(auto, using(crate::proofs::RegionExamples::aliased_for_disjoint_holds))]
pub fn aliased_for_disjoint()
    ensures { aliased_for_disjoint_breaks }
{}

/// An `image` of a partition of another region than the field's.
#[tactic(auto, using(crate::proofs::RegionExamples::image_of_another_holds))]
pub fn image_of_another()
    ensures { image_of_another_breaks }
{}

/// A clause on a number, and on a field that isn't there.
#[tactic(auto, using(crate::proofs::ItemExamples::wrong_clauses_holds))]
pub fn wrong_clauses()
    ensures { wrong_clauses_breaks }
{}

/// A value without a result type, none with one, and a result that is an index space.
#[tactic(auto, using(crate::proofs::ItemExamples::wrong_returns_holds))]
pub fn wrong_returns()
    ensures { wrong_returns_breaks }
{}

/// A program without a start and without a task `main`.
#[tactic(auto, using(crate::proofs::ItemExamples::nothing_to_start_holds))]
pub fn nothing_to_start()
    ensures { nothing_to_start_breaks }
{}

/// Two starts, one of a task that isn't there; and a entry task with a truth as its parameter.
#[tactic(auto, using(crate::proofs::ItemExamples::wrong_starts_holds))]
pub fn wrong_starts()
    ensures { wrong_starts_breaks }
{}

/// What follows from a breach is none: of a parameter of a field space that isn't there, a
/// partition of a region that isn't bound, and a loop over it.
#[tactic(auto, using(crate::proofs::NameExamples::causes_alone_holds))]
pub fn causes_alone()
    ensures { causes_alone_breaks }
{}

/// A number's name in a pointer type is no region there, and neither is a name that isn't bound.
#[tactic(auto, using(crate::proofs::NameExamples::pointer_to_number_holds))]
pub fn pointer_to_number()
    ensures { pointer_to_number_breaks }
{}

/// What follows from an unknown partition or region is none: a set operation, a value, a region
/// variable with a declared type, and a call with it.
#[tactic(auto, using(crate::proofs::NameExamples::after_unknown_holds))]
pub fn after_unknown()
    ensures { after_unknown_breaks }
{}

/// Of a pointer into what is unknown no privilege is asked.
#[tactic(auto, using(crate::proofs::NameExamples::pointer_into_unknown_holds))]
pub fn pointer_into_unknown()
    ensures { pointer_into_unknown_breaks }
{}

/// A field space's parameter whose type says nothing takes any region.
#[tactic(auto, using(crate::proofs::NameExamples::parameter_of_no_type_holds))]
pub fn parameter_of_no_type()
    ensures { parameter_of_no_type_breaks }
{}

/// A clause on a name that is no parameter tells nothing of the regions that are made.
#[tactic(auto, using(crate::proofs::NameExamples::clause_on_nothing_holds))]
pub fn clause_on_nothing()
    ensures { clause_on_nothing_breaks }
{}

/// Two partitions that name each other as their regions.
#[tactic(auto, using(crate::proofs::NameExamples::named_by_each_other_holds))]
pub fn named_by_each_other()
    ensures { named_by_each_other_breaks }
{}

/// A breach beside an unbound name: a number in a conjunction.
#[tactic(auto, using(crate::proofs::NameExamples::beside_the_unbound_holds))]
pub fn beside_the_unbound()
    ensures { beside_the_unbound_breaks }
{}

/// A region as a field: what is done with the field is no further breach.
#[tactic(auto, using(crate::proofs::TypeExamples::field_of_bad_type_holds))]
pub fn field_of_bad_type()
    ensures { field_of_bad_type_breaks }
{}

/// A pointer into p[k] fits no type that names p[k] again, though a variable may begin with it;
/// into p[0] it does.
#[tactic(auto, using(crate::proofs::TypeExamples::unknown_child_holds))]
pub fn unknown_child()
    ensures { unknown_child_breaks }
{}

/// A difference of partitions is the whole of an initializer, of two names.
#[tactic(auto, using(crate::proofs::TypeExamples::differences_holds))]
pub fn differences()
    ensures { differences_breaks }
{}

/// A call without a result in an expression, and a region without an initializer.
#[tactic(auto, using(crate::proofs::TypeExamples::no_result_holds))]
pub fn no_result()
    ensures { no_result_breaks }
{}

/// Of region variables that don't begin as they must nothing more is told.
#[tactic(auto, using(crate::proofs::TypeExamples::misbegun_regions_holds))]
pub fn misbegun_regions()
    ensures { misbegun_regions_breaks }
{}

/// A partition by a field that may not be read, and a `fill` of one that may not be written.
#[tactic(auto, using(crate::proofs::PrivilegeExamples::partition_by_field_holds))]
pub fn partition_by_field()
    ensures { partition_by_field_breaks }
{}

/// Privileges on a region hold on its children; those on a child don't hold on the region.
#[tactic(auto, using(crate::proofs::PrivilegeExamples::privileges_of_parts_holds))]
pub fn privileges_of_parts()
    ensures { privileges_of_parts_breaks }
{}

/// A set operation of partitions of two regions, a partition by a truth, and colours of kind
/// `ptr`.
#[tactic(auto, using(crate::proofs::RegionExamples::set_of_two_parents_holds))]
pub fn set_of_two_parents()
    ensures { set_of_two_parents_breaks }
{}

/// A region whose field space has another region as its argument than the parameter says; `wild`
/// agrees with it.
#[tactic(auto, using(crate::proofs::RegionExamples::other_arguments_holds))]
pub fn other_arguments()
    ensures { other_arguments_breaks }
{}

/// The sample program's loops under `__demand`.
#[tactic(auto, using(crate::proofs::ItemExamples::demanded_loops_holds))]
pub fn demanded_loops()
    ensures { demanded_loops_breaks }
{}

/// Behind a region and a partition that don't begin as they must, nothing is told of what names them.
#[tactic(auto, using(crate::proofs::RegionExamples::after_misbegun_holds))]
pub fn after_misbegun()
    ensures { after_misbegun_breaks }
{}

/// In a task whose parameters share a name that name is of an unknown type.
#[tactic(auto, using(crate::proofs::NameExamples::parameters_of_one_name_holds))]
pub fn parameters_of_one_name()
    ensures { parameters_of_one_name_breaks }
{}

/// An element, and the colours of a partition, are no targets, also where something else is wrong.
#[tactic(auto, using(crate::proofs::TypeExamples::elements_as_targets_holds))]
pub fn elements_as_targets()
    ensures { elements_as_targets_breaks }
{}

/// A region for a parameter that is a number.
#[tactic(auto, using(crate::proofs::TypeExamples::region_for_number_holds))]
pub fn region_for_number()
    ensures { region_for_number_breaks }
{}

/// Clauses with a breach ask nothing of a call.
#[tactic(auto, using(crate::proofs::ItemExamples::calls_by_wrong_clauses_holds))]
pub fn calls_by_wrong_clauses()
    ensures { calls_by_wrong_clauses_breaks }
{}
