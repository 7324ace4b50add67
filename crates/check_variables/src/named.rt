//! What the names in partition operations stand for.

ghost use Rattle.std.specs.Prelude.{◌≡◌, ◌&&◌, not, IfOk};
ghost use Rattle.std.specs.Option.{option_or};
ghost use Rattle.regent_tree.specs.Lookup.{type_named};
ghost use Rattle.regent_tree.specs.Scopes.{bound_to};
ghost use Rattle.regent_tree.specs.Syntax.{image_initializer};
ghost use Rattle.regent_tree.specs.Typing.{is_disjoint, parent_of};
ghost use Rattle.regent_tree.specs.declared.rights.Access.TheVariants.{Read};
ghost use Rattle.check_rules.specs.types.Declarations.{known_field};
ghost use Rattle.check_rules.specs.types.Lookup.{names_a};
ghost use Rattle.check_rules.specs.rules.Names.{are_partitions, unbound_name_in_initializer};
ghost use Rattle.check_rules.specs.rules.Partitions.{have_other_parents, is_outside, parent_is_outside, tells_colours, tells_points};
ghost use Rattle.check_rules.specs.rules.Privileges.{lacks, wanted_of_region};
ghost use Rattle.check_rules.specs.first.Rules.{rule_if};
ghost use Rattle.check_rules.specs.types.Sorts.{is_region, is_unknown_type};
ghost use Rattle.check_rules.specs.declared.rule.Rule.TheVariants as rule;
ghost use Rattle.static_types.specs.Telling.{Anything, Tells};
ghost use Rattle.check_expressions.specs.Seen.{seen};
ghost use Rattle.check_expressions.specs.Sites.{HoldsDeclared, task_at, tree_at};

use crate::fields::{is_unknown_region_field, known_field};
use check_expressions::{Scope, Site, misuses_region_field};
use check_rules::Rule;
use constraint_check::Facts;
use program_tables::Names;
use regent_tree::{Access, Name, StaticType, Term};
use static_types::{Stop, is_index, is_integer, is_pointer, is_region, is_unknown};
use std::alloc::AllocError;
use written_types::{names_partition, names_region};

/// The type of the field of the region that a name stands for.
fn named_field(
    site: &Site,
    names: &Names,
    region: &Name,
    field: &Name,
) -> Result<StaticType, AllocError>
    ensures { IfOk result (λ u. u ≡ known_field (tree_at site.now) (type_named names.now region.now) field.now) }
{
    match names.bound_to(region) {
        Some(bound) => known_field(site, &bound.static_type, field),
        None => Ok(StaticType::Unknown),
    }
}

/// Whether a field of a type may tell colours: an integer or an index.
fn tells_colours(t: &StaticType) -> bool
    ensures { result ≡ tells_colours t.now }
{
    is_unknown(t) || is_integer(t) || is_index(t)
}

/// Whether a field of a type may tell points: an index or a pointer.
fn tells_points(t: &StaticType) -> bool
    ensures { result ≡ tells_points t.now }
{
    is_unknown(t) || is_index(t) || is_pointer(t)
}

/// Whether the field of the region that a name stands for may tell colours.
pub fn named_tells_colours(
    site: &Site,
    names: &Names,
    region: &Name,
    field: &Name,
) -> Result<bool, AllocError>
    ensures { IfOk result (λ b. b ≡ tells_colours
        (known_field (tree_at site.now) (type_named names.now region.now) field.now)) }
{
    Ok(tells_colours(&named_field(site, names, region, field)?))
}

/// Whether the field of the region that a name stands for may tell points.
pub fn named_tells_points(
    site: &Site,
    names: &Names,
    region: &Name,
    field: &Name,
) -> Result<bool, AllocError>
    ensures { IfOk result (λ b. b ≡ tells_points
        (known_field (tree_at site.now) (type_named names.now region.now) field.now)) }
{
    Ok(tells_points(&named_field(site, names, region, field)?))
}

/// Reads the field of the region that a name stands for.
pub fn reads_named_field(
    site: &Site,
    scope: &Scope,
    region: &Name,
    field: &Name,
) -> Result<(), Stop>
    requires { HoldsDeclared site.now }
    ensures { Tells Anything result (rule_if (lacks (tree_at site.now) (task_at site.now) (seen scope.now)
        (wanted_of_region (tree_at site.now) Read (type_named (seen scope.now).names region.now) field.now)) rule.Read) }
{
    let Some(bound) = scope.names().bound_to(region) else {
        return Ok(());
    };
    let lacks = misuses_region_field(site, scope, Access::Read, &bound.static_type, field)?;
    Stop::at(lacks, Rule::Read)
}

/// Whether a region with a number doesn't derivably lie within one of a type.
fn is_outside(facts: &Facts, number: u32, t: &StaticType) -> bool
    ensures { result ≡ is_outside facts.now number t.now }
{
    match t {
        StaticType::Region { term, .. } => !facts.subregion(&Term::Name(number), term),
        _ => false,
    }
}

fn parent_is_outside(facts: &Facts, partition: &StaticType, t: &StaticType) -> bool
    ensures { result ≡ parent_is_outside facts.now partition.now t.now }
{
    match partition {
        StaticType::Partition { parent, .. } => is_outside(facts, *parent, t),
        _ => false,
    }
}

fn have_other_parents(one: &StaticType, other: &StaticType) -> bool
    ensures { result ≡ have_other_parents one.now other.now }
{
    match (one, other) {
        (
            StaticType::Partition { parent, .. },
            StaticType::Partition {
                parent: other_parent,
                ..
            },
        ) => parent != other_parent,
        _ => false,
    }
}

/// Whether two names stand for partitions with different parents.
pub fn named_have_other_parents(names: &Names, p: &Name, q: &Name) -> bool
    ensures { result ≡ have_other_parents (type_named names.now p.now) (type_named names.now q.now) }
{
    let Some(one) = names.bound_to(p) else {
        return false;
    };
    let Some(other) = names.bound_to(q) else {
        return false;
    };
    have_other_parents(&one.static_type, &other.static_type)
}

/// Whether the names of an `image` or a `preimage` aren't bound to what its form says.
pub fn unbound_name_in_operation(
    site: &Site,
    names: &Names,
    parent: &Name,
    partition: &Name,
    region: &Name,
    field: &Name,
) -> bool
    ensures { result ≡ unbound_name_in_initializer (tree_at site.now) names.now
        (image_initializer parent.now partition.now region.now field.now) }
{
    !names_region(names, parent)
        || !names_partition(names, partition)
        || is_unknown_region_field(site.declared, names, region, field)
}

/// Whether the partition that a name stands for has a parent that isn't within a region.
pub fn named_parent_is_outside(scope: &Scope, partition: &Name, region: &Name) -> bool
    ensures { result ≡ parent_is_outside (seen scope.now).known
        (type_named (seen scope.now).names partition.now) (type_named (seen scope.now).names region.now) }
{
    let Some(one) = scope.names().bound_to(partition) else {
        return false;
    };
    let Some(other) = scope.names().bound_to(region) else {
        return false;
    };
    parent_is_outside(scope.facts(), &one.static_type, &other.static_type)
}

/// Whether the region that a name stands for isn't within another.
pub fn region_is_outside(scope: &Scope, inner: &Name, outer: &Name) -> bool
    ensures { result ≡ (names_a is_region (seen scope.now).names inner.now
        && not (is_unknown_type (type_named (seen scope.now).names inner.now))
        && is_outside (seen scope.now).known (bound_to (seen scope.now).names inner.now).number
        (type_named (seen scope.now).names outer.now)) }
{
    let names = scope.names();
    let Some(one) = names.bound_to(inner) else {
        return false;
    };
    let Some(other) = names.bound_to(outer) else {
        return false;
    };
    is_region(&one.static_type) && is_outside(scope.facts(), one.number, &other.static_type)
}

/// Whether the partition that a name stands for is disjoint.
pub fn is_disjoint_named(names: &Names, partition: &Name) -> bool
    ensures { result ≡ is_disjoint (type_named names.now partition.now) }
{
    match names.bound_to(partition) {
        Some(bound) => is_disjoint(&bound.static_type),
        None => false,
    }
}

fn is_disjoint(t: &StaticType) -> bool
    ensures { result ≡ is_disjoint t.now }
{
    match t {
        StaticType::Partition { disjoint, .. } => *disjoint,
        _ => false,
    }
}

/// The parent of the partition that a name stands for.
pub fn parent_named(names: &Names, partition: &Name) -> u32
    ensures { result ≡ parent_of (type_named names.now partition.now) }
{
    match names.bound_to(partition) {
        Some(bound) => parent_of(&bound.static_type),
        None => 0,
    }
}

fn parent_of(t: &StaticType) -> u32
    ensures { result ≡ parent_of t.now }
{
    match t {
        StaticType::Partition { parent, .. } => *parent,
        _ => 0,
    }
}

/// Two names stand for partitions of one parent, as far as is known.
pub fn operands(names: &Names, p: &Name, q: &Name) -> Result<(), Stop>
    ensures { Tells Anything result (option_or (rule_if (not (are_partitions names.now p.now q.now)) rule.Name)
        (rule_if (have_other_parents (type_named names.now p.now) (type_named names.now q.now)) rule.Partition)) }
{
    Stop::at(
        !(names_partition(names, p) && names_partition(names, q)),
        Rule::Name,
    )?;
    Stop::at(named_have_other_parents(names, p, q), Rule::Partition)
}
