//! Partition operations as initializers.

ghost use Rattle.std.specs.Prelude.{◌≡◌, ◌||◌, None, not};
ghost use Rattle.std.specs.Option.{option_or};
ghost use Rattle.regent_tree.specs.Lookup.{is_bound, type_named};
ghost use Rattle.regent_tree.specs.Plain.{expression_of};
ghost use Rattle.regent_tree.specs.Syntax.{Expression, both_initializer, by_field_initializer, either_initializer, equal_initializer, image_initializer, preimage_initializer};
ghost use Rattle.regent_tree.specs.Typing.{is_disjoint, parent_of};
ghost use Rattle.regent_tree.specs.declared.typing.StaticType.TheVariants.{Partition as partition_type};
ghost use Rattle.check_rules.specs.types.Params.{type_unless};
ghost use Rattle.check_rules.specs.rules.Partitions.{have_other_parents};
ghost use Rattle.check_rules.specs.first.FirstInExpressions.{first_in_expression};
ghost use Rattle.check_rules.specs.first.Rules.{rule_if};
ghost use Rattle.check_rules.specs.types.KnownTypes.{known_type};
ghost use Rattle.check_rules.specs.types.Sorts.{is_unknown_type};
ghost use Rattle.check_rules.specs.scopes.Variables.{known_initializer};
ghost use Rattle.check_rules.specs.declared.rule.Rule.TheVariants as rule;
ghost use Rattle.static_types.specs.Telling.{Tells};
ghost use Rattle.check_expressions.specs.Seen.{seen};
ghost use Rattle.check_expressions.specs.Sites.{HoldsDeclared, task_at, tree_at};
ghost use Rattle.check_variables.specs.Beginning.{first_in_initializer};

use crate::fields::is_unknown_region_field;
use crate::named::{
    is_disjoint_named, named_have_other_parents, named_parent_is_outside, named_tells_colours,
    named_tells_points, operands, parent_named, reads_named_field, region_is_outside,
    unbound_name_in_operation,
};
use check_expressions::{Scope, Site, expression, spots};
use check_rules::Rule;
use regent_tree::{Expr, Name, StaticType};
use static_types::{Stop, is_unknown, is_unstructured, number_bound};
use written_types::{is_unknown_name, names_region};

/// A partition into parts of equal size, by colours of a type.
fn equal_over(site: &Site, scope: &Scope, region: &Name, t: &StaticType) -> Result<StaticType, Stop>
    ensures { (e : Expression) → t.now ≡ known_type (tree_at site.now) (seen scope.now) e
        → first_in_expression (tree_at site.now) (task_at site.now) (seen scope.now) e ≡ None
        → Tells (λ u. u ≡ known_initializer (tree_at site.now) (seen scope.now)
        (equal_initializer region.now e)) result
        (first_in_initializer (tree_at site.now) (task_at site.now) (seen scope.now)
        (equal_initializer region.now e)) }
{
    let names = scope.names();
    Stop::at(!names_region(names, region), Rule::Name)?;
    Stop::at(is_unstructured(t), Rule::Partition)?;
    spots::space(t)?;
    if is_unknown(t) || is_unknown_name(names, region) {
        return Ok(StaticType::Unknown);
    }
    Ok(StaticType::Partition {
        disjoint: true,
        parent: number_bound(names, region),
        own: scope.next(),
    })
}

/// A partition into parts of equal size.
pub fn equal(site: &Site, scope: &Scope, region: &Name, colours: &Expr) -> Result<StaticType, Stop>
    requires { HoldsDeclared site.now }
    ensures { Tells (λ t. t ≡ known_initializer (tree_at site.now) (seen scope.now)
        (equal_initializer region.now (expression_of colours.now))) result
        (first_in_initializer (tree_at site.now) (task_at site.now) (seen scope.now)
        (equal_initializer region.now (expression_of colours.now))) }
{
    let t = expression(site, scope, colours)?;
    equal_over(site, scope, region, &t)
}

/// A partition by the colours that a field tells, over colours of a type.
fn by_field_over(
    site: &Site,
    scope: &Scope,
    region: &Name,
    field: &Name,
    t: &StaticType,
) -> Result<StaticType, Stop>
    requires { HoldsDeclared site.now }
    ensures { (e : Expression) → t.now ≡ known_type (tree_at site.now) (seen scope.now) e
        → first_in_expression (tree_at site.now) (task_at site.now) (seen scope.now) e ≡ None
        → Tells (λ u. u ≡ known_initializer (tree_at site.now) (seen scope.now)
        (by_field_initializer region.now field.now e)) result
        (first_in_initializer (tree_at site.now) (task_at site.now) (seen scope.now)
        (by_field_initializer region.now field.now e)) }
{
    let names = scope.names();
    let has_unbound_name = is_unknown_region_field(site.declared, names, region, field);
    Stop::at(has_unbound_name, Rule::Name)?;
    let tells = named_tells_colours(site, names, region, field)?;
    Stop::at(!tells, Rule::Partition)?;
    Stop::at(is_unstructured(t), Rule::Partition)?;
    reads_named_field(site, scope, region, field)?;
    spots::space(t)?;
    if is_unknown(t) || is_unknown_name(names, region) {
        return Ok(StaticType::Unknown);
    }
    Ok(StaticType::Partition {
        disjoint: true,
        parent: number_bound(names, region),
        own: scope.next(),
    })
}

/// A partition by the colours that a field tells.
pub fn by_field(
    site: &Site,
    scope: &Scope,
    region: &Name,
    field: &Name,
    colours: &Expr,
) -> Result<StaticType, Stop>
    requires { HoldsDeclared site.now }
    ensures { Tells (λ t. t ≡ known_initializer (tree_at site.now) (seen scope.now)
        (by_field_initializer region.now field.now (expression_of colours.now))) result
        (first_in_initializer (tree_at site.now) (task_at site.now) (seen scope.now)
        (by_field_initializer region.now field.now (expression_of colours.now))) }
{
    let t = expression(site, scope, colours)?;
    by_field_over(site, scope, region, field, &t)
}

/// A partition of a region by where the pointers of another partition's children lead.
pub fn image(
    site: &Site,
    scope: &Scope,
    parent: &Name,
    partition: &Name,
    region: &Name,
    field: &Name,
) -> Result<StaticType, Stop>
    requires { HoldsDeclared site.now }
    ensures { Tells (λ t. t ≡ known_initializer (tree_at site.now) (seen scope.now)
        (image_initializer parent.now partition.now region.now field.now)) result
        (first_in_initializer (tree_at site.now) (task_at site.now) (seen scope.now)
        (image_initializer parent.now partition.now region.now field.now)) }
{
    let names = scope.names();
    let has_unbound_name = unbound_name_in_operation(site, names, parent, partition, region, field);
    Stop::at(has_unbound_name, Rule::Name)?;
    let tells = named_tells_points(site, names, region, field)?;
    let outside = named_parent_is_outside(scope, partition, region);
    Stop::at(outside || !tells, Rule::Partition)?;
    reads_named_field(site, scope, region, field)?;
    if is_unknown_name(names, parent) {
        return Ok(StaticType::Unknown);
    }
    Ok(StaticType::Partition {
        disjoint: false,
        parent: number_bound(names, parent),
        own: scope.next(),
    })
}

/// A partition of a region by which child of another partition each pointer leads into.
pub fn preimage(
    site: &Site,
    scope: &Scope,
    parent: &Name,
    partition: &Name,
    region: &Name,
    field: &Name,
) -> Result<StaticType, Stop>
    requires { HoldsDeclared site.now }
    ensures { Tells (λ t. t ≡ known_initializer (tree_at site.now) (seen scope.now)
        (preimage_initializer parent.now partition.now region.now field.now)) result
        (first_in_initializer (tree_at site.now) (task_at site.now) (seen scope.now)
        (preimage_initializer parent.now partition.now region.now field.now)) }
{
    let names = scope.names();
    let has_unbound_name = unbound_name_in_operation(site, names, parent, partition, region, field);
    Stop::at(has_unbound_name, Rule::Name)?;
    let tells = named_tells_points(site, names, region, field)?;
    let outside = region_is_outside(scope, parent, region);
    Stop::at(outside || !tells, Rule::Partition)?;
    reads_named_field(site, scope, region, field)?;
    if is_unknown_name(names, parent) || is_unknown_name(names, partition) {
        return Ok(StaticType::Unknown);
    }
    Ok(StaticType::Partition {
        disjoint: is_disjoint_named(names, partition),
        parent: number_bound(names, parent),
        own: scope.next(),
    })
}

/// The points that are in both of two partitions' children of a colour.
pub fn both(site: &Site, scope: &Scope, p: &Name, q: &Name) -> Result<StaticType, Stop>
    ensures { Tells (λ t. t ≡ known_initializer (tree_at site.now) (seen scope.now) (both_initializer p.now q.now)) result
        (first_in_initializer (tree_at site.now) (task_at site.now) (seen scope.now) (both_initializer p.now q.now)) }
{
    let names = scope.names();
    operands(names, p, q)?;
    if is_unknown_name(names, p) || is_unknown_name(names, q) {
        return Ok(StaticType::Unknown);
    }
    Ok(StaticType::Partition {
        disjoint: is_disjoint_named(names, p) || is_disjoint_named(names, q),
        parent: parent_named(names, p),
        own: scope.next(),
    })
}

/// The points that are in either of two partitions' children of a colour.
pub fn either(site: &Site, scope: &Scope, p: &Name, q: &Name) -> Result<StaticType, Stop>
    ensures { Tells (λ t. t ≡ known_initializer (tree_at site.now) (seen scope.now) (either_initializer p.now q.now)) result
        (first_in_initializer (tree_at site.now) (task_at site.now) (seen scope.now) (either_initializer p.now q.now)) }
{
    let names = scope.names();
    operands(names, p, q)?;
    if is_unknown_name(names, p) || is_unknown_name(names, q) {
        return Ok(StaticType::Unknown);
    }
    Ok(StaticType::Partition {
        disjoint: false,
        parent: parent_named(names, p),
        own: scope.next(),
    })
}

/// The points of one partition's child of a colour that aren't in the other's.
pub fn minus(scope: &Scope, p: &Name, q: &Name) -> Result<StaticType, Stop>
    ensures { Tells (λ t. t ≡ type_unless (is_unknown_type (type_named (seen scope.now).names p.now)
        || is_unknown_type (type_named (seen scope.now).names q.now))
        (partition_type (is_disjoint (type_named (seen scope.now).names p.now))
        (parent_of (type_named (seen scope.now).names p.now)) (seen scope.now).next)) result
        (option_or (rule_if (not (is_bound (seen scope.now).names p.now)) rule.Name)
        (option_or (rule_if (not (is_bound (seen scope.now).names q.now)) rule.Name)
        (rule_if (have_other_parents (type_named (seen scope.now).names p.now)
        (type_named (seen scope.now).names q.now)) rule.Partition))) }
{
    let names = scope.names();
    Stop::at(names.bound_to(p).is_none(), Rule::Name)?;
    Stop::at(names.bound_to(q).is_none(), Rule::Name)?;
    Stop::at(named_have_other_parents(names, p, q), Rule::Partition)?;
    if is_unknown_name(names, p) || is_unknown_name(names, q) {
        return Ok(StaticType::Unknown);
    }
    Ok(StaticType::Partition {
        disjoint: is_disjoint_named(names, p),
        parent: parent_named(names, p),
        own: scope.next(),
    })
}
