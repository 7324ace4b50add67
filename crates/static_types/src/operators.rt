//! The types of operators and prefixes.

ghost use Rattle.std.specs.Prelude.{◌≡◌};
ghost use Rattle.regent_tree.specs.Numbers.{wider};
ghost use Rattle.regent_tree.specs.Typing.{are_pointers, counting_as, arithmetic_type, operated};
ghost use Rattle.check_rules.specs.types.KnownTypes.{known_type_after_operator, known_type_after_sign};
ghost use Rattle.check_rules.specs.types.Sorts as sort;
ghost use Rattle.check_rules.specs.rules.Types.{computes_with, has_order_with, has_equality_with, operates_on, is_ill_typed_operation};
ghost use Rattle.static_types.specs.Counting.{kind_counted};
ghost use Rattle.check_rules.specs.types.TypedForms.{computing};

use crate::sorts::{is_number, is_pointer, is_truth, is_unknown};
use regent_tree::{Comparison, Kind, Operator, Sign, StaticType, Width};

/// The wider of two widths.
fn wider(one: Width, other: Width) -> Width
    ensures { result ≡ wider one other }
{
    match one {
        Width::W32 => other,
        Width::W64 => Width::W64,
    }
}

/// What a type is in arithmetic: a pointer counts as an index of its kind.
pub fn counting_as(t: StaticType) -> StaticType
    ensures { result ≡ counting_as t }
{
    match t {
        StaticType::Pointer { kind, .. } => StaticType::Index(kind),
        other => other,
    }
}

/// The type of a sum and the like: of two integers the wider, else that which is no integer.
pub fn arithmetic_type(left: StaticType, right: StaticType) -> StaticType
    ensures { result ≡ arithmetic_type left right }
{
    match (left, right) {
        (StaticType::Integer(one), StaticType::Integer(other)) => {
            StaticType::Integer(wider(one, other))
        }
        (StaticType::Integer(_), other) => other,
        (other, _) => other,
    }
}

/// The type of an operator's result.
fn operated(operator: Operator, left: StaticType, right: StaticType) -> StaticType
    ensures { result ≡ operated operator left right }
{
    match operator {
        Operator::Compute(_) => arithmetic_type(counting_as(left), counting_as(right)),
        _ => StaticType::Truth,
    }
}

/// Whether two types go together in arithmetic: numbers do, but for indices of two kinds. What is
/// unknown goes with everything.
fn computes_with(left: &StaticType, right: &StaticType) -> bool
    ensures { result ≡ computes_with (counting_as left.now) (counting_as right.now) }
{
    match (index_kind(left), index_kind(right)) {
        (Some(one), Some(other)) => one == other,
        _ => may_be_number(left) && may_be_number(right),
    }
}

/// The kind of an index or a pointer.
fn index_kind(t: &StaticType) -> Option<Kind>
    ensures { result ≡ kind_counted t.now }
{
    match t {
        StaticType::Index(kind) => Some(*kind),
        StaticType::Pointer { kind, .. } => Some(*kind),
        _ => None,
    }
}

fn may_be_number(t: &StaticType) -> bool
    ensures { result ≡ sort.may_be sort.is_number t.now }
{
    is_unknown(t) || is_number(t)
}

fn may_be_truth(t: &StaticType) -> bool
    ensures { result ≡ sort.may_be sort.is_truth t.now }
{
    is_unknown(t) || is_truth(t)
}

fn has_order_with(left: &StaticType, right: &StaticType) -> bool
    ensures { result ≡ has_order_with left.now right.now }
{
    may_be_number(left) && may_be_number(right) && !(is_pointer(left) && is_pointer(right))
}

fn has_equality_with(left: &StaticType, right: &StaticType) -> bool
    ensures { result ≡ has_equality_with left.now right.now }
{
    may_be_number(left) && may_be_number(right) || may_be_truth(left) && may_be_truth(right)
}

/// Whether an operator takes operands of these types.
fn operates_on(operator: Operator, left: &StaticType, right: &StaticType) -> bool
    ensures { result ≡ operates_on operator left.now right.now }
{
    match operator {
        Operator::Compute(_) => computes_with(left, right),
        Operator::Compare(Comparison::Equal | Comparison::NotEqual) => {
            has_equality_with(left, right)
        }
        Operator::Compare(_) => has_order_with(left, right),
        Operator::And | Operator::Or => may_be_truth(left) && may_be_truth(right),
    }
}

/// Whether an operator's operands aren't as it takes them.
pub fn is_ill_typed_operation(operator: Operator, left: &StaticType, right: &StaticType) -> bool
    ensures { result ≡ is_ill_typed_operation (computing operator left.now right.now) }
{
    !operates_on(operator, left, right)
}

/// The type after an operator with its operands; what depends on what is unknown is unknown.
pub fn after_operator(operator: Operator, left: StaticType, right: StaticType) -> StaticType
    ensures { result ≡ known_type_after_operator (computing operator left right) }
{
    if is_unknown(&left) || is_unknown(&right) || is_ill_typed_operation(operator, &left, &right) {
        return StaticType::Unknown;
    }
    operated(operator, left, right)
}

/// The type after a prefix.
pub fn after_sign(sign: Sign, t: StaticType) -> StaticType
    ensures { result ≡ known_type_after_sign sign t }
{
    match sign {
        Sign::Not if is_truth(&t) => StaticType::Truth,
        Sign::Minus if is_number(&t) => counting_as(t),
        _ => StaticType::Unknown,
    }
}
