//! The forms of arguments.

ghost use Rattle.std.specs.Prelude.{◌≡◌, false};
ghost use Rattle.regent_tree.specs.Plain.{expression_of, steps_in};
ghost use Rattle.regent_tree.specs.Lookup.{type_named};
ghost use Rattle.regent_tree.specs.Syntax.{access_expr};
ghost use Rattle.check_rules.specs.launches.Views.{is_variable, kind_of, kind_of_element, kind_of_name};

use check_expressions::Scope;
use index_launch::ArgKind;
use program_tables::Names;
use regent_tree::{Expr, Name, StaticType, Step};
use static_types::{is_index, is_pointer};

/// Whether an access is the loop's variable by itself.
fn is_variable_alone(variable: &Name, name: &Name, steps: &[Step]) -> bool
    ensures { result ≡ is_variable variable.now (access_expr name.now (steps_in steps.now)) }
{
    match steps {
        [] => *name == *variable,
        [Step::At(_), ..] | [Step::Field(_), ..] => false,
    }
}

/// Whether an expression is the loop's variable by itself.
fn is_variable(variable: &Name, e: &Expr) -> bool
    ensures { result ≡ is_variable variable.now (expression_of e.now) }
{
    match e {
        Expr::Access { name, steps } => is_variable_alone(variable, name, steps.as_slice()),
        _ => false,
    }
}

/// The form of a name that isn't the loop's variable.
fn kind_of_other(names: &Names, wanted: &StaticType, name: &Name) -> ArgKind
    ensures { result ≡ kind_of_name false wanted.now (type_named names.now name.now) }
{
    match names.bound_to(name) {
        Some(bound) if is_pointer(&bound.static_type) && is_index(wanted) => ArgKind::Other,
        _ => ArgKind::Fixed,
    }
}

/// The form of an element at a place that is the loop's variable or isn't.
fn kind_of_element(names: &Names, name: &Name, by_variable: bool) -> ArgKind
    ensures { result ≡ kind_of_element (type_named names.now name.now) by_variable }
{
    let Some(bound) = names.bound_to(name) else {
        return ArgKind::Fixed;
    };
    match &bound.static_type {
        StaticType::Partition { disjoint, own, .. } if by_variable => ArgKind::Child {
            partition: *own,
            disjoint: *disjoint,
        },
        StaticType::Unknown => ArgKind::Fixed,
        _ => ArgKind::Other,
    }
}

fn kind_of_access(
    names: &Names,
    variable: &Name,
    wanted: &StaticType,
    name: &Name,
    steps: &[Step],
) -> ArgKind
    ensures { result ≡ kind_of names.now variable.now wanted.now (access_expr name.now (steps_in steps.now)) }
{
    match steps {
        [] if *name == *variable => ArgKind::Point,
        [] => kind_of_other(names, wanted, name),
        [Step::At(place)] => kind_of_element(names, name, is_variable(variable, place)),
        [Step::Field(_), ..] | [Step::At(_), Step::Field(_), ..] | [Step::At(_), Step::At(_), ..] =>
            ArgKind::Other,
    }
}

/// The form of an argument for a parameter of a type.
pub fn kind_of(scope: &Scope, variable: &Name, wanted: &StaticType, e: &Expr) -> ArgKind
    ensures { result ≡ kind_of scope.now.names variable.now wanted.now (expression_of e.now) }
{
    match e {
        Expr::Number { .. } | Expr::Truth(_) => ArgKind::Fixed,
        Expr::Access { name, steps } => {
            kind_of_access(scope.names(), variable, wanted, name, steps.as_slice())
        }
        Expr::Convert { inner, .. } if is_variable(variable, inner) => ArgKind::Point,
        _ => ArgKind::Other,
    }
}
