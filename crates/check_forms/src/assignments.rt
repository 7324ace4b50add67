//! Assignments and reductions.

ghost use Rattle.std.specs.Prelude.{◌≡◌, ◌++◌, ◌∷◌, [], IfOk, MatchOption};
ghost use Rattle.regent_tree.specs.Plain.{expression_of, steps_in};
ghost use Rattle.regent_tree.specs.Syntax.{assign_form};
ghost use Rattle.check_rules.specs.first.FirstInExpressions.{first_in_target, first_of_standing};
ghost use Rattle.check_rules.specs.first.FirstInStatements.{first_of_form};
ghost use Rattle.check_rules.specs.rules.Privileges.{lacks};
ghost use Rattle.check_rules.specs.rules.Standing.{stands};
ghost use Rattle.check_rules.specs.rules.Statements.{spot_of_target};
ghost use Rattle.check_rules.specs.rules.Targets.{is_fixed, is_no_integer};
ghost use Rattle.check_expressions.specs.Seen.{seen};
ghost use Rattle.check_expressions.specs.Sites.{HoldsDeclared, task_at, tree_at};
ghost use Rattle.static_types.specs.Telling.{Anything, Tells};
ghost use Rattle.check_forms.specs.Targets.{EndsIn, IsTarget, first_at_last, first_of_target, first_of_use, is_no_place, mistargets, type_of_target, wanted_by};

use check_expressions::{
    Scope, Site, element_step, expression, field_step, misuses_field, spots, type_of_name, walk,
};
use check_rules::Rule;
use constraint_check::Facts;
use program_tables::Names;
use regent_tree::{Access, Bound, Expr, How, Name, StaticType, Step};
use static_types::{Stop, is_collection, is_integer, is_space, is_unknown};
use std::alloc::AllocError;

/// What an assignment goes to, with its type: a variable, a field of what a pointer leads to, or an
/// element, which can't be assigned.
#[derive(Drop)]
enum Target<'a> {
    Variable(StaticType),
    Field {
        holder: StaticType,
        name: &'a Name,
        static_type: StaticType,
    },
    Element(StaticType),
}

impl<'a> Target<'a> {
    fn static_type(&self) -> &StaticType
        ensures { result.now ≡ type_of_target self.now }
    {
        match self {
            Target::Variable(t) => t,
            Target::Field { static_type, .. } => static_type,
            Target::Element(t) => t,
        }
    }
}

/// What the last step of a target leads to.
fn at_last<'a>(
    site: &Site,
    scope: &Scope,
    holder: StaticType,
    last: &'a Step,
) -> Result<Target<'a>, Stop>
    requires { HoldsDeclared site.now }
    ensures { Tells (EndsIn (tree_at site.now) (seen scope.now) holder last.now) result
        (first_at_last (tree_at site.now) (task_at site.now) (seen scope.now) holder last.now) }
{
    match last {
        Step::Field(name) => {
            let static_type = field_step(site.alloc, site.declared, &holder, name)?;
            Ok(Target::Field {
                holder,
                name,
                static_type,
            })
        }
        Step::At(e) => {
            let place = expression(site, scope, e)?;
            let t = element_step(site, scope, &holder, e, &place)?;
            Ok(Target::Element(t))
        }
    }
}

/// The last step of an access, and those before it.
fn split_last(steps: &[Step]) -> Option<(&Step, &[Step])>
    ensures { MatchOption result (steps.now ≡ []) (λ p. steps.now ≡ p.1.now ++ p.0.now ∷ []) }
{
    steps.split_last()
}

/// What a name with steps after it is as a target.
fn target_of<'a>(
    site: &Site,
    scope: &Scope,
    name: &Name,
    steps: &'a [Step],
) -> Result<Target<'a>, Stop>
    requires { HoldsDeclared site.now }
    ensures { Tells (IsTarget (tree_at site.now) (seen scope.now) name.now steps.now) result
        (first_in_target (tree_at site.now) (task_at site.now) (seen scope.now) name.now (steps_in steps.now)) }
{
    let initializer = type_of_name(site, scope, name)?;
    let Some((last, front)) = split_last(steps) else {
        return Ok(Target::Variable(initializer));
    };
    let holder = walk(site, scope, initializer, front)?;
    at_last(site, scope, holder, last)
}

/// Whether a binding can't be assigned: a loop variable, a parameter or a collection.
fn is_fixed(site: &Site, bound: &Bound) -> bool
    ensures { result ≡ is_fixed (task_at site.now) bound.now }
{
    bound.by_loop
        || (bound.number as usize) < site.task.params.len()
        || is_collection(&bound.static_type)
}

fn is_no_place(site: &Site, names: &Names, name: &Name, target: &Target) -> bool
    ensures { result ≡ is_no_place (task_at site.now) names.now name.now target.now }
{
    match target {
        Target::Variable(_) => match names.bound_to(name) {
            Some(bound) => is_fixed(site, bound),
            None => false,
        },
        Target::Field { static_type, .. } => is_space(static_type),
        Target::Element(_) => true,
    }
}

fn is_no_integer(how: How, t: &StaticType) -> bool
    ensures { result ≡ is_no_integer how t.now }
{
    match how {
        How::Set => false,
        How::Reduce(_) => !(is_unknown(t) || is_integer(t)),
    }
}

fn mistargets(site: &Site, names: &Names, name: &Name, target: &Target, how: How) -> bool
    ensures { result ≡ mistargets (task_at site.now) names.now name.now target.now how }
{
    is_no_place(site, names, name, target) || is_no_integer(how, target.static_type())
}

/// The right side of an assignment fits the target, that of a reduction is an integer.
fn right_side(
    facts: &Facts,
    how: How,
    flawed: bool,
    wanted: &StaticType,
    t: &StaticType,
) -> Result<(), Stop>
    ensures { Tells Anything result
        (first_of_standing facts.now (stands t.now (spot_of_target flawed how wanted.now))) }
{
    match how {
        How::Reduce(_) => spots::integer(t),
        How::Set if flawed => spots::typed(facts, t, &StaticType::Unknown),
        How::Set => spots::typed(facts, t, wanted),
    }
}

/// Whether the task lacks an access to what is assigned.
fn lacks(site: &Site, scope: &Scope, access: Access, target: &Target) -> Result<bool, AllocError>
    requires { HoldsDeclared site.now }
    ensures { IfOk result (λ b. b ≡ lacks (tree_at site.now) (task_at site.now) (seen scope.now)
        (wanted_by (tree_at site.now) access target.now)) }
{
    match target {
        Target::Field { holder, name, .. } => misuses_field(site, scope, access, holder, name),
        Target::Variable(_) | Target::Element(_) => Ok(false),
    }
}

/// Writes or reduces.
fn uses(site: &Site, scope: &Scope, how: How, target: &Target) -> Result<(), Stop>
    requires { HoldsDeclared site.now }
    ensures { Tells Anything result
        (first_of_use (tree_at site.now) (task_at site.now) (seen scope.now) how target.now) }
{
    match how {
        How::Set => Stop::at(lacks(site, scope, Access::Write, target)?, Rule::Write),
        How::Reduce(op) => Stop::at(
            lacks(site, scope, Access::Reduce(op), target)?,
            Rule::Reduce,
        ),
    }
}

/// What is told of a target, where the right side has a type.
fn check_target(
    site: &Site,
    scope: &Scope,
    name: &Name,
    how: How,
    target: &Target,
    t: &StaticType,
) -> Result<(), Stop>
    requires { HoldsDeclared site.now }
    ensures { Tells Anything result
        (first_of_target (tree_at site.now) (task_at site.now) (seen scope.now) name.now how t.now target.now) }
{
    let flawed = mistargets(site, scope.names(), name, target, how);
    right_side(scope.facts(), how, flawed, target.static_type(), t)?;
    Stop::at(flawed, Rule::Target)?;
    uses(site, scope, how, target)
}

/// An assignment or a reduction.
pub fn assign(
    site: &Site,
    scope: &Scope,
    name: &Name,
    steps: &[Step],
    how: How,
    value: &Expr,
) -> Result<(), Stop>
    requires { HoldsDeclared site.now }
    ensures { Tells Anything result (first_of_form (tree_at site.now) (task_at site.now) (seen scope.now)
        (assign_form name.now (steps_in steps.now) how (expression_of value.now))) }
{
    let t = expression(site, scope, value)?;
    let target = target_of(site, scope, name, steps)?;
    check_target(site, scope, name, how, &target, &t)
}
