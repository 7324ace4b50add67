//! Expressions: their types, and the first rule that one breaches.

ghost use Rattle.std.specs.Prelude.{◌≡◌, ◌||◌, [], not};
ghost use Rattle.std.specs.Option.{option_or};
ghost use Rattle.regent_tree.specs.Lookup.{is_bound, type_named};
ghost use Rattle.regent_tree.specs.Plain.{expression_of, expressions_in, links_in, steps_in};
ghost use Rattle.regent_tree.specs.Scopes.{in_scope};
ghost use Rattle.regent_tree.specs.StaticTypes.{number_type, written_pointer};
ghost use Rattle.regent_tree.specs.Syntax.{access_expr, call_expr};
ghost use Rattle.regent_tree.specs.Typing.{is_pointer, type_of_element, type_of_field};
ghost use Rattle.regent_tree.specs.declared.types.TypeTerm.TheVariants as typed;
ghost use Rattle.regent_tree.specs.declared.typing.StaticType.TheVariants.{Ispace as ispace_type, Truth as truth_type};
ghost use Rattle.check_rules.specs.types.Declarations.{is_flawed_type};
ghost use Rattle.check_rules.specs.types.Params.{type_unless};
ghost use Rattle.check_rules.specs.first.FirstInExpressions.{first_in_args, first_in_expression, first_in_links, first_in_steps, first_in_type, first_of_operator, first_of_signs, first_of_standing, first_of_step};
ghost use Rattle.check_rules.specs.types.KnownTypes.{known_type, known_types, known_type_after_links, known_type_after_operator, known_type_after_signs, known_type_after_step, known_type_after_steps};
ghost use Rattle.check_rules.specs.first.Rules.{rule_if};
ghost use Rattle.check_rules.specs.types.TypedForms.{computing, element_of, field_of};
ghost use Rattle.check_rules.specs.types.Sorts.{is_integer, is_number};
ghost use Rattle.check_rules.specs.rules.Standing.{integer_spot, number_spot, pointer_spot, spot_of_sign, stands};
ghost use Rattle.check_rules.specs.declared.rule.Rule.TheVariants as rule;
ghost use Rattle.static_types.specs.Telling.{Anything, Tells};
ghost use Rattle.check_expressions.specs.Seen.{seen};
ghost use Rattle.check_expressions.specs.Sites.{HoldsDeclared, task_at, tree_at};
ghost use Rattle.check_expressions.specs.Steps.{computing_at, first_at_link, first_at_step, known_type_after};

use crate::accesses::{element_step, field_step};
use crate::calls::call_in_expression;
use crate::privileges::reads_field;
use crate::scope::Scope;
use crate::site::Site;
use crate::spots;
use check_rules::Rule;
use regent_tree::{
    Expr, Kind, Link, Name, NumberTerm, Operator, PointerTerm, Sign, StaticType, Step,
};
use static_types::{
    Stop, after_operator, after_sign, copy_type, is_collection, is_ill_typed_operation, is_integer,
    is_number, is_pointer, number_type,
};
use written_types::said_pointer;

/// A conversion of what has a type.
fn converted(to: NumberTerm, t: &StaticType) -> Result<StaticType, Stop>
    ensures { Tells (λ u. u ≡ type_unless (not (is_number t.now)) (number_type to)) result
        (first_of_standing [] (stands t.now number_spot)) }
{
    spots::number(t)?;
    if is_number(t) {
        Ok(number_type(to))
    } else {
        Ok(StaticType::Unknown)
    }
}

/// Whether what has a type is null.
fn null_tested(t: &StaticType) -> Result<StaticType, Stop>
    ensures { Tells (λ u. u ≡ type_unless (not (is_pointer t.now)) truth_type) result
        (first_of_standing [] (stands t.now pointer_spot)) }
{
    spots::pointer(t)?;
    if is_pointer(t) {
        Ok(StaticType::Truth)
    } else {
        Ok(StaticType::Unknown)
    }
}

/// An index space whose size has a type.
fn sized(kind: Kind, t: &StaticType) -> Result<StaticType, Stop>
    ensures { Tells (λ u. u ≡ type_unless (not (is_integer t.now)) (ispace_type kind)) result
        (first_of_standing [] (stands t.now integer_spot)) }
{
    spots::integer(t)?;
    if is_integer(t) {
        Ok(StaticType::Ispace(kind))
    } else {
        Ok(StaticType::Unknown)
    }
}

/// What stands behind a prefix.
fn signed(sign: Sign, t: &StaticType) -> Result<(), Stop>
    ensures { Tells Anything result (first_of_standing [] (stands t.now (spot_of_sign sign))) }
{
    match sign {
        Sign::Not => spots::truth(t),
        Sign::Minus => spots::number(t),
    }
}

/// What prefixes stand before, the innermost first.
fn prefixed(signs: &[Sign], inner: StaticType) -> Result<StaticType, Stop>
    ensures { Tells (λ u. u ≡ known_type_after_signs signs.now inner) result (first_of_signs signs.now inner) }
{
    let count = signs.len();
    let mut t = inner;
    for after in 0..count {
        let sign = signs[count - 1 - after];
        signed(sign, &t)?;
        t = after_sign(sign, t);
    }
    Ok(t)
}

/// The type of what a name in an expression is bound to.
pub fn type_of_name(site: &Site, scope: &Scope, name: &Name) -> Result<StaticType, Stop>
    ensures { Tells (λ t. t ≡ type_named (seen scope.now).names name.now) result
        (rule_if (not (is_bound (seen scope.now).names name.now)) rule.Name) }
{
    match scope.names().bound_to(name) {
        Some(bound) => Ok(copy_type(site.alloc, &bound.static_type)?),
        None => Err(Stop::Breach(Rule::Name)),
    }
}

/// The first rule that two operands breach.
fn check_operated(operator: Operator, left: &StaticType, right: &StaticType) -> Result<(), Stop>
    ensures { Tells Anything result (first_of_operator (computing operator left.now right.now)) }
{
    Stop::at(is_collection(left) || is_collection(right), Rule::Place)?;
    Stop::at(is_ill_typed_operation(operator, left, right), Rule::Type)
}

/// The operands of an operator.
fn operated(operator: Operator, left: StaticType, right: StaticType) -> Result<StaticType, Stop>
    ensures { Tells (λ t. t ≡ known_type_after_operator (computing operator left right)) result
        (first_of_operator (computing operator left right)) }
{
    check_operated(operator, &left, &right)?;
    Ok(after_operator(operator, left, right))
}

/// A pointer type in an expression, which says its type where it has no breach.
fn pointed(site: &Site, scope: &Scope, pointer: &PointerTerm) -> Result<StaticType, Stop>
    ensures { Tells (λ t. t ≡ type_unless
        (is_flawed_type (tree_at site.now) (seen scope.now).names (typed.Pointer pointer.now))
        (written_pointer (tree_at site.now) (in_scope (seen scope.now)) pointer.now)) result
        (first_in_type (tree_at site.now) (seen scope.now).names (typed.Pointer pointer.now)) }
{
    said_pointer(site.alloc, site.declared.tables(), scope.names(), pointer)
}

/// A pointer cast of what has a type.
fn cast(
    site: &Site,
    scope: &Scope,
    pointer: &PointerTerm,
    t: &StaticType,
) -> Result<StaticType, Stop>
    ensures { Tells (λ u. u ≡ type_unless (not (is_number t.now)
        || is_flawed_type (tree_at site.now) (seen scope.now).names (typed.Pointer pointer.now))
        (written_pointer (tree_at site.now) (in_scope (seen scope.now)) pointer.now)) result
        (option_or (first_of_standing [] (stands t.now number_spot))
        (first_in_type (tree_at site.now) (seen scope.now).names (typed.Pointer pointer.now))) }
{
    spots::number(t)?;
    let said = pointed(site, scope, pointer)?;
    if is_number(t) {
        Ok(said)
    } else {
        Ok(StaticType::Unknown)
    }
}

/// A field that is read.
fn field_read(site: &Site, scope: &Scope, t: &StaticType, name: &Name) -> Result<StaticType, Stop>
    requires { HoldsDeclared site.now }
    ensures { Tells (λ u. u ≡ known_type_after_step (tree_at site.now) (field_of t.now name.now)
        (type_of_field (tree_at site.now) t.now name.now)) result
        (first_of_step (tree_at site.now) (task_at site.now) (seen scope.now) (field_of t.now name.now)) }
{
    let next = field_step(site.alloc, site.declared, t, name)?;
    reads_field(site, scope, t, name)?;
    Ok(next)
}

/// An element; nothing of it is read.
fn element_taken(
    site: &Site,
    scope: &Scope,
    t: &StaticType,
    e: &Expr,
    place: &StaticType,
) -> Result<StaticType, Stop>
    ensures { Tells (λ u. u ≡ known_type_after_step (tree_at site.now) (element_of t.now place.now)
        (type_of_element (seen scope.now) t.now (expression_of e.now))) result
        (first_of_step (tree_at site.now) (task_at site.now) (seen scope.now) (element_of t.now place.now)) }
{
    element_step(site, scope, t, e, place)
}

/// The first rule that an expression breaches, or its type.
#[cycle(expression)]
pub fn expression(site: &Site, scope: &Scope, e: &Expr) -> Result<StaticType, Stop>
    requires { HoldsDeclared site.now }
    ensures { Tells (λ t. t ≡ known_type (tree_at site.now) (seen scope.now) (expression_of e.now)) result
        (first_in_expression (tree_at site.now) (task_at site.now) (seen scope.now) (expression_of e.now)) }
{
    match e {
        Expr::Number { width, .. } => Ok(StaticType::Integer(*width)),
        Expr::Truth(_) => Ok(StaticType::Truth),
        Expr::Chain { first, rest } => {
            let left = expression(site, scope, first)?;
            links(site, scope, left, rest.as_slice())
        }
        Expr::Prefix { signs, inner } => {
            let t = expression(site, scope, inner)?;
            prefixed(signs.as_slice(), t)
        }
        Expr::Call { task, args } => call(site, scope, task, args.as_slice()),
        Expr::Access { name, steps } => access(site, scope, name, steps.as_slice()),
        Expr::Convert { to, inner } => {
            let t = expression(site, scope, inner)?;
            converted(*to, &t)
        }
        Expr::IsNull(inner) => {
            let t = expression(site, scope, inner)?;
            null_tested(&t)
        }
        Expr::Null(pointer) => pointed(site, scope, pointer),
        Expr::Cast { pointer, inner } => {
            let t = expression(site, scope, inner)?;
            cast(site, scope, pointer, &t)
        }
        Expr::Space { kind, size } => {
            let t = expression(site, scope, size)?;
            sized(*kind, &t)
        }
    }
}

/// A call with its arguments.
#[cycle(expression)]
fn call(site: &Site, scope: &Scope, task: &Name, args: &[Expr]) -> Result<StaticType, Stop>
    requires { HoldsDeclared site.now }
    ensures { Tells (λ t. t ≡ known_type (tree_at site.now) (seen scope.now) (call_expr task.now (expressions_in args.now))) result
        (first_in_expression (tree_at site.now) (task_at site.now) (seen scope.now) (call_expr task.now (expressions_in args.now))) }
{
    let types = arguments(site, scope, args)?;
    call_in_expression(site, scope, task, &types)
}

/// An access, by the name that it begins with and its steps.
#[cycle(expression)]
fn access(site: &Site, scope: &Scope, name: &Name, steps: &[Step]) -> Result<StaticType, Stop>
    requires { HoldsDeclared site.now }
    ensures { Tells (λ t. t ≡ known_type (tree_at site.now) (seen scope.now) (access_expr name.now (steps_in steps.now))) result
        (first_in_expression (tree_at site.now) (task_at site.now) (seen scope.now) (access_expr name.now (steps_in steps.now))) }
{
    let head = type_of_name(site, scope, name)?;
    walk(site, scope, head, steps)
}

/// Behind the first member of a chain, from the type of what stands on the left.
#[cycle(expression)]
fn links(site: &Site, scope: &Scope, first: StaticType, rest: &[Link]) -> Result<StaticType, Stop>
    requires { HoldsDeclared site.now }
    ensures { Tells (λ t. t ≡ known_type_after_links (tree_at site.now) (seen scope.now) first (links_in rest.now)) result
        (first_in_links (tree_at site.now) (task_at site.now) (seen scope.now) first (links_in rest.now)) }
{
    let mut left = first;
    for link in rest {
        left = linked(site, scope, left, link)?;
    }
    Ok(left)
}

/// One further member of a chain.
#[cycle(expression)]
fn linked(site: &Site, scope: &Scope, left: StaticType, link: &Link) -> Result<StaticType, Stop>
    requires { HoldsDeclared site.now }
    ensures { Tells (λ t. t ≡ known_type_after_operator (computing_at (tree_at site.now) (seen scope.now) left link.now)) result
        (first_at_link (tree_at site.now) (task_at site.now) (seen scope.now) left link.now) }
{
    let right = expression(site, scope, &link.operand)?;
    operated(link.operator, left, right)
}

/// The types of arguments.
#[cycle(expression)]
pub fn arguments(site: &Site, scope: &Scope, args: &[Expr]) -> Result<Vec<StaticType>, Stop>
    requires { HoldsDeclared site.now }
    ensures { Tells (λ types. types.items ≡ known_types (tree_at site.now) (seen scope.now) (expressions_in args.now)) result
        (first_in_args (tree_at site.now) (task_at site.now) (seen scope.now) (expressions_in args.now)) }
{
    let mut types = Vec::new(site.alloc);
    for arg in args {
        let t = expression(site, scope, arg)?;
        types.push(t)?;
    }
    Ok(types)
}

/// The steps of an access, from the type of what it begins with.
#[cycle(expression)]
pub fn walk(
    site: &Site,
    scope: &Scope,
    head: StaticType,
    steps: &[Step],
) -> Result<StaticType, Stop>
    requires { HoldsDeclared site.now }
    ensures { Tells (λ t. t ≡ known_type_after_steps (tree_at site.now) (seen scope.now) head (steps_in steps.now)) result
        (first_in_steps (tree_at site.now) (task_at site.now) (seen scope.now) head (steps_in steps.now)) }
{
    let mut t = head;
    for step in steps {
        t = stepped(site, scope, t, step)?;
    }
    Ok(t)
}

/// One step of an access.
#[cycle(expression)]
pub fn stepped(site: &Site, scope: &Scope, t: StaticType, step: &Step) -> Result<StaticType, Stop>
    requires { HoldsDeclared site.now }
    ensures { Tells (λ u. u ≡ known_type_after (tree_at site.now) (seen scope.now) t step.now) result
        (first_at_step (tree_at site.now) (task_at site.now) (seen scope.now) t step.now) }
{
    match step {
        Step::Field(name) => field_read(site, scope, &t, name),
        Step::At(e) => {
            let place = expression(site, scope, e)?;
            element_taken(site, scope, &t, e, &place)
        }
    }
}
