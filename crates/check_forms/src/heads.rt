//! What stands in the head of a loop, and tests.

ghost use Rattle.std.specs.Prelude.{◌≡◌, [], IfOk, map};
ghost use Rattle.regent_tree.specs.Plain.{expression_of};
ghost use Rattle.regent_tree.specs.PlainProgram.{arms_in};
ghost use Rattle.regent_tree.specs.Typing.{taken_from};
ghost use Rattle.check_rules.specs.first.FirstInExpressions.{first_in_expression, first_of_standing};
ghost use Rattle.check_rules.specs.types.KnownTypes.{known_type};
ghost use Rattle.check_rules.specs.types.Sorts.{is_space, may_be};
ghost use Rattle.check_rules.specs.types.Parts.{tests_of};
ghost use Rattle.check_rules.specs.first.Rules.{first_in};
ghost use Rattle.check_rules.specs.rules.Standing.{stands, truth_spot};
ghost use Rattle.check_rules.specs.scopes.Variables.{counted_type};
ghost use Rattle.check_expressions.specs.Seen.{seen};
ghost use Rattle.check_expressions.specs.Sites.{HoldsDeclared, task_at, tree_at};
ghost use Rattle.static_types.specs.Telling.{Anything, Tells};
ghost use Rattle.check_forms.specs.Heads.{first_of_bounds, first_of_domain, first_of_test, first_of_tests, head_between, head_over};

use check_expressions::{Scope, Site, expression, spots};
use plain_values::Sequence;
use regent_tree::{Arm, Expr, StaticType};
use static_types::{Stop, arithmetic_type, is_integer};
use std::alloc::{AllocError, Global};

/// The test of a `while` or an `assert`.
pub fn test(site: &Site, scope: &Scope, e: &Expr) -> Result<(), Stop>
    requires { HoldsDeclared site.now }
    ensures { Tells Anything result
        (first_of_test (tree_at site.now) (task_at site.now) (seen scope.now) (expression_of e.now)) }
{
    let t = expression(site, scope, e)?;
    spots::truth(&t)
}

/// The types of the tests of an `if`.
fn types_of_tests(site: &Site, scope: &Scope, arms: &[Arm]) -> Result<Vec<StaticType>, Stop>
    requires { HoldsDeclared site.now }
    ensures { Tells (λ types. types.items
        ≡ map (known_type (tree_at site.now) (seen scope.now)) (tests_of (arms_in arms.now))) result
        (first_in (first_in_expression (tree_at site.now) (task_at site.now) (seen scope.now))
        (tests_of (arms_in arms.now))) }
{
    let mut types = Vec::new(site.alloc);
    for arm in arms {
        let t = expression(site, scope, &arm.test)?;
        types.push(t)?;
    }
    Ok(types)
}

fn are_truths(types: &[StaticType]) -> Result<(), Stop>
    ensures { Tells Anything result
        (first_in (first_of_standing []) (map (λ t. stands t truth_spot) types.now)) }
{
    for t in types {
        spots::truth(t)?;
    }
    Ok(())
}

/// The tests of an `if`: all of them stand before its blocks.
pub fn tests(site: &Site, scope: &Scope, arms: &[Arm]) -> Result<(), Stop>
    requires { HoldsDeclared site.now }
    ensures { Tells Anything result
        (first_of_tests (tree_at site.now) (task_at site.now) (seen scope.now) (tests_of (arms_in arms.now))) }
{
    let types = types_of_tests(site, scope, arms)?;
    are_truths(&types)
}

/// What a loop over a region or an index space takes: pointers into it, or its indices.
fn taken_from(alloc: Global, t: StaticType) -> Result<StaticType, AllocError>
    ensures { IfOk result (λ u. u ≡ taken_from t) }
{
    match t {
        StaticType::Region {
            kind,
            space,
            args,
            term,
        } => {
            let mut regions = Sequence::new(alloc);
            regions.push(Some(term))?;
            Ok(StaticType::Pointer {
                kind,
                space,
                args,
                regions,
            })
        }
        StaticType::Ispace(kind) => Ok(StaticType::Index(kind)),
        _ => Ok(StaticType::Unknown),
    }
}

/// What the head of a loop says: whether an index launch is demanded, the type of its variable, and whether
/// it is over an index space.
#[derive(Drop)]
pub struct LoopHead {
    pub demanded: bool,
    pub taken: StaticType,
    pub over_space: bool,
}

/// Whether a loop over a thing of a type is over an index space: what isn't known is taken for one.
fn may_be_space(t: &StaticType) -> bool
    ensures { result ≡ may_be is_space t.now }
{
    matches!(t, StaticType::Unknown | StaticType::Ispace(_))
}

/// The head of a loop over a region or an index space.
pub fn domain(site: &Site, scope: &Scope, demanded: bool, e: &Expr) -> Result<LoopHead, Stop>
    requires { HoldsDeclared site.now }
    ensures { Tells (λ h. h ≡ head_over (tree_at site.now) (seen scope.now) demanded (expression_of e.now)) result
        (first_of_domain (tree_at site.now) (task_at site.now) (seen scope.now) (expression_of e.now)) }
{
    let t = expression(site, scope, e)?;
    spots::domain(&t)?;
    let over_space = may_be_space(&t);
    Ok(LoopHead {
        demanded,
        taken: taken_from(site.alloc, t)?,
        over_space,
    })
}

/// The type of the variable of a loop between two bounds.
fn counted_type(from: StaticType, to: StaticType) -> StaticType
    ensures { result ≡ counted_type from to }
{
    if is_integer(&from) && is_integer(&to) {
        arithmetic_type(from, to)
    } else {
        StaticType::Unknown
    }
}

/// The head of a loop between two bounds.
pub fn bounds(
    site: &Site,
    scope: &Scope,
    demanded: bool,
    from: &Expr,
    to: &Expr,
) -> Result<LoopHead, Stop>
    requires { HoldsDeclared site.now }
    ensures { Tells (λ h. h ≡ head_between (tree_at site.now) (seen scope.now) demanded (expression_of from.now) (expression_of to.now)) result
        (first_of_bounds (tree_at site.now) (task_at site.now) (seen scope.now) (expression_of from.now) (expression_of to.now)) }
{
    let first = expression(site, scope, from)?;
    let last = expression(site, scope, to)?;
    spots::integer(&first)?;
    spots::integer(&last)?;
    Ok(LoopHead {
        demanded,
        taken: counted_type(first, last),
        over_space: false,
    })
}
