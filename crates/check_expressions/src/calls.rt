//! Calls of tasks.

ghost use Rattle.std.specs.List.{list_any};
ghost use Rattle.std.specs.Option.{option_or};
ghost use Rattle.std.specs.Prelude.{◌≡◌, IfOk, false, flat_map, option_to_list, Some};
ghost use Rattle.regent_tree.specs.PlainProgram.{task_of};
ghost use Rattle.regent_tree.specs.StaticTypes.{task_named};
ghost use Rattle.regent_tree.specs.Syntax.{Tree};
ghost use Rattle.regent_tree.specs.Typing.{put_in, result_type};
ghost use Rattle.check_rules.specs.rules.Constraints.{are_not_apart, argument_for, breaks_clause, breaks_constraint, is_not_within};
ghost use Rattle.check_rules.specs.types.Declarations.{is_no_result_type, params_of};
ghost use Rattle.check_rules.specs.first.FirstInExpressions.{first_of_call, first_of_standing};
ghost use Rattle.check_rules.specs.types.KnownTypes.{type_of_call};
ghost use Rattle.check_rules.specs.rules.Privileges.{lacks, wanted_by_call, wanted_of_argument};
ghost use Rattle.check_rules.specs.first.Rules.{first_in, rule_if};
ghost use Rattle.check_rules.specs.types.TypedForms.{calling};
ghost use Rattle.check_rules.specs.types.Sorts.{is_unknown_type, type_at};
ghost use Rattle.check_rules.specs.rules.Standing.{param_spot, stand_at, stands};
ghost use Rattle.check_rules.specs.rules.Types.{has_no_result};
ghost use Rattle.check_rules.specs.declared.rule.Rule.TheVariants as rule;
ghost use Rattle.static_types.specs.Telling.{Anything, Tells};
ghost use Rattle.check_expressions.specs.Calls.{first_of_arguments, first_of_demands, wanted_for};
ghost use Rattle.check_expressions.specs.Seen.{seen};
ghost use Rattle.check_expressions.specs.Sites.{HoldsDeclared, task_at, tree_at};

use crate::privileges::may_do;
use crate::rights::rights_declared;
use crate::scope::Scope;
use crate::site::Site;
use crate::spots::param;
use check_rules::Rule;
use constraint_check::Facts;
use regent_tree::{Clause, Name, Param, Right, StaticType, Task, TypeTerm, Wanted};
use static_types::{Stop, is_unknown, misfit_in, mispartition_in, number_type, place_in, put_in};
use std::alloc::{AllocError, Global};

/// An argument fits its parameter's type, read with the arguments.
fn stands_as(
    alloc: Global,
    facts: &Facts,
    types: &[StaticType],
    wanted: &StaticType,
    t: &StaticType,
) -> Result<(), Stop>
    ensures { Tells Anything result (first_of_standing facts.now
        (stands t.now (param_spot (put_in types.now wanted.now)))) }
{
    let wanted = put_in(alloc, types, wanted)?;
    param(facts, t, &wanted)
}

/// Each argument stands where its parameter's type, read with the arguments, allows.
fn stand_at(
    alloc: Global,
    facts: &Facts,
    params: &[StaticType],
    types: &[StaticType],
) -> Result<(), Stop>
    ensures { Tells Anything result
        (first_in (first_of_standing facts.now) (stand_at types.now params.now types.now)) }
{
    for (place, wanted) in params.iter().enumerate() {
        let Some(t) = types.get(place) else {
            return Ok(());
        };
        stands_as(alloc, facts, types, wanted, t)?;
    }
    Ok(())
}

/// What a called task's privilege on a parameter wants of the argument.
fn wanted_of_argument(wanted: &StaticType, t: &StaticType, right: &Right) -> Option<Wanted>
    ensures { option_to_list result ≡ wanted_of_argument wanted.now t.now right.now }
{
    match (wanted, t) {
        (
            StaticType::Region { space, .. },
            StaticType::Region {
                space: other,
                term,
                ..
            },
        ) if space == other => Some(Wanted {
            term: *term,
            field: right.field,
            access: right.access,
        }),
        _ => None,
    }
}

fn wanted_for(params: &[StaticType], types: &[StaticType], right: &Right) -> Option<Wanted>
    ensures { option_to_list result ≡ wanted_for params.now types.now right.now }
{
    let place = right.region as usize;
    wanted_of_argument(params.get(place)?, types.get(place)?, right)
}

/// Whether the task lacks what a called task's privileges want of the arguments.
fn lacks_for_call(
    site: &Site,
    scope: &Scope,
    rights: &[Right],
    params: &[StaticType],
    types: &[StaticType],
) -> bool
    requires { HoldsDeclared site.now }
    ensures { result ≡ lacks (tree_at site.now) (task_at site.now) (seen scope.now)
        (flat_map (wanted_for params.now types.now) rights.now) }
{
    for right in rights {
        if let Some(wanted) = wanted_for(params, types, right)
            && !may_do(site, scope, wanted)
        {
            return true;
        }
    }
    false
}

/// Whether `a <= b` isn't derivable of the arguments; of what is no region nothing is said.
fn is_not_within(facts: &Facts, params: &[Param], types: &[StaticType], a: &Name, b: &Name) -> bool
    ensures { result ≡ is_not_within facts.now (argument_for params.now types.now a.now)
        (argument_for params.now types.now b.now) }
{
    let Some(StaticType::Region { term: inner, .. }) = types.get(place_in(params, a)) else {
        return false;
    };
    let Some(StaticType::Region { term: outer, .. }) = types.get(place_in(params, b)) else {
        return false;
    };
    !facts.subregion(inner, outer)
}

/// Whether `a * b` isn't derivable of the arguments; of what is no region nothing is said.
fn are_not_apart(facts: &Facts, params: &[Param], types: &[StaticType], a: &Name, b: &Name) -> bool
    ensures { result ≡ are_not_apart facts.now (argument_for params.now types.now a.now)
        (argument_for params.now types.now b.now) }
{
    let Some(StaticType::Region { term: one, .. }) = types.get(place_in(params, a)) else {
        return false;
    };
    let Some(StaticType::Region { term: other, .. }) = types.get(place_in(params, b)) else {
        return false;
    };
    !facts.disjoint(one, other)
}

fn breaks_clause(facts: &Facts, params: &[Param], types: &[StaticType], clause: &Clause) -> bool
    ensures { result ≡ breaks_clause facts.now params.now types.now clause.now }
{
    match clause {
        Clause::Within { a, b } => is_not_within(facts, params, types, a, b),
        Clause::Apart { a, b } => are_not_apart(facts, params, types, a, b),
        Clause::Grants { .. } => false,
    }
}

/// Whether the task lacks what the privileges of a called task, whose parameters have these types,
/// want of the arguments.
fn lacks_for_task(
    site: &Site,
    scope: &Scope,
    task: &Task,
    name: &Name,
    params: &[StaticType],
    types: &[StaticType],
) -> Result<bool, AllocError>
    requires holds { HoldsDeclared site.now }
    requires named { task_of task.now ≡ task_named (tree_at site.now) name.now }
    requires typed { params.now ≡ params_of (tree_at site.now) name.now }
    ensures { IfOk result (λ b. b ≡ lacks (tree_at site.now) (task_at site.now) (seen scope.now)
        (wanted_by_call (tree_at site.now) (calling name.now types.now))) }
{
    let rights = rights_declared(site.alloc, site.declared, task, params)?;
    site.declared.has_sound_clauses(name);
    Ok(lacks_for_call(site, scope, &rights, params, types))
}

/// Whether a clause isn't derivable on the arguments.
fn breaks_clauses(facts: &Facts, task: &Task, types: &[StaticType]) -> bool
    ensures { result ≡ list_any (breaks_clause facts.now task.now.params types.now) task.now.clauses }
{
    let params = task.params.as_slice();
    for clause in task.clauses.as_slice() {
        if breaks_clause(facts, params, types, clause) {
            return true;
        }
    }
    false
}

/// Whether a constraint of the called task isn't derivable on the arguments.
fn breaks_constraint(
    site: &Site,
    scope: &Scope,
    task: &Task,
    name: &Name,
    types: &[StaticType],
) -> bool
    requires { task_of task.now ≡ task_named (tree_at site.now) name.now }
    ensures { result ≡ breaks_constraint (tree_at site.now) (seen scope.now).known (calling name.now types.now) }
{
    site.declared.has_sound_clauses(name);
    breaks_clauses(scope.facts(), task, types)
}

/// Whether the task may make a call: by its privileges and by what is known of the arguments.
fn check_demands(
    site: &Site,
    scope: &Scope,
    task: &Task,
    name: &Name,
    params: &[StaticType],
    types: &[StaticType],
) -> Result<(), Stop>
    requires holds { HoldsDeclared site.now }
    requires named { task_of task.now ≡ task_named (tree_at site.now) name.now }
    requires typed { params.now ≡ params_of (tree_at site.now) name.now }
    ensures { Tells Anything result
        (first_of_demands (tree_at site.now) (task_at site.now) (seen scope.now)
        (calling name.now types.now)) }
{
    let lacks = lacks_for_task(site, scope, task, name, params, types)?;
    Stop::at(lacks, Rule::CallPrivilege)?;
    let breaks = breaks_constraint(site, scope, task, name, types);
    Stop::at(breaks, Rule::CallConstraint)
}

/// Whether as many arguments as there are parameters fit them, and the task may make the call.
fn check_arguments(
    site: &Site,
    scope: &Scope,
    task: &Task,
    name: &Name,
    params: &[StaticType],
    types: &[StaticType],
) -> Result<(), Stop>
    requires holds { HoldsDeclared site.now }
    requires named { task_of task.now ≡ task_named (tree_at site.now) name.now }
    requires typed { params.now ≡ params_of (tree_at site.now) name.now }
    ensures { Tells Anything result
        (first_of_arguments (tree_at site.now) (task_at site.now) (seen scope.now)
        (calling name.now types.now)) }
{
    stand_at(site.alloc, scope.facts(), params, types)?;
    Stop::at(misfit_in(types, params, types), Rule::Spaces)?;
    Stop::at(mispartition_in(types, params, types), Rule::Partition)?;
    check_demands(site, scope, task, name, params, types)
}

/// A call of a task, whether it stands alone or in an expression: the task.
pub fn call<'a>(
    site: &Site<'a>,
    scope: &Scope,
    name: &Name,
    types: &[StaticType],
) -> Result<&'a Task, Stop>
    requires { HoldsDeclared site.now }
    ensures { Tells (λ t. task_of t.now ≡ task_named (tree_at site.now) name.now) result
        (first_of_call (tree_at site.now) (task_at site.now) (seen scope.now) (calling name.now types.now)) }
{
    let declared = site.declared;
    let Some(task) = declared.tables().task(name) else {
        return Err(Stop::Breach(Rule::Name));
    };
    Stop::at(types.len() != task.params.len(), Rule::Count)?;
    let params = declared.params_of(site.alloc, task, name)?;
    check_arguments(site, scope, task, name, &params, types)?;
    Ok(task)
}

/// The type of a result that a task may have.
fn value_type(term: &TypeTerm) -> StaticType
    ensures { (tree : Tree) → is_no_result_type (Some term.now) ≡ false →
        result ≡ result_type tree (Some term.now) }
{
    match term {
        TypeTerm::Number(number) => number_type(*number),
        TypeTerm::Truth => StaticType::Truth,
        _ => StaticType::Unknown,
    }
}

fn any_unknown(types: &[StaticType]) -> bool
    ensures { result ≡ list_any is_unknown_type types.now }
{
    types.iter().any(|t| is_unknown(t))
}

/// A call in an expression: the type of its result, which is unknown where that of an argument is.
#[tactic(auto, using(crate::proofs::Called::sound_call))]
pub fn call_in_expression(
    site: &Site,
    scope: &Scope,
    name: &Name,
    types: &[StaticType],
) -> Result<StaticType, Stop>
    requires { HoldsDeclared site.now }
    ensures { Tells (λ t. t ≡ type_of_call (tree_at site.now) (seen scope.now).known (calling name.now types.now)) result
        (option_or (first_of_call (tree_at site.now) (task_at site.now) (seen scope.now) (calling name.now types.now))
        (rule_if (has_no_result (tree_at site.now) (calling name.now types.now)) rule.Type)) }
{
    let task = call(site, scope, name, types)?;
    let Some(term) = &task.result else {
        return Err(Stop::Breach(Rule::Type));
    };
    site.declared.has_sound_results(name);
    if any_unknown(types) {
        return Ok(StaticType::Unknown);
    }
    Ok(value_type(term))
}
