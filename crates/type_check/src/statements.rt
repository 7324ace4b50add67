//! Statements, one after the other, and the blocks in them.

ghost use Rattle.std.specs.Option.{option_or};
ghost use Rattle.std.specs.Prelude.{◌≡◌, ◌++◌, ◌∷◌, false, true};
ghost use Rattle.regent_tree.specs.PlainProgram.{arms_in, block_in, form_of, otherwise_in};
ghost use Rattle.regent_tree.specs.Scopes.{past, with_name};
ghost use Rattle.check_rules.specs.first.FirstInStatements.{first_in_arms, first_in_block, first_of_form, told_on};
ghost use Rattle.check_rules.specs.scopes.Variables.{known_scope_after, known_scope_after_arms, known_scope_after_block};
ghost use Rattle.check_rules.specs.scopes.Visits.{visits_in, visits_in_arms};
ghost use Rattle.check_items.specs.Halting.{TellsAt};
ghost use Rattle.check_expressions.specs.Seen.{seen};
ghost use Rattle.check_expressions.specs.Sites.{HoldsDeclared, task_at, tree_at};
ghost use Rattle.static_types.specs.Telling.{Tells};
ghost use Rattle.check_forms.specs.Heads.{has_block};
ghost use Rattle.type_check.specs.Loops.{first_of_shape, first_of_statement, loops_of, shape_in, visits_of};

use crate::lines::on_line;
use crate::loops::{demand, shape_of};
use check_expressions::{Scope, Site};
use check_forms::{
    LoopHead, assign, bounds, call_alone, domain, fill, print, return_any, test, tests,
};
use check_items::Halt;
use check_rules::LoopShape;
use check_variables::variable;
use index_launch::LaunchShape;
use plain_values::Sequence;
use program_tables::copy_name;
use regent_tree::{Arm, Name, Stmt, What};
use static_types::Stop;

/// Checks statements, from the first on. The shapes of their loops are added to those that were found, in the
/// order of the text.
#[cycle(statement)]
pub fn block(
    site: &Site,
    scope: &mut Scope,
    found: &mut Sequence<LoopShape>,
    body: &[Stmt],
) -> Result<(), Halt>
    requires { HoldsDeclared site.now }
    ensures { TellsAt (λ _. (seen scope.new ≡ known_scope_after_block (tree_at site.now) (seen scope.old) (block_in body.now))
        × (found.new ≡ found.old ++ loops_of (tree_at site.now) (visits_in (tree_at site.now) (task_at site.now) (seen scope.old) (block_in body.now)))) result
        (first_in_block (tree_at site.now) (task_at site.now) (seen scope.old) (block_in body.now)) }
{
    for stmt in body {
        statement(site, scope, found, stmt)?;
    }
    Ok(())
}

/// A statement in which no block stands.
fn without_block(site: &Site, scope: &mut Scope, what: &What) -> Result<(), Stop>
    requires declared { HoldsDeclared site.now }
    requires plain { has_block (form_of what.now) ≡ false }
    ensures { Tells (λ _. seen scope.new ≡ known_scope_after (tree_at site.now) (seen scope.old) (form_of what.now)) result
        (first_of_form (tree_at site.now) (task_at site.now) (seen scope.old) (form_of what.now)) }
{
    match what {
        What::Var { name, term, init } => variable(site, scope, name, term, init),
        What::Fill {
            region,
            fields,
            value,
        } => fill(site, scope, region, fields.as_slice(), value),
        What::Assert { test: e } => test(site, scope, e),
        What::Print {
            alias,
            format,
            args,
        } => print(site, scope, alias, format.as_slice(), args.as_slice()),
        What::Call { task, args } => call_alone(site, scope, task, args.as_slice()),
        What::Assign {
            target,
            steps,
            how,
            value,
        } => assign(site, scope, target, steps.as_slice(), *how, value),
        What::Return { value } => return_any(site, scope, value),
        What::If { .. }
        | What::While { .. }
        | What::ForIn { .. }
        | What::ForTo { .. }
        | What::Do { .. } => unreachable!(),
    }
}

/// A statement, with the blocks in it.
#[cycle(statement)]
fn statement(
    site: &Site,
    scope: &mut Scope,
    found: &mut Sequence<LoopShape>,
    stmt: &Stmt,
) -> Result<(), Halt>
    requires { HoldsDeclared site.now }
    ensures { TellsAt (λ _. (seen scope.new ≡ known_scope_after (tree_at site.now) (seen scope.old) (form_of stmt.now.what))
        × (found.new ≡ found.old ++ loops_of (tree_at site.now) (visits_of (tree_at site.now) (task_at site.now) (seen scope.old) stmt.now))) result
        (first_of_statement (tree_at site.now) (task_at site.now) (seen scope.old) stmt.now) }
{
    let line = stmt.line;
    match &stmt.what {
        What::If { arms, other } => {
            on_line(line, tests(site, scope, arms.as_slice()))?;
            arm_blocks(site, scope, found, arms.as_slice())?;
            match other {
                Some(body) => nested(site, scope, found, body.as_slice()),
                None => Ok(()),
            }
        }
        What::While { test: e, body } => {
            on_line(line, test(site, scope, e))?;
            nested(site, scope, found, body.as_slice())
        }
        What::ForIn {
            demanded,
            name,
            domain: e,
            body,
        } => {
            let head = on_line(line, domain(site, scope, *demanded, e))?;
            check_loop(site, scope, found, line, head, name, body.as_slice())
        }
        What::ForTo {
            demanded,
            name,
            from,
            to,
            body,
        } => {
            let head = on_line(line, bounds(site, scope, *demanded, from, to))?;
            check_loop(site, scope, found, line, head, name, body.as_slice())
        }
        What::Do { body } => nested(site, scope, found, body.as_slice()),
        what => on_line(line, without_block(site, scope, what)),
    }
}

/// The blocks of the tests of an `if`.
#[cycle(statement)]
fn arm_blocks(
    site: &Site,
    scope: &mut Scope,
    found: &mut Sequence<LoopShape>,
    arms: &[Arm],
) -> Result<(), Halt>
    requires { HoldsDeclared site.now }
    ensures { TellsAt (λ _. (seen scope.new ≡ known_scope_after_arms (tree_at site.now) (seen scope.old) (arms_in arms.now))
        × (found.new ≡ found.old ++ loops_of (tree_at site.now) (visits_in_arms (tree_at site.now) (task_at site.now) (seen scope.old) (arms_in arms.now)))) result
        (first_in_arms (tree_at site.now) (task_at site.now) (seen scope.old) (arms_in arms.now)) }
{
    for arm in arms {
        nested(site, scope, found, arm.body.as_slice())?;
    }
    Ok(())
}

/// A block within a block: its names end with it.
#[cycle(statement)]
fn nested(
    site: &Site,
    scope: &mut Scope,
    found: &mut Sequence<LoopShape>,
    body: &[Stmt],
) -> Result<(), Halt>
    requires { HoldsDeclared site.now }
    ensures { TellsAt (λ _. (seen scope.new ≡ past (seen scope.old)
        (known_scope_after_block (tree_at site.now) (seen scope.old) (block_in body.now)))
        × (found.new ≡ found.old ++ loops_of (tree_at site.now) (visits_in (tree_at site.now) (task_at site.now) (seen scope.old) (block_in body.now)))) result
        (first_in_block (tree_at site.now) (task_at site.now) (seen scope.old) (block_in body.now)) }
{
    let len = scope.names().len();
    block(site, scope, found, body)?;
    scope.leave(len);
    Ok(())
}

/// The block of a loop in the loop's own scope, whose names stay, and behind it the loop's shape.
#[cycle(statement)]
fn loop_block(
    site: &Site,
    scope: &mut Scope,
    found: &mut Sequence<LoopShape>,
    line: u32,
    name: &Name,
    over_space: bool,
    body: &[Stmt],
) -> Result<LaunchShape, Halt>
    requires { HoldsDeclared site.now }
    ensures { TellsAt (λ shape. (seen scope.new ≡ known_scope_after_block (tree_at site.now) (seen scope.old) (block_in body.now))
        × (found.new ≡ found.old ++ loops_of (tree_at site.now) (visits_in (tree_at site.now) (task_at site.now) (seen scope.old) (block_in body.now)))
        × (shape ≡ shape_in (tree_at site.now) (seen scope.old) name.now over_space (block_in body.now))) result
        (first_in_block (tree_at site.now) (task_at site.now) (seen scope.old) (block_in body.now)) }
{
    block(site, scope, found, body)?;
    on_line(line, shape_of(site, scope, name, over_space, body))
}

/// A loop behind its head: its block, with the loop's variable, and then the demand on it.
#[cycle(statement)]
fn check_loop(
    site: &Site,
    scope: &mut Scope,
    found: &mut Sequence<LoopShape>,
    line: u32,
    head: LoopHead,
    name: &Name,
    body: &[Stmt],
) -> Result<(), Halt>
    requires { HoldsDeclared site.now }
    ensures { let tree = tree_at site.now in
        let own = with_name (seen scope.old) name.now head.taken true in
        let shape = shape_in tree own name.now head.over_space (block_in body.now) in
        TellsAt (λ _. (seen scope.new ≡ past (seen scope.old) (known_scope_after_block tree own (block_in body.now)))
        × (found.new ≡ found.old ++ record { line = line; shape = shape } ∷ loops_of tree (visits_in tree (task_at site.now) own (block_in body.now)))) result
        (option_or (first_in_block tree (task_at site.now) own (block_in body.now)) (told_on line (first_of_shape head.demanded shape))) }
{
    let outer = scope.names().len();
    let place = found.len();
    let name_bound = copy_name(site.alloc, name)?;
    scope.bind(name_bound, head.taken, true)?;
    // The loop stands before those in its block, and its shape is known behind them.
    found.push(LoopShape {
        line,
        shape: LaunchShape::Launch,
    })?;
    let shape = loop_block(site, scope, found, line, name, head.over_space, body)?;
    on_line(line, demand(head.demanded, shape))?;
    found.set(place, LoopShape { line, shape });
    scope.leave(outer);
    Ok(())
}
