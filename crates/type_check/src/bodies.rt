//! The bodies of tasks.

ghost use Rattle.std.specs.Prelude.{◌≡◌, [], IfOk, OnOk, ◌++◌, length, option_to_list};
ghost use Rattle.regent_tree.specs.PlainProgram.{item_tree_of, task_of, tree_of};
ghost use Rattle.regent_tree.specs.Scopes.{bound_params, knowing, known_of_clause, known_of_clauses, known_of_params, param_term};
ghost use Rattle.regent_tree.specs.Syntax.{ItemTree};
ghost use Rattle.check_rules.specs.launches.Shapes.{loops};
ghost use Rattle.check_rules.specs.scopes.Bodies.{body_scope};
ghost use Rattle.check_rules.specs.first.FirstInItems.{first_in_body};
ghost use Rattle.check_rules.specs.first.FirstInStatements.{first_in_block};
ghost use Rattle.check_rules.specs.first.Rules.{first_in};
ghost use Rattle.check_rules.specs.scopes.Sound.{StandsIn};
ghost use Rattle.check_rules.specs.scopes.Visits.{visits_in};
ghost use Rattle.check_items.specs.Halting.{TellsAt};
ghost use Rattle.check_expressions.specs.Seen.{seen};
ghost use Rattle.check_expressions.specs.Sites.{HoldsDeclared};
ghost use Rattle.type_check.specs.Loops.{loops_of};

use crate::statements::block;
use check_expressions::{Declared, Scope, Site, held_by, rights_declared};
use check_items::Halt;
use check_rules::LoopShape;
use check_variables::{bind, know};
use plain_values::Sequence;
use program_tables::{Tables, copy_name};
use regent_tree::{Clause, ItemKind, Known, Name, Param, Task, Term};
use static_types::{Among, number_at, place_in, type_said};
use std::alloc::{AllocError, Global};

/// Binds parameters in a scope in which nothing is bound or known.
fn bind_params(
    alloc: Global,
    tables: &Tables,
    scope: &mut Scope,
    params: &[Param],
) -> Result<(), AllocError>
    requires { seen scope.old ≡ record { names = []; known = []; next = 0 } }
    ensures { OnOk result (seen scope.new ≡ record {
      names = bound_params (tree_of tables.now) params.now 0 params.now;
      known = known_of_params (bound_params (tree_of tables.now) params.now 0 params.now);
      next = length params.now;
    }) }
{
    let among = Among { params };
    for (place, param) in params.iter().enumerate() {
        let number = number_at(place)?;
        let said = type_said(alloc, tables, &among, number, &param.term)?;
        let name = copy_name(alloc, &param.name)?;
        bind(scope, name, said, None)?;
    }
    Ok(())
}

fn param_term(params: &[Param], name: &Name) -> Result<Term, AllocError>
    ensures { IfOk result (λ t. t ≡ param_term params.now name.now) }
{
    Ok(Term::Name(number_at(place_in(params, name))?))
}

/// What a clause tells of two parameters.
fn known_of_clause(params: &[Param], clause: &Clause) -> Result<Option<Known>, AllocError>
    ensures { IfOk result (λ known. option_to_list known ≡ known_of_clause params.now clause.now) }
{
    match clause {
        Clause::Within { a, b } => {
            let known = Known::Within(param_term(params, a)?, param_term(params, b)?);
            Ok(Some(known))
        }
        Clause::Apart { a, b } => {
            let known = Known::Apart(param_term(params, a)?, param_term(params, b)?);
            Ok(Some(known))
        }
        Clause::Grants { .. } => Ok(None),
    }
}

fn know_clauses(scope: &mut Scope, params: &[Param], clauses: &[Clause]) -> Result<(), AllocError>
    ensures { OnOk result (seen scope.new
        ≡ knowing (seen scope.old) (known_of_clauses params.now clauses.now)) }
{
    for clause in clauses {
        let known = known_of_clause(params, clause)?;
        know(scope, known)?;
    }
    Ok(())
}

/// The scope in which the body of a task of the program begins.
fn body_scope(alloc: Global, declared: &Declared, task: &Task) -> Result<Scope, AllocError>
    requires { StandsIn (tree_of declared.now) (task_of task.now) }
    ensures { IfOk result (λ s. seen s ≡ body_scope (tree_of declared.now) (task_of task.now)) }
{
    let mut scope = Scope::new(alloc)?;
    let params = task.params.as_slice();
    bind_params(alloc, declared.tables(), &mut scope, params)?;
    know_clauses(&mut scope, params, task.clauses.as_slice())?;
    declared.has_sound_task(task);
    Ok(scope)
}

/// Checks the body of a task at its site.
fn body_at(site: &Site, found: &mut Sequence<LoopShape>) -> Result<(), Halt>
    requires stands { StandsIn (tree_of site.now.declared.now) (task_of site.now.task.now) }
    requires held { HoldsDeclared site.now }
    ensures { TellsAt (λ _. found.new ≡ found.old ++ loops_of (tree_of site.now.declared.now) (visits_in (tree_of site.now.declared.now)
        (task_of site.now.task.now) (body_scope (tree_of site.now.declared.now) (task_of site.now.task.now)) (task_of site.now.task.now).body)) result
        (first_in_block (tree_of site.now.declared.now) (task_of site.now.task.now)
        (body_scope (tree_of site.now.declared.now) (task_of site.now.task.now)) (task_of site.now.task.now).body) }
{
    let mut scope = body_scope(site.alloc, site.declared, site.task)?;
    block(site, &mut scope, found, site.task.body.as_slice())
}

/// Checks the body of a task of the program.
fn check_body(
    alloc: Global,
    declared: &Declared,
    found: &mut Sequence<LoopShape>,
    task: &Task,
) -> Result<(), Halt>
    requires { StandsIn (tree_of declared.now) (task_of task.now) }
    ensures { TellsAt (λ _. found.new ≡ found.old ++ loops_of (tree_of declared.now) (visits_in (tree_of declared.now) (task_of task.now)
        (body_scope (tree_of declared.now) (task_of task.now)) (task_of task.now).body)) result
        (first_in_block (tree_of declared.now) (task_of task.now)
        (body_scope (tree_of declared.now) (task_of task.now)) (task_of task.now).body) }
{
    let types = declared.param_types(alloc, task)?;
    let rights = rights_declared(alloc, declared, task, &types)?;
    let site = Site {
        alloc,
        declared,
        task,
        held: held_by(alloc, &rights)?,
    };
    body_at(&site, found)
}

/// Checks the bodies of all tasks, and finds the shapes of their loops.
pub fn check_bodies(alloc: Global, declared: &Declared) -> Result<Sequence<LoopShape>, Halt>
    ensures { TellsAt (λ found. found ≡ loops (tree_of declared.now)) result
        (first_in (λ (i : ItemTree). first_in_body (tree_of declared.now) i.form) (tree_of declared.now)) }
{
    let mut found = Sequence::new(alloc);
    let program = declared.tables().program();
    for item in &program.items {
        if let ItemKind::Task(task) = &item.what {
            check_body(alloc, declared, &mut found, task)?;
        }
    }
    Ok(found)
}
