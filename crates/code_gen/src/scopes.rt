//! The scopes in which the bodies of tasks begin.

ghost use Rattle.std.specs.Prelude.{◌≡◌, [], IfOk, OnOk, length, option_to_list};
ghost use Rattle.regent_tree.specs.PlainProgram.{task_of, tree_of};
ghost use Rattle.regent_tree.specs.Scopes.{bound_params, knowing, known_of_clause, known_of_clauses, known_of_params, param_term, scope_of};
ghost use Rattle.compile_statements.specs.Scopes.{seen};

use compile_statements::{Scope, bind, know};
use program_tables::{Tables, copy_name};
use regent_tree::{Clause, Known, Name, Param, Task, Term};
use static_types::{Among, number_at, place_in, type_said};
use std::alloc::{AllocError, Global};

/// Binds the parameters in a new scope.
fn bind_params(
    alloc: Global,
    tables: &Tables,
    scope: &mut Scope,
    params: &[Param],
) -> Result<(), AllocError>
    requires { seen scope.old ≡ record { names = []; known = []; next = 0 } }
    ensures { OnOk result (seen scope.new ≡ record {
      names = bound_params (tree_of tables.now) params.now 0 params.now;
      known = known_of_params (bound_params (tree_of tables.now) params.now 0 params.now);
      next = length params.now;
    }) }
{
    let among = Among { params };
    for (place, param) in params.iter().enumerate() {
        let number = number_at(place)?;
        let said = type_said(alloc, tables, &among, number, &param.term)?;
        let name = copy_name(alloc, &param.name)?;
        bind(scope, name, said, None)?;
    }
    Ok(())
}

/// The term of a parameter that a clause names.
fn param_term(params: &[Param], name: &Name) -> Result<Term, AllocError>
    ensures { IfOk result (λ t. t ≡ param_term params.now name.now) }
{
    Ok(Term::Name(number_at(place_in(params, name))?))
}

/// What a clause tells of two parameters.
fn known_of_clause(params: &[Param], clause: &Clause) -> Result<Option<Known>, AllocError>
    ensures { IfOk result (λ known. option_to_list known ≡ known_of_clause params.now clause.now) }
{
    Ok(match clause {
        Clause::Within { a, b } => {
            Some(Known::Within(param_term(params, a)?, param_term(params, b)?))
        }
        Clause::Apart { a, b } => Some(Known::Apart(
            param_term(params, a)?,
            param_term(params, b)?,
        )),
        Clause::Grants { .. } => None,
    })
}

/// Adds to a scope what the clauses of a task tell of its parameters.
fn know_clauses(scope: &mut Scope, params: &[Param], clauses: &[Clause]) -> Result<(), AllocError>
    ensures { OnOk result (seen scope.new
        ≡ knowing (seen scope.old) (known_of_clauses params.now clauses.now)) }
{
    for clause in clauses {
        let known = known_of_clause(params, clause)?;
        know(scope, known)?;
    }
    Ok(())
}

/// The scope in which the body of a task begins.
pub fn scope_of(alloc: Global, tables: &Tables, task: &Task) -> Result<Scope, AllocError>
    ensures { IfOk result (λ s. seen s ≡ scope_of (tree_of tables.now) (task_of task.now)) }
{
    let mut scope = Scope::new(alloc)?;
    let params = task.params.as_slice();
    bind_params(alloc, tables, &mut scope, params)?;
    know_clauses(&mut scope, params, task.clauses.as_slice())?;
    Ok(scope)
}
