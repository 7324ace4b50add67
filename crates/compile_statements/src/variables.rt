//! `var` statements: their code, and the scope behind them.

ghost use Rattle.std.specs.Option.{option_map};
ghost use Rattle.std.specs.Prelude.{◌≡◌, ◌++◌, [], IfOk, OnOk, Some, false, option_to_list};
ghost use Rattle.regent_tree.specs.Plain.{expression_of, expressions_in, initializer_of};
ghost use Rattle.regent_tree.specs.Scopes.{knowing, known_of_type, with_name};
ghost use Rattle.regent_tree.specs.Syntax.{call_expr, plain_initializer, var_form};
ghost use Rattle.regent_tree.specs.Typing.{known_of_initializer, scope_after, var_type};
ghost use Rattle.code_rules.specs.Emitted.{emitted};
ghost use Rattle.code_rules.specs.Statements.{form_code};
ghost use Rattle.compile_types.specs.Here.{where_of};
ghost use Rattle.compile_statements.specs.Scopes.{seen, tree_at, where_in};
ghost use Rattle.compile_statements.specs.Variables.{begun_as, from_stack};

use crate::at::At;
use crate::scope::Scope;
use crate::variable_types::{known_of_initializer, var_type};
use compile_expressions::{Body, one};
use compile_forms::{initializer, keeps, put_call};
use compile_types::Here;
use program_tables::copy_name;
use regent_tree::{Expr, Init, Known, Name, StaticType, TypeTerm};
use std::alloc::AllocError;
use task_code::Instr;

/// A new variable: its type, and what its initializer tells of regions.
#[derive(Drop)]
struct Begun {
    static_type: StaticType,
    known: Option<Known>,
}

/// What the type of a partition tells.
fn known_of_type(t: &StaticType) -> Option<Known>
    ensures { option_to_list result ≡ known_of_type t.now }
{
    let StaticType::Partition {
        disjoint,
        parent,
        own,
    } = t
    else {
        return None;
    };
    Some(Known::PartOf {
        partition: *own,
        parent: *parent,
        disjoint: *disjoint,
    })
}

/// Whatever more is known.
pub fn know(scope: &mut Scope, known: Option<Known>) -> Result<(), AllocError>
    ensures { OnOk result (seen scope.new ≡ knowing (seen scope.old) (option_to_list known)) }
{
    match known {
        Some(known) => scope.know(known),
        None => Ok(()),
    }
}

/// Binds a name to a value of a type, of which something is known.
pub fn bind(
    scope: &mut Scope,
    name: Name,
    t: StaticType,
    known: Option<Known>,
) -> Result<(), AllocError>
    ensures { OnOk result (seen scope.new ≡ knowing (with_name (seen scope.old) name t false)
        (option_to_list known ++ known_of_type t)) }
{
    let of_type = known_of_type(&t);
    scope.bind(name, t, false)?;
    know(scope, known)?;
    know(scope, of_type)
}

/// The value of a new variable of a type goes into its slot from the stack.
fn begin_from_stack(
    here: &Here,
    body: &mut Body,
    term: &Option<TypeTerm>,
    t: &StaticType,
    init: &Option<Init>,
) -> Result<(), AllocError>
    ensures { OnOk result (body.new ≡ emitted body.old
        (from_stack (where_of here.now) term.now t.now (option_map initializer_of init.now))) }
{
    initializer(here, body, term, t, init)?;
    let slot = here.slot(here.next_place()?)?;
    one(here, body, Instr::Store(slot))
}

/// A new variable begins with a call's result: as it comes, where nothing has to be made of it.
fn begin_call(
    here: &Here,
    body: &mut Body,
    term: &Option<TypeTerm>,
    t: &StaticType,
    init: &Option<Init>,
    task: &Name,
    args: &[Expr],
) -> Result<(), AllocError>
    requires { option_map initializer_of init.now ≡ Some (plain_initializer (call_expr task.now (expressions_in args.now))) }
    ensures { OnOk result (body.new ≡ emitted body.old (begun_as (where_of here.now) term.now t.now
        (Some (plain_initializer (call_expr task.now (expressions_in args.now)))))) }
{
    if keeps(here, t, task, args)? {
        let slot = here.slot(here.next_place()?)?;
        return put_call(here, body, slot, task, args);
    }
    begin_from_stack(here, body, term, t, init)
}

/// A new variable begins with an expression.
fn begin_plain(
    here: &Here,
    body: &mut Body,
    term: &Option<TypeTerm>,
    t: &StaticType,
    init: &Option<Init>,
    e: &Expr,
) -> Result<(), AllocError>
    requires { option_map initializer_of init.now ≡ Some (plain_initializer (expression_of e.now)) }
    ensures { OnOk result (body.new ≡ emitted body.old (begun_as (where_of here.now) term.now t.now
        (Some (plain_initializer (expression_of e.now))))) }
{
    match e {
        Expr::Call { task, args } => begin_call(here, body, term, t, init, task, args.as_slice()),
        _ => begin_from_stack(here, body, term, t, init),
    }
}

/// The value of a new variable of a type goes into its slot.
fn begin(
    here: &Here,
    body: &mut Body,
    term: &Option<TypeTerm>,
    t: &StaticType,
    init: &Option<Init>,
) -> Result<(), AllocError>
    ensures { OnOk result (body.new ≡ emitted body.old
        (begun_as (where_of here.now) term.now t.now (option_map initializer_of init.now))) }
{
    match init {
        Some(Init::Plain(e)) => begin_plain(here, body, term, t, init, e),
        _ => begin_from_stack(here, body, term, t, init),
    }
}

/// The code of a `var`, and what is bound by it.
fn initialized(
    here: &Here,
    body: &mut Body,
    term: &Option<TypeTerm>,
    init: &Option<Init>,
) -> Result<Begun, AllocError>
    ensures typed { IfOk result (λ b. b.static_type ≡ var_type (where_of here.now).tree (where_of here.now).scope term.now
        (option_map initializer_of init.now)) }
    ensures known { IfOk result (λ b. option_to_list b.known ≡ known_of_initializer (where_of here.now).tree
        (where_of here.now).scope (where_of here.now).scope.next (option_map initializer_of init.now)) }
    ensures code { OnOk result (body.new ≡ emitted body.old
        (form_code (where_of here.now) (var_form [] term.now (option_map initializer_of init.now)))) }
{
    let static_type = var_type(here, term, init)?;
    begin(here, body, term, &static_type, init)?;
    let known = known_of_initializer(here, init)?;
    Ok(Begun { static_type, known })
}

/// The same of a statement in a scope.
fn initialized_at(
    at: &At,
    scope: &Scope,
    body: &mut Body,
    term: &Option<TypeTerm>,
    init: &Option<Init>,
) -> Result<Begun, AllocError>
    ensures typed { IfOk result (λ b. b.static_type ≡ var_type (tree_at at.now) (seen scope.now) term.now
        (option_map initializer_of init.now)) }
    ensures known { IfOk result (λ b. option_to_list b.known ≡ known_of_initializer (tree_at at.now)
        (seen scope.now) (seen scope.now).next (option_map initializer_of init.now)) }
    ensures code { OnOk result (body.new ≡ emitted body.old
        (form_code (where_in at.now scope.now) (var_form [] term.now (option_map initializer_of init.now)))) }
{
    initialized(&scope.here(at), body, term, init)
}

/// A `var`, which binds its name.
pub fn variable(
    at: &At,
    scope: &mut Scope,
    body: &mut Body,
    name: &Name,
    term: &Option<TypeTerm>,
    init: &Option<Init>,
) -> Result<(), AllocError>
    ensures scope { OnOk result (seen scope.new ≡ scope_after (tree_at at.now) (seen scope.old)
        (var_form name.now term.now (option_map initializer_of init.now))) }
    ensures code { OnOk result (body.new ≡ emitted body.old (form_code (where_in at.now scope.old)
        (var_form name.now term.now (option_map initializer_of init.now)))) }
{
    let Begun { static_type, known } = initialized_at(at, scope, body, term, init)?;
    let name = copy_name(at.site.alloc, name)?;
    bind(scope, name, static_type, known)
}
