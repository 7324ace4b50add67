//! What stands before loops, in a scope.

ghost use Rattle.std.specs.Prelude.{◌≡◌, IfOk, OnOk};
ghost use Rattle.regent_tree.specs.Plain.{expression_of};
ghost use Rattle.regent_tree.specs.Typing.{arithmetic_type, taken_from};
ghost use Rattle.check_rules.specs.types.Sorts.{is_space};
ghost use Rattle.code_rules.specs.Emitted.{emitted};
ghost use Rattle.code_rules.specs.Slots.{typed};
ghost use Rattle.compile_statements.specs.Loops.{counter_code, domain_code, number_head, numbers_code, point_head};
ghost use Rattle.compile_statements.specs.Scopes.{where_in};

use crate::at::At;
use crate::loops::{Taken, before_numbers, before_points, begin_points};
use crate::scope::Scope;
use compile_expressions::Body;
use regent_tree::Expr;
use std::alloc::AllocError;

/// The domain of a loop over a region or an index space, in a scope.
pub fn points_in(
    at: &At,
    scope: &Scope,
    body: &mut Body,
    domain: &Expr,
) -> Result<Taken, AllocError>
    ensures typed { IfOk result (λ t. t.static_type ≡ taken_from (typed (where_in at.now scope.now) (expression_of domain.now))) }
    ensures head { IfOk result (λ t. t.head ≡ point_head (where_in at.now scope.now) t.static_type) }
    ensures space { IfOk result (λ t. t.over_space ≡ is_space (typed (where_in at.now scope.now) (expression_of domain.now))) }
    ensures code { OnOk result (body.new ≡ emitted body.old (domain_code (where_in at.now scope.now) (expression_of domain.now))) }
{
    before_points(&scope.here(at), body, domain)
}

/// What stands before a loop over numbers, in a scope.
pub fn numbers_in(
    at: &At,
    scope: &Scope,
    body: &mut Body,
    from: &Expr,
    to: &Expr,
) -> Result<Taken, AllocError>
    ensures typed { IfOk result (λ t. t.static_type ≡ arithmetic_type (typed (where_in at.now scope.now) (expression_of from.now))
        (typed (where_in at.now scope.now) (expression_of to.now))) }
    ensures head { IfOk result (λ t. t.head ≡ number_head (where_in at.now scope.now)) }
    ensures code { OnOk result (body.new ≡ emitted body.old
        (numbers_code (where_in at.now scope.now) (expression_of from.now) (expression_of to.now))) }
{
    before_numbers(&scope.here(at), body, from, to)
}

/// The counter of a loop that goes point by point, in a scope.
pub fn begin_points_in(at: &At, scope: &Scope, body: &mut Body) -> Result<(), AllocError>
    ensures { OnOk result (body.new ≡ emitted body.old (counter_code (where_in at.now scope.now))) }
{
    begin_points(&scope.here(at), body)
}
