//! Nodes of an expression.

ghost use Rattle.std.specs.Prelude.{◌≡◌, IfOk, map};
ghost use Rattle.regent_grammar.specs.Expressions.{a_call};
ghost use Rattle.regent_grammar.specs.Nodes.{chain_of, prefix_of, steps_from};
ghost use Rattle.read_terms.specs.Heads.{around};
ghost use Rattle.read_terms.specs.Nodes.{joined_of, stepped_of};
ghost use Rattle.regent_tree.specs.Plain.{expression_of};
ghost use Rattle.regent_tree.specs.Syntax.{access_expr};

use crate::heads::Wrap;
use plain_values::Sequence;
use regent_tree::{Expr, Link, Name, Sign, Step};
use std::alloc::{AllocError, Global};

/// A chain with one member is that member.
#[tactic(auto, using(crate::proofs::NodeLaws::chain_of_links))]
pub fn chained(alloc: Global, first: Expr, rest: Vec<Link>) -> Result<Expr, AllocError>
    ensures { IfOk result (λ e. expression_of e ≡ chain_of (expression_of first) (map joined_of rest.items)) }
{
    if rest.is_empty() {
        Ok(first)
    } else {
        Ok(Expr::chain(Box::new(alloc, first)?, rest))
    }
}

/// Without a sign there is no prefix.
#[tactic(auto, using(crate::proofs::NodeLaws::prefix_of_signs))]
pub fn prefixed(alloc: Global, signs: Sequence<Sign>, inner: Expr) -> Result<Expr, AllocError>
    ensures { IfOk result (λ e. expression_of e ≡ prefix_of signs (expression_of inner)) }
{
    if signs.is_empty() {
        Ok(inner)
    } else {
        Ok(Expr::prefix(signs, Box::new(alloc, inner)?))
    }
}

/// A call of a task.
#[tactic(auto, using(crate::proofs::NodeLaws::expressions_of_map))]
pub fn called(name: Name, args: Vec<Expr>) -> Expr
    ensures { expression_of result ≡ a_call name (map expression_of args.items) }
{
    Expr::call(name, args)
}

/// A name with steps behind it.
#[tactic(auto, using(crate::proofs::NodeLaws::steps_of_map))]
pub fn stepped(name: Name, steps: Vec<Step>) -> Expr
    ensures { expression_of result ≡ access_expr name (steps_from (map stepped_of steps.items)) }
{
    Expr::access(name, steps)
}

/// An expression in parentheses with what stands around them.
pub fn wrapped(alloc: Global, wrap: Wrap, inner: Expr) -> Result<Expr, AllocError>
    ensures { IfOk result (λ e. expression_of e ≡ around wrap (expression_of inner)) }
{
    match wrap {
        Wrap::Plain => Ok(inner),
        Wrap::Convert(to) => Ok(Expr::convert(to, Box::new(alloc, inner)?)),
        Wrap::IsNull => Ok(Expr::is_null(Box::new(alloc, inner)?)),
        Wrap::Cast(pointer) => Ok(Expr::cast(pointer, Box::new(alloc, inner)?)),
        Wrap::Space(kind) => Ok(Expr::space(kind, Box::new(alloc, inner)?)),
    }
}
