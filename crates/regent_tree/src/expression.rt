//! Expressions.

use crate::types::{Kind, Name, NumberTerm, PointerTerm};
use lane_kernels::Width;
use plain_values::Sequence;

/// An operator that computes a number.
#[derive(Clone, Copy, Debug, PartialEq, Eq)]
pub enum Arithmetic {
    Add,
    Subtract,
    Multiply,
    Divide,
    Remainder,
}

/// An operator that compares two values.
#[derive(Clone, Copy, Debug, PartialEq, Eq)]
pub enum Comparison {
    Equal,
    NotEqual,
    Less,
    AtMost,
    Greater,
    AtLeast,
}

/// What stands between two members of a chain.
#[derive(Clone, Copy, Debug, PartialEq, Eq)]
pub enum Operator {
    Or,
    And,
    Compare(Comparison),
    Compute(Arithmetic),
}

/// A prefix.
#[derive(Clone, Copy, Debug, PartialEq, Eq)]
pub enum Sign {
    Minus,
    Not,
}

/// A further member of a chain, behind its operator.
#[derive(Drop)]
#[cycle(expression)]
pub struct Link {
    pub operator: Operator,
    pub operand: Expr,
}

/// A step of an access: `.field` or `[place]`.
#[derive(Drop)]
#[cycle(expression)]
pub enum Step {
    Field(Name),
    At(Expr),
}

/// An expression. Chains group to the left; a chain has a second member at least.
#[derive(Drop)]
#[cycle(expression)]
pub enum Expr {
    Number {
        value: i64,
        width: Width,
    },
    Truth(bool),
    Chain {
        first: Box<Expr>,
        rest: Vec<Link>,
    },
    Prefix {
        signs: Sequence<Sign>,
        inner: Box<Expr>,
    },
    Call {
        task: Name,
        args: Vec<Expr>,
    },
    Access {
        name: Name,
        steps: Vec<Step>,
    },
    Convert {
        to: NumberTerm,
        inner: Box<Expr>,
    },
    IsNull(Box<Expr>),
    Null(PointerTerm),
    Cast {
        pointer: PointerTerm,
        inner: Box<Expr>,
    },
    Space {
        kind: Kind,
        size: Box<Expr>,
    },
}

impl Expr {
    ghost use Rattle.std.specs.Prelude.{◌≡◌};
    ghost use Rattle.regent_tree.specs.Plain.{expression_of, links_in, expressions_in, steps_in};
    ghost use Rattle.regent_tree.specs.Syntax.{access_expr, call_expr, cast_expr, chain_expr};
    ghost use Rattle.regent_tree.specs.Syntax.{convert_expr, is_null_expr, prefix_expr, space_expr};

    /// A chain of a first member and further ones.
    pub fn chain(first: Box<Expr>, rest: Vec<Link>) -> Expr
        ensures { expression_of result ≡ chain_expr (expression_of first.value) (links_in rest.items) }
    {
        Expr::Chain { first, rest }
    }

    /// A call of a task.
    pub fn call(task: Name, args: Vec<Expr>) -> Expr
        ensures { expression_of result ≡ call_expr task (expressions_in args.items) }
    {
        Expr::Call { task, args }
    }

    /// A name with steps after it.
    pub fn access(name: Name, steps: Vec<Step>) -> Expr
        ensures { expression_of result ≡ access_expr name (steps_in steps.items) }
    {
        Expr::Access { name, steps }
    }

    /// An expression behind prefixes.
    pub fn prefix(signs: Sequence<Sign>, inner: Box<Expr>) -> Expr
        ensures { expression_of result ≡ prefix_expr signs (expression_of inner.value) }
    {
        Expr::Prefix { signs, inner }
    }

    /// A conversion to a number type.
    pub fn convert(to: NumberTerm, inner: Box<Expr>) -> Expr
        ensures { expression_of result ≡ convert_expr to (expression_of inner.value) }
    {
        Expr::Convert { to, inner }
    }

    /// Whether a pointer is null.
    pub fn is_null(inner: Box<Expr>) -> Expr
        ensures { expression_of result ≡ is_null_expr (expression_of inner.value) }
    {
        Expr::IsNull(inner)
    }

    /// A pointer to a point that is looked for in the regions of a pointer type.
    pub fn cast(pointer: PointerTerm, inner: Box<Expr>) -> Expr
        ensures { expression_of result ≡ cast_expr pointer (expression_of inner.value) }
    {
        Expr::Cast { pointer, inner }
    }

    /// A new index space.
    pub fn space(kind: Kind, size: Box<Expr>) -> Expr
        ensures { expression_of result ≡ space_expr kind (expression_of size.value) }
    {
        Expr::Space { kind, size }
    }
}
