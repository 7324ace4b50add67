//! Statements.

use crate::expression::{Expr, Step};
use crate::types::{Name, SpaceUse, TypeTerm};
use lane_kernels::Op;
use plain_values::Sequence;

/// How an assignment writes: by `=`, or by a reduction.
#[derive(Clone, Copy, Debug, PartialEq, Eq)]
pub enum How {
    Set,
    Reduce(Op),
}

/// The initializer of a variable: a new region, a partition (Dependent Partitioning, OOPSLA 2016),
/// or an expression.
#[derive(Drop)]
pub enum Init {
    Region {
        space: Expr,
        fields: SpaceUse,
    },
    Equal {
        region: Name,
        colours: Expr,
    },
    ByField {
        region: Name,
        field: Name,
        colours: Expr,
    },
    Image {
        parent: Name,
        partition: Name,
        region: Name,
        field: Name,
    },
    Preimage {
        parent: Name,
        partition: Name,
        region: Name,
        field: Name,
    },
    Both {
        p: Name,
        q: Name,
    },
    Either {
        p: Name,
        q: Name,
    },
    Plain(Expr),
}

/// A test of an `if` with its block.
#[derive(Drop)]
#[cycle(statement)]
pub struct Arm {
    pub test: Expr,
    pub body: Vec<Stmt>,
}

/// A statement, and the line on which it begins.
#[derive(Drop)]
#[cycle(statement)]
pub struct Stmt {
    pub line: u32,
    pub what: What,
}

/// What a statement is. `demanded` says that `__demand(__index_launch)` stands before the loop.
#[derive(Drop)]
#[cycle(statement)]
pub enum What {
    Var {
        name: Name,
        term: Option<TypeTerm>,
        init: Option<Init>,
    },
    If {
        arms: Vec<Arm>,
        other: Option<Vec<Stmt>>,
    },
    While {
        test: Expr,
        body: Vec<Stmt>,
    },
    ForIn {
        demanded: bool,
        name: Name,
        domain: Expr,
        body: Vec<Stmt>,
    },
    ForTo {
        demanded: bool,
        name: Name,
        from: Expr,
        to: Expr,
        body: Vec<Stmt>,
    },
    Do {
        body: Vec<Stmt>,
    },
    Fill {
        region: Name,
        fields: Sequence<Name>,
        value: Expr,
    },
    Assert {
        test: Expr,
    },
    Print {
        alias: Option<Name>,
        format: Sequence<u8>,
        args: Vec<Expr>,
    },
    Call {
        task: Name,
        args: Vec<Expr>,
    },
    Assign {
        target: Name,
        steps: Vec<Step>,
        how: How,
        value: Expr,
    },
    Return {
        value: Option<Expr>,
    },
}

impl Arm {
    ghost use Rattle.std.specs.Prelude.{◌≡◌};
    ghost use Rattle.regent_tree.specs.Plain.{expression_of};
    ghost use Rattle.regent_tree.specs.PlainProgram.{arm_before, block_in};
    ghost use Rattle.regent_tree.specs.Syntax.{Arms, an_arm};

    /// A test with its block.
    pub fn new(test: Expr, body: Vec<Stmt>) -> Arm
        ensures { (rest : Arms) → arm_before result rest ≡ an_arm (expression_of test) (block_in body.items) rest }
    {
        Arm { test, body }
    }
}

impl What {
    ghost use Rattle.std.specs.Prelude.{◌≡◌};
    ghost use Rattle.regent_tree.specs.Plain.{expression_of};
    ghost use Rattle.regent_tree.specs.PlainProgram.{arms_in, block_in, form_of, otherwise_in};
    ghost use Rattle.regent_tree.specs.Syntax.{do_form, for_in_form, for_to_form, if_form, while_form};

    /// An `if` with its tests, and the block of its `else`.
    pub fn choice(arms: Vec<Arm>, other: Option<Vec<Stmt>>) -> What
        ensures { form_of result ≡ if_form (arms_in arms.items) (otherwise_in other) }
    {
        What::If { arms, other }
    }

    /// A `while`.
    pub fn repeat(test: Expr, body: Vec<Stmt>) -> What
        ensures { form_of result ≡ while_form (expression_of test) (block_in body.items) }
    {
        What::While { test, body }
    }

    /// A `for` over a region or an index space.
    pub fn for_in(demanded: bool, name: Name, domain: Expr, body: Vec<Stmt>) -> What
        ensures { form_of result
            ≡ for_in_form demanded name (expression_of domain) (block_in body.items) }
    {
        What::ForIn {
            demanded,
            name,
            domain,
            body,
        }
    }

    /// A `for` over the numbers from one bound to just before another.
    pub fn for_to(demanded: bool, name: Name, from: Expr, to: Expr, body: Vec<Stmt>) -> What
        ensures { form_of result
            ≡ for_to_form demanded name (expression_of from) (expression_of to) (block_in body.items) }
    {
        What::ForTo {
            demanded,
            name,
            from,
            to,
            body,
        }
    }

    /// A block of its own.
    pub fn block(body: Vec<Stmt>) -> What
        ensures { form_of result ≡ do_form (block_in body.items) }
    {
        What::Do { body }
    }
}
