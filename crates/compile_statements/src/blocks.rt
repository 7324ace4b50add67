//! Statements, one after the other, and the blocks in them.

ghost use Rattle.std.specs.Prelude.{◌≡◌, Bool, IfOk, List, OnOk, drop, length, true};
ghost use Rattle.regent_tree.specs.Plain.{expression_of};
ghost use Rattle.regent_tree.specs.PlainProgram.{arms_in, block_in, form_of};
ghost use Rattle.regent_tree.specs.Scopes.{past, with_name};
ghost use Rattle.regent_tree.specs.Syntax.{for_in_form, for_to_form, while_form};
ghost use Rattle.regent_tree.specs.Typing.{scope_after, scope_after_arms, scope_after_block, scope_after_else};
ghost use Rattle.code_rules.specs.Emitted.{emitted};
ghost use Rattle.code_rules.specs.Pieces.{Piece, rounds, ◌⨟◌};
ghost use Rattle.code_rules.specs.Statements.{looping};
ghost use Rattle.check_rules.specs.declared.loop_shape.LoopShape.{LoopShape};
ghost use Rattle.compile_types.specs.Here.{where_at};
ghost use Rattle.compile_forms.specs.Forms.{is_plain};
ghost use Rattle.compile_statements.specs.Branches.{behind_block, else_in, joined, parted_by};
ghost use Rattle.compile_statements.specs.Loops.{counter_code, head_instr};
ghost use Rattle.compile_statements.specs.Scopes.{as_of, seen, tree_at, where_in};
ghost use Rattle.compile_statements.specs.Shaped.{arms_by, block_by, else_by, form_by, shapes_after_arms, shapes_after_block, shapes_after_else, shapes_after_form};

use crate::at::At;
use crate::branches::join;
use crate::heads::{begin_points_in, numbers_in, points_in};
use crate::launches::{in_one_step, launched_call};
use crate::loops::{Taken, again, begin_turns};
use crate::scope::{Mark, Scope, expression_as_of};
use crate::shapes::Shapes;
use crate::variables::variable;
use compile_expressions::Body;
use compile_forms::without_block;
use program_tables::copy_name;
use regent_tree::{Arm, Expr, Name, StaticType, Stmt, What};
use std::alloc::AllocError;
use task_code::Instr;

/// Statements, from the first on.
#[cycle(statement)]
pub fn block(
    at: &At,
    scope: &mut Scope,
    body: &mut Body,
    shapes: &mut Shapes,
    stmts: &[Stmt],
) -> Result<(), AllocError>
    ensures scope { OnOk result (seen scope.new ≡ scope_after_block (tree_at at.now) (seen scope.old) (block_in stmts.now)) }
    ensures shapes { OnOk result (shapes.new ≡ shapes_after_block shapes.old (block_in stmts.now)) }
    ensures code { OnOk result (body.new ≡ emitted body.old (block_by shapes.old (where_in at.now scope.old) (block_in stmts.now))) }
{
    for stmt in stmts {
        let on_line = At {
            site: at.site,
            line: stmt.line,
        };
        form(&on_line, scope, body, shapes, &stmt.what)?;
    }
    Ok(())
}

/// A statement in which no block stands, and which binds no name.
#[tactic(auto, using(crate::proofs::Forms::plain_stays, crate::proofs::Forms::plain_leaves))]
fn plain(at: &At, scope: &Scope, body: &mut Body, what: &What) -> Result<(), AllocError>
    requires { is_plain (form_of what.now) ≡ true }
    ensures scope { scope_after (tree_at at.now) (seen scope.now) (form_of what.now) ≡ seen scope.now }
    ensures shapes { (shapes : List LoopShape) → shapes_after_form shapes (form_of what.now) ≡ shapes }
    ensures code { (shapes : List LoopShape) → OnOk result (body.new ≡ emitted body.old
        (form_by shapes (where_in at.now scope.now) (form_of what.now))) }
{
    without_block(&scope.here(at), body, what)
}

/// A statement, with the blocks in it.
#[cycle(statement)]
fn form(
    at: &At,
    scope: &mut Scope,
    body: &mut Body,
    shapes: &mut Shapes,
    what: &What,
) -> Result<(), AllocError>
    ensures scope { OnOk result (seen scope.new ≡ scope_after (tree_at at.now) (seen scope.old) (form_of what.now)) }
    ensures shapes { OnOk result (shapes.new ≡ shapes_after_form shapes.old (form_of what.now)) }
    ensures code { OnOk result (body.new ≡ emitted body.old (form_by shapes.old (where_in at.now scope.old) (form_of what.now))) }
{
    match what {
        What::Var { name, term, init } => variable(at, scope, body, name, term, init),
        What::If { arms, .. } => {
            let skips = all_arms(at, scope, body, shapes, arms.as_slice())?;
            otherwise(at, scope, body, shapes, what)?;
            join(body, &skips, at.line)
        }
        What::While { test, body: inner } => repeat(
            at,
            scope,
            body,
            shapes,
            inner.as_slice(),
            test,
        ),
        What::ForIn {
            name,
            domain,
            body: inner,
            ..
        } => for_in(at, scope, body, shapes, name, inner.as_slice(), domain),
        What::ForTo {
            name,
            from,
            to,
            body: inner,
            ..
        } => for_to(at, scope, body, shapes, name, inner.as_slice(), from, to),
        What::Do { body: inner } => nested(at, scope, body, shapes, inner.as_slice()),
        what => plain(at, scope, body, what),
    }
}

/// A block within a block: its names end with it.
#[cycle(statement)]
fn nested(
    at: &At,
    scope: &mut Scope,
    body: &mut Body,
    shapes: &mut Shapes,
    stmts: &[Stmt],
) -> Result<(), AllocError>
    ensures scope { OnOk result (seen scope.new ≡ past (seen scope.old)
        (scope_after_block (tree_at at.now) (seen scope.old) (block_in stmts.now))) }
    ensures shapes { OnOk result (shapes.new ≡ shapes_after_block shapes.old (block_in stmts.now)) }
    ensures code { OnOk result (body.new ≡ emitted body.old (block_by shapes.old (where_in at.now scope.old) (block_in stmts.now))) }
{
    let mark = scope.mark();
    block(at, scope, body, shapes, stmts)?;
    scope.leave(mark);
    Ok(())
}

/// The test of an `if` with its block, in the scope as it was at a mark. The place of the jump behind the block is
/// told.
#[cycle(statement)]
fn arm(
    at: &At,
    scope: &mut Scope,
    mark: Mark,
    body: &mut Body,
    shapes: &mut Shapes,
    stmts: &[Stmt],
    test: &Expr,
) -> Result<u32, AllocError>
    ensures scope { OnOk result (seen scope.new ≡ past (seen scope.old)
        (scope_after_block (tree_at at.now) (seen scope.old) (block_in stmts.now))) }
    ensures shapes { OnOk result (shapes.new ≡ shapes_after_block shapes.old (block_in stmts.now)) }
    ensures place { IfOk result (λ p. p ≡ length (behind_block (where_at at.now.site.now (as_of mark (seen scope.old)) at.now.line)
        (where_in at.now scope.old) (expression_of test.now)
        (block_by shapes.old (where_in at.now scope.old) (block_in stmts.now)) body.old)) }
    ensures code { OnOk result (body.new ≡ parted_by (where_at at.now.site.now (as_of mark (seen scope.old)) at.now.line)
        (where_in at.now scope.old) (expression_of test.now)
        (block_by shapes.old (where_in at.now scope.old) (block_in stmts.now)) body.old) }
{
    expression_as_of(at, scope, mark, body, test)?;
    let head = body.open(at.line)?;
    nested(at, scope, body, shapes, stmts)?;
    let skip = body.open(at.line)?;
    body.put(head, Instr::JumpIfNot(body.place()?), at.line);
    Ok(skip)
}

/// The tests of an `if` with their blocks. The places of the jumps behind them are told.
#[cycle(statement)]
fn all_arms(
    at: &At,
    scope: &mut Scope,
    body: &mut Body,
    shapes: &mut Shapes,
    arms: &[Arm],
) -> Result<Vec<u32>, AllocError>
    ensures scope { OnOk result (seen scope.new ≡ scope_after_arms (tree_at at.now) (seen scope.old) (arms_in arms.now)) }
    ensures shapes { OnOk result (shapes.new ≡ shapes_after_arms shapes.old (arms_in arms.now)) }
    ensures code { (other : Piece) → IfOk result (λ skips.
        emitted body.old (arms_by shapes.old (where_in at.now scope.old) (where_in at.now scope.old) (arms_in arms.now) other)
        ≡ joined at.now.line skips.items (emitted body.new other)) }
{
    let mark = scope.mark();
    let mut skips = Vec::new(at.site.alloc);
    for each in arms {
        let skip = arm(
            at,
            scope,
            mark,
            body,
            shapes,
            each.body.as_slice(),
            &each.test,
        )?;
        skips.push(skip)?;
    }
    Ok(skips)
}

/// The block behind the `else` of an `if`, where there is one.
#[cycle(statement)]
fn otherwise(
    at: &At,
    scope: &mut Scope,
    body: &mut Body,
    shapes: &mut Shapes,
    what: &What,
) -> Result<(), AllocError>
    ensures scope { OnOk result (seen scope.new ≡ scope_after_else (tree_at at.now) (seen scope.old) (else_in (form_of what.now))) }
    ensures shapes { OnOk result (shapes.new ≡ shapes_after_else shapes.old (else_in (form_of what.now))) }
    ensures code { OnOk result (body.new ≡ emitted body.old (else_by shapes.old (where_in at.now scope.old) (else_in (form_of what.now)))) }
{
    match what {
        What::If { other, .. } => match other {
            Some(stmts) => nested(at, scope, body, shapes, stmts.as_slice()),
            None => Ok(()),
        },
        What::Var { .. }
        | What::While { .. }
        | What::ForIn { .. }
        | What::ForTo { .. }
        | What::Do { .. }
        | What::Fill { .. }
        | What::Assert { .. }
        | What::Print { .. }
        | What::Call { .. }
        | What::Assign { .. }
        | What::Return { .. } => Ok(()),
    }
}

/// A `while`: its test stands behind its body, in the scope before it.
#[cycle(statement)]
fn repeat(
    at: &At,
    scope: &mut Scope,
    body: &mut Body,
    shapes: &mut Shapes,
    stmts: &[Stmt],
    test: &Expr,
) -> Result<(), AllocError>
    ensures scope { OnOk result (seen scope.new ≡ past (seen scope.old)
        (scope_after_block (tree_at at.now) (seen scope.old) (block_in stmts.now))) }
    ensures shapes { OnOk result (shapes.new ≡ shapes_after_block shapes.old (block_in stmts.now)) }
    ensures code { OnOk result (body.new ≡ emitted body.old (form_by shapes.old (where_in at.now scope.old)
        (while_form (expression_of test.now) (block_in stmts.now)))) }
{
    let mark = scope.mark();
    let head = begin_turns(body, at.line)?;
    nested(at, scope, body, shapes, stmts)?;
    body.put(head, Instr::Jump(body.place()?), at.line);
    expression_as_of(at, scope, mark, body, test)?;
    again(body, head, at.line)
}

/// The block of a loop, with the loop's variable.
#[cycle(statement)]
fn loop_body(
    at: &At,
    scope: &mut Scope,
    body: &mut Body,
    shapes: &mut Shapes,
    name: &Name,
    taken: StaticType,
    stmts: &[Stmt],
) -> Result<(), AllocError>
    ensures scope { OnOk result (seen scope.new ≡ past (seen scope.old)
        (scope_after_block (tree_at at.now) (with_name (seen scope.old) name.now taken true) (block_in stmts.now))) }
    ensures shapes { OnOk result (shapes.new ≡ shapes_after_block shapes.old (block_in stmts.now)) }
    ensures code { OnOk result (body.new ≡ emitted body.old
        (block_by shapes.old (looping (where_in at.now scope.old) name.now taken) (block_in stmts.now))) }
{
    let mark = scope.mark();
    scope.bind(copy_name(at.site.alloc, name)?, taken, true)?;
    block(at, scope, body, shapes, stmts)?;
    scope.leave(mark);
    Ok(())
}

/// A loop's head, and its body.
#[cycle(statement)]
fn all_rounds(
    at: &At,
    scope: &mut Scope,
    body: &mut Body,
    shapes: &mut Shapes,
    name: &Name,
    taken: Taken,
    stmts: &[Stmt],
) -> Result<(), AllocError>
    ensures scope { OnOk result (seen scope.new ≡ past (seen scope.old)
        (scope_after_block (tree_at at.now) (with_name (seen scope.old) name.now taken.static_type true) (block_in stmts.now))) }
    ensures shapes { OnOk result (shapes.new ≡ shapes_after_block shapes.old (block_in stmts.now)) }
    ensures code { OnOk result (body.new ≡ emitted body.old (rounds (head_instr taken.head) at.now.line
        (block_by shapes.old (looping (where_in at.now scope.old) name.now taken.static_type) (block_in stmts.now)))) }
{
    let Taken {
        static_type,
        head: start,
        ..
    } = taken;
    let head = body.open(at.line)?;
    loop_body(at, scope, body, shapes, name, static_type, stmts)?;
    body.add(Instr::Jump(head), at.line)?;
    body.put(head, start.instr(body.place()?), at.line);
    Ok(())
}

/// A loop that goes point by point.
#[cycle(statement)]
fn by_points(
    at: &At,
    scope: &mut Scope,
    body: &mut Body,
    shapes: &mut Shapes,
    name: &Name,
    taken: Taken,
    stmts: &[Stmt],
) -> Result<(), AllocError>
    ensures scope { OnOk result (seen scope.new ≡ past (seen scope.old)
        (scope_after_block (tree_at at.now) (with_name (seen scope.old) name.now taken.static_type true) (block_in stmts.now))) }
    ensures shapes { OnOk result (shapes.new ≡ shapes_after_block shapes.old (block_in stmts.now)) }
    ensures code { OnOk result (body.new ≡ emitted body.old (counter_code (where_in at.now scope.old)
        ⨟ rounds (head_instr taken.head) at.now.line
        (block_by shapes.old (looping (where_in at.now scope.old) name.now taken.static_type) (block_in stmts.now)))) }
{
    begin_points_in(at, scope, body)?;
    all_rounds(at, scope, body, shapes, name, taken, stmts)
}

/// A `for` over a region or an index space, by its shape.
#[cycle(statement)]
fn for_in(
    at: &At,
    scope: &mut Scope,
    body: &mut Body,
    shapes: &mut Shapes,
    name: &Name,
    stmts: &[Stmt],
    domain: &Expr,
) -> Result<(), AllocError>
    ensures scope { (demanded : Bool) → OnOk result (seen scope.new ≡ scope_after (tree_at at.now) (seen scope.old)
        (for_in_form demanded name.now (expression_of domain.now) (block_in stmts.now))) }
    ensures shapes { OnOk result (shapes.new ≡ shapes_after_block (drop 1 shapes.old) (block_in stmts.now)) }
    ensures code { (demanded : Bool) → OnOk result (body.new ≡ emitted body.old (form_by shapes.old (where_in at.now scope.old)
        (for_in_form demanded name.now (expression_of domain.now) (block_in stmts.now)))) }
{
    let launches = shapes.next_is_launch();
    let taken = points_in(at, scope, body, domain)?;
    match launched_call(taken.over_space, launches, stmts) {
        Some(call) => in_one_step(at, scope, body, name, taken, &call),
        None => by_points(at, scope, body, shapes, name, taken, stmts),
    }
}

/// A `for` over the numbers from one bound to just before another, which is no launch whatever its shape.
#[cycle(statement)]
fn for_to(
    at: &At,
    scope: &mut Scope,
    body: &mut Body,
    shapes: &mut Shapes,
    name: &Name,
    stmts: &[Stmt],
    from: &Expr,
    to: &Expr,
) -> Result<(), AllocError>
    ensures scope { (demanded : Bool) → OnOk result (seen scope.new ≡ scope_after (tree_at at.now) (seen scope.old)
        (for_to_form demanded name.now (expression_of from.now) (expression_of to.now) (block_in stmts.now))) }
    ensures shapes { OnOk result (shapes.new ≡ shapes_after_block (drop 1 shapes.old) (block_in stmts.now)) }
    ensures code { (demanded : Bool) → OnOk result (body.new ≡ emitted body.old (form_by shapes.old (where_in at.now scope.old)
        (for_to_form demanded name.now (expression_of from.now) (expression_of to.now) (block_in stmts.now)))) }
{
    shapes.next_is_launch();
    let taken = numbers_in(at, scope, body, from, to)?;
    all_rounds(at, scope, body, shapes, name, taken, stmts)
}
