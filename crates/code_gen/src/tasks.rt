//! The code of tasks.

ghost use Rattle.std.specs.Prelude.{◌≡◌, [], IfOk, OnOk, length};
ghost use Rattle.regent_tree.specs.PlainProgram.{block_in, task_of, tree_of};
ghost use Rattle.task_code.specs.declared.instr.Instr.TheVariants as instr;
ghost use Rattle.code_rules.specs.Emitted.{emitted};
ghost use Rattle.code_rules.specs.Pieces.{lines, op, ◌⨟◌};
ghost use Rattle.compile_types.specs.Here.{where_at};
ghost use Rattle.compile_statements.specs.Scopes.{seen};
ghost use Rattle.compile_statements.specs.Shaped.{block_by, shapes_after_block};
ghost use Rattle.code_gen.specs.Shaped.{body_by, task_code_by};

use crate::scopes::scope_of;
use compile_expressions::Body;
use compile_statements::{At, Scope, Shapes, block};
use compile_tables::{declared_needs, used_slots};
use compile_types::{Site, Symbols, result_type};
use plain_values::Sequence;
use regent_tree::{Stmt, Task};
use static_types::number_at;
use std::alloc::{AllocError, Global};
use task_code::{Instr, Line, TaskCode};

/// Statements of a task, in a scope, and its end.
fn body_at(
    site: &Site,
    scope: &mut Scope,
    shapes: &mut Shapes,
    stmts: &[Stmt],
) -> Result<Sequence<Line>, AllocError>
    ensures shapes { OnOk result (shapes.new ≡ shapes_after_block shapes.old (block_in stmts.now)) }
    ensures code { IfOk result (λ body. body ≡ emitted []
        (block_by shapes.old (where_at site.now (seen scope.old) 0) (block_in stmts.now) ⨟ op instr.Return 0)) }
{
    let mut body = Body::new(site.alloc);
    let at = At { site, line: 0 };
    block(&at, scope, &mut body, shapes, stmts)?;
    body.add(Instr::Return, 0)?;
    Ok(body.finish())
}

/// The body of a task.
#[tactic(auto, using(crate::proofs::Bodies::laid_from_nothing))]
fn body_of(
    alloc: Global,
    symbols: &Symbols,
    shapes: &mut Shapes,
    task: &Task,
) -> Result<Sequence<Line>, AllocError>
    ensures shapes { OnOk result (shapes.new ≡ shapes_after_block shapes.old (task_of task.now).body) }
    ensures code { IfOk result (λ body. body ≡ lines (body_by shapes.old (tree_of symbols.now) (task_of task.now)) 0) }
{
    let mut scope = scope_of(alloc, symbols.tables(), task)?;
    let result = result_type(alloc, symbols.tables(), &task.result)?;
    let site = Site {
        alloc,
        symbols,
        result: &result,
        params: number_at(task.params.len())?,
    };
    body_at(&site, &mut scope, shapes, task.body.as_slice())
}

/// How many parameters a task has. More than 8 bits can say count as a want of memory.
fn number_of_params(task: &Task) -> Result<u8, AllocError>
    ensures { IfOk result (λ n. n ≡ length task.now.params) }
{
    match u8::try_from(task.params.len()) {
        Ok(number) => Ok(number),
        Err(_) => Err(AllocError),
    }
}

/// The code of a task, by the shapes of its loops.
pub fn task_code(
    alloc: Global,
    symbols: &Symbols,
    shapes: &mut Shapes,
    task: &Task,
) -> Result<TaskCode, AllocError>
    ensures shapes { OnOk result (shapes.new ≡ shapes_after_block shapes.old (task_of task.now).body) }
    ensures code { IfOk result (λ code. code ≡ task_code_by shapes.old (tree_of symbols.now) (task_of task.now)) }
{
    let params = number_of_params(task)?;
    let body = body_of(alloc, symbols, shapes, task)?;
    let slots = used_slots(params as u32, body.as_slice())?;
    Ok(TaskCode {
        params,
        result: task.result.is_some(),
        needs: declared_needs(alloc, symbols.tables(), task)?,
        slots,
        body,
    })
}
