//! What stands before the body of a task.

ghost use Rattle.std.specs.Prelude.{◌≡◌};
ghost use Rattle.read_items.specs.TaskHeads.{headed};
ghost use Rattle.regent_grammar.specs.Items.{task_head};
ghost use Rattle.regent_grammar.specs.Reading.{read, reading};
ghost use Rattle.regent_grammar.specs.Rules.{◌⊳◌};
ghost use Rattle.regent_grammar.specs.Singles.{a_word, name};
ghost use Rattle.regent_lex.specs.declared.tables.Word.TheVariants as word;
ghost use Rattle.read_terms.specs.Gives.{Gives};
ghost use Rattle.regent_tree.specs.Syntax.{task_item};
ghost use Rattle.regent_tree.specs.PlainProgram.{block_in, task_of};

use crate::parameters::task_parameters;
use crate::task_clauses::clauses;
use plain_values::Sequence;
use read_terms::{Stop, declared_type, take_name, take_word};
use regent_grammar::{Terminal, Word};
use regent_tree::{Clause, Name, Param, Stmt, Task, TypeTerm};
use std::alloc::Global;

/// What stands before the body of a task.
#[derive(Drop)]
pub struct TaskHead {
    pub name: Name,
    pub params: Sequence<Param>,
    pub result: Option<TypeTerm>,
    pub clauses: Sequence<Clause>,
}

impl TaskHead {
    /// The task with this body.
    pub fn with_body(self, body: Vec<Stmt>) -> Task
        ensures { task_item (task_of result) ≡ headed self (block_in body.items) }
    {
        Task {
            name: self.name,
            params: self.params,
            result: self.result,
            clauses: self.clauses,
            body,
        }
    }
}

/// The name of a task.
#[tactic(auto, unfolding(regent_grammar::proofs::Opening::reading))]
fn task_name(alloc: Global, terminals: &[Terminal]) -> Result<(Name, &[Terminal]), Stop<'_>>
    ensures { Gives (λ x. read x.0 x.1.now) result (reading (a_word word.Task ⊳ name) terminals.now) }
{
    let rest = take_word(terminals, Word::Task)?;
    take_name(alloc, rest)
}

/// What stands before the body of a task.
#[tactic(auto, unfolding(regent_grammar::proofs::Opening::reading))]
pub fn task_head(alloc: Global, terminals: &[Terminal]) -> Result<(TaskHead, &[Terminal]), Stop<'_>>
    ensures { Gives (λ x. read (headed x.0) x.1.now) result (reading task_head terminals.now) }
{
    let (name, rest) = task_name(alloc, terminals)?;
    let (params, rest) = task_parameters(alloc, rest)?;
    let (result, rest) = declared_type(alloc, rest)?;
    let (clauses, rest) = clauses(alloc, rest)?;
    let head = TaskHead {
        name,
        params,
        result,
        clauses,
    };
    Ok((head, rest))
}
