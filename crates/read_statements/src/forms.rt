//! Statements by what they begin with, and the ends of blocks.

ghost use Rattle.std.specs.Prelude.{◌≡◌, IfOk, map};
ghost use Rattle.std.specs.Option.{option_map};
ghost use Rattle.regent_grammar.specs.Nodes.{returning_from};
ghost use Rattle.regent_grammar.specs.Reading.{read, reading};
ghost use Rattle.regent_grammar.specs.Rules.{maybe, ◌⊲◌};
ghost use Rattle.regent_grammar.specs.Statements.{a_conditional, armed, begins_statement, ends_return};
ghost use Rattle.regent_grammar.specs.Statements.{maybe_semicolon, return_statement, return_value};
ghost use Rattle.regent_grammar.specs.Statements.{returns_nothing};
ghost use Rattle.regent_grammar.specs.Symbols.{comes, is_word};
ghost use Rattle.regent_lex.specs.declared.tables.Word.TheVariants as word;
ghost use Rattle.read_statements.specs.Blocks.{armed_of, present, simple_form, statement_of};
ghost use Rattle.read_terms.specs.Gives.{Gives};
ghost use Rattle.regent_tree.specs.Plain.{expression_of};
ghost use Rattle.regent_tree.specs.PlainProgram.{block_in, form_of};

use read_forms::{
    assertion, assignment, comes_assert, comes_print_by, filling, printing, printing_by, task_call,
};
use read_terms::{
    Stop, comes_name_before, comes_word, expression, is_mark, is_word, line_of, take_word,
};
use regent_grammar::{Mark, Symbol, Terminal, Word};
use regent_tree::{Arm, Expr, Stmt, What};
use std::alloc::{AllocError, Global};

/// A statement without blocks that declares no variable.
#[tactic(auto, unfolding(regent_grammar::proofs::Opening::reading))]
pub fn simple(alloc: Global, terminals: &[Terminal]) -> Result<(What, &[Terminal]), Stop<'_>>
    ensures { Gives (λ x. read (form_of x.0) x.1.now) result
        (reading simple_form terminals.now) }
{
    if comes_word(terminals, Word::Fill) {
        filling(alloc, terminals)
    } else if comes_assert(terminals) {
        assertion(alloc, terminals)
    } else if comes_word(terminals, Word::Regentlib) {
        printing(alloc, terminals)
    } else if comes_print_by(terminals) {
        printing_by(alloc, terminals)
    } else if comes_name_before(terminals, Mark::Open) {
        task_call(alloc, terminals)
    } else {
        assignment(alloc, terminals)
    }
}

/// Whether a statement comes next.
pub fn comes_statement(terminals: &[Terminal]) -> bool
    ensures { result ≡ comes begins_statement terminals.now }
{
    match terminals {
        [] => false,
        [next, ..] => begins_statement(&next.symbol),
    }
}

fn begins_statement(symbol: &Symbol) -> bool
    ensures { result ≡ begins_statement symbol.now }
{
    match symbol {
        Symbol::Name(_) => true,
        Symbol::Word(word) => match word {
            Word::Var | Word::If | Word::While | Word::Demand | Word::For => true,
            Word::Do | Word::Fill | Word::Regentlib => true,
            _ => false,
        },
        _ => false,
    }
}

/// Whether a semicolon comes, and what comes behind it.
#[tactic(auto, unfolding(regent_grammar::proofs::Opening::reading, regent_grammar::specs::Statements::maybe_semicolon, regent_grammar::specs::Singles::a_mark))]
pub fn semicolon(terminals: &[Terminal]) -> (bool, &[Terminal])
    ensures { reading maybe_semicolon terminals.now ≡ read (present result.0) result.1.now }
{
    match terminals {
        [] => (false, terminals),
        [next, rest @ ..] => {
            if is_mark(&next.symbol, Mark::Semicolon) {
                (true, rest)
            } else {
                (false, terminals)
            }
        }
    }
}

/// Whether nothing is returned: the block or the text ends here, or a semicolon comes.
fn returns_nothing(terminals: &[Terminal]) -> bool
    ensures { result ≡ returns_nothing terminals.now }
{
    match terminals {
        [] => true,
        [next, ..] => ends_return(&next.symbol),
    }
}

fn ends_return(symbol: &Symbol) -> bool
    ensures { result ≡ ends_return symbol.now }
{
    is_mark(symbol, Mark::Semicolon)
        || is_word(symbol, Word::End)
        || is_word(symbol, Word::Else)
        || is_word(symbol, Word::Elseif)
}

/// What is returned.
#[tactic(auto, unfolding(regent_grammar::proofs::Opening::reading, regent_grammar::specs::Statements::return_value))]
fn return_value(
    alloc: Global,
    terminals: &[Terminal],
) -> Result<(Option<Expr>, &[Terminal]), Stop<'_>>
    ensures { Gives (λ x. read (option_map expression_of x.0) x.1.now) result
        (reading return_value terminals.now) }
{
    if returns_nothing(terminals) {
        Ok((None, terminals))
    } else {
        let (value, rest) = expression(alloc, terminals)?;
        Ok((Some(value), rest))
    }
}

/// A `return`.
#[tactic(auto, unfolding(regent_grammar::proofs::Opening::reading, regent_grammar::specs::Statements::return_statement))]
fn return_statement(alloc: Global, terminals: &[Terminal]) -> Result<(Stmt, &[Terminal]), Stop<'_>>
    ensures { Gives (λ x. read (statement_of x.0) x.1.now) result
        (reading return_statement terminals.now) }
{
    let line = line_of(terminals);
    let rest = take_word(terminals, Word::Return)?;
    let (value, rest) = return_value(alloc, rest)?;
    let what = What::Return { value };
    Ok((Stmt { line, what }, rest))
}

/// A `return`, and the semicolon behind it.
#[tactic(auto, unfolding(regent_grammar::proofs::Opening::reading))]
fn return_line(alloc: Global, terminals: &[Terminal]) -> Result<(Stmt, &[Terminal]), Stop<'_>>
    ensures { Gives (λ x. read (statement_of x.0) x.1.now) result
        (reading (return_statement ⊲ maybe_semicolon) terminals.now) }
{
    let (statement, rest) = return_statement(alloc, terminals)?;
    let (_, rest) = semicolon(rest);
    Ok((statement, rest))
}

/// The `return` at the end of a block, where there is one.
#[tactic(auto, unfolding(regent_grammar::proofs::Opening::reading))]
pub fn last_statement(
    alloc: Global,
    terminals: &[Terminal],
) -> Result<(Option<Stmt>, &[Terminal]), Stop<'_>>
    ensures { Gives (λ x. read (option_map statement_of x.0) x.1.now) result
        (reading (maybe (comes (is_word word.Return)) (return_statement ⊲ maybe_semicolon)) terminals.now) }
{
    if comes_word(terminals, Word::Return) {
        let (statement, rest) = return_line(alloc, terminals)?;
        Ok((Some(statement), rest))
    } else {
        Ok((None, terminals))
    }
}

/// The statements of a block, with the one that returns behind them.
#[tactic(auto, using(crate::proofs::BlockLaws::block_of_map, crate::proofs::BlockLaws::ended_block))]
pub fn ended(statements: Vec<Stmt>, last: Option<Stmt>) -> Result<Vec<Stmt>, AllocError>
    ensures { IfOk result (λ all. block_in all.items
        ≡ returning_from (map statement_of statements.items) (option_map statement_of last)) }
{
    match last {
        None => Ok(statements),
        Some(last) => {
            let mut all = statements;
            all.push(last)?;
            Ok(all)
        }
    }
}

/// A test with its block.
pub fn arm_of(test: Expr, body: Vec<Stmt>) -> Arm
    ensures { armed_of result ≡ armed (expression_of test) (block_in body.items) }
{
    Arm::new(test, body)
}

/// An `if` with its tests.
pub fn chosen(first: Arm, further: Vec<Arm>, other: Option<Vec<Stmt>>) -> Result<What, AllocError>
    ensures { IfOk result (λ what. form_of what
        ≡ a_conditional (armed_of first) (map armed_of further.items) (option_map (λ b. block_in b.items) other)) }
{
    let mut arms = further;
    arms.insert(0, first)?;
    Ok(What::choice(arms, other))
}
