//! Statements with blocks.

ghost use Rattle.std.specs.Prelude.{◌≡◌, ◌<◌, IfOk, length, map};
ghost use Rattle.std.specs.Option.{option_map};
ghost use Rattle.regent_grammar.specs.Expressions.{expression};
ghost use Rattle.regent_grammar.specs.Reading.{read, reading};
ghost use Rattle.regent_grammar.specs.Rules.{many, maybe, ◌⊳◌, ◌⊲◌};
ghost use Rattle.regent_grammar.specs.Singles.{a_word};
ghost use Rattle.regent_grammar.specs.Statements.{arm, begins_statement, block, body, conditional};
ghost use Rattle.regent_grammar.specs.Statements.{demandable_loop, form, maybe_semicolon, plain_block};
ghost use Rattle.regent_grammar.specs.Statements.{statement, statements, while_loop};
ghost use Rattle.regent_grammar.specs.Symbols.{comes, is_word};
ghost use Rattle.regent_lex.specs.declared.tables.Word.TheVariants as word;
ghost use Rattle.read_statements.specs.Blocks.{armed_of, statement_of};
ghost use Rattle.read_terms.specs.Gives.{Gives};
ghost use Rattle.regent_tree.specs.Plain.{expression_of};
ghost use Rattle.regent_tree.specs.PlainProgram.{block_in, form_of};

use crate::forms::{arm_of, chosen, comes_statement, ended, last_statement, semicolon, simple};
use crate::ranges::{comes_loop, demand, ranged, take_range};
use read_forms::variable;
use read_terms::{Stop, before_word, comes_word, expression, line_of, take_word, with_first};
use regent_grammar::{Terminal, Word};
use regent_tree::{Arm, Expr, Stmt, What};
use std::alloc::Global;

/// A block.
#[cycle(block)]
#[tactic(auto, unfolding(regent_grammar::specs::Statements::block), using(regent_grammar::proofs::ReadingLaws::used))]
pub fn block(alloc: Global, terminals: &[Terminal]) -> Result<(Vec<Stmt>, &[Terminal]), Stop<'_>>
    ensures { Gives (λ x. read (block_in x.0.items) x.1.now) result (reading block terminals.now) }
{
    whole_block(alloc, terminals)
}

/// Statements, and one that returns behind them.
#[cycle(block)]
#[tactic(auto, unfolding(regent_grammar::proofs::Opening::reading, regent_grammar::specs::Statements::statements))]
fn whole_block(alloc: Global, terminals: &[Terminal]) -> Result<(Vec<Stmt>, &[Terminal]), Stop<'_>>
    ensures { Gives (λ x. read (block_in x.0.items) x.1.now) result
        (reading statements terminals.now) }
{
    let (statements, rest) = many_statements(alloc, terminals)?;
    let (last, rest) = last_statement(alloc, rest)?;
    Ok((ended(statements, last)?, rest))
}

/// As many statements as come.
#[cycle(block)]
fn many_statements(
    alloc: Global,
    terminals: &[Terminal],
) -> Result<(Vec<Stmt>, &[Terminal]), Stop<'_>>
    ensures { Gives (λ x. read (map statement_of x.0.items) x.1.now) result
        (reading (many (comes begins_statement) (statement ⊲ maybe_semicolon)) terminals.now) }
{
    let mut statements = Vec::new(alloc);
    let mut rest = terminals;
    while comes_statement(rest) {
        let (statement, after) = next_statement(alloc, rest)?;
        statements.push(statement)?;
        rest = after;
    }
    Ok((statements, rest))
}

/// A statement, and the semicolon behind it.
#[cycle(block)]
#[tactic(auto, unfolding(regent_grammar::proofs::Opening::reading, regent_grammar::specs::Statements::statement))]
fn next_statement(alloc: Global, terminals: &[Terminal]) -> Result<(Stmt, &[Terminal]), Stop<'_>>
    ensures { Gives (λ x. read (statement_of x.0) x.1.now) result
        (reading (statement ⊲ maybe_semicolon) terminals.now) }
{
    let line = line_of(terminals);
    let (what, rest) = form(alloc, terminals)?;
    let (_, rest) = semicolon(rest);
    Ok((Stmt { line, what }, rest))
}

/// What a statement is.
#[cycle(block)]
#[tactic(auto, unfolding(regent_grammar::proofs::Opening::reading, regent_grammar::specs::Statements::form))]
fn form(alloc: Global, terminals: &[Terminal]) -> Result<(What, &[Terminal]), Stop<'_>>
    ensures { Gives (λ x. read (form_of x.0) x.1.now) result
        (reading form terminals.now) }
{
    if comes_word(terminals, Word::Var) {
        variable(alloc, terminals)
    } else if comes_word(terminals, Word::If) {
        conditional(alloc, terminals)
    } else if comes_word(terminals, Word::While) {
        while_loop(alloc, terminals)
    } else if comes_loop(terminals) {
        demandable_loop(alloc, terminals)
    } else if comes_word(terminals, Word::Do) {
        plain_block(alloc, terminals)
    } else {
        simple(alloc, terminals)
    }
}

/// A block between `do` and `end`.
#[cycle(block)]
#[tactic(auto, unfolding(regent_grammar::proofs::Opening::reading, regent_grammar::specs::Statements::body))]
fn body(alloc: Global, terminals: &[Terminal]) -> Result<(Vec<Stmt>, &[Terminal]), Stop<'_>>
    ensures { Gives (λ x. read (block_in x.0.items) x.1.now) result
        (reading body terminals.now) }
{
    let rest = take_word(terminals, Word::Do)?;
    before_word(block(alloc, rest), Word::End)
}

/// A block of its own.
#[cycle(block)]
#[tactic(auto, unfolding(regent_grammar::proofs::Opening::reading, regent_grammar::specs::Statements::plain_block))]
fn plain_block(alloc: Global, terminals: &[Terminal]) -> Result<(What, &[Terminal]), Stop<'_>>
    ensures { Gives (λ x. read (form_of x.0) x.1.now) result
        (reading plain_block terminals.now) }
{
    let rest = take_word(terminals, Word::Do)?;
    let (body, rest) = before_word(block(alloc, rest), Word::End)?;
    Ok((What::block(body), rest))
}

/// The test of a `while`.
#[tactic(auto, unfolding(regent_grammar::proofs::Opening::reading), using(crate::proofs::Lengths::expression_less))]
fn while_test(alloc: Global, terminals: &[Terminal]) -> Result<(Expr, &[Terminal]), Stop<'_>>
    ensures same { Gives (λ x. read (expression_of x.0) x.1.now) result
        (reading (a_word word.While ⊳ expression) terminals.now) }
    ensures shorter { IfOk result (λ x. length x.1.now < length terminals.now) }
{
    let rest = take_word(terminals, Word::While)?;
    expression(alloc, rest)
}

/// A `while`.
#[cycle(block)]
#[tactic(auto, unfolding(regent_grammar::proofs::Opening::reading, regent_grammar::specs::Statements::while_loop))]
fn while_loop(alloc: Global, terminals: &[Terminal]) -> Result<(What, &[Terminal]), Stop<'_>>
    ensures { Gives (λ x. read (form_of x.0) x.1.now) result
        (reading while_loop terminals.now) }
{
    let (test, rest) = while_test(alloc, terminals)?;
    let ((test, body), rest) = with_first(test, body(alloc, rest))?;
    Ok((What::repeat(test, body), rest))
}

/// A `for`, and the demand before it.
#[cycle(block)]
#[tactic(auto, unfolding(regent_grammar::proofs::Opening::reading, regent_grammar::specs::Statements::demandable_loop))]
fn demandable_loop(alloc: Global, terminals: &[Terminal]) -> Result<(What, &[Terminal]), Stop<'_>>
    ensures { Gives (λ x. read (form_of x.0) x.1.now) result
        (reading demandable_loop terminals.now) }
{
    let (demanded, rest) = demand(terminals)?;
    let (range, rest) = take_range(alloc, rest)?;
    let ((range, body), rest) = with_first(range, body(alloc, rest))?;
    Ok((ranged(demanded, range, body), rest))
}

/// The first test of an `if`, and the block behind it.
#[cycle(block)]
#[tactic(auto, unfolding(regent_grammar::proofs::Opening::reading))]
fn first_arm(alloc: Global, terminals: &[Terminal]) -> Result<(Arm, &[Terminal]), Stop<'_>>
    ensures { Gives (λ x. read (armed_of x.0) x.1.now) result
        (reading (a_word word.If ⊳ arm) terminals.now) }
{
    let rest = take_word(terminals, Word::If)?;
    arm(alloc, rest)
}

/// The block of an `else`, where there is one, and the `end`.
#[cycle(block)]
#[tactic(auto, unfolding(regent_grammar::proofs::Opening::reading))]
fn other_end(
    alloc: Global,
    terminals: &[Terminal],
) -> Result<(Option<Vec<Stmt>>, &[Terminal]), Stop<'_>>
    ensures { Gives (λ x. read (option_map (λ b. block_in b.items) x.0) x.1.now) result
        (reading (maybe (comes (is_word word.Else)) (a_word word.Else ⊳ block) ⊲ a_word word.End) terminals.now) }
{
    before_word(other(alloc, terminals), Word::End)
}

/// An `if`.
#[cycle(block)]
#[tactic(auto, unfolding(regent_grammar::proofs::Opening::reading, regent_grammar::specs::Statements::conditional), using(crate::proofs::Lengths::first_rest, crate::proofs::Lengths::arms_rest))]
fn conditional(alloc: Global, terminals: &[Terminal]) -> Result<(What, &[Terminal]), Stop<'_>>
    ensures { Gives (λ x. read (form_of x.0) x.1.now) result
        (reading conditional terminals.now) }
{
    let (first, rest) = first_arm(alloc, terminals)?;
    let (arms, rest) = with_first(first, more_arms(alloc, rest))?;
    let ((arms, other), rest) = with_first(arms, other_end(alloc, rest))?;
    let (first, further) = arms;
    Ok((chosen(first, further, other)?, rest))
}

/// The block behind a test.
#[cycle(block)]
#[tactic(auto, unfolding(regent_grammar::proofs::Opening::reading))]
fn then_block(alloc: Global, terminals: &[Terminal]) -> Result<(Vec<Stmt>, &[Terminal]), Stop<'_>>
    ensures { Gives (λ x. read (block_in x.0.items) x.1.now) result
        (reading (a_word word.Then ⊳ block) terminals.now) }
{
    let rest = take_word(terminals, Word::Then)?;
    block(alloc, rest)
}

/// A test, and the block behind it.
#[cycle(block)]
#[tactic(auto, unfolding(regent_grammar::proofs::Opening::reading, regent_grammar::specs::Statements::arm), using(crate::proofs::Lengths::expression_less))]
fn arm(alloc: Global, terminals: &[Terminal]) -> Result<(Arm, &[Terminal]), Stop<'_>>
    ensures { Gives (λ x. read (armed_of x.0) x.1.now) result
        (reading arm terminals.now) }
{
    let (test, rest) = expression(alloc, terminals)?;
    let ((test, body), rest) = with_first(test, then_block(alloc, rest))?;
    Ok((arm_of(test, body), rest))
}

/// As many `elseif` as come.
#[cycle(block)]
fn more_arms(alloc: Global, terminals: &[Terminal]) -> Result<(Vec<Arm>, &[Terminal]), Stop<'_>>
    ensures { Gives (λ x. read (map armed_of x.0.items) x.1.now) result
        (reading (many (comes (is_word word.Elseif)) (a_word word.Elseif ⊳ arm)) terminals.now) }
{
    let mut arms = Vec::new(alloc);
    let mut rest = terminals;
    while comes_word(rest, Word::Elseif) {
        let (arm, after) = next_arm(alloc, rest)?;
        arms.push(arm)?;
        rest = after;
    }
    Ok((arms, rest))
}

/// An `elseif` with its block.
#[cycle(block)]
#[tactic(auto, unfolding(regent_grammar::proofs::Opening::reading))]
fn next_arm(alloc: Global, terminals: &[Terminal]) -> Result<(Arm, &[Terminal]), Stop<'_>>
    ensures { Gives (λ x. read (armed_of x.0) x.1.now) result
        (reading (a_word word.Elseif ⊳ arm) terminals.now) }
{
    let rest = take_word(terminals, Word::Elseif)?;
    arm(alloc, rest)
}

/// The block of an `else`, where there is one.
#[cycle(block)]
#[tactic(auto, unfolding(regent_grammar::proofs::Opening::reading))]
fn other(
    alloc: Global,
    terminals: &[Terminal],
) -> Result<(Option<Vec<Stmt>>, &[Terminal]), Stop<'_>>
    ensures { Gives (λ x. read (option_map (λ b. block_in b.items) x.0) x.1.now) result
        (reading (maybe (comes (is_word word.Else)) (a_word word.Else ⊳ block)) terminals.now) }
{
    if comes_word(terminals, Word::Else) {
        let rest = take_word(terminals, Word::Else)?;
        let (block, rest) = block(alloc, rest)?;
        Ok((Some(block), rest))
    } else {
        Ok((None, terminals))
    }
}
