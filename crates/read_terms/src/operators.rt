//! Operators, and how tightly they bind.

ghost use Rattle.std.specs.Prelude.{◌≡◌, ◌+◌, MatchOption};
ghost use Rattle.regent_grammar.specs.Expressions.{and_operator, chain, compare_operator};
ghost use Rattle.regent_grammar.specs.Expressions.{or_operator, prefix, product_operator};
ghost use Rattle.regent_grammar.specs.Expressions.{sign_of, sum_operator};
ghost use Rattle.read_terms.specs.Levels.{operator_at, rank, rule_at};

use regent_grammar::{Mark, Symbol, Word};
use regent_tree::{Arithmetic, Comparison, Operator, Sign};

/// What a chain is made of, by the operators that bind least in it.
#[derive(Clone, Copy, Debug, PartialEq, Eq)]
pub enum Level {
    Prefix,
    Product,
    Sum,
    Comparison,
    Conjunction,
    Disjunction,
}

/// The level of a chain's members.
#[tactic(auto, unfolding(regent_grammar::specs::Expressions::product, regent_grammar::specs::Expressions::sum, regent_grammar::specs::Expressions::compare, regent_grammar::specs::Expressions::conjunction, regent_grammar::specs::Expressions::disjunction))]
pub fn tighter(level: Level) -> Option<Level>
    ensures chain { MatchOption result (rule_at level ≡ prefix)
        (λ members. rule_at level ≡ chain (operator_at level) (rule_at members)) }
    ensures falls { MatchOption result (rank level ≡ 0) (λ members. rank level ≡ rank members + 1) }
{
    match level {
        Level::Prefix => None,
        Level::Product => Some(Level::Prefix),
        Level::Sum => Some(Level::Product),
        Level::Comparison => Some(Level::Sum),
        Level::Conjunction => Some(Level::Comparison),
        Level::Disjunction => Some(Level::Conjunction),
    }
}

fn factor_operator(symbol: &Symbol) -> Option<Operator>
    ensures { result ≡ product_operator symbol.now }
{
    match symbol {
        Symbol::Mark(Mark::Star) => Some(Operator::Compute(Arithmetic::Multiply)),
        Symbol::Mark(Mark::Slash) => Some(Operator::Compute(Arithmetic::Divide)),
        Symbol::Mark(Mark::Percent) => Some(Operator::Compute(Arithmetic::Remainder)),
        _ => None,
    }
}

fn term_operator(symbol: &Symbol) -> Option<Operator>
    ensures { result ≡ sum_operator symbol.now }
{
    match symbol {
        Symbol::Mark(Mark::Plus) => Some(Operator::Compute(Arithmetic::Add)),
        Symbol::Mark(Mark::Minus) => Some(Operator::Compute(Arithmetic::Subtract)),
        _ => None,
    }
}

fn comparison_operator(symbol: &Symbol) -> Option<Operator>
    ensures { result ≡ compare_operator symbol.now }
{
    match symbol {
        Symbol::Mark(Mark::Equal) => Some(Operator::Compare(Comparison::Equal)),
        Symbol::Mark(Mark::NotEqual) => Some(Operator::Compare(Comparison::NotEqual)),
        Symbol::Mark(Mark::Less) => Some(Operator::Compare(Comparison::Less)),
        Symbol::Mark(Mark::AtMost) => Some(Operator::Compare(Comparison::AtMost)),
        Symbol::Mark(Mark::Greater) => Some(Operator::Compare(Comparison::Greater)),
        Symbol::Mark(Mark::AtLeast) => Some(Operator::Compare(Comparison::AtLeast)),
        _ => None,
    }
}

fn and_operator(symbol: &Symbol) -> Option<Operator>
    ensures { result ≡ and_operator symbol.now }
{
    match symbol {
        Symbol::Word(Word::And) => Some(Operator::And),
        _ => None,
    }
}

fn or_operator(symbol: &Symbol) -> Option<Operator>
    ensures { result ≡ or_operator symbol.now }
{
    match symbol {
        Symbol::Word(Word::Or) => Some(Operator::Or),
        _ => None,
    }
}

/// The operator of a chain of this level that a symbol is.
pub fn operator_at(level: Level, symbol: &Symbol) -> Option<Operator>
    ensures { result ≡ operator_at level symbol.now }
{
    match level {
        Level::Prefix => None,
        Level::Product => factor_operator(symbol),
        Level::Sum => term_operator(symbol),
        Level::Comparison => comparison_operator(symbol),
        Level::Conjunction => and_operator(symbol),
        Level::Disjunction => or_operator(symbol),
    }
}

/// The prefix that a symbol is.
pub fn sign_of(symbol: &Symbol) -> Option<Sign>
    ensures { result ≡ sign_of symbol.now }
{
    match symbol {
        Symbol::Mark(Mark::Minus) => Some(Sign::Minus),
        Symbol::Word(Word::Not) => Some(Sign::Not),
        _ => None,
    }
}
