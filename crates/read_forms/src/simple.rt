//! Statements without blocks.

ghost use Rattle.std.specs.Prelude.{◌≡◌, ◌∷◌, [], codes, map};
ghost use Rattle.std.specs.Option.{option_map};
ghost use Rattle.regent_grammar.specs.Expressions.{access, expression};
ghost use Rattle.regent_grammar.specs.Reading.{read, reading};
ghost use Rattle.regent_grammar.specs.Rules.{maybe, ◌⊳◌};
ghost use Rattle.regent_grammar.specs.Singles.{a_mark, a_word, name, named, text};
ghost use Rattle.regent_grammar.specs.Statements.{a_named_print, an_assert, an_assignment, assertion, assign};
ghost use Rattle.regent_grammar.specs.Statements.{assign_sign, assignment, extremum, filling};
ghost use Rattle.regent_grammar.specs.Statements.{is_extremum, print_arguments, print_format, printing};
ghost use Rattle.regent_grammar.specs.Statements.{fields, printing_by, initializer, task_call, variable};
ghost use Rattle.regent_grammar.specs.Symbols.{come, comes, is_mark, is_named};
ghost use Rattle.regent_lex.specs.declared.tables.Mark.TheVariants as mark;
ghost use Rattle.regent_lex.specs.declared.tables.Word.TheVariants as word;
ghost use Rattle.read_forms.specs.Targets.{accessed_of};
ghost use Rattle.read_terms.specs.Gives.{Gives};
ghost use Rattle.regent_tree.specs.Plain.{expression_of, initializer_of};
ghost use Rattle.regent_tree.specs.PlainProgram.{form_of};

use crate::initializers::{initializer, last_argument};
use plain_values::Sequence;
use read_terms::{
    Stop, arguments, before_mark, comes_mark, declared_type, expression, fields, is_mark, is_name,
    is_named, is_word, more_arguments, steps, take_library, take_mark, take_name, take_named,
    take_opening, take_text, take_word, with_first,
};
use regent_grammar::{Mark, Symbol, Terminal, Word};
use regent_tree::{Expr, How, Init, Name, Op, Step, What};
use std::alloc::Global;

/// The initializer of a variable, where it is written.
#[tactic(auto, unfolding(regent_grammar::proofs::Opening::reading))]
fn initial_value(
    alloc: Global,
    terminals: &[Terminal],
) -> Result<(Option<Init>, &[Terminal]), Stop<'_>>
    ensures { Gives (λ x. read (option_map initializer_of x.0) x.1.now) result
        (reading (maybe (comes (is_mark mark.Assign)) (a_mark mark.Assign ⊳ initializer)) terminals.now) }
{
    if comes_mark(terminals, Mark::Assign) {
        let rest = take_mark(terminals, Mark::Assign)?;
        let (initializer, rest) = initializer(alloc, rest)?;
        Ok((Some(initializer), rest))
    } else {
        Ok((None, terminals))
    }
}

/// A variable.
#[tactic(auto, unfolding(regent_grammar::proofs::Opening::reading, regent_grammar::specs::Statements::variable))]
pub fn variable(alloc: Global, terminals: &[Terminal]) -> Result<(What, &[Terminal]), Stop<'_>>
    ensures { Gives (λ x. read (form_of x.0) x.1.now) result
        (reading variable terminals.now) }
{
    let rest = take_word(terminals, Word::Var)?;
    let (name, rest) = take_name(alloc, rest)?;
    let (term, rest) = declared_type(alloc, rest)?;
    let (init, rest) = initial_value(alloc, rest)?;
    Ok((What::Var { name, term, init }, rest))
}

/// The region that is filled.
#[tactic(auto, unfolding(regent_grammar::proofs::Opening::reading))]
fn filled_region(alloc: Global, terminals: &[Terminal]) -> Result<(Name, &[Terminal]), Stop<'_>>
    ensures { Gives (λ x. read x.0 x.1.now) result
        (reading (a_word word.Fill ⊳ a_mark mark.Open ⊳ name) terminals.now) }
{
    let rest = take_opening(terminals, Word::Fill)?;
    take_name(alloc, rest)
}

/// The fields that are filled.
#[tactic(auto, unfolding(regent_grammar::proofs::Opening::reading))]
fn filled_fields(
    alloc: Global,
    terminals: &[Terminal],
) -> Result<(Sequence<Name>, &[Terminal]), Stop<'_>>
    ensures { Gives (λ x. read x.0 x.1.now) result (reading (a_mark mark.Dot ⊳ fields) terminals.now) }
{
    let rest = take_mark(terminals, Mark::Dot)?;
    fields(alloc, rest)
}

/// A `fill`.
#[tactic(auto, unfolding(regent_grammar::proofs::Opening::reading, regent_grammar::specs::Statements::filling))]
pub fn filling(alloc: Global, terminals: &[Terminal]) -> Result<(What, &[Terminal]), Stop<'_>>
    ensures { Gives (λ x. read (form_of x.0) x.1.now) result
        (reading filling terminals.now) }
{
    let (region, rest) = filled_region(alloc, terminals)?;
    let (fields, rest) = filled_fields(alloc, rest)?;
    let (value, rest) = last_argument(alloc, rest)?;
    let what = What::Fill {
        region,
        fields,
        value,
    };
    Ok((what, rest))
}

/// The text of an assertion, where there is one; the tree doesn't keep it.
#[tactic(auto, unfolding(regent_grammar::proofs::Opening::reading))]
fn assertion_text(
    alloc: Global,
    terminals: &[Terminal],
) -> Result<(Option<Sequence<u8>>, &[Terminal]), Stop<'_>>
    ensures { Gives (λ x. read x.0 x.1.now) result
        (reading (maybe (comes (is_mark mark.Comma)) (a_mark mark.Comma ⊳ text)) terminals.now) }
{
    if comes_mark(terminals, Mark::Comma) {
        let rest = take_mark(terminals, Mark::Comma)?;
        let (text, rest) = take_text(alloc, rest)?;
        Ok((Some(text), rest))
    } else {
        Ok((None, terminals))
    }
}

/// What is asserted.
#[tactic(auto, unfolding(regent_grammar::proofs::Opening::reading))]
fn asserted(alloc: Global, terminals: &[Terminal]) -> Result<(Expr, &[Terminal]), Stop<'_>>
    ensures { Gives (λ x. read (expression_of x.0) x.1.now) result
        (reading (a_word word.Regentlib ⊳ a_mark mark.Dot ⊳ named (codes "assert") ⊳ a_mark mark.Open ⊳ expression) terminals.now) }
{
    let rest = take_library(terminals, b"assert")?;
    let rest = take_mark(rest, Mark::Open)?;
    expression(alloc, rest)
}

/// An assertion.
#[tactic(auto, unfolding(regent_grammar::proofs::Opening::reading, regent_grammar::specs::Statements::assertion))]
pub fn assertion(alloc: Global, terminals: &[Terminal]) -> Result<(What, &[Terminal]), Stop<'_>>
    ensures { Gives (λ x. read (form_of x.0) x.1.now) result
        (reading assertion terminals.now) }
{
    let (test, rest) = asserted(alloc, terminals)?;
    let text = before_mark(assertion_text(alloc, rest), Mark::Close);
    let ((test, _text), rest) = with_first(test, text)?;
    Ok((What::Assert { test }, rest))
}

/// The text of a `printf`, from the dot before it on.
#[tactic(auto, unfolding(regent_grammar::proofs::Opening::reading, regent_grammar::specs::Statements::print_format))]
fn print_format(
    alloc: Global,
    terminals: &[Terminal],
) -> Result<(Sequence<u8>, &[Terminal]), Stop<'_>>
    ensures { Gives (λ x. read x.0 x.1.now) result (reading print_format terminals.now) }
{
    let rest = take_mark(terminals, Mark::Dot)?;
    let rest = take_named(rest, b"printf")?;
    let rest = take_mark(rest, Mark::Open)?;
    take_text(alloc, rest)
}

/// The arguments of a `printf` behind its text.
#[tactic(auto, unfolding(regent_grammar::proofs::Opening::reading, regent_grammar::specs::Statements::print_arguments, regent_grammar::specs::Statements::further_arguments), using(read_terms::proofs::Loops::front_none))]
fn print_arguments(
    alloc: Global,
    terminals: &[Terminal],
) -> Result<(Vec<Expr>, &[Terminal]), Stop<'_>>
    ensures { Gives (λ x. read (map expression_of x.0.items) x.1.now) result
        (reading print_arguments terminals.now) }
{
    before_mark(
        more_arguments(alloc, Vec::new(alloc), terminals),
        Mark::Close,
    )
}

/// `printf` of the library.
#[tactic(auto, unfolding(regent_grammar::proofs::Opening::reading, regent_grammar::specs::Statements::printing), using(read_terms::proofs::NodeLaws::expressions_of_map))]
pub fn printing(alloc: Global, terminals: &[Terminal]) -> Result<(What, &[Terminal]), Stop<'_>>
    ensures { Gives (λ x. read (form_of x.0) x.1.now) result
        (reading printing terminals.now) }
{
    let rest = take_library(terminals, b"c")?;
    let (format, rest) = print_format(alloc, rest)?;
    let (args, rest) = print_arguments(alloc, rest)?;
    let what = What::Print {
        alias: None,
        format,
        args,
    };
    Ok((what, rest))
}

/// `printf` of an alias.
#[tactic(auto, unfolding(regent_grammar::proofs::Opening::reading, regent_grammar::specs::Statements::printing_by), using(read_terms::proofs::NodeLaws::expressions_of_map))]
pub fn printing_by(alloc: Global, terminals: &[Terminal]) -> Result<(What, &[Terminal]), Stop<'_>>
    ensures { Gives (λ x. read (form_of x.0) x.1.now) result
        (reading printing_by terminals.now) }
{
    let (alias, rest) = take_name(alloc, terminals)?;
    let (format, rest) = print_format(alloc, rest)?;
    let (args, rest) = print_arguments(alloc, rest)?;
    let what = What::Print {
        alias: Some(alias),
        format,
        args,
    };
    Ok((what, rest))
}

/// A call of a task.
#[tactic(auto, unfolding(regent_grammar::proofs::Opening::reading, regent_grammar::specs::Statements::task_call), using(read_terms::proofs::NodeLaws::expressions_of_map))]
pub fn task_call(alloc: Global, terminals: &[Terminal]) -> Result<(What, &[Terminal]), Stop<'_>>
    ensures { Gives (λ x. read (form_of x.0) x.1.now) result
        (reading task_call terminals.now) }
{
    let (task, rest) = take_name(alloc, terminals)?;
    let (args, rest) = arguments(alloc, rest)?;
    Ok((What::Call { task, args }, rest))
}

/// Whether `min` or `max` comes next.
fn comes_extremum(terminals: &[Terminal]) -> bool
    ensures { result ≡ comes is_extremum terminals.now }
{
    match terminals {
        [] => false,
        [next, ..] => is_word(&next.symbol, Word::Min) || is_word(&next.symbol, Word::Max),
    }
}

/// `min` or `max`.
#[tactic(auto, unfolding(regent_grammar::proofs::Opening::reading, regent_grammar::specs::Statements::extremum))]
fn extremum(terminals: &[Terminal]) -> Result<(How, &[Terminal]), Stop<'_>>
    ensures { Gives (λ x. read x.0 x.1.now) result
        (reading extremum terminals.now) }
{
    match terminals {
        [] => Err(Stop::At(terminals)),
        [next, rest @ ..] => match &next.symbol {
            Symbol::Word(Word::Min) => Ok((How::Reduce(Op::Least), rest)),
            Symbol::Word(Word::Max) => Ok((How::Reduce(Op::Greatest), rest)),
            _ => Err(Stop::At(terminals)),
        },
    }
}

/// `=`, `+=` or `*=`.
#[tactic(auto, unfolding(regent_grammar::proofs::Opening::reading, regent_grammar::specs::Statements::assign_sign))]
fn assign_sign(terminals: &[Terminal]) -> Result<(How, &[Terminal]), Stop<'_>>
    ensures { Gives (λ x. read x.0 x.1.now) result
        (reading assign_sign terminals.now) }
{
    match terminals {
        [] => Err(Stop::At(terminals)),
        [next, rest @ ..] => match &next.symbol {
            Symbol::Mark(Mark::Assign) => Ok((How::Set, rest)),
            Symbol::Mark(Mark::PlusAssign) => Ok((How::Reduce(Op::Sum), rest)),
            Symbol::Mark(Mark::StarAssign) => Ok((How::Reduce(Op::Product), rest)),
            _ => Err(Stop::At(terminals)),
        },
    }
}

/// How an assignment writes.
#[tactic(auto, unfolding(regent_grammar::proofs::Opening::reading, regent_grammar::specs::Statements::assign))]
fn assign(terminals: &[Terminal]) -> Result<(How, &[Terminal]), Stop<'_>>
    ensures { Gives (λ x. read x.0 x.1.now) result
        (reading assign terminals.now) }
{
    if comes_extremum(terminals) {
        before_mark(extremum(terminals), Mark::Assign)
    } else {
        assign_sign(terminals)
    }
}

/// What an assignment writes to: a name with steps behind it.
#[derive(Drop)]
pub struct Target {
    pub name: Name,
    pub steps: Vec<Step>,
}

/// What an assignment writes to.
#[tactic(auto, unfolding(regent_grammar::proofs::Opening::reading, regent_grammar::specs::Expressions::access))]
fn take_target(alloc: Global, terminals: &[Terminal]) -> Result<(Target, &[Terminal]), Stop<'_>>
    ensures { Gives (λ x. read (accessed_of x.0) x.1.now) result
        (reading access terminals.now) }
{
    let (name, rest) = take_name(alloc, terminals)?;
    let (steps, rest) = steps(alloc, rest)?;
    Ok((Target { name, steps }, rest))
}

#[tactic(auto, using(read_terms::proofs::NodeLaws::steps_of_map))]
fn assigned(target: Target, how: How, value: Expr) -> What
    ensures { form_of result ≡ an_assignment (accessed_of target) how (expression_of value) }
{
    let Target { name, steps } = target;
    What::Assign {
        target: name,
        steps,
        how,
        value,
    }
}

/// An assignment.
#[tactic(auto, unfolding(regent_grammar::proofs::Opening::reading, regent_grammar::specs::Statements::assignment))]
pub fn assignment(alloc: Global, terminals: &[Terminal]) -> Result<(What, &[Terminal]), Stop<'_>>
    ensures { Gives (λ x. read (form_of x.0) x.1.now) result
        (reading assignment terminals.now) }
{
    let (target, rest) = take_target(alloc, terminals)?;
    let (how, rest) = assign(rest)?;
    let (value, rest) = expression(alloc, rest)?;
    Ok((assigned(target, how, value), rest))
}

/// Whether `.printf(` comes next.
fn comes_printf(terminals: &[Terminal]) -> bool
    ensures { result ≡ come (is_mark mark.Dot ∷ is_named (codes "printf") ∷ is_mark mark.Open ∷ []) terminals.now }
{
    match terminals {
        [] => false,
        [next, rest @ ..] => is_mark(&next.symbol, Mark::Dot) && comes_printf_name(rest),
    }
}

/// Whether `printf(` comes next.
fn comes_printf_name(terminals: &[Terminal]) -> bool
    ensures { result ≡ come (is_named (codes "printf") ∷ is_mark mark.Open ∷ []) terminals.now }
{
    match terminals {
        [] => false,
        [next, rest @ ..] => is_named(&next.symbol, b"printf") && comes_mark(rest, Mark::Open),
    }
}

/// Whether `printf` of an alias comes next.
pub fn comes_print_by(terminals: &[Terminal]) -> bool
    ensures { result ≡ a_named_print terminals.now }
{
    match terminals {
        [] => false,
        [next, rest @ ..] => is_name(&next.symbol) && comes_printf(rest),
    }
}

/// Whether `.assert` comes next.
fn comes_assert_name(terminals: &[Terminal]) -> bool
    ensures { result ≡ come (is_mark mark.Dot ∷ is_named (codes "assert") ∷ []) terminals.now }
{
    match terminals {
        [next, name, ..] => is_mark(&next.symbol, Mark::Dot) && is_named(&name.symbol, b"assert"),
        _ => false,
    }
}

/// Whether an assertion comes next.
pub fn comes_assert(terminals: &[Terminal]) -> bool
    ensures { result ≡ an_assert terminals.now }
{
    match terminals {
        [] => false,
        [next, rest @ ..] => is_word(&next.symbol, Word::Regentlib) && comes_assert_name(rest),
    }
}
