//! Initializers of variables.

ghost use Rattle.std.specs.Prelude.{◌≡◌, ◌∷◌, []};
ghost use Rattle.regent_grammar.specs.Expressions.{expression};
ghost use Rattle.regent_grammar.specs.Reading.{read, reading};
ghost use Rattle.regent_grammar.specs.Rules.{◌⊳◌, ◌⊲◌};
ghost use Rattle.regent_grammar.specs.Singles.{a_mark, a_word, name};
ghost use Rattle.regent_grammar.specs.Types.{space_use};
ghost use Rattle.regent_grammar.specs.Statements.{both_partitions, either_partition, equal_partition};
ghost use Rattle.regent_grammar.specs.Statements.{field_partition, is_mapping, mapped_partition};
ghost use Rattle.regent_grammar.specs.Statements.{mapping, new_region, initializer};
ghost use Rattle.regent_grammar.specs.Symbols.{come, comes, is_mark, is_word};
ghost use Rattle.regent_lex.specs.declared.tables.Mark.TheVariants as mark;
ghost use Rattle.regent_lex.specs.declared.tables.Word.TheVariants as word;
ghost use Rattle.read_forms.specs.Mappings.{mapping_by};
ghost use Rattle.read_terms.specs.Gives.{Gives};
ghost use Rattle.regent_tree.specs.Plain.{expression_of, initializer_of};

use read_terms::{
    Stop, before_mark, comes_name_before, comes_word, expression, is_mark, is_word, next_name,
    space_use, take_mark, take_name, take_opening, take_word, with_first,
};
use regent_grammar::{Mark, Symbol, Terminal, Word};
use regent_tree::{Expr, Init, Name, SpaceUse};
use std::alloc::Global;

/// The index space of a new region.
#[tactic(auto, unfolding(regent_grammar::proofs::Opening::reading))]
fn region_space(alloc: Global, terminals: &[Terminal]) -> Result<(Expr, &[Terminal]), Stop<'_>>
    ensures { Gives (λ x. read (expression_of x.0) x.1.now) result
        (reading (a_word word.Region ⊳ a_mark mark.Open ⊳ expression) terminals.now) }
{
    let rest = take_opening(terminals, Word::Region)?;
    expression(alloc, rest)
}

/// The fields of a new region.
#[tactic(auto, unfolding(regent_grammar::proofs::Opening::reading))]
fn region_fields(alloc: Global, terminals: &[Terminal]) -> Result<(SpaceUse, &[Terminal]), Stop<'_>>
    ensures { Gives (λ x. read x.0 x.1.now) result
        (reading (a_mark mark.Comma ⊳ space_use ⊲ a_mark mark.Close) terminals.now) }
{
    let rest = take_mark(terminals, Mark::Comma)?;
    before_mark(space_use(alloc, rest), Mark::Close)
}

/// A new region.
#[tactic(auto, unfolding(regent_grammar::proofs::Opening::reading, regent_grammar::specs::Statements::new_region))]
fn new_region(alloc: Global, terminals: &[Terminal]) -> Result<(Init, &[Terminal]), Stop<'_>>
    ensures { Gives (λ x. read (initializer_of x.0) x.1.now) result
        (reading new_region terminals.now) }
{
    let (space, rest) = region_space(alloc, terminals)?;
    let ((space, fields), rest) = with_first(space, region_fields(alloc, rest))?;
    Ok((Init::Region { space, fields }, rest))
}

/// The last argument, behind a comma.
#[tactic(auto, unfolding(regent_grammar::proofs::Opening::reading))]
pub fn last_argument(alloc: Global, terminals: &[Terminal]) -> Result<(Expr, &[Terminal]), Stop<'_>>
    ensures { Gives (λ x. read (expression_of x.0) x.1.now) result
        (reading (a_mark mark.Comma ⊳ expression ⊲ a_mark mark.Close) terminals.now) }
{
    let rest = take_mark(terminals, Mark::Comma)?;
    before_mark(expression(alloc, rest), Mark::Close)
}

/// The region that is divided equally.
#[tactic(auto, unfolding(regent_grammar::proofs::Opening::reading))]
fn equal_region(alloc: Global, terminals: &[Terminal]) -> Result<(Name, &[Terminal]), Stop<'_>>
    ensures { Gives (λ x. read x.0 x.1.now) result
        (reading (a_word word.Partition ⊳ a_mark mark.Open ⊳ a_word word.Equal ⊳ a_mark mark.Comma ⊳ name) terminals.now) }
{
    let rest = take_opening(terminals, Word::Partition)?;
    let rest = take_word(rest, Word::Equal)?;
    let rest = take_mark(rest, Mark::Comma)?;
    take_name(alloc, rest)
}

/// The region that is divided by a field.
#[tactic(auto, unfolding(regent_grammar::proofs::Opening::reading))]
fn field_region(alloc: Global, terminals: &[Terminal]) -> Result<(Name, &[Terminal]), Stop<'_>>
    ensures { Gives (λ x. read x.0 x.1.now) result
        (reading (a_word word.Partition ⊳ a_mark mark.Open ⊳ name) terminals.now) }
{
    let rest = take_opening(terminals, Word::Partition)?;
    take_name(alloc, rest)
}

/// The field behind a dot.
#[tactic(auto, unfolding(regent_grammar::proofs::Opening::reading))]
fn field_behind(alloc: Global, terminals: &[Terminal]) -> Result<(Name, &[Terminal]), Stop<'_>>
    ensures { Gives (λ x. read x.0 x.1.now) result
        (reading (a_mark mark.Dot ⊳ name) terminals.now) }
{
    let rest = take_mark(terminals, Mark::Dot)?;
    take_name(alloc, rest)
}

/// A partition in equal parts.
#[tactic(auto, unfolding(regent_grammar::proofs::Opening::reading, regent_grammar::specs::Statements::equal_partition))]
fn equal_partition(alloc: Global, terminals: &[Terminal]) -> Result<(Init, &[Terminal]), Stop<'_>>
    ensures { Gives (λ x. read (initializer_of x.0) x.1.now) result
        (reading equal_partition terminals.now) }
{
    let (region, rest) = equal_region(alloc, terminals)?;
    let (colours, rest) = last_argument(alloc, rest)?;
    Ok((Init::Equal { region, colours }, rest))
}

/// A partition by a field.
#[tactic(auto, unfolding(regent_grammar::proofs::Opening::reading, regent_grammar::specs::Statements::field_partition))]
fn field_partition(alloc: Global, terminals: &[Terminal]) -> Result<(Init, &[Terminal]), Stop<'_>>
    ensures { Gives (λ x. read (initializer_of x.0) x.1.now) result
        (reading field_partition terminals.now) }
{
    let (region, rest) = field_region(alloc, terminals)?;
    let (field, rest) = field_behind(alloc, rest)?;
    let (colours, rest) = last_argument(alloc, rest)?;
    let initializer = Init::ByField {
        region,
        field,
        colours,
    };
    Ok((initializer, rest))
}

/// How a partition follows from another through a field of pointers.
#[derive(Clone, Copy, Debug, PartialEq, Eq)]
pub enum Mapping {
    Image,
    Preimage,
}

/// `image` or `preimage`.
#[tactic(auto, unfolding(regent_grammar::proofs::Opening::reading, regent_grammar::specs::Statements::mapping))]
fn take_mapping(terminals: &[Terminal]) -> Result<(Mapping, &[Terminal]), Stop<'_>>
    ensures { Gives (λ x. read (mapping_by x.0) x.1.now) result
        (reading mapping terminals.now) }
{
    match terminals {
        [] => Err(Stop::At(terminals)),
        [next, rest @ ..] => match &next.symbol {
            Symbol::Word(Word::Image) => Ok((Mapping::Image, rest)),
            Symbol::Word(Word::Preimage) => Ok((Mapping::Preimage, rest)),
            _ => Err(Stop::At(terminals)),
        },
    }
}

fn mapped(mapping: Mapping, parent: Name, partition: Name, region: Name, field: Name) -> Init
    ensures { initializer_of result ≡ mapping_by mapping parent partition region field }
{
    match mapping {
        Mapping::Image => Init::Image {
            parent,
            partition,
            region,
            field,
        },
        Mapping::Preimage => Init::Preimage {
            parent,
            partition,
            region,
            field,
        },
    }
}

/// The name behind an opening parenthesis.
#[tactic(auto, unfolding(regent_grammar::proofs::Opening::reading))]
fn opened_name(alloc: Global, terminals: &[Terminal]) -> Result<(Name, &[Terminal]), Stop<'_>>
    ensures { Gives (λ x. read x.0 x.1.now) result (reading (a_mark mark.Open ⊳ name) terminals.now) }
{
    let rest = take_mark(terminals, Mark::Open)?;
    take_name(alloc, rest)
}

/// The field behind a dot, and the closing parenthesis.
#[tactic(auto, unfolding(regent_grammar::proofs::Opening::reading))]
fn last_field(alloc: Global, terminals: &[Terminal]) -> Result<(Name, &[Terminal]), Stop<'_>>
    ensures { Gives (λ x. read x.0 x.1.now) result
        (reading (a_mark mark.Dot ⊳ name ⊲ a_mark mark.Close) terminals.now) }
{
    before_mark(field_behind(alloc, terminals), Mark::Close)
}

/// An image or a preimage.
#[tactic(auto, unfolding(regent_grammar::proofs::Opening::reading, regent_grammar::specs::Statements::mapped_partition))]
fn mapped_partition(alloc: Global, terminals: &[Terminal]) -> Result<(Init, &[Terminal]), Stop<'_>>
    ensures { Gives (λ x. read (initializer_of x.0) x.1.now) result
        (reading mapped_partition terminals.now) }
{
    let (mapping, rest) = take_mapping(terminals)?;
    let (parent, rest) = opened_name(alloc, rest)?;
    let (partition, rest) = next_name(alloc, rest)?;
    let (region, rest) = next_name(alloc, rest)?;
    let (field, rest) = last_field(alloc, rest)?;
    Ok((mapped(mapping, parent, partition, region, field), rest))
}

/// The points of both partitions.
#[tactic(auto, unfolding(regent_grammar::proofs::Opening::reading, regent_grammar::specs::Statements::both_partitions))]
fn both_partitions(alloc: Global, terminals: &[Terminal]) -> Result<(Init, &[Terminal]), Stop<'_>>
    ensures { Gives (λ x. read (initializer_of x.0) x.1.now) result
        (reading both_partitions terminals.now) }
{
    let (p, rest) = before_mark(take_name(alloc, terminals), Mark::Ampersand)?;
    let (q, rest) = take_name(alloc, rest)?;
    Ok((Init::Both { p, q }, rest))
}

/// The points of either partition.
#[tactic(auto, unfolding(regent_grammar::proofs::Opening::reading, regent_grammar::specs::Statements::either_partition))]
fn either_partition(alloc: Global, terminals: &[Terminal]) -> Result<(Init, &[Terminal]), Stop<'_>>
    ensures { Gives (λ x. read (initializer_of x.0) x.1.now) result
        (reading either_partition terminals.now) }
{
    let (p, rest) = before_mark(take_name(alloc, terminals), Mark::Bar)?;
    let (q, rest) = take_name(alloc, rest)?;
    Ok((Init::Either { p, q }, rest))
}

/// Whether a partition in equal parts comes next.
fn comes_equal(terminals: &[Terminal]) -> bool
    ensures { result ≡ come (is_word word.Partition ∷ is_mark mark.Open ∷ is_word word.Equal ∷ []) terminals.now }
{
    match terminals {
        [] => false,
        [next, rest @ ..] => is_word(&next.symbol, Word::Partition)
            && comes_mark_word(rest, Mark::Open, Word::Equal),
    }
}

/// Whether this sign comes next, and this word behind it.
fn comes_mark_word(terminals: &[Terminal], mark: Mark, word: Word) -> bool
    ensures { result ≡ come (is_mark mark ∷ is_word word ∷ []) terminals.now }
{
    match terminals {
        [] => false,
        [next, rest @ ..] => is_mark(&next.symbol, mark) && comes_word(rest, word),
    }
}

/// Whether an image or a preimage comes next.
fn comes_mapping(terminals: &[Terminal]) -> bool
    ensures { result ≡ comes is_mapping terminals.now }
{
    match terminals {
        [] => false,
        [next, ..] => is_word(&next.symbol, Word::Image) || is_word(&next.symbol, Word::Preimage),
    }
}

/// The initializer of a variable.
#[tactic(auto, unfolding(regent_grammar::proofs::Opening::reading, regent_grammar::specs::Statements::initializer))]
pub fn initializer(alloc: Global, terminals: &[Terminal]) -> Result<(Init, &[Terminal]), Stop<'_>>
    ensures { Gives (λ x. read (initializer_of x.0) x.1.now) result
        (reading initializer terminals.now) }
{
    if comes_word(terminals, Word::Region) {
        new_region(alloc, terminals)
    } else if comes_equal(terminals) {
        equal_partition(alloc, terminals)
    } else if comes_word(terminals, Word::Partition) {
        field_partition(alloc, terminals)
    } else if comes_mapping(terminals) {
        mapped_partition(alloc, terminals)
    } else if comes_name_before(terminals, Mark::Ampersand) {
        both_partitions(alloc, terminals)
    } else if comes_name_before(terminals, Mark::Bar) {
        either_partition(alloc, terminals)
    } else {
        let (value, rest) = expression(alloc, terminals)?;
        Ok((Init::Plain(value), rest))
    }
}
