//! Items, and whole programs.

ghost use Rattle.std.specs.Prelude.{◌≡◌, ◌<◌, [], ◌∷◌, IfOk, length, map, false};
ghost use Rattle.regent_grammar.specs.Items.{item, item_form, program, task};
ghost use Rattle.regent_grammar.specs.Reading.{read, reading};
ghost use Rattle.regent_grammar.specs.Rules.{many};
ghost use Rattle.regent_grammar.specs.Symbols.{goes_on};
ghost use Rattle.read_terms.specs.Gives.{Gives, with_front};
ghost use Rattle.regent_tree.specs.Syntax.{task_item};
ghost use Rattle.regent_tree.specs.PlainProgram.{item_of, item_tree_of, task_of, tree_of};

use read_items::{alias, field_space, import, start_item, task_head};
use read_statements::block;
use read_terms::{Stop, comes_word, line_of, take_word};
use regent_grammar::{Terminal, Word};
use regent_tree::{Item, ItemKind, Program, Task};
use std::alloc::Global;

/// A task.
#[tactic(auto, unfolding(regent_grammar::proofs::Opening::reading, regent_grammar::specs::Items::task))]
fn task(alloc: Global, terminals: &[Terminal]) -> Result<(Task, &[Terminal]), Stop<'_>>
    ensures { Gives (λ x. read (task_item (task_of x.0)) x.1.now) result (reading task terminals.now) }
{
    let (head, rest) = task_head(alloc, terminals)?;
    let (body, rest) = block(alloc, rest)?;
    let rest = take_word(rest, Word::End)?;
    Ok((head.with_body(body), rest))
}

/// The form of an item.
#[tactic(auto, unfolding(regent_grammar::proofs::Opening::reading, regent_grammar::specs::Items::item_form))]
fn item_kind(alloc: Global, terminals: &[Terminal]) -> Result<(ItemKind, &[Terminal]), Stop<'_>>
    ensures { Gives (λ x. read (item_of x.0) x.1.now) result (reading item_form terminals.now) }
{
    if comes_word(terminals, Word::Import) {
        import(terminals)
    } else if comes_word(terminals, Word::Local) {
        alias(alloc, terminals)
    } else if comes_word(terminals, Word::Fspace) {
        let (space, rest) = field_space(alloc, terminals)?;
        Ok((ItemKind::Space(space), rest))
    } else if comes_word(terminals, Word::Task) {
        let (task, rest) = task(alloc, terminals)?;
        Ok((ItemKind::Task(task), rest))
    } else {
        start_item(alloc, terminals)
    }
}

/// An item, on the line of its first terminal.
#[tactic(auto, unfolding(regent_grammar::proofs::Opening::reading, regent_grammar::specs::Items::item))]
fn item(alloc: Global, terminals: &[Terminal]) -> Result<(Item, &[Terminal]), Stop<'_>>
    ensures { Gives (λ x. read (item_tree_of x.0) x.1.now) result (reading item terminals.now) }
{
    let line = line_of(terminals);
    let (what, rest) = item_kind(alloc, terminals)?;
    Ok((Item { line, what }, rest))
}

/// Whether terminals are left.
fn goes_on(terminals: &[Terminal]) -> bool
    ensures same { result ≡ goes_on terminals.now }
    ensures ends { result ≡ false → terminals.now ≡ [] }
{
    match terminals {
        [] => false,
        [_, ..] => true,
    }
}

/// Further items, up to the text's end.
fn more_items(
    alloc: Global,
    front: Vec<Item>,
    terminals: &[Terminal],
) -> Result<Vec<Item>, Stop<'_>>
    ensures { Gives (λ x. read (map item_tree_of x.items) []) result
        (with_front (map item_tree_of front.items) (reading (many goes_on item) terminals.now)) }
{
    let mut items = front;
    let mut rest = terminals;
    while goes_on(rest) {
        let (item, after) = item(alloc, rest)?;
        items.push(item)?;
        rest = after;
    }
    Ok(items)
}

/// The program that the terminals spell, up to the last.
#[tactic(auto, unfolding(regent_grammar::proofs::Opening::reading, regent_grammar::specs::Items::program))]
pub fn program(alloc: Global, terminals: &[Terminal]) -> Result<Program, Stop<'_>>
    ensures { Gives (λ p. read (tree_of p) []) result (reading program terminals.now) }
{
    let (first, rest) = item(alloc, terminals)?;
    let items = more_items(alloc, vec![in alloc; first]?, rest)?;
    Ok(Program { items })
}
