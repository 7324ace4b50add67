//! Text that operations print.

ghost use Rattle.std.specs.Prelude.{◌≡◌, IfOk, OnErr, OnOk};
ghost use Rattle.board_gives.specs.Gives.{also_told};
ghost use Rattle.board_terms.specs.declared.operation.Operation.{Operation as operation_term};

use board_terms::{Operation, Said};
use plain_values::Sequence;
use std::alloc::{AllocError, Global};

/// An operation prints text, if any.
pub fn tell(alloc: Global, operation: &mut Operation, text: &[u8]) -> Result<(), AllocError>
    ensures told { OnOk result (operation.new ≡ also_told operation.old text.now) }
    ensures unchanged { OnErr result (operation.new ≡ operation.old) }
{
    if text.is_empty() {
        return Ok(());
    }
    let said = Said {
        children: operation.children.len() as u64,
        text: Sequence::from_slice(alloc, text)?,
    };
    operation.said.push(said)
}

/// What an operation printed last is taken back.
#[tactic(auto, using(crate::proofs::Tellings::said_before))]
pub fn untell(operation: &mut Operation, text: &[u8])
    ensures { (o : operation_term) → operation.old ≡ also_told o text.now → operation.new ≡ o }
{
    if !text.is_empty() {
        operation.said.pop();
    }
}
