//! The text of a journal: written from its entries, and read back.
#![tactic(auto)]

mod entry;
mod fault;
mod numbers;
mod read;
#[cfg(test)]
mod tests;
mod write;

pub use entry::{Entry, StepKind};
pub use fault::JournalFault;
pub use read::{journal_read, texts_tell_journals};
pub use write::journal_text;
