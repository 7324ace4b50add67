//! A law of the definitions. The function does nothing; its contract is the law.

ghost use Rattle.regent_reader.specs.Laws.{OneOutcome};

/// A text has one tree or one fault as its outcome, and no other.
pub fn one_outcome()
    ensures { OneOutcome }
{}
