//! Laws of the grammar. Each function does nothing; its contract is a law.

ghost use Rattle.regent_grammar.specs.Laws.{ExcessByTerminals, LimitsButCounts};
ghost use Rattle.regent_grammar.specs.Laws.{OneTree, AllDecided, NeverBoth, OnePlace, PlaceInText, NoneBehind, ReadingIsExact};
ghost use Rattle.regent_grammar.specs.Laws.{NodesByTerminals, LiteralsFit, NumbersOfText, TokensByBytes, AllKnown};

/// Terminals are one program at most.
#[tactic(auto, using(crate::proofs::Laws::one_tree))]
pub fn one_tree()
    ensures { OneTree }
{}

/// Terminals are a program, or stop somewhere.
pub fn all_decided()
    ensures { AllDecided }
{}

/// No terminals are a program and stop somewhere.
#[tactic(auto, using(crate::proofs::Laws::never_both))]
pub fn never_both()
    ensures { NeverBoth }
{}

/// Terminals that are no program stop at one place.
#[tactic(auto, using(crate::proofs::Laws::one_place_each))]
pub fn one_place()
    ensures { OnePlace }
{}

/// The place at which terminals stop is among them, or their end.
#[tactic(auto, using(crate::proofs::Laws::place_in_text))]
pub fn place_in_text()
    ensures { PlaceInText }
{}

/// Nothing stands behind a program.
#[tactic(auto, using(crate::proofs::Laws::none_behind))]
pub fn none_behind()
    ensures { NoneBehind }
{}

/// Reading by a rule reads what the rule spells, and stops where the rule does.
pub fn reading_is_exact()
    ensures { ReadingIsExact }
{}

/// A program has two nodes at most for each of its terminals.
pub fn nodes_by_terminals()
    ensures { NodesByTerminals }
{}

/// A program's literals fit their widths where the numbers among its terminals do.
pub fn literals_fit()
    ensures { LiteralsFit }
{}

/// The numbers of a text fit their widths.
pub fn numbers_of_text()
    ensures { NumbersOfText }
{}

/// Each word and each sign of a text is one of the language.
pub fn all_known()
    ensures { AllKnown }
{}

/// A text has no more tokens than bytes.
#[tactic(auto, using(crate::proofs::LimitLaws::tokens_by_bytes))]
pub fn tokens_by_bytes()
    ensures { TokensByBytes }
{}

/// A program of a text that isn't too long is within the limits, but for what it may have too many of.
pub fn limits_but_counts()
    ensures { LimitsButCounts }
{}

/// What a program has too many of is counted by its terminals.
pub fn excess_by_terminals()
    ensures { ExcessByTerminals }
{}
