//! Laws of the programs that texts spell: what is proved of the trees that the reader gives holds of them.
//!
//! The laws are stated under specs/. Each function has an empty body; its contract is a law.
#![tactic(auto)]

ghost use Rattle.text_laws.specs.Example.{ExampleIsRead};
ghost use Rattle.text_laws.specs.Laws.{CallsOfTextsLieWithin, OpenedByTextsAreCovered, TextsKeepPrivileges};

/// In a program that a text spells and that has no breach, no task of a run touches an element outside its declared
/// privileges.
pub fn texts_keep_privileges()
    ensures { TextsKeepPrivileges }
{}

/// In a program that a text spells and that has no breach, each touch of each task instance that a run opens is
/// covered by what its task declares.
pub fn opened_by_texts_are_covered()
    ensures { OpenedByTextsAreCovered }
{}

/// And what each call of such an instance needs lies within what the instance has.
pub fn calls_of_texts_lie_within()
    ensures { CallsOfTextsLieWithin }
{}

/// A text that is read, and of which the premises of the law hold.
pub fn example_is_read()
    ensures { ExampleIsRead }
{}
