//! Laws of the definitions. Each function has an empty body; its contract is a law.

ghost use Rattle.regent_run.specs.Programs.{AcceptedTextsAreRun, ComesToOneStatus, RunsComeToAnEnd};

/// A text has at most one status for each deed.
pub fn texts_have_one_status()
    ensures { ComesToOneStatus }
{}

/// If a text is an accepted program, and the words are its arguments, its run results in 0 or 1.
pub fn runs_come_to_an_end()
    ensures { RunsComeToAnEnd }
{}

/// Each accepted text that is run results in 0 or 1, or in 9 if the words aren't its arguments.
pub fn accepted_texts_are_run()
    ensures { AcceptedTextsAreRun }
{}
