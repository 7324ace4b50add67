//! Boards of sound code: whatever steps the seats make, each segment begins from a state that fits.
//!
//! The laws are stated under specs/. Each function has an empty body; its contract is a law.
#![tactic(auto)]

ghost use Rattle.fit_boards.specs.Boards.{BoardsFit, BoardsKeepDeclared, NoBoardBreaks, NoneIsBroken, ShownIsKnown};
ghost use Rattle.fit_boards.specs.Steps.{NewBoardsFit, OutsFit, StepsKeepFitting};

/// A new board fits, each step that its seats make keeps that, and what is handed out of a board that fits does.
pub fn steps_keep_fitting()
    ensures new { NewBoardsFit }
    ensures steps { StepsKeepFitting }
    ensures out { OutsFit }
{}

/// A state that shows a board of the boards' laws has what the steps take for granted.
pub fn shown_is_known()
    ensures { ShownIsKnown }
{}

/// Of every board to which a journal leads, where the job's code is sound and its first frame fits: what each operation
/// that is out is run from fits; so its segment isn't a machine fault, and keeps what its task declares.
pub fn boards_fit()
    ensures fits { BoardsFit }
    ensures unbroken { NoBoardBreaks }
    ensures declared { BoardsKeepDeclared }
{}

/// And no operation of such a board is broken: each call that a segment hands over is issued, and each partition is made.
pub fn none_is_broken()
    ensures { NoneIsBroken }
{}
