//! Boards of whole programs: whatever steps the seats make, each segment keeps what its task declares.
//!
//! The laws are stated under specs/. Each function has an empty body; its contract is a law.
#![tactic(auto)]

ghost use Rattle.sound_boards.specs.Boards.{NoOperationIsBroken, NoSegmentBreaks, WholeBoardsKeepAll};
ghost use Rattle.sound_boards.specs.Results.{BoardsComeToTheMeaning, TextsEndWell};
ghost use Rattle.sound_boards.specs.Texts.{AcceptedTextsKeepRules, BoardsOfTextsKeepAll, NoBoardOfTextsBreaks, TextsRunSoundly};

/// Of each accepted whole program, with inputs that it takes and fewer than 2^64 turns, on every board to which a
/// journal leads: what each operation that is out is run from fits, its segment keeps what its task declares, it
/// isn't a machine fault, and what it leaves fits again.
pub fn whole_boards_keep_all()
    ensures keeps { WholeBoardsKeepAll }
    ensures unbroken { NoSegmentBreaks }
{}

/// And no operation of such a board is broken: each call that a segment hands over is issued, and each partition is
/// made.
pub fn no_operation_is_broken()
    ensures { NoOperationIsBroken }
{}

/// Of each text that spells an accepted program, with no inputs at all: from every state that fits the code of its tree a segment
/// keeps what its task declares, it isn't a machine fault, and what it leaves fits again.
#[tactic(auto, using(crate::proofs::Texts::accepted_texts_keep_rules))]
pub fn accepted_texts_keep_rules()
    ensures { AcceptedTextsKeepRules }
{}

/// All this holds of each text that spells an accepted program, with nothing more asked of its tree. The code of each task is
/// sound, each segment of the run in order and of every board keeps what its task declares, and none breaks.
pub fn texts_run_soundly()
    ensures runs { TextsRunSoundly }
    ensures keeps { BoardsOfTextsKeepAll }
    ensures unbroken { NoBoardOfTextsBreaks }
{}

/// And each board of such a text has a result exactly once all that was issued on it is over, which is what the text means: what
/// it prints, what its regions hold, or its first fault. Such a meaning ends or faults.
pub fn boards_come_to_the_meaning()
    ensures comes { BoardsComeToTheMeaning }
    ensures ends { TextsEndWell }
{}
