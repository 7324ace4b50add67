//! Laws of boards that bound what an outcome takes: how long its text is, and how many numbers its roots hold.
//!
//! The laws are stated under specs/. Each function has an empty body; its contract is a law.
#![tactic(auto)]

ghost use Rattle.board_facts.specs.Laws.{ReplaysAreSound, SegmentsAreGiven, TextGrowsByWhatIsPrinted, TextIsWhatWasSaid};

/// On every board that a journal leads to, each operation but main is the child of one, what is out was lent with
/// its own roots, and each operation's roots were made.
pub fn replays_are_sound()
    ensures { ReplaysAreSound }
{}

/// The text that is told of a board is no longer than what its operations said.
#[tactic(auto, using(crate::proofs::Telling::text_is_what_was_said))]
pub fn text_is_what_was_said()
    ensures { TextIsWhatWasSaid }
{}

/// What a segment leaves that is given back: one operation changes, its last children are new, roots keep how many
/// numbers they hold or hold nothing, and what was printed is said.
pub fn segments_are_given()
    ensures given { SegmentsAreGiven }
    ensures said { TextGrowsByWhatIsPrinted }
{}
