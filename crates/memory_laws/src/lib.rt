//! Laws of the memory of a run in order: what the roots hold, overlaid by the parts that are held, is the
//! store of the meaning.
//!
//! The relation is `Holds`, in specs/Memory. Each function has an empty body; its contract is a law.
#![tactic(auto)]

ghost use Rattle.memory_laws.specs.Beginning.{BegunHolds, FirstHolds};
ghost use Rattle.memory_laws.specs.Closing.{ClosedStands, EndsWithStore, ReturnedHolds};
ghost use Rattle.memory_laws.specs.Covering.{CoveredStays, MadeCovers};
ghost use Rattle.memory_laws.specs.Example.{ExampleHolds};
ghost use Rattle.memory_laws.specs.Fetching.{FetchedChangesNothing, FetchedHolds};
ghost use Rattle.memory_laws.specs.Finding.{AllowedIsWritten, CoveredIsFound, FetchedIsFound, FoundIsRead};
ghost use Rattle.memory_laws.specs.Giving.{AloneIsTheStore, GivenHolds, GivenIsSeen, GivenKeepsNumbers, GivenStands};
ghost use Rattle.memory_laws.specs.Making.{MadeHolds, MadeIsNumbered, MadeIsOwn};
ghost use Rattle.memory_laws.specs.Setting.{SetCellsHold, SetCellsShow};

/// The first task has the empty store, and a child that of its caller.
pub fn instances_begin()
    ensures first { FirstHolds }
    ensures child { BegunHolds }
{}

/// A touch that the needs allow finds its cell, or a part that isn't held and then is fetched.
pub fn touches_find()
    ensures covered { CoveredIsFound }
    ensures fetched { FetchedIsFound }
    ensures read { FoundIsRead }
    ensures written { AllowedIsWritten }
{}

/// Touches that the needs allow stay covered, whatever is set, fetched, given back or made.
pub fn touches_stay_covered()
    ensures kept { CoveredStays }
    ensures made { MadeCovers }
{}

/// A part that is fetched changes nothing that is seen.
pub fn wants_are_met()
    ensures seen { FetchedChangesNothing }
    ensures holds { FetchedHolds }
{}

/// A cell that is set shows at its point alone, as the store's number does that is written or folded in.
pub fn cells_are_set()
    ensures seen { SetCellsShow }
    ensures holds { SetCellsHold }
{}

/// Parts that go back leave at each point what was seen; what the roots hold is then the store.
pub fn parts_go_back()
    ensures seen { GivenIsSeen }
    ensures numbers { GivenKeepsNumbers }
    ensures alone { GivenStands }
    ensures holds { GivenHolds }
    ensures exact { AloneIsTheStore }
{}

/// A root that is made is one more of the store, of zeros.
pub fn roots_are_made()
    ensures holds { MadeHolds }
    ensures numbered { MadeIsNumbered }
    ensures own { MadeIsOwn }
{}

/// A call's own roots are closed behind it, as the store drops them.
pub fn own_roots_are_closed()
    ensures closed { ClosedStands }
    ensures returned { ReturnedHolds }
    ensures end { EndsWithStore }
{}

/// Roots, parts and cells of which each premise holds: a point that is written and one that is reduced are
/// seen and given back.
pub fn example_holds()
    ensures { ExampleHolds }
{}
