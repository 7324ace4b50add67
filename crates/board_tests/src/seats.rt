//! A hub whose one seat makes each call.

ghost use Rattle.std.specs.Prelude.{◌≡◌};

use crate::jobs::{Main, job};
use crate::looks::{finished, is_of_main, main_claim};
use machine_terms::{Before, Ran};
use plain_values::Shared;
use run_journal::StepKind;
use std::alloc::{AllocError, Global};
use std::marker::Brand;
use std::sync::Wait;
use std::sync::ledger::{Blank, Ledger};
use std::test::Fail;
use task_core::{Board, Claim, Copied, Desk, Given, Work};
use task_hub::Hub;
use task_machine::run_segment;

/// A call of a seat with the number 0, and what it is answered.
#[derive(Clone, Copy)]
enum Do {
    /// It claims main, under this turn.
    Claim(u64),
    /// It takes such a claim back, or there is nothing to take back.
    Back(u64, bool),
    /// A copy finds that such a claim isn't being filled.
    CopyGone(u64),
    /// A copy starts the segment of such a claim.
    CopyStart(u64),
    /// The run of the segment that was started is taken under such a claim, or comes back with nothing.
    Give(u64, bool),
    /// It comes for work, and all is over.
    Over,
}

static CALLS: [Do; 9] = [
    Do::Claim(0),
    Do::Back(0, true),
    Do::Back(0, false),
    Do::Claim(1),
    Do::CopyGone(0),
    Do::CopyStart(1),
    Do::Give(0, false),
    Do::Give(1, true),
    Do::Over,
];

static STEPS: [StepKind; 5] = [
    StepKind::Claim,
    StepKind::Back,
    StepKind::Claim,
    StepKind::Copy,
    StepKind::Give,
];

fn is_work(answer: Result<Work, AllocError>, work: Work) -> Result<bool, AllocError> {
    Ok(answer? == work)
}

fn is_gone(copied: Result<Copied, AllocError>) -> Result<bool, AllocError> {
    Ok(matches!(copied?, Copied::Gone))
}

/// Whether a copy starts a segment; what that is run from is kept.
fn starts(
    copied: Result<Copied, AllocError>,
    started: &mut Option<Shared<Before>>,
) -> Result<bool, AllocError> {
    match copied? {
        Copied::Start(before) => {
            *started = Some(before);
            Ok(true)
        }
        Copied::More | Copied::Gone => Ok(false),
    }
}

/// Runs the segment that was started.
fn run_started(alloc: Global, started: &Option<Shared<Before>>) -> Result<Ran, AllocError> {
    match started {
        Some(before) => run_segment(alloc, before.share()?),
        None => Err(AllocError),
    }
}

/// Gives a run, and returns whether it is taken, or else comes back with nothing.
fn gives<D: Desk, R: Wait>(
    rt: &R,
    desk: &D,
    seat: &mut D::Seat,
    claim: Claim,
    ran: Result<Ran, AllocError>,
    taken: bool,
) -> Result<bool, AllocError> {
    match desk.give(rt, seat, claim, ran?) {
        Ok(Given::Taken) => Ok(taken),
        Ok(Given::Stranger(_, kept)) => Ok(!taken && kept.is_none()),
        Err((failed, _)) => Err(failed),
    }
}

/// Makes a call, and returns whether it is answered so.
fn is_answered<D: Desk, R: Wait>(
    rt: &R,
    alloc: Global,
    desk: &D,
    seat: &mut D::Seat,
    started: &mut Option<Shared<Before>>,
    call: Do,
) -> Result<bool, AllocError> {
    match call {
        Do::Claim(turn) => is_work(desk.claim(rt, seat), Work::Run(main_claim(0, turn))),
        Do::Back(turn, taken) => Ok(desk.take_back(rt, seat, main_claim(0, turn)) == taken),
        Do::CopyGone(turn) => is_gone(desk.copy(rt, seat, main_claim(0, turn))),
        Do::CopyStart(turn) => starts(desk.copy(rt, seat, main_claim(0, turn)), started),
        Do::Give(turn, taken) => gives(
            rt,
            desk,
            seat,
            main_claim(0, turn),
            run_started(alloc, started),
            taken,
        ),
        Do::Over => is_work(desk.claim(rt, seat), Work::Over),
    }
}

/// The place of the first call that is answered otherwise.
fn first_wrong<D: Desk, R: Wait>(
    rt: &R,
    alloc: Global,
    desk: &D,
    seat: &mut D::Seat,
    started: &mut Option<Shared<Before>>,
) -> Result<Option<usize>, AllocError> {
    for (place, call) in CALLS.iter().enumerate() {
        if !is_answered(rt, alloc, desk, seat, started, *call)? {
            return Ok(Some(place));
        }
    }
    Ok(None)
}

/// What is seen of a hub with one seat when the seat has made its calls.
#[derive(Clone, Copy, Debug, PartialEq, Eq)]
struct Seen {
    /// The number of the seat.
    number: u16,
    /// The place of the first call that was answered otherwise.
    wrong: Option<usize>,
    /// Whether the board has finished, where it has a result.
    finished: Option<bool>,
    /// Whether it has made these steps.
    has_made: bool,
}

fn seen_after(
    number: u16,
    wrong: Result<Option<usize>, AllocError>,
    board: &Board,
) -> Result<Seen, AllocError> {
    Ok(Seen {
        number,
        wrong: wrong?,
        finished: finished(board),
        has_made: is_of_main(board.journal(), number, &STEPS),
    })
}

fn by_one_seat<L: Ledger + Sync, O: Ledger + Sync, R: Wait>(
    rt: &R,
    alloc: Global,
    steps: Blank,
    overs: Blank,
) -> Result<Seen, AllocError>
    requires steps { (steps.name ≡ L.name) × ((steps.parts ≡ L.parts) × (L.parts ≡ 1)) }
    requires overs { (overs.name ≡ O.name) × ((overs.parts ≡ O.parts) × (O.parts ≡ 1)) }
{
    let job = job(alloc, Main::Calls(0))?;
    let (hub, mut seats) = Hub::<L, O>::open(alloc, steps, overs, job, 1)?;
    let wrong = first_wrong(rt, alloc, &hub, &mut seats[0], &mut None);
    let number = seats[0].number();
    let board = hub.close(seats);
    seen_after(number, wrong, &board)
}

#[test]
fn one_seat(rt: HostRuntime) -> Result<(), Fail> {
    let seen = by_one_seat::<Brand, Brand, _>(&rt, rt.alloc(), Blank::new(1), Blank::new(1))?;
    let wanted = Seen {
        number: 0,
        wrong: None,
        finished: Some(true),
        has_made: true,
    };
    assert_eq!(rt; seen, wanted);
    Ok(())
}
