//! Hubs.

ghost use Rattle.std.specs.Prelude.{◌≡◌, ◌+◌, ◌<◌, All, IfOk, length, vec_len};
ghost use Rattle.plain_values.specs.Points.{points};
ghost use Rattle.task_core.specs.Desks.{new_seat};
ghost use Rattle.task_hub.specs.Answers.{HasResult};
ghost use Rattle.task_hub.specs.Seats.{numbers_of, overs_of, steps_of};

use crate::locked::Locked;
use crate::seat::Seat;
use machine_terms::Ran;
use std::alloc::{AllocError, Global};
use std::sync::ledger::{Blank, Ledger, Share};
use std::sync::{Condvar, Mutex, MutexGuard, Wait};
use task_code::Job;
use task_core::{Board, Claim, Copied, Desk, Given, Work};

/// A board that the workers of many threads share, behind one lock. A seat that comes for work while nothing is ready
/// sleeps until a step may have made something ready, or there is a result.
#[derive(Drop)]
pub struct Hub<L: Ledger, O: Ledger> {
    locked: Mutex<Locked<L, O>>,
    moved: Condvar,
}

impl<L: Ledger, O: Ledger> Hub<L, O> {
    /// A hub on a new board of a job, with its seats.
    #[tactic(auto, using(crate::proofs::Seats::numbers_more))]
    pub fn open(
        alloc: Global,
        steps: Blank,
        overs: Blank,
        job: Job,
        seats: u16,
    ) -> Result<(Hub<L, O>, Vec<Seat<L, O>>), AllocError>
        requires steps { (steps.name ≡ L.name) × ((steps.parts ≡ L.parts) × (L.parts ≡ seats)) }
        requires overs { (overs.name ≡ O.name) × ((overs.parts ≡ O.parts) × (O.parts ≡ seats)) }
        ensures count { IfOk result (λ r. vec_len r.1 ≡ seats) }
        ensures numbers { IfOk result (λ r. numbers_of r.1.items ≡ points seats) }
        ensures new { IfOk result (λ r. All (λ s. s.seated ≡ new_seat) r.1.items) }
    {
        let (step_book, mut step_share) = steps.open::<L>();
        let (over_book, mut over_share) = overs.open::<O>();
        let board = Board::open(alloc, job)?;
        let mut all = Vec::new(alloc);
        for number in 0..seats {
            let steps = step_share.split_off(1, 0);
            let overs = over_share.split_off(1, 0);
            all.push(Seat::new(number, steps, overs))?;
        }
        let locked = Locked {
            board,
            steps: step_book,
            overs: over_book,
            step_rest: step_share,
            over_rest: over_share,
        };
        let hub = Hub {
            locked: Mutex::new(locked),
            moved: Condvar::new(),
        };
        Ok((hub, all))
    }

    /// The board, once all seats are back.
    pub fn close(self, seats: Vec<Seat<L, O>>) -> Board
        requires steps { vec_len seats ≡ L.parts }
        requires overs { vec_len seats ≡ O.parts }
        ensures steps { length result.journal ≡ steps_of seats.items }
        ensures over { 0 < overs_of seats.items → HasResult result }
    {
        let Hub { locked, moved: _ } = self;
        let Locked {
            board,
            steps: mut step_book,
            overs: mut over_book,
            step_rest: mut steps,
            over_rest: mut overs,
        } = locked.into_inner();
        gather(seats, &mut steps, &mut overs);
        step_book.audit(&mut steps);
        over_book.audit(&mut overs);
        board
    }
}

/// All parts of seats go to others.
fn gather<L: Ledger, O: Ledger>(seats: Vec<Seat<L, O>>, steps: &mut Share<L>, overs: &mut Share<O>)
    ensures steps { (steps.new.parts ≡ steps.old.parts + vec_len seats) × (steps.new.amount ≡ steps.old.amount + steps_of seats.items) }
    ensures overs { (overs.new.parts ≡ overs.old.parts + vec_len seats) × (overs.new.amount ≡ overs.old.amount + overs_of seats.items) }
{
    for seat in seats {
        seat.leave(steps, overs);
    }
}

impl<L: Ledger, O: Ledger> Hub<L, O> {
    /// Lets the lock go and wakes seats that sleep: all of them where there is a result, and one where an operation is
    /// ready, which wakes the next one when it has claimed.
    fn let_go(&self, locked: MutexGuard<'_, Locked<L, O>>) {
        let over = locked.board().result().is_some();
        let ready = locked.board().has_ready();
        drop(locked);
        if over {
            self.moved.notify_all();
        } else if ready {
            self.moved.notify_one();
        }
    }
}

impl<L: Ledger + Sync, O: Ledger + Sync> Desk for Hub<L, O> {
    type Seat = Seat<L, O>;

    ghost seated = { λ s. s.seated };

    fn claim<R: Wait>(&self, rt: &R, seat: &mut Seat<L, O>) -> Result<Work, AllocError> {
        let mut locked = self.locked.lock(rt);
        for _ in rt.forever() {
            if let Some(answer) = locked.claim(seat).transpose() {
                self.let_go(locked);
                return answer;
            }
            locked = self.moved.wait(rt, locked);
        }
        unreachable!()
    }

    fn copy<R: Wait>(
        &self,
        rt: &R,
        seat: &mut Seat<L, O>,
        claim: Claim,
    ) -> Result<Copied, AllocError> {
        self.locked.lock(rt).copy(seat, claim)
    }

    fn give<R: Wait>(
        &self,
        rt: &R,
        seat: &mut Seat<L, O>,
        claim: Claim,
        ran: Ran,
    ) -> Result<Given, (AllocError, Ran)> {
        let mut locked = self.locked.lock(rt);
        let given = locked.give(seat, claim, ran);
        self.let_go(locked);
        given
    }

    fn take_back<R: Wait>(&self, rt: &R, seat: &mut Seat<L, O>, claim: Claim) -> bool {
        let mut locked = self.locked.lock(rt);
        let taken = locked.take_back(seat, claim);
        self.let_go(locked);
        taken
    }
}
