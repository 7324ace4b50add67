//! Orders in which boards are driven.

use crate::driving::Held;

/// Which claims are taken, and which run is given next.
#[derive(Clone, Copy, Debug, PartialEq, Eq)]
pub enum Order {
    /// One claim at a time.
    OneByOne,
    /// All that is ready is claimed, and the oldest claim is given first.
    OldestFirst,
    /// All that is ready is claimed, and the newest claim is given first.
    NewestFirst,
    /// As oldest first, but every second claim is taken back when it could be run, and claimed anew.
    TakenBack,
    /// All that is ready is claimed, and the oldest claim is given when nothing else is claimed.
    FirstIsSlow,
    /// All that is ready is claimed, and main's claim is given first, and then that of the latest operation.
    LatestFirst,
}

/// All orders.
pub const ORDERS: [Order; 6] = [
    Order::OneByOne,
    Order::OldestFirst,
    Order::NewestFirst,
    Order::TakenBack,
    Order::FirstIsSlow,
    Order::LatestFirst,
];

impl Order {
    /// How many claims are out at once.
    pub fn most_claims(self) -> usize {
        match self {
            Order::OneByOne => 1,
            _ => 64,
        }
    }

    /// Which of these claims, oldest first, is given next.
    pub fn next(self, held: &[Held]) -> usize {
        match self {
            Order::OneByOne | Order::OldestFirst | Order::TakenBack => 0,
            Order::NewestFirst => held.len().saturating_sub(1),
            Order::FirstIsSlow => usize::from(held.len() > 1),
            Order::LatestFirst => latest(held),
        }
    }

    /// Whether a claim is taken back that could be run.
    pub fn takes_back(self, turn: u64) -> bool {
        self == Order::TakenBack && turn % 2 == 0
    }
}

/// The place of main's claim, or else of that of the latest operation.
fn latest(held: &[Held]) -> usize {
    let mut place = 0;
    let mut most = 0;
    for (at, one) in held.iter().enumerate() {
        let number = one.claim.op.0;
        if number == 0 {
            return at;
        }
        if number > most {
            most = number;
            place = at;
        }
    }
    place
}
