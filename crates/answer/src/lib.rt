#![tactic(auto)]
// What a call answers, and one place that gives the paper's numbers for it.
mod numbers;

ghost use Rattle.std.specs.Prelude.{◌≡◌, ◌≤◌};
ghost use Rattle.answer.specs.Answer.{outcome_as};

use budget::{Budget, Cut, Store};
pub use numbers::Numbers;
use std::fmt;

// The refusals, 1 to 10 in the order of their numbers. A short buffer tells the length that it would take.
#[derive(Clone, Copy, Debug, PartialEq, Eq)]
pub enum Refusal {
    Geometry,
    NoStore,
    Unfinished,
    Reserved,
    Empty,
    TooLong,
    NoRoom,
    Absent,
    BadData,
    ShortBuffer(usize),
}

// A refusal's name, and the length that goes with it.
impl fmt::Display for Refusal {
    fn fmt<W: fmt::Write>(&self, f: &mut fmt::Formatter<W>) -> fmt::Result {
        match self {
            Refusal::Geometry => write!(f, "geometry"),
            Refusal::NoStore => write!(f, "no store"),
            Refusal::Unfinished => write!(f, "unfinished"),
            Refusal::Reserved => write!(f, "reserved"),
            Refusal::Empty => write!(f, "empty"),
            Refusal::TooLong => write!(f, "too long"),
            Refusal::NoRoom => write!(f, "no room"),
            Refusal::Absent => write!(f, "absent"),
            Refusal::BadData => write!(f, "bad data"),
            Refusal::ShortBuffer(length) => write!(f, "short buffer {length}"),
        }
    }
}

impl std::error::Error for Refusal {}

// What a read answers: the value's length, or a refusal.
pub type Reply = Result<usize, Refusal>;

// What a format, mount, write or delete came to: all stores made, with their number and the turns; or cut at the
// allowance, with the stores made. No Result: a cut is no error of the call, its stores stay and are told.
#[derive(Clone, Copy, Debug, PartialEq, Eq)]
pub enum Answer {
    Done { stores: u32, turns: u32 },
    Cut { stores: u32 },
}

impl fmt::Display for Answer {
    fn fmt<W: fmt::Write>(&self, f: &mut fmt::Formatter<W>) -> fmt::Result {
        match self {
            Answer::Done { stores, turns } => write!(f, "stores {stores} turns {turns}"),
            Answer::Cut { stores } => write!(f, "cut stores {stores} turns 0"),
        }
    }
}

// The answer, and the last store made, which gives the driver its trace.
#[derive(Clone, Copy)]
pub struct Outcome {
    pub answer: Answer,
    pub last: Option<Store>,
}

impl Outcome {
    // By what is left of the allowance, whether the stores were cut, and the turns of a call that was not.
    pub fn ended(allowance: u32, budget: Budget, made: Result<(), Cut>, turns: u32) -> Outcome
        requires { budget.left ≤ allowance }
        ensures { result ≡ outcome_as allowance budget made turns }
    {
        let answer = match made {
            Ok(()) => Answer::Done {
                stores: allowance - budget.left,
                turns,
            },
            Err(Cut) => Answer::Cut { stores: allowance },
        };
        Outcome {
            answer,
            last: budget.last,
        }
    }
}
