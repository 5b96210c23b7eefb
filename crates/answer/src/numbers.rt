// The paper's numbers of the answers.
ghost use Rattle.std.specs.Prelude.{◌≡◌};
ghost use Rattle.rules.specs.Calls as rule;
ghost use Rattle.answer.specs.Answer.{refusal_of, numbers_of, reply_numbers_of, answer_numbers_of};

use crate::{Answer, Outcome, Refusal, Reply};

// The number of an answer, and the numbers that go with it: 0 where it tells none.
#[derive(Clone, Copy, Debug, PartialEq, Eq)]
pub struct Numbers {
    pub number: u32,
    pub stores: u32,
    pub turns: u32,
    pub length: usize,
}

impl Refusal {
    // Its number: C and the driver's lines tell a refusal by that.
    #[tactic(auto, unfolding(rules::specs::Calls::refusal_number))]
    fn number(self) -> u32
        ensures { result ≡ rule.refusal_number (refusal_of self) }
    {
        match self {
            Refusal::Geometry => 1,
            Refusal::NoStore => 2,
            Refusal::Unfinished => 3,
            Refusal::Reserved => 4,
            Refusal::Empty => 5,
            Refusal::TooLong => 6,
            Refusal::NoRoom => 7,
            Refusal::Absent => 8,
            Refusal::BadData => 9,
            Refusal::ShortBuffer(_) => 10,
        }
    }

    // The length that goes with it: a short buffer's; otherwise 0, as the rules tell it (`length_told`).
    #[tactic(auto, unfolding(rules::specs::Calls::length_told))]
    fn length(self) -> usize
        ensures { result ≡ rule.length_told (refusal_of self) }
    {
        match self {
            Refusal::ShortBuffer(length) => length,
            _ => 0,
        }
    }
}

impl Numbers {
    // Of a call that stores and was not refused: it tells no length.
    fn made(number: u32, stores: u32, turns: u32) -> Numbers
        ensures { numbers_of result ≡ record { number = number; stores = stores; turns = turns; length = 0 } }
    {
        Numbers {
            number,
            stores,
            turns,
            length: 0,
        }
    }
}

impl From<Refusal> for Numbers {
    ghost from_gives = { λ refusal numbers. numbers_of numbers ≡ rule.reply_numbers (rule.refused (refusal_of refusal)) };

    #[tactic(auto, unfolding(rules::specs::Calls::reply_numbers))]
    fn from(refusal: Refusal) -> Numbers {
        Numbers {
            number: refusal.number(),
            stores: 0,
            turns: 0,
            length: refusal.length(),
        }
    }
}

// What a read answers tells a length, and neither stores nor turns.
impl From<Reply> for Numbers {
    ghost from_gives = { λ reply numbers. numbers_of numbers ≡ reply_numbers_of reply };

    fn from(reply: Reply) -> Numbers {
        match reply {
            Ok(length) => Numbers {
                number: 0,
                stores: 0,
                turns: 0,
                length,
            },
            Err(refusal) => Numbers::from(refusal),
        }
    }
}

// What a call that stores answers tells stores and turns; a length with a refusal alone.
impl From<Result<Outcome, Refusal>> for Numbers {
    ghost from_gives = { λ made numbers. numbers_of numbers ≡ answer_numbers_of made };

    #[tactic(auto, unfolding(rules::specs::Calls::reply_numbers, rules::specs::Calls::answer_numbers))]
    fn from(made: Result<Outcome, Refusal>) -> Numbers {
        match made {
            Ok(outcome) => match outcome.answer {
                Answer::Done { stores, turns } => Numbers::made(0, stores, turns),
                Answer::Cut { stores } => Numbers::made(11, stores, 0),
            },
            Err(refusal) => Numbers::from(refusal),
        }
    }
}
